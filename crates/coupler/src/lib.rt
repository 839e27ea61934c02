// One coupler step: what is forwarded, what is acknowledged, what is remembered.
#![tactic(auto)]

mod forwarding;
mod remembering;
mod repeating;

ghost use Rattle.std.specs.Prelude.{◌≡◌};
ghost use Rattle.coupler.specs.Setting.{setting_of, hopped_by};
ghost use Rattle.coupler.specs.Memory.{no_memory, is_repetition};
ghost use Rattle.coupler.specs.Step.{coupler_in, from_ip, HandedOn, Did};

use frame::Refusal;

// A coupler's numbers: own line, receiving side (0 main, 1 sub), main medium (0 TP1, 1 IP). They are numbers and no enums, for a step that is given
// another is refused by 14 (`refused-14`).
#[derive(Clone, Copy, PartialEq, Eq, Debug)]
pub struct Setting {
    pub line: u8,
    pub side: u8,
    pub medium: u8,
}

// A coupler: its numbers, its codes by direction and class, its filter table.
#[derive(Clone, Copy, PartialEq, Eq, Debug)]
pub struct Coupler<'a> {
    pub setting: Setting,
    pub codes: [[u8; 4]; 2],
    pub table: &'a [u8],
}

// "CCh", or "no acknowledgement": the two by name, and no Option, for the one has no value but CCh.
#[derive(Clone, Copy, PartialEq, Eq, Debug)]
pub enum Acknowledgement {
    Silence,
    Acknowledged,
}

// "The step's result: number, acknowledgement or none, for itself or not, octets forwarded (0 if none)." The number is the refusal's.
#[derive(Clone, Copy, PartialEq, Eq, Debug)]
pub struct Outcome {
    pub refusal: Option<Refusal>,
    pub acknowledgement: Acknowledgement,
    pub own: bool,
    pub forwarded: usize,
}

// The last accepted frame of a TP1 side; size 0 is none. A buffer with its size, as a lent block has it, for there is no heap.
#[derive(Clone, Copy, PartialEq, Eq, Debug)]
pub struct Remembered {
    pub size: usize,
    pub octets: [u8; 263],
}

#[derive(Clone, Copy, PartialEq, Eq, Debug)]
pub struct Memory {
    pub main: Remembered,
    pub sub: Remembered,
}

#[derive(Clone, Copy, PartialEq, Eq, Debug)]
pub struct Stepped {
    pub outcome: Outcome,
    pub memory: Memory,
}

// The numbers as a Setting (docs/DECISIONS.md: report and the programs make theirs by it).
pub fn setting_of(line: u8, side: u8, medium: u8) -> Setting
    ensures { result ≡ setting_of line side medium }
{
    Setting { line, side, medium }
}

impl Setting {
    // The count with which this coupler forwards a frame.
    fn hopped(self, count: u8) -> u8
        ensures { result ≡ hopped_by self count }
    {
        passing::hopped_count(count)
    }
}

// "An accepted frame marked repeated is a repetition if" it agrees with the remembered one (no octets: none), as R-2 has it.
#[tactic(auto, unfolding(crate::specs::Memory::is_repetition))]
pub fn is_repetition(remembered: &[u8], octets: &[u8]) -> bool
    ensures { result ≡ is_repetition remembered.now octets.now }
{
    let meaning = tp1::meaning_in(octets);
    !meaning.first && repeating::agree(remembered, octets)
}

// "at the start none"
pub fn nothing_remembered() -> Memory
    ensures { result ≡ no_memory }
{
    let main = remembering::none();
    let sub = remembering::none();
    Memory { main, sub }
}

impl<'a> Coupler<'a> {
    // "The main side is TP1 or IP; the sub side is TP1."
    pub fn from_ip(&self) -> bool
        ensures { result ≡ from_ip (coupler_in self.now) }
    {
        (self.setting.side == 0) & (self.setting.medium == 1)
    }

    // One frame handed on or not: all that a step decides, with the frame that its side remembers (no octets: none).
    pub fn hand_on(&self, remembered: &[u8], octets: &[u8], room: &mut [u8]) -> Outcome
        ensures { HandedOn (coupler_in self.now) remembered.now octets.now room.old result room.new }
    {
        match self.judge(room.len()) {
            Err(refusal) => self.refused(octets, refusal),
            Ok(()) => self.receive(remembered, octets, room),
        }
    }

    // One step, its memory by value: the core that the step in place stands on (docs/DECISIONS.md).
    pub fn step(&self, memory: Memory, octets: &[u8], room: &mut [u8]) -> Stepped
        ensures { Did (coupler_in self.now) memory octets.now room.old result.outcome result.memory room.new }
    {
        let remembered = memory.side_of(self.setting.side).frame();
        let outcome = self.hand_on(remembered, octets, room);
        let accepted = outcome.refusal.is_none() & !self.from_ip();
        let mut memory = memory;
        memory.remembered_if(accepted, self.setting.side, octets);
        Stepped { outcome, memory }
    }

    // The same step, lent the remembered frames and changing them in place.
    pub fn step_in_place(&self, memory: &mut Memory, octets: &[u8], room: &mut [u8]) -> Outcome
        ensures { Did (coupler_in self.now) memory.old octets.now room.old result memory.new room.new }
    {
        let stepped = self.step(*memory, octets, room);
        *memory = stepped.memory;
        stepped.outcome
    }
}
