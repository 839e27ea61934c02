// The lent blocks of a coupler's settings and memory, and the outcome of a step as a number.
ghost use Rattle.std.specs.Prelude.{◌≡◌, ◌≤◌, cond};
ghost use Rattle.frame.specs.Answers.{refusal_number};
ghost use Rattle.coupler.specs.Step.{acknowledgement_number};
ghost use Rattle.klumdray.specs.Block.{are_settings, setting_in, codes_in, outcome_number};
ghost use Rattle.klumdray.specs.Stages.{side_or_none, start_of, kept_in, remembered_at};

use coupler::{Acknowledgement, Outcome, Setting};
use frame::Refusal;

// A block of settings by its size.
pub(crate) fn are_settings(settings: &[u8]) -> bool
    ensures { result ≡ are_settings settings.now }
{
    settings.len() == 10
}

pub(crate) fn setting_in(settings: &[u8], side: u8) -> Setting
    ensures { result ≡ setting_in settings.now side }
{
    Setting {
        line: octets::octet(settings, 0),
        side,
        medium: octets::octet(settings, 9),
    }
}

pub(crate) fn codes_in(settings: &[u8]) -> [[u8; 4]; 2]
    ensures { result ≡ codes_in settings.now }
{
    passing::settings::codes_from(settings, 1)
}

// A side in so many bits that the step inside takes; every number that is none is 2.
// A number, as the C interface has it.
pub(crate) fn side_of(side: u32) -> u8
    ensures { result ≡ side_or_none side }
{
    if side < 2 { side as u8 } else { 2 }
}

// Where the half of a side begins.
pub(crate) fn start_of(side: u8) -> usize
    ensures { (result ≡ start_of side) × (result ≤ 265) }
{
    if side == 0 { 0 } else { 265 }
}

// How many octets of a half are the remembered frame's. Block and start stay two parameters: this reads
// the block and `remember` writes it, so that a struct of both would be made for each of them.
pub(crate) fn kept_in(block: &[u8], start: usize) -> usize
    ensures { (result ≡ kept_in block.now start) × (result ≤ 263) }
{
    let size = octets::word_at(block, start);
    if size <= 263 { size as usize } else { 0 }
}

// Puts an accepted frame into a half of the block.
fn remember(block: &mut [u8], start: usize, frame: &[u8])
    requires { start ≤ 265 }
    ensures { block.new ≡ remembered_at start frame.now block.old }
{
    let size = (frame.len() % 65536) as u16;
    let head = [octets::high_octet(size), octets::low_octet(size)];
    octets::lay(&head, start, block);
    octets::lay(frame, start + 2, block);
}

pub(crate) fn remember_if(accepted: bool, block: &mut [u8], start: usize, frame: &[u8])
    requires { start ≤ 265 }
    ensures { block.new ≡ cond accepted (remembered_at start frame.now block.old) block.old }
{
    if accepted {
        remember(block, start, frame);
    }
}

// The numbers of include/klumdray.h.
fn of_acknowledgement(acknowledgement: Acknowledgement) -> u8
    ensures { result ≡ acknowledgement_number acknowledgement }
{
    match acknowledgement {
        Acknowledgement::Silence => 0,
        Acknowledgement::Acknowledged => 0xCC,
    }
}

fn of_refusal(refusal: Option<Refusal>) -> u8
    ensures { result ≡ refusal_number refusal }
{
    refusal.map_or(0, |refusal| refusal.number())
}

pub(crate) fn of_outcome(outcome: Outcome) -> u64
    ensures { result ≡ outcome_number outcome }
{
    let number = of_refusal(outcome.refusal);
    let answer = of_acknowledgement(outcome.acknowledgement) as u64;
    let own = octets::flag(outcome.own, 1) as u64;
    let forwarded = (outcome.forwarded % 65536) as u64;
    number as u64 + answer * 256 + own * 65536 + forwarded * 4294967296
}
