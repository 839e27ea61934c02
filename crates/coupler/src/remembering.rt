// The frames that the TP1 sides remember.
ghost use Rattle.std.specs.Prelude.{◌≡◌};
ghost use Rattle.coupler.specs.Memory.{no_frame, recalled, remembering, side_of, remembered_on};
ghost use Rattle.coupler.specs.Stages.{remembered_if};

use crate::{Memory, Remembered};

#[tactic(auto, unfolding(crate::specs::Memory::zeros))]
pub(crate) fn none() -> Remembered
    ensures { result ≡ no_frame }
{
    Remembered {
        size: 0,
        octets: [0u8; 263],
    }
}

impl Remembered {
    // The frame as a part of the octets, none if there is none; a size that no frame has is none.
    #[tactic(auto, unfolding(crate::specs::Memory::recalled, crate::specs::Memory::kept))]
    pub(crate) fn frame(&self) -> &[u8]
        ensures { result.now ≡ recalled self.now }
    {
        let kept = if self.size <= 263 { self.size } else { 0 };
        &self.octets[..kept]
    }

    #[tactic(auto, unfolding(crate::specs::Memory::remembering))]
    fn remember(&mut self, frame: &[u8])
        ensures { self.new ≡ remembering self.old frame.now }
    {
        octets::lay(frame, 0, &mut self.octets);
        self.size = frame.len();
    }
}

impl Memory {
    // The side is the Setting's number.
    pub(crate) fn side_of(&self, side: u8) -> &Remembered
        ensures { result.now ≡ side_of self.now side }
    {
        if side == 0 { &self.main } else { &self.sub }
    }

    #[tactic(auto, unfolding(crate::specs::Memory::remembered_on))]
    fn remember_on(&mut self, side: u8, frame: &[u8])
        ensures { self.new ≡ remembered_on self.old side frame.now }
    {
        if side == 0 {
            self.main.remember(frame);
        } else {
            self.sub.remember(frame);
        }
    }

    #[tactic(auto, unfolding(crate::specs::Stages::remembered_if))]
    pub(crate) fn remembered_if(&mut self, accepted: bool, side: u8, frame: &[u8])
        ensures { self.new ≡ remembered_if accepted self.old side frame.now }
    {
        if accepted {
            self.remember_on(side, frame);
        }
    }
}
