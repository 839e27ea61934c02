// TP1 data frames, standard and extended: read, the payload handed out, written.
#![tactic(auto)]

mod reading;
mod writing;

ghost use Rattle.std.specs.Prelude.{◌≡◌, length};
ghost use Rattle.octets.specs.Part.{PartAt};
ghost use Rattle.frame.specs.Valid.{in_range};
ghost use Rattle.frame.specs.Writing.{Wrote};
ghost use Rattle.tp1.specs.Layout.{tp1_octets};
ghost use Rattle.tp1.specs.Reading.{meaning_in, read_tp1, payload_at, payload_in};

use frame::{Meaning, Refusal};

// What the octets mean as a frame, or the first refusal of document 01's order.
#[tactic(auto, unfolding(crate::specs::Reading::read_tp1, crate::specs::Stages::read_from))]
pub fn read(octets: &[u8]) -> Result<Meaning, Refusal>
    ensures { result ≡ read_tp1 octets.now }
{
    if octets.len() == 0 {
        Err(Refusal::TooFew)
    } else if reading::is_control(octets[0]) {
        reading::read_head(octets)
    } else {
        Err(Refusal::NotData)
    }
}

// "The payload is handed out as the very octets received, not copied": TPCI onward, as a part of the
// octets that were read with this answer; empty with a refusal.
// An empty part where there is none, and no `get(..).unwrap_or(..)`: it has to lie in the caller's octets (`PartAt`).
pub fn payload(answer: Result<Meaning, Refusal>, octets: &[u8]) -> &[u8]
    ensures { PartAt octets.entry result (payload_at answer octets.now) (payload_in answer octets.now) }
{
    let Ok(meaning) = answer else {
        return &octets[..0];
    };
    let start = reading::head_of(meaning.extended);
    if start < octets.len() {
        let end = octets.len() - 1;
        &octets[start..end]
    } else {
        &octets[..0]
    }
}

// What octets mean as a frame, as they stand: asked of a frame that was accepted before.
// The readers' own, handed out.
pub fn meaning_in(octets: &[u8]) -> Meaning
    ensures { result ≡ meaning_in octets.now }
{
    reading::meaning_in(octets)
}

// Writes the frame at the front of the room, or refuses by 14, then 13.
// The two tests of a writer stand in each (their law is one: frame Writing): what is put behind them is another call.
pub fn write(meaning: Meaning, payload: &[u8], room: &mut [u8]) -> Result<usize, Refusal>
    ensures { Wrote (in_range meaning (length payload.now)) (tp1_octets meaning payload.now) room.old result room.new }
{
    if frame::in_range(meaning, payload.len()) {
        let size = reading::head_of(meaning.extended) + payload.len() + 1;
        if room.len() < size {
            return Err(Refusal::SmallRoom);
        }
        writing::put(meaning, payload, room);
        Ok(size)
    } else {
        Err(Refusal::OutOfRange)
    }
}
