// A station that listens to one TP1 line and keeps the total of one group: what a frame is to it, and what it adds.
#![tactic(auto)]

ghost use Rattle.std.specs.Prelude.{◌≡◌, Ok};
ghost use Rattle.station.specs.Taking.{telegram_of, telegram_by, telegram_in, summed_by, taken_by};

use frame::{Meaning, Refusal};

// What a frame is to the station: an increment of the total, or why it adds nothing. No Option of the increment: each reason is
// told by its own name.
#[derive(Clone, Copy, PartialEq, Eq, Debug)]
pub enum Telegram {
    Increment(u16),
    Repetition,
    OtherGroup,
    NoIncrement,
}

// What the frame was, and the total afterwards.
#[derive(Clone, Copy, PartialEq, Eq, Debug)]
pub struct Tally {
    pub telegram: Result<Telegram, Refusal>,
    pub total: i64,
}

fn of_carried(carried: Option<u16>) -> Telegram
    ensures { Ok result ≡ telegram_of carried }
{
    carried.map_or(Telegram::NoIncrement, Telegram::Increment)
}

// An accepted frame, beside the one that is remembered (no octets: none).
#[tactic(auto, unfolding(crate::specs::Taking::telegram_by))]
fn of_frame(group: u16, remembered: &[u8], octets: &[u8], meaning: Meaning) -> Telegram
    ensures { Ok result ≡ telegram_by group remembered.now octets.now meaning }
{
    if !(meaning.group & (meaning.destination == group)) {
        return Telegram::OtherGroup;
    }
    if coupler::is_repetition(remembered, octets) {
        return Telegram::Repetition;
    }
    let payload = tp1::payload(Ok(meaning), octets);
    of_carried(leak::increment(payload))
}

// What octets from the line are, beside the frame that is remembered (no octets: none).
#[tactic(auto, unfolding(crate::specs::Taking::telegram_in))]
pub fn recognise(group: u16, remembered: &[u8], octets: &[u8]) -> Result<Telegram, Refusal>
    ensures { result ≡ telegram_in group remembered.now octets.now }
{
    let meaning = tp1::read(octets)?;
    Ok(of_frame(group, remembered, octets, meaning))
}

fn summed(total: i64, code: u16) -> Tally
    ensures { result ≡ summed_by total code }
{
    match leak::add(total, code) {
        Ok(sum) => Tally {
            telegram: Ok(Telegram::Increment(code)),
            total: sum,
        },
        Err(refusal) => Tally {
            telegram: Err(refusal),
            total,
        },
    }
}

// Adds what octets from the line add to the total.
pub fn take(total: i64, group: u16, remembered: &[u8], octets: &[u8]) -> Tally
    ensures { result ≡ taken_by total group remembered.now octets.now }
{
    let telegram = recognise(group, remembered, octets);
    // Each kind has its arm: below a pattern inside of `Ok` the check doesn't say in a `_` arm that it is no increment, so that the proof doesn't close.
    match telegram {
        Ok(Telegram::Increment(code)) => summed(total, code),
        Ok(Telegram::Repetition) => Tally { telegram, total },
        Ok(Telegram::OtherGroup) => Tally { telegram, total },
        Ok(Telegram::NoIncrement) => Tally { telegram, total },
        Err(_) => Tally { telegram, total },
    }
}
