// The KNX two-octet float (DPT 9), read and written, the increment that a telegram carries, and the leak total.
#![tactic(auto)]

mod adding;
mod reading;
mod writing;

ghost use Rattle.std.specs.Prelude.{◌≡◌};
ghost use Rattle.leak.specs.Reading.{read_code, read_octets};
ghost use Rattle.leak.specs.Writing.{write_code};
ghost use Rattle.leak.specs.Increment.{increment_in};
ghost use Rattle.leak.specs.Total.{add_to};

use frame::Refusal;

// "7FFFh is invalid and refused (23)"
#[tactic(auto, unfolding(crate::specs::Reading::read_code))]
pub fn read(code: u16) -> Result<i32, Refusal>
    ensures { result ≡ read_code code }
{
    if code == 0x7FFF {
        Err(Refusal::Invalid)
    } else {
        Ok(reading::hundredths(code))
    }
}

// The same of the octets themselves, of which there have to be two.
#[tactic(auto, unfolding(crate::specs::Reading::read_octets, crate::specs::Reading::read_code))]
pub fn read_octets(octets: &[u8]) -> Result<i32, Refusal>
    ensures { result ≡ read_octets octets.now }
{
    if octets.len() < 2 {
        return Err(Refusal::TooFew);
    }
    if 2 < octets.len() {
        return Err(Refusal::LeftOver);
    }
    read(octets::word_at(octets, 0))
}

// "The writer takes hundredths from -67,108,864 to 67,043,328, else refuses (14)"
#[tactic(auto, unfolding(crate::specs::Writing::write_code))]
pub fn write(hundredths: i64) -> Result<u16, Refusal>
    ensures { result ≡ write_code hundredths }
{
    if hundredths < 0 {
        if hundredths < -67108864 {
            Err(Refusal::OutOfRange)
        } else {
            Ok(writing::code_minus((-1 - hundredths) as u32))
        }
    } else if 67043328 < hundredths {
        Err(Refusal::OutOfRange)
    } else {
        Ok(writing::code_plus(hundredths as u32))
    }
}

// A payload, from TPCI on, is an increment if it writes a two-octet float to a group.
#[tactic(auto, unfolding(crate::specs::Increment::increment_in))]
pub fn increment(payload: &[u8]) -> Option<u16>
    ensures { result ≡ increment_in payload.now }
{
    let written = (octets::octet(payload, 0) == 0x00) & (octets::octet(payload, 1) == 0x80);
    if written & (payload.len() == 4) {
        Some(octets::word_at(payload, 2))
    } else {
        None
    }
}

// "a sum past the range is refused (24) and the total stays"
pub fn add(total: i64, code: u16) -> Result<i64, Refusal>
    ensures { result ≡ add_to total code }
{
    let value = i64::from(read(code)?);
    if adding::stays(total, value) {
        let sum = total + value;
        Ok(sum)
    } else {
        Err(Refusal::PastTotal)
    }
}
