// The two-octet float, the lent block of a total and what a station takes, as numbers.
ghost use Rattle.std.specs.Prelude.{◌≡◌, cond};
ghost use Rattle.octets.specs.Room.{laid};
ghost use Rattle.klumdray.specs.Litres.{in_bits, signed_of, value_number, coded_number, carried_number, total_in, total_octets, added_number, telegram_number};
ghost use Rattle.klumdray.specs.Stages.{sum_laid, taken_laid, is_accepted};

use frame::Refusal;
use station::{Tally, Telegram};

// A signed number as its 64 bits of two's complement, and back.
fn bits_of(number: i64) -> u64
    ensures { result ≡ in_bits 64 number }
{
    number.cast_unsigned()
}

fn signed_of(bits: u64) -> i64
    ensures { result ≡ signed_of 64 bits }
{
    bits.cast_signed()
}

pub(crate) fn of_value(value: Result<i32, Refusal>) -> u64
    ensures { result ≡ value_number value }
{
    match value {
        Ok(hundredths) => hundredths.cast_unsigned() as u64 * 4294967296,
        Err(refusal) => refusal.number() as u64,
    }
}

pub(crate) fn of_coded(coded: Result<u16, Refusal>) -> u32
    ensures { result ≡ coded_number coded }
{
    match coded {
        Ok(code) => code as u32 * 65536,
        Err(refusal) => refusal.number() as u32,
    }
}

pub(crate) fn of_carried(carried: Option<u16>) -> u32
    ensures { result ≡ carried_number carried }
{
    match carried {
        Some(code) => 256 + code as u32 * 65536,
        None => 0,
    }
}

// By its four fields: `from_be_bytes` wants an array, and the block may be of any length here, so that
// each of its eight octets would be read by itself.
pub(crate) fn total_in(block: &[u8]) -> i64
    ensures { result ≡ total_in block.now }
{
    let first = octets::word_at(block, 0) as u64;
    let second = octets::word_at(block, 2) as u64;
    let third = octets::word_at(block, 4) as u64;
    let fourth = octets::word_at(block, 6) as u64;
    signed_of(first * 281474976710656 + second * 4294967296 + third * 65536 + fourth)
}

fn put_total(block: &mut [u8], total: i64)
    ensures { block.new ≡ laid (total_octets total) 0 block.old }
{
    let octets = bits_of(total).to_be_bytes();
    octets::lay(&octets, 0, block);
}

pub(crate) fn put_sum(added: Result<i64, Refusal>, block: &mut [u8])
    ensures { block.new ≡ sum_laid added block.old }
{
    if let Ok(sum) = added {
        put_total(block, sum);
    }
}

pub(crate) fn of_added(added: Result<i64, Refusal>) -> u32
    ensures { result ≡ added_number added }
{
    match added {
        Ok(_) => 0,
        Err(refusal) => refusal.number() as u32,
    }
}

// Only what is counted changes the block.
pub(crate) fn put_taken(taken: Tally, block: &mut [u8])
    ensures { block.new ≡ taken_laid taken.total taken.telegram block.old }
{
    if let Ok(Telegram::Increment(_)) = taken.telegram {
        put_total(block, taken.total);
    }
}

pub(crate) fn is_accepted(taken: Tally) -> bool
    ensures { result ≡ is_accepted taken.telegram }
{
    taken.telegram.is_ok()
}

pub(crate) fn of_taken(taken: Tally) -> u32
    ensures { result ≡ telegram_number taken.telegram }
{
    match taken.telegram {
        Ok(Telegram::Increment(code)) => 256 + code as u32 * 65536,
        Ok(Telegram::Repetition) => 512,
        Ok(Telegram::OtherGroup) => 768,
        Ok(Telegram::NoIncrement) => 1024,
        Err(refusal) => refusal.number() as u32,
    }
}
