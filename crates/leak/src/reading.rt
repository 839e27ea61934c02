// What two octets stand for.
#![tactic(auto, using(crate::proofs::Product::product_fits, crate::proofs::Product::product_is), unfolding(crate::specs::Float::mantissa_of))]

ghost use Rattle.std.specs.Prelude.{◌≡◌};
ghost use Rattle.leak.specs.Float.{mantissa_of, hundredths_of};

// "sign and mantissa form a twelve-bit two's complement number M"
fn mantissa(code: u16) -> i32
    ensures { result ≡ mantissa_of code }
{
    let low = i32::from(code % 2048);
    if code < 32768 { low } else { low - 2048 }
}

// "Its value is M times 2 to the E hundredths"
pub(crate) fn hundredths(code: u16) -> i32
    ensures { result ≡ hundredths_of code }
{
    let exponent = code / 2048 % 16;
    mantissa(code) * (1 << exponent)
}
