// The two octets for a number of hundredths: "the smallest E for which the nearest M, ties to even M, fits". It is looked for by the size
// alone, of which one more fits below zero than above.
#![tactic(auto, using(crate::proofs::Smallest::plus_bounds, crate::proofs::Smallest::plus_code, crate::proofs::Smallest::below_bounds, crate::proofs::Smallest::below_code))]

ghost use Rattle.std.specs.Prelude.{◌≡◌, ◌≤◌, ◌<◌, ◌-◌, ◌^◌, pos, negsuc};
ghost use Rattle.leak.specs.Writing.{nearest_to, code_for};
ghost use Rattle.leak.specs.Stages.{first_under, exponent_under};

// A size in units of 2 to the exponent, to the nearest whole number, a tie to the even one.
#[tactic(auto, unfolding(crate::specs::Writing::nearest_to))]
fn nearest(size: u32, exponent: u32) -> u32
    requires size_bound { size ≤ 67108864 }
    requires exponent_bound { exponent < 16 }
    ensures { result ≡ nearest_to size (2 ^ exponent) }
{
    let unit: u32 = 1 << exponent;
    let whole = size / unit;
    let twice = size % unit * 2;
    if twice < unit {
        whole
    } else if unit < twice {
        whole + 1
    } else {
        whole + whole % 2
    }
}

// The smallest exponent at which the nearest number is at most `most`.
#[tactic(auto, using(crate::proofs::Smallest::under_here, crate::proofs::Smallest::under_next), unfolding(crate::specs::Stages::exponent_under))]
fn exponent_under(most: u32, size: u32) -> u32
    requires { size ≤ 67108864 }
    ensures value { result ≡ exponent_under most size }
    ensures bound { result ≤ 15 }
{
    for exponent in 0..15 {
        if nearest(size, exponent) <= most {
            return exponent;
        }
    }
    15
}

// The code of a number that is not below zero. It has 16 bits, as is proved; `u16::try_from` would hand out a refusal that no size draws.
pub(crate) fn code_plus(size: u32) -> u16
    requires { size ≤ 67043328 }
    ensures { result ≡ code_for (pos size) }
{
    let exponent = exponent_under(2047, size);
    let m = nearest(size, exponent);
    (exponent * 2048 + m) as u16
}

// The code of a number below zero, given by how far it is below -1. Only the two calls are the same as above zero: M's largest size, the sign
// and the bits of M are others, and one function would be given all three.
pub(crate) fn code_minus(size: u32) -> u16
    requires { size < 67108864 }
    ensures { result ≡ code_for (negsuc size) }
{
    let exponent = exponent_under(2048, size + 1);
    let m = nearest(size + 1, exponent);
    (32768 + exponent * 2048 + (2048 - m)) as u16
}
