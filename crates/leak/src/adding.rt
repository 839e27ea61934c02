// The total's range.
ghost use Rattle.std.specs.Prelude.{◌≡◌, ◌+ℤ◌};
ghost use Rattle.leak.specs.Total.{in_total};

// Whether a sum stays within 64 bits: a function of its own, and no `checked_add(..).ok_or(..)` in `add`, since the wrong
// programs `stays_..` are named for it.
#[tactic(auto, using(crate::proofs::Range::stays_is))]
pub(crate) fn stays(total: i64, value: i64) -> bool
    ensures { result ≡ in_total (total +ℤ value) }
{
    total.checked_add(value).is_some()
}
