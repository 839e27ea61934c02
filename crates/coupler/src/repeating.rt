// Frames compared, but for what a repeat changes.
ghost use Rattle.std.specs.Prelude.{◌≡◌};
ghost use Rattle.coupler.specs.Memory.{unmarked, agree};

// A control octet without the repeat bit.
fn unmarked(control: u8) -> u8
    ensures { result ≡ unmarked control }
{
    control & !32
}

// "all octets must agree except the repeat bit and the check octet": compared where they lie.
pub(crate) fn agree(before: &[u8], octets: &[u8]) -> bool
    ensures { result ≡ agree before.now octets.now }
{
    if before.len() != octets.len() {
        return false;
    }
    let control = unmarked(octets::octet(octets, 0));
    let same = unmarked(octets::octet(before, 0)) == control;
    if octets.len() < 2 {
        return same;
    }
    let last = octets.len() - 1;
    same & octets::are_same(&before[1..last], &octets[1..last])
}
