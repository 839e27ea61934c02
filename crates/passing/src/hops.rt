// The hop rule.
ghost use Rattle.std.specs.Prelude.{◌≡◌};
ghost use Rattle.passing.specs.Passing.{stays, hopped};

// Whether a coupler leaves a count as it is.
pub fn stays(count: u8) -> bool
    ensures { result ≡ stays count }
{
    count == 7
}

// The count with which a frame is forwarded.
pub fn hopped_count(count: u8) -> u8
    ensures { result ≡ hopped count }
{
    if stays(count) {
        return 7;
    }
    count.saturating_sub(1)
}
