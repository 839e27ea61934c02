// The tree of lines: the way from a line to the backbone.
ghost use Rattle.std.specs.Prelude.{◌≡◌};
ghost use Rattle.site.specs.WellFormed.{is_among};
ghost use Rattle.tracer.specs.Lines.{main_sides};

// Whether a line stands among another's main sides, itself included: "the line of n, then its main
// side, and so on to 00h", which are at most three.
pub(crate) fn is_above(line: u8, other: u8) -> bool
    ensures { result ≡ is_among line (main_sides other) }
{
    let main = crate::main_side(other);
    (other == line) | (main == line) | (line == 0)
}
