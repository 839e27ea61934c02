// Which lines a telegram comes to: each coupler hands it on at most once.
ghost use Rattle.std.specs.Prelude.{◌≡◌, true, ◌+◌, ◌<◌, ◌≤◌, get_or};
ghost use Rattle.site.specs.WellFormed.{is_among};
ghost use Rattle.tracer.specs.Lines.{main_side, main_sides, depth};
ghost use Rattle.tracer.specs.Reaching.{handed, along, climbing, marked, reach_by, Spread};

use crate::{Arrivals, Query};

// One coupler hands the telegram on if it lets it pass and the count lasts.
pub(crate) fn hand(count: u8, lines: u8, passes: bool) -> u8
    requires { lines < 255 }
    ensures { result ≡ handed count lines passes }
{
    let lasts = (count == 7) | (lines <= count);
    let handed = (0 < lines) & passes & lasts;
    if handed { lines + 1 } else { 0 }
}

// Up from a line to one of its main sides. The count alone: a query would be copied for each of 256 lines, 13 instructions each.
fn climb(passing: &[[bool; 2]; 256], count: u8, from: u8, top: u8, lines: u8) -> u8
    requires { (is_among top (main_sides from) ≡ true) × (lines + depth from < 255) }
    ensures { result ≡ along (marked passing.now) count lines (climbing from top) }
{
    if from == top {
        return lines;
    }
    let lines = hand(count, lines, passing[from as usize][1]);
    climb(passing, count, crate::main_side(from), top, lines)
}

// The lines put on before are known of every line below this one.
fn reach_of(passing: &[[bool; 2]; 256], query: Query, lines: &[u8; 256], line: u8) -> u8
    requires { get_or lines.now (main_side line) 0 < 255 }
    ensures { result ≡ reach_by passing.now lines.now query.start query.count line }
{
    if crate::lines::is_above(line, query.start) {
        return climb(passing, query.count, query.start, line, 1);
    }
    let main = crate::main_side(line) as usize;
    hand(query.count, lines[main], passing[line as usize][0])
}

// Every line in rising order, so that a line's main side comes before it.
// By the line's number: an iterator's Option<&..> is misread on the 32-bit boards (tools/library-for). The answer is made where it is
// handed out, so that its lines are not copied.
pub(crate) fn spread(passing: &[[bool; 2]; 256], query: Query) -> Arrivals
    ensures { Spread (marked passing.now) query.start query.count result.lines result.forwardings }
{
    let mut arrivals = Arrivals {
        lines: [0; 256],
        forwardings: 0,
    };
    for line in 0..256usize {
        let reached = reach_of(passing, query, &arrivals.lines, line as u8);
        arrivals.lines[line] = reached;
        // It came over a coupler: that one has forwarded it, once.
        if 1 < reached {
            arrivals.forwardings += 1;
        }
    }
    arrivals
}
