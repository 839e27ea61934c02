// The list of lines: three octets for each, at the front of the lent room.
ghost use Rattle.std.specs.Prelude.{◌≡◌, cond, ◌+◌, ◌*◌, ◌≤◌, length};
ghost use Rattle.octets.specs.Room.{laid, over};
ghost use Rattle.tracer.specs.Listing.{each_below, count_below};
ghost use Rattle.tracer.specs.Reaching.{entry_by, is_reached};

use crate::Query;

// Lays the entry of a line, if the telegram comes there, behind those before it.
fn list_line(lines: &[u8; 256], query: Query, line: u8, listed: usize, room: &mut [u8]) -> usize
    requires { listed * 3 + 3 ≤ length room.old }
    ensures { (result ≡ listed + cond (is_reached lines.now line) 1 0) × (room.new ≡ laid (entry_by query lines.now line) (listed * 3) room.old) }
{
    let at = line as usize;
    let reached = lines[at];
    if reached == 0 {
        return listed;
    }
    let crossed = reached - 1;
    let entry = [line, query.on_arrival(crossed), crossed];
    octets::lay(&entry, listed * 3, room);
    listed + 1
}

// By the line's number, as in `spread`.
pub(crate) fn list(lines: &[u8; 256], query: Query, room: &mut [u8]) -> usize
    requires { 768 ≤ length room.old }
    ensures { (result ≡ count_below (is_reached lines.now) 256) × (room.new ≡ over (each_below (entry_by query lines.now) 256) room.old) }
{
    let mut listed: usize = 0;
    for line in 0..256usize {
        listed = list_line(lines, query, line as u8, listed, room);
    }
    listed
}
