// Runs the sources' examples and writes what each gives, as tests/telegrams/README.md says.
//
// It reads a list of rows (tools/make-telegrams makes it). A row is a list again: the name, the
// format's letter, and the octets; for a step the setting, the groups, and each frame received; for
// a tunnel the open channels, and each call: its letter, and behind it what the call is given; for a
// station its group, and each frame received.
#![tactic(auto)]

ghost use Rattle.std.specs.Prelude.{◌≤◌, length, IfOk};

use lists::Items;
use std::io;
use std::io::Read;

mod floats;
mod lists;
mod reads;
mod stations;
mod steps;
mod text;
mod tunnels;

fn run_row(out: &impl Print, row: &[u8]) -> io::Result<()> {
    let mut items = Items::of(row);
    out.write_all(items.item())?;
    out.write_all(b" ")?;
    let letter = octets::octet(items.item(), 0);
    let given = items.item();
    // The letter is read here alone: an enum of the formats would have the same ten lines twice.
    match letter {
        b't' => text::put_answer(out, reads::read_tp1(given))?,
        b'c' => text::put_answer(out, reads::read_cemi(given))?,
        b'r' => text::put_answer(out, reads::read_routing(given))?,
        b'q' => text::put_answer(out, reads::read_request(given))?,
        b'a' => text::put_answer(out, reads::read_acknowledgement(given))?,
        b'f' => floats::run_float(out, given)?,
        b'h' => floats::run_hundredths(out, given)?,
        b's' => steps::run_steps(out, given, items.item(), items)?,
        b'u' => tunnels::run_tunnel(out, given, items)?,
        b'i' => stations::run_station(out, given, items)?,
        _ => {}
    }
    out.write_all(b"\n")
}

fn run_rows(out: &impl Print, rows: &[u8]) -> io::Result<()> {
    for row in Items::of(rows) {
        run_row(out, row)?;
    }
    Ok(())
}

// Reads until the room is full or the input ends, and says how many octets the room then begins with. Trace has the same: a
// library of one function for two programs is no plainer.
// std has no call for it without heap: `read_exact` fails where the input ends, `read_to_end` fills a Vec.
fn read_full(input: &mut impl Read, room: &mut [u8]) -> io::Result<usize>
    ensures { IfOk result (λ size. size ≤ length room.new) }
{
    let mut done = 0;
    while done < room.len() {
        let read = input.read(&mut room[done..])?;
        if read == 0 {
            break;
        }
        done += read;
    }
    Ok(done)
}

fn main(rt: HostRuntime) -> io::Result<()> {
    let mut input = [0u8; 65536];
    let read = read_full(&mut rt.stdin(), &mut input)?;
    run_rows(&rt, &input[..read])
}
