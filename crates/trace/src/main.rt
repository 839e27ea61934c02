// Reads a query and a site, and writes which lines the telegram comes to. More than 3,065 octets are
// refused, so 4,096 of the input are enough.
#![tactic(auto)]

ghost use Rattle.std.specs.Prelude.{◌≤◌, length, IfOk};

use std::io;
use std::io::Read;

// Reads until the room is full or the input ends, and says how many octets the room then begins with. Telegrams has the same: a
// library of one function for two programs is no plainer.
// A loop: `read_exact` does not say how many a shorter input had, and `read_to_end` asks for a heap.
fn read_full(input: &mut impl Read, room: &mut [u8]) -> io::Result<usize>
    ensures { IfOk result (λ size. size ≤ length room.new) }
{
    let mut done = 0;
    while done < room.len() {
        let read = input.read(&mut room[done..])?;
        if read == 0 {
            break;
        }
        done += read;
    }
    Ok(done)
}

fn main(rt: HostRuntime) -> io::Result<()> {
    let mut input = [0u8; 4096];
    let read = read_full(&mut rt.stdin(), &mut input)?;
    let mut room = [0u8; 8192];
    let written = report::report(&input[..read], &mut room);
    if let Ok(size) = written {
        if size <= 8192 {
            rt.write_all(&room[..size])?;
        }
    }
    Ok(())
}
