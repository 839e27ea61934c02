// A frame laid into a room that is known to have its size.
ghost use Rattle.std.specs.Prelude.{◌≡◌, true, ◌++◌, ◌+◌, ◌-◌, ◌<◌, ◌≤◌, length, set};
ghost use Rattle.octets.specs.Check.{xor_from};
ghost use Rattle.octets.specs.Room.{laid, over};
ghost use Rattle.frame.specs.Valid.{in_range};
ghost use Rattle.tp1.specs.Layout.{standard_head, extended_head, head, head_of, tp1_octets};

use frame::Meaning;

// Lays the head, and returns the exclusive or of its octets: the check octet is not read back from the room,
// which a processor that has just written it by single octets has to wait for.
// The six octets by name, and no fold over them: an iterator's Option<&u8> is misread on the 32-bit boards (tools/library-for).
fn put_standard_head(meaning: Meaning, lg: u8, room: &mut [u8]) -> u8
    ensures { (room.new ≡ laid (standard_head meaning lg) 0 room.old) × (result ≡ xor_from 0 (standard_head meaning lg)) }
{
    let head = [
        frame::control(meaning),
        octets::high_octet(meaning.source),
        octets::low_octet(meaning.source),
        octets::high_octet(meaning.destination),
        octets::low_octet(meaning.destination),
        frame::ctrle(meaning, lg),
    ];
    octets::lay(&head, 0, room);
    head[0] ^ head[1] ^ head[2] ^ head[3] ^ head[4] ^ head[5]
}

// Beside the standard head, and not one function with it: each is the list of its layout's octets, and nothing else is alike.
fn put_extended_head(meaning: Meaning, lg: u8, room: &mut [u8]) -> u8
    ensures { (room.new ≡ laid (extended_head meaning lg) 0 room.old) × (result ≡ xor_from 0 (extended_head meaning lg)) }
{
    let head = [
        frame::control(meaning),
        frame::ctrle(meaning, 0),
        octets::high_octet(meaning.source),
        octets::low_octet(meaning.source),
        octets::high_octet(meaning.destination),
        octets::low_octet(meaning.destination),
        lg,
    ];
    octets::lay(&head, 0, room);
    head[0] ^ head[1] ^ head[2] ^ head[3] ^ head[4] ^ head[5] ^ head[6]
}

#[tactic(auto, unfolding(crate::specs::Layout::head))]
fn put_head(meaning: Meaning, lg: u8, room: &mut [u8]) -> u8
    ensures { (room.new ≡ laid (head meaning lg) 0 room.old) × (result ≡ xor_from 0 (head meaning lg)) }
{
    if meaning.extended {
        put_extended_head(meaning, lg, room)
    } else {
        put_standard_head(meaning, lg, room)
    }
}

// The check octet of all octets before it: of the head, by its exclusive or, and of the payload.
fn seal(front: u8, payload: &[u8], last: usize, room: &mut [u8])
    requires { last < length room.old }
    ensures { room.new ≡ set room.old last (255 - xor_from front payload.now) }
{
    let check = front ^ octets::check_octet(payload);
    room[last] = check;
}

pub(crate) fn put(meaning: Meaning, payload: &[u8], room: &mut [u8])
    requires { (in_range meaning (length payload.now) ≡ true) × (head_of meaning.extended + length payload.now < length room.old) }
    ensures { room.new ≡ over (tp1_octets meaning payload.now) room.old }
{
    let lg = (payload.len() - 1) as u8;
    let start = crate::reading::head_of(meaning.extended);
    let front = put_head(meaning, lg, room);
    octets::lay(payload, start, room);
    seal(front, payload, start + payload.len(), room);
}
