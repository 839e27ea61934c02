// Tunnelling: one table of channels, and one call after the other.
use crate::lists::{self, Items};
use crate::reads;
use crate::text::{self, OctetsText};
use cemi::Codes;
use channels::Table;
use exchange::{Confirmed, Received};
use frame::Refusal;
use std::{fmt, io};

// What goes out.
#[derive(Clone, Copy)]
struct SentText<'a>(&'a [u8]);

impl fmt::Display for SentText<'_> {
    fn fmt<W: fmt::Write>(&self, f: &mut fmt::Formatter<W>) -> fmt::Result {
        write!(f, "sends{}", OctetsText(self.0))
    }
}

// What came of a request, and the acknowledgement that the room has.
fn receive(out: &impl Print, table: &mut Table, given: &[u8]) -> io::Result<()> {
    let mut room = [0; 10];
    let answer = exchange::receive(table, given, &mut room);
    let sent = SentText(&room);
    match answer {
        Ok(Received::Delivered(request)) => {
            let octets = exchange::message(answer, given);
            let message = reads::message_text(request.message, octets);
            print!(out; "delivered {message} {sent}")
        }
        Ok(Received::Again) => print!(out; "again {sent}"),
        Err(refusal) => text::put_refused(out, refusal),
    }
}

// The channel, and behind it the message that is to go out on it.
fn send<'a>(table: &Table, given: &[u8], room: &'a mut [u8]) -> Result<SentText<'a>, Refusal> {
    let channel = octets::octet(given, 0);
    let octets = given.get(1..).unwrap_or_default();
    let message = cemi::read(Codes::All, octets)?;
    let payload = cemi::payload(Ok(message), octets);
    let size = exchange::send(table, channel, message, payload, room)?;
    Ok(SentText(lists::front(room, size)))
}

fn confirm(out: &impl Print, table: &mut Table, given: &[u8]) -> io::Result<()> {
    match exchange::confirm(table, given) {
        Ok(Confirmed::Raised) => print!(out; "raised"),
        Ok(Confirmed::Kept) => print!(out; "kept"),
        Err(refusal) => text::put_refused(out, refusal),
    }
}

// A call's letter, which is read here alone, and behind it what the call is given.
fn run_call(out: &impl Print, table: &mut Table, call: &[u8]) -> io::Result<()> {
    let Some((letter, given)) = call.split_first() else {
        return Ok(());
    };
    match *letter {
        b'r' => receive(out, table, given),
        b's' => text::put_answer(out, send(table, given, &mut [0; 273])),
        b'c' => confirm(out, table, given),
        _ => Ok(()),
    }
}

pub(crate) fn run_tunnel(out: &impl Print, numbers: &[u8], calls: Items<'_>) -> io::Result<()> {
    let closed = Table::all_closed();
    let mut table = numbers.iter().copied().fold(closed, Table::opened);
    for (at, call) in calls.enumerate() {
        // What stands between two calls, as in the row.
        if 0 < at {
            print!(out; " > ")?;
        }
        run_call(out, &mut table, call)?;
    }
    Ok(())
}
