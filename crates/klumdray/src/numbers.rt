// Answers as the numbers that cross the surface, and a caller's numbers as a meaning.
ghost use Rattle.std.specs.Prelude.{◌≡◌, ◌<◌, ◌&&◌, true, length};
ghost use Rattle.cemi.specs.Writing.{message_in_range};
ghost use Rattle.cemi.specs.declared.Codes.TheVariants.{All};
ghost use Rattle.frame.specs.Writing.{Wrote};
ghost use Rattle.tunnelling.specs.Layout.{request_octets};
ghost use Rattle.klumdray.specs.Numbers.{are_numbers, flags_of, meaning_number, tp1_number, code_number, message_number, cemi_number, are_flags, are_octets, are_words, are_marks, are_connected, meaning_from, message_from, acknowledgement_from, message_answer, acknowledged_number, written_number};
ghost use Rattle.klumdray.specs.Stages.{Sized, given};

use cemi::Message;
use frame::{Meaning, Refusal};
use tunnelling::{Acknowledgement, Request};

fn flags_of(meaning: Meaning) -> u8
    ensures { result ≡ flags_of meaning }
{
    let priority = meaning.priority % 4;
    let count = meaning.count % 8;
    octets::flag(meaning.extended, 1)
        + octets::flag(meaning.first, 2)
        + priority * 4
        + octets::flag(meaning.group, 16)
        + count * 32
}

fn of_meaning(meaning: Meaning, payload: usize) -> u64
    ensures { result ≡ meaning_number meaning payload }
{
    let flags = flags_of(meaning);
    let length = (payload % 256) as u64;
    flags as u64 * 256
        + meaning.source as u64 * 65536
        + meaning.destination as u64 * 4294967296
        + length * 281474976710656
}

// Two arms, here and in each `of_` below: a generic function that is handed the first arm as a closure would be no
// plainer, for each of these would stay, with a call in place of its two arms.
pub(crate) fn of_tp1(answer: Result<Meaning, Refusal>, payload: usize) -> u64
    ensures { result ≡ tp1_number answer payload }
{
    match answer {
        Ok(meaning) => of_meaning(meaning, payload),
        Err(refusal) => refusal.number() as u64,
    }
}

fn of_code(code: u8) -> u8
    ensures { result ≡ code_number code }
{
    if code == 0x11 {
        return 1;
    }
    if code == 0x2E {
        return 2;
    }
    if code == 0x29 { 3 } else { 0 }
}

fn of_message(message: Message, payload: usize) -> u64
    ensures { result ≡ message_number message payload }
{
    let meaning = message.meaning;
    let marks = of_code(message.code) + octets::flag(message.error, 4);
    of_meaning(meaning, payload) + marks as u64 * 72057594037927936
}

pub(crate) fn of_cemi(answer: Result<Message, Refusal>, payload: usize) -> u64
    ensures { result ≡ cemi_number answer payload }
{
    match answer {
        Ok(message) => of_message(message, payload),
        Err(refusal) => refusal.number() as u64,
    }
}

// What a tunnelling request's message is read as.
pub(crate) fn message_answer(answer: Result<Request, Refusal>) -> Result<Message, Refusal>
    ensures { result ≡ message_answer answer }
{
    answer.map(|request| request.message)
}

pub(crate) fn of_acknowledged(answer: Result<Acknowledgement, Refusal>) -> u32
    ensures { result ≡ acknowledged_number answer }
{
    match answer {
        Ok(acknowledgement) => {
            acknowledgement.channel as u32 * 256
                + acknowledgement.counter as u32 * 65536
                + acknowledgement.status as u32 * 16777216
        }
        Err(refusal) => refusal.number() as u32,
    }
}

// Tests with names of their own, which wrong programs are named for; `try_from` of each number would
// test it a second time.
fn are_flags(extended: u32, first: u32, group: u32) -> bool
    ensures { result ≡ are_flags extended first group }
{
    (extended < 2) & (first < 2) & (group < 2)
}

fn are_octets(priority: u32, count: u32) -> bool
    ensures { result ≡ are_octets priority count }
{
    (priority < 256) & (count < 256)
}

fn are_words(source: u32, destination: u32) -> bool
    ensures { result ≡ are_words source destination }
{
    (source < 65536) & (destination < 65536)
}

fn are_marks(code: u32, error: u32) -> bool
    ensures { result ≡ are_marks code error }
{
    (code < 256) & (error < 2)
}

pub(crate) fn are_connected(channel: u32, counter: u32, status: u32) -> bool
    ensures { result ≡ are_connected channel counter status }
{
    (channel < 256) & (counter < 256) & (status < 256)
}

// What a caller's numbers of a frame give, if each is in its range. The casts lose nothing: the tests stand before them.
// They are parameters as the C interface has them, and go no further than this.
pub(crate) fn meaning_given(
    extended: u32,
    first: u32,
    priority: u32,
    source: u32,
    group: u32,
    destination: u32,
    count: u32,
) -> Option<Meaning>
    ensures { result ≡ given (are_numbers extended first priority source group destination count) (meaning_from extended first priority source group destination count) }
{
    let flags = are_flags(extended, first, group);
    let octets = are_octets(priority, count);
    let words = are_words(source, destination);
    if flags & octets & words {
        Some(Meaning {
            extended: extended == 1,
            first: first == 1,
            priority: priority as u8,
            source: source as u16,
            group: group == 1,
            destination: destination as u16,
            count: count as u8,
        })
    } else {
        None
    }
}

// Behind `are_marks`, which wrong programs are named for.
fn message_from(code: u32, error: u32, meaning: Meaning) -> Message
    requires { are_marks code error ≡ true }
    ensures { result ≡ message_from code error meaning }
{
    Message {
        code: code as u8,
        error: error == 1,
        meaning,
    }
}

// The same with a message's marks.
pub(crate) fn message_given(
    code: u32,
    error: u32,
    extended: u32,
    first: u32,
    priority: u32,
    source: u32,
    group: u32,
    destination: u32,
    count: u32,
) -> Option<Message>
    ensures { result ≡ given (are_numbers extended first priority source group destination count && are_marks code error) (message_from code error (meaning_from extended first priority source group destination count)) }
{
    let meaning = meaning_given(extended, first, priority, source, group, destination, count)?;
    if are_marks(code, error) {
        Some(message_from(code, error, meaning))
    } else {
        None
    }
}

// Writes a request, given the channel and the counter in the caller's bits.
pub(crate) fn write_request(
    channel: u32,
    counter: u32,
    message: Message,
    payload: &[u8],
    room: &mut [u8],
) -> Result<usize, Refusal>
    ensures { Wrote (are_octets channel counter && message_in_range All message (length payload.now)) (request_octets channel counter message payload.now) room.old result room.new }
{
    if !are_octets(channel, counter) {
        return Err(Refusal::OutOfRange);
    }
    let number = channel as u8;
    let counted = counter as u8;
    tunnelling::write_request(number, counted, message, payload, room)
}

// Behind `are_connected`, which wrong programs are named for, and no Option of its own.
pub(crate) fn acknowledgement_from(channel: u32, counter: u32, status: u32) -> Acknowledgement
    requires { are_connected channel counter status ≡ true }
    ensures { result ≡ acknowledgement_from channel counter status }
{
    Acknowledgement {
        channel: channel as u8,
        counter: counter as u8,
        status: status as u8,
    }
}

pub(crate) fn of_written(written: Result<usize, Refusal>) -> u64
    requires { Sized written }
    ensures { result ≡ written_number written }
{
    match written {
        Ok(size) => size as u64 * 256,
        Err(refusal) => refusal.number() as u64,
    }
}
