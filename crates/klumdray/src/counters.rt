// The lent block of tunnelling's channels: a channel read out of it, a counter raised in it, and the
// answers of the calls on it as numbers.
ghost use Rattle.std.specs.Prelude.{◌≡◌, length};
ghost use Rattle.exchange.specs.Sending.{SentOn};
ghost use Rattle.klumdray.specs.Channels.{are_channels, with_octet, block_received, block_confirmed, received_number, delivered_payload, confirmed_number};
ghost use Rattle.klumdray.specs.Stages.{channel_or_none, octet_in, held_channel};

use crate::numbers;
use cemi::Message;
use channels::Channel;
use exchange::{Confirmed, Received};
use frame::Refusal;

// Open, receive counter, send counter.
const CHANNEL_SIZE: usize = 3;

// A block of channels by its size.
pub(crate) fn are_channels(block: &[u8]) -> bool
    ensures { result ≡ are_channels block.now }
{
    block.len() == CHANNEL_SIZE * channels::CHANNELS
}

// A channel's number in so many bits that the call inside takes; every number that is no octet is 0,
// which is no channel's.
pub(crate) fn number_of(channel: u32) -> u8
    ensures { result ≡ channel_or_none channel }
{
    u8::try_from(channel).unwrap_or(0)
}

// The place is one of the three octets that the C interface has of a channel: open, receive counter, send counter.
fn octet_in(block: &[u8], number: u8, place: u8) -> u8
    ensures { result ≡ octet_in block.now number place }
{
    if number == 0 {
        return 0;
    }
    let at = CHANNEL_SIZE * (number as usize - 1) + place as usize;
    octets::octet(block, at)
}

pub(crate) fn channel_in(block: &[u8], number: u8) -> Channel
    ensures { result ≡ held_channel block.now number }
{
    Channel {
        opened: octet_in(block, number, 0) == 1,
        receive: octet_in(block, number, 1),
        send: octet_in(block, number, 2),
    }
}

// Puts an octet into a channel's three.
// Beside `octet_in`: the one reads, the other writes.
fn put(block: &mut [u8], number: u8, place: u8, octet: u8)
    ensures { block.new ≡ with_octet block.old number place octet }
{
    if number == 0 {
        return;
    }
    let at = CHANNEL_SIZE * (number as usize - 1) + place as usize;
    if at < block.len() {
        block[at] = octet;
    }
}

// Beside `raise_confirmed`: another answer, another place.
pub(crate) fn raise_received(
    answer: Result<Received, Refusal>,
    channel: Channel,
    number: u8,
    block: &mut [u8],
)
    ensures { block.new ≡ block_received answer channel number block.old }
{
    match answer {
        Ok(Received::Delivered(_)) => put(block, number, 1, channels::raised(channel.receive)),
        Ok(Received::Again) => {}
        Err(_) => {}
    }
}

pub(crate) fn raise_confirmed(
    answer: Result<Confirmed, Refusal>,
    channel: Channel,
    number: u8,
    block: &mut [u8],
)
    ensures { block.new ≡ block_confirmed answer channel number block.old }
{
    match answer {
        Ok(Confirmed::Raised) => put(block, number, 2, channels::raised(channel.send)),
        Ok(Confirmed::Kept) => {}
        Err(_) => {}
    }
}

// Sends a request on a channel of the block, given its number in the caller's bits.
pub(crate) fn send(
    block: &[u8],
    channel: u32,
    message: Message,
    payload: &[u8],
    room: &mut [u8],
) -> Result<usize, Refusal>
    ensures { SentOn (held_channel block.now (channel_or_none channel)) (channel_or_none channel) message payload.now room.old result room.new }
{
    let number = number_of(channel);
    let held = channel_in(block, number);
    exchange::send_on(held, number, message, payload, room)
}

// The message is the one that was handed out with this answer.
pub(crate) fn of_received(answer: Result<Received, Refusal>, message: &[u8]) -> u64
    ensures { result ≡ received_number answer (length (delivered_payload answer message.now)) }
{
    match answer {
        Ok(Received::Delivered(request)) => {
            let delivered = request.message;
            let read = Ok(delivered);
            let payload = cemi::payload(read, message);
            numbers::of_cemi(read, payload.len())
        }
        Ok(Received::Again) => 0,
        Err(refusal) => refusal.number() as u64,
    }
}

pub(crate) fn of_confirmed(answer: Result<Confirmed, Refusal>) -> u32
    ensures { result ≡ confirmed_number answer }
{
    match answer {
        Ok(Confirmed::Raised) => 256,
        Ok(Confirmed::Kept) => 0,
        Err(refusal) => refusal.number() as u32,
    }
}
