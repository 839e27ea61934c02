// Tunnelling over a table of channels: a request is received and acknowledged, a request is sent, an
// acknowledgement is received. Each call has a core that is given the channel, for callers that keep
// the table themselves.
#![tactic(auto)]

mod confirming;
mod receiving;

ghost use Rattle.std.specs.Prelude.{◌≡◌};
ghost use Rattle.octets.specs.Part.{PartAt};
ghost use Rattle.channels.specs.Calls.{Called};
ghost use Rattle.exchange.specs.Confirming.{confirmed, confirming};
ghost use Rattle.exchange.specs.Receiving.{ReceivedOn, Took, delivered_message, delivered_at};
ghost use Rattle.exchange.specs.Sending.{SentOn, Sent};

use cemi::{Codes, Message};
use channels::{Channel, Table};
use frame::Refusal;
use tunnelling::{Request, TUNNELLING_ACK};

// What becomes of a request: delivered, acknowledged again and not delivered, or refused. No Option: `None`
// would not say that it is acknowledged again.
#[derive(Clone, Copy, PartialEq, Eq, Debug)]
pub enum Received {
    Delivered(Request),
    Again,
}

// What becomes of an acknowledgement: the send counter raised, or kept under another status than 00h; or refused.
// No bool: it would not say which of the two is meant.
#[derive(Clone, Copy, PartialEq, Eq, Debug)]
pub enum Confirmed {
    Raised,
    Kept,
}

// A request arrives on a channel: its acknowledgement goes to the front of the room.
pub fn receive_on(channel: Channel, octets: &[u8], room: &mut [u8]) -> Result<Received, Refusal>
    ensures { ReceivedOn channel octets.now room.old result room.new }
{
    let answer = receiving::received(channel, octets, room.len());
    receiving::send_back(answer, octets, room);
    answer
}

// A request arrives on the channel that it names.
pub fn receive(table: &mut Table, octets: &[u8], room: &mut [u8]) -> Result<Received, Refusal>
    ensures { Took table.old.channels octets.now room.old result table.new.channels room.new }
{
    let number = octets::octet(octets, 7);
    let channel = table.channel_at(number);
    let answer = receive_on(channel, octets, room);
    *table = table.put(number, receiving::channel_after(answer, channel));
    answer
}

// The cEMI message of a request that was delivered, as a part of its octets; empty otherwise.
pub fn message(answer: Result<Received, Refusal>, octets: &[u8]) -> &[u8]
    ensures { PartAt octets.entry result (delivered_at answer octets.now) (delivered_message answer octets.now) }
{
    let Ok(Received::Delivered(request)) = answer else {
        return &octets[..0];
    };
    tunnelling::message(Ok(request), octets)
}

// A request goes out on a channel of this number, with its send counter, at the front of the room.
#[tactic(auto, unfolding(crate::specs::Sending::sent_by, frame::specs::Writing::written))]
pub fn send_on(
    channel: Channel,
    number: u8,
    message: Message,
    payload: &[u8],
    room: &mut [u8],
) -> Result<usize, Refusal>
    ensures { SentOn channel number message payload.now room.old result room.new }
{
    if !cemi::in_range(Codes::All, message, payload.len()) {
        return Err(Refusal::OutOfRange);
    }
    if !channel.opened {
        return Err(Refusal::NotOpen);
    }
    tunnelling::write_request(number, channel.send, message, payload, room)
}

// A request goes out on the channel of a number; the table stays.
pub fn send(
    table: &Table,
    number: u8,
    message: Message,
    payload: &[u8],
    room: &mut [u8],
) -> Result<usize, Refusal>
    ensures { Sent table.now.channels number message payload.now room.old result room.new }
{
    send_on(table.channel_at(number), number, message, payload, room)
}

// An acknowledgement arrives on a channel.
pub fn confirm_on(channel: Channel, octets: &[u8]) -> Result<Confirmed, Refusal>
    ensures { result ≡ confirmed channel octets.now }
{
    tunnelling::read_connection(octets, TUNNELLING_ACK)?;
    confirming::confirmed_behind(channel, octets)
}

// An acknowledgement arrives on the channel that it names. Beside `receive`: the core, the answer and what it leaves in the channel
// are others, and what is alike are three calls.
pub fn confirm(table: &mut Table, octets: &[u8]) -> Result<Confirmed, Refusal>
    ensures { Called (confirming octets.now) table.old.channels result table.new.channels }
{
    let number = octets::octet(octets, 7);
    let channel = table.channel_at(number);
    let answer = confirm_on(channel, octets);
    *table = table.put(number, confirming::channel_confirmed(answer, channel));
    answer
}
