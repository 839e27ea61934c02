// What a request is judged to be on its channel, what is sent back, and what it leaves there.
ghost use Rattle.std.specs.Prelude.{◌≡◌};
ghost use Rattle.octets.specs.Room.{laid};
ghost use Rattle.exchange.specs.Receiving.{is_expected, is_behind, received, channel_after, acknowledging, sent_back};
ghost use Rattle.exchange.specs.Stages.{received_behind, received_message};

use crate::Received;
use cemi::Codes;
use channels::Channel;
use frame::Refusal;
use tunnelling::{Acknowledgement, Request, TUNNELLING_REQUEST};

#[tactic(auto, unfolding(crate::specs::Receiving::is_expected))]
fn is_expected(channel: Channel, octets: &[u8]) -> bool
    ensures { result ≡ is_expected channel octets.now }
{
    octets::octet(octets, 8) == channel.receive
}

#[tactic(auto, unfolding(crate::specs::Receiving::is_behind))]
fn is_behind(channel: Channel, octets: &[u8]) -> bool
    ensures { result ≡ is_behind channel octets.now }
{
    channels::raised(octets::octet(octets, 8)) == channel.receive
}

// From cEMI's tests on.
#[tactic(auto, unfolding(crate::specs::Stages::received_message))]
fn received_message(expected: bool, octets: &[u8]) -> Result<Received, Refusal>
    ensures { result ≡ received_message expected octets.now }
{
    if octets.len() < 10 {
        return Err(Refusal::TooFew);
    }
    let message = cemi::read(Codes::All, &octets[10..])?;
    if expected {
        Ok(Received::Delivered(Request {
            channel: octets::octet(octets, 7),
            counter: octets::octet(octets, 8),
            message,
        }))
    } else {
        Ok(Received::Again)
    }
}

// From the channel's tests on.
#[tactic(auto, unfolding(crate::specs::Stages::received_behind, crate::specs::Stages::received_message))]
fn received_behind(channel: Channel, octets: &[u8]) -> Result<Received, Refusal>
    ensures { result ≡ received_behind channel octets.now }
{
    if !channel.opened {
        return Err(Refusal::NotOpen);
    }
    let expected = is_expected(channel, octets);
    if !expected && !is_behind(channel, octets) {
        return Err(Refusal::OtherCounter);
    }
    received_message(expected, octets)
}

pub(crate) fn received(channel: Channel, octets: &[u8], room: usize) -> Result<Received, Refusal>
    ensures { result ≡ received channel octets.now room }
{
    if room < 10 {
        return Err(Refusal::SmallRoom);
    }
    tunnelling::read_connection(octets, TUNNELLING_REQUEST)?;
    received_behind(channel, octets)
}

pub(crate) fn channel_after(answer: Result<Received, Refusal>, channel: Channel) -> Channel
    ensures { result ≡ channel_after answer channel }
{
    if let Ok(Received::Delivered(_)) = answer {
        channel.counted(channels::raised(channel.receive), channel.send)
    } else {
        channel
    }
}

// The acknowledgement of a request's own channel and counter.
fn acknowledge(octets: &[u8], room: &mut [u8])
    ensures { room.new ≡ laid (acknowledging octets.now) 0 room.old }
{
    let acknowledgement = Acknowledgement {
        channel: octets::octet(octets, 7),
        counter: octets::octet(octets, 8),
        status: 0,
    };
    // Where the room is below 10 octets, `received` has refused the request before.
    let _ = tunnelling::write_acknowledgement(acknowledgement, room);
}

// What goes back to the sender; nothing with a refusal.
pub(crate) fn send_back(answer: Result<Received, Refusal>, octets: &[u8], room: &mut [u8])
    ensures { room.new ≡ laid (sent_back answer octets.now) 0 room.old }
{
    match answer {
        Ok(Received::Delivered(_) | Received::Again) => acknowledge(octets, room),
        Err(_) => {}
    }
}
