// KNXnet/IP tunnelling on the wire: requests, which carry one cEMI message, and their acknowledgements.
#![tactic(auto)]

ghost use Rattle.std.specs.Prelude.{◌≡◌, ◌≤◌, true, length};
ghost use Rattle.octets.specs.Part.{PartAt};
ghost use Rattle.octets.specs.Room.{laid};
ghost use Rattle.frame.specs.Writing.{Wrote};
ghost use Rattle.cemi.specs.declared.Codes.TheVariants.{All};
ghost use Rattle.cemi.specs.Writing.{message_in_range};
ghost use Rattle.tunnelling.specs.Layout.{connected_head, request_octets, acknowledgement_octets};
ghost use Rattle.tunnelling.specs.Reading.{is_other_connection, read_connection, read_request, request_message, request_message_at, read_acknowledgement};
ghost use Rattle.tunnelling.specs.Stages.{judge_connection};

use cemi::{Codes, Message};
use frame::Refusal;

pub const TUNNELLING_REQUEST: u16 = 0x0420;

pub const TUNNELLING_ACK: u16 = 0x0421;

#[derive(Clone, Copy, PartialEq, Eq, Debug)]
pub struct Request {
    pub channel: u8,
    pub counter: u8,
    pub message: Message,
}

// The status is an octet, and no enum: whatever it is, it is read and written.
#[derive(Clone, Copy, PartialEq, Eq, Debug)]
pub struct Acknowledgement {
    pub channel: u8,
    pub counter: u8,
    pub status: u8,
}

#[tactic(auto, unfolding(crate::specs::Reading::is_other_connection))]
fn is_other_connection(octets: &[u8]) -> bool
    ensures { result ≡ is_other_connection octets.now }
{
    octets::octet(octets, 6) != 0x04
}

// The tests of the connection header, behind the header's.
#[tactic(auto, unfolding(crate::specs::Stages::judge_connection))]
fn judge_connection(octets: &[u8]) -> Result<(), Refusal>
    ensures { result ≡ judge_connection octets.now }
{
    if octets.len() < 10 {
        return Err(Refusal::TooFew);
    }
    if is_other_connection(octets) {
        return Err(Refusal::OtherConnection);
    }
    Ok(())
}

// The header and the connection header of a datagram, told which service is wanted: a number and no enum, since
// another service's number is answered too.
pub fn read_connection(octets: &[u8], service: u16) -> Result<(), Refusal>
    ensures { result ≡ read_connection service octets.now }
{
    knxnetip::read_header(octets, service)?;
    judge_connection(octets)
}

// What a datagram means as a tunnelling request, or the first refusal of the order.
pub fn read_request(octets: &[u8]) -> Result<Request, Refusal>
    ensures { result ≡ read_request octets.now }
{
    read_connection(octets, TUNNELLING_REQUEST)?;
    let message = cemi::read(Codes::All, &octets[10..])?;
    Ok(Request {
        channel: octets::octet(octets, 7),
        counter: octets::octet(octets, 8),
        message,
    })
}

// The cEMI message, as a part of the request that was read with this answer; empty with a refusal.
pub fn message(answer: Result<Request, Refusal>, octets: &[u8]) -> &[u8]
    ensures { PartAt octets.entry result (request_message_at answer octets.now) (request_message answer octets.now) }
{
    if answer.is_err() || octets.len() < 10 {
        return &octets[..0];
    }
    &octets[10..]
}

// Lays header and connection header over the front of a room that has their ten octets.
fn lay_head(service: u16, total: u16, channel: u8, counter: u8, status: u8, room: &mut [u8])
    requires { 10 ≤ length room.old }
    ensures { room.new ≡ laid (connected_head service total channel counter status) 0 room.old }
{
    knxnetip::lay_header(service, total, room);
    octets::lay(&[0x04, channel, counter, status], 6, room);
}

// Writes a request with the plain form of its message, or refuses by 14, then 13.
// Channel, counter and message come from three places, so that a Request would be made for this call alone; the two tests as in tp1.
pub fn write_request(
    channel: u8,
    counter: u8,
    message: Message,
    payload: &[u8],
    room: &mut [u8],
) -> Result<usize, Refusal>
    ensures { Wrote (message_in_range All message (length payload.now)) (request_octets channel counter message payload.now) room.old result room.new }
{
    if cemi::in_range(Codes::All, message, payload.len()) {
        let size = 19 + payload.len();
        if room.len() < size {
            return Err(Refusal::SmallRoom);
        }
        lay_head(TUNNELLING_REQUEST, size as u16, channel, counter, 0, room);
        cemi::write(Codes::All, message, payload, &mut room[10..])?;
        Ok(size)
    } else {
        Err(Refusal::OutOfRange)
    }
}

// What a datagram means as an acknowledgement, or the first refusal of the order.
pub fn read_acknowledgement(octets: &[u8]) -> Result<Acknowledgement, Refusal>
    ensures { result ≡ read_acknowledgement octets.now }
{
    read_connection(octets, TUNNELLING_ACK)?;
    if 10 < octets.len() {
        return Err(Refusal::LeftOver);
    }
    Ok(Acknowledgement {
        channel: octets::octet(octets, 7),
        counter: octets::octet(octets, 8),
        status: octets::octet(octets, 9),
    })
}

// Writes an acknowledgement, or refuses by 13.
pub fn write_acknowledgement(
    acknowledgement: Acknowledgement,
    room: &mut [u8],
) -> Result<usize, Refusal>
    ensures { Wrote true (acknowledgement_octets acknowledgement) room.old result room.new }
{
    if room.len() < 10 {
        return Err(Refusal::SmallRoom);
    }
    lay_head(
        TUNNELLING_ACK,
        10,
        acknowledgement.channel,
        acknowledgement.counter,
        acknowledgement.status,
        room,
    );
    Ok(10)
}
