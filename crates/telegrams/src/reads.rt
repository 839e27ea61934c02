// The readers, each with the payload that it hands out.
use crate::text::{FrameText, MessageText};
use cemi::{Codes, Message};
use frame::Refusal;
use std::fmt;
use tunnelling::{Acknowledgement, Request};

pub(crate) fn read_tp1(given: &[u8]) -> Result<FrameText<'_>, Refusal> {
    let meaning = tp1::read(given)?;
    let payload = tp1::payload(Ok(meaning), given);
    Ok(FrameText { meaning, payload })
}

// A message that was read from these octets.
pub(crate) fn message_text(message: Message, octets: &[u8]) -> MessageText<'_> {
    let payload = cemi::payload(Ok(message), octets);
    MessageText { message, payload }
}

pub(crate) fn read_cemi(given: &[u8]) -> Result<MessageText<'_>, Refusal> {
    let message = cemi::read(Codes::All, given)?;
    Ok(message_text(message, given))
}

pub(crate) fn read_routing(given: &[u8]) -> Result<MessageText<'_>, Refusal> {
    let message = routing::read(given)?;
    let payload = routing::payload(Ok(message), given);
    Ok(MessageText { message, payload })
}

#[derive(Clone, Copy)]
pub(crate) struct RequestText<'a> {
    channel: u8,
    counter: u8,
    message: MessageText<'a>,
}

impl fmt::Display for RequestText<'_> {
    fn fmt<W: fmt::Write>(&self, f: &mut fmt::Formatter<W>) -> fmt::Result {
        let RequestText {
            channel,
            counter,
            message,
        } = *self;
        write!(f, "channel {channel} counter {counter} {message}")
    }
}

pub(crate) fn read_request(given: &[u8]) -> Result<RequestText<'_>, Refusal> {
    let request = tunnelling::read_request(given)?;
    let octets = tunnelling::message(Ok(request), given);
    Ok(RequestText {
        channel: request.channel,
        counter: request.counter,
        message: message_text(request.message, octets),
    })
}

#[derive(Clone, Copy)]
pub(crate) struct AcknowledgementText(Acknowledgement);

impl fmt::Display for AcknowledgementText {
    fn fmt<W: fmt::Write>(&self, f: &mut fmt::Formatter<W>) -> fmt::Result {
        let Acknowledgement {
            channel,
            counter,
            status,
        } = self.0;
        write!(f, "channel {channel} counter {counter} status {status:02X}")
    }
}

pub(crate) fn read_acknowledgement(given: &[u8]) -> Result<AcknowledgementText, Refusal> {
    let acknowledgement = tunnelling::read_acknowledgement(given)?;
    Ok(AcknowledgementText(acknowledgement))
}
