// What is written to standard output: the texts that tests/telegrams/README.md gives.
use cemi::Message;
use frame::{Meaning, Refusal};
use std::{fmt, io};

// Octets, each with a space before it.
#[derive(Clone, Copy)]
pub(crate) struct OctetsText<'a>(pub(crate) &'a [u8]);

impl fmt::Display for OctetsText<'_> {
    fn fmt<W: fmt::Write>(&self, f: &mut fmt::Formatter<W>) -> fmt::Result {
        for octet in self.0 {
            write!(f, " {octet:02X}")?;
        }
        Ok(())
    }
}

#[derive(Clone, Copy)]
pub(crate) struct FrameText<'a> {
    pub(crate) meaning: Meaning,
    pub(crate) payload: &'a [u8],
}

impl fmt::Display for FrameText<'_> {
    fn fmt<W: fmt::Write>(&self, f: &mut fmt::Formatter<W>) -> fmt::Result {
        let Meaning {
            extended,
            first,
            priority,
            source,
            group,
            destination,
            count,
        } = self.meaning;
        let format = if extended { "extended" } else { "standard" };
        let sending = if first { "first" } else { "repeated" };
        let kind = if group { "group" } else { "individual" };
        let payload = OctetsText(self.payload);
        write!(f, "{format} {sending} priority {priority} ")?;
        write!(f, "source {source:04X} {kind} {destination:04X} ")?;
        write!(f, "count {count} payload{payload}")
    }
}

#[derive(Clone, Copy)]
pub(crate) struct MessageText<'a> {
    pub(crate) message: Message,
    pub(crate) payload: &'a [u8],
}

impl fmt::Display for MessageText<'_> {
    fn fmt<W: fmt::Write>(&self, f: &mut fmt::Formatter<W>) -> fmt::Result {
        let message = self.message;
        // The code as cemi's `Message` has it: its number.
        match message.code {
            0x11 => f.write_str("request ")?,
            0x2E => write!(f, "confirmation error {} ", u8::from(message.error))?,
            _ => f.write_str("indication ")?,
        }
        let frame = FrameText {
            meaning: message.meaning,
            payload: self.payload,
        };
        write!(f, "{frame}")
    }
}

pub(crate) fn put_refused(out: &impl Print, refusal: Refusal) -> io::Result<()> {
    print!(out; "refused {}", refusal.number())
}

// What was read, or the refusal.
pub(crate) fn put_answer<T: fmt::Display + Drop>(
    out: &impl Print,
    answer: Result<T, Refusal>,
) -> io::Result<()> {
    match answer {
        Ok(text) => out.print(text),
        Err(refusal) => put_refused(out, refusal),
    }
}
