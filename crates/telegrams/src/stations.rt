// The station: one group, its total, and one frame after the other.
use crate::lists::Items;
use station::{Tally, Telegram};
use std::{fmt, io};

// The total so far, and the frame remembered (no octets: none).
#[derive(Drop)]
struct Listener<'a> {
    group: u16,
    total: i64,
    remembered: &'a [u8],
}

impl<'a> Listener<'a> {
    // "nothing remembered changes" on a refusal.
    fn take(&mut self, frame: &'a [u8]) -> Tally {
        let tally = station::take(self.total, self.group, self.remembered, frame);
        self.total = tally.total;
        if tally.telegram.is_ok() {
            self.remembered = frame;
        }
        tally
    }
}

#[derive(Clone, Copy)]
struct TallyText(Tally);

impl fmt::Display for TallyText {
    fn fmt<W: fmt::Write>(&self, f: &mut fmt::Formatter<W>) -> fmt::Result {
        let Tally { telegram, total } = self.0;
        match telegram {
            Ok(Telegram::Increment(code)) => write!(f, "counted {code:04X}")?,
            Ok(Telegram::Repetition) => f.write_str("repetition")?,
            Ok(Telegram::OtherGroup) => f.write_str("other group")?,
            Ok(Telegram::NoIncrement) => f.write_str("no increment")?,
            Err(refusal) => write!(f, "refused {}", refusal.number())?,
        }
        write!(f, " total {total}")
    }
}

// What the last frame was to it is written.
pub(crate) fn run_station(out: &impl Print, group: &[u8], frames: Items<'_>) -> io::Result<()> {
    let mut listener = Listener {
        group: octets::word_at(group, 0),
        total: 0,
        remembered: &[],
    };
    let mut last = None;
    for frame in frames {
        last = Some(listener.take(frame));
    }
    match last {
        Some(tally) => out.print(TallyText(tally)),
        None => Ok(()),
    }
}
