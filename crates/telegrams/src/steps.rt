// The coupler's step: one coupler, and one frame after the other.
use crate::lists::{self, Items};
use crate::text::OctetsText;
use coupler::{Acknowledgement, Coupler, Outcome};
use std::{fmt, io};

// The setting has the coupler's line, four codes down, four codes up, the receiving side, and the main medium.
fn coupler_of<'a>(setting: &[u8], table: &'a [u8]) -> Coupler<'a> {
    let line = octets::octet(setting, 0);
    let side = octets::octet(setting, 9);
    let medium = octets::octet(setting, 10);
    Coupler {
        setting: coupler::setting_of(line, side, medium),
        codes: passing::settings::codes_from(setting, 1),
        table,
    }
}

// "bit g mod 8 of octet g div 8 in the 8,192-octet filter table"
fn put_group(group: u16, table: &mut [u8; 8192]) {
    table[usize::from(group / 8)] |= 1 << (group % 8);
}

fn put_groups(groups: &[u8], table: &mut [u8; 8192]) {
    for group in groups.chunks_exact(2) {
        put_group(octets::word_at(group, 0), table);
    }
}

// What a step gave, and the room with the octets that it forwards.
#[derive(Clone, Copy)]
struct OutcomeText<'a> {
    outcome: Outcome,
    room: &'a [u8],
}

impl fmt::Display for OutcomeText<'_> {
    // All that an outcome says, on a refusal too: "its number, none, not, 0".
    fn fmt<W: fmt::Write>(&self, f: &mut fmt::Formatter<W>) -> fmt::Result {
        let outcome = self.outcome;
        if let Some(refusal) = outcome.refusal {
            write!(f, "refused {} ", refusal.number())?;
        }
        let acknowledgement = match outcome.acknowledgement {
            Acknowledgement::Acknowledged => "acknowledged",
            Acknowledgement::Silence => "silent",
        };
        let own = if outcome.own { "own" } else { "not-own" };
        write!(f, "{acknowledgement} {own} sends")?;
        // "octets forwarded (0 if none)", as coupler's `Outcome` has them
        if outcome.forwarded == 0 {
            f.write_str(" nothing")
        } else {
            let octets = OctetsText(lists::front(self.room, outcome.forwarded));
            write!(f, "{octets}")
        }
    }
}

// What came of the last frame is written.
pub(crate) fn run_steps(
    out: &impl Print,
    setting: &[u8],
    groups: &[u8],
    frames: Items<'_>,
) -> io::Result<()> {
    let mut filter = [0; 8192];
    put_groups(groups, &mut filter);
    // "if there is none, the table is empty (length 0)"
    let size = if groups.is_empty() { 0 } else { 8192 };
    let coupler = coupler_of(setting, &filter[..size]);
    let mut memory = coupler::nothing_remembered();
    let mut room = [0; 272];
    let mut last = None;
    for frame in frames {
        last = Some(coupler.step_in_place(&mut memory, frame, &mut room));
    }
    match last {
        Some(outcome) => out.print(OutcomeText {
            outcome,
            room: &room,
        }),
        None => Ok(()),
    }
}
