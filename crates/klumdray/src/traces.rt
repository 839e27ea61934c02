// A caller's numbers as a query, and the tracer's answers as the numbers that cross the surface.
ghost use Rattle.std.specs.Prelude.{◌≡◌, ◌<◌};
ghost use Rattle.tracer.specs.Query.{query_of};
ghost use Rattle.passing.specs.Answers.{passage_number};
ghost use Rattle.klumdray.specs.Stages.{given};
ghost use Rattle.klumdray.specs.Traces.{query_fits, traced_number, explanation_number};

use frame::Refusal;
use passing::Passage;
use tracer::{Query, Stop, Traced};

fn query_fits(start: u32, kind: u32, destination: u32, count: u32) -> bool
    ensures { result ≡ query_fits (query_of start kind destination count) }
{
    (start < 256) & (kind < 256) & (destination < 65536) & (count < 256)
}

// What a caller's numbers ask, if each is in its range. The casts lose nothing: the test stands before them.
pub(crate) fn query_given(start: u32, kind: u32, destination: u32, count: u32) -> Option<Query>
    ensures { result ≡ given (query_fits (query_of start kind destination count)) (query_of start kind destination count) }
{
    if query_fits(start, kind, destination, count) {
        Some(Query {
            start: start as u8,
            kind: kind as u8,
            destination: destination as u16,
            count: count as u8,
        })
    } else {
        None
    }
}

// On a refusal no lines and no forwardings.
fn refused(refusal: Refusal) -> u64
    ensures { result ≡ traced_number (Err refusal) }
{
    u64::from(refusal.number())
}

pub(crate) fn of_traced(answer: Result<Traced, Refusal>) -> u64
    ensures { result ≡ traced_number answer }
{
    match answer {
        Ok(traced) => {
            let lines = (traced.lines % 65536) as u64;
            let forwardings = (traced.forwardings % 65536) as u64;
            lines * 256 + forwardings * 16777216
        }
        Err(refusal) => refused(refusal),
    }
}

// The numbers of include/klumdray.h, one by one: they stay there whatever the list's order is.
fn of_passage(passage: Passage) -> u32
    ensures { (result ≡ passage_number passage) × (result < 8) }
{
    match passage {
        Passage::Passes => 0,
        Passage::NotFitted => 1,
        Passage::OwnAddress => 2,
        Passage::Closed => 3,
        Passage::NotBelow => 4,
        Passage::NotAbove => 5,
        Passage::NotInTable => 6,
        Passage::UsedUp => 7,
    }
}

fn of_stop(stop: Stop) -> u32
    ensures { result ≡ explanation_number (Ok (Some stop)) }
{
    let reason = stop.reason;
    of_passage(reason) * 256 + stop.coupler as u32 * 65536 + stop.direction as u32 * 16777216
}

pub(crate) fn of_explanation(explanation: Result<Option<Stop>, Refusal>) -> u32
    ensures { result ≡ explanation_number explanation }
{
    match explanation {
        Ok(None) => 0,
        Ok(Some(stop)) => of_stop(stop),
        Err(refusal) => refusal.number() as u32,
    }
}
