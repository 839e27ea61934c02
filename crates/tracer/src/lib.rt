// The tracer: which lines of a site a telegram comes to, and why it does not come to another.
#![tactic(auto)]

mod asked;
mod lines;
mod listing;
mod reaching;

ghost use Rattle.std.specs.Prelude.{◌≡◌};
ghost use Rattle.frame.specs.Order.{first_of};
ghost use Rattle.site.specs.Stores.{stores_in};
ghost use Rattle.tracer.specs.Lines.{main_side};
ghost use Rattle.tracer.specs.Query.{query_of, hopped_in, on_arrival};
ghost use Rattle.tracer.specs.Tracing.{asking_tests, DidTrace};
ghost use Rattle.tracer.specs.Why.{answer_why};

use asked::Asked;
use frame::Refusal;
use passing::{Address, Passage};
use site::Stores;

// What a planner asks: starting line, kind (0 individual, 1 group), destination, count. The kind is a number, and no enum:
// another is refused by 14 (`asking_tests`).
// Kind and destination are two of its four numbers, as document 01 has them.
#[derive(Clone, Copy, PartialEq, Eq, Debug)]
pub struct Query {
    pub start: u8,
    pub kind: u8,
    pub destination: u16,
    pub count: u8,
}

// "The result also carries the number of forwardings made on the site".
#[derive(Clone, Copy, PartialEq, Eq, Debug)]
pub struct Traced {
    pub lines: usize,
    pub forwardings: usize,
}

// For each line how many lines the telegram has been put on when it comes there, 0 where it does not come.
// A number for none, since 256 options take twice the octets.
#[derive(Clone, Copy)]
pub struct Arrivals {
    pub lines: [u8; 256],
    pub forwardings: usize,
}

// The first coupler on the path that does not hand the telegram on, and why. The direction is the number that passing is
// asked with.
#[derive(Clone, Copy, PartialEq, Eq, Debug)]
pub struct Stop {
    pub coupler: u8,
    pub direction: u8,
    pub reason: Passage,
}

pub fn query_of(start: u8, kind: u8, destination: u16, count: u8) -> Query
    ensures { result ≡ query_of start kind destination count }
{
    Query {
        start,
        kind,
        destination,
        count,
    }
}

// "Its main side is n with the low four bits cleared if those are not zero, else 00h."
pub fn main_side(line: u8) -> u8
    ensures { result ≡ main_side line }
{
    if line % 16 == 0 { 0 } else { line - line % 16 }
}

impl Query {
    fn address(self) -> Address
        ensures { (result.kind ≡ self.kind) × (result.destination ≡ self.destination) }
    {
        Address {
            kind: self.kind,
            destination: self.destination,
        }
    }

    // The count with which a coupler hands the telegram on.
    fn hopped(self, count: u8) -> u8
        ensures { result ≡ hopped_in self count }
    {
        passing::hopped_count(count)
    }

    // "count on arrival (7, or c minus d)"
    fn on_arrival(self, crossed: u8) -> u8
        ensures { result ≡ on_arrival self crossed }
    {
        if passing::stays(self.count) {
            return 7;
        }
        self.count.saturating_sub(crossed)
    }
}

// "Order: 14 (kind, count), 13 (room below 768)", before the site's
fn judge(query: Query, room: usize) -> Result<(), Refusal>
    ensures { result ≡ first_of (asking_tests query room) }
{
    let asked = (query.kind <= 1) & (query.count <= 7);
    if asked {
        if room < 768 {
            return Err(Refusal::SmallRoom);
        }
        Ok(())
    } else {
        Err(Refusal::OutOfRange)
    }
}

// Lists the lines that a telegram comes to, as a first sending put on the starting line, at the front
// of the room: three octets for each, in rising order.
pub fn trace<'a>(
    query: Query,
    site: &'a [u8],
    stores: Stores<'a>,
    room: &mut [u8],
) -> Result<Traced, Refusal>
    ensures { DidTrace (stores_in stores.entry) site.now query room.old result room.new }
{
    judge(query, room.len())?;
    let surveyed = site::survey(site, stores)?;
    let asked = Asked {
        query,
        site: &surveyed,
    };
    Ok(asked.list(room))
}

// Whether the telegram comes to a line; if not, the first coupler on the path that does not hand it
// on, in which direction, and why.
pub fn why<'a>(
    query: Query,
    site: &'a [u8],
    stores: Stores<'a>,
    line: u8,
) -> Result<Option<Stop>, Refusal>
    ensures { result ≡ answer_why (stores_in stores.entry) site.now query line }
{
    judge(query, 768)?;
    let surveyed = site::survey(site, stores)?;
    let asked = Asked {
        query,
        site: &surveyed,
    };
    Ok(asked.explain(line))
}
