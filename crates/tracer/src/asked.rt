// What is asked of a site that was read: the list of lines, and the walk over the couplers of one path.
ghost use Rattle.std.specs.Prelude.{◌≡◌, ◌≤◌, length, Ok};
ghost use Rattle.site.specs.Starts.{Noted};
ghost use Rattle.site.specs.Stores.{stores_in};
ghost use Rattle.tracer.specs.Lines.{main_sides, before_common, up_over, down_over, crossing};
ghost use Rattle.tracer.specs.Reaching.{DidList};
ghost use Rattle.tracer.specs.Why.{handed_on, walked, why_of};

use crate::{Query, Stop, Traced, listing, reaching};
use passing::Passage;
use site::Surveyed;

// A query about a site whose starts are those of its couplers' records.
#[derive(Clone, Copy)]
pub(crate) struct Asked<'a> {
    pub(crate) query: Query,
    pub(crate) site: &'a Surveyed<'a>,
    ghost noted: { Noted site.now.records.now site.now.starts },
}

impl<'a> Asked<'a> {
    pub(crate) fn list(self, room: &mut [u8]) -> Traced
        requires { 768 ≤ length room.old }
        ensures { DidList (stores_in self.entry.site.now.stores) self.entry.site.now.records.now self.entry.query room.old result room.new }
    {
        let query = self.query;
        let passing = self.site.letting(query.address());
        let arrivals = reaching::spread(&passing, query);
        let lines = listing::list(&arrivals.lines, query, room);
        Traced {
            lines,
            forwardings: arrivals.forwardings,
        }
    }

    // A telegram that has stopped before stays so (`hand_on_names_the_last_coupler`).
    fn hand_on(&self, walk: Result<u8, Stop>, direction: u8, coupler: u8) -> Result<u8, Stop>
        ensures { result ≡ handed_on (stores_in self.now.site.now.stores) self.now.site.now.records.now self.now.query walk (crossing direction coupler) }
    {
        let count = walk?;
        let address = self.query.address();
        let reason = self.site.why_not(coupler, direction, address, count);
        if reason == Passage::Passes {
            return Ok(self.query.hopped(count));
        }
        Err(Stop {
            coupler,
            direction,
            reason,
        })
    }

    // Up from a line to the first that the other's main sides have too.
    fn walk_up(&self, walk: Result<u8, Stop>, from: u8, to: u8) -> Result<u8, Stop>
        ensures { result ≡ walked (stores_in self.now.site.now.stores) self.now.site.now.records.now self.now.query walk (up_over (before_common (main_sides from) (main_sides to))) }
    {
        if crate::lines::is_above(from, to) {
            return walk;
        }
        let next = self.hand_on(walk, 1, from);
        self.walk_up(next, crate::main_side(from), to)
    }

    // Down to a line from the first of its main sides that the other's have too. It goes first and hands on then, the other way
    // round than `walk_up`: one function would have both bodies.
    fn walk_down(&self, walk: Result<u8, Stop>, from: u8, to: u8) -> Result<u8, Stop>
        ensures { result ≡ walked (stores_in self.now.site.now.stores) self.now.site.now.records.now self.now.query walk (down_over (before_common (main_sides to) (main_sides from))) }
    {
        if crate::lines::is_above(to, from) {
            return walk;
        }
        let main = self.walk_down(walk, from, crate::main_side(to));
        self.hand_on(main, 0, to)
    }

    pub(crate) fn explain(&self, line: u8) -> Option<Stop>
        ensures { Ok result ≡ why_of (stores_in self.now.site.now.stores) self.now.site.now.records.now self.now.query line }
    {
        let start = self.query.start;
        let joined = self.walk_up(Ok(self.query.count), start, line);
        self.walk_down(joined, start, line).err()
    }
}
