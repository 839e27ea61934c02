// Sites: the records of the couplers that are fitted, their filter tables in two lent stores, which
// sites are well-formed, and whom each coupler lets pass.
#![tactic(auto)]

mod records;
pub mod stores;

ghost use Rattle.std.specs.Prelude.{◌≡◌, [], Err};
ghost use Rattle.frame.specs.Order.{first_of};
ghost use Rattle.site.specs.Stores.{stores_in};
ghost use Rattle.site.specs.Records.{records_of};
ghost use Rattle.site.specs.WellFormed.{has_table, record_tests, records_tests};
ghost use Rattle.site.specs.Starts.{DidSurveyBy, DidSurvey, coupler_from};
ghost use Rattle.site.specs.Stages.{record_both_ways, IsFilterOf};
ghost use Rattle.site.specs.Letting.{line_lets_pass_by, MarksBothWays, passage_by};

use frame::Refusal;
use passing::{Address, Filter, Passage};
pub use stores::Stores;

// A well-formed site: its records, its stores, and for each of the 256 lines where the record of its coupler
// starts; FFFFh where there is none (an `Option<u16>` takes 1,024 octets in place of 512: fixed memory). It has no invariant:
// `letting` and `why_not` promise an answer on starts that no survey gave, too.
#[derive(Clone, Copy)]
pub struct Surveyed<'a> {
    pub records: &'a [u8],
    pub stores: Stores<'a>,
    pub starts: [u16; 256],
}

// "FFh is allowed where no group code of that record is 1; every other number must lie in its store."
fn has_table<'a>(octets: &[u8], stores: Stores<'a>) -> bool
    ensures { result ≡ has_table (stores_in stores.entry) octets.now }
{
    let number = records::table_number(octets);
    if number == 0xff {
        !passing::settings::asks_table(records::codes_of(octets))
    } else {
        stores.table_of(number).len() == 8192
    }
}

fn judge_record<'a>(octets: &[u8], stores: Stores<'a>, twice: bool) -> Result<(), Refusal>
    ensures { result ≡ first_of (record_tests (stores_in stores.entry) twice octets.now) }
{
    if !records::is_marked(octets) {
        return Err(Refusal::WrongRecord);
    }
    let allowed = passing::settings::are_codes(records::codes_of(octets));
    let wrong = (records::line_of(octets) == 0) | !allowed;
    if wrong {
        return Err(Refusal::WrongSetting);
    }
    if !has_table(octets, stores) {
        return Err(Refusal::NoTable);
    }
    if twice {
        return Err(Refusal::LineTwice);
    }
    Ok(())
}

// No coupler is looked up in a site that is refused.
fn refused<'a>(refusal: Refusal) -> Result<Surveyed<'a>, Refusal>
    ensures { result ≡ Err refusal }
{
    Err(refusal)
}

// "then record by record: 16, 15 (line, codes), 18, 17 (at the second)": a line was seen before if its
// start is noted. Octets that are left over are no whole record.
fn survey_records<'a>(records: &'a [u8], stores: Stores<'a>) -> Result<Surveyed<'a>, Refusal>
    ensures { DidSurveyBy (records_tests (stores_in stores.entry) [] (records_of records.now)) stores.entry records.entry (records_of records.now) result }
{
    let mut starts = [0xffff; 256];
    let mut from: u16 = 0;
    for octets in records.chunks_exact(12) {
        let line = usize::from(records::line_of(octets));
        let twice = starts[line] != 0xffff;
        judge_record(octets, stores, twice)?;
        starts[line] = from;
        from += 12;
    }
    if usize::from(from) < records.len() {
        return Err(Refusal::WrongRecord);
    }
    Ok(Surveyed {
        records,
        stores,
        starts,
    })
}

// Whether a site and its stores are well-formed, or the first refusal of document 01's order; and where
// each coupler's record starts.
pub fn survey<'a>(records: &'a [u8], stores: Stores<'a>) -> Result<Surveyed<'a>, Refusal>
    ensures { DidSurvey stores.entry records.entry result }
{
    if stores.are_stores() {
        if records.len() % 12 == 0 {
            survey_records(records, stores)
        } else {
            refused(Refusal::WrongRecord)
        }
    } else {
        refused(Refusal::NoTable)
    }
}

// What a record's coupler goes by.
fn filter_of<'a>(octets: &[u8], stores: Stores<'a>) -> Filter<'a>
    ensures { IsFilterOf (stores_in stores.entry) octets.now result }
{
    Filter {
        line: records::line_of(octets),
        codes: records::codes_of(octets),
        table: stores.table_of(records::table_number(octets)),
    }
}

// Whether a record's coupler is fitted and lets the telegram pass, main to sub and sub to main. Only a group asks
// for a table: with one arm for both kinds a trace of an individual address took 49,587 instructions in place of 33,341.
fn lets_pass<'a>(octets: &[u8], stores: Stores<'a>, address: Address) -> [bool; 2]
    ensures { result ≡ record_both_ways (stores_in stores.entry) address.kind address.destination octets.now }
{
    if octets.is_empty() {
        [false, false]
    } else if address.kind == 1 {
        let filter = filter_of(octets, stores);
        [filter.may_pass(0, address), filter.may_pass(1, address)]
    } else {
        let bare = Filter {
            line: records::line_of(octets),
            codes: records::codes_of(octets),
            table: &stores.own[..0],
        };
        [bare.may_pass(0, address), bare.may_pass(1, address)]
    }
}

impl<'a> Surveyed<'a> {
    // For every line whether its coupler is fitted and lets the telegram pass, main to sub and sub to main:
    // each record is read once, for both directions.
    // By the line's number: an iterator's Option<&..> is misread on the 32-bit boards (tools/library-for).
    pub fn letting(&self, address: Address) -> [[bool; 2]; 256]
        ensures { MarksBothWays (line_lets_pass_by (stores_in self.now.stores) address.kind address.destination self.now.records.now self.now.starts) result }
    {
        let mut marks = [[false; 2]; 256];
        for line in 0..256 {
            let octets = records::record_from(self.records, self.starts[line]);
            marks[line] = lets_pass(octets, self.stores, address);
        }
        marks
    }

    // What the coupler of a line makes of a telegram that comes to it with this count.
    pub fn why_not(&self, line: u8, direction: u8, address: Address, count: u8) -> Passage
        ensures { result ≡ passage_by (stores_in self.now.stores) address.kind address.destination direction count (coupler_from self.now.records.now self.now.starts line) }
    {
        let octets = records::record_from(self.records, self.starts[usize::from(line)]);
        if octets.is_empty() {
            Passage::NotFitted
        } else {
            filter_of(octets, self.stores).why_not(direction, address, count)
        }
    }
}
