// The report of a trace: what the program writes for what it reads.
#![tactic(auto)]

mod text;

ghost use Rattle.std.specs.Prelude.{◌≤◌, ◌++◌, ◌≡◌, length};
ghost use Rattle.frame.specs.Order.{first_of};
ghost use Rattle.frame.specs.Refusals.{number};
ghost use Rattle.report.specs.Ascii.{ascii};
ghost use Rattle.report.specs.Text.{told_line, list_text};
ghost use Rattle.report.specs.Stages.{Puts};
ghost use Rattle.report.specs.Report.{query_in, query_tests, answer_text, report_of, Reported};

use frame::Refusal;
use site::Stores;
use text::Writer;
use tracer::Query;

// "On refusal it writes `refused N`."
// A room of 8,192 is asked for in four clauses: it is a lent slice, and a type of it would be built and proved where it is lent.
fn put_refused(refusal: Refusal, room: &mut [u8]) -> usize
    requires { 8192 ≤ length room.old }
    ensures { Puts (told_line (ascii "refused ") (number refusal)) 0 room.old result room.new }
{
    let mut writer = Writer::new(room);
    writer.put_told_line(b"refused ", refusal.number() as usize);
    writer.at
}

fn put_listed(list: &[u8], forwardings: usize, room: &mut [u8]) -> usize
    requires { (length list.now ≤ 768) × (8192 ≤ length room.old) }
    ensures { Puts (list_text list.now ++ told_line (ascii "forwardings ") forwardings) 0 room.old result room.new }
{
    let mut writer = Writer::new(room);
    writer.put_list(list);
    writer.put_told_line(b"forwardings ", forwardings);
    writer.at
}

// "The program reads line, kind, destination (2), count"
fn query_in(input: &[u8]) -> Query
    ensures { result ≡ query_in input.now }
{
    let start = octets::octet(input, 0);
    let kind = octets::octet(input, 1);
    let destination = octets::word_at(input, 2);
    let count = octets::octet(input, 4);
    tracer::query_of(start, kind, destination, count)
}

// "then records to the end, with empty stores"
fn put_trace(input: &[u8], room: &mut [u8]) -> usize
    requires { (5 ≤ length input.now) × (8192 ≤ length room.old) }
    ensures { Puts (answer_text input.now (first_of (query_tests input.now))) 0 room.old result room.new }
{
    let query = query_in(input);
    let none = &input[..0];
    let mut list = [0u8; 768];
    let stores = Stores {
        project: none,
        own: none,
    };
    match tracer::trace(query, &input[5..], stores, &mut list) {
        Ok(traced) => put_listed(&list[..traced.lines * 3], traced.forwardings, room),
        Err(refusal) => put_refused(refusal, room),
    }
}

fn put_report(input: &[u8], room: &mut [u8]) -> usize
    requires { 8192 ≤ length room.old }
    ensures { Puts (report_of input.now) 0 room.old result room.new }
{
    if input.len() < 5 {
        return put_refused(Refusal::TooFew, room);
    }
    if 3065 < input.len() {
        return put_refused(Refusal::LeftOver, room);
    }
    put_trace(input, room)
}

// The text that answers what was read, at the front of the room.
pub fn report(input: &[u8], room: &mut [u8]) -> Result<usize, Refusal>
    ensures { Reported input.now room.old result room.new }
{
    if room.len() < 8192 {
        return Err(Refusal::SmallRoom);
    }
    Ok(put_report(input, room))
}
