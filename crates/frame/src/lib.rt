// A frame's meaning, the refusals with their numbers, and the octets that the formats share.
#![tactic(auto)]

ghost use Rattle.std.specs.Prelude.{◌≡◌};
ghost use Rattle.frame.specs.Refusals.{number};
ghost use Rattle.frame.specs.Fields.{control_of, ctrle_of, meaning_of, fields_meaning};
ghost use Rattle.frame.specs.Valid.{in_range};

// "A frame's meaning: format, repeat flag, priority, source, AT, destination, hop count, payload".
// The payload is handed out beside it, as a part of the caller's octets.
// The priority is a number, and no enum: a writer refuses one above 3 by 14 (`in_range`).
#[derive(Clone, Copy, PartialEq, Eq, Debug)]
pub struct Meaning {
    pub extended: bool,
    // The repeat flag as its bit stands: set in a first sending, and in a cEMI request that asks for repetitions.
    pub first: bool,
    pub priority: u8,
    pub source: u16,
    pub group: bool,
    pub destination: u16,
    pub count: u8,
}

// The rows of document 01's table, with document 02's behind them, each with its number; 22 is R-7's.
#[derive(Clone, Copy, PartialEq, Eq, Debug)]
pub enum Refusal {
    TooFew = 1,
    NotData = 2,
    OtherFormat = 3,
    Escape = 4,
    LeftOver = 5,
    WrongCheck = 6,
    OtherCode = 7,
    InformationEscape = 8,
    LongStandard = 9,
    OtherHeader = 10,
    OtherService = 11,
    OtherLength = 12,
    SmallRoom = 13,
    OutOfRange = 14,
    WrongSetting = 15,
    WrongRecord = 16,
    LineTwice = 17,
    NoTable = 18,
    OtherConnection = 19,
    NotOpen = 20,
    OtherCounter = 21,
    Invalid = 23,
    PastTotal = 24,
}

impl Refusal {
    pub fn number(self) -> u8
        ensures { result ≡ number self }
    {
        self as u8
    }
}

// The control octet: format, repeat flag and priority.
pub fn control(meaning: Meaning) -> u8
    ensures { result ≡ control_of meaning }
{
    let priority = meaning.priority % 4;
    octets::flag(!meaning.extended, 128) + octets::flag(meaning.first, 32) + 16 + priority * 4
}

// AT, hop count and four bits more: EFF in CTRLE, LG in a standard frame.
pub fn ctrle(meaning: Meaning, low: u8) -> u8
    ensures { result ≡ ctrle_of meaning low }
{
    let count = meaning.count % 8;
    octets::flag(meaning.group, 128) + count * 16 + low % 16
}

// The meaning that a control octet, an octet of AT and hop count, and two addresses carry.
pub fn meaning_of(control: u8, ctrle: u8, source: u16, destination: u16) -> Meaning
    ensures { result ≡ meaning_of control ctrle source destination }
{
    Meaning {
        extended: control < 128,
        first: control / 32 % 2 == 1,
        priority: control / 4 % 4,
        source,
        group: 128 <= ctrle,
        destination,
        count: ctrle / 16 % 8,
    }
}

// The meaning of octets that begin as an extended frame does, and as cEMI does from Ctrl1 on.
#[tactic(auto, unfolding(crate::specs::Fields::fields_meaning))]
pub fn fields_meaning(octets: &[u8]) -> Meaning
    ensures { result ≡ fields_meaning octets.now }
{
    let source = octets::word_at(octets, 2);
    let destination = octets::word_at(octets, 4);
    meaning_of(
        octets::octet(octets, 0),
        octets::octet(octets, 1),
        source,
        destination,
    )
}

// Whether priority, hop count and the payload's length are ones that the format has.
#[tactic(auto, unfolding(crate::specs::Valid::in_range))]
pub fn in_range(meaning: Meaning, payload: usize) -> bool
    ensures { result ≡ in_range meaning payload }
{
    let fits = if meaning.extended {
        payload <= 255
    } else {
        payload <= 16
    };
    (meaning.priority < 4) & (meaning.count < 8) & (1 <= payload) & fits
}
