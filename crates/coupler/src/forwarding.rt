// What becomes of a frame that was read: refused, acknowledged, forwarded.
ghost use Rattle.std.specs.Prelude.{◌≡◌, true, not, ◌&&◌, ◌≤◌, length};
ghost use Rattle.octets.specs.Room.{over};
ghost use Rattle.frame.specs.Order.{first_of};
ghost use Rattle.frame.specs.Valid.{in_range};
ghost use Rattle.coupler.specs.Memory.{is_repetition};
ghost use Rattle.coupler.specs.Hearing.{answer_on, payload_on};
ghost use Rattle.coupler.specs.Step.{coupler_in, setting_tests, from_ip, to_ip, read_by, kind_of, is_allowed, acknowledgement_by, forwarded_meaning, indication, form_of, refused_outcome};
ghost use Rattle.coupler.specs.Stages.{Sent, PassedOn, HandedBy};

use crate::{Acknowledgement, Coupler, Outcome, Setting};
use cemi::Message;
use frame::{Meaning, Refusal};
use passing::{Address, Filter};

fn kind_of(meaning: Meaning) -> u8
    ensures { result ≡ kind_of meaning }
{
    octets::flag(meaning.group, 1)
}

fn address_of(meaning: Meaning) -> Address
    ensures { (result.kind ≡ kind_of meaning) × (result.destination ≡ meaning.destination) }
{
    Address {
        kind: kind_of(meaning),
        destination: meaning.destination,
    }
}

// Worked out from the fields as they stand, apart from acceptance and repetition.
#[tactic(auto, unfolding(crate::specs::Step::acknowledgement_by))]
fn acknowledgement(ip: bool, own: bool, allowed: bool) -> Acknowledgement
    ensures { result ≡ acknowledgement_by ip own allowed }
{
    if !ip & (own | allowed) {
        Acknowledgement::Acknowledged
    } else {
        Acknowledgement::Silence
    }
}

// "on IP it is a plain indication in a routing datagram"
fn indication(meaning: Meaning) -> Message
    ensures { result ≡ indication meaning }
{
    Message {
        code: 0x29,
        error: false,
        meaning,
    }
}

fn forwarded_meaning(setting: Setting, meaning: Meaning) -> Meaning
    ensures { result ≡ forwarded_meaning setting meaning }
{
    Meaning {
        first: true,
        count: setting.hopped(meaning.count),
        ..meaning
    }
}

// Lays the forwarded frame over the room, in the form of the medium that it goes out by. IP or TP1 is asked here, of the reader and
// of the payload: a type for the two media would have these three pairs as its methods, and no fewer.
// A room of 272 is asked for in three clauses: it is a lent slice, and a type of it would be built and proved where it is lent.
fn forward(ip: bool, setting: Setting, meaning: Meaning, payload: &[u8], room: &mut [u8]) -> usize
    requires { (in_range meaning (length payload.now) ≡ true) × (272 ≤ length room.old) }
    ensures { Sent (form_of ip setting meaning payload.now) room.old result room.new }
{
    let meaning = forwarded_meaning(setting, meaning);
    let written = if ip {
        routing::write(indication(meaning), payload, room)
    } else {
        tp1::write(meaning, payload, room)
    };
    written.unwrap_or(0)
}

// "IP has neither memory nor acknowledgement"
fn repeats(ip: bool, remembered: &[u8], octets: &[u8]) -> bool
    ensures { result ≡ not ip && is_repetition remembered.now octets.now }
{
    !ip && crate::is_repetition(remembered, octets)
}

// What a frame means, or the reader's refusal, whichever medium it came by.
fn hear(ip: bool, octets: &[u8]) -> Result<Meaning, Refusal>
    ensures { result ≡ answer_on ip octets.now }
{
    if ip {
        routing::read(octets).map(|message| message.meaning)
    } else {
        tp1::read(octets)
    }
}

// The payload of a frame that was heard, as a part of the octets received.
fn payload_of(ip: bool, meaning: Meaning, octets: &[u8]) -> &[u8]
    ensures { result.now ≡ payload_on ip meaning octets.now }
{
    if ip {
        routing::payload(Ok(indication(meaning)), octets)
    } else {
        tp1::payload(Ok(meaning), octets)
    }
}

impl<'a> Coupler<'a> {
    fn to_ip(&self) -> bool
        ensures { result ≡ to_ip (coupler_in self.now) }
    {
        (self.setting.side == 1) & (self.setting.medium == 1)
    }

    // "On a refusal: its number, none, not, 0."
    pub(crate) fn refused(&self, octets: &[u8], refusal: Refusal) -> Outcome
        ensures { result ≡ refused_outcome (coupler_in self.now) octets.now refusal }
    {
        Outcome {
            refusal: Some(refusal),
            acknowledgement: Acknowledgement::Silence,
            own: false,
            forwarded: 0,
        }
    }

    // The refusals that stand before the reader's: 15, 18, 14, 13.
    pub(crate) fn judge(&self, room: usize) -> Result<(), Refusal>
        ensures { result ≡ first_of (setting_tests (coupler_in self.now) room) }
    {
        if (self.setting.line == 0) | !passing::settings::are_codes(self.codes) {
            return Err(Refusal::WrongSetting);
        }
        if !passing::settings::table_fits(self.codes, self.table.len()) {
            return Err(Refusal::NoTable);
        }
        if !((self.setting.side < 2) & (self.setting.medium < 2)) {
            return Err(Refusal::OutOfRange);
        }
        if room < 272 {
            return Err(Refusal::SmallRoom);
        }
        Ok(())
    }

    // Address, codes and count allow forwarding.
    fn is_allowed(&self, meaning: Meaning) -> bool
        ensures { result ≡ is_allowed (coupler_in self.now) meaning }
    {
        let filter = Filter {
            line: self.setting.line,
            codes: self.codes,
            table: self.table,
        };
        let passes = filter.may_pass(self.setting.side, address_of(meaning));
        passes & (meaning.count != 0)
    }

    fn pass_on(
        &self,
        repetition: bool,
        meaning: Meaning,
        payload: &[u8],
        room: &mut [u8],
    ) -> Outcome
        requires { (in_range meaning (length payload.now) ≡ true) × (272 ≤ length room.old) }
        ensures { PassedOn (coupler_in self.now) repetition meaning payload.now room.old result room.new }
    {
        let own = passing::is_own(self.setting.line, address_of(meaning));
        let allowed = self.is_allowed(meaning);
        let acknowledgement = acknowledgement(self.from_ip(), own, allowed);
        let forwards = allowed & !repetition;
        let forwarded = if forwards {
            forward(self.to_ip(), self.setting, meaning, payload, room)
        } else {
            0
        };
        Outcome {
            refusal: None,
            acknowledgement,
            own,
            forwarded,
        }
    }

    pub(crate) fn receive(&self, remembered: &[u8], octets: &[u8], room: &mut [u8]) -> Outcome
        requires { 272 ≤ length room.old }
        ensures { HandedBy (coupler_in self.now) remembered.now octets.now (read_by (from_ip (coupler_in self.now)) octets.now) room.old result room.new }
    {
        let ip = self.from_ip();
        match hear(ip, octets) {
            Err(refusal) => self.refused(octets, refusal),
            Ok(meaning) => {
                let payload = payload_of(ip, meaning, octets);
                let repetition = repeats(ip, remembered, octets);
                self.pass_on(repetition, meaning, payload, room)
            }
        }
    }
}
