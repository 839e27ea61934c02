// The tests of document 01's order for TP1, and the meaning of octets that pass them.
ghost use Rattle.std.specs.Prelude.{◌≡◌, cond, ◌≤◌, length};
ghost use Rattle.frame.specs.Fields.{is_control};
ghost use Rattle.tp1.specs.Layout.{head_of};
ghost use Rattle.tp1.specs.Reading.{is_extended, head_size, is_other_format, is_escape, frame_size, is_checked, meaning_in};
ghost use Rattle.tp1.specs.Stages.{read_from};

use frame::{Meaning, Refusal};

#[tactic(auto, unfolding(frame::specs::Fields::is_control))]
pub(crate) fn is_control(control: u8) -> bool
    ensures { result ≡ is_control control }
{
    (control / 64 % 2 == 0) & (control / 16 % 2 == 1) & (control % 4 == 0)
}

// How many octets stand before TPCI.
pub(crate) fn head_of(extended: bool) -> usize
    ensures { result ≡ head_of extended }
{
    if extended { 7 } else { 6 }
}

#[tactic(auto, unfolding(crate::specs::Reading::is_extended))]
fn is_extended(octets: &[u8]) -> bool
    ensures { result ≡ is_extended octets.now }
{
    octets::octet(octets, 0) < 128
}

#[tactic(auto, unfolding(crate::specs::Reading::is_other_format))]
fn is_other_format(octets: &[u8]) -> bool
    ensures { result ≡ is_other_format octets.now }
{
    if is_extended(octets) {
        octets::octet(octets, 1) % 16 != 0
    } else {
        false
    }
}

#[tactic(auto, unfolding(crate::specs::Reading::is_escape))]
fn is_escape(octets: &[u8]) -> bool
    ensures { result ≡ is_escape octets.now }
{
    let escape = octets::octet(octets, 6) == 255;
    if is_extended(octets) { escape } else { false }
}

// 8 + LG or 9 + LG.
#[tactic(auto, unfolding(crate::specs::Reading::frame_size))]
fn frame_size(octets: &[u8]) -> usize
    ensures { result ≡ frame_size octets.now }
{
    if is_extended(octets) {
        9 + octets::octet(octets, 6) as usize
    } else {
        8 + (octets::octet(octets, 5) % 16) as usize
    }
}

#[tactic(auto, unfolding(crate::specs::Reading::is_checked))]
fn is_checked(octets: &[u8]) -> bool
    requires { 1 ≤ length octets.now }
    ensures { result ≡ is_checked octets.now }
{
    let last = octets.len() - 1;
    octets[last] == octets::check_octet(&octets[..last])
}

// Where the octet of AT and hop count stands.
fn ctrle_at(extended: bool) -> usize
    ensures { result ≡ cond extended 1 5 }
{
    if extended { 1 } else { 5 }
}

pub(crate) fn meaning_in(octets: &[u8]) -> Meaning
    ensures { result ≡ meaning_in octets.now }
{
    let extended = is_extended(octets);
    let at = ctrle_at(extended);
    let head = head_of(extended);
    let start = head - 5;
    let control = octets::octet(octets, 0);
    let ctrle = octets::octet(octets, at);
    let source = octets::word_at(octets, start);
    let destination = octets::word_at(octets, start + 2);
    frame::meaning_of(control, ctrle, source, destination)
}

// From the sixth test of the order on.
fn read_end(octets: &[u8]) -> Result<Meaning, Refusal>
    ensures { result ≡ read_from 5 octets.now }
{
    let size = frame_size(octets);
    if octets.len() < size {
        Err(Refusal::TooFew)
    } else if size < octets.len() {
        Err(Refusal::LeftOver)
    } else if is_checked(octets) {
        Ok(meaning_in(octets))
    } else {
        Err(Refusal::WrongCheck)
    }
}

// From the third test of the order on.
#[tactic(auto, unfolding(crate::specs::Stages::read_from, crate::specs::Reading::head_size))]
pub(crate) fn read_head(octets: &[u8]) -> Result<Meaning, Refusal>
    ensures { result ≡ read_from 2 octets.now }
{
    let least = head_of(is_extended(octets));
    if octets.len() < least {
        Err(Refusal::TooFew)
    } else if is_other_format(octets) {
        Err(Refusal::OtherFormat)
    } else if is_escape(octets) {
        Err(Refusal::Escape)
    } else {
        read_end(octets)
    }
}
