// Addresses: their classes, the coupler's own, and what code 1 asks of each class.
ghost use Rattle.std.specs.Prelude.{◌≡◌, ◌<◌};
ghost use Rattle.passing.specs.Settings.{class_of};
ghost use Rattle.passing.specs.Classes.{class_number};
ghost use Rattle.passing.specs.Passing.{is_own, is_in_table, is_below, is_onward, is_ruled, ruled_out};

use crate::{Address, Filter, Passage};

// The classes of addresses, each with a column of codes of its own.
#[derive(Clone, Copy, PartialEq, Eq, Debug)]
pub(crate) enum Class {
    Individual,
    Broadcast,
    Lower,
    Upper,
}

pub(crate) fn class_of(address: Address) -> Class
    ensures { class_number result ≡ class_of address.kind address.destination }
{
    let Address { kind, destination } = address;
    if kind == 1 {
        if destination == 0 {
            return Class::Broadcast;
        }
        if destination < 0x7000 {
            Class::Lower
        } else {
            Class::Upper
        }
    } else {
        Class::Individual
    }
}

// Whether a telegram to this address is for the coupler itself.
pub fn is_own(line: u8, address: Address) -> bool
    ensures { result ≡ is_own line address.kind address.destination }
{
    (address.kind == 0) & (address.destination == u16::from(line) * 256)
}

fn is_in_table(table: &[u8], address: u16) -> bool
    ensures { result ≡ is_in_table table.now address }
{
    let octet = octets::octet(table, (address / 8) as usize);
    let bit = (address % 8) as u8;
    (octet >> bit) % 2 == 1
}

fn is_below(line: u8, destination: u16) -> bool
    ensures { result ≡ is_below line destination }
{
    if line % 16 == 0 {
        destination / 4096 == (line / 16) as u16
    } else {
        destination / 256 == line as u16
    }
}

fn is_onward(line: u8, direction: u8, destination: u16) -> bool
    ensures { result ≡ is_onward line direction destination }
{
    let below = is_below(line, destination);
    if direction == 0 { below } else { !below }
}

pub(crate) fn is_ruled<'a>(
    filter: &Filter<'a>,
    direction: u8,
    class: Class,
    destination: u16,
) -> bool
    ensures { result ≡ is_ruled filter.now.line filter.now.table.now direction (class_number class) destination }
{
    match class {
        Class::Individual => is_onward(filter.line, direction, destination),
        Class::Broadcast => false,
        Class::Lower | Class::Upper => is_in_table(filter.table, destination),
    }
}

// Which of the reasons of code 1 it is.
pub(crate) fn ruled_out(direction: u8, class: Class) -> Passage
    ensures { result ≡ ruled_out direction (class_number class) }
{
    match class {
        Class::Individual => {
            if direction == 0 {
                Passage::NotBelow
            } else {
                Passage::NotAbove
            }
        }
        Class::Broadcast | Class::Lower | Class::Upper => Passage::NotInTable,
    }
}
