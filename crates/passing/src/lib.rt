// Who may pass a coupler, with what count, and if not, why not. A direction is 0 main to sub or 1 sub
// to main; an address is its kind (0 individual, 1 group) and its number. Directions, kinds and codes stay numbers:
// other numbers are promised answers (`code_in`, `is_onward`, `class_of`, `is_code`), and an enum would ask more.
#![tactic(auto)]

mod addresses;
mod hops;
pub mod settings;

ghost use Rattle.std.specs.Prelude.{◌≡◌};
ghost use Rattle.passing.specs.Passing.{may_pass, passage_of};

pub use addresses::is_own;
pub use hops::{hopped_count, stays};

// What a coupler makes of a telegram: it lets it pass, or the first reason why not. One list, and no Result of the reasons: the
// surface numbers all eight, and the planner's text has a sentence for each.
#[derive(Clone, Copy, PartialEq, Eq, Debug)]
pub enum Passage {
    Passes,
    NotFitted,
    OwnAddress,
    Closed,
    NotBelow,
    NotAbove,
    NotInTable,
    UsedUp,
}

// Where a telegram goes: its kind (0 individual, 1 group) and its number.
#[derive(Clone, Copy, PartialEq, Eq, Debug)]
pub struct Address {
    pub kind: u8,
    pub destination: u16,
}

// What a coupler goes by: own line, two rows of codes, filter table.
#[derive(Clone, Copy)]
pub struct Filter<'a> {
    pub line: u8,
    pub codes: [[u8; 4]; 2],
    pub table: &'a [u8],
}

impl<'a> Filter<'a> {
    // Whether a coupler lets a telegram to this address pass in this direction.
    pub fn may_pass(&self, direction: u8, address: Address) -> bool
        ensures { result ≡ may_pass self.now.line self.now.codes self.now.table.now direction address.kind address.destination }
    {
        let class = addresses::class_of(address);
        let code = settings::code_in(self.codes, direction, class);
        let own = addresses::is_own(self.line, address);
        let ruled = addresses::is_ruled(self, direction, class, address.destination);
        !own & ((code == 2) | ((code == 1) & ruled))
    }

    // What a coupler makes of a telegram to this address that comes to it with this count.
    pub fn why_not(&self, direction: u8, address: Address, count: u8) -> Passage
        ensures { result ≡ passage_of self.now.line self.now.codes self.now.table.now direction address.kind address.destination count }
    {
        let class = addresses::class_of(address);
        let code = settings::code_in(self.codes, direction, class);
        let named = (code == 1) | (code == 2);
        if addresses::is_own(self.line, address) {
            Passage::OwnAddress
        } else if !named {
            Passage::Closed
        } else if (code == 1) & !addresses::is_ruled(self, direction, class, address.destination) {
            addresses::ruled_out(direction, class)
        } else if count == 0 {
            Passage::UsedUp
        } else {
            Passage::Passes
        }
    }
}
