// The setting codes and the filter table's size: which are allowed.
ghost use Rattle.std.specs.Prelude.{◌≡◌, ◌<◌, ◌^◌};
ghost use Rattle.passing.specs.Classes.{class_number};
ghost use Rattle.passing.specs.Settings.{row_from, codes_from, code_in, is_code, is_row, are_codes, asks_table, table_fits};

use crate::addresses::Class;

fn row_from(octets: &[u8], start: usize) -> [u8; 4]
    requires { start < 2 ^ 32 }
    ensures { result ≡ row_from octets.now start }
{
    [
        octets::octet(octets, start),
        octets::octet(octets, start + 1),
        octets::octet(octets, start + 2),
        octets::octet(octets, start + 3),
    ]
}

// The two rows of four codes that start at an index, main to sub and sub to main.
pub fn codes_from(octets: &[u8], start: u8) -> [[u8; 4]; 2]
    ensures { result ≡ codes_from octets.now start }
{
    let start = usize::from(start);
    [row_from(octets, start), row_from(octets, start + 4)]
}

// The code of a direction and a class; 0 outside them.
pub(crate) fn code_in(codes: [[u8; 4]; 2], direction: u8, class: Class) -> u8
    ensures { result ≡ code_in codes direction (class_number class) }
{
    if direction < 2 {
        let row = usize::from(direction);
        codes[row][class as usize]
    } else {
        0
    }
}

fn is_code(class: Class, code: u8) -> bool
    ensures { result ≡ is_code (class_number class) code }
{
    match class {
        Class::Broadcast => (code <= 2) & (code != 1),
        Class::Individual | Class::Lower | Class::Upper => code <= 2,
    }
}

fn is_row(codes: [[u8; 4]; 2], direction: u8) -> bool
    ensures { result ≡ is_row codes direction }
{
    is_code(
        Class::Individual,
        code_in(codes, direction, Class::Individual),
    ) & is_code(
        Class::Broadcast,
        code_in(codes, direction, Class::Broadcast),
    ) & is_code(Class::Lower, code_in(codes, direction, Class::Lower))
        & is_code(Class::Upper, code_in(codes, direction, Class::Upper))
}

pub fn are_codes(codes: [[u8; 4]; 2]) -> bool
    ensures { result ≡ are_codes codes }
{
    is_row(codes, 0) & is_row(codes, 1)
}

// Whether some group code is 1.
pub fn asks_table(codes: [[u8; 4]; 2]) -> bool
    ensures { result ≡ asks_table codes }
{
    (codes[0][2] == 1) | (codes[0][3] == 1) | (codes[1][2] == 1) | (codes[1][3] == 1)
}

pub fn table_fits(codes: [[u8; 4]; 2], size: usize) -> bool
    ensures { result ≡ table_fits codes size }
{
    if size == 8192 {
        true
    } else {
        (size == 0) & !asks_table(codes)
    }
}
