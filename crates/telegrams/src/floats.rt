// The two-octet float, read and written.
use crate::text;
use std::{array, io};

pub(crate) fn run_float(out: &impl Print, given: &[u8]) -> io::Result<()> {
    match leak::read_octets(given) {
        Ok(hundredths) => print!(out; "hundredths {hundredths}"),
        Err(refusal) => text::put_refused(out, refusal),
    }
}

// A number in eight octets, as the total's block has it.
fn number_in(block: &[u8]) -> i64 {
    i64::from_be_bytes(array::from_fn(|at| octets::octet(block, at)))
}

pub(crate) fn run_hundredths(out: &impl Print, given: &[u8]) -> io::Result<()> {
    match leak::write(number_in(given)) {
        Ok(code) => print!(out; "code {code:04X}"),
        Err(refusal) => text::put_refused(out, refusal),
    }
}
