ghost use Rattle.std.specs.Prelude.{◌≡◌, ◌+◌, ◌<◌, [], None};
ghost use Rattle.fx_code.specs.Limits.{source_fault, start_fault, term_fault, terms_fault, width_fault};

use crate::fault::{LimitOf, ProgramFault};
use crate::limits::{CODE_ROWS, COEFFICIENT_BITS, LONGEST_SHIFT, PRODUCT_BITS};
use crate::term::{CodeTerm, Read, reads_source};
use fx_eqs::PORTS;
use fx_math::{GREATEST_WIDTH, LEAST_WIDTH, is_accumulator};

// The first fault of a program's start.
pub fn start_fault(accumulator: u8, widths: &[u8]) -> Option<ProgramFault>
    ensures { result ≡ start_fault accumulator widths.now }
{
    if !is_accumulator(accumulator) {
        return Some(ProgramFault::Limit(LimitOf::Accumulator, i128::from(accumulator)));
    }
    if widths.is_empty() || widths.len() > PORTS {
        return Some(ProgramFault::Limit(LimitOf::Inputs, widths.len() as i128));
    }
    width_fault(widths)
}

// The first width of an input that is out of its range.
fn width_fault(widths: &[u8]) -> Option<ProgramFault>
    ensures { result ≡ width_fault widths.now }
{
    for &width in widths {
        if width < LEAST_WIDTH || width > GREATEST_WIDTH {
            return Some(ProgramFault::Limit(LimitOf::InputWidth, i128::from(width)));
        }
    }
    None
}

// The fault of a term's source in row n.
fn source_fault(n: u8, inputs: usize, from: Read) -> Option<ProgramFault>
    ensures { result ≡ source_fault n inputs from None }
{
    match from {
        Read::Now(i) if usize::from(i) >= CODE_ROWS => {
            Some(ProgramFault::Limit(LimitOf::Rows, i128::from(i)))
        }
        Read::Now(i) if i >= n => Some(ProgramFault::Order(n)),
        Read::Now(_) => None,
        Read::Old(i) if usize::from(i) >= CODE_ROWS => {
            Some(ProgramFault::Limit(LimitOf::Rows, i128::from(i)))
        }
        Read::Old(_) => None,
        Read::In(j) if usize::from(j) >= inputs => {
            Some(ProgramFault::Limit(LimitOf::Inputs, i128::from(j)))
        }
        Read::In(_) => None,
    }
}

// The fault of one term behind earlier ones.
fn term_fault(
    n: u8,
    inputs: usize,
    shift: u8,
    earlier: &[CodeTerm],
    term: &CodeTerm,
) -> Option<ProgramFault>
    requires { PRODUCT_BITS + shift < 128 }
    ensures { result ≡ term_fault n inputs shift earlier.now term.now }
{
    if term.left > LONGEST_SHIFT {
        return Some(ProgramFault::Limit(LimitOf::Left, i128::from(term.left)));
    }
    if term.coef.unsigned_abs() >= 1 << COEFFICIENT_BITS {
        return Some(ProgramFault::Limit(LimitOf::Coefficient, i128::from(term.coef)));
    }
    if let Some(fault) = source_fault(n, inputs, term.from) {
        return Some(fault);
    }
    if reads_source(earlier, term.from) {
        return Some(ProgramFault::Twice(n));
    }
    let weight = term.weight();
    let magnitude = weight.unsigned_abs();
    if magnitude >= 1 << COEFFICIENT_BITS || magnitude >= 1 << (PRODUCT_BITS + shift) {
        return Some(ProgramFault::Limit(LimitOf::Product, weight));
    }
    None
}

// The first fault of the terms of row n, term by term.
pub fn terms_fault(n: u8, inputs: usize, shift: u8, terms: &[CodeTerm]) -> Option<ProgramFault>
    requires { PRODUCT_BITS + shift < 128 }
    ensures { result ≡ terms_fault n inputs shift [] terms.now }
{
    for (i, term) in terms.iter().enumerate() {
        if let Some(fault) = term_fault(n, inputs, shift, &terms[..i], term) {
            return Some(fault);
        }
    }
    None
}
