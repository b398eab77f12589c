//! The parts of a row.

ghost use Rattle.std.specs.Prelude.{◌≡◌, ◌≤◌, ◌<◌, ◌^◌, [], length, pos, IfOk, None};
ghost use Rattle.fx_code.specs.Code.{constant_in};
ghost use Rattle.fx_math.specs.Answers.{Gives};
ghost use Rattle.fx_text.specs.TokenReading.{is_memory};
ghost use Rattle.fx_text.specs.Reading.{
  sign_at,
  coefficient_at,
  source_of,
  is_ahead,
  checked_source,
  source_at,
  term_at,
  statement_at,
  terms_at,
  constant_at,
  mode_at,
  store_begins_at,
  store_at,
  checked_constant,
};

use crate::fault::CodeFault;
use crate::token::{
    begins_with_letter, due_at, expect_at, name_number, next_at, number_at, pair_at, token_at,
};
use fx_code::{
    COEFFICIENT_BITS, CodeTerm, LONGEST_SHIFT, LimitOf, Read, constant_in, reads_source,
};
use fx_eqs::Mode;
use fx_math::{GREATEST_WIDTH, LEAST_WIDTH};
use fx_nums::signed;
use std::alloc::Global;

/// Where a row stands: its number, the count of rows and the count of inputs.
#[derive(Clone, Copy)]
pub struct Place {
    pub row: u8,
    pub rows: u8,
    pub inputs: u8,
}

/// What the store of a row says.
#[derive(Clone, Copy)]
pub struct Store {
    /// How the right shift drops low places.
    pub mode: Mode,
    /// The right shift: at most `LONGEST_SHIFT`, and below the bits of the accumulators.
    pub shift: u8,
    /// The bits of the row's word.
    pub width: u8,
}

// Whether a `-` is next, and the place where its number is.
#[tactic(auto, unfolding(crate::specs::Reading::sign_at))]
fn sign_at(text: &[u8], at: usize) -> Result<(bool, usize), CodeFault>
    requires { at ≤ length text.now }
    ensures gives { Gives is_memory (λ s. s) result (sign_at text.now at) }
    ensures within { IfOk result (λ s. s.1 ≤ length text.now) }
{
    let (_, word, end) = token_at(text, at)?;
    if word == b"-".as_slice() {
        Ok((true, end))
    } else {
        Ok((false, at))
    }
}

// A coefficient within its limit, and the place after it.
#[tactic(auto, unfolding(crate::specs::Reading::coefficient_at))]
fn coefficient_at(text: &[u8], at: usize) -> Result<(i64, usize), CodeFault>
    requires { at ≤ length text.now }
    ensures gives { Gives is_memory (λ k. k) result (coefficient_at text.now at) }
    ensures within { IfOk result (λ k. k.1 ≤ length text.now) }
{
    let (negative, at) = sign_at(text, at)?;
    let (magnitude, at) = number_at(text, at)?;
    let coefficient = signed(negative, magnitude);
    if magnitude >= 1 << COEFFICIENT_BITS {
        return Err(CodeFault::Limit(LimitOf::Coefficient, i128::from(coefficient)));
    }
    Ok((coefficient, at))
}

// The source of this name, if its number is below the count of rows or of inputs.
#[tactic(auto, unfolding(crate::specs::Reading::source_of))]
fn source_of(word: &[u8], place: &Place) -> Option<Read>
    ensures { result ≡ source_of place.now word.now }
{
    if let Some(i) = name_number(word, b'r', place.rows) {
        return Some(Read::Now(i));
    }
    if let Some(i) = name_number(word, b's', place.rows) {
        return Some(Read::Old(i));
    }
    match name_number(word, b'u', place.inputs) {
        Some(j) => Some(Read::In(j)),
        None => None,
    }
}

// Whether a source is a row's word of this moment that is not there yet.
fn is_ahead(row: u8, from: Read) -> bool
    ensures { result ≡ is_ahead row from }
{
    match from {
        Read::Now(i) => i >= row,
        Read::Old(_) => false,
        Read::In(_) => false,
    }
}

// A source behind those of earlier terms, and the place after it.
fn checked_source(
    row: u8,
    terms: &[CodeTerm],
    from: Read,
    at: usize,
) -> Result<(Read, usize), CodeFault>
    ensures gives { Gives is_memory (λ s. s) result (checked_source row terms.now from at) }
    ensures place { IfOk result (λ s. s.1 ≡ at) }
{
    if is_ahead(row, from) {
        return Err(CodeFault::Order(row));
    }
    if reads_source(terms, from) {
        return Err(CodeFault::Twice(row));
    }
    Ok((from, at))
}

// A source behind a comma and those of earlier terms, and the place after it.
#[tactic(auto, unfolding(crate::specs::Reading::source_at))]
fn source_at(
    text: &[u8],
    at: usize,
    place: &Place,
    terms: &[CodeTerm],
) -> Result<(Read, usize), CodeFault>
    requires { at ≤ length text.now }
    ensures gives { Gives is_memory (λ s. s) result (source_at place.now terms.now text.now at) }
    ensures within { IfOk result (λ s. s.1 ≤ length text.now) }
{
    let at = expect_at(text, at, b",")?;
    let (start, word, end) = token_at(text, at)?;
    if !begins_with_letter(word) {
        return Err(CodeFault::Unexpected(start));
    }
    match source_of(word, place) {
        Some(from) => checked_source(place.row, terms, from, end),
        None => Err(CodeFault::Name(start)),
    }
}

// `+= MUL ( coef , source , left ) ;` behind earlier terms, and the place after it.
#[tactic(auto, unfolding(crate::specs::Reading::term_at))]
fn term_at(
    text: &[u8],
    at: usize,
    place: &Place,
    terms: &[CodeTerm],
) -> Result<(CodeTerm, usize), CodeFault>
    requires { at ≤ length text.now }
    ensures gives { Gives is_memory (λ t. t) result (term_at place.now terms.now text.now at) }
    ensures within { IfOk result (λ t. t.1 ≤ length text.now) }
{
    let at = pair_at(text, at, b"+=", b"MUL")?;
    let at = expect_at(text, at, b"(")?;
    let (coef, at) = coefficient_at(text, at)?;
    let (from, at) = source_at(text, at, place, terms)?;
    let (left, at) = next_at(text, at, LimitOf::Left, 0, LONGEST_SHIFT)?;
    let at = pair_at(text, at, b")", b";")?;
    Ok((CodeTerm { coef, from, left }, at))
}

// Whether a term begins, and not the store of this row, and the place after its name.
#[tactic(auto, unfolding(crate::specs::Reading::statement_at))]
fn statement_at(text: &[u8], at: usize, row: u8) -> Result<(bool, usize), CodeFault>
    requires { at ≤ length text.now }
    ensures gives { Gives is_memory (λ s. s) result (statement_at row text.now at) }
    ensures within { IfOk result (λ s. s.1 ≤ length text.now) }
{
    let (_, word, end) = token_at(text, at)?;
    if word == b"a".as_slice() {
        return Ok((true, end));
    }
    let end = due_at(text, at, b'r', row)?;
    Ok((false, end))
}

// The terms of a row, and the place after the name of its store.
pub fn terms_at(
    alloc: Global,
    text: &[u8],
    start: usize,
    place: &Place,
) -> Result<(Vec<CodeTerm>, usize), CodeFault>
    requires { start ≤ length text.now }
    ensures gives { Gives is_memory (λ t. (t.0.items, t.1)) result (terms_at place.now [] text.now start) }
    ensures within { IfOk result (λ t. t.1 ≤ length text.now) }
{
    let mut terms = Vec::new(alloc);
    let mut at = start;
    loop {
        let (is_term, behind) = statement_at(text, at, place.row)?;
        if !is_term {
            return Ok((terms, behind));
        }
        let (term, end) = term_at(text, behind, place, &terms)?;
        terms.push(term)?;
        at = end;
    }
}

// The number of `a = number ;`, and the place after it.
#[tactic(auto, unfolding(crate::specs::Reading::constant_at))]
pub fn constant_at(text: &[u8], at: usize) -> Result<(u64, usize), CodeFault>
    requires { at ≤ length text.now }
    ensures gives { Gives is_memory (λ n. n) result (constant_at text.now at) }
    ensures within { IfOk result (λ n. (n.0 < 2 ^ 63) × (n.1 ≤ length text.now)) }
{
    let at = pair_at(text, at, b"a", b"=")?;
    let (number, at) = number_at(text, at)?;
    let at = expect_at(text, at, b";")?;
    Ok((number, at))
}

// The mode that `SAR` or `FLR` stands for, and the place after it.
#[tactic(auto, unfolding(crate::specs::Reading::mode_at))]
fn mode_at(text: &[u8], at: usize) -> Result<(Mode, usize), CodeFault>
    requires { at ≤ length text.now }
    ensures gives { Gives is_memory (λ m. m) result (mode_at text.now at) }
    ensures within { IfOk result (λ m. m.1 ≤ length text.now) }
{
    let (start, word, end) = token_at(text, at)?;
    if word == b"SAR".as_slice() {
        Ok((Mode::Nearest, end))
    } else if word == b"FLR".as_slice() {
        Ok((Mode::Floor, end))
    } else {
        Err(CodeFault::Unexpected(start))
    }
}

// The mode of `= LOW ( SAR ( a` or `= LOW ( FLR ( a`, and the place after it.
#[tactic(auto, unfolding(crate::specs::Reading::store_begins_at))]
fn store_begins_at(text: &[u8], at: usize) -> Result<(Mode, usize), CodeFault>
    requires { at ≤ length text.now }
    ensures gives { Gives is_memory (λ m. m) result (store_begins_at text.now at) }
    ensures within { IfOk result (λ m. m.1 ≤ length text.now) }
{
    let at = pair_at(text, at, b"=", b"LOW")?;
    let at = expect_at(text, at, b"(")?;
    let (mode, at) = mode_at(text, at)?;
    let at = pair_at(text, at, b"(", b"a")?;
    Ok((mode, at))
}

// What `= LOW ( SAR ( a , shift ) , width ) ;` says, or one with `FLR`, and the place after it.
#[tactic(auto, unfolding(crate::specs::Reading::store_at))]
pub fn store_at(text: &[u8], at: usize, accumulator: u8) -> Result<(Store, usize), CodeFault>
    requires place { at ≤ length text.now }
    requires bits { 16 ≤ accumulator }
    ensures gives { Gives is_memory (λ s. s) result (store_at accumulator text.now at) }
    ensures within { IfOk result (λ s. (s.0.shift ≤ LONGEST_SHIFT) × (s.1 ≤ length text.now)) }
{
    let (mode, at) = store_begins_at(text, at)?;
    let longest = LONGEST_SHIFT.min(accumulator - 1);
    let (shift, at) = next_at(text, at, LimitOf::Shift, 0, longest)?;
    let at = expect_at(text, at, b")")?;
    let widest = GREATEST_WIDTH.min(accumulator);
    let (width, at) = next_at(text, at, LimitOf::Width, LEAST_WIDTH, widest)?;
    let at = pair_at(text, at, b")", b";")?;
    Ok((Store { mode, shift, width }, at))
}

// A row's constant is the one that its store demands.
pub fn checked_constant(row: u8, got: u64, store: &Store) -> Result<(), CodeFault>
    requires number { got < 2 ^ 63 }
    requires shift { store.now.shift ≤ LONGEST_SHIFT }
    ensures { Gives is_memory (λ _. tt) result
        (checked_constant row got (constant_in store.now.mode store.now.shift)) }
{
    let wanted = constant_in(store.mode, store.shift);
    if got == wanted as u64 {
        Ok(())
    } else {
        Err(CodeFault::Rounding(row, got as i64, wanted))
    }
}
