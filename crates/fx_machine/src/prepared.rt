ghost use Rattle.std.specs.Prelude.{◌≡◌, ◌+◌, ◌*◌, ◌^◌, ◌<◌, ◌≤◌, length, map, IfOk, unsigned_abs};
ghost use Rattle.fx_code.specs.Code.{row_at, weight};
ghost use Rattle.fx_machine.specs.Prepared.{
  place_of,
  half_of,
  limit_of,
  is_one,
  is_word,
  is_copy,
  is_negative,
  depth_of,
  height_of,
  depth,
  height,
  is_sure,
  kept_kind,
  sum_kind,
  kind_of,
  greatest,
  scaled,
  plan_of,
  plan_for,
};
ghost use Rattle.fx_machine.specs.Standing.{ArePrepared};

use crate::low_bits::{is_outside_128, quotient};
use crate::places::{FIRST_INPUT, FIRST_OLD};
use fx_code::{CODE_TERMS, COEFFICIENT_BITS, CodeTerm, LONGEST_SHIFT, Program, Read};
use fx_math::GREATEST_WIDTH;
use std::alloc::{AllocError, Global};

// How a row is computed.
#[derive(Clone, Copy)]
pub enum Kind {
    // As the word of its one source, which is no wider.
    Copy,
    // By sums within the accumulator's bits, which are kept as words.
    Sure,
    // By sums within the accumulator's bits; the word may lose bits.
    Word,
    // By sums within 62 bits, which may leave the accumulator.
    Watched,
    // By sums within 128 bits.
    Wide,
}

// A coefficient shifted to the left, and the place of the word that it multiplies.
#[derive(Clone, Copy)]
pub struct ScaledTerm {
    pub multiplier: i64,
    pub place: usize,
}

// A row with all that a moment needs of it.
#[derive(Drop)]
pub struct PreparedRow {
    pub accumulator: u8,
    pub width: u8,
    pub shift: u8,
    pub kind: Kind,
    // Half of the numbers of the word's bits.
    pub half: u64,
    pub constant: i64,
    pub terms: Vec<ScaledTerm>,
}

// The place of a source among a machine's words.
fn place_of(from: Read) -> usize
    ensures { result ≡ place_of from }
{
    match from {
        Read::Now(i) => usize::from(i),
        Read::Old(i) => FIRST_OLD + usize::from(i),
        Read::In(j) => FIRST_INPUT + usize::from(j),
    }
}

// Half of the words of so many bits.
fn half_of(bits: u8) -> u64
    requires low { 1 ≤ bits }
    requires high { bits ≤ GREATEST_WIDTH }
    ensures value { result ≡ half_of bits }
    ensures bound { result ≤ 2 ^ 31 }
{
    1 << (bits - 1)
}

// Half of the words that row i may have; 1 where it is not there.
fn row_limit(program: &Program, i: usize) -> u64
    ensures value { result ≡ half_of (row_at program.now i).width }
    ensures bound { result ≤ 2 ^ 31 }
{
    if i < program.rows() {
        half_of(program.width(i))
    } else {
        1
    }
}

// Half of the words that a source may have.
fn limit_of(program: &Program, from: Read) -> u64
    ensures value { result ≡ limit_of program.now from }
    ensures bound { result ≤ 2 ^ 31 }
{
    match from {
        Read::Now(i) => row_limit(program, usize::from(i)),
        Read::Old(i) => row_limit(program, usize::from(i)),
        Read::In(j) if usize::from(j) < program.inputs() => {
            half_of(program.input_width(usize::from(j)))
        }
        Read::In(_) => 1,
    }
}

// A magnitude times a limit of words.
fn times(magnitude: u128, limit: u64) -> u128
    requires magnitude { magnitude < 2 ^ COEFFICIENT_BITS }
    requires limit { limit ≤ 2 ^ 31 }
    ensures value { result ≡ magnitude * limit }
    ensures bound { result ≤ 2 ^ 93 }
{
    magnitude * u128::from(limit)
}

// The greatest sum of the magnitudes of the terms of row i.
fn greatest(program: &Program, i: usize) -> u128
    requires { i < length program.now.rows }
    ensures value { result ≡ greatest program.now (row_at program.now i).own.terms }
    ensures bound { result ≤ CODE_TERMS * 2 ^ 93 }
{
    let mut sum = 0;
    for term in program.terms(i) {
        sum += times(term.weight().unsigned_abs(), limit_of(program, term.from));
    }
    sum
}

// Whether a number is 1.
fn is_one(z: i64) -> bool
    ensures { result ≡ is_one z }
{
    z == 1
}

// Whether a term is the word of a source that is no wider than so many bits.
fn is_word(program: &Program, width: u8, term: &CodeTerm) -> bool
    requires low { 1 ≤ width }
    requires high { width ≤ GREATEST_WIDTH }
    ensures { result ≡ is_word program.now width term.now }
{
    is_one(term.coef) && term.left == 0 && limit_of(program, term.from) <= half_of(width)
}

// Whether row i is the word of one source that is no wider.
fn is_copy(program: &Program, i: usize) -> bool
    requires { i < length program.now.rows }
    ensures { result ≡ is_copy program.now (row_at program.now i) }
{
    let terms = program.terms(i);
    program.shift(i) == 0 && terms.len() == 1 && is_word(program, program.width(i), &terms[0])
}

// Whether a number lies below 0.
fn is_negative(z: i128) -> bool
    ensures { result ≡ is_negative z }
{
    z < 0
}

// How far below 0 a number times a word may lie, where half of the words lie below 0.
fn depth_of(weight: i128, half: u64) -> u128
    requires weight { unsigned_abs weight < 2 ^ COEFFICIENT_BITS }
    requires half { half ≤ 2 ^ 31 }
    ensures value { result ≡ depth_of weight half }
    ensures bound { result ≤ 2 ^ 93 }
{
    let word = if is_negative(weight) {
        half.saturating_sub(1)
    } else {
        half
    };
    times(weight.unsigned_abs(), word)
}

// How far above 0 a number times a word may lie, where half of the words lie below 0.
fn height_of(weight: i128, half: u64) -> u128
    requires weight { unsigned_abs weight < 2 ^ COEFFICIENT_BITS }
    requires half { half ≤ 2 ^ 31 }
    ensures value { result ≡ height_of weight half }
    ensures bound { result ≤ 2 ^ 93 }
{
    let word = if is_negative(weight) {
        half
    } else {
        half.saturating_sub(1)
    };
    times(weight.unsigned_abs(), word)
}

// How far below 0 the sum of the terms of row i may lie.
fn depth(program: &Program, i: usize) -> u128
    requires { i < length program.now.rows }
    ensures value { result ≡ depth program.now (row_at program.now i).own.terms }
    ensures bound { result ≤ CODE_TERMS * 2 ^ 93 }
{
    let mut sum = 0;
    for term in program.terms(i) {
        sum += depth_of(term.weight(), limit_of(program, term.from));
    }
    sum
}

// How far above 0 the sum of the terms of row i may lie.
fn height(program: &Program, i: usize) -> u128
    requires { i < length program.now.rows }
    ensures value { result ≡ height program.now (row_at program.now i).own.terms }
    ensures bound { result ≤ CODE_TERMS * 2 ^ 93 }
{
    let mut sum = 0;
    for term in program.terms(i) {
        sum += height_of(term.weight(), limit_of(program, term.from));
    }
    sum
}

// Whether the least and the greatest sum of row i, floored by its shift, are words of the row.
fn is_sure(program: &Program, i: usize) -> bool
    requires { i < length program.now.rows }
    ensures { result ≡ is_sure program.now (row_at program.now i) }
{
    let constant = i128::from(program.constant(i));
    let least = quotient(constant - depth(program, i) as i128, program.shift(i));
    let most = quotient(constant + height(program, i) as i128, program.shift(i));
    let width = program.width(i);
    let low = is_outside_128(least, width);
    let high = is_outside_128(most, width);
    !(low | high)
}

// The kind of row i, where its sums stay within the accumulator.
fn kept_kind(program: &Program, i: usize) -> Kind
    requires { i < length program.now.rows }
    ensures { result ≡ kept_kind program.now (row_at program.now i) }
{
    if is_sure(program, i) {
        Kind::Sure
    } else {
        Kind::Word
    }
}

// The kind of a row that is no copy, by the greatest magnitude of its sums, and its kind where they stay within the
// accumulator.
fn sum_kind(bits: u8, sum: u128, kept: Kind) -> Kind
    requires low { 1 ≤ bits }
    requires high { bits ≤ 64 }
    ensures { result ≡ sum_kind bits sum kept }
{
    if sum < 1 << (bits - 1) {
        kept
    } else if sum < 1 << 61 {
        Kind::Watched
    } else {
        Kind::Wide
    }
}

// The kind of row i.
fn kind_of(program: &Program, i: usize) -> Kind
    requires { i < length program.now.rows }
    ensures { result ≡ kind_of program.now (row_at program.now i) }
{
    if is_copy(program, i) {
        return Kind::Copy;
    }
    let sum = u128::from(program.constant(i).unsigned_abs()) + greatest(program, i);
    sum_kind(program.accumulator(), sum, kept_kind(program, i))
}

// A term with its coefficient shifted to the left.
fn scaled(term: &CodeTerm) -> ScaledTerm
    requires left { term.now.left ≤ LONGEST_SHIFT }
    requires coefficient { unsigned_abs term.now.coef < 2 ^ COEFFICIENT_BITS }
    requires product { unsigned_abs (weight term.now) < 2 ^ COEFFICIENT_BITS }
    ensures { result ≡ scaled term.now }
{
    ScaledTerm {
        multiplier: term.weight() as i64,
        place: place_of(term.from),
    }
}

// The terms of row i with their coefficients shifted to the left, in their order.
fn scaled_terms(alloc: Global, program: &Program, i: usize) -> Result<Vec<ScaledTerm>, AllocError>
    requires { i < length program.now.rows }
    ensures { IfOk result (λ v. v.items ≡ map scaled (row_at program.now i).own.terms) }
{
    let mut terms = Vec::new(alloc);
    for term in program.terms(i) {
        terms.push(scaled(term))?;
    }
    Ok(terms)
}

// Row i, prepared.
fn prepared_row(alloc: Global, program: &Program, i: usize) -> Result<PreparedRow, AllocError>
    requires { i < length program.now.rows }
    ensures { IfOk result (λ r. plan_of r ≡ plan_for program.now (row_at program.now i)) }
{
    let terms = scaled_terms(alloc, program, i)?;
    let width = program.width(i);
    Ok(PreparedRow {
        accumulator: program.accumulator(),
        width,
        shift: program.shift(i),
        kind: kind_of(program, i),
        half: half_of(width),
        constant: program.constant(i),
        terms,
    })
}

// All rows of a program, prepared.
pub fn prepared_rows(alloc: Global, program: &Program) -> Result<Vec<PreparedRow>, AllocError>
    ensures { IfOk result (λ v. ArePrepared program.now v.items) }
{
    let mut rows = Vec::new(alloc);
    for i in 0..program.rows() {
        rows.push(prepared_row(alloc, program, i)?)?;
    }
    Ok(rows)
}
