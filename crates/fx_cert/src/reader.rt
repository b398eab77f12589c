//! The certificate of a text.

ghost use Rattle.std.specs.Prelude.{◌≡◌, ◌≤◌, ◌<◌, length, pos, FitsSigned, IfOk, Ok};
ghost use Rattle.std.specs.Int.{w64, w128};
ghost use Rattle.fx_math.specs.Answers.{Gives};
ghost use Rattle.fx_cert.specs.Certificate.{Certificate, IsTextOf};
ghost use Rattle.fx_cert.specs.FirstFault.{first_fault, passes};
ghost use Rattle.fx_cert.specs.Laws.{CertificateLaw, FirstFaultLaw, OneCertificate};
ghost use Rattle.fx_cert.specs.Lines.{lines_of};
ghost use Rattle.fx_cert.specs.Reading.{
  behind_head,
  bound_at,
  bounds_in,
  certificate_in,
  each_at,
  end_at,
  error_at,
  errors_in,
  is_memory,
  length_in,
  numbered_at,
  outputs_at,
};

use crate::cert::{Cert, certificate_with};
use crate::fault::CertFault;
use crate::limits::{
    GREATEST_ERROR, GREATEST_LENGTH, GREATEST_OUTPUTS, GREATEST_ROWS, LEAST_LENGTH,
};
use crate::lines::{ended_line, first_line};
use crate::numbers::number_behind;
use fx_msb::GREATEST_BOUND;
use std::alloc::Global;

pub(crate) const FIRST_LINE: &[u8] = b"fixif certificate 1";

// What follows line 1.
#[tactic(auto, unfolding(crate::specs::Reading::behind_head))]
fn behind_head(bytes: &[u8]) -> Result<&[u8], CertFault>
    ensures { Gives is_memory (λ rest. lines_of rest.now) result (behind_head (lines_of bytes.now)) }
{
    let Some((text, ended, rest)) = first_line(bytes) else {
        return Err(CertFault::Version);
    };
    if text != FIRST_LINE {
        return Err(CertFault::Version);
    }
    if !ended {
        return Err(CertFault::Line(1));
    }
    Ok(rest)
}

// The number of a line of a word and a number, and what follows it.
#[tactic(auto, unfolding(crate::specs::Reading::numbered_at))]
fn numbered_at<'a>(
    bytes: &'a [u8],
    line: u32,
    word: &[u8],
    low: u128,
    high: u128,
) -> Result<(u128, &'a [u8]), CertFault>
    requires { high ≤ GREATEST_ERROR }
    ensures gives { Gives is_memory (λ p. (p.0, lines_of p.1.now)) result
        (numbered_at line word.now low high (lines_of bytes.now)) }
    ensures within { IfOk result (λ p. (low ≤ p.0) × (p.0 ≤ high)) }
{
    let (text, rest) = ended_line(bytes, line)?;
    let number = number_behind(text, line, word, low, high)?;
    Ok((number, rest))
}

// The bound of row i, of so many, and what follows it.
#[tactic(auto, unfolding(crate::specs::Reading::bound_at))]
fn bound_at(bytes: &[u8], rows: u32, i: u32) -> Result<(i64, &[u8]), CertFault>
    requires some { i < rows }
    requires few { rows ≤ GREATEST_ROWS }
    ensures gives { Gives is_memory (λ p. (p.0, lines_of p.1.now)) result (bound_at rows i (lines_of bytes.now)) }
    ensures fits { IfOk result (λ p. FitsSigned w64 p.0) }
{
    let (text, rest) = ended_line(bytes, i + 4)?;
    if text.starts_with(b"outputs ") {
        return Err(CertFault::Count(i + 4, i, rows));
    }
    let number = number_behind(text, i + 4, b"X ", 0, u128::from(GREATEST_BOUND))?;
    Ok((signed_bound(number), rest))
}

fn signed_bound(number: u128) -> i64
    requires { number ≤ GREATEST_BOUND }
    ensures { result ≡ pos number }
{
    number as i64
}

// The bounds of so many rows, and what follows them.
fn bounds_at(alloc: Global, bytes: &[u8], rows: u32) -> Result<(Vec<i64>, &[u8]), CertFault>
    requires { rows ≤ GREATEST_ROWS }
    ensures gives { Gives is_memory (λ p. (p.0.items, lines_of p.1.now)) result
        (each_at (bound_at rows) rows 0 (lines_of bytes.now)) }
    ensures count { IfOk result (λ p. length p.0.items ≡ rows) }
{
    let mut bounds = Vec::new(alloc);
    let mut rest = bytes;
    for i in 0..rows {
        let (bound, after) = bound_at(rest, rows, i)?;
        bounds.push(bound)?;
        rest = after;
    }
    Ok((bounds, rest))
}

// The count of outputs behind so many rows, and what follows it.
#[tactic(auto, unfolding(crate::specs::Reading::outputs_at))]
fn outputs_at(bytes: &[u8], rows: u32) -> Result<(u32, &[u8]), CertFault>
    requires { rows ≤ GREATEST_ROWS }
    ensures gives { Gives is_memory (λ p. (p.0, lines_of p.1.now)) result (outputs_at rows (lines_of bytes.now)) }
    ensures few { IfOk result (λ p. p.0 ≤ GREATEST_OUTPUTS) }
{
    let (text, rest) = ended_line(bytes, rows + 4)?;
    if text.starts_with(b"X ") {
        return Err(CertFault::Count(rows + 4, rows + 1, rows));
    }
    let number = number_behind(text, rows + 4, b"outputs ", 1, GREATEST_OUTPUTS as u128)?;
    Ok((number as u32, rest))
}

// The error of output o, of so many, behind so many rows, and what follows it.
#[tactic(auto, unfolding(crate::specs::Reading::error_at))]
fn error_at(bytes: &[u8], rows: u32, outputs: u32, o: u32) -> Result<(i128, &[u8]), CertFault>
    requires some { o < outputs }
    requires few { outputs ≤ GREATEST_OUTPUTS }
    requires rows { rows ≤ GREATEST_ROWS }
    ensures gives { Gives is_memory (λ p. (p.0, lines_of p.1.now)) result
        (error_at rows outputs o (lines_of bytes.now)) }
    ensures fits { IfOk result (λ p. FitsSigned w128 p.0) }
{
    let line = rows + o + 5;
    let (text, rest) = ended_line(bytes, line)?;
    if text == b"end".as_slice() {
        return Err(CertFault::Count(line, o, outputs));
    }
    let number = number_behind(text, line, b"E ", 0, GREATEST_ERROR)?;
    Ok((signed_error(number), rest))
}

fn signed_error(number: u128) -> i128
    requires { number ≤ GREATEST_ERROR }
    ensures { result ≡ pos number }
{
    number as i128
}

// The errors of so many outputs behind so many rows, and what follows them.
fn errors_at(
    alloc: Global,
    bytes: &[u8],
    rows: u32,
    outputs: u32,
) -> Result<(Vec<i128>, &[u8]), CertFault>
    requires few { outputs ≤ GREATEST_OUTPUTS }
    requires rows { rows ≤ GREATEST_ROWS }
    ensures { Gives is_memory (λ p. (p.0.items, lines_of p.1.now)) result
        (each_at (error_at rows outputs) outputs 0 (lines_of bytes.now)) }
{
    let mut errors = Vec::new(alloc);
    let mut rest = bytes;
    for o in 0..outputs {
        let (error, after) = error_at(rest, rows, outputs, o)?;
        errors.push(error)?;
        rest = after;
    }
    Ok((errors, rest))
}

// That the last line stands behind so many rows and outputs, and nothing behind it.
#[tactic(auto, unfolding(crate::specs::Reading::end_at), using(crate::proofs::LineLaws::no_lines))]
fn end_at(bytes: &[u8], rows: u32, outputs: u32) -> Result<(), CertFault>
    requires rows { rows ≤ GREATEST_ROWS }
    requires outputs { outputs ≤ GREATEST_OUTPUTS }
    ensures { Gives is_memory (λ _. tt) result (end_at rows outputs (lines_of bytes.now)) }
{
    let line = rows + outputs + 5;
    let (text, rest) = ended_line(bytes, line)?;
    if text.starts_with(b"E ") {
        return Err(CertFault::Count(line, outputs + 1, outputs));
    }
    if text != b"end".as_slice() {
        return Err(CertFault::Line(line));
    }
    if !rest.is_empty() {
        return Err(CertFault::AfterEnd);
    }
    Ok(())
}

// The length of a block, and what follows its line.
#[tactic(auto, unfolding(crate::specs::Reading::length_in))]
fn length_in(bytes: &[u8]) -> Result<(u128, &[u8]), CertFault>
    ensures gives { Gives is_memory (λ p. (p.0, lines_of p.1.now)) result (length_in (lines_of bytes.now)) }
    ensures within { IfOk result (λ p. p.0 ≤ GREATEST_LENGTH) }
{
    let rest = behind_head(bytes)?;
    let low = u128::from(LEAST_LENGTH);
    numbered_at(rest, 2, b"length ", low, u128::from(GREATEST_LENGTH))
}

// The bounds of the rows, and what follows their lines.
#[tactic(auto, unfolding(crate::specs::Reading::bounds_in))]
fn bounds_in(alloc: Global, bytes: &[u8]) -> Result<(Vec<i64>, &[u8]), CertFault>
    ensures gives { Gives is_memory (λ p. (p.0.items, lines_of p.1.now)) result (bounds_in (lines_of bytes.now)) }
    ensures count { IfOk result (λ p. length p.0.items ≤ GREATEST_ROWS) }
{
    let (rows, rest) = numbered_at(bytes, 3, b"rows ", 1, GREATEST_ROWS as u128)?;
    bounds_at(alloc, rest, rows as u32)
}

// The errors of the outputs behind so many rows, to the end of the text.
#[tactic(auto, unfolding(crate::specs::Reading::errors_in))]
fn errors_in(alloc: Global, bytes: &[u8], rows: u32) -> Result<Vec<i128>, CertFault>
    requires { rows ≤ GREATEST_ROWS }
    ensures { Gives is_memory (λ v. v.items) result (errors_in rows (lines_of bytes.now)) }
{
    let (outputs, rest) = outputs_at(bytes, rows)?;
    let (errors, rest) = errors_at(alloc, rest, rows, outputs)?;
    end_at(rest, rows, outputs)?;
    Ok(errors)
}

// The certificate of a text.
#[tactic(auto, unfolding(crate::specs::Reading::certificate_in))]
fn certificate_in(alloc: Global, bytes: &[u8]) -> Result<Cert, CertFault>
    ensures { Gives is_memory (λ c. c) result (certificate_in (lines_of bytes.now)) }
{
    let (length, rest) = length_in(bytes)?;
    let (bounds, rest) = bounds_in(alloc, rest)?;
    let errors = errors_in(alloc, rest, bounds.len() as u32)?;
    Ok(certificate_with(length as u16, bounds, errors))
}

/// The certificate whose text the bytes are.
///
/// # Errors
///
/// The first fault in the order of the lines, or want of memory.
pub fn read_cert(alloc: Global, bytes: &[u8]) -> Result<Cert, CertFault>
    // The certificate or the first fault.
    ensures read { Gives is_memory (λ c. c) result (certificate_in (lines_of bytes.now)) }
    // No fault, or the first in the order of the lines.
    ensures first { Gives is_memory (λ _. tt) result (passes (first_fault (lines_of bytes.now))) }
    // What is read has this text.
    ensures found { IfOk result (λ c. IsTextOf bytes.now c) }
    // What has this text is read, unless memory is refused.
    ensures only { (c : Certificate) → IsTextOf bytes.now c → Gives is_memory (λ d. d) result (Ok c) }
{
    certificate_in(alloc, bytes)
}

/// A law with nothing to run: a certificate is read exactly from its text.
pub fn certificate_is_read_exactly()
    ensures { CertificateLaw }
{}

/// A law with nothing to run: the fault that is read is the first in the order of the lines.
pub fn fault_is_the_first()
    ensures { FirstFaultLaw }
{}

/// A law with nothing to run: a text is that of at most one certificate.
pub fn text_has_one_certificate()
    ensures { OneCertificate }
{}
