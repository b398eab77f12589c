//! `check`, and `report` with what the errors are made of.
ghost use Rattle.std.specs.Prelude.{◌≡◌, ◌∷◌, [], IfOk, IsTrue, Ok};
ghost use Rattle.fx_cert.specs.Lines.{lines_of};
ghost use Rattle.fx_cert.specs.Reading.{certificate_in};
ghost use Rattle.fx_code.specs.Code.{IsWhole};
ghost use Rattle.fx_files.specs.Reading.{filter_of_bytes};
ghost use Rattle.fx_text.specs.Reading.{code_in};
ghost use Rattle.fx_tool.specs.Answer.{WhereDone};
ghost use Rattle.fx_tool.specs.Check.{
  certified,
  check_plan,
  code_plan,
  filter_plan,
  CertificateIsSound,
  CodeIsSound,
  FilesAreSound,
  FilterIsSound,
};
ghost use Rattle.fx_tool.specs.Plan.{Follows};
ghost use Rattle.fx_tool.specs.Reading.{Has};
ghost use Rattle.fx_words.specs.declared.operand.Operand.TheVariants as operand;

use crate::ending::Ending;
use crate::judgement::{Detail, told};
use crate::operand::{read_operand, too_long};
use crate::refused::{refused_certificate, refused_code, refused_filter};
use fx_cert::{Cert, read_cert};
use fx_code::Program;
use fx_files::{Filter, read_filter};
use fx_io::{IoFault, Shelf};
use fx_text::read_code;
use fx_words::Operand;
use std::alloc::{AllocError, Global};

// How the bytes of a certificate end, for a filter and a program.
fn certified(
    alloc: Global,
    detail: Detail,
    filter: &Filter,
    program: &Program,
    bytes: &[u8],
) -> Result<Ending, AllocError>
    requires { IsWhole program.now }
    ensures answer { IfOk result (λ e.
        certified detail filter.now program.now (certificate_in (lines_of bytes.now)) ≡ e) }
    ensures sound { WhereDone result (CertificateIsSound filter.now program.now bytes.now) }
{
    match read_cert(alloc, bytes) {
        Ok(cert) => told(alloc, detail, filter, program, &cert),
        Err(fault) => refused_certificate(alloc, &fault),
    }
}

// Reads a certificate, for a filter and a program.
fn with_program<S: Shelf>(
    alloc: Global,
    detail: Detail,
    filter: &Filter,
    program: &Program,
    cert: &str,
    shelf: &mut S,
) -> Result<Ending, IoFault>
    requires whole { IsWhole program.now }
    requires cert { IsTrue ((S.seen shelf.old).readable cert.now) }
    ensures follows { Follows (operand.Certificate ∷ []) (cert.now ∷ [])
        (code_plan detail filter.now (Ok program.now)) (S.seen shelf.old) (S.seen shelf.new) result }
    ensures sound { WhereDone result
        (Has (S.seen shelf.old).files cert.now (CertificateIsSound filter.now program.now)) }
{
    match read_operand(alloc, Operand::Certificate, cert, shelf)? {
        Some(bytes) => Ok(certified(alloc, detail, filter, program, &bytes)?),
        None => too_long(alloc, Operand::Certificate),
    }
}

// Goes on with the bytes of a program, for a filter.
fn with_code<S: Shelf>(
    alloc: Global,
    detail: Detail,
    filter: &Filter,
    bytes: &[u8],
    cert: &str,
    shelf: &mut S,
) -> Result<Ending, IoFault>
    requires { IsTrue ((S.seen shelf.old).readable cert.now) }
    ensures follows { Follows (operand.Certificate ∷ []) (cert.now ∷ [])
        (code_plan detail filter.now (code_in bytes.now)) (S.seen shelf.old) (S.seen shelf.new) result }
    ensures sound { WhereDone result (CodeIsSound (S.seen shelf.old).files cert.now filter.now bytes.now) }
{
    match read_code(alloc, bytes) {
        Ok(program) => with_program(alloc, detail, filter, &program, cert, shelf),
        Err(fault) => Ok(refused_code(alloc, &fault)?),
    }
}

// Reads a program, for a filter.
fn with_filter<S: Shelf>(
    alloc: Global,
    detail: Detail,
    filter: &Filter,
    code: &str,
    cert: &str,
    shelf: &mut S,
) -> Result<Ending, IoFault>
    requires code { IsTrue ((S.seen shelf.old).readable code.now) }
    requires cert { IsTrue ((S.seen shelf.old).readable cert.now) }
    ensures follows { Follows (operand.Code ∷ operand.Certificate ∷ []) (code.now ∷ cert.now ∷ [])
        (filter_plan detail (Ok filter.now)) (S.seen shelf.old) (S.seen shelf.new) result }
    ensures sound { WhereDone result (Has (S.seen shelf.old).files code.now
        (CodeIsSound (S.seen shelf.old).files cert.now filter.now)) }
{
    match read_operand(alloc, Operand::Code, code, shelf)? {
        Some(bytes) => with_code(alloc, detail, filter, &bytes, cert, shelf),
        None => too_long(alloc, Operand::Code),
    }
}

// Goes on with the bytes of a filter.
fn with_file<S: Shelf>(
    alloc: Global,
    detail: Detail,
    bytes: &[u8],
    code: &str,
    cert: &str,
    shelf: &mut S,
) -> Result<Ending, IoFault>
    requires code { IsTrue ((S.seen shelf.old).readable code.now) }
    requires cert { IsTrue ((S.seen shelf.old).readable cert.now) }
    ensures follows { Follows (operand.Code ∷ operand.Certificate ∷ []) (code.now ∷ cert.now ∷ [])
        (filter_plan detail (filter_of_bytes bytes.now)) (S.seen shelf.old) (S.seen shelf.new) result }
    ensures sound { WhereDone result (FilterIsSound (S.seen shelf.old).files code.now cert.now bytes.now) }
{
    match read_filter(alloc, bytes) {
        Ok(filter) => with_filter(alloc, detail, &filter, code, cert, shelf),
        Err(fault) => Ok(refused_filter(alloc, &fault)?),
    }
}

/// Reads a filter, a program and a certificate, each whole and at once parsed before the next is opened, and judges
/// them, with so much detail. Where that ends with `Done`, the program is sound for the filter, with the certificate's
/// errors.
///
/// # Errors
///
/// `Failed` just where the shelf's count of read faults rose.
pub fn check<S: Shelf>(
    alloc: Global,
    detail: Detail,
    filter: &str,
    code: &str,
    cert: &str,
    shelf: &mut S,
) -> Result<Ending, IoFault>
    requires filter { IsTrue ((S.seen shelf.old).readable filter.now) }
    requires code { IsTrue ((S.seen shelf.old).readable code.now) }
    requires cert { IsTrue ((S.seen shelf.old).readable cert.now) }
    ensures follows { Follows (operand.Filter ∷ operand.Code ∷ operand.Certificate ∷ [])
        (filter.now ∷ code.now ∷ cert.now ∷ []) (check_plan detail) (S.seen shelf.old) (S.seen shelf.new) result }
    ensures sound { WhereDone result (FilesAreSound (S.seen shelf.old).files filter.now code.now cert.now) }
{
    match read_operand(alloc, Operand::Filter, filter, shelf)? {
        Some(bytes) => with_file(alloc, detail, &bytes, code, cert, shelf),
        None => too_long(alloc, Operand::Filter),
    }
}
