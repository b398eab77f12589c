//! `make`.
ghost use Rattle.std.specs.Prelude.{◌≡◌, ◌∷◌, [], IfOk, IsTrue, Ok};
ghost use Rattle.fx_code.specs.Code.{IsWhole};
ghost use Rattle.fx_files.specs.Reading.{filter_of_bytes};
ghost use Rattle.fx_tool.specs.Answer.{WhereDone};
ghost use Rattle.fx_tool.specs.Make.{files_of, made_answer, make_plan, made_of_bytes};
ghost use Rattle.fx_tool.specs.Make.{AreShort, FilterIsServed, IsServed};
ghost use Rattle.fx_tool.specs.Plan.{Follows};
ghost use Rattle.fx_tool.specs.Reading.{Has};
ghost use Rattle.fx_words.specs.declared.operand.Operand.TheVariants as operand;

use crate::ending::{Ending, MadeFiles};
use crate::operand::{read_operand, too_long};
use crate::refused::refused_filter;
use crate::status::Status;
use fx_block::inequalities_make_sound;
use fx_cert::{certificate_is_read_exactly, certificates_fit, write_cert};
use fx_code::programs_fit;
use fx_files::{Filter, read_filter};
use fx_findings::{design_lines, no_design_lines, structure_fault_line};
use fx_io::{IoFault, Shelf};
use fx_make::{Made, MakeFault, make};
use fx_text::{write_code, written_code_is_spelled};
use fx_words::Operand;
use std::alloc::{AllocError, Global};

// The files of what is made, and its lines.
fn files_of(alloc: Global, made: &Made) -> Result<Ending, AllocError>
    requires { IsWhole made.now.program }
    ensures answer { IfOk result (λ e. e ≡ files_of made.now) }
    ensures short { IfOk result (λ _. AreShort made.now.program made.now.cert) }
{
    let files = MadeFiles {
        code: write_code(alloc, &made.program)?,
        certificate: write_cert(alloc, &made.cert)?,
    };
    let lines = design_lines(alloc, made.guard, made.fraction, made.length, &made.cert)?;
    Ok(Ending::placing(files, lines))
}

// How a filter ends: a program and a certificate are made for it, or it is told why none are.
fn made_for(alloc: Global, filter: &Filter) -> Result<Ending, AllocError>
    ensures answer { IfOk result (λ e. made_answer filter.now ≡ e) }
    ensures served { WhereDone result (IsServed filter.now) }
{
    match make(alloc, filter) {
        Ok(made) => {
            written_code_is_spelled(&made.program);
            certificate_is_read_exactly();
            certificates_fit(&made.cert);
            programs_fit(&made.program);
            inequalities_make_sound(filter, &made.program, &made.cert);
            files_of(alloc, &made)
        }
        Err(MakeFault::Unbuildable(why)) => {
            Ok(Ending::new(Status::Unbuildable, structure_fault_line(alloc, &why)?))
        }
        Err(MakeFault::NoDesign(fails)) => {
            Ok(Ending::new(Status::NoDesign, no_design_lines(alloc, fails.list())?))
        }
        Err(MakeFault::NoMemory) => Err(AllocError),
    }
}

// How a filter's bytes end.
fn made_of_bytes(alloc: Global, bytes: &[u8]) -> Result<Ending, AllocError>
    ensures answer { IfOk result (λ e. made_of_bytes (filter_of_bytes bytes.now) ≡ e) }
    ensures served { WhereDone result (FilterIsServed bytes.now) }
{
    match read_filter(alloc, bytes) {
        Ok(filter) => made_for(alloc, &filter),
        Err(fault) => refused_filter(alloc, &fault),
    }
}

/// Reads a filter, and makes a program and a certificate for it, which are still to be placed.
///
/// # Errors
///
/// `Failed` just where the shelf's count of read faults rose.
pub fn make_files<S: Shelf>(alloc: Global, filter: &str, shelf: &mut S) -> Result<Ending, IoFault>
    requires { IsTrue ((S.seen shelf.old).readable filter.now) }
    ensures follows { Follows (operand.Filter ∷ []) (filter.now ∷ []) make_plan
        (S.seen shelf.old) (S.seen shelf.new) result }
    ensures served { WhereDone result (Has (S.seen shelf.old).files filter.now FilterIsServed) }
{
    match read_operand(alloc, Operand::Filter, filter, shelf)? {
        Some(bytes) => Ok(made_of_bytes(alloc, &bytes)?),
        None => too_long(alloc, Operand::Filter),
    }
}
