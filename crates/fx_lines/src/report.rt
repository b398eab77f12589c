// The lines of a report.

ghost use Rattle.std.specs.Prelude.{◌≡◌, ◌++◌, ◌<◌, ◌-◌, ◌^◌, ◌-ℤ◌, pos, length, unsigned_abs, All, IfOk, OnOk};
ghost use Rattle.fx_math.specs.Words.{WidthFits};
ghost use Rattle.fx_msb.specs.Widths.{IsBound};
ghost use Rattle.fx_nums.specs.Fraction.{OverTen};
ghost use Rattle.fx_block.specs.Passes.{bound_at};
ghost use Rattle.fx_error.specs.PartsOf.{PartsFit, whole_of};
ghost use Rattle.fx_lines.specs.Report.{
  first_parts,
  last_parts,
  parts_line,
  parts_lines,
  parts_text,
  report_lines,
  row_line,
  row_lines,
};
ghost use Rattle.fx_lines.specs.Laws.{ReportLines};

use crate::decimals::put_up;
use crate::pieces::{put_field, put_word};
use fx_cert::Cert;
use fx_code::Program;
use fx_decimal::print_frac;
use fx_eqs::PORTS;
use fx_error::Parts;
use fx_files::{Filter, OutputFormat};
use std::alloc::{AllocError, Global};

// The bound of a row.
fn bound_at(certificate: &Cert, row: usize) -> i64
    ensures value { result ≡ pos (bound_at certificate.now row) }
    ensures fits { IsBound result }
{
    match certificate.x().get(row) {
        Some(bound) => *bound,
        None => 0,
    }
}

// How far the greatest word of so many bits lies above a bound.
fn spare(width: u8, bound: i64) -> i64
    requires width { WidthFits width }
    requires bound { IsBound bound }
    ensures { result ≡ pos (2 ^ (width - 1) - 1) -ℤ bound }
{
    (1i64 << (width - 1)) - 1 - bound
}

// A row of the program.
#[tactic(auto, using(crate::proofs::Joined::regrouped))]
fn put_row(
    text: &mut Vec<u8>,
    program: &Program,
    certificate: &Cert,
    row: usize,
) -> Result<(), AllocError>
    requires { row < length program.now.rows }
    ensures { OnOk result (text.new.items ≡ text.old.items ++ row_line program.now certificate.now row) }
{
    let (width, bound) = (program.width(row), bound_at(certificate, row));
    put_field(text, "row ", row)?;
    put_field(text, " width ", width)?;
    put_field(text, " bound ", bound)?;
    put_field(text, " shift ", program.shift(row))?;
    put_field(text, " spare ", spare(width, bound))?;
    put_word(text, "\n")
}

// The rows of the program.
fn put_rows(text: &mut Vec<u8>, program: &Program, certificate: &Cert) -> Result<(), AllocError>
    ensures { OnOk result (text.new.items ≡ text.old.items ++ row_lines program.now certificate.now) }
{
    for row in 0..program.rows() {
        put_row(text, program, certificate, row)?;
    }
    Ok(())
}

// What the parts add up to.
fn whole_of(parts: &Parts) -> i128
    requires { PartsFit parts.now }
    ensures value { result ≡ whole_of parts.now }
    ensures fits { unsigned_abs result < 2 ^ 126 }
{
    parts.rounding + parts.difference + parts.rest
}

// What the roundings add, and how far the exact values may be apart.
#[tactic(auto, using(crate::proofs::Joined::regrouped))]
fn put_first(text: &mut Vec<u8>, parts: &Parts) -> Result<(), AllocError>
    requires { PartsFit parts.now }
    ensures { OnOk result (text.new.items ≡ text.old.items ++ first_parts parts.now) }
{
    put_up(text, " rounding ", parts.rounding)?;
    put_up(text, " difference ", parts.difference)
}

// What comes from before the block, and the sum.
#[tactic(auto, using(crate::proofs::Joined::regrouped))]
fn put_last(text: &mut Vec<u8>, parts: &Parts) -> Result<(), AllocError>
    requires { PartsFit parts.now }
    ensures { OnOk result (text.new.items ≡ text.old.items ++ last_parts parts.now) }
{
    put_up(text, " rest ", parts.rest)?;
    put_up(text, " total ", whole_of(parts))
}

// The parts of an error, and their sum.
fn put_parts(text: &mut Vec<u8>, parts: &Parts) -> Result<(), AllocError>
    requires { PartsFit parts.now }
    ensures { OnOk result (text.new.items ≡ text.old.items ++ parts_text parts.now) }
{
    put_first(text, parts)?;
    put_last(text, parts)
}

// The parts of the error of an output, and the error that is wanted.
#[tactic(auto, using(crate::proofs::Joined::regrouped))]
fn put_output(
    text: &mut Vec<u8>,
    output: usize,
    format: &OutputFormat,
    parts: &Parts,
) -> Result<(), AllocError>
    requires error { OverTen format.now.error }
    requires parts { PartsFit parts.now }
    ensures { OnOk result (text.new.items ≡ text.old.items ++ parts_line output format.now parts.now) }
{
    put_field(text, "output ", output)?;
    put_parts(text, parts)?;
    put_word(text, " target ")?;
    text.extend_from_slice(print_frac(format.error).bytes())?;
    put_word(text, "\n")
}

// The parts of the errors of all outputs.
fn put_outputs(
    text: &mut Vec<u8>,
    filter: &Filter,
    parts: &[Parts; PORTS],
) -> Result<(), AllocError>
    requires { All PartsFit parts.now }
    ensures { OnOk result (text.new.items ≡ text.old.items ++ parts_lines parts.now 0 filter.now.outputs) }
{
    for (output, format) in filter.outputs().iter().enumerate() {
        put_output(text, output, format, &parts[output])?;
    }
    Ok(())
}

/// The lines of a report before those of its verdict: of each row of a program its bits, its bound, its right shift and
/// how far its greatest word lies above the bound; and of each output the parts of its error and their sum, in output
/// steps with nine places, rounded up in the last, and the error that is wanted. No part is negative, and they and
/// their sum are below 2^126.
pub fn report_lines(
    alloc: Global,
    filter: &Filter,
    program: &Program,
    certificate: &Cert,
    parts: &[Parts; PORTS],
) -> Result<Vec<u8>, AllocError>
    requires { All PartsFit parts.now }
    ensures { IfOk result (λ t. t.items ≡ report_lines filter.now program.now certificate.now parts.now) }
{
    let mut text = Vec::new(alloc);
    put_rows(&mut text, program, certificate)?;
    put_outputs(&mut text, filter, parts)?;
    Ok(text)
}

/// A law with nothing to run: a report has a line for each row of the program and each output, with no control byte
/// before a line feed.
pub fn reports_are_lines()
    ensures { ReportLines }
{}
