//! The text of a program.

ghost use Rattle.std.specs.Prelude.{◌≡◌, ◌≤◌, ◌<◌, ◌++◌, length, slice_index, IfOk, OnOk};
ghost use Rattle.std.specs.String.{string_bytes};
ghost use Rattle.fx_code.specs.Code.{IsWhole, row_at, constant_of};
ghost use Rattle.fx_text.specs.Reading.{code_in};
ghost use Rattle.fx_text.specs.Grammar.{Spells, first_line, shift_word};
ghost use Rattle.fx_text.specs.Writing.{
  code_text,
  head_line,
  input_line,
  input_lines,
  constant_line,
  source_text,
  term_line,
  term_lines,
  store_line,
  row_lines,
  rows_lines,
  output_line,
  output_lines,
  keep_line,
  keep_lines,
};

use crate::token::FIRST_LINE;
use fx_code::{CodeTerm, Program, Read, programs_fit};
use fx_eqs::Mode;
use std::alloc::{AllocError, Global};

fn head_line(alloc: Global, program: &Program) -> Result<String, AllocError>
    ensures { IfOk result (λ s. string_bytes s ≡ head_line program.now) }
{
    let accumulator = program.accumulator();
    let inputs = program.inputs();
    let rows = program.rows();
    let outputs = program.outputs().len();
    format!(in alloc; "STEP({accumulator}, {inputs}, {rows}, {outputs})\n{{\n")
}

fn input_line(alloc: Global, j: usize, width: u8) -> Result<String, AllocError>
    ensures { IfOk result (λ s. string_bytes s ≡ input_line j width) }
{
    format!(in alloc; "  IN(u{j}, {width});\n")
}

fn constant_line(alloc: Global, number: u64) -> Result<String, AllocError>
    ensures { IfOk result (λ s. string_bytes s ≡ constant_line number) }
{
    format!(in alloc; "  a = {number};\n")
}

fn source_text(alloc: Global, from: Read) -> Result<String, AllocError>
    ensures { IfOk result (λ s. string_bytes s ≡ source_text from) }
{
    match from {
        Read::Now(i) => format!(in alloc; "r{i}"),
        Read::Old(i) => format!(in alloc; "s{i}"),
        Read::In(j) => format!(in alloc; "u{j}"),
    }
}

fn term_line(alloc: Global, term: &CodeTerm) -> Result<String, AllocError>
    ensures { IfOk result (λ s. string_bytes s ≡ term_line term.now) }
{
    let coef = term.coef;
    let source = source_text(alloc, term.from)?;
    let left = term.left;
    format!(in alloc; "  a += MUL({coef}, {source}, {left});\n")
}

// What the right shift of a row with this mode is written with.
fn shift_word(mode: Mode) -> &'static str
    ensures { result.now ≡ shift_word mode }
{
    match mode {
        Mode::Nearest => "SAR",
        Mode::Floor => "FLR",
    }
}

fn store_line(alloc: Global, program: &Program, row: usize) -> Result<String, AllocError>
    requires { row < length program.now.rows }
    ensures { IfOk result (λ s. string_bytes s ≡ store_line row (row_at program.now row)) }
{
    let mode = program.mode(row);
    let word = shift_word(mode);
    let shift = program.shift(row);
    let width = program.width(row);
    format!(in alloc; "  r{row} = LOW({word}(a, {shift}), {width});\n")
}

fn output_line(alloc: Global, j: usize, row: u8) -> Result<String, AllocError>
    ensures { IfOk result (λ s. string_bytes s ≡ output_line j row) }
{
    format!(in alloc; "  OUT({j}, r{row});\n")
}

fn keep_line(alloc: Global, row: usize) -> Result<String, AllocError>
    ensures { IfOk result (λ s. string_bytes s ≡ keep_line row) }
{
    format!(in alloc; "  s{row} = r{row};\n")
}

fn put(out: &mut Vec<u8>, line: &String) -> Result<(), AllocError>
    ensures { OnOk result (out.new.items ≡ out.old.items ++ string_bytes line.now) }
{
    out.extend_from_slice(line.as_bytes())
}

fn put_inputs(alloc: Global, out: &mut Vec<u8>, program: &Program) -> Result<(), AllocError>
    ensures { OnOk result (out.new.items ≡ out.old.items ++ input_lines 0 program.now.inputs) }
{
    for j in 0..program.inputs() {
        let line = input_line(alloc, j, program.input_width(j))?;
        put(out, &line)?;
    }
    Ok(())
}

fn put_terms(alloc: Global, out: &mut Vec<u8>, terms: &[CodeTerm]) -> Result<(), AllocError>
    ensures { OnOk result (out.new.items ≡ out.old.items ++ term_lines terms.now) }
{
    for term in terms {
        let line = term_line(alloc, term)?;
        put(out, &line)?;
    }
    Ok(())
}

// What a row's accumulator begins with, as a magnitude.
fn constant(program: &Program, row: usize) -> u64
    requires { row < length program.now.rows }
    ensures { result ≡ constant_of (row_at program.now row).own }
{
    program.constant(row) as u64
}

fn put_row(
    alloc: Global,
    out: &mut Vec<u8>,
    program: &Program,
    row: usize,
) -> Result<(), AllocError>
    requires { row < length program.now.rows }
    ensures { OnOk result (out.new.items ≡ out.old.items ++ row_lines row (row_at program.now row)) }
{
    let line = constant_line(alloc, constant(program, row))?;
    put(out, &line)?;
    put_terms(alloc, out, program.terms(row))?;
    let line = store_line(alloc, program, row)?;
    put(out, &line)?;
    Ok(())
}

fn put_rows(alloc: Global, out: &mut Vec<u8>, program: &Program) -> Result<(), AllocError>
    ensures { OnOk result (out.new.items ≡ out.old.items ++ rows_lines 0 program.now.rows) }
{
    for row in 0..program.rows() {
        put_row(alloc, out, program, row)?;
    }
    Ok(())
}

fn put_outputs(alloc: Global, out: &mut Vec<u8>, rows: &[u8]) -> Result<(), AllocError>
    ensures { OnOk result (out.new.items ≡ out.old.items ++ output_lines 0 rows.now) }
{
    for (j, row) in rows.iter().enumerate() {
        let line = output_line(alloc, j, *row)?;
        put(out, &line)?;
    }
    Ok(())
}

fn put_keeps(alloc: Global, out: &mut Vec<u8>, rows: usize) -> Result<(), AllocError>
    ensures { OnOk result (out.new.items ≡ out.old.items ++ keep_lines 0 rows) }
{
    for row in 0..rows {
        let line = keep_line(alloc, row)?;
        put(out, &line)?;
    }
    Ok(())
}

// The whole text.
fn code_text(alloc: Global, program: &Program) -> Result<Vec<u8>, AllocError>
    ensures { IfOk result (λ v. v.items ≡ code_text program.now) }
{
    let mut out = Vec::from_slice(alloc, FIRST_LINE)?;
    let line = head_line(alloc, program)?;
    put(&mut out, &line)?;
    put_inputs(alloc, &mut out, program)?;
    put_rows(alloc, &mut out, program)?;
    put_outputs(alloc, &mut out, program.outputs())?;
    put_keeps(alloc, &mut out, program.rows())?;
    out.extend_from_slice(b"}\n")?;
    Ok(out)
}

/// The text of a program: the first line, the head, and one statement a line, at most 65,536 bytes.
///
/// # Errors
///
/// Only where memory is refused.
pub fn write_code(alloc: Global, program: &Program) -> Result<Vec<u8>, AllocError>
    requires { IsWhole program.now }
    ensures text { IfOk result (λ v. v.items ≡ code_text program.now) }
    ensures short { IfOk result (λ v. length v.items ≤ 65536) }
{
    programs_fit(program);
    let text = code_text(alloc, program)?;
    Ok(text)
}

/// A law with nothing to run: the text of a whole program spells it, and is read as the same program.
pub fn written_code_is_spelled(program: &Program)
    requires { IsWhole program.now }
    ensures spelled { Spells (code_text program.now) program.now }
    ensures read_back { code_in (code_text program.now) ≡ Ok program.now }
{
    programs_fit(program);
}
