//! Whole programs.

ghost use Rattle.std.specs.Prelude.{◌≡◌, ◌≤◌, ◌<◌, ◌+◌, [], length, IfOk, OnOk};
ghost use Rattle.fx_code.specs.Code.{IsWhole};
ghost use Rattle.fx_math.specs.Answers.{Gives};
ghost use Rattle.fx_text.specs.TokenReading.{is_memory, repeated};
ghost use Rattle.fx_text.specs.Reading.{
  inputs_at,
  input_more,
  started,
  stored_row,
  with_row,
  with_output,
  row_more,
  output_more,
  keep_more,
  body_at,
  code_in,
};
ghost use Rattle.fx_text.specs.Laws.{CodeLaw, OneProgram, TermsLaw};

use crate::fault::CodeFault;
use crate::parts::{Head, end_at, head_at, input_at, output_at};
use crate::term::{Place, Store, checked_constant, constant_at, store_at, terms_at};
use crate::token::{due_at, expect_at, first_line_at};
use fx_code::{CODE_ROWS, CodeTerm, Program};
use std::alloc::Global;

// Reads one more width behind the others; the place after it.
#[tactic(auto, unfolding(crate::specs::Reading::input_more))]
fn input_more(text: &[u8], at: usize, widths: &mut Vec<u8>) -> Result<usize, CodeFault>
    requires place { at ≤ length text.now }
    requires few { length widths.old.items < CODE_ROWS }
    ensures gives { Gives is_memory (λ n. (widths.new.items, n)) result (input_more text.now (widths.old.items, at)) }
    ensures within { IfOk result (λ n. n ≤ length text.now) }
    ensures more { OnOk result (length widths.new.items ≡ length widths.old.items + 1) }
{
    let (width, at) = input_at(text, at, widths.len() as u8)?;
    widths.push(width)?;
    Ok(at)
}

// The widths of so many inputs, and the place after them.
fn inputs_at(
    alloc: Global,
    text: &[u8],
    start: usize,
    count: u8,
) -> Result<(Vec<u8>, usize), CodeFault>
    requires place { start ≤ length text.now }
    requires few { count ≤ CODE_ROWS }
    ensures gives { Gives is_memory (λ w. (w.0.items, w.1)) result (inputs_at count text.now start) }
    ensures within { IfOk result (λ w. w.1 ≤ length text.now) }
{
    let mut widths = Vec::new(alloc);
    let mut at = start;
    for _ in 0..count {
        at = input_more(text, at, &mut widths)?;
    }
    Ok((widths, at))
}

// A program without rows.
fn started(alloc: Global, accumulator: u8, widths: &[u8]) -> Result<Program, CodeFault>
    ensures { Gives is_memory (λ p. p) result (started accumulator widths.now) }
{
    let program = Program::start(alloc, accumulator, widths)?;
    Ok(program)
}

// Adds a row of these terms with this store.
fn with_row(program: &mut Program, terms: &[CodeTerm], store: &Store) -> Result<(), CodeFault>
    ensures { Gives is_memory (λ _. program.new) result (with_row program.old (stored_row terms.now store.now)) }
{
    program.add_row(store.width, store.shift, store.mode, terms)?;
    Ok(())
}

// Adds an output.
fn with_output(program: &mut Program, row: u8) -> Result<(), CodeFault>
    ensures { Gives is_memory (λ _. program.new) result (with_output program.old row) }
{
    program.add_output(row)?;
    Ok(())
}

// Reads one more row of so many in all; the place after it.
#[tactic(auto, unfolding(crate::specs::Reading::row_more))]
fn row_more(
    alloc: Global,
    text: &[u8],
    at: usize,
    rows: u8,
    program: &mut Program,
) -> Result<usize, CodeFault>
    requires { at ≤ length text.now }
    ensures gives { Gives is_memory (λ n. (program.new, n)) result (row_more rows text.now (program.old, at)) }
    ensures within { IfOk result (λ n. n ≤ length text.now) }
{
    let place = Place {
        row: program.rows() as u8,
        rows,
        inputs: program.inputs() as u8,
    };
    let (constant, at) = constant_at(text, at)?;
    let (terms, at) = terms_at(alloc, text, at, &place)?;
    let (store, at) = store_at(text, at, program.accumulator())?;
    with_row(program, &terms, &store)?;
    checked_constant(place.row, constant, &store)?;
    Ok(at)
}

// Reads all rows; the place after them.
fn rows_at(
    alloc: Global,
    text: &[u8],
    start: usize,
    rows: u8,
    program: &mut Program,
) -> Result<usize, CodeFault>
    requires { start ≤ length text.now }
    ensures gives { Gives is_memory (λ n. (program.new, n)) result
        (repeated rows (row_more rows text.now) (program.old, start)) }
    ensures within { IfOk result (λ n. n ≤ length text.now) }
{
    let mut at = start;
    for _ in 0..rows {
        at = row_more(alloc, text, at, rows, program)?;
    }
    Ok(at)
}

// Reads one more output; the place after it.
#[tactic(auto, unfolding(crate::specs::Reading::output_more))]
fn output_more(text: &[u8], at: usize, program: &mut Program) -> Result<usize, CodeFault>
    requires { at ≤ length text.now }
    ensures gives { Gives is_memory (λ n. (program.new, n)) result (output_more text.now (program.old, at)) }
    ensures within { IfOk result (λ n. n ≤ length text.now) }
{
    let j = program.outputs().len() as u8;
    let (row, at) = output_at(text, at, j, program.rows() as u8)?;
    with_output(program, row)?;
    Ok(at)
}

// Reads so many outputs; the place after them.
fn outputs_at(
    text: &[u8],
    start: usize,
    count: u8,
    program: &mut Program,
) -> Result<usize, CodeFault>
    requires { start ≤ length text.now }
    ensures gives { Gives is_memory (λ n. (program.new, n)) result
        (repeated count (output_more text.now) (program.old, start)) }
    ensures within { IfOk result (λ n. n ≤ length text.now) }
{
    let mut at = start;
    for _ in 0..count {
        at = output_more(text, at, program)?;
    }
    Ok(at)
}

// The place after `sI = rI ;`.
#[tactic(auto, unfolding(crate::specs::Reading::keep_more))]
fn keep_more(text: &[u8], at: usize, row: u8) -> Result<usize, CodeFault>
    requires { at ≤ length text.now }
    ensures gives { Gives is_memory (λ n. (row + 1, n)) result (keep_more text.now (row, at)) }
    ensures within { IfOk result (λ n. n ≤ length text.now) }
{
    let at = due_at(text, at, b's', row)?;
    let at = expect_at(text, at, b"=")?;
    let at = due_at(text, at, b'r', row)?;
    let at = expect_at(text, at, b";")?;
    Ok(at)
}

// The place after the words of so many rows that are kept.
fn keeps_at(text: &[u8], start: usize, rows: u8) -> Result<usize, CodeFault>
    requires { start ≤ length text.now }
    ensures gives { Gives is_memory (λ n. (rows, n)) result (repeated rows (keep_more text.now) (0, start)) }
    ensures within { IfOk result (λ n. n ≤ length text.now) }
{
    let mut at = start;
    for row in 0..rows {
        at = keep_more(text, at, row)?;
    }
    Ok(at)
}

// The program of what follows the head.
#[tactic(auto, unfolding(crate::specs::Reading::body_at))]
fn body_at(alloc: Global, text: &[u8], at: usize, head: &Head) -> Result<Program, CodeFault>
    requires place { at ≤ length text.now }
    requires few { head.now.inputs ≤ CODE_ROWS }
    ensures gives { Gives is_memory (λ p. p) result (body_at head.now text.now at) }
{
    let (widths, at) = inputs_at(alloc, text, at, head.inputs)?;
    let mut program = started(alloc, head.accumulator, &widths)?;
    let at = rows_at(alloc, text, at, head.rows, &mut program)?;
    let at = outputs_at(text, at, head.outputs, &mut program)?;
    let at = keeps_at(text, at, head.rows)?;
    end_at(text, at)?;
    Ok(program)
}

/// The program that a text spells; it is whole.
///
/// # Errors
///
/// The first fault in the order of the text, and `NoMemory` where memory is refused.
#[tactic(auto, unfolding(crate::specs::Reading::code_in))]
pub fn read_code(alloc: Global, bytes: &[u8]) -> Result<Program, CodeFault>
    ensures read { Gives is_memory (λ p. p) result (code_in bytes.now) }
    ensures whole { IfOk result (λ p. IsWhole p) }
{
    let at = first_line_at(bytes)?;
    let (head, at) = head_at(bytes, at)?;
    body_at(alloc, bytes, at, &head)
}

/// A law with nothing to run: the program that is read from a text is the one that the text spells.
pub fn code_is_read_exactly()
    ensures { CodeLaw }
{}

/// A law with nothing to run: a text spells at most one program.
pub fn text_spells_one_program()
    ensures { OneProgram }
{}

/// A law with nothing to run: the terms of a row are read up to its store, however many there are.
pub fn terms_are_read_to_the_store()
    ensures { TermsLaw }
{}
