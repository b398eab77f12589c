// The lines that show a filter.

ghost use Rattle.std.specs.Prelude.{◌≡◌, ◌++◌, codes, All, IfOk, OnOk};
ghost use Rattle.std.specs.List.{flat_map};
ghost use Rattle.fx_nums.specs.Fraction.{OverTen};
ghost use Rattle.fx_lines.specs.Filter.{
  filter_lines,
  head_lines,
  input_line,
  input_lines,
  output_line,
  output_lines,
  rounding_line,
  row_line,
  rows_before,
  source_text,
  sum_text,
  term_text,
  terms_of,
};

use crate::pieces::{put_field, put_word};
use fx_decimal::print_frac;
use fx_eqs::{Eqs, Mode, Source, Term};
use fx_files::{Filter, InputFormat, OutputFormat};
use std::alloc::{AllocError, Global};

// A filter whose rows round to the nearest has no such line.
fn put_rounding(text: &mut Vec<u8>, mode: Mode) -> Result<(), AllocError>
    ensures { OnOk result (text.new.items ≡ text.old.items ++ rounding_line mode) }
{
    match mode {
        Mode::Nearest => Ok(()),
        Mode::Floor => put_word(text, "rounding floor\n"),
    }
}

fn head_lines(alloc: Global, filter: &Filter) -> Result<Vec<u8>, AllocError>
    ensures { IfOk result (λ t. t.items ≡ head_lines filter.now) }
{
    let mut text = Vec::from_slice(alloc, b"form ")?;
    put_word(&mut text, filter.form().word())?;
    put_word(&mut text, "\nstructure ")?;
    put_word(&mut text, filter.structure().word())?;
    put_word(&mut text, "\n")?;
    put_rounding(&mut text, filter.mode())?;
    put_field(&mut text, "accumulator ", filter.accumulator())?;
    put_field(&mut text, "\nword ", filter.word())?;
    put_word(&mut text, "\n")?;
    Ok(text)
}

#[tactic(auto, using(crate::proofs::Joined::regrouped))]
fn put_input(text: &mut Vec<u8>, low: i8, j: usize, input: &InputFormat) -> Result<(), AllocError>
    ensures { OnOk result (text.new.items ≡ text.old.items ++ input_line low j input.now) }
{
    put_field(text, "input ", j)?;
    put_field(text, " width ", input.width)?;
    put_field(text, " low ", low)?;
    put_field(text, " bound ", input.bound)?;
    put_word(text, "\n")
}

fn put_inputs(text: &mut Vec<u8>, filter: &Filter) -> Result<(), AllocError>
    ensures { OnOk result (text.new.items ≡ text.old.items ++ input_lines filter.now.input_low 0 filter.now.inputs) }
{
    for (j, input) in filter.inputs().iter().enumerate() {
        put_input(text, filter.input_low(), j, input)?;
    }
    Ok(())
}

#[tactic(auto, using(crate::proofs::Joined::regrouped))]
fn put_output(text: &mut Vec<u8>, j: usize, output: &OutputFormat) -> Result<(), AllocError>
    requires { OverTen output.now.error }
    ensures { OnOk result (text.new.items ≡ text.old.items ++ output_line j output.now) }
{
    put_field(text, "output ", j)?;
    put_field(text, " row ", output.row)?;
    put_field(text, " width ", output.width)?;
    put_field(text, " low ", output.low)?;
    put_word(text, " error ")?;
    text.extend_from_slice(print_frac(output.error).bytes())?;
    put_word(text, "\n")
}

fn put_outputs(text: &mut Vec<u8>, filter: &Filter) -> Result<(), AllocError>
    ensures { OnOk result (text.new.items ≡ text.old.items ++ output_lines 0 filter.now.outputs) }
{
    for (j, output) in filter.outputs().iter().enumerate() {
        put_output(text, j, output)?;
    }
    Ok(())
}

fn put_source(text: &mut Vec<u8>, from: Source) -> Result<(), AllocError>
    ensures { OnOk result (text.new.items ≡ text.old.items ++ source_text from) }
{
    match from {
        Source::In(j) => put_field(text, "u", j),
        Source::Row(i) => put_field(text, "v", i),
    }
}

#[tactic(auto, using(crate::proofs::Joined::regrouped))]
fn put_term(text: &mut Vec<u8>, term: &Term) -> Result<(), AllocError>
    requires { OverTen term.now.coef }
    ensures { OnOk result (text.new.items ≡ text.old.items ++ term_text term.now) }
{
    text.extend_from_slice(print_frac(term.coef).bytes())?;
    put_word(text, " ")?;
    put_source(text, term.from)?;
    put_field(text, " ", term.lag)
}

// Terms, each behind a semicolon.
fn put_more(text: &mut Vec<u8>, terms: &[Term]) -> Result<(), AllocError>
    requires { All (λ t. OverTen t.coef) terms.now }
    ensures { OnOk result (text.new.items ≡ text.old.items ++ flat_map (λ t. codes "; " ++ term_text t) terms.now) }
{
    for term in terms {
        put_word(text, "; ")?;
        put_term(text, term)?;
    }
    Ok(())
}

fn put_sum(text: &mut Vec<u8>, terms: &[Term]) -> Result<(), AllocError>
    requires { All (λ t. OverTen t.coef) terms.now }
    ensures { OnOk result (text.new.items ≡ text.old.items ++ sum_text terms.now) }
{
    match terms {
        [] => put_word(text, "0"),
        [first, more @ ..] => {
            put_term(text, first)?;
            put_more(text, more)
        }
    }
}

// The terms of a row, in the order in which they stand.
fn terms_of(alloc: Global, row: usize, terms: &[Term]) -> Result<Vec<Term>, AllocError>
    ensures { IfOk result (λ v. v.items ≡ terms_of row terms.now) }
{
    let mut kept = Vec::new(alloc);
    for term in terms {
        if usize::from(term.row) == row {
            kept.push(*term)?;
        }
    }
    Ok(kept)
}

#[tactic(auto, using(crate::proofs::Joined::regrouped, crate::proofs::Rows::terms_over_ten))]
fn put_row(alloc: Global, text: &mut Vec<u8>, row: usize, terms: &[Term]) -> Result<(), AllocError>
    requires { All (λ t. OverTen t.coef) terms.now }
    ensures { OnOk result (text.new.items ≡ text.old.items ++ row_line terms.now row) }
{
    let own = terms_of(alloc, row, terms)?;
    put_field(text, "row ", row)?;
    put_word(text, ": ")?;
    put_sum(text, &own)?;
    put_word(text, "\n")
}

fn put_rows(alloc: Global, text: &mut Vec<u8>, equations: &Eqs) -> Result<(), AllocError>
    requires { All (λ t. OverTen t.coef) equations.now.terms }
    ensures { OnOk result (text.new.items ≡ text.old.items ++ rows_before equations.now.terms equations.now.rows) }
{
    for row in 0..equations.rows() {
        put_row(alloc, text, row, equations.terms())?;
    }
    Ok(())
}

/// The lines that show a filter: its form and structure, its rounding where that is not to the nearest, the bits of
/// accumulators and inner words, its inputs and outputs, and the rows of its equations. Each line ends with a line
/// feed.
pub fn shown_filter(alloc: Global, filter: &Filter) -> Result<Vec<u8>, AllocError>
    ensures { IfOk result (λ t. t.items ≡ filter_lines filter.now) }
{
    let mut text = head_lines(alloc, filter)?;
    put_inputs(&mut text, filter)?;
    put_outputs(&mut text, filter)?;
    put_rows(alloc, &mut text, filter.eqs())?;
    Ok(text)
}
