//! One row: its terms, its right shift and its first fault.

ghost use Rattle.std.specs.Prelude.{◌≡◌, ◌<◌, ◌≤◌, ◌^◌, length, map, nat_lt, OnOk, IfOk, All};
ghost use Rattle.std.specs.List.{list_any};
ghost use Rattle.fx_math.specs.Answers.{Gives};
ghost use Rattle.fx_net.specs.Links.{coefficients, source_count};
ghost use Rattle.fx_net.specs.Tables.{net_of};
ghost use Rattle.fx_quant.specs.Inside.{grid_of, row_of};
ghost use Rattle.fx_quant.specs.Quantised.{is_memory};
ghost use Rattle.fx_quant.specs.Rows.{
  Adds,
  IsNarrow,
  IsSmall,
  StaysNear,
  code_term,
  kept,
  kept_of,
  kept_terms,
  left_of,
  quantised_row,
  read,
  shift_of,
  shifts_far,
  wide_fault,
};

use crate::design::DesignRow;
use crate::fault::QuantFault;
use crate::formats::{Formats, GREATEST_FRACTION};
use crate::scaled::{Places, Rounded, Scaled};
use fx_code::{CodeTerm, LONGEST_SHIFT, Read};
use fx_eqs::PORTS;
use fx_net::{Net, Which};
use fx_nums::Frac;
use fx_sif::FORM_ROWS;
use std::alloc::{AllocError, Global};

// The source of this number.
fn read(which: Which, j: usize) -> Read
    requires { j < 2 ^ 8 }
    ensures { result ≡ read which j }
{
    match which {
        Which::Now => Read::Now(j as u8),
        Which::Old => Read::Old(j as u8),
        Which::In => Read::In(j as u8),
    }
}

// What row i takes of a source.
fn coefficient(net: &Net<FORM_ROWS>, which: Which, i: usize, j: usize) -> Frac
    requires row { i < FORM_ROWS }
    requires source { j < source_count FORM_ROWS which }
    ensures { result ≡ coefficients (net_of net.now) which i j }
{
    match which {
        Which::Now => net.now(i, j),
        Which::Old => net.old(i, j),
        Which::In => net.input(i, j),
    }
}

// Adds a term of row i, unless its coefficient is rounded to 0.
#[tactic(auto, using(crate::proofs::Adding::adds_none, crate::proofs::Adding::adds_one))]
fn add_term(
    terms: &mut Vec<Scaled>,
    places: &Places,
    i: usize,
    from: Read,
    coefficient: Frac,
) -> Result<(), AllocError>
    requires { places.now.fraction ≤ GREATEST_FRACTION }
    ensures { OnOk result (Adds terms.old.items terms.new.items (kept (grid_of places.now) i from coefficient) 1) }
{
    let rounded = Rounded::of(places.fraction, coefficient);
    if rounded.number != 0 {
        terms.push(Scaled::of(places, i, from, rounded))?;
    }
    Ok(())
}

// Adds the terms of row i from the first sources of one kind.
#[tactic(auto, using(crate::proofs::Adding::nothing_added, crate::proofs::Adding::adds_next))]
fn add_terms(
    terms: &mut Vec<Scaled>,
    net: &Net<FORM_ROWS>,
    places: &Places,
    i: usize,
    which: Which,
    count: usize,
) -> Result<(), AllocError>
    requires fraction { places.now.fraction ≤ GREATEST_FRACTION }
    requires row { i < FORM_ROWS }
    requires sources { count ≤ source_count FORM_ROWS which }
    ensures { OnOk result (Adds terms.old.items terms.new.items
        (kept_of (grid_of places.now) (net_of net.now) i which count) count) }
{
    for j in 0..count {
        let coefficient = coefficient(net, which, i, j);
        add_term(terms, places, i, read(which, j), coefficient)?;
    }
    Ok(())
}

// The terms of row i.
#[tactic(auto, using(crate::proofs::Adding::three_parts, crate::proofs::Adding::three_few))]
pub(crate) fn kept_terms(
    alloc: Global,
    net: &Net<FORM_ROWS>,
    places: &Places,
    rows: usize,
    inputs: usize,
    i: usize,
) -> Result<Vec<Scaled>, AllocError>
    requires fraction { places.now.fraction ≤ GREATEST_FRACTION }
    requires row { i < rows }
    requires rows { rows ≤ FORM_ROWS }
    requires inputs { inputs ≤ PORTS }
    ensures value { IfOk result (λ v. v.items ≡ kept_terms (grid_of places.now) (net_of net.now) rows inputs i) }
    ensures small { IfOk result (λ v. All IsSmall v.items) }
    ensures few { IfOk result (λ v. length v.items < 2 ^ 8) }
{
    let mut terms = Vec::new(alloc);
    add_terms(&mut terms, net, places, i, Which::Now, i)?;
    add_terms(&mut terms, net, places, i, Which::Old, rows)?;
    add_terms(&mut terms, net, places, i, Which::In, inputs)?;
    Ok(terms)
}

// The right shift: the greatest of 0 and what the terms ask for.
fn shift_of(terms: &[Scaled]) -> u16
    ensures { result ≡ shift_of terms.now }
{
    let mut shift = 0;
    for term in terms {
        shift = shift.max(term.shift());
    }
    shift
}

// Whether a left shift is too long.
fn some_left_is_far(shift: u16, terms: &[Scaled]) -> bool
    ensures { result ≡ list_any (λ k. nat_lt LONGEST_SHIFT (left_of shift k)) terms.now }
{
    terms
        .iter()
        .any(|term| term.left(shift) > u32::from(LONGEST_SHIFT))
}

// Whether a shift is too long.
fn shifts_far(accumulator: u8, shift: u16, terms: &[Scaled]) -> bool
    ensures { result ≡ shifts_far accumulator shift terms.now }
{
    if shift > u16::from(LONGEST_SHIFT) || shift >= u16::from(accumulator) {
        return true;
    }
    some_left_is_far(shift, terms)
}

// The first term that is too large.
fn wide_fault(row: u8, shift: u16, terms: &[Scaled]) -> Option<QuantFault>
    requires shift { shift ≤ LONGEST_SHIFT }
    requires few { length terms.now < 2 ^ 8 }
    requires small { All IsSmall terms.now }
    requires near { All (StaysNear shift) terms.now }
    ensures { result ≡ wide_fault row shift 0 terms.now }
{
    for (place, term) in terms.iter().enumerate() {
        if term.is_wide(shift) {
            let value = term.product(shift);
            return Some(QuantFault::Wide {
                row,
                term: place as u8,
                value,
            });
        }
    }
    None
}

// The terms as those of integer code.
fn code_terms(alloc: Global, shift: u16, terms: &[Scaled]) -> Result<Vec<CodeTerm>, AllocError>
    requires near { All (StaysNear shift) terms.now }
    requires narrow { All (IsNarrow shift) terms.now }
    ensures { IfOk result (λ v. v.items ≡ map (code_term shift) terms.now) }
{
    let mut list = Vec::new(alloc);
    for term in terms {
        list.push(term.code_term(shift))?;
    }
    Ok(list)
}

// The row of these terms. Its error is the first fault, and want of memory may come at any time.
#[tactic(auto, using(crate::proofs::Faults::all_narrow, crate::proofs::Faults::fault_told))]
pub(crate) fn quantised_row(
    alloc: Global,
    formats: &Formats,
    row: u8,
    terms: &[Scaled],
) -> Result<DesignRow, QuantFault>
    requires few { length terms.now < 2 ^ 8 }
    requires small { All IsSmall terms.now }
    ensures { Gives is_memory row_of result (quantised_row formats.now row terms.now) }
{
    let shift = shift_of(terms);
    if shifts_far(formats.accumulator, shift, terms) {
        return Err(QuantFault::ShiftRange(row));
    }
    if let Some(fault) = wide_fault(row, shift, terms) {
        return Err(fault);
    }
    let terms = code_terms(alloc, shift, terms)?;
    Ok(DesignRow {
        shift: shift as u8,
        mode: formats.mode,
        terms,
    })
}
