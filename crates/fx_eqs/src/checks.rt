ghost use Rattle.std.specs.Prelude.{◌≡◌, ◌+◌, ◌*◌, ◌-◌, ◌<◌, ◌≤◌, ◌^◌, [], length, IfOk, None, filter};
ghost use Rattle.std.specs.List.{list_any};
ghost use Rattle.fx_math.specs.Sums.{sum_below};
ghost use Rattle.fx_eqs.specs.Lags.{greatest_lag, net_rows};
ghost use Rattle.fx_eqs.specs.Equations.{is_kept};
ghost use Rattle.fx_eqs.specs.Faults.{eqs_fault, is_forward, is_same_read, range_fault, term_fault, terms_fault};
ghost use Rattle.fx_eqs.specs.declared.term.Source.TheVariants.{Row, In};

use crate::fault::EqsFault;
use crate::limits::{EQUATION_TERMS, LONGEST_LAG, NET_ROWS, PORTS};
use crate::term::{Source, Term};
use std::alloc::{AllocError, Global};

// Whether a term's coefficient is not 0.
fn is_kept(term: &Term) -> bool
    ensures { result ≡ is_kept term.now }
{
    !term.coef.is_zero()
}

// The fault of a term's row and source.
fn range_fault(rows: usize, inputs: usize, place: u32, term: &Term) -> Option<EqsFault>
    ensures { result ≡ range_fault rows inputs place term.now None }
{
    if usize::from(term.row) >= rows {
        return Some(EqsFault::RowRange(place));
    }
    match term.from {
        Source::Row(i) if usize::from(i) >= rows => Some(EqsFault::RowRange(place)),
        Source::In(j) if usize::from(j) >= inputs => Some(EqsFault::InputRange(place)),
        _ => None,
    }
}

// Whether a term has this row, source and lag.
fn is_same_read(earlier: &Term, term: &Term) -> bool
    ensures { result ≡ is_same_read term.now earlier.now }
{
    earlier.row == term.row && earlier.from == term.from && earlier.lag == term.lag
}

// Whether a kept term has the row, source and lag of this one.
fn reads_twice(earlier: &[Term], term: &Term) -> bool
    ensures { result ≡ list_any (is_same_read term.now) (filter is_kept earlier.now) }
{
    for other in earlier {
        if is_kept(other) && is_same_read(other, term) {
            return true;
        }
    }
    false
}

// Whether a term reads a row of the same moment that is not an earlier one.
fn is_forward(term: &Term) -> bool
    ensures { result ≡ is_forward term.now }
{
    match term.from {
        Source::Row(j) => term.lag == 0 && j >= term.row,
        Source::In(_) => false,
    }
}

// The fault of one term behind the earlier ones.
fn term_fault(rows: usize, inputs: usize, earlier: &[Term], term: &Term) -> Option<EqsFault>
    requires { length earlier.now < 2 ^ 32 }
    ensures { result ≡ term_fault rows inputs earlier.now term.now }
{
    if !is_kept(term) {
        return None;
    }
    let place = earlier.len() as u32;
    if let Some(fault) = range_fault(rows, inputs, place, term) {
        return Some(fault);
    }
    if term.lag > LONGEST_LAG {
        return Some(EqsFault::LagRange(place));
    }
    if is_forward(term) {
        return Some(EqsFault::ForwardNow(place));
    }
    if reads_twice(earlier, term) {
        return Some(EqsFault::Twice(place));
    }
    None
}

// The first fault of the terms, term by term.
fn terms_fault(rows: usize, inputs: usize, terms: &[Term]) -> Option<EqsFault>
    requires { length terms.now < 2 ^ 32 }
    ensures { result ≡ terms_fault rows inputs [] terms.now }
{
    for (i, term) in terms.iter().enumerate() {
        if let Some(fault) = term_fault(rows, inputs, &terms[..i], term) {
            return Some(fault);
        }
    }
    None
}

// How many terms have a coefficient other than 0.
fn kept_count(terms: &[Term]) -> usize
    ensures value { result ≡ length (filter is_kept terms.now) }
    ensures high { result ≤ length terms.now }
{
    let mut count = 0;
    for term in terms {
        if is_kept(term) {
            count += 1;
        }
    }
    count
}

/// The greatest lag at which a kept term reads a source; 0 where none does.
pub fn greatest_lag(source: Source, terms: &[Term]) -> usize
    ensures value { result ≡ greatest_lag source (filter is_kept terms.now) }
    ensures high { result ≤ 255 }
{
    let mut greatest = 0;
    for term in terms {
        if is_kept(term) && term.from == source {
            greatest = greatest.max(usize::from(term.lag));
        }
    }
    greatest
}

// The rows that hold the inputs.
fn input_holds(inputs: usize, terms: &[Term]) -> usize
    requires { inputs ≤ PORTS }
    ensures value { result ≡ sum_below inputs (λ j. greatest_lag (In j) (filter is_kept terms.now)) }
    ensures high { result ≤ 255 * inputs }
{
    let mut count = 0;
    for j in 0..inputs {
        count += greatest_lag(Source::In(j as u8), terms);
    }
    count
}

// The rows that hold the rows.
fn row_holds(rows: usize, terms: &[Term]) -> usize
    requires { rows ≤ 256 }
    ensures value { result ≡ sum_below rows (λ j. greatest_lag (Row j) (filter is_kept terms.now) - 1) }
    ensures high { result ≤ 255 * rows }
{
    let mut count = 0;
    for j in 0..rows {
        count += greatest_lag(Source::Row(j as u8), terms).saturating_sub(1);
    }
    count
}

/// How many rows the expanded net has.
pub fn net_rows(rows: usize, inputs: usize, terms: &[Term]) -> usize
    requires rows { rows ≤ 256 }
    requires inputs { inputs ≤ PORTS }
    ensures { result ≡ net_rows rows inputs (filter is_kept terms.now) }
{
    input_holds(inputs, terms) + rows + row_holds(rows, terms)
}

/// The first fault of an equation system.
pub fn eqs_fault(rows: usize, inputs: usize, terms: &[Term]) -> Option<EqsFault>
    requires rows { rows ≤ 256 }
    requires inputs { inputs ≤ PORTS }
    requires terms { length terms.now < 2 ^ 32 }
    ensures { result ≡ eqs_fault rows inputs terms.now }
{
    if let Some(fault) = terms_fault(rows, inputs, terms) {
        return Some(fault);
    }
    let count = kept_count(terms);
    if count > EQUATION_TERMS {
        return Some(EqsFault::TooManyTerms(count));
    }
    let net = net_rows(rows, inputs, terms);
    if rows == 0 || net > NET_ROWS {
        return Some(EqsFault::TooManyRows(net));
    }
    None
}

/// The terms with a coefficient other than 0, in their order.
pub fn kept_terms(alloc: Global, terms: &[Term]) -> Result<Vec<Term>, AllocError>
    ensures { IfOk result (λ v. v.items ≡ filter is_kept terms.now) }
{
    let mut kept = Vec::new(alloc);
    for term in terms {
        if is_kept(term) {
            kept.push(*term)?;
        }
    }
    Ok(kept)
}
