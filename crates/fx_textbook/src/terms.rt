//! The terms of each form, in the order written.

ghost use Rattle.std.specs.Prelude.{◌≡◌, ◌≤◌, ◌<◌, ◌+◌, ◌*◌, ◌^◌, ◌++◌, [], ◌∷◌, length, map, OnOk, IfOk};
ghost use Rattle.fx_nums.specs.Fraction.{minus};
ghost use Rattle.fx_eqs.specs.Textbook.{
  backward,
  backward_rows,
  forward,
  forward_rows,
  lattice_terms,
  matrix_rows,
  over_lags,
  over_sources,
  recursion,
  sections,
  ss_terms,
  tf_terms,
};
ghost use Rattle.fx_eqs.specs.declared.term.Source.TheVariants.{Row, In};
ghost use Rattle.fx_textbook.specs.Shapes.{SpaceFits};

use fx_eqs::{COEFFICIENTS, PORTS, REFLECTIONS, SECTIONS, STATES, Source, Term};
use fx_nums::Frac;
use std::alloc::{AllocError, Global};

// One more term.
fn add(terms: &mut Vec<Term>, row: u8, coef: Frac, from: Source, lag: u8) -> Result<(), AllocError>
    ensures { OnOk result (terms.new.items ≡ terms.old.items ++ record {
      row = row;
      coef = coef;
      from =
          from;
      lag = lag;
    } ∷ []) }
{
    terms.push(Term {
        row,
        coef,
        from,
        lag,
    })?;
    Ok(())
}

// Coefficients times one source, at this lag and the next ones.
fn over_lags(
    terms: &mut Vec<Term>,
    row: u8,
    from: Source,
    first: u8,
    coefficients: &[Frac],
) -> Result<(), AllocError>
    requires { first + length coefficients.now ≤ COEFFICIENTS + 1 }
    ensures { OnOk result (terms.new.items ≡ terms.old.items ++ over_lags row from first coefficients.now) }
{
    let mut lag = first;
    for coef in coefficients {
        add(terms, row, *coef, from, lag)?;
        lag += 1;
    }
    Ok(())
}

// The same with the other sign.
fn against_lags(
    terms: &mut Vec<Term>,
    row: u8,
    from: Source,
    first: u8,
    coefficients: &[Frac],
) -> Result<(), AllocError>
    requires { first + length coefficients.now ≤ COEFFICIENTS + 1 }
    ensures { OnOk result (terms.new.items ≡ terms.old.items ++ over_lags row from first (map minus coefficients.now)) }
{
    let mut lag = first;
    for coef in coefficients {
        add(terms, row, coef.neg(), from, lag)?;
        lag += 1;
    }
    Ok(())
}

// A row by numerator and denominator over a source.
fn recursion(
    terms: &mut Vec<Term>,
    row: u8,
    from: Source,
    b: &[Frac],
    a: &[Frac],
) -> Result<(), AllocError>
    requires numerator { length b.now ≤ COEFFICIENTS }
    requires denominator { length a.now ≤ COEFFICIENTS }
    ensures { OnOk result (terms.new.items ≡ terms.old.items ++ recursion row from b.now a.now) }
{
    over_lags(terms, row, from, 0, b)?;
    match a {
        [_, rest @ ..] => against_lags(terms, row, Source::Row(row), 1, rest),
        [] => Ok(()),
    }
}

/// The terms of a transfer function.
#[tactic(auto, using(crate::proofs::TermCounts::transfer_count))]
pub fn transfer_terms(alloc: Global, b: &[Frac], a: &[Frac]) -> Result<Vec<Term>, AllocError>
    requires numerator { length b.now ≤ COEFFICIENTS }
    requires denominator { length a.now ≤ COEFFICIENTS }
    ensures value { IfOk result (λ v. v.items ≡ tf_terms b.now a.now) }
    ensures few { IfOk result (λ v. length v.items < 2 ^ 32) }
{
    let mut terms = Vec::new(alloc);
    recursion(&mut terms, 0, Source::In(0), b, a)?;
    Ok(terms)
}

// So many sections from this row on, the first of which reads this source.
fn sections(
    terms: &mut Vec<Term>,
    count: usize,
    row: u8,
    from: Source,
    coefficients: &[Frac],
) -> Result<(), AllocError>
    requires rows { row + count ≤ SECTIONS }
    requires whole { length coefficients.now ≡ 6 * count }
    ensures { OnOk result (terms.new.items ≡ terms.old.items ++ sections count row from coefficients.now) }
{
    if count == 0 {
        return Ok(());
    }
    let (b, rest) = coefficients.split_at(3);
    let (a, rest) = rest.split_at(3);
    recursion(terms, row, from, b, a)?;
    sections(terms, count - 1, row + 1, Source::Row(row), rest)
}

/// The terms of so many second-order sections.
#[tactic(auto, using(crate::proofs::TermCounts::sections_count))]
pub fn cascade_terms(
    alloc: Global,
    count: usize,
    coefficients: &[Frac],
) -> Result<Vec<Term>, AllocError>
    requires few { count ≤ SECTIONS }
    requires whole { length coefficients.now ≡ 6 * count }
    ensures value { IfOk result (λ v. v.items ≡ sections count 0 (In 0) coefficients.now) }
    ensures few { IfOk result (λ v. length v.items < 2 ^ 32) }
{
    let mut terms = Vec::new(alloc);
    sections(&mut terms, count, 0, Source::In(0), coefficients)?;
    Ok(terms)
}

// A row over the states of the moment before.
fn over_states(terms: &mut Vec<Term>, row: u8, coefficients: &[Frac]) -> Result<(), AllocError>
    requires { length coefficients.now ≤ STATES }
    ensures { OnOk result (terms.new.items ≡ terms.old.items ++ over_sources row (λ j. Row j) 1 0 coefficients.now) }
{
    let mut state = 0u8;
    for coef in coefficients {
        add(terms, row, *coef, Source::Row(state), 1)?;
        state += 1;
    }
    Ok(())
}

// A row over the inputs.
fn over_inputs(terms: &mut Vec<Term>, row: u8, coefficients: &[Frac]) -> Result<(), AllocError>
    requires { length coefficients.now ≤ PORTS }
    ensures { OnOk result (terms.new.items ≡ terms.old.items ++ over_sources row (λ j. In j) 0 0 coefficients.now) }
{
    let mut input = 0u8;
    for coef in coefficients {
        add(terms, row, *coef, Source::In(input), 0)?;
        input += 1;
    }
    Ok(())
}

// So many rows of two matrices from this row on: one over n states, one over m inputs.
fn matrix_rows(
    terms: &mut Vec<Term>,
    count: usize,
    row: u8,
    n: usize,
    m: usize,
    x: &[Frac],
    u: &[Frac],
) -> Result<(), AllocError>
    requires rows { row + count ≤ STATES + PORTS }
    requires states { n ≤ STATES }
    requires inputs { m ≤ PORTS }
    requires over_states { length x.now ≡ count * n }
    requires over_inputs { length u.now ≡ count * m }
    ensures { OnOk result (terms.new.items ≡ terms.old.items ++ matrix_rows count row n m x.now u.now) }
{
    if count == 0 {
        return Ok(());
    }
    let (x_row, x_rest) = x.split_at(n);
    let (u_row, u_rest) = u.split_at(m);
    over_states(terms, row, x_row)?;
    over_inputs(terms, row, u_row)?;
    matrix_rows(terms, count - 1, row + 1, n, m, x_rest, u_rest)
}

/// A state space of n states, m inputs and p outputs: matrices of n by n, n by m, p by n and p by m, row after row.
#[derive(Clone, Copy)]
pub struct Space<'a> {
    pub n: usize,
    pub m: usize,
    pub p: usize,
    pub a: &'a [Frac],
    pub b: &'a [Frac],
    pub c: &'a [Frac],
    pub d: &'a [Frac],
}

/// The terms of a state space.
#[tactic(auto, using(crate::proofs::TermCounts::space_count))]
pub fn space_terms(alloc: Global, space: &Space) -> Result<Vec<Term>, AllocError>
    requires { SpaceFits space.now }
    ensures value { IfOk result (λ v.
        v.items ≡ ss_terms space.now.n space.now.m space.now.p space.now.a.now space.now.b.now space.now.c.now
        space.now.d.now) }
    ensures few { IfOk result (λ v. length v.items < 2 ^ 32) }
{
    let mut terms = Vec::new(alloc);
    let (n, m, p) = (space.n, space.m, space.p);
    matrix_rows(&mut terms, n, 0, n, m, space.a, space.b)?;
    matrix_rows(&mut terms, p, n as u8, n, m, space.c, space.d)?;
    Ok(terms)
}

// What stands before reflection i: the input, or a row.
fn forward(order: usize, i: usize) -> Source
    requires { (i ≤ order) × (order ≤ REFLECTIONS) }
    ensures { result ≡ forward order i }
{
    if i == order {
        Source::In(0)
    } else {
        Source::Row((order - 1 - i) as u8)
    }
}

// What comes back from reflection i: a row, or the input where there is no reflection.
fn backward(order: usize, i: usize) -> Source
    requires { (i ≤ order) × (order ≤ REFLECTIONS) }
    ensures { result ≡ backward order i }
{
    if order == 0 {
        Source::In(0)
    } else {
        Source::Row((order - 1 + i) as u8)
    }
}

// The rows that go forward, the last of these reflections first.
fn forward_rows(
    terms: &mut Vec<Term>,
    order: usize,
    i: usize,
    reflections: &[Frac],
) -> Result<(), AllocError>
    requires { (i + length reflections.now ≤ order) × (order ≤ REFLECTIONS) }
    ensures { OnOk result (terms.new.items ≡ terms.old.items ++ forward_rows order i reflections.now) }
{
    match reflections {
        [] => Ok(()),
        [first, rest @ ..] => {
            forward_rows(terms, order, i + 1, rest)?;
            let row = (order - 1 - i) as u8;
            add(terms, row, Frac::one(), forward(order, i + 1), 0)?;
            add(terms, row, first.neg(), backward(order, i), 1)
        }
    }
}

// The rows that come back, the first of these reflections first.
fn backward_rows(
    terms: &mut Vec<Term>,
    order: usize,
    i: usize,
    reflections: &[Frac],
) -> Result<(), AllocError>
    requires { (i + length reflections.now ≤ order) × (order ≤ REFLECTIONS) }
    ensures { OnOk result (terms.new.items ≡ terms.old.items ++ backward_rows order i reflections.now) }
{
    match reflections {
        [] => Ok(()),
        [first, rest @ ..] => {
            let row = (order + i) as u8;
            add(terms, row, *first, forward(order, i), 0)?;
            add(terms, row, Frac::one(), backward(order, i), 1)?;
            backward_rows(terms, order, i + 1, rest)
        }
    }
}

// The row of the taps, from this one on.
fn over_taps(
    terms: &mut Vec<Term>,
    order: usize,
    first: usize,
    taps: &[Frac],
) -> Result<(), AllocError>
    requires { (first + length taps.now ≤ order + 1) × (order ≤ REFLECTIONS) }
    ensures { OnOk result (terms.new.items
        ≡ terms.old.items ++ over_sources (2 * order) (backward order) 0 first taps.now) }
{
    let mut i = first;
    for tap in taps {
        add(terms, (2 * order) as u8, *tap, backward(order, i), 0)?;
        i += 1;
    }
    Ok(())
}

/// The terms of a lattice with these reflection coefficients and taps.
#[tactic(auto, using(crate::proofs::TermCounts::ladder_count))]
pub fn ladder_terms(alloc: Global, k: &[Frac], v: &[Frac]) -> Result<Vec<Term>, AllocError>
    requires order { length k.now ≤ REFLECTIONS }
    requires taps { length v.now ≡ length k.now + 1 }
    ensures value { IfOk result (λ t. t.items ≡ lattice_terms k.now v.now) }
    ensures few { IfOk result (λ t. length t.items < 2 ^ 32) }
{
    let mut terms = Vec::new(alloc);
    forward_rows(&mut terms, k.len(), 0, k)?;
    backward_rows(&mut terms, k.len(), 0, k)?;
    over_taps(&mut terms, k.len(), 0, v)?;
    Ok(terms)
}
