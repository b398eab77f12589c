//! The equation systems of the four forms.

ghost use Rattle.std.specs.Prelude.{◌≡◌, ◌≤◌, ◌<◌, ◌+◌, ◌*◌, ◌/◌, ◌^◌, length, All, IfOk, None};
ghost use Rattle.fx_eqs.specs.Equations.{kept};
ghost use Rattle.fx_eqs.specs.Faults.{eqs_fault};
ghost use Rattle.fx_eqs.specs.Textbook.{lattice_equations, sos_equations, ss_equations, tf_equations, up_from};
ghost use Rattle.fx_textbook.specs.Shapes.{SpaceFits};

use crate::terms::{Space, cascade_terms, ladder_terms, space_terms, transfer_terms};
use fx_eqs::{
    COEFFICIENTS, Eqs, EqsFault, PORTS, REFLECTIONS, SECTIONS, STATES, Term,
    cascades_have_no_fault, lattices_have_no_fault, state_spaces_have_no_fault,
    transfer_functions_have_no_fault,
};
use fx_nums::Frac;
use std::alloc::{AllocError, Global};

// The system of terms that have no fault.
fn system(
    alloc: Global,
    rows: usize,
    inputs: usize,
    terms: &[Term],
    outputs: &[u8],
) -> Result<Eqs, AllocError>
    requires rows_low { 1 ≤ rows }
    requires rows { rows ≤ 256 }
    requires terms { length terms.now < 2 ^ 32 }
    requires inputs_low { 1 ≤ inputs }
    requires inputs_high { inputs ≤ PORTS }
    requires outputs_low { 1 ≤ length outputs.now }
    requires outputs_high { length outputs.now ≤ PORTS }
    requires outputs_below { All (λ o. o < rows) outputs.now }
    requires no_fault { eqs_fault rows inputs terms.now ≡ None }
    ensures { IfOk result (λ s. s ≡ record {
      rows = rows;
      inputs = inputs;
      terms = kept terms.now;
      outputs =
          outputs.now;
    }) }
{
    match Eqs::build(alloc, rows, inputs, terms, outputs) {
        Ok(eqs) => Ok(eqs),
        Err(EqsFault::NoMemory) => Err(AllocError),
        Err(_) => unreachable!(),
    }
}

/// The equations of a transfer function: numerator and denominator of at most `COEFFICIENTS` coefficients each, the
/// denominator's first being 1. Its error is want of memory.
pub fn transfer_system(alloc: Global, b: &[Frac], a: &[Frac]) -> Result<Eqs, AllocError>
    requires numerator { length b.now ≤ COEFFICIENTS }
    requires denominator { length a.now ≤ COEFFICIENTS }
    ensures { IfOk result (λ s. s ≡ tf_equations b.now a.now) }
{
    let terms = transfer_terms(alloc, b, a)?;
    transfer_functions_have_no_fault(b, a);
    system(alloc, 1, 1, &terms, &[0])
}

/// The equations of one to `SECTIONS` second-order sections of six coefficients each, the fourth being 1. Its error is
/// want of memory.
pub fn cascade_system(alloc: Global, sections: &[Frac]) -> Result<Eqs, AllocError>
    requires low { 6 ≤ length sections.now }
    requires high { length sections.now ≤ 6 * SECTIONS }
    requires whole { length sections.now ≡ 6 * (length sections.now / 6) }
    ensures { IfOk result (λ s. s ≡ sos_equations sections.now) }
{
    let count = sections.len() / 6;
    let terms = cascade_terms(alloc, count, sections)?;
    cascades_have_no_fault(count, sections);
    system(alloc, count, 1, &terms, &[(count - 1) as u8])
}

// The numbers from this one on, so many.
#[tactic(auto, using(crate::proofs::TermSteps::up_one))]
fn up_from(alloc: Global, first: usize, count: usize) -> Result<Vec<u8>, AllocError>
    requires { first + count ≤ STATES + PORTS }
    ensures { IfOk result (λ v. v.items ≡ up_from first count) }
{
    let mut numbers = Vec::new(alloc);
    for i in 0..count {
        numbers.push((first + i) as u8)?;
    }
    Ok(numbers)
}

/// The equations of a state space. Its error is want of memory.
pub fn space_system(alloc: Global, space: &Space) -> Result<Eqs, AllocError>
    requires { SpaceFits space.now }
    ensures { IfOk result (λ s.
        s ≡ ss_equations space.now.n space.now.m space.now.p space.now.a.now space.now.b.now space.now.c.now
        space.now.d.now) }
{
    let terms = space_terms(alloc, space)?;
    state_spaces_have_no_fault(
        space.n, space.m, space.p, space.a, space.b, space.c, space.d,
    );
    let outputs = up_from(alloc, space.n, space.p)?;
    system(alloc, space.n + space.p, space.m, &terms, &outputs)
}

/// The equations of a lattice of up to `REFLECTIONS` reflection coefficients and one tap more. Its error is want of
/// memory.
pub fn ladder_system(alloc: Global, k: &[Frac], v: &[Frac]) -> Result<Eqs, AllocError>
    requires order { length k.now ≤ REFLECTIONS }
    requires taps { length v.now ≡ length k.now + 1 }
    ensures { IfOk result (λ s. s ≡ lattice_equations k.now v.now) }
{
    let terms = ladder_terms(alloc, k, v)?;
    lattices_have_no_fault(k, v);
    let last = 2 * k.len();
    system(alloc, last + 1, 1, &terms, &[last as u8])
}
