//! The lattice structure as a filter in implicit form.

ghost use Rattle.std.specs.Prelude.{◌≡◌, ◌≤◌, ◌<◌, ◌+◌, ◌++◌, length, IfOk, OnOk};
ghost use Rattle.fx_math.specs.Sums.{joined};
ghost use Rattle.fx_eqs.specs.Textbook.{lattice_equations};
ghost use Rattle.fx_sif.specs.SameOutputs.{HasOutputs};
ghost use Rattle.fx_lattice.specs.Structure.{backward_row, forward_row, ladder_form, output_row, state_row};

use crate::laws::{ladder_is_never_refused, ladder_keeps_the_outputs};
use fx_eqs::REFLECTIONS;
use fx_nums::Frac;
use fx_sif::{Block, Entry, Sif, Sizes, add_across, add_entry, coefficient};
use std::alloc::{AllocError, Global};

// Row `r` of those that go forward, from the input down to the first reflection.
fn forward_row(entries: &mut Vec<Entry>, k: &[Frac], r: usize) -> Result<(), AllocError>
    requires row { r < length k.now }
    requires few { length k.now ≤ REFLECTIONS }
    ensures { OnOk result (entries.new.items ≡ entries.old.items ++ forward_row k.now r) }
{
    if r == 0 {
        add_entry(entries, Block::N, 0, 0, Frac::one())?;
    } else {
        add_entry(entries, Block::J, r, r - 1, Frac::one().neg())?;
    }
    let i = k.len() - 1 - r;
    add_entry(entries, Block::M, r, i, coefficient(k, i).neg())
}

// The rows that go forward.
fn forward_rows(entries: &mut Vec<Entry>, k: &[Frac]) -> Result<(), AllocError>
    requires { length k.now ≤ REFLECTIONS }
    ensures { OnOk result (entries.new.items ≡ entries.old.items ++ joined (length k.now) (forward_row k.now)) }
{
    for r in 0..k.len() {
        forward_row(entries, k, r)?;
    }
    Ok(())
}

// What comes back from reflection `i`, counted from 0.
fn backward_row(entries: &mut Vec<Entry>, k: &[Frac], i: usize) -> Result<(), AllocError>
    requires row { i < length k.now }
    requires few { length k.now ≤ REFLECTIONS }
    ensures { OnOk result (entries.new.items ≡ entries.old.items ++ backward_row k.now i) }
{
    let (row, before) = (k.len() + i, k.len() - 1 - i);
    add_entry(entries, Block::J, row, before, coefficient(k, i).neg())?;
    add_entry(entries, Block::M, row, i, Frac::one())
}

// The rows that come back.
#[tactic(auto, using(crate::proofs::Rows::one_more))]
fn backward_rows(entries: &mut Vec<Entry>, k: &[Frac]) -> Result<(), AllocError>
    requires { length k.now ≤ REFLECTIONS }
    ensures { OnOk result (entries.new.items ≡ entries.old.items ++ joined (length k.now) (backward_row k.now)) }
{
    for i in 0..k.len() {
        backward_row(entries, k, i)?;
    }
    Ok(())
}

// The states: each keeps what came back to its reflection.
#[tactic(auto, using(crate::proofs::Rows::one_more))]
fn state_rows(entries: &mut Vec<Entry>, order: usize) -> Result<(), AllocError>
    requires { order ≤ REFLECTIONS }
    ensures { OnOk result (entries.new.items ≡ entries.old.items ++ joined order (state_row order)) }
{
    for i in 0..order {
        add_entry(entries, Block::K, i, order - 1 + i, Frac::one())?;
    }
    Ok(())
}

// The output: the taps over what came back, or over the input where there is no reflection.
fn output_row(entries: &mut Vec<Entry>, order: usize, v: &[Frac]) -> Result<(), AllocError>
    requires few { order ≤ REFLECTIONS }
    requires taps { length v.now ≡ order + 1 }
    ensures { OnOk result (entries.new.items ≡ entries.old.items ++ output_row order v.now) }
{
    if order == 0 {
        return add_across(entries, Block::S, 0, 0, v);
    }
    add_across(entries, Block::L, 0, order - 1, v)
}

/// The lattice structure of up to `REFLECTIONS` reflection coefficients `k`, from the first on, and one tap
/// `v` more. Its intermediate variables are what goes forward from the input to the first reflection and what
/// comes back, and its states are what came back at the moment before. Its error is want of memory.
pub fn ladder_sif(alloc: Global, k: &[Frac], v: &[Frac]) -> Result<Sif, AllocError>
    requires order { length k.now ≤ REFLECTIONS }
    requires taps { length v.now ≡ length k.now + 1 }
    ensures value { IfOk result (λ s. s ≡ ladder_form k.now v.now) }
    ensures same { IfOk result (λ s. HasOutputs s (lattice_equations k.now v.now)) }
{
    let mut entries = Vec::new(alloc);
    forward_rows(&mut entries, k)?;
    backward_rows(&mut entries, k)?;
    state_rows(&mut entries, k.len())?;
    output_row(&mut entries, k.len(), v)?;
    ladder_is_never_refused(k, v);
    ladder_keeps_the_outputs(k, v);
    Sif::build_unrefused(alloc, Sizes::single(2 * k.len(), k.len()), &entries)
}
