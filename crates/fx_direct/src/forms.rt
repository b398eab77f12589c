//! The four direct forms.

ghost use Rattle.std.specs.Prelude.{◌≡◌, ◌≤◌, ◌<◌, ◌+◌, [], ◌∷◌, length, IfOk};
ghost use Rattle.fx_nums.specs.Fraction.{one_fraction};
ghost use Rattle.fx_eqs.specs.Textbook.{tf_equations};
ghost use Rattle.fx_sif.specs.SameOutputs.{HasOutputs};
ghost use Rattle.fx_direct.specs.Forms.{df1_form, df2_form, df2t_form, fir_form};

use crate::entries::{first_state, greater, numerator, transposed_states};
use crate::laws::{
    df1_is_never_refused, df1_keeps_the_outputs, df2_is_never_refused, df2_keeps_the_outputs,
    df2t_is_never_refused, df2t_keeps_the_outputs, fir_is_never_refused, fir_keeps_the_outputs,
};
use fx_eqs::COEFFICIENTS;
use fx_nums::Frac;
use fx_sif::{Block, Sif, Sizes, add_against, add_delays, add_entry, coefficient};
use std::alloc::{AllocError, Global};

/// The direct form of a filter without feedback: numerator `b` of 1 to `COEFFICIENTS` coefficients.
/// It has a state for each earlier input that it reads, and no intermediate variable. Its error is
/// want of memory.
pub fn fir(alloc: Global, b: &[Frac]) -> Result<Sif, AllocError>
    requires low { 1 ≤ length b.now }
    requires high { length b.now ≤ COEFFICIENTS }
    ensures value { IfOk result (λ s. s ≡ fir_form b.now) }
    ensures same { IfOk result (λ s. HasOutputs s (tf_equations b.now (one_fraction ∷ []))) }
{
    let order = b.len() - 1;
    let mut entries = Vec::new(alloc);
    add_delays(&mut entries, Block::Q, 0, 0, order)?;
    numerator(&mut entries, Block::S, Block::R, b)?;
    fir_is_never_refused(b);
    fir_keeps_the_outputs(b);
    Sif::build_unrefused(alloc, Sizes::single(0, order), &entries)
}

/// The first direct form: numerator `b` and denominator `a` of 1 to `COEFFICIENTS` coefficients
/// each. The denominator's first stands for 1 and is not read. Its states are the earlier inputs,
/// then the earlier outputs. Its error is want of memory.
pub fn df1(alloc: Global, b: &[Frac], a: &[Frac]) -> Result<Sif, AllocError>
    requires numerator_low { 1 ≤ length b.now }
    requires numerator_high { length b.now ≤ COEFFICIENTS }
    requires denominator_low { 1 ≤ length a.now }
    requires denominator_high { length a.now ≤ COEFFICIENTS }
    ensures value { IfOk result (λ s. s ≡ df1_form b.now a.now) }
    ensures same { IfOk result (λ s. HasOutputs s (tf_equations b.now a.now)) }
{
    let (inputs, outputs) = (b.len() - 1, a.len() - 1);
    let mut entries = Vec::new(alloc);
    numerator(&mut entries, Block::N, Block::M, b)?;
    add_against(&mut entries, Block::M, 0, inputs, &a[1..])?;
    add_delays(&mut entries, Block::Q, 0, 0, inputs)?;
    add_delays(&mut entries, Block::K, 0, inputs, outputs)?;
    add_entry(&mut entries, Block::L, 0, 0, Frac::one())?;
    df1_is_never_refused(b, a);
    df1_keeps_the_outputs(b, a);
    Sif::build_unrefused(alloc, Sizes::single(1, inputs + outputs), &entries)
}

/// The second direct form: numerator `b` and denominator `a` of 1 to `COEFFICIENTS` coefficients
/// each. The denominator's first stands for 1 and is not read. Its states are the earlier values of
/// its one intermediate variable. Its error is want of memory.
pub fn df2(alloc: Global, b: &[Frac], a: &[Frac]) -> Result<Sif, AllocError>
    requires numerator_low { 1 ≤ length b.now }
    requires numerator_high { length b.now ≤ COEFFICIENTS }
    requires denominator_low { 1 ≤ length a.now }
    requires denominator_high { length a.now ≤ COEFFICIENTS }
    ensures value { IfOk result (λ s. s ≡ df2_form b.now a.now) }
    ensures same { IfOk result (λ s. HasOutputs s (tf_equations b.now a.now)) }
{
    let order = greater(b.len() - 1, a.len() - 1);
    let mut entries = Vec::new(alloc);
    add_entry(&mut entries, Block::N, 0, 0, Frac::one())?;
    add_against(&mut entries, Block::M, 0, 0, &a[1..])?;
    add_delays(&mut entries, Block::K, 0, 0, order)?;
    numerator(&mut entries, Block::L, Block::R, b)?;
    df2_is_never_refused(b, a);
    df2_keeps_the_outputs(b, a);
    Sif::build_unrefused(alloc, Sizes::single(1, order), &entries)
}

/// The second direct form transposed: numerator `b` and denominator `a` of 1 to `COEFFICIENTS`
/// coefficients each. The denominator's first stands for 1 and is not read. Its states are sums
/// that are still to be put out. Its error is want of memory.
pub fn df2t(alloc: Global, b: &[Frac], a: &[Frac]) -> Result<Sif, AllocError>
    requires numerator_low { 1 ≤ length b.now }
    requires numerator_high { length b.now ≤ COEFFICIENTS }
    requires denominator_low { 1 ≤ length a.now }
    requires denominator_high { length a.now ≤ COEFFICIENTS }
    ensures value { IfOk result (λ s. s ≡ df2t_form b.now a.now) }
    ensures same { IfOk result (λ s. HasOutputs s (tf_equations b.now a.now)) }
{
    let order = greater(b.len() - 1, a.len() - 1);
    let mut entries = Vec::new(alloc);
    add_entry(&mut entries, Block::N, 0, 0, coefficient(b, 0))?;
    first_state(&mut entries, order)?;
    transposed_states(&mut entries, b, a, order)?;
    add_entry(&mut entries, Block::L, 0, 0, Frac::one())?;
    df2t_is_never_refused(b, a);
    df2t_keeps_the_outputs(b, a);
    Sif::build_unrefused(alloc, Sizes::single(1, order), &entries)
}
