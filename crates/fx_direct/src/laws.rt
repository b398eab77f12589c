//! Laws with nothing to run.

ghost use Rattle.std.specs.Prelude.{◌≤◌, [], ◌∷◌, length};
ghost use Rattle.fx_nums.specs.Fraction.{one_fraction};
ghost use Rattle.fx_eqs.specs.Textbook.{tf_equations};
ghost use Rattle.fx_sif.specs.SameOutputs.{HasOutputs};
ghost use Rattle.fx_direct.specs.Forms.{df1_form, df2_form, df2t_form, fir_form};
ghost use Rattle.fx_sif.specs.Laws.{NeverRefused};

use fx_eqs::COEFFICIENTS;
use fx_nums::Frac;
use fx_sif::what_fits_has_no_fault;

/// A law with nothing to run: the entries of `fir` are never refused, and there are at most `EQUATION_TERMS` of fx_eqs.
pub fn fir_is_never_refused(b: &[Frac])
    requires low { 1 ≤ length b.now }
    requires high { length b.now ≤ COEFFICIENTS }
    ensures { NeverRefused (fir_form b.now) }
{
    what_fits_has_no_fault();
}

/// A law with nothing to run: the entries of `df1` are never refused, and there are at most `EQUATION_TERMS` of fx_eqs.
pub fn df1_is_never_refused(b: &[Frac], a: &[Frac])
    requires numerator_low { 1 ≤ length b.now }
    requires numerator_high { length b.now ≤ COEFFICIENTS }
    requires denominator_low { 1 ≤ length a.now }
    requires denominator_high { length a.now ≤ COEFFICIENTS }
    ensures { NeverRefused (df1_form b.now a.now) }
{
    what_fits_has_no_fault();
}

/// A law with nothing to run: the entries of `df2` are never refused, and there are at most `EQUATION_TERMS` of fx_eqs.
pub fn df2_is_never_refused(b: &[Frac], a: &[Frac])
    requires numerator_low { 1 ≤ length b.now }
    requires numerator_high { length b.now ≤ COEFFICIENTS }
    requires denominator_low { 1 ≤ length a.now }
    requires denominator_high { length a.now ≤ COEFFICIENTS }
    ensures { NeverRefused (df2_form b.now a.now) }
{
    what_fits_has_no_fault();
}

/// A law with nothing to run: the entries of `df2t` are never refused, and there are at most
/// `EQUATION_TERMS` of fx_eqs.
pub fn df2t_is_never_refused(b: &[Frac], a: &[Frac])
    requires numerator_low { 1 ≤ length b.now }
    requires numerator_high { length b.now ≤ COEFFICIENTS }
    requires denominator_low { 1 ≤ length a.now }
    requires denominator_high { length a.now ≤ COEFFICIENTS }
    ensures { NeverRefused (df2t_form b.now a.now) }
{
    what_fits_has_no_fault();
}

/// A law with nothing to run: `fir` puts out what the equations of its transfer function put out, at every moment and
/// whatever the inputs.
#[tactic(auto, using(crate::proofs::WithoutFeedback::fir_has_outputs))]
pub fn fir_keeps_the_outputs(b: &[Frac])
    requires low { 1 ≤ length b.now }
    requires high { length b.now ≤ COEFFICIENTS }
    ensures { HasOutputs (fir_form b.now) (tf_equations b.now (one_fraction ∷ [])) }
{}

/// A law with nothing to run: `df1` puts out what the equations of its transfer function put out, at every moment and
/// whatever the inputs.
#[tactic(auto, using(crate::proofs::FirstForm::df1_has_outputs))]
pub fn df1_keeps_the_outputs(b: &[Frac], a: &[Frac])
    requires numerator_low { 1 ≤ length b.now }
    requires numerator_high { length b.now ≤ COEFFICIENTS }
    requires denominator_high { length a.now ≤ COEFFICIENTS }
    ensures { HasOutputs (df1_form b.now a.now) (tf_equations b.now a.now) }
{}

/// A law with nothing to run: `df2` puts out what the equations of its transfer function put out, at every moment and
/// whatever the inputs.
#[tactic(auto, using(crate::proofs::SecondForm::df2_has_outputs))]
pub fn df2_keeps_the_outputs(b: &[Frac], a: &[Frac])
    requires numerator_low { 1 ≤ length b.now }
    requires numerator_high { length b.now ≤ COEFFICIENTS }
    requires denominator_high { length a.now ≤ COEFFICIENTS }
    ensures { HasOutputs (df2_form b.now a.now) (tf_equations b.now a.now) }
{}

/// A law with nothing to run: `df2t` puts out what the equations of its transfer function put out, at every moment and
/// whatever the inputs.
#[tactic(auto, using(crate::proofs::Transposed::df2t_has_outputs))]
pub fn df2t_keeps_the_outputs(b: &[Frac], a: &[Frac])
    requires numerator_low { 1 ≤ length b.now }
    requires numerator_high { length b.now ≤ COEFFICIENTS }
    requires denominator_high { length a.now ≤ COEFFICIENTS }
    ensures { HasOutputs (df2t_form b.now a.now) (tf_equations b.now a.now) }
{}
