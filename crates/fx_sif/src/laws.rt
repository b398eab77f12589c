ghost use Rattle.fx_sif.specs.Laws.{JIsUnitLower, NetsHaveBlocks, WhatFitsHasNoFault};
ghost use Rattle.fx_sif.specs.Runs.{DenominatorsDivide, RunsAreSums};

use crate::implicit::{Sif, forms_fit};

/// A law with nothing to run: counts and entries are never refused where they make a form within the limits.
#[tactic(auto, using(crate::proofs::NoFault::what_fits))]
pub fn what_fits_has_no_fault()
    ensures { WhatFitsHasNoFault }
{}

/// A law with nothing to run: J has 1 on its diagonal and 0 above it, given or not.
#[tactic(auto, using(crate::proofs::InBlocks::unit_lower))]
pub fn j_is_unit_lower(form: &Sif)
    ensures { JIsUnitLower form.now }
{
    forms_fit(form);
}

/// A law with nothing to run: a net with the rows of a form has the coefficients of its blocks.
#[tactic(auto, using(crate::proofs::InBlocks::have_blocks))]
pub fn nets_have_the_blocks(form: &Sif)
    ensures { NetsHaveBlocks form.now }
{
    forms_fit(form);
}

/// A law with nothing to run: in each run of a form alone without perturbation, each row is the sum of its terms.
#[tactic(auto, using(crate::proofs::Summing::runs_are_sums))]
pub fn runs_are_sums(form: &Sif)
    ensures { RunsAreSums form.now }
{
    forms_fit(form);
}

/// A law with nothing to run: a denominator of a form's net alone is one of each coefficient that a row reads with.
#[tactic(auto, using(crate::proofs::Summing::denominators_divide))]
pub fn denominators_divide(form: &Sif)
    ensures { DenominatorsDivide form.now }
{
    forms_fit(form);
}
