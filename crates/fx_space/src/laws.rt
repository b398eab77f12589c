//! Laws with nothing to run.

ghost use Rattle.fx_sif.specs.Laws.{NeverRefused};
ghost use Rattle.fx_sif.specs.SameOutputs.{HasOutputs};
ghost use Rattle.fx_space.specs.Matrices.{SpaceFits};
ghost use Rattle.fx_space.specs.Space.{space_equations, space_form};

use fx_nums::Frac;
use fx_sif::{Sizes, what_fits_has_no_fault};

/// A law with nothing to run: the entries of `space` are never refused, and there are at most
/// `EQUATION_TERMS` of fx_eqs.
pub fn space_is_never_refused(sizes: Sizes, abcd: &[Frac])
    requires { SpaceFits sizes abcd.now }
    ensures { NeverRefused (space_form sizes abcd.now) }
{
    what_fits_has_no_fault();
}

/// A law with nothing to run: `space` puts out what the equations of its state space put out, at every moment
/// and whatever the inputs.
pub fn space_keeps_the_outputs(sizes: Sizes, abcd: &[Frac])
    requires { SpaceFits sizes abcd.now }
    ensures { HasOutputs (space_form sizes abcd.now) (space_equations sizes abcd.now) }
{}
