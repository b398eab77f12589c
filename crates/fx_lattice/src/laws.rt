//! Laws with nothing to run.

ghost use Rattle.std.specs.Prelude.{◌≡◌, ◌≤◌, ◌+◌, length};
ghost use Rattle.fx_eqs.specs.Textbook.{lattice_equations};
ghost use Rattle.fx_sif.specs.Laws.{NeverRefused};
ghost use Rattle.fx_sif.specs.SameOutputs.{HasOutputs};
ghost use Rattle.fx_lattice.specs.Exact.{OrdersEnclose};
ghost use Rattle.fx_lattice.specs.Structure.{ladder_form};

use fx_eqs::REFLECTIONS;
use fx_nums::Frac;
use fx_sif::what_fits_has_no_fault;

/// A law with nothing to run: whatever values meet step-down exactly, each coefficient of each order lies in
/// its interval, as far down as the intervals are in range.
#[tactic(auto, using(crate::proofs::Levels::orders_enclose))]
pub fn orders_are_enclosed()
    ensures { OrdersEnclose }
{}

/// A law with nothing to run: the entries of `ladder_sif` are never refused, and there are at most
/// `EQUATION_TERMS` of fx_eqs.
pub fn ladder_is_never_refused(k: &[Frac], v: &[Frac])
    requires order { length k.now ≤ REFLECTIONS }
    requires taps { length v.now ≡ length k.now + 1 }
    ensures { NeverRefused (ladder_form k.now v.now) }
{
    what_fits_has_no_fault();
}

/// A law with nothing to run: `ladder_sif` puts out what the equations of its lattice put out, at every
/// moment and whatever the inputs.
#[tactic(auto, using(crate::proofs::KeepsOutputs::ladder_has_outputs))]
pub fn ladder_keeps_the_outputs(k: &[Frac], v: &[Frac])
    requires order { length k.now ≤ REFLECTIONS }
    requires taps { length v.now ≡ length k.now + 1 }
    ensures { HasOutputs (ladder_form k.now v.now) (lattice_equations k.now v.now) }
{}
