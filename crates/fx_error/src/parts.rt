ghost use Rattle.std.specs.Prelude.{◌≡◌, ℕ, ◌^◌, ◌<◌, length, List, ◌+ℤ◌};
ghost use Rattle.fx_net.specs.Net.{Net as AnyNet};
ghost use Rattle.fx_sweep.specs.Target.{start_of};
ghost use Rattle.fx_sweep.specs.declared.target.Target.{Target as AnyTarget};
ghost use Rattle.fx_totals.specs.Filled.{Filled, length_in, target_in};
ghost use Rattle.fx_totals.specs.Kept.{AreBounds, IsUpTo, bound_in, kept_total};
ghost use Rattle.fx_error.specs.PartsOf.{ArePartsOf, PartsFit};

use fx_eqs::PORTS;
use fx_totals::Totals;

/// The parts of the total of a target, times 2^64. They add up to the total.
#[derive(Clone, Copy, Debug, PartialEq, Eq)]
pub struct Parts {
    /// What the roundings of the rows may add.
    pub rounding: i128,
    /// What the inputs may add, and what was cut off the weights. For a pair it is how far the exact values of its two
    /// rows may be apart.
    pub difference: i128,
    /// What may come from before the block.
    pub rest: i128,
}

// What the inputs add, and what was cut off the weights.
fn sum_of(inputs: i128, widths: i128) -> i128
    requires inputs { IsUpTo (2 ^ 121) inputs }
    requires widths { IsUpTo (2 ^ 113) widths }
    ensures { result ≡ inputs +ℤ widths }
{
    inputs + widths
}

/// The parts of the total of the target at place `target` of those that are filled, for bounds of the inputs' words and
/// of the N rows, each 0 to 2147483647.
pub fn split<const N: usize>(
    t: &Totals<N>,
    target: usize,
    bounds: &[i64; PORTS],
    x: &[i64],
) -> Parts
    requires target { target < t.now.filled }
    requires bounds { AreBounds bounds.now }
    requires count { length x.now ≡ N }
    requires rows { AreBounds x.now }
    ensures parts { (net : AnyNet) (targets : List AnyTarget) (lengths : List ℕ) →
        Filled t.now net targets lengths →
        ArePartsOf net (start_of (target_in targets target)) (length_in lengths target) (bound_in bounds.now)
        (bound_in x.now) result }
    ensures total { result.rounding +ℤ result.difference +ℤ result.rest
        ≡ kept_total t.now target (bound_in bounds.now) (bound_in x.now) }
    ensures fits { PartsFit result }
{
    Parts {
        rounding: t.rounding(target),
        difference: sum_of(t.input_part(target, bounds), t.width_part(target, x)),
        rest: t.rest_part(target, x),
    }
}
