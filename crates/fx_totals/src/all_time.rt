ghost use Rattle.fx_totals.specs.AllTime.{BoundsHoldForAllTime, BoundsSuffice};

use crate::laws::totals_bound;

/// A law with nothing to run: where each row of a net is empty, or has a bound that is at least its total after some
/// number of moments, these bounds hold at all times, in each run on words within their bounds with perturbations that
/// the classes of the rows allow. So the totals of all targets, and the sums of their words, bound them at all times.
pub fn bounds_hold_for_all_time()
    ensures rows { BoundsHoldForAllTime }
    ensures targets { BoundsSuffice }
{
    totals_bound();
}
