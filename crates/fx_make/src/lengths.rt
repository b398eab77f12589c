//! Whether a candidate's rows pass for a length.

ghost use Rattle.std.specs.Prelude.{◌≡◌, ℕ, ◌-◌, ◌<◌, ◌≤◌, length, replicate, None};
ghost use Rattle.fx_sweep.specs.Swept.{whole_in};
ghost use Rattle.fx_totals.specs.Filled.{Filled};
ghost use Rattle.fx_totals.specs.Kept.{AreBounds, IsUpTo, bound_in, greatest_total};
ghost use Rattle.fx_block.specs.Candidate.{candidate_count, candidate_range};
ghost use Rattle.fx_make.specs.Designs.{AreRowsOf};
ghost use Rattle.fx_make.specs.Lengths.{TellsRaises, TellsTrial, kept_above, kept_pairs, least_fail, raises_of};
ghost use Rattle.fx_make.specs.Targets.{padded_net, target_count, targets_of};

use crate::caps::{caps, input_bounds};
use crate::fail::Fail;
use crate::targets::{output, output_count, row_count};
use fx_block::{Least, least_bounds};
use fx_eqs::systems_fit;
use fx_files::{Filter, filters_fit};
use fx_quant::Design;
use fx_totals::{Totals, empty_rows_change_nothing};

// How raises of the bounds fail, if they do.
fn bounds_fail(least: Least) -> Option<Fail>
    ensures { result ≡ least_fail least }
{
    match least {
        Least::Rest => None,
        Least::Over { row, value, cap } => Some(Fail::Over(row, value, cap)),
        Least::Slow { row, before, after } => Some(Fail::Slow(row, before, after)),
    }
}

// Raises the bounds of the rows from 0, and tells how that fails, if it does.
fn raise_bounds<const N: usize>(
    f: &Filter,
    d: &Design,
    totals: &Totals<N>,
    x: &mut [i64],
    scratch: &mut [i64],
) -> Option<Fail>
    requires rows { AreRowsOf f.now d.now }
    requires room { candidate_count f.now d.now.rows ≤ N }
    requires count { length x.old ≡ N }
    requires spare { length scratch.old ≡ N }
    ensures count { length x.new ≡ length x.old }
    ensures spare { length scratch.new ≡ length scratch.old }
    ensures fits { AreBounds x.new }
    ensures told { (m : ℕ) → Filled totals.now (padded_net N f.now d.now.rows) (targets_of f.now d.now.rows)
        (replicate (length (targets_of f.now d.now.rows)) m) →
        TellsRaises (raises_of f.now d.now.rows m) result (bound_in x.new) }
{
    filters_fit(f);
    systems_fit(f.eqs());
    empty_rows_change_nothing();
    let bounds = input_bounds(f);
    let caps: [i64; N] = caps(f, d);
    bounds_fail(least_bounds(totals, &bounds, &caps, x, scratch))
}

// The total of the pair of output `o`, which is kept.
fn pair_total<const N: usize>(
    f: &Filter,
    d: &Design,
    totals: &Totals<N>,
    x: &[i64],
    o: usize,
) -> i128
    requires rows { AreRowsOf f.now d.now }
    requires filled { totals.now.filled ≡ target_count f.now d.now.rows }
    requires count { length x.now ≡ N }
    requires bounds { AreBounds x.now }
    requires output { o < length f.now.outputs }
    ensures value { result ≡ kept_pairs f.now d.now.rows totals.now (bound_in x.now) o }
    ensures fits { IsUpTo greatest_total result }
{
    totals.total(row_count(f, d) + o, &input_bounds(f), x)
}

// Puts the totals of the pairs of the outputs, and tells the first that is above its target.
fn put_errors<const N: usize>(
    f: &Filter,
    d: &Design,
    totals: &Totals<N>,
    x: &[i64],
    e: &mut [i128],
) -> Option<Fail>
    requires rows { AreRowsOf f.now d.now }
    requires filled { totals.now.filled ≡ target_count f.now d.now.rows }
    requires count { length x.now ≡ N }
    requires bounds { AreBounds x.now }
    requires errors { length e.old ≡ length f.now.outputs }
    ensures errors { length e.new ≡ length e.old }
    ensures told { result ≡ kept_above f.now (kept_pairs f.now d.now.rows totals.now (bound_in x.now)) }
    ensures put { result ≡ None → (o : ℕ) → o < length f.now.outputs →
        whole_in e.new o ≡ kept_pairs f.now d.now.rows totals.now (bound_in x.now) o }
{
    for o in 0..output_count(f) {
        let total = pair_total(f, d, totals, x, o);
        let target = output(f, o).target;
        e[o] = total;
        if total > target {
            return Some(Fail::Error(o as u8, total, target));
        }
    }
    None
}

/// How the trial of the rows fails for a length, if it does, where no target meets a range within it and the totals are
/// filled with all targets for that length. Where it does not, `x` has the bounds and `e` the totals of the outputs'
/// pairs.
pub fn try_totals<const N: usize>(
    f: &Filter,
    d: &Design,
    totals: &Totals<N>,
    x: &mut [i64],
    scratch: &mut [i64],
    e: &mut [i128],
) -> Option<Fail>
    requires rows { AreRowsOf f.now d.now }
    requires room { candidate_count f.now d.now.rows ≤ N }
    requires filled { totals.now.filled ≡ target_count f.now d.now.rows }
    requires count { length x.old ≡ N }
    requires spare { length scratch.old ≡ N }
    requires errors { length e.old ≡ length f.now.outputs }
    ensures count { length x.new ≡ length x.old }
    ensures spare { length scratch.new ≡ length scratch.old }
    ensures errors { length e.new ≡ length e.old }
    ensures fits { AreBounds x.new }
    ensures told { (m : ℕ) → Filled totals.now (padded_net N f.now d.now.rows) (targets_of f.now d.now.rows)
        (replicate (length (targets_of f.now d.now.rows)) m) → candidate_range f.now d.now.rows m ≡ None →
        TellsTrial f.now d.now.rows m result (bound_in x.new) (whole_in e.new) }
{
    filters_fit(f);
    systems_fit(f.eqs());
    empty_rows_change_nothing();
    if let Some(fail) = raise_bounds(f, d, totals, x, scratch) {
        return Some(fail);
    }
    put_errors(f, d, totals, x, e)
}
