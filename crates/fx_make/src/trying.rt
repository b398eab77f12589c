//! Whether a candidate's rows pass for one of the lengths of a filter.

ghost use Rattle.std.specs.Prelude.{◌≡◌, ◌≢◌, ℕ, ◌+◌, ◌*◌, ◌<◌, ◌≤◌, length, None, Some};
ghost use Rattle.fx_net.specs.Tables.{net_of};
ghost use Rattle.fx_sweep.specs.Swept.{whole_in};
ghost use Rattle.fx_totals.specs.Filled.{length_in};
ghost use Rattle.fx_totals.specs.Kept.{AreBounds, bound_in};
ghost use Rattle.fx_totals.specs.Series.{AreUpToLength, IsSeries};
ghost use Rattle.fx_block.specs.Candidate.{candidate_count};
ghost use Rattle.fx_make.specs.Designs.{AreRowsOf};
ghost use Rattle.fx_make.specs.Lengths.{HasPassing, TellsTrial, fail_at, fail_in, first_passing};
ghost use Rattle.fx_make.specs.Targets.{padded_net, target_count, targets_of};

use crate::fail::Fail;
use crate::lengths::try_totals;
use crate::targets::{target_count, targets};
use fx_eqs::systems_fit;
use fx_files::{Filter, filters_fit};
use fx_net::Net;
use fx_quant::Design;
use fx_sweep::Sweep;
use fx_totals::{MOST_LENGTHS, Series, empty_rows_change_nothing};

// How the trial of the rows fails for the length at a place, if it does.
fn try_length<const N: usize>(
    f: &Filter,
    d: &Design,
    series: &Series<N>,
    l: usize,
    x: &mut [i64],
    scratch: &mut [i64],
    e: &mut [i128],
) -> Option<Fail>
    requires rows { AreRowsOf f.now d.now }
    requires room { candidate_count f.now d.now.rows ≤ N }
    requires series { IsSeries series.now (padded_net N f.now d.now.rows) (targets_of f.now d.now.rows)
        f.now.settings.lengths }
    requires length { l < length f.now.settings.lengths }
    requires count { length x.old ≡ N }
    requires spare { length scratch.old ≡ N }
    requires errors { length e.old ≡ length f.now.outputs }
    ensures count { length x.new ≡ length x.old }
    ensures spare { length scratch.new ≡ length scratch.old }
    ensures errors { length e.new ≡ length e.old }
    ensures fits { result ≡ None → AreBounds x.new }
    ensures told { TellsTrial f.now d.now.rows (length_in f.now.settings.lengths l) result (bound_in x.new)
        (whole_in e.new) }
{
    filters_fit(f);
    systems_fit(f.eqs());
    empty_rows_change_nothing();
    match series.at(l) {
        Ok(totals) => try_totals(f, d, totals, x, scratch, e),
        Err(range) => Some(Fail::Range(range)),
    }
}

// Sweeps each target of the rows once, for all lengths of a filter.
fn fill<const N: usize>(
    f: &Filter,
    d: &Design,
    net: &Net<N>,
    series: &mut Series<N>,
    sweep: &mut Sweep<N>,
)
    requires rows { AreRowsOf f.now d.now }
    requires room { candidate_count f.now d.now.rows ≤ N }
    requires net { net_of net.now ≡ padded_net N f.now d.now.rows }
    ensures series { IsSeries series.new (padded_net N f.now d.now.rows) (targets_of f.now d.now.rows)
        f.now.settings.lengths }
    ensures made { (most : ℕ) → AreUpToLength most f.now.settings.lengths →
        sweep.new.made ≤ sweep.old.made + target_count f.now d.now.rows * most }
{
    filters_fit(f);
    systems_fit(f.eqs());
    empty_rows_change_nothing();
    let count = target_count(f, d);
    let targets = targets(f, d);
    series.fill(sweep, net, &targets[..count], f.lengths());
}

// Puts at its place how the trial fails for a length.
fn put(fails: &mut [Option<Fail>], l: usize, fail: Option<Fail>)
    requires { l < length fails.old }
    ensures count { length fails.new ≡ length fails.old }
    ensures here { fail_in fails.new l ≡ fail }
    ensures others { (k : ℕ) → k ≢ l → fail_in fails.new k ≡ fail_in fails.old k }
{
    fails[l] = fail;
}

/// The first of a filter's lengths for which the trial of a design's rows passes, by its place, if there is one. Each
/// target is swept once for all lengths.
///
/// The net holds the rows and, behind them, the filter's expanded rows, and nothing else. `x` and `scratch` have N
/// entries, `e` one for each output, `fails` `MOST_LENGTHS`. For the length that passes `x` has the bounds of the rows,
/// with 0 past them, and `e` the totals of the outputs' pairs; `fails` has at its place how the trial fails for each
/// length before it, or for all where none passes, and None from there on. It takes no memory.
pub fn try_lengths<const N: usize>(
    f: &Filter,
    d: &Design,
    net: &Net<N>,
    series: &mut Series<N>,
    sweep: &mut Sweep<N>,
    x: &mut [i64],
    scratch: &mut [i64],
    e: &mut [i128],
    fails: &mut [Option<Fail>],
) -> Option<u8>
    requires rows { AreRowsOf f.now d.now }
    requires room { candidate_count f.now d.now.rows ≤ N }
    requires net { net_of net.now ≡ padded_net N f.now d.now.rows }
    requires count { length x.old ≡ N }
    requires spare { length scratch.old ≡ N }
    requires errors { length e.old ≡ length f.now.outputs }
    requires fails { length fails.old ≡ MOST_LENGTHS }
    ensures count { length x.new ≡ length x.old }
    ensures spare { length scratch.new ≡ length scratch.old }
    ensures errors { length e.new ≡ length e.old }
    ensures fails { length fails.new ≡ length fails.old }
    ensures first { result
        ≡ first_passing f.now d.now.rows (length_in f.now.settings.lengths) (length f.now.settings.lengths) }
    ensures told { (l : ℕ) → fail_in fails.new l ≡ fail_at f.now d.now.rows result l }
    ensures found { (l : ℕ) → result ≡ Some l →
        HasPassing f.now d.now.rows (length_in f.now.settings.lengths l) (bound_in x.new) (whole_in e.new) }
    ensures fits { (l : ℕ) → result ≡ Some l → AreBounds x.new }
    ensures series { IsSeries series.new (net_of net.now) (targets_of f.now d.now.rows) f.now.settings.lengths }
    ensures made { (most : ℕ) → AreUpToLength most f.now.settings.lengths →
        sweep.new.made ≤ sweep.old.made + target_count f.now d.now.rows * most }
{
    fill(f, d, net, series, sweep);
    fails.fill(None);
    for l in 0..f.lengths().len() {
        let fail = try_length(f, d, series, l, x, scratch, e);
        put(fails, l, fail);
        if fail.is_none() {
            return Some(l as u8);
        }
    }
    None
}
