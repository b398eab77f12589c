//! Targets that are swept once for several lengths.
ghost use Rattle.std.specs.Prelude.{◌≡◌, ℕ, ◌<◌, length, None, true};
ghost use Rattle.fx_totals.specs.Series.{range_for, totals_for};

use crate::limits::{all_fit, are_lengths};
use crate::nets::{BOTH_AND_DIFFERENCE, one_pole, over_ten, over_two, rounded_and_not};
use crate::totals::total;
use fx_eqs::PORTS;
use fx_net::{Net, nets_fit};
use fx_nums::Frac;
use fx_sweep::{Place, Sweep, Target};
use fx_totals::{MOST_LENGTHS, Series, TargetRange};
use std::alloc::Global;

// Sweeps targets for several lengths, and tells whether they are within their limits.
fn fill<const N: usize>(
    series: &mut Series<N>,
    sweep: &mut Sweep<N>,
    net: &Net<N>,
    targets: &[Target],
    lengths: &[u16],
) -> bool
    ensures count { result ≡ true → series.new.count ≡ length lengths.now }
    ensures filled { result ≡ true → (l : ℕ) → l < length lengths.now → range_for series.new l ≡ None →
        (totals_for series.new l).filled ≡ length targets.now }
{
    nets_fit(net);
    if targets.len() > N + PORTS || lengths.len() > MOST_LENGTHS {
        return false;
    }
    if !all_fit::<N>(targets) || !are_lengths(lengths) {
        return false;
    }
    series.fill(sweep, net, targets, lengths);
    true
}

// The total of the last target at a length, or the target and the row whose rest meets a range, with its number.
type Told = Result<i128, (u8, u8, i128)>;

fn range_of(range: TargetRange) -> (u8, u8, i128) {
    match range.at.place {
        Place::Rest(row) => (range.target, row, range.at.value),
        _ => (range.target, 255, range.at.value),
    }
}

fn total_at<const N: usize>(series: &Series<N>, l: usize, t: usize, x: &[i64]) -> Told
    requires length { l < series.now.count }
    requires target { range_for series.now l ≡ None → t < (totals_for series.now l).filled }
{
    match series.at(l) {
        Ok(totals) => Ok(total(totals, t, x).unwrap_or(0)),
        Err(range) => Err(range_of(range)),
    }
}

// How far a recursion and its original are apart, at three lengths, and how many moments were made.
fn three_lengths(
    alloc: Global,
    code: Frac,
    original: Frac,
    lengths: [u16; 3],
) -> Option<([Told; 3], u64)> {
    let net = rounded_and_not(alloc, code, original).ok()?;
    let mut sweep: Sweep<2> = Sweep::new(alloc).ok()?;
    let mut series: Series<2> = Series::new(alloc).ok()?;
    if !fill(
        &mut series,
        &mut sweep,
        &net,
        &BOTH_AND_DIFFERENCE,
        &lengths,
    ) {
        return None;
    }
    let x = [201, 200];
    let told = [
        total_at(&series, 0, 2, &x),
        total_at(&series, 1, 2, &x),
        total_at(&series, 2, 2, &x),
    ];
    Some((told, sweep.made()))
}

#[test]
fn lengths_that_meet_no_range(rt: HostRuntime) {
    let half = over_two(1, 1);
    let long = Ok(18_446_744_073_709_552_016);
    let short = Ok(47_269_781_688_880_726_016);
    assert!(rt;
        three_lengths(rt.alloc(), half, half, [64, 8, 64]) == Some(([long, short, long], 3 * 64))
    );
}

#[test]
fn lengths_that_meet_a_range(rt: HostRuntime) {
    let (half, thousand) = (over_two(1, 1), over_ten(1000, 0));
    let told = three_lengths(rt.alloc(), half, thousand, [3, 2, 64]);
    let range = Err((1, 1, 1_000_000_000 << 64));
    assert!(rt;
        told.is_some_and(|(told, made)| told[0] == range
            && told[1].is_ok()
            && told[2] == range
            && made == 64 + 3 + 2)
    );
}

#[test]
fn moments_that_stand_are_not_made(rt: HostRuntime) {
    let half = over_two(1, 1);
    let told = three_lengths(rt.alloc(), half, half, [4096, 100, 64]);
    // From moment 65 on the weight of row 1 is -1, so each moment adds 1 to the gain and 1 to the width.
    let rest = (1i128 << 64) + 201 + 200;
    let wanted = [
        Ok(rest + 300 * 4031),
        Ok(rest + 300 * 35),
        Ok(18_446_744_073_709_552_016),
    ];
    assert!(rt; told.is_some_and(|(told, made)| told == wanted && made < 300));
}

// The pair of a design of one pole with its filter, after 8 and after 64 moments, and how many were made.
fn design_at_two_lengths(alloc: Global) -> Option<([Told; 2], u64)> {
    let net = one_pole(alloc).ok()?;
    let mut sweep: Sweep<4> = Sweep::new(alloc).ok()?;
    let mut series: Series<4> = Series::new(alloc).ok()?;
    let pair = Target::Pair {
        code: 2,
        original: 3,
        shift: 0,
    };
    let targets = [
        Target::Row(0),
        Target::Row(1),
        Target::Row(2),
        Target::Row(3),
        pair,
    ];
    if !fill(&mut series, &mut sweep, &net, &targets, &[8, 64]) {
        return None;
    }
    let x = [201, 201, 201, 200];
    Some((
        [total_at(&series, 0, 4, &x), total_at(&series, 1, 4, &x)],
        sweep.made(),
    ))
}

#[test]
fn each_target_of_a_design_is_swept_once(rt: HostRuntime) {
    let wanted = [
        Ok(47_269_781_688_880_726_016),
        Ok(18_446_744_073_709_552_016),
    ];
    assert!(rt; design_at_two_lengths(rt.alloc()) == Some((wanted, 5 * 64)));
}
