//! Totals of small nets, and their parts.
ghost use Rattle.std.specs.Prelude.{◌≡◌, ◌<◌, length, IfSome};

use crate::limits::{all_fit, are_bounds, are_lengths};
use crate::nets::{BOTH_AND_DIFFERENCE, DIFFERENCE, means, over_ten, over_two, rounded_and_not};
use fx_eqs::PORTS;
use fx_error::split;
use fx_net::{Net, nets_fit};
use fx_nums::Frac;
use fx_sweep::{Sweep, Target};
use fx_totals::Totals;
use std::alloc::Global;

/// The bounds of one input.
pub const BOUNDS: [i64; PORTS] = [100, 0, 0, 0];

// The totals of targets with their lengths, where no range is met.
fn filled<const N: usize>(
    alloc: Global,
    net: &Net<N>,
    targets: &[Target],
    lengths: &[u16],
) -> Option<Totals<N>>
    ensures { IfSome result (λ totals. totals.filled ≡ length targets.now) }
{
    nets_fit(net);
    let mut totals: Totals<N> = Totals::new(alloc).ok()?;
    let mut sweep: Sweep<N> = Sweep::new(alloc).ok()?;
    if targets.len() > N + PORTS || lengths.len() != targets.len() {
        return None;
    }
    if !all_fit::<N>(targets) || !are_lengths(lengths) {
        return None;
    }
    if totals.fill(&mut sweep, net, targets, lengths).is_err() {
        return None;
    }
    Some(totals)
}

/// The total of a target that is filled, for bounds of the rows.
pub fn total<const N: usize>(totals: &Totals<N>, t: usize, x: &[i64]) -> Option<i128>
    requires { t < totals.now.filled }
{
    if !are_bounds(&BOUNDS) || !are_bounds(x) || x.len() != N {
        return None;
    }
    Some(totals.total(t, &BOUNDS, x))
}

// The total of one target.
fn total_of<const N: usize>(
    alloc: Global,
    net: &Net<N>,
    target: Target,
    moments: u16,
    x: &[i64],
) -> Option<i128> {
    let totals = filled(alloc, net, &[target], &[moments])?;
    total(&totals, 0, x)
}

// The totals of a recursion of the first order, of its original, and of how far they are apart.
fn recursion(
    alloc: Global,
    code: Frac,
    original: Frac,
    moments: u16,
    x: &[i64],
) -> Option<[i128; 3]> {
    let net = rounded_and_not(alloc, code, original).ok()?;
    let totals = filled(alloc, &net, &BOTH_AND_DIFFERENCE, &[moments; 3])?;
    Some([
        total(&totals, 0, x)?,
        total(&totals, 1, x)?,
        total(&totals, 2, x)?,
    ])
}

#[test]
fn half_of_itself(rt: HostRuntime) {
    let (alloc, half) = (rt.alloc(), over_two(1, 1));
    let exact = [201 << 64, 200 << 64];
    assert!(rt;
        recursion(alloc, half, half, 64, &[201, 200])
            == Some([exact[0], exact[1], 18_446_744_073_709_552_016])
    );
    assert!(rt;
        recursion(alloc, half, half, 8, &[201, 200])
            == Some([exact[0], exact[1], 47_269_781_688_880_726_016])
    );
    assert!(rt;
        recursion(alloc, half, half, 64, &[200, 200])
            == Some([
                3_707_795_558_815_619_874_815,
                exact[1],
                18_446_744_073_709_552_015
            ])
    );
}

// The total of the rounded row alone after so many moments, the last of which repeat.
fn standing(alloc: Global) -> Option<i128> {
    let net = rounded_and_not(alloc, over_two(1, 1), over_two(1, 1)).ok()?;
    total_of(alloc, &net, Target::Row(0), 4096, &[201, 200])
}

// The totals of the mean of four inputs, of its original, and of how far they are apart.
fn mean(alloc: Global) -> Option<[i128; 3]> {
    let net = means(alloc).ok()?;
    let difference = Target::Pair {
        code: 3,
        original: 7,
        shift: 0,
    };
    let x = [100, 100, 100, 101, 100, 100, 100, 100];
    Some([
        total_of(alloc, &net, Target::Row(3), 4, &x)?,
        total_of(alloc, &net, Target::Row(7), 4, &x)?,
        total_of(alloc, &net, difference, 4, &x)?,
    ])
}

#[test]
fn totals_of_long_and_short_sweeps(rt: HostRuntime) {
    assert!(rt; standing(rt.alloc()) == Some((201 << 64) + 101));
    let half_a_step = 1 << 63;
    assert!(rt; mean(rt.alloc()) == Some([(100 << 64) + half_a_step, 100 << 64, half_a_step]));
}

// The parts of a target that is filled: rounding, gain of the input, width, rest; what the inputs, the widths and the
// rests add; and how the error is split.
type AllParts = ([i128; 4], [i128; 3], [i128; 3]);

fn parts_of(totals: &Totals<2>, x: &[i64]) -> Option<AllParts>
    requires { 0 < totals.now.filled }
{
    if !are_bounds(&BOUNDS) || !are_bounds(x) || x.len() != 2 {
        return None;
    }
    let parts = split(totals, 0, &BOUNDS, x);
    Some((
        [
            totals.rounding(0),
            totals.input_gain(0, 0),
            totals.width(0, 0) + totals.width(0, 1),
            totals.rest(0, 0) + totals.rest(0, 1),
        ],
        [
            totals.input_part(0, &BOUNDS),
            totals.width_part(0, x),
            totals.rest_part(0, x),
        ],
        [parts.rounding, parts.difference, parts.rest],
    ))
}

// A coefficient near a tenth, and a tenth: how many rows are targets, the total and its parts.
fn near_a_tenth(alloc: Global) -> Option<(usize, AllParts)> {
    let net = rounded_and_not(alloc, over_two(819, 13), over_ten(1, 1)).ok()?;
    let totals = filled(alloc, &net, &[DIFFERENCE], &[2])?;
    Some((totals.rows(), parts_of(&totals, &[112, 112])?))
}

#[test]
fn a_coefficient_near_a_tenth(rt: HostRuntime) {
    let (rounding, inputs, rest) = (
        10_145_484_060_558_884_864,
        45_035_996_273_705_000,
        41_310_619_893_397_108_912,
    );
    let numbers = [rounding, inputs / 100, 1, rest / 112];
    let parts = (numbers, [inputs, 112, rest], [rounding, inputs + 112, rest]);
    assert!(rt; near_a_tenth(rt.alloc()) == Some((0, parts)));
}

// The total of one target of the same two rows.
fn total_near_a_tenth(alloc: Global, target: Target, x: &[i64]) -> Option<i128> {
    let net = rounded_and_not(alloc, over_two(819, 13), over_ten(1, 1)).ok()?;
    total_of(alloc, &net, target, 2, x)
}

#[test]
fn totals_near_a_tenth(rt: HostRuntime) {
    let both = total_near_a_tenth(rt.alloc(), DIFFERENCE, &[112, 112]);
    assert!(rt; both == Some(51_501_139_950_229_698_888));
    let row = total_near_a_tenth(rt.alloc(), Target::Row(0), &[111, 112]);
    assert!(rt; row == Some(2_059_708_185_323_438_604_288));
}
