//! Lattices: step-down, and the structure of reflections and taps.
use crate::forms::{counts, numerators, tenths};
use fx_lattice::{Ladder, Step, ladder_sif, step_down};
use fx_nums::{Frac, Iv};
use fx_sif::Block;
use std::alloc::{AllocError, Global};
use std::test::Fail;

// The ends of an interval.
type Ends = (i128, i128);

fn ends(interval: Iv) -> Ends {
    (interval.lo(), interval.hi())
}

// The reflection and the tap of a step.
fn rung(ladder: &Ladder, i: usize) -> Option<(Ends, Ends)> {
    if i < 1 || i > ladder.order() {
        return None;
    }
    Some((ends(ladder.k(i)), ends(ladder.v(i))))
}

// The order of a lattice, its last and its first step, and its tap of order 0.
fn told(ladder: &Ladder) -> Option<(usize, [(Ends, Ends); 2], Ends)> {
    let rungs = [rung(ladder, ladder.order())?, rung(ladder, 1)?];
    Some((ladder.order(), rungs, ends(ladder.v(0))))
}

// y(k) = u(k) + y(k-1) / 2.
fn one_pole(alloc: Global) -> Option<(usize, [(Ends, Ends); 2], Ends)> {
    let ladder = step_down(alloc, &[tenths(10)], &[tenths(10), tenths(-5)]).ok()?;
    told(&ladder)
}

// A denominator of the greatest order, all of whose coefficients but the last are 0.
fn greatest_order(alloc: Global) -> Option<(usize, [(Ends, Ends); 2], Ends)> {
    let mut a = [Frac::zero(); 12];
    a[0] = tenths(10);
    a[11] = tenths(5);
    let ladder = step_down(alloc, &[tenths(10); 12], &a).ok()?;
    told(&ladder)
}

#[test]
fn lattices_of_filters(rt: HostRuntime) {
    let (zero, half, one) = ((0, 0), (1 << 63, 1 << 63), (1 << 64, 1 << 64));
    let minus_half = (-(1 << 63), -(1 << 63));
    assert!(rt; one_pole(rt.alloc()) == Some((1, [(minus_half, zero); 2], one)));
    assert!(rt; greatest_order(rt.alloc()) == Some((11, [(half, one), (zero, one)], half)));
}

// The numerators of the reflection and of both taps of order 1, cut to the places of code.
fn cut(alloc: Global) -> Option<[i64; 3]> {
    let ladder = step_down(alloc, &[tenths(-3), tenths(10)], &[tenths(10), tenths(-3)]).ok()?;
    if ladder.order() < 1 {
        return None;
    }
    Some([
        ladder.k_frac(1).num(),
        ladder.v_frac(1).num(),
        ladder.v_frac(0).num(),
    ])
}

#[test]
fn coefficients_are_cut_towards_zero(rt: HostRuntime) {
    let wanted = [-1_383_505_805_528_216_371, 1 << 38, -51];
    assert!(rt; cut(rt.alloc()) == Some(wanted));
}

// The step that refuses a pole on the unit circle, with the ends of its reflection.
fn refused(alloc: Global) -> Option<(u8, Ends)> {
    let told = step_down(alloc, &[tenths(10)], &[tenths(10), tenths(10)]).err()?;
    match told {
        Step::NotBelowOne(step, reflection) => Some((step, ends(reflection))),
        _ => None,
    }
}

#[test]
fn a_pole_on_the_unit_circle_is_refused(rt: HostRuntime) {
    assert!(rt; refused(rt.alloc()) == Some((1, (1 << 64, 1 << 64))));
}

type Told<const K: usize> = ([u8; 4], [i64; K]);

// One reflection.
fn one_reflection(alloc: Global) -> Result<Told<5>, AllocError> {
    let form = ladder_sif(alloc, &[tenths(5)], &[tenths(3), tenths(2)])?;
    let places = [
        (Block::N, 0, 0),
        (Block::M, 0, 0),
        (Block::J, 1, 0),
        (Block::L, 0, 0),
        (Block::L, 0, 1),
    ];
    Ok((counts(&form), numerators(&form, places)))
}

// The most reflections.
fn most_reflections(alloc: Global) -> Result<Told<4>, AllocError> {
    let form = ladder_sif(alloc, &[tenths(5); 11], &[tenths(3); 12])?;
    let places = [
        (Block::M, 0, 10),
        (Block::J, 21, 0),
        (Block::K, 10, 20),
        (Block::L, 0, 21),
    ];
    Ok((counts(&form), numerators(&form, places)))
}

// No reflection.
fn tap_alone(alloc: Global) -> Result<Told<1>, AllocError> {
    let form = ladder_sif(alloc, &[], &[tenths(3)])?;
    Ok((counts(&form), numerators(&form, [(Block::S, 0, 0)])))
}

#[test]
fn structures_of_lattices(rt: HostRuntime) -> Result<(), Fail> {
    assert!(rt; one_reflection(rt.alloc())? == ([2, 1, 1, 1], [1, -5, -5, 3, 2]));
    assert!(rt; most_reflections(rt.alloc())? == ([22, 11, 1, 1], [-5, -5, 1, 3]));
    assert!(rt; tap_alone(rt.alloc())? == ([0, 0, 1, 1], [3]));
    Ok(())
}
