//! The structures: direct forms, cascades and state spaces, by the entries of their forms.
use crate::forms::{counts, numerators, tenths};
use fx_cascade::{cascade_df1, cascade_df2t};
use fx_direct::{df1, df2, df2t, fir};
use fx_nums::{Den, Frac};
use fx_sif::{Block, Sizes};
use fx_space::space;
use std::alloc::{AllocError, Global};
use std::test::Fail;

// The counts of a form, and some of its numerators.
type Told<const K: usize> = ([u8; 4], [i64; K]);

fn decimal(num: i64, places: u8) -> Frac {
    Frac::new(num, Den::Ten(places)).unwrap_or(Frac::zero())
}

// A low pass.
fn numerator() -> [Frac; 3] {
    let b0 = decimal(20083365564211236, 18);
    [b0, decimal(4016673112842247, 17), b0]
}

fn denominator() -> [Frac; 3] {
    [
        Frac::one(),
        decimal(-15610180758007182, 16),
        decimal(6413515380575631, 16),
    ]
}

fn first_form(alloc: Global) -> Result<Told<5>, AllocError> {
    let form = df1(alloc, &numerator(), &denominator())?;
    let places = [
        (Block::N, 0, 0),
        (Block::M, 0, 0),
        (Block::M, 0, 2),
        (Block::K, 2, 0),
        (Block::P, 3, 2),
    ];
    Ok((counts(&form), numerators(&form, places)))
}

fn second_form(alloc: Global) -> Result<Told<3>, AllocError> {
    let form = df2(alloc, &numerator(), &denominator())?;
    let places = [(Block::M, 0, 1), (Block::L, 0, 0), (Block::R, 0, 0)];
    Ok((counts(&form), numerators(&form, places)))
}

fn transposed_form(alloc: Global) -> Result<Told<3>, AllocError> {
    let form = df2t(alloc, &numerator(), &denominator())?;
    let places = [(Block::P, 0, 1), (Block::Q, 0, 0), (Block::K, 1, 0)];
    Ok((counts(&form), numerators(&form, places)))
}

// The mean of four inputs.
fn mean(alloc: Global) -> Result<Told<4>, AllocError> {
    let form = fir(alloc, &[decimal(25, 2); 4])?;
    let places = [
        (Block::Q, 0, 0),
        (Block::P, 2, 1),
        (Block::S, 0, 0),
        (Block::R, 0, 2),
    ];
    Ok((counts(&form), numerators(&form, places)))
}

#[test]
fn direct_forms(rt: HostRuntime) -> Result<(), Fail> {
    let (b0, b1) = (20083365564211236, 4016673112842247);
    let (minus_a1, minus_a2) = (15610180758007182, -6413515380575631);
    assert!(rt; first_form(rt.alloc())? == ([1, 4, 1, 1], [b0, b1, minus_a1, 1, 1]));
    assert!(rt; second_form(rt.alloc())? == ([1, 2, 1, 1], [minus_a2, b0, b1]));
    assert!(rt; transposed_form(rt.alloc())? == ([1, 2, 1, 1], [1, b1, minus_a2]));
    assert!(rt; mean(rt.alloc())? == ([0, 3, 1, 1], [1, 1, 25, 25]));
    Ok(())
}

// The counts of the direct forms with the most coefficients, and with one.
fn widest(alloc: Global) -> Result<[[u8; 4]; 4], AllocError> {
    let b = [tenths(3); 13];
    Ok([
        counts(&fir(alloc, &b)?),
        counts(&df1(alloc, &b, &b)?),
        counts(&df2(alloc, &b, &b)?),
        counts(&df2t(alloc, &b, &b)?),
    ])
}

fn least(alloc: Global) -> Result<[[u8; 4]; 4], AllocError> {
    let (b, a) = ([tenths(3)], [tenths(10)]);
    Ok([
        counts(&fir(alloc, &b)?),
        counts(&df1(alloc, &b, &a)?),
        counts(&df2(alloc, &b, &a)?),
        counts(&df2t(alloc, &b, &a)?),
    ])
}

#[test]
fn direct_forms_at_their_limits(rt: HostRuntime) -> Result<(), Fail> {
    let all = [[0, 12, 1, 1], [1, 24, 1, 1], [1, 12, 1, 1], [1, 12, 1, 1]];
    assert!(rt; widest(rt.alloc())? == all);
    let none = [[0, 0, 1, 1], [1, 0, 1, 1], [1, 0, 1, 1], [1, 0, 1, 1]];
    assert!(rt; least(rt.alloc())? == none);
    Ok(())
}

// Two sections, each with its b0, b1, b2, a0, a1 and a2.
fn two_sections() -> [Frac; 12] {
    [
        tenths(1),
        tenths(2),
        tenths(3),
        tenths(10),
        tenths(4),
        tenths(5),
        tenths(6),
        tenths(7),
        tenths(8),
        tenths(10),
        tenths(9),
        tenths(-3),
    ]
}

fn first_cascade(alloc: Global) -> Result<Told<5>, AllocError> {
    let form = cascade_df1(alloc, &two_sections())?;
    let places = [
        (Block::N, 0, 0),
        (Block::J, 1, 0),
        (Block::M, 1, 2),
        (Block::M, 1, 5),
        (Block::L, 0, 1),
    ];
    Ok((counts(&form), numerators(&form, places)))
}

fn transposed_cascade(alloc: Global) -> Result<Told<4>, AllocError> {
    let form = cascade_df2t(alloc, &two_sections())?;
    let places = [
        (Block::Q, 1, 0),
        (Block::K, 2, 0),
        (Block::K, 3, 1),
        (Block::M, 1, 2),
    ];
    Ok((counts(&form), numerators(&form, places)))
}

// The counts of cascades of the most sections.
fn longest(alloc: Global) -> Result<[[u8; 4]; 2], AllocError> {
    let sections = [tenths(3); 48];
    Ok([
        counts(&cascade_df1(alloc, &sections)?),
        counts(&cascade_df2t(alloc, &sections)?),
    ])
}

#[test]
fn cascades(rt: HostRuntime) -> Result<(), Fail> {
    assert!(rt; first_cascade(rt.alloc())? == ([2, 6, 1, 1], [1, -6, 7, 3, 1]));
    assert!(rt; transposed_cascade(rt.alloc())? == ([2, 4, 1, 1], [3, 7, 3, 1]));
    assert!(rt; longest(rt.alloc())? == [[8, 18, 1, 1], [8, 16, 1, 1]]);
    Ok(())
}

// A state space with two states.
fn two_states(alloc: Global) -> Result<Told<6>, AllocError> {
    let sizes = Sizes {
        t: 0,
        x: 2,
        u: 1,
        y: 1,
    };
    let abcd = [
        tenths(5),
        tenths(1),
        tenths(-2),
        tenths(6),
        tenths(10),
        tenths(0),
        tenths(3),
        tenths(4),
        tenths(7),
    ];
    let form = space(alloc, sizes, &abcd)?;
    let places = [
        (Block::P, 0, 1),
        (Block::P, 1, 0),
        (Block::Q, 0, 0),
        (Block::Q, 1, 0),
        (Block::R, 0, 1),
        (Block::S, 0, 0),
    ];
    Ok((counts(&form), numerators(&form, places)))
}

// The greatest state space.
fn most_states(alloc: Global) -> Result<Told<2>, AllocError> {
    let sizes = Sizes {
        t: 0,
        x: 16,
        u: 4,
        y: 4,
    };
    let form = space(alloc, sizes, &[tenths(3); 400])?;
    let places = [(Block::P, 15, 15), (Block::S, 3, 3)];
    Ok((counts(&form), numerators(&form, places)))
}

#[test]
fn state_spaces(rt: HostRuntime) -> Result<(), Fail> {
    assert!(rt; two_states(rt.alloc())? == ([0, 2, 1, 1], [1, -2, 10, 0, 4, 7]));
    assert!(rt; most_states(rt.alloc())? == ([0, 16, 4, 4], [3, 3]));
    Ok(())
}
