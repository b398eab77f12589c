//! Sweeps of one row.
ghost use Rattle.std.specs.Prelude.{◌+◌, ◌≤◌};

use crate::nets::{over_ten, over_two};
use fx_net::Net;
use fx_nums::Frac;
use fx_sweep::{Place, RangeAt, Sweep, Target};
use std::alloc::{AllocError, Global};
use std::test::Fail;

// A net of one row, which takes so much of itself in the moment before, and its input.
fn one_row(alloc: Global, old: Frac) -> Result<Net<1>, AllocError> {
    let mut net: Net<1> = Net::new(alloc)?;
    net.set_old(0, 0, old);
    net.set_in(0, 0, Frac::one());
    Ok(net)
}

// Makes so many moments, or as many as answer Ok.
fn run(sweep: &mut Sweep<1>, net: &Net<1>, moments: u16) -> Result<(), RangeAt>
    requires { sweep.old.count + moments ≤ 4096 }
    ensures { sweep.new.count ≤ sweep.old.count + moments }
{
    for k in 0..moments {
        let _ = k;
        sweep.moment(net)?;
    }
    Ok(())
}

// The gains of the input and of the row, the width, the rest, and what the input's weight is now.
fn numbers(sweep: &Sweep<1>) -> [i128; 5] {
    [
        sweep.input_gain(0),
        sweep.row_gain(0),
        sweep.width(0),
        sweep.rest(0),
        sweep.input_now(0).hi(),
    ]
}

// Half of itself: the numbers after 64 moments, one by one, and how many were made.
fn halved(alloc: Global) -> Result<Option<([i128; 5], u64)>, AllocError> {
    let net = one_row(alloc, over_two(1, 1))?;
    let mut sweep: Sweep<1> = Sweep::new(alloc)?;
    sweep.start(Target::Row(0));
    if run(&mut sweep, &net, 64).is_err() {
        return Ok(None);
    }
    Ok(Some((numbers(&sweep), sweep.made())))
}

// The same after 66 moments and a hundred more that repeat, which count as one: gain, width and rest of the row.
fn repeated(alloc: Global) -> Result<Option<([i128; 3], u64, u16)>, AllocError> {
    let net = one_row(alloc, over_two(1, 1))?;
    let mut sweep: Sweep<1> = Sweep::new(alloc)?;
    sweep.start(Target::Row(0));
    if run(&mut sweep, &net, 66).is_err() {
        return Ok(None);
    }
    let Ok(moments) = sweep.moments(&net, 100) else {
        return Ok(None);
    };
    let row = [sweep.row_gain(0), sweep.width(0), sweep.rest(0)];
    Ok(Some((row, sweep.made(), moments)))
}

#[test]
fn half_of_itself(rt: HostRuntime) -> Result<(), Fail> {
    let gain = (1i128 << 65) - 2;
    assert!(rt; halved(rt.alloc())? == Some(([gain, gain, 0, 1, 2], 64)));
    assert!(rt; repeated(rt.alloc())? == Some(([gain + 1, 1, 0], 67, 100)));
    Ok(())
}

// The row and the number of a rest that is out of range.
fn rest_at(answer: Result<(), RangeAt>) -> Option<(u8, i128)> {
    match answer {
        Err(
            RangeAt {
                place: Place::Rest(row),
                value,
            },
        ) => Some((row, value)),
        _ => None,
    }
}

// A thousand times itself: what the first two moments, the third and the fourth answer, and how many were made.
fn grown(alloc: Global) -> Result<([Option<(u8, i128)>; 3], u64), AllocError> {
    let net = one_row(alloc, over_ten(1000, 0))?;
    let mut sweep: Sweep<1> = Sweep::new(alloc)?;
    sweep.start(Target::Row(0));
    let first = rest_at(run(&mut sweep, &net, 2));
    let third = rest_at(run(&mut sweep, &net, 1));
    let fourth = rest_at(run(&mut sweep, &net, 1));
    Ok(([first, third, fourth], sweep.made()))
}

#[test]
fn a_thousand_times_itself(rt: HostRuntime) -> Result<(), Fail> {
    let range = Some((0, 1_000_000_000 << 64));
    assert!(rt; grown(rt.alloc())? == ([None, range, range], 4));
    Ok(())
}
