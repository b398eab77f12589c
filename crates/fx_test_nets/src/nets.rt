//! Nets: coefficients that are read back and linked, and equations that are put at a place.
use crate::forms::tenths;
use fx_eqs::{Eqs, Source, Term};
use fx_net::{Net, Which};
use fx_nums::{Den, Frac};
use std::alloc::{AllocError, Global};
use std::test::Fail;

// What is set below: one coefficient of each kind, a class, and two zeros over 10^0.
fn readings(net: &Net<3>) -> ([i64; 3], [u8; 2], [u128; 2]) {
    (
        [
            net.now(2, 1).num(),
            net.old(2, 2).num(),
            net.input(1, 3).num(),
        ],
        [net.halves(1), net.halves(2)],
        [net.now(1, 0).den().value(), net.old(0, 1).den().value()],
    )
}

// A net with three coefficients and a class.
fn three_coefficients(alloc: Global) -> Result<Net<3>, AllocError> {
    let mut net: Net<3> = Net::new(alloc)?;
    net.set_now(2, 1, tenths(4));
    net.set_old(2, 2, tenths(5));
    net.set_in(1, 3, tenths(6));
    net.set_halves(1, 2);
    let zero = Frac::new(0, Den::Ten(3)).unwrap_or(Frac::one());
    net.set_now(1, 0, zero);
    net.set_old(0, 1, zero);
    Ok(net)
}

#[test]
fn coefficients_are_read_back(rt: HostRuntime) -> Result<(), Fail> {
    let mut net = three_coefficients(rt.alloc())?;
    assert!(rt; readings(&net) == ([4, 5, 6], [2, 0], [1, 1]));
    net.clear();
    assert!(rt; readings(&net) == ([0, 0, 0], [0, 0], [1, 1]));
    Ok(())
}

// The column of the first link of a row.
fn first_of_row(net: &Net<3>, which: Which, i: usize) -> Option<u8> {
    let table = net.links(which);
    if i >= table.rows() {
        return None;
    }
    let link = table.row_first(i)?;
    Some(link.index)
}

#[test]
fn links_are_the_coefficients(rt: HostRuntime) -> Result<(), Fail> {
    let net = three_coefficients(rt.alloc())?;
    let met = [
        first_of_row(&net, Which::Now, 2),
        first_of_row(&net, Which::Old, 2),
        first_of_row(&net, Which::In, 1),
        first_of_row(&net, Which::Now, 1),
    ];
    assert!(rt; met == [Some(1), Some(2), Some(3), None]);
    Ok(())
}

// y(k) = u(k-2) + 0.3 y(k-3): rows 0 and 1 hold the input, row 2 is the equation, rows 3 and 4 hold it.
fn delayed(alloc: Global) -> Option<Eqs> {
    let terms = [
        Term {
            row: 0,
            coef: Frac::one(),
            from: Source::In(0),
            lag: 2,
        },
        Term {
            row: 0,
            coef: tenths(3),
            from: Source::Row(0),
            lag: 3,
        },
    ];
    Eqs::build(alloc, 1, 1, &terms, &[0]).ok()
}

// Its rows in a net behind one that reads nothing: what each reads, and what the others do not.
fn delayed_rows(alloc: Global) -> Option<([i64; 6], [i64; 3])> {
    let system = delayed(alloc)?;
    let mut net: Net<6> = Net::new(alloc).ok()?;
    if system.net_rows() != 5 {
        return None;
    }
    net.put_eqs(&system, 1);
    Some((
        [
            net.input(1, 0).num(),
            net.old(2, 1).num(),
            net.old(3, 2).num(),
            net.old(3, 5).num(),
            net.old(4, 3).num(),
            net.old(5, 4).num(),
        ],
        [
            net.input(3, 0).num(),
            net.old(3, 3).num(),
            net.old(0, 0).num(),
        ],
    ))
}

#[test]
fn lags_are_held_in_rows(rt: HostRuntime) {
    assert!(rt; delayed_rows(rt.alloc()) == Some(([1, 1, 1, 3, 1, 1], [0, 0, 0])));
}
