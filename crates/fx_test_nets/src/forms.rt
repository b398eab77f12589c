//! Forms: what is read back, what is refused, and the rows of a form in a net.
use fx_net::Net;
use fx_nums::{Den, Frac};
use fx_sif::{Block, Entry, Sif, SifFault, Sizes};
use std::alloc::Global;

/// A decimal with one place; 0 where it is out of range.
pub fn tenths(num: i64) -> Frac {
    Frac::new(num, Den::Ten(1)).unwrap_or(Frac::zero())
}

/// How many intermediate variables, states, inputs and outputs a form has.
pub fn counts(form: &Sif) -> [u8; 4] {
    let sizes = form.sizes();
    [sizes.t, sizes.x, sizes.u, sizes.y]
}

/// The numerators of a form at these places.
pub fn numerators<const K: usize>(form: &Sif, places: [(Block, usize, usize); K]) -> [i64; K] {
    let mut all = [0; K];
    for k in 0..K {
        let (block, i, j) = places[k];
        all[k] = form.entry(block, i, j).num();
    }
    all
}

fn entry(block: Block, i: u8, j: u8, num: i64) -> Entry {
    Entry {
        block,
        i,
        j,
        coef: tenths(num),
    }
}

// y(k) = u(k) + 0.5 y(k-1), where the state holds half of the output before.
fn half_of_the_last(alloc: Global) -> Option<Sif> {
    let entries = [
        entry(Block::M, 0, 0, 10),
        entry(Block::N, 0, 0, 10),
        entry(Block::K, 0, 0, 5),
        entry(Block::L, 0, 0, 10),
    ];
    let sizes = Sizes {
        t: 1,
        x: 1,
        u: 1,
        y: 1,
    };
    Sif::build(alloc, sizes, &entries).ok()
}

// What is read of the copy of a form.
fn read_back(alloc: Global) -> Option<([u8; 4], usize, [i64; 4])> {
    let copied = half_of_the_last(alloc)?.copy(alloc).ok()?;
    let places = [
        (Block::K, 0, 0),
        (Block::J, 0, 0),
        (Block::J, 1, 1),
        (Block::S, 0, 0),
    ];
    Some((counts(&copied), copied.rows(), numerators(&copied, places)))
}

#[test]
fn a_form_is_read_back(rt: HostRuntime) {
    assert!(rt; read_back(rt.alloc()) == Some(([1; 4], 3, [5, 1, 0, 0])));
}

// What the rows of a form in a net read: the first the second before and the input, the others the first.
fn rows_in_net(alloc: Global) -> Option<[i64; 6]> {
    let form = half_of_the_last(alloc)?;
    let mut net: Net<4> = Net::new(alloc).ok()?;
    if form.rows() > 4 {
        return None;
    }
    form.put_net(&mut net, 0);
    Some([
        net.old(0, 1).num(),
        net.input(0, 0).num(),
        net.now(1, 0).num(),
        net.now(2, 0).num(),
        net.now(2, 1).num(),
        net.input(1, 0).num(),
    ])
}

#[test]
fn a_form_has_its_rows(rt: HostRuntime) {
    assert!(rt; rows_in_net(rt.alloc()) == Some([10, 10, 5, 10, 0, 0]));
}

// The fault of one entry of a form with two intermediate variables.
fn refusal(alloc: Global, refused: Entry) -> Option<SifFault> {
    let sizes = Sizes {
        t: 2,
        x: 0,
        u: 1,
        y: 1,
    };
    let entries = [entry(Block::J, 1, 0, 5), refused];
    Sif::build(alloc, sizes, &entries).err()
}

#[test]
fn entries_are_refused(rt: HostRuntime) {
    let alloc = rt.alloc();
    let above = refusal(alloc, entry(Block::J, 0, 1, 10));
    assert!(rt; matches!(above, Some(SifFault::NotUnitLower(0, 1))));
    let outside = refusal(alloc, entry(Block::K, 0, 0, 3));
    assert!(rt; matches!(outside, Some(SifFault::Shape(1))));
    let twice = refusal(alloc, entry(Block::J, 1, 0, 3));
    assert!(rt; matches!(twice, Some(SifFault::Twice(1))));
}

// The fault of counts.
fn count_refused(alloc: Global, t: u8, x: u8, u: u8, y: u8) -> Option<SifFault> {
    Sif::build(alloc, Sizes { t, x, u, y }, &[]).err()
}

#[test]
fn counts_are_refused(rt: HostRuntime) {
    let alloc = rt.alloc();
    assert!(rt;
        matches!(
            count_refused(alloc, 20, 20, 1, 1),
            Some(SifFault::Limit(41))
        )
    );
    assert!(rt; matches!(count_refused(alloc, 1, 1, 5, 5), Some(SifFault::Limit(5))));
    assert!(rt; matches!(count_refused(alloc, 1, 1, 4, 0), Some(SifFault::Limit(0))));
}
