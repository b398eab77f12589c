//! Matrices of fractions and of intervals.
use fx_mat::{FracMat, IvMat};
use fx_nums::{Den, Frac, Iv};
use std::alloc::{AllocError, Global};
use std::test::Fail;

fn tenths(num: i64) -> Frac {
    Frac::new(num, Den::Ten(1)).unwrap_or(Frac::one())
}

// 0, 1, 2 and 10, 11, 12 tenths.
fn two_by_three(alloc: Global) -> Result<FracMat<2, 3>, AllocError> {
    let mut m = FracMat::new(alloc)?;
    for j in 0..3 {
        m.set(0, j, tenths(j as i64));
        m.set(1, j, tenths(10 + j as i64));
    }
    Ok(m)
}

type Rows = [[i64; 3]; 2];

fn numerators(m: &FracMat<2, 3>) -> Rows {
    let mut all = [[0; 3]; 2];
    for j in 0..3 {
        all[0][j] = m.get(0, j).num();
        all[1][j] = m.get(1, j).num();
    }
    all
}

// A matrix as it is set, with one entry changed, and cleared.
fn fractions_kept(alloc: Global) -> Result<[Rows; 3], AllocError> {
    let mut m = two_by_three(alloc)?;
    let set = numerators(&m);
    m.set(1, 0, tenths(-7));
    let changed = numerators(&m);
    m.clear();
    Ok([set, changed, numerators(&m)])
}

#[test]
fn fractions_are_kept(rt: HostRuntime) -> Result<(), Fail> {
    assert!(rt;
        fractions_kept(rt.alloc())?
            == [
                [[0, 1, 2], [10, 11, 12]],
                [[0, 1, 2], [-7, 11, 12]],
                [[0; 3]; 2]
            ]
    );
    Ok(())
}

// The rows of the matrix with rows and columns exchanged.
fn turned_rows(alloc: Global) -> Result<[[i64; 2]; 3], AllocError> {
    let m = two_by_three(alloc)?;
    let mut turned: FracMat<3, 2> = FracMat::new(alloc)?;
    m.transpose_into(&mut turned);
    let mut rows = [[0; 2]; 3];
    for i in 0..3 {
        rows[i] = [turned.get(i, 0).num(), turned.get(i, 1).num()];
    }
    Ok(rows)
}

#[test]
fn rows_become_columns(rt: HostRuntime) -> Result<(), Fail> {
    assert!(rt; turned_rows(rt.alloc())? == [[0, 10], [1, 11], [2, 12]]);
    Ok(())
}

// A matrix of intervals with one entry: its magnitude before, set and cleared, and which bits its row fits.
fn intervals_kept(alloc: Global) -> Result<([i128; 3], [bool; 3]), AllocError> {
    let mut m: IvMat<2, 2> = IvMat::new(alloc)?;
    let before = m.get(1, 0).magnitude();
    m.set(1, 0, Iv::point(-(1 << 90)));
    let set = m.get(1, 0).magnitude();
    let fits = [m.row_fits(0, 1), m.row_fits(1, 91), m.row_fits(1, 90)];
    m.clear();
    Ok(([before, set, m.get(1, 0).magnitude()], fits))
}

#[test]
fn intervals_are_kept(rt: HostRuntime) -> Result<(), Fail> {
    assert!(rt; intervals_kept(rt.alloc())? == ([0, 1 << 90, 0], [true, true, false]));
    Ok(())
}

type Ends = [(i128, i128); 3];

fn ends(m: &IvMat<1, 3>) -> Ends {
    let mut all = [(0, 0); 3];
    for j in 0..3 {
        let entry = m.get(0, j);
        all[j] = (entry.lo(), entry.hi());
    }
    all
}

// 0, 0 and 100, less seven times the second row.
fn multiples_added(alloc: Global) -> Result<Ends, AllocError> {
    let other = two_by_three(alloc)?;
    let mut m: IvMat<1, 3> = IvMat::new(alloc)?;
    m.set(0, 2, Iv::point(100));
    m.add_multiple(0, -7, &other, 1);
    Ok(ends(&m))
}

// The row from -5 to 11 and 3, times the matrix.
fn product(alloc: Global) -> Result<Ends, AllocError> {
    let m = two_by_three(alloc)?;
    let mut left: IvMat<1, 2> = IvMat::new(alloc)?;
    left.set(0, 0, Iv::point(-5).hull(Iv::point(11)));
    left.set(0, 1, Iv::point(3));
    let mut out: IvMat<1, 3> = IvMat::new(alloc)?;
    left.mul_into(&m, &mut out);
    Ok(ends(&out))
}

#[test]
fn multiples_and_products(rt: HostRuntime) -> Result<(), Fail> {
    // -7, -7.7 and 100 - 8.4
    assert!(rt; multiples_added(rt.alloc())? == [(-7, -7), (-8, -7), (91, 92)]);
    // 0 and 3; from -0.5 to 1.1 and 3.3; from -1 to 2.2 and 3.6
    assert!(rt; product(rt.alloc())? == [(3, 3), (2, 6), (2, 7)]);
    Ok(())
}
