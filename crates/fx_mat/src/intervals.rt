ghost use Rattle.std.specs.Prelude.{◌≡◌, ◌↔◌, ℕ, ◌^◌, ◌<◌, ◌≤◌, IfOk, IsTrue, unsigned_abs};
ghost use Rattle.fx_nums.specs.Interval.{point};
ghost use Rattle.fx_mat.specs.Intervals.{
  EntriesFit,
  IsProductBelow,
  IsRowByColumn,
  NoneOutside,
  RowFits,
  interval_at,
  no_intervals,
  put_interval,
  with_multiples,
};
ghost use Rattle.fx_mat.specs.Matrix.{entry_at};

use crate::fractions::FracMat;
use fx_nums::{INTERVAL_BITS, Iv, OPERAND_BITS, SUMMAND_BITS};
use std::alloc::{AllocError, Global};
use std::marker::Model;

/// The most terms of an entry of a product.
pub const PRODUCT_TERMS: usize = 64;

/// The number that the limit of products is.
pub fn product_terms_are_these()
    ensures { PRODUCT_TERMS ≡ 64 }
{}

/// A matrix of intervals with R rows and C columns, row after row in one vector.
#[derive(Drop)]
pub struct IvMat<const R: usize, const C: usize> {
    items: Vec<Iv>,
}

impl<const R: usize, const C: usize> Model for IvMat<R, C> {
    ghost use Rattle.std.specs.Prelude.{◌≡◌, ◌*◌, length};
    ghost use Rattle.fx_mat.specs.Intervals.{IntervalMatrix};

    ghost Value = { IntervalMatrix };

    ghost view = { λ m. record { rows = R; columns = C; entries = m.items.items } };

    ghost invariant = { λ m. length m.items.items ≡ R * C };
}

impl<const R: usize, const C: usize> IvMat<R, C> {
    /// A matrix whose entries are all 0. Its error is want of memory.
    #[tactic(auto, using(crate::proofs::IntervalPlaces::all_zero))]
    pub fn new(alloc: Global) -> Result<Self, AllocError>
        ensures { IfOk result (λ m. interval_at m ≡ no_intervals) }
    {
        // More entries than a number counts are more than memory holds.
        let count = R.checked_mul(C).ok_or(AllocError)?;
        let items = vec![in alloc; Iv::point(0); count]?;
        Ok(IvMat { items })
    }

    /// The entry of row `i`, below R, and column `j`, below C.
    #[tactic(auto, using(crate::proofs::IntervalPlaces::entry_inside, crate::proofs::IntervalPlaces::read_same))]
    pub fn get(&self, i: usize, j: usize) -> Iv
        requires row { i < R }
        requires column { j < C }
        ensures { result ≡ interval_at self.now i j }
    {
        let entry = &self.items[i * C + j];
        *entry
    }

    /// Sets the entry of row `i`, below R, and column `j`, below C. The other entries stay.
    #[tactic(auto, using(crate::proofs::IntervalPlaces::written_in))]
    pub fn set(&mut self, i: usize, j: usize, v: Iv)
        requires row { i < R }
        requires column { j < C }
        ensures { interval_at self.new ≡ put_interval i j v (interval_at self.old) }
    {
        self.items[i * C + j] = v;
    }

    /// Sets each entry to 0.
    #[tactic(auto, using(crate::proofs::IntervalPlaces::all_zero))]
    pub fn clear(&mut self)
        ensures { interval_at self.new ≡ no_intervals }
    {
        self.items.fill(Iv::point(0));
    }

    /// Whether each entry of row `i`, below R, fits the bits, at most 120.
    pub fn row_fits(&self, i: usize, bits: u32) -> bool
        requires row { i < R }
        requires bits { bits ≤ INTERVAL_BITS }
        ensures { IsTrue result ↔ RowFits bits C (interval_at self.now i) }
    {
        for j in 0..C {
            if !self.get(i, j).fits(bits) {
                return false;
            }
        }
        true
    }

    /// Adds to each entry of row `i` the interval from `floor_mul(p, c)` to `ceil_mul(p, c)`, c being the entry of the
    /// same column in row `q` of the other matrix.
    pub fn add_multiple<const Q: usize>(&mut self, i: usize, p: i128, m: &FracMat<Q, C>, q: usize)
        requires row { i < R }
        requires other_row { q < Q }
        requires factor { unsigned_abs p < 2 ^ OPERAND_BITS }
        requires small { RowFits SUMMAND_BITS C (interval_at self.old i) }
        ensures { interval_at self.new ≡ with_multiples i p (entry_at m.now q) C (interval_at self.old) }
    {
        for j in 0..C {
            let sum = self.get(i, j).add(Iv::multiple(p, m.get(q, j)));
            self.set(i, j, sum);
        }
        intervals_outside_are_zero(self);
    }

    // The product of row i with column d of the other matrix.
    fn product_entry<const D: usize>(&self, m: &FracMat<C, D>, i: usize, d: usize) -> Iv
        requires row { i < R }
        requires column { d < D }
        requires few { C ≤ PRODUCT_TERMS }
        requires small { EntriesFit OPERAND_BITS R C (interval_at self.now) }
        ensures { IsRowByColumn C (interval_at self.now i) (λ k. entry_at m.now k d) result }
    {
        let mut sum = Iv::point(0);
        for k in 0..C {
            sum = sum.add(self.get(i, k).scale(m.get(k, d)));
        }
        sum
    }

    // Sets row i of the last matrix to the products of row i of this one with the columns of the other.
    fn row_into<const D: usize>(&self, m: &FracMat<C, D>, i: usize, out: &mut IvMat<R, D>)
        requires row { i < R }
        requires few { C ≤ PRODUCT_TERMS }
        requires small { EntriesFit OPERAND_BITS R C (interval_at self.now) }
        ensures done { (d : ℕ) → d < D →
            IsRowByColumn C (interval_at self.now i) (λ k. entry_at m.now k d) (interval_at out.new i d) }
        ensures left { (p d : ℕ) → (p ≡ i → ⊥) → interval_at out.new p d ≡ interval_at out.old p d }
    {
        for d in 0..D {
            let entry = self.product_entry(m, i, d);
            out.set(i, d, entry);
        }
    }

    /// Sets each entry of the last matrix to the product of a row of this one with a column of the other: the sum of
    /// the entries, scaled and rounded outward. Each of these fits 88 bits, and they are at most 64.
    pub fn mul_into<const D: usize>(&self, m: &FracMat<C, D>, out: &mut IvMat<R, D>)
        requires few { C ≤ PRODUCT_TERMS }
        requires small { EntriesFit OPERAND_BITS R C (interval_at self.now) }
        ensures { IsProductBelow R D C (interval_at self.now) (entry_at m.now) (interval_at out.new) }
    {
        for i in 0..R {
            self.row_into(m, i, out);
        }
    }
}

/// A law with nothing to run: what is read outside a matrix is zero.
pub fn intervals_outside_are_zero<const R: usize, const C: usize>(m: &IvMat<R, C>)
    ensures { NoneOutside R C (interval_at m.now) }
{
    let _ = &m.items;
}
