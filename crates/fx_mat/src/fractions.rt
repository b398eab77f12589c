ghost use Rattle.std.specs.Prelude.{◌≡◌, ◌+◌, ◌*◌, ◌<◌, IfOk};
ghost use Rattle.fx_mat.specs.Entries.{no_entries, put, put_column, transposed, IsZeroOutside};
ghost use Rattle.fx_mat.specs.Matrix.{entry_at};

use fx_nums::Frac;
use std::alloc::{AllocError, Global};
use std::marker::Model;

/// A matrix of fractions with R rows and C columns, row after row in one vector.
#[derive(Drop)]
pub struct FracMat<const R: usize, const C: usize> {
    items: Vec<Frac>,
}

impl<const R: usize, const C: usize> Model for FracMat<R, C> {
    ghost use Rattle.std.specs.Prelude.{◌≡◌, ◌*◌, length};
    ghost use Rattle.fx_mat.specs.Matrix.{Matrix};

    ghost Value = { Matrix };

    ghost view = { λ m. record { rows = R; columns = C; entries = m.items.items } };

    ghost invariant = { λ m. length m.items.items ≡ R * C };
}

impl<const R: usize, const C: usize> FracMat<R, C> {
    /// A matrix whose entries are all 0 over 10^0. Its error is want of memory.
    #[tactic(auto, using(crate::proofs::Places::all_zero))]
    pub fn new(alloc: Global) -> Result<Self, AllocError>
        ensures { IfOk result (λ m. entry_at m ≡ no_entries) }
    {
        // More entries than a number counts are more than memory holds.
        let count = R.checked_mul(C).ok_or(AllocError)?;
        let items = vec![in alloc; Frac::zero(); count]?;
        Ok(FracMat { items })
    }

    /// The entry of row `i`, below R, and column `j`, below C, as it was set.
    #[tactic(auto, using(crate::proofs::Places::entry_inside, crate::proofs::Places::read_same))]
    pub fn get(&self, i: usize, j: usize) -> Frac
        requires row { i < R }
        requires column { j < C }
        ensures { result ≡ entry_at self.now i j }
    {
        let entry = &self.items[i * C + j];
        *entry
    }

    /// Sets the entry of row `i`, below R, and column `j`, below C. The other entries stay.
    #[tactic(auto, using(crate::proofs::Places::written_in))]
    pub fn set(&mut self, i: usize, j: usize, c: Frac)
        requires row { i < R }
        requires column { j < C }
        ensures { entry_at self.new ≡ put i j c (entry_at self.old) }
    {
        self.items[i * C + j] = c;
    }

    /// Sets each entry to 0 over 10^0.
    #[tactic(auto, using(crate::proofs::Places::all_zero))]
    pub fn clear(&mut self)
        ensures { entry_at self.new ≡ no_entries }
    {
        self.items.fill(Frac::zero());
    }

    // Sets column i of the other matrix to row i of this one.
    fn row_into_column(&self, i: usize, out: &mut FracMat<C, R>)
        requires { i < R }
        ensures { entry_at out.new ≡ put_column i (entry_at self.now i) (entry_at out.old) }
    {
        for j in 0..C {
            out.set(j, i, self.get(i, j));
        }
        entries_outside_are_zero(self);
        entries_outside_are_zero(out);
    }

    /// Sets each entry of the other matrix to this one's with row and column exchanged.
    pub fn transpose_into(&self, out: &mut FracMat<C, R>)
        ensures { entry_at out.new ≡ transposed (entry_at self.now) }
    {
        for i in 0..R {
            self.row_into_column(i, out);
        }
        entries_outside_are_zero(self);
        entries_outside_are_zero(out);
    }
}

/// A law with nothing to run: what is read outside a matrix is zero.
pub fn entries_outside_are_zero<const R: usize, const C: usize>(m: &FracMat<R, C>)
    ensures { IsZeroOutside R C (entry_at m.now) }
{
    let _ = &m.items;
}
