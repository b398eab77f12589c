//! Bounds of rows, for words of one input alone.

ghost use Rattle.std.specs.Prelude.{◌≡◌, ◌<◌, ℕ, List, length, pos, replicate};
ghost use Rattle.fx_eqs.specs.declared.limits.TheConstants.{PORTS};
ghost use Rattle.fx_net.specs.Net.{Net as AnyNet};
ghost use Rattle.fx_sweep.specs.declared.target.Target.{Target as AnyTarget};
ghost use Rattle.fx_totals.specs.Filled.{Filled, length_in};
ghost use Rattle.fx_totals.specs.Kept.{AreBounds, IsUpTo, bound_in, greatest_bound};
ghost use Rattle.fx_block.specs.Formats.{bound_of};
ghost use Rattle.fx_block.specs.Told.{Tells};
ghost use Rattle.fx_gain.specs.Lengths.{bound_alone, raises_up};

use fx_block::{Least, least_bounds};
use fx_eqs::PORTS;
use fx_files::{Filter, filters_fit};
use fx_msb::GREATEST_BOUND;
use fx_totals::{Totals, totals_fit};
use std::alloc::{AllocError, Global};
use std::marker::Model;

/// Bounds of N rows, and what is needed to raise them.
#[derive(Drop)]
pub struct RowBounds<const N: usize> {
    caps: Vec<i64>,
    x: Vec<i64>,
    scratch: Vec<i64>,
}

impl<const N: usize> Model for RowBounds<N> {
    ghost use Rattle.std.specs.Prelude.{List, ℤ};
    ghost use Rattle.fx_gain.specs.Rows.{RowsFit};

    ghost Value = { List ℤ };

    ghost view = { λ b. b.x.items };

    ghost invariant = { λ b. RowsFit N b.caps.items b.x.items b.scratch.items };
}

/// The bound of input `j`.
pub fn bound_of(f: &Filter, j: usize) -> i64
    requires { j < length f.now.inputs }
    ensures value { result ≡ pos (bound_of f.now j) }
    ensures fits { IsUpTo greatest_bound result }
{
    f.input(j).bound
}

// A bound of 0 for each input.
fn no_bounds() -> [i64; PORTS]
    ensures { result ≡ replicate PORTS (pos 0) }
{
    [0; PORTS]
}

/// The bounds of the inputs' words where those of input `j` are alone.
pub fn bounds_alone(f: &Filter, j: usize) -> [i64; PORTS]
    requires { j < length f.now.inputs }
    ensures value { bound_in result ≡ bound_alone f.now j }
    ensures fits { AreBounds result }
{
    filters_fit(f);
    let mut bounds = no_bounds();
    bounds[j] = bound_of(f, j);
    bounds
}

impl<const N: usize> RowBounds<N> {
    /// Bounds of 0. Its error is want of memory.
    pub fn new(alloc: Global) -> Result<RowBounds<N>, AllocError> {
        Ok(RowBounds {
            caps: vec![in alloc; i64::from(GREATEST_BOUND); N]?,
            x: vec![in alloc; 0; N]?,
            scratch: vec![in alloc; 0; N]?,
        })
    }

    /// Raises them from 0, for words of input `j` alone, up to `GREATEST_BOUND`. The first `totals.rows()` filled
    /// targets are the rows.
    pub fn raise(&mut self, totals: &Totals<N>, f: &Filter, j: usize) -> Least
        requires { j < length f.now.inputs }
        ensures { (net : AnyNet) (targets : List AnyTarget) (lengths : List ℕ) →
            Filled totals.now net targets lengths →
            Tells (raises_up net totals.now.leading (length_in lengths) (bound_alone f.now j)) result (bound_in self.new) }
    {
        totals_fit(totals);
        let bounds = bounds_alone(f, j);
        least_bounds(totals, &bounds, &self.caps, &mut self.x, &mut self.scratch)
    }

    /// Them: N numbers.
    pub fn x(&self) -> &[i64]
        ensures value { result.now ≡ self.now }
        ensures count { length result.now ≡ N }
        ensures fit { AreBounds result.now }
    {
        &self.x
    }
}
