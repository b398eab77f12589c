//! A block of moments that serves, and the enclosures over it.

ghost use Rattle.std.specs.Prelude.{◌≡◌, ◌^◌, ◌<◌, IfOk, length, unsigned_abs};
ghost use Rattle.fx_eqs.specs.Expanded.{row_place};
ghost use Rattle.fx_net.specs.Tables.{net_of};
ghost use Rattle.fx_nums.specs.declared.limits.TheConstants.{INTERVAL_BITS};
ghost use Rattle.fx_totals.specs.Kept.{AreBounds, bound_in};
ghost use Rattle.fx_gain.specs.Enclosing.{
  EndsFit,
  enclosure,
  high_end,
  low_end,
  output_row,
  output_start,
  rows_alone,
  worst_words,
};
ghost use Rattle.fx_gain.specs.Lengths.{original_count, original_net};
ghost use Rattle.fx_gain.specs.Rows.{IsBlock};
ghost use Rattle.fx_gain.specs.Weights.{AreWeights};

use crate::bounds::{RowBounds, bound_of, bounds_alone};
use crate::ends::{interval_of, less_widths};
use crate::laws::enclosures_hold;
use crate::weights::{least_sum, weights_for, worst_words};
use fx_block::raises_find_the_least;
use fx_eqs::{Eqs, Source, common_divides_each, systems_fit};
use fx_files::{Filter, filters_fit};
use fx_net::{Net, nets_fit};
use fx_nums::Iv;
use fx_sweep::Sweep;
use fx_totals::Totals;
use std::alloc::{AllocError, Global};

// The first row of the equations in their net: so many rows before it hold inputs.
fn first_row(eqs: &Eqs) -> usize
    ensures { result ≡ row_place eqs.now 0 }
{
    let mut next = 0;
    for j in 0..eqs.inputs() {
        next += eqs.greatest_lag(Source::In(j as u8));
    }
    next
}

/// A filter, the net of its own equations, and the totals of their rows over a length that serves.
#[derive(Drop)]
pub struct Block<'a, const N: usize> {
    pub filter: &'a Filter,
    pub net: &'a Net<N>,
    pub totals: &'a Totals<N>,
    pub moments: u16,
    ghost serves: { IsBlock filter.now (net_of net.now) totals.now moments },
}

impl<'a, const N: usize> Block<'a, N> {
    // The row of output `o` in the net.
    fn output_row(&self, o: usize) -> usize
        requires { o < length self.now.filter.now.outputs }
        ensures value { result ≡ output_row self.now.filter.now o }
        ensures inside { result < original_count self.now.filter.now }
    {
        let eqs = self.filter.eqs();
        systems_fit(eqs);
        filters_fit(self.filter);
        first_row(eqs) + usize::from(self.filter.output(o).row)
    }

    /// The weights of the inputs for output `o`. Its error is want of memory.
    pub fn weights(
        &self,
        alloc: Global,
        sweep: &mut Sweep<N>,
        o: usize,
    ) -> Result<Vec<Iv>, AllocError>
        requires { o < length self.now.filter.now.outputs }
        ensures { IfOk result (λ ws. AreWeights (net_of self.now.net.now) (output_start self.now.filter.now o)
            self.now.moments ws.items) }
    {
        nets_fit(self.net);
        weights_for(alloc, self.net, sweep, self.output_row(o), self.moments)
    }

    // Raises the bounds of the rows for words of input `j` alone.
    fn raise(&self, rows: &mut RowBounds<N>, j: usize)
        requires { j < length self.now.filter.now.inputs }
        ensures { bound_in rows.new
            ≡ rows_alone (net_of self.now.net.now) self.now.filter.now self.now.moments j }
    {
        rows.raise(self.totals, self.filter, j);
    }

    // The total of the row of output `o`, for words of input `j` alone.
    fn high_end(&self, x: &[i64], o: usize, j: usize) -> i128
        requires output { o < length self.now.filter.now.outputs }
        requires input { j < length self.now.filter.now.inputs }
        requires count { length x.now ≡ N }
        requires rows { AreBounds x.now }
        requires alone { bound_in x.now
            ≡ rows_alone (net_of self.now.net.now) self.now.filter.now self.now.moments j }
        ensures { result ≡ high_end (net_of self.now.net.now) self.now.filter.now self.now.moments o j }
    {
        let row = self.output_row(o);
        self.totals.total(row, &bounds_alone(self.filter, j), x)
    }

    // What words of input `j` add for certain to output `o`, less what was cut off the weights.
    fn low_end(&self, x: &[i64], weights: &[Iv], o: usize, j: usize) -> i128
        requires output { o < length self.now.filter.now.outputs }
        requires input { j < length self.now.filter.now.inputs }
        requires weights { AreWeights (net_of self.now.net.now) (output_start self.now.filter.now o) self.now.moments
            weights.now }
        requires count { length x.now ≡ N }
        requires rows { AreBounds x.now }
        requires alone { bound_in x.now
            ≡ rows_alone (net_of self.now.net.now) self.now.filter.now self.now.moments j }
        ensures value { result ≡ low_end (net_of self.now.net.now) self.now.filter.now self.now.moments o j }
        ensures fits { unsigned_abs result < 2 ^ INTERVAL_BITS }
    {
        filters_fit(self.filter);
        let widths = self.totals.width_part(self.output_row(o), x);
        less_widths(
            least_sum(weights, j, self.moments),
            bound_of(self.filter, j),
            widths,
        )
    }

    // A law with nothing to run: the ends are in order, and the high one fits an interval.
    fn ends_fit(&self, x: &[i64], o: usize, j: usize)
        requires output { o < length self.now.filter.now.outputs }
        requires input { j < length self.now.filter.now.inputs }
        requires original { net_of self.now.net.now ≡ original_net self.now.filter.now }
        requires rows { AreBounds x.now }
        requires alone { bound_in x.now
            ≡ rows_alone (net_of self.now.net.now) self.now.filter.now self.now.moments j }
        ensures { EndsFit (net_of self.now.net.now) self.now.filter.now self.now.moments o j }
    {
        filters_fit(self.filter);
        systems_fit(self.filter.eqs());
        raises_find_the_least();
        common_divides_each();
        enclosures_hold(self.filter);
    }

    /// The enclosure of how far output `o` goes on words of input `j` alone, by the weights for that output.
    pub fn enclosure(&self, rows: &mut RowBounds<N>, weights: &[Iv], o: usize, j: usize) -> Iv
        requires output { o < length self.now.filter.now.outputs }
        requires input { j < length self.now.filter.now.inputs }
        requires weights { AreWeights (net_of self.now.net.now) (output_start self.now.filter.now o) self.now.moments
            weights.now }
        requires original { net_of self.now.net.now ≡ original_net self.now.filter.now }
        ensures { result ≡ enclosure (net_of self.now.net.now) self.now.filter.now self.now.moments o j }
    {
        self.raise(rows, j);
        let x = rows.x();
        self.ends_fit(x, o, j);
        interval_of(self.low_end(x, weights, o, j), self.high_end(x, o, j))
    }

    /// The words of input `j` that reach the low end for output `o`, by the weights for that output. Its error is want
    /// of memory.
    pub fn worst_words(
        &self,
        alloc: Global,
        weights: &[Iv],
        o: usize,
        j: usize,
    ) -> Result<Vec<i64>, AllocError>
        requires input { j < length self.now.filter.now.inputs }
        requires weights { AreWeights (net_of self.now.net.now) (output_start self.now.filter.now o) self.now.moments
            weights.now }
        ensures { IfOk result (λ ws. ws.items
            ≡ worst_words (net_of self.now.net.now) self.now.filter.now self.now.moments o j) }
    {
        filters_fit(self.filter);
        let words = worst_words(alloc, weights, j, bound_of(self.filter, j), self.moments)?;
        Ok(words)
    }
}
