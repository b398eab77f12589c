//! How far the bounds of a candidate's rows may go.

ghost use Rattle.std.specs.Prelude.{◌≡◌, ℕ, ◌-◌, ◌^◌, ◌<◌, ◌≤◌, length, min, pos};
ghost use Rattle.fx_math.specs.Words.{WidthFits};
ghost use Rattle.fx_block.specs.Candidate.{candidate_count, cap_of, most_width};
ghost use Rattle.fx_code.specs.NetRows.{bare_at};
ghost use Rattle.fx_block.specs.Formats.{bound_of, input_at};
ghost use Rattle.fx_totals.specs.Kept.{AreBounds, IsUpTo, bound_in, greatest_bound};
ghost use Rattle.fx_make.specs.Designs.{AreRowsOf};

use crate::targets::{inner_count, output};
use fx_eqs::PORTS;
use fx_files::Filter;
use fx_msb::GREATEST_BOUND;
use fx_quant::Design;

// How many inputs a filter has.
fn input_count(f: &Filter) -> usize
    ensures value { result ≡ length f.now.inputs }
    ensures few { result ≤ PORTS }
{
    f.inputs().len()
}

// The bound of the words of input `j`.
fn input_bound(f: &Filter, j: usize) -> i64
    requires { j < length f.now.inputs }
    ensures value { result ≡ (input_at f.now j).bound }
    ensures fits { IsUpTo greatest_bound result }
{
    f.input(j).bound
}

/// The bounds of the words of the inputs, 0 past them.
pub fn input_bounds(f: &Filter) -> [i64; PORTS]
    ensures value { bound_in result ≡ bound_of f.now }
    ensures fits { AreBounds result }
{
    let mut bounds = [0; PORTS];
    for j in 0..input_count(f) {
        bounds[j] = input_bound(f, j);
    }
    bounds
}

// The greatest number of so many bits.
fn greatest_of(bits: u8) -> u64
    requires { bits < 64 }
    ensures { result ≡ 2 ^ bits - 1 }
{
    (1 << bits) - 1
}

// The most bits of row `i` of a design: those of its output, or of an inner word.
fn most_width(f: &Filter, d: &Design, i: usize) -> u8
    requires rows { AreRowsOf f.now d.now }
    requires row { i < length d.now.rows }
    ensures value { result ≡ most_width f.now d.now.rows i }
    ensures fits { WidthFits result }
{
    let inner = inner_count(f, d);
    if i < inner {
        f.word().min(f.accumulator())
    } else {
        output(f, i - inner).width
    }
}

// Which bits of a sum of row `i` of a design are not shifted away, but for its sign.
fn sum_bits(f: &Filter, d: &Design, i: usize) -> u8
    requires rows { AreRowsOf f.now d.now }
    requires row { i < length d.now.rows }
    ensures value { result ≡ f.now.settings.accumulator - 1 - (bare_at d.now.rows i).shift }
    ensures high { result < 64 }
{
    f.accumulator() - 1 - d.shift(i)
}

// The lesser of two bounds, of which the first is one of a word of at most 32 bits.
fn lesser(word: u64, sum: u64) -> i64
    requires { word ≤ greatest_bound }
    ensures value { result ≡ pos (min word sum) }
    ensures fits { IsUpTo greatest_bound result }
{
    word.min(sum) as i64
}

// What the word and the accumulator of row `i` of a design take.
fn row_cap(f: &Filter, d: &Design, i: usize) -> i64
    requires rows { AreRowsOf f.now d.now }
    requires row { i < length d.now.rows }
    ensures value { result ≡ pos (cap_of f.now d.now.rows i) }
    ensures fits { IsUpTo greatest_bound result }
{
    let word = greatest_of(most_width(f, d, i) - 1);
    lesser(word, greatest_of(sum_bits(f, d, i)))
}

/// What the words and the accumulators of the rows take; the filter's own rows and those past them have the greatest
/// bound.
pub fn caps<const N: usize>(f: &Filter, d: &Design) -> [i64; N]
    requires rows { AreRowsOf f.now d.now }
    requires room { candidate_count f.now d.now.rows ≤ N }
    ensures value { (j : ℕ) → j < candidate_count f.now d.now.rows → bound_in result j ≡ cap_of f.now d.now.rows j }
    ensures fits { AreBounds result }
{
    let mut caps = [i64::from(GREATEST_BOUND); N];
    for i in 0..d.rows() {
        caps[i] = row_cap(f, d, i);
    }
    caps
}
