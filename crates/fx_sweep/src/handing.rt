//! How the weights of rows are handed to what they read.

ghost use Rattle.std.specs.Prelude.{◌≡◌, ◌≢◌, ℕ, ◌+◌, ◌*◌, ◌<◌, ◌≤◌, length, unsigned_abs};
ghost use Rattle.fx_cross.specs.Table.{entry_at};
ghost use Rattle.fx_nums.specs.Arithmetic.{multiple};
ghost use Rattle.fx_nums.specs.Interval.{IntervalFits, plus, point};
ghost use Rattle.fx_sweep.specs.Steps.{AreNarrow, IsNarrow, greatest, product_apart, product_bound, with_multiples};
ghost use Rattle.fx_sweep.specs.Swept.{interval_in};
ghost use Rattle.fx_sweep.specs.Weights.{taken};

use fx_cross::{Cross, entries_have_places};
use fx_eqs::PORTS;
use fx_net::LARGEST_NET;
use fx_nums::{Frac, SUMMAND_BITS};
use fx_ratio::{Ratios, Span};
use std::alloc::{AllocError, Global};

// The ratios of a net's coefficients, table by table.
#[derive(Drop)]
pub struct NetRatios {
    pub now: Ratios,
    pub old: Ratios,
    pub inputs: Ratios,
}

impl NetRatios {
    // Room for those of a net with so many rows. Its error is want of memory.
    pub fn new(alloc: Global, rows: usize) -> Result<NetRatios, AllocError>
        requires { rows ≤ LARGEST_NET }
    {
        Ok(NetRatios {
            now: Ratios::new(alloc, rows * rows)?,
            old: Ratios::new(alloc, rows * rows)?,
            inputs: Ratios::new(alloc, rows * PORTS)?,
        })
    }
}

// Adds the multiple of a weight, the low end of a row's interval, by the coefficient at a place of a table to one
// interval.
#[inline(always)]
fn add_multiple(at: &mut [Span], j: usize, row: Span, coef: Frac, place: usize, ratios: &mut Ratios)
    requires place { j < length at.old }
    requires weight { unsigned_abs row.lo ≤ greatest }
    requires room { IntervalFits (interval_in at.old j) SUMMAND_BITS }
    ensures count { length at.new ≡ length at.old }
    ensures here { interval_in at.new j ≡ plus (interval_in at.old j) (multiple row.lo coef) }
    ensures others { (k : ℕ) → k ≢ j → interval_in at.new k ≡ interval_in at.old k }
    ensures narrow { (b w : ℕ) → IsNarrow b w (interval_in at.old j) →
        IsNarrow (b + product_bound) (w + product_apart) (interval_in at.new j) }
{
    let product = ratios.multiple(place, row.lo(), coef);
    at[j] = at[j].add(product);
}

// Adds the multiples of a weight, the low end of a row's interval, by the coefficients of row `i` of a table.
#[inline(never)]
fn add_links(table: &Cross, i: usize, row: Span, at: &mut [Span], ratios: &mut Ratios)
    requires inside { i < table.now.rows }
    requires columns { table.now.columns ≤ length at.old }
    requires weight { unsigned_abs row.lo ≤ greatest }
    requires room { (j : ℕ) → IntervalFits (interval_in at.old j) SUMMAND_BITS }
    ensures count { length at.new ≡ length at.old }
    ensures value { interval_in at.new ≡ with_multiples row.lo (entry_at table.now i) (interval_in at.old) }
    ensures narrow { (b w : ℕ) → AreNarrow b w at.old → AreNarrow (b + product_bound) (w + product_apart) at.new }
{
    entries_have_places(table);
    for link in table.row(i) {
        add_multiple(
            at,
            usize::from(link.index),
            row,
            link.coef,
            link.place as usize,
            ratios,
        );
    }
}

// The same, with no call where the weight is 0.
#[inline(always)]
pub fn add_row(table: &Cross, i: usize, row: Span, at: &mut [Span], ratios: &mut Ratios)
    requires inside { i < table.now.rows }
    requires columns { table.now.columns ≤ length at.old }
    requires weight { unsigned_abs row.lo ≤ greatest }
    requires room { (j : ℕ) → IntervalFits (interval_in at.old j) SUMMAND_BITS }
    ensures count { length at.new ≡ length at.old }
    ensures value { interval_in at.new ≡ with_multiples row.lo (entry_at table.now i) (interval_in at.old) }
    ensures narrow { (b w : ℕ) → AreNarrow b w at.old → AreNarrow (b + product_bound) (w + product_apart) at.new }
{
    if row.lo() == 0 {
        return;
    }
    add_links(table, i, row, at, ratios);
}

// Sets intervals to what the rows of a table take with their weights, the low ends of their intervals.
pub fn hand_out(table: &Cross, weights: &[Span], at: &mut [Span], ratios: &mut Ratios)
    requires rows { length weights.now ≡ table.now.rows }
    requires few { length weights.now ≤ LARGEST_NET }
    requires columns { table.now.columns ≤ length at.old }
    requires weights { (i : ℕ) → unsigned_abs (interval_in weights.now i).lo ≤ greatest }
    ensures count { length at.new ≡ length at.old }
    ensures value { interval_in at.new
        ≡ (λ j. taken (length weights.now) (interval_in weights.now) (λ i. entry_at table.now i j)) }
    ensures narrow { AreNarrow (length weights.now * product_bound) (length weights.now * product_apart) at.new }
{
    at.fill(Span::point(0));
    for i in 0..weights.len() {
        add_row(table, i, weights[i], at, ratios);
    }
}
