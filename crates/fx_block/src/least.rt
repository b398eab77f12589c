//! The least bounds of rows that serve for all time.

ghost use Rattle.std.specs.Prelude.{
  ◌≡◌,
  ◌↔◌,
  ℕ,
  ◌-◌,
  ◌^◌,
  ◌<◌,
  ◌≤◌,
  ◌==◌,
  ◌≢◌,
  IfSome,
  nat_lt,
  not,
  true,
  length,
  List,
  pos,
  ◌*ℤ◌,
  ◌≤ℤ◌,
  unsigned_abs,
};
ghost use Rattle.fx_math.specs.Division.{ceil_div};
ghost use Rattle.fx_net.specs.Net.{Net as AnyNet};
ghost use Rattle.fx_nums.specs.declared.limits.TheConstants.{SCALE_BITS};
ghost use Rattle.fx_sweep.specs.Target.{one};
ghost use Rattle.fx_sweep.specs.declared.target.Target.{Target as AnyTarget};
ghost use Rattle.fx_totals.specs.AllTime.{ServesNext};
ghost use Rattle.fx_totals.specs.Filled.{Filled, length_in};
ghost use Rattle.fx_totals.specs.Kept.{
  AreBounds,
  AreUpTo,
  IsUpTo,
  bound_in,
  greatest_bound,
  greatest_total,
};
ghost use Rattle.fx_block.specs.Least.{AllServe, AreLeastBounds};
ghost use Rattle.fx_block.specs.Raising.{OverHasNone, RestIsLeast, ended_by, first_row, least_by_raises, raises_by};
ghost use Rattle.fx_block.specs.Raising.Raises.{Slow as SlowOf};
ghost use Rattle.fx_block.specs.declared.least.Least.TheVariants.{Over as ToldOver, Rest as ToldRest, Slow as ToldSlow};
ghost use Rattle.fx_sweep.specs.Swept.{whole_in};
ghost use Rattle.fx_block.specs.Told.{Tells, is_over, is_slow, kept_raise};

use fx_eqs::PORTS;
use fx_net::LARGEST_NET;
use fx_nums::SCALE_BITS;
use fx_totals::{TargetRange, Totals, totals_fit, totals_grow};

/// So many raises of all bounds are tried.
pub const MOST_RAISES: u32 = 64;

/// How raises of all bounds from 0 end. Bounds are words; rows are numbered from 0.
#[derive(Clone, Copy, PartialEq, Eq)]
pub enum Least {
    /// A raise changed nothing: the bounds are the least that serve.
    Rest,
    /// A raised bound passes its cap: no bounds within the caps serve.
    Over {
        /// The first such row.
        row: u8,
        /// Its raised bound.
        value: i128,
        /// Its cap.
        cap: i64,
    },
    /// `MOST_RAISES` raises each changed something, and passed no cap.
    Slow {
        /// The first row that the last raise changed.
        row: u8,
        /// Its bound before that raise.
        before: i64,
        /// Its bound after it.
        after: i64,
    },
}

/// Why a length does not do.
#[derive(Clone, Copy)]
pub enum LengthWhy {
    /// A target meets a range within the length.
    Range(TargetRange),
    /// Raises of the bounds do not come to rest.
    Bounds(Least),
}

impl Least {
    // Whether raises were still changing the bounds.
    fn is_slow(&self) -> bool
        ensures { result ≡ is_slow self.now }
    {
        matches!(self, Least::Slow { .. })
    }
}

/// The number that the limit of raises is.
pub fn most_raises_is_this()
    ensures { MOST_RAISES ≡ 64 }
{}

/// A law with nothing to run: where raises of all bounds from 0 come to rest, the bounds are the least that serve;
/// where a raised bound passes its cap, no bounds within the caps serve.
pub fn raises_find_the_least()
    ensures rest { RestIsLeast }
    ensures over { OverHasNone }
{
    totals_grow();
}

// Whether a total, times 2^64, is at most a bound.
fn is_at_most(total: i128, bound: i64) -> bool
    requires total { IsUpTo greatest_total total }
    requires bound { IsUpTo greatest_bound bound }
    ensures { (result ≡ true) ↔ (total ≤ℤ (bound *ℤ one)) }
{
    total <= i128::from(bound) << SCALE_BITS
}

// Whether it is at most the bound of a row.
fn is_within(total: i128, x: &[i64], j: usize) -> bool
    requires total { IsUpTo greatest_total total }
    requires row { j < length x.now }
    requires bounds { AreBounds x.now }
    ensures { (result ≡ true) ↔ (total ≤ℤ (pos (bound_in x.now j) *ℤ one)) }
{
    is_at_most(total, x[j])
}

/// Whether the bound of row `j` serves the next value too: whether its total is at most the bound times 2^64. The first
/// `t.rows()` filled targets are the rows, and `j` is one of them; bounds of words and of the N rows are 0 to
/// 2147483647.
pub fn holds<const N: usize>(t: &Totals<N>, bounds: &[i64; PORTS], x: &[i64], j: usize) -> bool
    requires row { j < N }
    requires filled { j < t.now.leading }
    requires bounds { AreBounds bounds.now }
    requires count { length x.now ≡ N }
    requires rows { AreBounds x.now }
    ensures { (net : AnyNet) (targets : List AnyTarget) (lengths : List ℕ) → Filled t.now net targets lengths →
        (result ≡ true) ↔ ServesNext net j (length_in lengths j) (bound_in bounds.now) (bound_in x.now) }
{
    totals_fit(t);
    is_within(t.total(j, bounds, x), x, j)
}

// A total over 2^64, rounded up.
fn rounded_up(total: i128) -> i128
    requires { IsUpTo greatest_total total }
    ensures value { result ≡ ceil_div total (2 ^ SCALE_BITS) }
    ensures fits { IsUpTo (2 ^ 62) result }
{
    -(-total >> SCALE_BITS)
}

// The same as a bound.
fn bound_of(total: i128) -> i64
    requires { IsUpTo greatest_total total }
    ensures value { result ≡ pos (unsigned_abs (ceil_div total (2 ^ SCALE_BITS))) }
    ensures fits { IsUpTo (2 ^ 62) result }
{
    rounded_up(total) as i64
}

// What a raise makes of the bound of row `j`: 0 past the first so many rows.
fn raised<const N: usize>(
    t: &Totals<N>,
    rows: usize,
    bounds: &[i64; PORTS],
    x: &[i64],
    j: usize,
) -> i64
    requires filled { rows ≤ t.now.leading }
    requires bounds { AreBounds bounds.now }
    requires count { length x.now ≡ N }
    requires rows { AreBounds x.now }
    ensures value { result ≡ pos (kept_raise t.now rows (bound_in bounds.now) (bound_in x.now) j) }
    ensures fits { IsUpTo (2 ^ 62) result }
{
    totals_fit(t);
    if j < rows {
        bound_of(t.total(j, bounds, x))
    } else {
        0
    }
}

// Puts a bound at a place.
fn put(at: &mut [i64], place: usize, bound: i64)
    requires { place < length at.old }
    ensures count { length at.new ≡ length at.old }
    ensures here { whole_in at.new place ≡ bound }
    ensures others { (k : ℕ) → k ≢ place → whole_in at.new k ≡ whole_in at.old k }
    ensures fits { (most : ℕ) → AreUpTo most at.old → IsUpTo most bound → AreUpTo most at.new }
{
    at[place] = bound;
}

// Raises all bounds at once, from those before.
fn raise<const N: usize>(
    t: &Totals<N>,
    rows: usize,
    bounds: &[i64; PORTS],
    x: &[i64],
    next: &mut [i64],
)
    requires filled { rows ≤ t.now.leading }
    requires inside { rows ≤ N }
    requires bounds { AreBounds bounds.now }
    requires count { length x.now ≡ N }
    requires rows { AreBounds x.now }
    requires room { length next.old ≡ N }
    ensures count { length next.new ≡ length next.old }
    ensures value { bound_in next.new ≡ kept_raise t.now rows (bound_in bounds.now) (bound_in x.now) }
    ensures fits { AreUpTo (2 ^ 62) next.new }
{
    next.fill(0);
    for j in 0..N {
        put(next, j, raised(t, rows, bounds, x, j));
    }
}

// The bound of a row.
fn bound_at(xs: &[i64], j: usize) -> u64
    requires { j < length xs.now }
    ensures { result ≡ bound_in xs.now j }
{
    xs[j].unsigned_abs()
}

// Whether the bound of a row passes its cap.
fn passes(caps: &[i64], next: &[i64], j: usize) -> bool
    requires caps { j < length caps.now }
    requires next { j < length next.now }
    ensures { result ≡ nat_lt (bound_in caps.now j) (bound_in next.now j) }
{
    bound_at(caps, j) < bound_at(next, j)
}

// Whether the bound of a row changed.
fn has_changed(x: &[i64], next: &[i64], j: usize) -> bool
    requires before { j < length x.now }
    requires next { j < length next.now }
    ensures { result ≡ not (bound_in next.now j == bound_in x.now j) }
{
    bound_at(next, j) != bound_at(x, j)
}

// The first row whose bound passes its cap.
fn first_over(rows: usize, caps: &[i64], next: &[i64]) -> Option<usize>
    requires caps { rows ≤ length caps.now }
    requires next { rows ≤ length next.now }
    ensures first { result ≡ first_row rows (λ j. nat_lt (bound_in caps.now j) (bound_in next.now j)) }
    ensures inside { IfSome result (λ j. j < rows) }
{
    for j in 0..rows {
        if passes(caps, next, j) {
            return Some(j);
        }
    }
    None
}

// The first row whose bound changed.
fn first_changed(rows: usize, x: &[i64], next: &[i64]) -> Option<usize>
    requires before { rows ≤ length x.now }
    requires next { rows ≤ length next.now }
    ensures first { result ≡ first_row rows (λ j. not (bound_in next.now j == bound_in x.now j)) }
    ensures inside { IfSome result (λ j. j < rows) }
{
    for j in 0..rows {
        if has_changed(x, next, j) {
            return Some(j);
        }
    }
    None
}

// A row whose bound passes its cap.
fn over_at(row: usize, caps: &[i64], next: &[i64]) -> Least
    requires row { row < LARGEST_NET }
    requires caps { row < length caps.now }
    requires next { row < length next.now }
    requires cap_sign { pos 0 ≤ℤ whole_in caps.now row }
    requires next_sign { pos 0 ≤ℤ whole_in next.now row }
    ensures { result ≡ ToldOver row (pos (bound_in next.now row)) (pos (bound_in caps.now row)) }
{
    Least::Over {
        row: row as u8,
        value: i128::from(next[row]),
        cap: caps[row],
    }
}

// A row that still changed.
fn slow_at(row: usize, x: &[i64], next: &[i64]) -> Least
    requires row { row < LARGEST_NET }
    requires before { row < length x.now }
    requires next { row < length next.now }
    requires before_sign { pos 0 ≤ℤ whole_in x.now row }
    requires next_sign { pos 0 ≤ℤ whole_in next.now row }
    ensures { result ≡ ToldSlow row (pos (bound_in x.now row)) (pos (bound_in next.now row)) }
{
    Least::Slow {
        row: row as u8,
        before: x[row],
        after: next[row],
    }
}

// How raises end with the one from `x` to `next`, where it is the last.
fn end_of(rows: usize, caps: &[i64], x: &[i64], next: &[i64]) -> Least
    requires few { rows ≤ LARGEST_NET }
    requires cap_count { rows ≤ length caps.now }
    requires before_count { rows ≤ length x.now }
    requires next_count { rows ≤ length next.now }
    requires caps { AreBounds caps.now }
    requires before { AreBounds x.now }
    requires next { AreUpTo (2 ^ 62) next.now }
    ensures tells { Tells (ended_by rows (bound_in caps.now) (bound_in x.now) (bound_in next.now) (λ j.
        SlowOf j (bound_in x.now j) (bound_in next.now j))) result (bound_in x.now) }
    ensures within { is_slow result ≡ true → (j : ℕ) → j < rows → bound_in next.now j ≤ bound_in caps.now j }
{
    match first_over(rows, caps, next) {
        Some(row) => over_at(row, caps, next),
        None => match first_changed(rows, x, next) {
            Some(row) => slow_at(row, x, next),
            None => Least::Rest,
        },
    }
}

// One raise from `x` to `next`, and how raises end with it, where it is the last.
fn raise_once<const N: usize>(
    t: &Totals<N>,
    rows: usize,
    bounds: &[i64; PORTS],
    caps: &[i64],
    x: &[i64],
    next: &mut [i64],
) -> Least
    requires filled { rows ≤ t.now.leading }
    requires inside { rows ≤ N }
    requires bounds { AreBounds bounds.now }
    requires caps { AreBounds caps.now }
    requires cap_count { length caps.now ≡ N }
    requires count { length x.now ≡ N }
    requires rows { AreBounds x.now }
    requires room { length next.old ≡ N }
    ensures count { length next.new ≡ length next.old }
    ensures value { bound_in next.new ≡ kept_raise t.now rows (bound_in bounds.now) (bound_in x.now) }
    ensures tells { Tells (raises_by (kept_raise t.now rows (bound_in bounds.now)) rows (bound_in caps.now) 0
        (bound_in x.now)) result (bound_in x.now) }
    ensures fits { is_slow result ≡ true → AreBounds next.new }
{
    totals_fit(t);
    raise(t, rows, bounds, x, next);
    end_of(rows, caps, x, next)
}

// Sets all bounds to 0.
fn clear(x: &mut [i64])
    ensures count { length x.new ≡ length x.old }
    ensures zero { (j : ℕ) → bound_in x.new j ≡ 0 }
    ensures fits { AreBounds x.new }
{
    x.fill(0);
}

/// Raises the bounds `x` of the rows from 0, all at once, each to its total over 2^64, rounded up, until a raise
/// changes nothing, a raised bound passes its cap, or `MOST_RAISES` raises have each changed something. The first
/// `t.rows()` filled targets are the rows. At rest `x` has the least bounds that serve, with 0 past the rows. Bounds of
/// words and caps are 0 to 2147483647; `caps`, `x` and `scratch` have N entries.
pub fn least_bounds<const N: usize>(
    t: &Totals<N>,
    bounds: &[i64; PORTS],
    caps: &[i64],
    x: &mut [i64],
    scratch: &mut [i64],
) -> Least
    requires bounds { AreBounds bounds.now }
    requires caps { AreBounds caps.now }
    requires cap_count { length caps.now ≡ N }
    requires count { length x.old ≡ N }
    requires room { length scratch.old ≡ N }
    ensures count { length x.new ≡ length x.old }
    ensures room { length scratch.new ≡ length scratch.old }
    ensures fits { AreBounds x.new }
    ensures past { (j : ℕ) → t.now.leading ≤ j → bound_in x.new j ≡ 0 }
    ensures end { (net : AnyNet) (targets : List AnyTarget) (lengths : List ℕ) →
        Filled t.now net targets lengths →
        Tells (least_by_raises net t.now.leading (length_in lengths) (bound_in bounds.now) (bound_in caps.now))
        result (bound_in x.new) }
    ensures least { (net : AnyNet) (targets : List AnyTarget) (lengths : List ℕ) →
        Filled t.now net targets lengths → result ≡ ToldRest →
        AreLeastBounds net t.now.leading (length_in lengths) (bound_in bounds.now) (bound_in x.new) }
    ensures none { (net : AnyNet) (targets : List AnyTarget) (lengths : List ℕ) →
        Filled t.now net targets lengths → is_over result ≡ true → (others : ℕ → ℕ) →
        AllServe net t.now.leading (length_in lengths) (bound_in bounds.now) others →
        ((j : ℕ) → j < t.now.leading → others j ≤ bound_in caps.now j) → ⊥ }
{
    totals_fit(t);
    raises_find_the_least();
    let rows = t.rows();
    clear(x);
    for _ in 0..MOST_RAISES - 1 {
        let least = raise_once(t, rows, bounds, caps, x, scratch);
        if !least.is_slow() {
            return least;
        }
        x.copy_from_slice(scratch);
    }
    raise_once(t, rows, bounds, caps, x, scratch)
}
