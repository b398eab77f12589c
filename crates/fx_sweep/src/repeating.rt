//! What a moment adds, added so many times more.

ghost use Rattle.std.specs.Prelude.{
  ◌≡◌,
  ◌≢◌,
  ℕ,
  ◌+◌,
  ◌*◌,
  ◌^◌,
  ◌<◌,
  ◌≤◌,
  length,
  ℤ,
  pos,
  ◌+ℤ◌,
  ◌*ℤ◌,
  ◌≤ℤ◌,
  unsigned_abs,
  IsTrue,
};
ghost use Rattle.fx_nums.specs.Arithmetic.{width};
ghost use Rattle.fx_nums.specs.Interval.{magnitude};
ghost use Rattle.fx_sweep.specs.Steps.{AreNear, GainsFit, WidthsFit, greatest, greatest_width};
ghost use Rattle.fx_sweep.specs.Swept.{gain_in, interval_in, whole_in};

use crate::limits::GREATEST_LENGTH;
use crate::numbers::magnitude_of;
use fx_nums::OPERAND_BITS;
use fx_ratio::Span;

// Whether two intervals are the same.
#[tactic(auto, using(crate::proofs::OnceMore::by_ends))]
fn is_same(a: Span, b: Span) -> bool
    ensures { IsTrue result → a ≡ b }
{
    a.lo() == b.lo() && a.hi() == b.hi()
}

// Whether the intervals are the same.
pub fn are_same(a: &[Span], b: &[Span]) -> bool
    requires { length b.now ≡ length a.now }
    ensures { IsTrue result → interval_in a.now ≡ interval_in b.now }
{
    for i in 0..a.len() {
        if !is_same(a[i], b[i]) {
            return false;
        }
    }
    true
}

// Whether a gain stays below the limit where a number is added to it so many times.
fn has_room(gain: u128, by: u128, times: u16) -> bool
    requires gain { gain ≤ greatest }
    requires times { 1 ≤ times }
    ensures { IsTrue result → gain + times * by ≤ greatest }
{
    by <= ((1 << OPERAND_BITS) - 1 - gain) / u128::from(times)
}

// Whether each gain does, where the magnitude of its interval is added.
pub fn have_room(gains: &[u128], by: &[Span], times: u16) -> bool
    requires count { length by.now ≡ length gains.now }
    requires gains { GainsFit gains.now }
    requires times { 1 ≤ times }
    ensures { IsTrue result → (i : ℕ) → i < length gains.now →
        gain_in gains.now i + times * magnitude (interval_in by.now i) ≤ greatest }
{
    for i in 0..gains.len() {
        if !has_room(gains[i], magnitude_of(by[i]), times) {
            return false;
        }
    }
    true
}

// A number, so many times.
fn multiple_of(by: u128, times: u16) -> u128
    requires { times * by ≤ greatest }
    ensures { result ≡ times * by }
{
    u128::from(times) * by
}

// The magnitude of a row's weight.
fn weight_of(row: Span) -> u128
    ensures value { result ≡ unsigned_abs row.lo }
    ensures least { result ≤ magnitude row }
{
    row.lo().unsigned_abs()
}

// That, so many times.
fn weights_of(row: Span, times: u16) -> u128
    requires { times * magnitude row ≤ greatest }
    ensures value { result ≡ times * unsigned_abs row.lo }
    ensures least { result ≤ times * magnitude row }
{
    multiple_of(weight_of(row), times)
}

// Adds to one gain.
fn add_to(gains: &mut [u128], i: usize, by: u128)
    requires place { i < length gains.old }
    requires fits { gain_in gains.old i + by ≤ greatest }
    ensures count { length gains.new ≡ length gains.old }
    ensures here { gain_in gains.new i ≡ gain_in gains.old i + by }
    ensures others { (k : ℕ) → k ≢ i → gain_in gains.new k ≡ gain_in gains.old k }
{
    gains[i] += by;
}

// Adds the weights' magnitudes to the gains of the rows so many times.
pub fn raise_rows(gains: &mut [u128], weights: &[Span], times: u16)
    requires count { length weights.now ≡ length gains.old }
    requires fit { GainsFit gains.old }
    requires room { (i : ℕ) → i < length gains.old →
        gain_in gains.old i + times * magnitude (interval_in weights.now i) ≤ greatest }
    ensures count { length gains.new ≡ length gains.old }
    ensures value { gain_in gains.new ≡ (λ i.
        gain_in gains.old i + times * unsigned_abs (interval_in weights.now i).lo) }
    ensures fit { GainsFit gains.new }
{
    for i in 0..gains.len() {
        add_to(gains, i, weights_of(weights[i], times));
    }
}

// Adds the intervals' magnitudes to the gains of the inputs so many times.
pub fn raise_inputs(gains: &mut [u128], inputs: &[Span], times: u16)
    requires count { length inputs.now ≡ length gains.old }
    requires fit { GainsFit gains.old }
    requires room { (j : ℕ) → j < length gains.old →
        gain_in gains.old j + times * magnitude (interval_in inputs.now j) ≤ greatest }
    ensures count { length gains.new ≡ length gains.old }
    ensures value { gain_in gains.new ≡ (λ j.
        gain_in gains.old j + times * magnitude (interval_in inputs.now j)) }
    ensures fit { GainsFit gains.new }
{
    for j in 0..gains.len() {
        add_to(gains, j, multiple_of(magnitude_of(inputs[j]), times));
    }
}

// The width of a row's interval, so many times.
fn widths_of(row: Span, times: u16) -> i128
    requires near { row.hi ≤ℤ (row.lo +ℤ pos greatest_width) }
    requires times { times ≤ GREATEST_LENGTH }
    ensures value { result ≡ pos times *ℤ width row }
    ensures positive { pos 0 ≤ℤ result }
    ensures high { result ≤ℤ pos (times * greatest_width) }
{
    i128::from(times) * row.width()
}

// Adds the width of a row's interval to what was added up of it so many times.
fn widen_by(widths: &mut [i128], i: usize, row: Span, times: u16)
    requires place { i < length widths.old }
    requires positive { pos 0 ≤ℤ whole_in widths.old i }
    requires fit { whole_in widths.old i ≤ℤ pos (2 ^ 100) }
    requires near { row.hi ≤ℤ (row.lo +ℤ pos greatest_width) }
    requires times { times ≤ GREATEST_LENGTH }
    ensures count { length widths.new ≡ length widths.old }
    ensures here { whole_in widths.new i ≡ whole_in widths.old i +ℤ pos times *ℤ width row }
    ensures others { (k : ℕ) → k ≢ i → whole_in widths.new k ≡ whole_in widths.old k }
    ensures rises { pos 0 ≤ℤ (pos times *ℤ width row) }
    ensures high { (pos times *ℤ width row) ≤ℤ pos (times * greatest_width) }
{
    widths[i] += widths_of(row, times);
}

// Adds the widths of the rows' intervals so many times.
pub fn widen_rows(widths: &mut [i128], weights: &[Span], times: u16)
    requires count { length weights.now ≡ length widths.old }
    requires times { times ≤ GREATEST_LENGTH }
    requires near { AreNear weights.now }
    requires fit { WidthsFit (2 ^ 100) widths.old }
    ensures count { length widths.new ≡ length widths.old }
    ensures value { whole_in widths.new ≡ (λ i.
        whole_in widths.old i +ℤ pos times *ℤ width (interval_in weights.now i)) }
    ensures fit { (b : ℕ) → WidthsFit b widths.old → WidthsFit (b + times * greatest_width) widths.new }
{
    for i in 0..widths.len() {
        widen_by(widths, i, weights[i], times);
    }
}
