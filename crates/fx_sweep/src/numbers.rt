//! The numbers of a sweep, and one moment of it.

ghost use Rattle.std.specs.Prelude.{
  ◌≡◌,
  ◌≢◌,
  ℕ,
  ◌+◌,
  ◌-◌,
  ◌*◌,
  ◌^◌,
  ◌<◌,
  ◌≤◌,
  length,
  ℤ,
  pos,
  ◌+ℤ◌,
  ◌≤ℤ◌,
  unsigned_abs,
  OnOk,
  IfOk,
};
ghost use Rattle.std.specs.Option.{option_or};
ghost use Rattle.fx_eqs.specs.declared.limits.TheConstants.{PORTS};
ghost use Rattle.fx_math.specs.Sums.{joined};
ghost use Rattle.fx_cross.specs.Table.{entry_at};
ghost use Rattle.fx_net.specs.Tables.{net_of};
ghost use Rattle.fx_nums.specs.Arithmetic.{width};
ghost use Rattle.fx_nums.specs.Interval.{IntervalFits, magnitude, point};
ghost use Rattle.fx_sweep.specs.Range.{first_range};
ghost use Rattle.fx_sweep.specs.Steps.{
  AreNarrow,
  AreNear,
  GainsFit,
  IsMoved,
  IsRepeatedOn,
  AreLong,
  IsRowAdded,
  WidthsFit,
  carried_width,
  greatest,
  greatest_width,
  input_places,
  made_by,
  product_apart,
  product_bound,
  input_value,
  places_of_row,
  range_in,
  reached,
  rest_places,
  rest_value,
  row_places,
  row_value,
  settled_rows,
};
ghost use Rattle.fx_sweep.specs.Swept.{gain_in, interval_in, range_of, whole_in, no_intervals};
ghost use Rattle.fx_sweep.specs.Target.{TargetFits, power, start_of};
ghost use Rattle.fx_sweep.specs.Weights.{carry, settle, to_input};
ghost use Rattle.fx_sweep.specs.declared.target.Place.TheVariants.{Rest};

use crate::handing::{NetRatios, add_row, hand_out};
use crate::limits::{GREATEST_LENGTH, GREATEST_SHIFT};
use crate::repeating::{are_same, have_room, raise_inputs, raise_rows, widen_rows};
use crate::target::{Place, RangeAt, Target};
use fx_cross::Cross;
use fx_eqs::PORTS;
use fx_net::{LARGEST_NET, Net, Which, nets_fit};
use fx_nums::{INTERVAL_BITS, OPERAND_BITS, SCALE_BITS, SUMMAND_BITS};
use fx_ratio::{Ratios, Span};
use std::alloc::{AllocError, Global};
use std::mem;

/// The numbers of a sweep, by row and by input.
#[derive(Drop)]
pub struct Numbers {
    // What is carried to each row of the moment before.
    pub carried: Vec<Span>,
    // The intervals of this moment's rows.
    pub weights: Vec<Span>,
    // What was carried to the rows of this moment.
    pub before: Vec<Span>,
    // The intervals of this moment's inputs.
    pub inputs: Vec<Span>,
    // What was added up, times 2^64.
    pub widths: Vec<i128>,
    pub row_gains: Vec<u128>,
    pub input_gains: Vec<u128>,
    // What is kept of the net's coefficients.
    pub ratios: NetRatios,
}

// The greater magnitude of an interval's ends.
#[inline(always)]
pub fn magnitude_of(v: Span) -> u128
    ensures value { result ≡ magnitude v }
    ensures fits { result < 2 ^ INTERVAL_BITS }
{
    v.lo().unsigned_abs().max(v.hi().unsigned_abs())
}

// Tests the number in a place against the limit.
#[inline(always)]
fn within(place: Place, number: u128) -> Result<(), RangeAt>
    requires { number < 2 ^ 127 }
    ensures range { range_of result ≡ reached place number }
    ensures small { OnOk result (number ≤ greatest) }
{
    if number >= 1 << OPERAND_BITS {
        Err(RangeAt {
            place,
            value: number as i128,
        })
    } else {
        Ok(())
    }
}

// Raises one gain, where it stays below the limit.
#[inline(always)]
fn raise(gains: &mut [u128], i: usize, by: u128, place: Place) -> Result<(), RangeAt>
    requires place { i < length gains.old }
    requires fit { GainsFit gains.old }
    requires by { by < 2 ^ INTERVAL_BITS }
    ensures count { length gains.new ≡ length gains.old }
    ensures range { range_of result ≡ reached place (gain_in gains.old i + by) }
    ensures here { OnOk result (gain_in gains.new i ≡ gain_in gains.old i + by) }
    ensures others { (k : ℕ) → k ≢ i → gain_in gains.new k ≡ gain_in gains.old k }
    ensures fit { GainsFit gains.new }
{
    let gain = gains[i] + by;
    within(place, gain)?;
    gains[i] = gain;
    Ok(())
}

// Adds the width of a row's interval to what was added up of it.
#[inline(always)]
fn widen(widths: &mut [i128], i: usize, row: Span)
    requires place { i < length widths.old }
    requires near { row.hi ≤ℤ (row.lo +ℤ pos greatest_width) }
    requires fit { WidthsFit (2 ^ 100) widths.old }
    ensures count { length widths.new ≡ length widths.old }
    ensures here { whole_in widths.new i ≡ whole_in widths.old i +ℤ width row }
    ensures others { (k : ℕ) → k ≢ i → whole_in widths.new k ≡ whole_in widths.old k }
{
    widths[i] += row.width();
}

// Adds up what row `i` has in this moment, and hands its weight to its sources of this moment; or answers the first of
// its numbers that reaches the limit.
fn settle_row(
    table: &Cross,
    i: usize,
    weights: &mut [Span],
    widths: &mut [i128],
    gains: &mut [u128],
    ratios: &mut Ratios,
) -> Result<(), RangeAt>
    requires row { i < table.now.rows }
    requires few { i < LARGEST_NET }
    requires columns { table.now.columns ≤ length weights.old }
    requires weights { i < length weights.old }
    requires widths { i < length widths.old }
    requires gains { i < length gains.old }
    requires room { (j : ℕ) → IntervalFits (interval_in weights.old j) SUMMAND_BITS }
    requires near { (interval_in weights.old i).hi ≤ℤ ((interval_in weights.old i).lo +ℤ pos greatest_width) }
    requires widths_fit { WidthsFit (2 ^ 100) widths.old }
    requires gains_fit { GainsFit gains.old }
    ensures counts { (length weights.new ≡ length weights.old) × (length widths.new ≡ length widths.old)
        × (length gains.new ≡ length gains.old) }
    ensures range { range_of result
        ≡ first_range (row_value (interval_in weights.old) (gain_in gains.old)) (places_of_row i) }
    ensures added { OnOk result
        (IsRowAdded i (entry_at table.now i) (interval_in weights.old) (interval_in weights.new)
        (whole_in widths.old) (whole_in widths.new) (gain_in gains.old) (gain_in gains.new)) }
    ensures narrow { (b w : ℕ) → AreNarrow b w weights.old →
        AreNarrow (b + product_bound) (w + product_apart) weights.new }
    ensures widths_else { (k : ℕ) → k ≢ i → whole_in widths.new k ≡ whole_in widths.old k }
    ensures width_grows { (whole_in widths.old i ≤ℤ whole_in widths.new i)
        × (whole_in widths.new i ≤ℤ (whole_in widths.old i +ℤ pos greatest_width)) }
    ensures gains_fit { GainsFit gains.new }
{
    let row = weights[i];
    if row.is_zero() {
        return Ok(());
    }
    within(Place::Weight(i as u8), magnitude_of(row))?;
    raise(gains, i, row.lo().unsigned_abs(), Place::Gain(i as u8))?;
    widen(widths, i, row);
    add_row(table, i, row, weights, ratios);
    Ok(())
}

// Takes the rows of a moment from the last to the first, each as its weight; or answers the first range.
fn settle_rows<const N: usize>(
    net: &Net<N>,
    weights: &mut [Span],
    widths: &mut [i128],
    gains: &mut [u128],
    ratios: &mut Ratios,
) -> Result<(), RangeAt>
    requires weights { length weights.old ≡ N }
    requires widths { length widths.old ≡ N }
    requires gains { length gains.old ≡ N }
    requires narrow { AreNarrow greatest carried_width weights.old }
    requires widths_fit { WidthsFit (2 ^ 100 - greatest_width) widths.old }
    requires gains_fit { GainsFit gains.old }
    ensures counts { (length weights.new ≡ N) × (length widths.new ≡ N) × (length gains.new ≡ N) }
    ensures range { range_of result
        ≡ first_range (row_value (settle (net_of net.now) N (interval_in weights.old)) (gain_in gains.old))
        (joined N (row_places N)) }
    ensures settled { OnOk result (interval_in weights.new ≡ settle (net_of net.now) N (interval_in weights.old)) }
    ensures small { OnOk result ((i : ℕ) → magnitude (interval_in weights.new i) ≤ greatest) }
    ensures near { OnOk result (AreNear weights.new) }
    ensures widths { OnOk result (whole_in widths.new ≡ (λ i.
        whole_in widths.old i +ℤ width (interval_in weights.new i))) }
    ensures gains { OnOk result (gain_in gains.new ≡ (λ i.
        gain_in gains.old i + unsigned_abs (interval_in weights.new i).lo)) }
    ensures widths_fit { (b : ℕ) → WidthsFit b widths.old → WidthsFit (b + greatest_width) widths.new }
    ensures gains_fit { GainsFit gains.new }
{
    nets_fit(net);
    let table = net.links(Which::Now);
    for i in (0..N).rev() {
        settle_row(table, i, weights, widths, gains, ratios)?;
    }
    Ok(())
}

// Adds up the magnitudes of the inputs' intervals, or answers the first gain that reaches the limit.
fn add_inputs(inputs: &[Span], gains: &mut [u128]) -> Result<(), RangeAt>
    requires inputs { length inputs.now ≡ PORTS }
    requires gains { length gains.old ≡ PORTS }
    requires fit { GainsFit gains.old }
    ensures count { length gains.new ≡ PORTS }
    ensures range { range_of result
        ≡ first_range (input_value (interval_in inputs.now) (gain_in gains.old)) (joined PORTS input_places) }
    ensures added { OnOk result (gain_in gains.new ≡ (λ j.
        gain_in gains.old j + magnitude (interval_in inputs.now j))) }
    ensures fit { GainsFit gains.new }
{
    for j in 0..PORTS {
        raise(gains, j, magnitude_of(inputs[j]), Place::Input(j as u8))?;
    }
    Ok(())
}

// Tests the interval that is carried to a row against the limit.
#[inline(always)]
fn test_rest(i: usize, carried: Span) -> Result<(), RangeAt>
    requires { i < LARGEST_NET }
    ensures range { range_of result ≡ reached (Rest i) (magnitude carried) }
    ensures small { OnOk result (magnitude carried ≤ greatest) }
{
    if carried.is_zero() {
        return Ok(());
    }
    within(Place::Rest(i as u8), magnitude_of(carried))
}

// Answers the first interval that is carried and reaches the limit.
fn test_rests(carried: &[Span]) -> Result<(), RangeAt>
    requires few { length carried.now ≤ LARGEST_NET }
    ensures range { range_of result
        ≡ first_range (rest_value (interval_in carried.now)) (joined (length carried.now) rest_places) }
    ensures small { OnOk result ((i : ℕ) → magnitude (interval_in carried.now i) ≤ greatest) }
{
    for i in 0..carried.len() {
        test_rest(i, carried[i])?;
    }
    Ok(())
}

// Hands the weights of a moment to the inputs and to the moment before; or answers the first range in what they get.
fn hand_back<const N: usize>(
    net: &Net<N>,
    weights: &[Span],
    inputs: &mut [Span],
    gains: &mut [u128],
    carried: &mut [Span],
    ratios: &mut NetRatios,
) -> Result<(), RangeAt>
    requires weights { length weights.now ≡ N }
    requires inputs { length inputs.old ≡ PORTS }
    requires gains { length gains.old ≡ PORTS }
    requires carried { length carried.old ≡ N }
    requires small { (i : ℕ) → magnitude (interval_in weights.now i) ≤ greatest }
    requires gains_fit { GainsFit gains.old }
    ensures inputs_count { length inputs.new ≡ PORTS }
    ensures gains_count { length gains.new ≡ PORTS }
    ensures carried_count { length carried.new ≡ N }
    ensures range { range_of result
        ≡ option_or (first_range
        (input_value (to_input (net_of net.now) (interval_in weights.now)) (gain_in gains.old))
        (joined PORTS input_places))
        (first_range (rest_value (carry (net_of net.now) (interval_in weights.now))) (joined N rest_places)) }
    ensures inputs { OnOk result (interval_in inputs.new ≡ to_input (net_of net.now) (interval_in weights.now)) }
    ensures carried { OnOk result (interval_in carried.new ≡ carry (net_of net.now) (interval_in weights.now)) }
    ensures gains { OnOk result (gain_in gains.new ≡ (λ j.
        gain_in gains.old j + magnitude (to_input (net_of net.now) (interval_in weights.now) j))) }
    ensures narrow { OnOk result (AreNarrow greatest carried_width carried.new) }
    ensures gains_fit { GainsFit gains.new }
{
    nets_fit(net);
    hand_out(net.links(Which::In), weights, inputs, &mut ratios.inputs);
    add_inputs(inputs, gains)?;
    hand_out(net.links(Which::Old), weights, carried, &mut ratios.old);
    test_rests(carried)
}

// One moment, where the intervals of the rows are those that were carried to them.
fn turn<const N: usize>(
    net: &Net<N>,
    weights: &mut [Span],
    carried: &mut [Span],
    inputs: &mut [Span],
    widths: &mut [i128],
    row_gains: &mut [u128],
    input_gains: &mut [u128],
    ratios: &mut NetRatios,
) -> Result<(), RangeAt>
    requires weights { length weights.old ≡ N }
    requires carried { length carried.old ≡ N }
    requires inputs { length inputs.old ≡ PORTS }
    requires widths { length widths.old ≡ N }
    requires row_gains { length row_gains.old ≡ N }
    requires input_gains { length input_gains.old ≡ PORTS }
    requires narrow { AreNarrow greatest carried_width weights.old }
    requires widths_fit { WidthsFit (2 ^ 100 - greatest_width) widths.old }
    requires row_gains_fit { GainsFit row_gains.old }
    requires input_gains_fit { GainsFit input_gains.old }
    ensures range { range_of result
        ≡ range_in (net_of net.now) N (settle (net_of net.now) N (interval_in weights.old))
        (gain_in row_gains.old) (gain_in input_gains.old) }
    ensures weights { OnOk result (interval_in weights.new
        ≡ settle (net_of net.now) N (interval_in weights.old)) }
    ensures weights_count { length weights.new ≡ N }
    ensures near { OnOk result (AreNear weights.new) }
    ensures carried { OnOk result (interval_in carried.new
        ≡ carry (net_of net.now) (settle (net_of net.now) N (interval_in weights.old))) }
    ensures inputs { OnOk result (interval_in inputs.new
        ≡ to_input (net_of net.now) (settle (net_of net.now) N (interval_in weights.old))) }
    ensures widths { OnOk result (whole_in widths.new ≡ (λ i.
        whole_in widths.old i +ℤ width (settle (net_of net.now) N (interval_in weights.old) i))) }
    ensures row_gains { OnOk result (gain_in row_gains.new
        ≡ (λ i. gain_in row_gains.old i
        + unsigned_abs (settle (net_of net.now) N (interval_in weights.old) i).lo)) }
    ensures input_gains { OnOk result (gain_in input_gains.new
        ≡ (λ j. gain_in input_gains.old j
        + magnitude (to_input (net_of net.now) (settle (net_of net.now) N (interval_in weights.old)) j))) }
    ensures narrow { OnOk result (AreNarrow greatest carried_width carried.new) }
    ensures widths_fit { (b : ℕ) → WidthsFit b widths.old → WidthsFit (b + greatest_width) widths.new }
    ensures row_gains_fit { GainsFit row_gains.new }
    ensures input_gains_fit { GainsFit input_gains.new }
{
    settle_rows(net, weights, widths, row_gains, &mut ratios.now)?;
    hand_back(net, weights, inputs, input_gains, carried, ratios)
}

// The exponent of 2^shift at the scale of the sweep.
fn exponent(shift: i8) -> u32
    requires { unsigned_abs shift ≤ unsigned_abs GREATEST_SHIFT }
    ensures value { result ≡ unsigned_abs (pos SCALE_BITS +ℤ shift) }
    ensures high { result ≤ 80 }
{
    (SCALE_BITS as i32 + i32::from(shift)) as u32
}

// A power of two.
fn power_of_two(exponent: u32) -> i128
    requires { exponent ≤ 80 }
    ensures value { result ≡ pos (2 ^ exponent) }
    ensures high { unsigned_abs result ≤ 2 ^ 80 }
{
    1i128 << exponent
}

// 2^shift at the scale of the sweep.
fn power(shift: i8) -> Span
    requires { unsigned_abs shift ≤ unsigned_abs GREATEST_SHIFT }
    ensures { result ≡ point (power shift) }
{
    Span::point(power_of_two(exponent(shift)))
}

// Sets what is carried to one row.
fn put(at: &mut [Span], i: usize, v: Span)
    requires { i < length at.old }
    ensures count { length at.new ≡ length at.old }
    ensures here { interval_in at.new i ≡ v }
    ensures others { (k : ℕ) → k ≢ i → interval_in at.new k ≡ interval_in at.old k }
{
    at[i] = v;
}

// Sets what is carried as the sweep of a target begins, where all is 0.
fn put_target(at: &mut [Span], target: Target)
    requires target { TargetFits (length at.old) target }
    requires zero { interval_in at.old ≡ no_intervals }
    ensures count { length at.new ≡ length at.old }
    ensures value { interval_in at.new ≡ start_of target }
{
    match target {
        Target::Row(row) => put(at, usize::from(row), power(0)),
        Target::Pair {
            code,
            original,
            shift,
        } => {
            put(at, usize::from(code), power(0));
            put(at, usize::from(original), power(shift).neg());
        }
    }
}

impl Numbers {
    /// Those of so many rows, all 0. Its error is want of memory.
    pub fn new(alloc: Global, rows: usize) -> Result<Numbers, AllocError>
        requires { rows ≤ LARGEST_NET }
        ensures long { IfOk result (λ s. AreLong rows s) }
        ensures carried { IfOk result (λ s. interval_in s.carried.items ≡ no_intervals) }
        ensures inputs { IfOk result (λ s. interval_in s.inputs.items ≡ no_intervals) }
        ensures widths { IfOk result (λ s. whole_in s.widths.items ≡ (λ i. pos 0)) }
        ensures row_gains { IfOk result (λ s. gain_in s.row_gains.items ≡ (λ i. 0)) }
        ensures input_gains { IfOk result (λ s. gain_in s.input_gains.items ≡ (λ j. 0)) }
    {
        Ok(Numbers {
            carried: vec![in alloc; Span::point(0); rows]?,
            weights: vec![in alloc; Span::point(0); rows]?,
            before: vec![in alloc; Span::point(0); rows]?,
            inputs: vec![in alloc; Span::point(0); PORTS]?,
            widths: vec![in alloc; 0; rows]?,
            row_gains: vec![in alloc; 0; rows]?,
            input_gains: vec![in alloc; 0; PORTS]?,
            ratios: NetRatios::new(alloc, rows)?,
        })
    }

    // Makes all that is carried 0.
    pub fn drop_carried(&mut self)
        ensures zero { interval_in self.new.carried.items ≡ no_intervals }
        ensures long { (n : ℕ) → AreLong n self.old → AreLong n self.new }
        ensures widths { self.new.widths ≡ self.old.widths }
        ensures row_gains { self.new.row_gains ≡ self.old.row_gains }
        ensures input_gains { self.new.input_gains ≡ self.old.input_gains }
    {
        self.carried.fill(Span::point(0));
    }

    // Begins the sweep of a target.
    pub fn start(&mut self, target: Target)
        requires target { TargetFits (length self.old.carried.items) target }
        ensures begun { interval_in self.new.carried.items ≡ start_of target }
        ensures inputs { interval_in self.new.inputs.items ≡ no_intervals }
        ensures widths { whole_in self.new.widths.items ≡ (λ i. pos 0) }
        ensures row_gains { gain_in self.new.row_gains.items ≡ (λ i. 0) }
        ensures input_gains { gain_in self.new.input_gains.items ≡ (λ j. 0) }
        ensures long { (n : ℕ) → AreLong n self.old → AreLong n self.new }
    {
        self.carried.fill(Span::point(0));
        self.inputs.fill(Span::point(0));
        self.widths.fill(0);
        self.row_gains.fill(0);
        self.input_gains.fill(0);
        put_target(&mut self.carried, target);
    }

    /// One moment of a sweep, backwards; or the first range that is met in it.
    pub fn moment<const N: usize>(&mut self, net: &Net<N>) -> Result<(), RangeAt>
        requires long { AreLong N self.old }
        requires narrow { AreNarrow greatest carried_width self.old.carried.items }
        requires widths_fit { WidthsFit (2 ^ 100 - greatest_width) self.old.widths.items }
        requires row_gains_fit { GainsFit self.old.row_gains.items }
        requires input_gains_fit { GainsFit self.old.input_gains.items }
        ensures range { range_of result
            ≡ range_in (net_of net.now) N (settled_rows (net_of net.now) N self.old)
            (gain_in self.old.row_gains.items) (gain_in self.old.input_gains.items) }
        ensures before { self.new.before ≡ self.old.before }
        ensures weights { OnOk result (interval_in self.new.weights.items
            ≡ settled_rows (net_of net.now) N self.old) }
        ensures near { OnOk result (AreNear self.new.weights.items) }
        ensures carried { OnOk result (interval_in self.new.carried.items
            ≡ carry (net_of net.now) (settled_rows (net_of net.now) N self.old)) }
        ensures inputs { OnOk result (interval_in self.new.inputs.items
            ≡ to_input (net_of net.now) (settled_rows (net_of net.now) N self.old)) }
        ensures widths { OnOk result (whole_in self.new.widths.items
            ≡ (λ i. whole_in self.old.widths.items i +ℤ width (settled_rows (net_of net.now) N self.old i))) }
        ensures row_gains { OnOk result (gain_in self.new.row_gains.items
            ≡ (λ i. gain_in self.old.row_gains.items i
            + unsigned_abs (settled_rows (net_of net.now) N self.old i).lo)) }
        ensures input_gains { OnOk result (gain_in self.new.input_gains.items
            ≡ (λ j. gain_in self.old.input_gains.items j
            + magnitude (to_input (net_of net.now) (settled_rows (net_of net.now) N self.old) j))) }
        ensures long { AreLong N self.new }
        ensures narrow { OnOk result (AreNarrow greatest carried_width self.new.carried.items) }
        ensures widths_fit { (b : ℕ) → WidthsFit b self.old.widths.items →
            WidthsFit (b + greatest_width) self.new.widths.items }
        ensures row_gains_fit { GainsFit self.new.row_gains.items }
        ensures input_gains_fit { GainsFit self.new.input_gains.items }
    {
        mem::swap(&mut self.carried, &mut self.weights);
        turn(
            net,
            &mut self.weights,
            &mut self.carried,
            &mut self.inputs,
            &mut self.widths,
            &mut self.row_gains,
            &mut self.input_gains,
            &mut self.ratios,
        )
    }

    // Adds what the last moment added so many times more, if it left what is carried as it was and no gain reaches the
    // limit in it. Answers how many times it did: none, or all.
    fn repeat(&mut self, times: u16) -> u16
        requires long { (length self.old.before.items ≡ length self.old.carried.items)
            × (length self.old.weights.items ≡ length self.old.widths.items)
            × (length self.old.weights.items ≡ length self.old.row_gains.items)
            × (length self.old.inputs.items ≡ length self.old.input_gains.items) }
        requires times { times ≤ GREATEST_LENGTH }
        requires near { AreNear self.old.weights.items }
        requires widths_fit { WidthsFit (2 ^ 100) self.old.widths.items }
        requires row_gains_fit { GainsFit self.old.row_gains.items }
        requires input_gains_fit { GainsFit self.old.input_gains.items }
        ensures few { result ≤ times }
        ensures repeated { IsRepeatedOn self.old self.new result }
        ensures long { (n : ℕ) → AreLong n self.old → AreLong n self.new }
        ensures stands { result ≢ 0 → interval_in self.old.carried.items ≡ interval_in self.old.before.items }
        ensures widths_fit { (b : ℕ) → WidthsFit b self.old.widths.items →
            WidthsFit (b + result * greatest_width) self.new.widths.items }
        ensures row_gains_fit { GainsFit self.new.row_gains.items }
        ensures input_gains_fit { GainsFit self.new.input_gains.items }
    {
        if times == 0 {
            return 0;
        }
        if !are_same(&self.carried, &self.before) {
            return 0;
        }
        if !have_room(&self.row_gains, &self.weights, times) {
            return 0;
        }
        if !have_room(&self.input_gains, &self.inputs, times) {
            return 0;
        }
        widen_rows(&mut self.widths, &self.weights, times);
        raise_rows(&mut self.row_gains, &self.weights, times);
        raise_inputs(&mut self.input_gains, &self.inputs, times);
        times
    }

    /// One moment of a sweep, backwards; or at most so many, where it leaves what is carried as it was, so that the
    /// later ones repeat it. Answers how many; its error is the first range that is met in the moment.
    pub fn moments<const N: usize>(&mut self, net: &Net<N>, most: u16) -> Result<u16, RangeAt>
        requires some { 1 ≤ most }
        requires short { most ≤ GREATEST_LENGTH }
        requires long { AreLong N self.old }
        requires narrow { AreNarrow greatest carried_width self.old.carried.items }
        requires widths_fit { WidthsFit (2 ^ 100 - greatest_width) self.old.widths.items }
        requires row_gains_fit { GainsFit self.old.row_gains.items }
        requires input_gains_fit { GainsFit self.old.input_gains.items }
        ensures some { IfOk result (λ made. 1 ≤ made) }
        ensures few { IfOk result (λ made. made ≤ most) }
        ensures range { range_of result
            ≡ range_in (net_of net.now) N (settled_rows (net_of net.now) N self.old)
            (gain_in self.old.row_gains.items) (gain_in self.old.input_gains.items) }
        ensures moved { IfOk result (IsMoved (net_of net.now) N self.old self.new) }
        ensures long { AreLong N self.new }
        ensures widths_fit { (b : ℕ) → WidthsFit b self.old.widths.items →
            WidthsFit (b + made_by result * greatest_width) self.new.widths.items }
        ensures row_gains_fit { GainsFit self.new.row_gains.items }
        ensures input_gains_fit { GainsFit self.new.input_gains.items }
    {
        self.before.copy_from_slice(&self.carried);
        self.moment(net)?;
        Ok(1 + self.repeat(most - 1))
    }
}
