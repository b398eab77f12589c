//! Sums of numbers times bounds, and of gains times classes.

ghost use Rattle.std.specs.Prelude.{◌≡◌, ℕ, ◌+◌, ◌-◌, ◌*◌, ◌^◌, ◌<◌, ◌≤◌, length, pos, ◌+ℤ◌, ◌*ℤ◌};
ghost use Rattle.fx_math.specs.Division.{ceil_div};
ghost use Rattle.fx_math.specs.Sums.{total};
ghost use Rattle.fx_net.specs.Tables.{net_of};
ghost use Rattle.fx_sweep.specs.Swept.{row_gain_at, whole_in};
ghost use Rattle.fx_totals.specs.Kept.{
  AreBounds,
  AreUpTo,
  IsUpTo,
  bound_in,
  greatest_bound,
  greatest_gain,
  greatest_rounding,
  greatest_total,
};

use fx_net::{GREATEST_CLASS, LARGEST_NET, Net, nets_fit};
use fx_sweep::Sweep;

// A number times a bound.
fn product(number: i128, bound: i64) -> i128
    requires number { IsUpTo greatest_gain number }
    requires bound { IsUpTo greatest_bound bound }
    ensures value { result ≡ number *ℤ bound }
    ensures fits { (most : ℕ) → IsUpTo most number → IsUpTo (most * 2 ^ 31) result }
{
    number * i128::from(bound)
}

// The sum of two numbers.
pub fn sum(a: i128, b: i128) -> i128
    requires left { IsUpTo (2 ^ 126) a }
    requires right { IsUpTo (2 ^ 125) b }
    ensures value { result ≡ a +ℤ b }
{
    a + b
}

// The product of the number at a place with one of the bounds.
fn product_at(numbers: &[i128], place: usize, bounds: &[i64], i: usize) -> i128
    requires place { place < length numbers.now }
    requires bound { i < length bounds.now }
    requires numbers { AreUpTo greatest_gain numbers.now }
    requires bounds { AreBounds bounds.now }
    ensures value { result ≡ whole_in numbers.now place *ℤ pos (bound_in bounds.now i) }
    ensures fits { (most : ℕ) → AreUpTo most numbers.now → IsUpTo (most * 2 ^ 31) result }
{
    product(numbers[place], bounds[i])
}

// The sum of the numbers from a place on, each times its bound.
#[tactic(auto, using(crate::proofs::Kept::one_more_fits))]
pub fn products(numbers: &[i128], at: usize, bounds: &[i64]) -> i128
    requires inside { at + length bounds.now ≤ length numbers.now }
    requires few { length bounds.now ≤ LARGEST_NET }
    requires numbers { AreUpTo greatest_gain numbers.now }
    requires bounds { AreBounds bounds.now }
    ensures value { result ≡ total (length bounds.now) (λ i.
        whole_in numbers.now (at + i) *ℤ pos (bound_in bounds.now i)) }
    ensures fits { (most : ℕ) → AreUpTo most numbers.now → IsUpTo (length bounds.now * (most * 2 ^ 31)) result }
{
    let mut all = 0;
    for i in 0..bounds.len() {
        all = sum(all, product_at(numbers, at + i, bounds, i));
    }
    all
}

// The four parts of a total, added up.
pub fn sum_of_parts(inputs: i128, rounding: i128, widths: i128, rests: i128) -> i128
    requires inputs { IsUpTo (2 ^ 121) inputs }
    requires rounding { IsUpTo greatest_rounding rounding }
    requires widths { IsUpTo (2 ^ 113) widths }
    requires rests { IsUpTo (2 ^ 125) rests }
    ensures value { result ≡ inputs +ℤ rounding +ℤ widths +ℤ rests }
    ensures fits { IsUpTo greatest_total result }
{
    inputs + rounding + widths + rests
}

// A gain times a class.
fn halves_of(gain: i128, class: u8) -> i128
    requires gain { IsUpTo greatest_gain gain }
    requires class { class ≤ GREATEST_CLASS }
    ensures value { result ≡ gain *ℤ pos class }
    ensures fits { IsUpTo (2 ^ 89) result }
{
    gain * i128::from(class)
}

// The sum of the rows' gains, each times the row's class.
fn halves<const N: usize>(sweep: &Sweep<N>, net: &Net<N>) -> i128
    ensures value { result ≡ total N (λ i. pos (row_gain_at sweep.now i * (net_of net.now).class i)) }
    ensures fits { IsUpTo greatest_rounding result }
{
    nets_fit(net);
    let mut all = 0;
    for i in 0..N {
        all = sum(all, halves_of(sweep.row_gain(i), net.halves(i)));
    }
    all
}

// Half of a number, rounded up.
fn half(number: i128) -> i128
    requires { IsUpTo greatest_rounding number }
    ensures value { result ≡ ceil_div number 2 }
    ensures fits { IsUpTo greatest_rounding result }
{
    -(-number).div_euclid(2)
}

// Half of the sum of the rows' gains, each times the row's class, rounded up.
pub fn rounding<const N: usize>(sweep: &Sweep<N>, net: &Net<N>) -> i128
    ensures value { result ≡ ceil_div (total N (λ i. pos (row_gain_at sweep.now i * (net_of net.now).class i))) 2 }
    ensures fits { IsUpTo greatest_rounding result }
{
    half(halves(sweep, net))
}
