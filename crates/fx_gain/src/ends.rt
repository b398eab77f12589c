//! The ends of an enclosure.

ghost use Rattle.std.specs.Prelude.{◌≡◌, ℕ, ◌*◌, ◌^◌, ◌<◌, ◌+ℤ◌, ◌-ℤ◌, ◌*ℤ◌, ◌≤ℤ◌, unsigned_abs};
ghost use Rattle.fx_nums.specs.declared.limits.TheConstants.{INTERVAL_BITS};
ghost use Rattle.fx_totals.specs.Kept.{IsUpTo, greatest_bound, greatest_gain};

use fx_nums::Iv;

// A number times a bound.
fn product(number: i128, bound: i64) -> i128
    requires number { IsUpTo greatest_gain number }
    requires bound { IsUpTo greatest_bound bound }
    ensures value { result ≡ number *ℤ bound }
    ensures fits { (most : ℕ) → IsUpTo most number → IsUpTo (most * 2 ^ 31) result }
{
    number * i128::from(bound)
}

// The sum of two numbers.
pub fn sum(a: i128, b: i128) -> i128
    requires left { IsUpTo (2 ^ 126) a }
    requires right { IsUpTo (2 ^ 125) b }
    ensures value { result ≡ a +ℤ b }
{
    a + b
}

// What the words add for certain, less what was cut off.
pub fn less_widths(least: i128, bound: i64, widths: i128) -> i128
    requires least { IsUpTo greatest_gain least }
    requires bound { IsUpTo greatest_bound bound }
    requires widths { IsUpTo (2 ^ 113) widths }
    ensures value { result ≡ (least *ℤ bound) -ℤ widths }
    ensures fits { unsigned_abs result < 2 ^ INTERVAL_BITS }
{
    product(least, bound) - widths
}

// The interval of two ends.
pub fn interval_of(low: i128, high: i128) -> Iv
    requires order { low ≤ℤ high }
    requires low { unsigned_abs low < 2 ^ INTERVAL_BITS }
    requires high { unsigned_abs high < 2 ^ INTERVAL_BITS }
    ensures { result ≡ record { lo = low; hi = high } }
{
    Iv::point(low).hull(Iv::point(high))
}
