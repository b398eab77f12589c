//! The ends of products and quotients of intervals, from their ends.

ghost use Rattle.std.specs.Prelude.{◌≡◌, ◌≢◌, ◌^◌, ◌<◌, ◌≤◌, ◌-◌, pos, ◌*ℤ◌, unsigned_abs};
ghost use Rattle.fx_math.specs.Division.{floor_div};
ghost use Rattle.fx_nums.specs.Arithmetic.{
  IsProduct,
  IsQuotient,
  IsScaled,
  greatest_of,
  least_of,
  quotient_down,
  quotient_up,
};
ghost use Rattle.fx_nums.specs.Fraction.{den_value};

use crate::fraction::Frac;
use crate::limits::{DROPPED_BITS, FACTOR_BITS, INTERVAL_BITS, OPERAND_BITS};
use crate::products::mul_ends;

// The least and the greatest of four numbers.
fn extremes(a: i128, b: i128, c: i128, d: i128) -> (i128, i128)
    ensures least { result.0 ≡ least_of a b c d }
    ensures greatest { result.1 ≡ greatest_of a b c d }
{
    (a.min(b).min(c.min(d)), a.max(b).max(c.max(d)))
}

/// The ends of the products of the numbers from `lo` to `hi` with a fraction.
pub(crate) fn scaled_ends(lo: i128, hi: i128, c: Frac) -> (i128, i128)
    requires low { unsigned_abs lo < 2 ^ FACTOR_BITS }
    requires high { unsigned_abs hi < 2 ^ FACTOR_BITS }
    ensures { IsScaled lo hi c.num (den_value c.den) result.0 result.1 }
{
    let (low, high) = mul_ends(lo, c);
    let (other_low, other_high) = mul_ends(hi, c);
    (low.min(other_low), high.max(other_high))
}

// A product of two ends.
fn end_product(a: i128, b: i128) -> i128
    requires left { unsigned_abs a ≤ 2 ^ (OPERAND_BITS - DROPPED_BITS) }
    requires right { unsigned_abs b ≤ 2 ^ (OPERAND_BITS - DROPPED_BITS) }
    ensures value { result ≡ a *ℤ b }
    ensures bound { unsigned_abs result < 2 ^ INTERVAL_BITS }
{
    a * b
}

/// The ends of the products of the numbers from `a` to `b` with those from `c` to `d`.
pub(crate) fn product_ends(a: i128, b: i128, c: i128, d: i128) -> (i128, i128)
    requires a_in { unsigned_abs a ≤ 2 ^ (OPERAND_BITS - DROPPED_BITS) }
    requires b_in { unsigned_abs b ≤ 2 ^ (OPERAND_BITS - DROPPED_BITS) }
    requires c_in { unsigned_abs c ≤ 2 ^ (OPERAND_BITS - DROPPED_BITS) }
    requires d_in { unsigned_abs d ≤ 2 ^ (OPERAND_BITS - DROPPED_BITS) }
    ensures { IsProduct a b c d result.0 result.1 }
{
    extremes(
        end_product(a, c),
        end_product(a, d),
        end_product(b, c),
        end_product(b, d),
    )
}

// `n / t` rounded down.
fn floor_over(n: i128, t: u128) -> i128
    requires n_in { unsigned_abs n < 2 ^ INTERVAL_BITS }
    requires t_in { 0 < t }
    ensures value { result ≡ floor_div n t }
    ensures bound { unsigned_abs result < 2 ^ INTERVAL_BITS }
{
    if n >= 0 {
        (n as u128 / t) as i128
    } else {
        !((!n as u128 / t) as i128)
    }
}

// `x * 2^32 / y` rounded down.
fn quotient_down(x: i128, y: i128) -> i128
    requires x_in { unsigned_abs x < 2 ^ OPERAND_BITS }
    requires y_in { y ≢ pos 0 }
    ensures value { result ≡ quotient_down x y }
    ensures bound { unsigned_abs result < 2 ^ INTERVAL_BITS }
{
    if y > 0 {
        floor_over(x << DROPPED_BITS, y as u128)
    } else {
        floor_over(-x << DROPPED_BITS, y.unsigned_abs())
    }
}

// `x * 2^32 / y` rounded up.
fn quotient_up(x: i128, y: i128) -> i128
    requires x_in { unsigned_abs x < 2 ^ OPERAND_BITS }
    requires y_in { y ≢ pos 0 }
    ensures value { result ≡ quotient_up x y }
    ensures bound { unsigned_abs result < 2 ^ INTERVAL_BITS }
{
    if y > 0 {
        -floor_over(-(x << DROPPED_BITS), y as u128)
    } else {
        -floor_over(-(-x << DROPPED_BITS), y.unsigned_abs())
    }
}

/// The ends of the quotients of the numbers from `a` to `b` by those from `c` to `d`, at a scale that is 2^32 times as
/// fine.
pub(crate) fn quotient_ends(a: i128, b: i128, c: i128, d: i128) -> (i128, i128)
    requires a_in { unsigned_abs a < 2 ^ OPERAND_BITS }
    requires b_in { unsigned_abs b < 2 ^ OPERAND_BITS }
    requires c_in { c ≢ pos 0 }
    requires d_in { d ≢ pos 0 }
    ensures { IsQuotient a b c d result.0 result.1 }
{
    let (low, _) = extremes(
        quotient_down(a, c),
        quotient_down(a, d),
        quotient_down(b, c),
        quotient_down(b, d),
    );
    let (_, high) = extremes(
        quotient_up(a, c),
        quotient_up(a, d),
        quotient_up(b, c),
        quotient_up(b, d),
    );
    (low, high)
}
