//! Products of a whole number with a fraction, rounded down and up, without a division.

ghost use Rattle.std.specs.Prelude.{
  ◌≡◌,
  ◌+◌,
  ◌-◌,
  ◌*◌,
  ◌^◌,
  ◌<◌,
  ◌≤◌,
  pos,
  ◌*ℤ◌,
  ◌+ℤ◌,
  ◌<ℤ◌,
  ◌≤ℤ◌,
  unsigned_abs,
  false,
  true,
};
ghost use Rattle.fx_math.specs.Division.{floor_div, ceil_div};
ghost use Rattle.fx_nums.specs.Fraction.{den_value, DenFits};
ghost use Rattle.fx_nums.specs.Products.{
  is_exact,
  widened_low,
  widened_high,
  lesser_product,
  greater_product,
  product_down,
  product_up,
  floor_mul,
  ceil_mul,
  IsOperands,
  IsRoundedProduct,
};

use crate::fraction::{Den, Frac};
use crate::limits::{
    APART_BITS, DROPPED_BITS, FACTOR_BITS, GREATEST_TEN, GREATEST_TWO, NUMERATOR_BITS,
    OPERAND_BITS, PRODUCT_BITS, SUMMAND_BITS,
};
use crate::tens::magnitude_over_ten;

// `n / 2^e` rounded down and up.
#[inline]
fn over_two(n: i128, e: u8) -> (i128, i128)
    requires n_in { unsigned_abs n < 2 ^ PRODUCT_BITS }
    requires e_in { e ≤ GREATEST_TWO }
    ensures floor { result.0 ≡ floor_div n (2 ^ e) }
    ensures ceil { result.1 ≡ ceil_div n (2 ^ e) }
{
    (n >> e, -(-n >> e))
}

// `n / 10^d` rounded down and up.
#[inline]
fn over_ten(n: i128, d: u8) -> (i128, i128)
    requires n_in { unsigned_abs n < 2 ^ PRODUCT_BITS }
    requires d_in { d ≤ GREATEST_TEN }
    ensures floor { result.0 ≡ floor_div n (10 ^ d) }
    ensures ceil { result.1 ≡ ceil_div n (10 ^ d) }
{
    let (floor, ceil) = magnitude_over_ten(n.unsigned_abs(), d);
    if n < 0 {
        (-(ceil as i128), -(floor as i128))
    } else {
        (floor as i128, ceil as i128)
    }
}

// `n / den` rounded down and up.
#[inline]
fn quotients(n: i128, den: Den) -> (i128, i128)
    requires n_in { unsigned_abs n < 2 ^ PRODUCT_BITS }
    requires den_in { DenFits den }
    ensures floor { result.0 ≡ floor_div n (den_value den) }
    ensures ceil { result.1 ≡ ceil_div n (den_value den) }
{
    match den {
        Den::Two(e) => over_two(n, e),
        Den::Ten(d) => over_ten(n, d),
    }
}

// Whether the product is below 2^126 in magnitude, found without the product itself.
#[inline]
fn is_product_narrow(p: i128, num: i64) -> bool
    requires p_in { unsigned_abs p < 2 ^ FACTOR_BITS }
    requires num_in { unsigned_abs num < 2 ^ NUMERATOR_BITS }
    ensures { result ≡ is_exact p num }
{
    let size = p.unsigned_abs();
    if size < 1 << u64::BITS {
        return true;
    }
    let factor = num.unsigned_abs() as u128;
    let low = size % (1 << u64::BITS) * factor;
    (size >> u64::BITS) * factor + (low >> u64::BITS) < 1 << (PRODUCT_BITS - u64::BITS)
}

// The product, which stands in one number.
#[inline]
fn product(p: i128, num: i64) -> i128
    requires { unsigned_abs (p *ℤ num) < 2 ^ PRODUCT_BITS }
    ensures { result ≡ p *ℤ num }
{
    p * num as i128
}

/// `p / 2^32` rounded down.
#[inline]
pub(crate) fn widened_low(p: i128) -> i128
    requires { unsigned_abs p < 2 ^ FACTOR_BITS }
    ensures value { result ≡ widened_low p }
    ensures bound { unsigned_abs result ≤ 2 ^ (FACTOR_BITS - DROPPED_BITS) }
    ensures narrow { unsigned_abs p < 2 ^ OPERAND_BITS → unsigned_abs result ≤ 2 ^ (OPERAND_BITS - DROPPED_BITS) }
{
    p >> DROPPED_BITS
}

/// `p / 2^32` rounded up.
#[inline]
pub(crate) fn widened_high(p: i128) -> i128
    requires { unsigned_abs p < 2 ^ FACTOR_BITS }
    ensures value { result ≡ widened_high p }
    ensures bound { unsigned_abs result ≤ 2 ^ (FACTOR_BITS - DROPPED_BITS) }
    ensures narrow { unsigned_abs p < 2 ^ OPERAND_BITS → unsigned_abs result ≤ 2 ^ (OPERAND_BITS - DROPPED_BITS) }
{
    -(-p >> DROPPED_BITS)
}

// A product of a widened number.
#[inline]
fn widened_product(p: i128, num: i64) -> i128
    requires p_in { unsigned_abs p ≤ 2 ^ (FACTOR_BITS - DROPPED_BITS) }
    requires num_in { unsigned_abs num < 2 ^ NUMERATOR_BITS }
    ensures value { result ≡ p *ℤ num }
    ensures bound { unsigned_abs result < 2 ^ PRODUCT_BITS }
{
    p * num as i128
}

// A quotient of a widened number, at its place again.
#[inline]
fn put_back(q: i128) -> i128
    requires { unsigned_abs q ≤ 2 ^ 88 }
    ensures { result ≡ q *ℤ pos (2 ^ DROPPED_BITS) }
{
    q << DROPPED_BITS
}

// The lesser and the greater product with the whole numbers next to `p / 2^32`.
#[inline]
fn widened_products(p: i128, num: i64) -> (i128, i128)
    requires p_in { unsigned_abs p < 2 ^ FACTOR_BITS }
    requires num_in { unsigned_abs num < 2 ^ NUMERATOR_BITS }
    ensures lesser { result.0 ≡ lesser_product p num }
    ensures lesser_in { unsigned_abs result.0 < 2 ^ PRODUCT_BITS }
    ensures greater { result.1 ≡ greater_product p num }
    ensures greater_in { unsigned_abs result.1 < 2 ^ PRODUCT_BITS }
{
    let down = widened_product(widened_low(p), num);
    let up = widened_product(widened_high(p), num);
    (down.min(up), down.max(up))
}

// Both roundings of a product that is taken exactly.
#[inline]
fn exact_ends(p: i128, num: i64, den: Den) -> (i128, i128)
    requires operands { IsOperands p num (den_value den) }
    requires den_in { DenFits den }
    requires exact { is_exact p num ≡ true }
    ensures floor { result.0 ≡ product_down p num (den_value den) }
    ensures ceil { result.1 ≡ product_up p num (den_value den) }
{
    quotients(product(p, num), den)
}

// Both roundings of a product of a widened number.
fn wide_ends(p: i128, num: i64, den: Den) -> (i128, i128)
    requires operands { IsOperands p num (den_value den) }
    requires den_in { DenFits den }
    requires wide { is_exact p num ≡ false }
    ensures floor { result.0 ≡ product_down p num (den_value den) }
    ensures ceil { result.1 ≡ product_up p num (den_value den) }
{
    let (lesser, greater) = widened_products(p, num);
    let (floor, _) = quotients(lesser, den);
    let (_, ceil) = quotients(greater, den);
    (put_back(floor), put_back(ceil))
}

// Both roundings of a product.
#[inline]
fn rounded_ends(p: i128, num: i64, den: Den) -> (i128, i128)
    requires operands { IsOperands p num (den_value den) }
    requires den_in { DenFits den }
    ensures floor { result.0 ≡ product_down p num (den_value den) }
    ensures ceil { result.1 ≡ product_up p num (den_value den) }
{
    if is_product_narrow(p, num) {
        exact_ends(p, num, den)
    } else {
        wide_ends(p, num, den)
    }
}

/// `p * c` rounded down and rounded up. Where the product is below 2^126 in magnitude both are exact; elsewhere `p` is
/// first widened to the multiples of 2^32 next to it. The exact product lies between the two, which are less than 2^57
/// apart. `p` is below 2^`FACTOR_BITS` in magnitude.
#[inline]
pub fn mul_ends(p: i128, c: Frac) -> (i128, i128)
    requires { unsigned_abs p < 2 ^ FACTOR_BITS }
    ensures { IsRoundedProduct p c.num (den_value c.den) result.0 result.1 }
{
    rounded_ends(p, c.num(), c.den())
}

/// `p * c` rounded down, as by `mul_ends`. `p` is below 2^`FACTOR_BITS` in magnitude.
#[inline]
pub fn floor_mul(p: i128, c: Frac) -> i128
    requires { unsigned_abs p < 2 ^ FACTOR_BITS }
    ensures value { result ≡ floor_mul p c }
    ensures below { (result *ℤ pos (den_value c.den)) ≤ℤ (p *ℤ c.num) }
    ensures near { ceil_mul p c <ℤ (result +ℤ pos (2 ^ APART_BITS)) }
    ensures small { unsigned_abs result ≤ 2 ^ SUMMAND_BITS }
{
    mul_ends(p, c).0
}

/// `p * c` rounded up, as by `mul_ends`. `p` is below 2^`FACTOR_BITS` in magnitude.
#[inline]
pub fn ceil_mul(p: i128, c: Frac) -> i128
    requires { unsigned_abs p < 2 ^ FACTOR_BITS }
    ensures value { result ≡ ceil_mul p c }
    ensures above { (p *ℤ c.num) ≤ℤ (result *ℤ pos (den_value c.den)) }
    ensures near { result <ℤ (floor_mul p c +ℤ pos (2 ^ APART_BITS)) }
    ensures small { unsigned_abs result ≤ 2 ^ SUMMAND_BITS }
{
    mul_ends(p, c).1
}
