ghost use Rattle.std.specs.Prelude.{
  ◌≡◌,
  ◌↔◌,
  ℕ,
  ◌^◌,
  ◌<◌,
  ◌≤◌,
  IsTrue,
  false,
  IfSome,
  SomeIff,
  pos,
  ◌+◌,
  ◌-◌,
  ◌*◌,
  ◌+ℤ◌,
  ◌*ℤ◌,
  ◌≤ℤ◌,
  unsigned_abs,
};
ghost use Rattle.fx_math.specs.Division.{floor_div, ceil_div};
ghost use Rattle.fx_math.specs.Ratio.{product_of, Ratio};
ghost use Rattle.fx_nums.specs.Arithmetic.{
  IsLeastMagnitude,
  IsWithin,
  QuotientFits,
  divided,
  from_ends,
  has_zero,
  hull,
  multiple,
  quotient_down,
  quotient_up,
  scaled,
  times,
  widened,
  width,
};
ghost use Rattle.fx_nums.specs.Enclosing.{Encloses};
ghost use Rattle.fx_nums.specs.Fraction.{den_value, value_of};
ghost use Rattle.fx_nums.specs.Products.{IsRoundedProduct, widened_low, widened_high};
ghost use Rattle.fx_nums.specs.Interval.{IntervalFits, IsInterval, point, enclosure, plus, opposite, magnitude};

use crate::ends::{product_ends, quotient_ends, scaled_ends};
use crate::fraction::Frac;
use crate::limits::{
    DROPPED_BITS, FACTOR_BITS, INTERVAL_BITS, NUMERATOR_BITS, OPERAND_BITS, SCALE_BITS,
    SUMMAND_BITS, VALUE_BITS,
};
use crate::products::{mul_ends, widened_high, widened_low};
use std::marker::Model;

/// The numbers from `lo / 2^64` to `hi / 2^64`, both magnitudes below 2^120.
#[derive(Clone, Copy, Debug, PartialEq, Eq)]
pub struct Iv {
    lo: i128,
    hi: i128,
}

impl Model for Iv {
    ghost use Rattle.fx_nums.specs.Interval.{Interval, IsInterval};

    ghost Value = { Interval };

    ghost view = { λ v. record { lo = v.lo; hi = v.hi } };

    ghost invariant = { λ v. IsInterval (record { lo = v.lo; hi = v.hi }) };

    ghost inverse = { λ v. record { lo = v.lo; hi = v.hi } };
}

// A sum of two ends.
fn sum_of(a: i128, b: i128) -> i128
    requires left { unsigned_abs a < 2 ^ SUMMAND_BITS }
    requires right { unsigned_abs b < 2 ^ SUMMAND_BITS }
    ensures value { result ≡ a +ℤ b }
    ensures fits { unsigned_abs result < 2 ^ INTERVAL_BITS }
{
    a + b
}

// A numerator at the scale 2^-64.
fn at_scale(num: i64) -> i128
    requires { unsigned_abs num < 2 ^ NUMERATOR_BITS }
    ensures { result ≡ num *ℤ pos (2 ^ SCALE_BITS) }
{
    i128::from(num) * (1i128 << SCALE_BITS)
}

// A quotient, rounded down.
fn floor_of(z: i128, n: u128) -> i128
    requires positive { 0 < n }
    requires fits { n < 2 ^ 127 }
    requires small { unsigned_abs z ≤ (2 ^ OPERAND_BITS - 1) * n }
    ensures value { result ≡ floor_div z n }
    ensures bound { unsigned_abs result < 2 ^ OPERAND_BITS }
{
    z.div_euclid(n as i128)
}

// A quotient, rounded up.
fn ceil_of(z: i128, n: u128) -> i128
    requires positive { 0 < n }
    requires fits { n < 2 ^ 127 }
    requires range { unsigned_abs z < 2 ^ 127 }
    requires small { unsigned_abs z ≤ (2 ^ OPERAND_BITS - 1) * n }
    ensures value { result ≡ ceil_div z n }
    ensures bound { unsigned_abs result < 2 ^ OPERAND_BITS }
{
    -floor_of(-z, n)
}

impl Iv {
    /// One number, `v / 2^64`.
    pub fn point(v: i128) -> Iv
        requires { unsigned_abs v < 2 ^ INTERVAL_BITS }
        ensures { result ≡ point v }
    {
        Iv { lo: v, hi: v }
    }

    /// The least interval that encloses a fraction. Both magnitudes are below 2^88.
    pub fn of(c: Frac) -> Iv
        ensures ends { result ≡ enclosure c.num (den_value c.den) }
        ensures small { IntervalFits result OPERAND_BITS }
    {
        let scaled = at_scale(c.num());
        let den = c.den().value();
        Iv {
            lo: floor_of(scaled, den),
            hi: ceil_of(scaled, den),
        }
    }

    /// The low end, times 2^64.
    pub fn lo(self) -> i128
        ensures value { result ≡ self.lo }
        ensures kept { IsInterval self }
    {
        self.lo
    }

    /// The high end, times 2^64.
    pub fn hi(self) -> i128
        ensures value { result ≡ self.hi }
        ensures kept { IsInterval self }
    {
        self.hi
    }

    /// Whether both magnitudes are below 2^bits.
    pub fn fits(self, bits: u32) -> bool
        requires { bits ≤ INTERVAL_BITS }
        ensures { IsTrue result ↔ IntervalFits self bits }
    {
        let limit = 1u128 << bits;
        self.lo.unsigned_abs() < limit && self.hi.unsigned_abs() < limit
    }

    /// The sums of the numbers of two intervals. Both fit `SUMMAND_BITS`.
    pub fn add(self, o: Iv) -> Iv
        requires left { IntervalFits self SUMMAND_BITS }
        requires right { IntervalFits o SUMMAND_BITS }
        ensures { result ≡ plus self o }
    {
        Iv {
            lo: sum_of(self.lo, o.lo),
            hi: sum_of(self.hi, o.hi),
        }
    }

    /// The numbers with the other sign.
    pub fn neg(self) -> Iv
        ensures { result ≡ opposite self }
    {
        let (lo, hi) = (-self.hi, -self.lo);
        Iv { lo, hi }
    }

    /// The greater magnitude of the ends, times 2^64. It is below 2^120.
    pub fn magnitude(self) -> i128
        ensures value { result ≡ pos (magnitude self) }
        ensures fits { magnitude self < 2 ^ INTERVAL_BITS }
    {
        self.lo.unsigned_abs().max(self.hi.unsigned_abs()) as i128
    }

    /// The least magnitude of its numbers, times 2^64: 0 where it has the number 0.
    pub fn low_magnitude(self) -> i128
        ensures value { IsLeastMagnitude self result }
        ensures positive { pos 0 ≤ℤ result }
    {
        if self.lo > 0 {
            self.lo
        } else if self.hi < 0 {
            -self.hi
        } else {
            0
        }
    }

    /// The length from the low end to the high one, times 2^64. It is below 2^121.
    pub fn width(self) -> i128
        ensures value { result ≡ width self }
        ensures positive { pos 0 ≤ℤ result }
    {
        self.hi - self.lo
    }

    /// The least interval that has the numbers of both.
    pub fn hull(self, o: Iv) -> Iv
        ensures { result ≡ hull self o }
    {
        let (lo, hi) = (self.lo.min(o.lo), self.hi.max(o.hi));
        Iv { lo, hi }
    }

    /// The product of `p / 2^64` with a fraction, rounded outward. `p` is below 2^`FACTOR_BITS` in magnitude.
    pub fn multiple(p: i128, c: Frac) -> Iv
        requires { unsigned_abs p < 2 ^ FACTOR_BITS }
        ensures ends { result ≡ multiple p c }
        ensures rounded { IsRoundedProduct p c.num (den_value c.den) result.lo result.hi }
    {
        let (lo, hi) = mul_ends(p, c);
        Iv { lo, hi }
    }

    /// The products of its numbers with a fraction, rounded outward. It fits `FACTOR_BITS`.
    pub fn scale(self, c: Frac) -> Iv
        requires { IntervalFits self FACTOR_BITS }
        ensures ends { result ≡ scaled self c }
        ensures small { IsWithin (2 ^ SUMMAND_BITS) result }
        ensures scales { (b : ℕ) → IsWithin (b * 2 ^ DROPPED_BITS) self →
            IsWithin (b * 2 ^ (VALUE_BITS + DROPPED_BITS)) result }
        ensures encloses { (x : Ratio) → Encloses self x → Encloses result (product_of x (value_of c)) }
    {
        let (lo, hi) = scaled_ends(self.lo, self.hi, c);
        Iv { lo, hi }
    }

    // The ends at the scale 2^-32, rounded outward.
    fn widened(self) -> Iv
        requires { IntervalFits self OPERAND_BITS }
        ensures value { result ≡ widened self }
        ensures small { IsWithin (2 ^ (OPERAND_BITS - DROPPED_BITS)) result }
        ensures ordered { widened_low self.lo ≤ℤ widened_high self.hi }
    {
        let (lo, hi) = (widened_low(self.lo), widened_high(self.hi));
        Iv { lo, hi }
    }

    // Whether the number 0 is among its numbers.
    fn has_zero(self) -> bool
        ensures { result ≡ has_zero self }
    {
        self.lo <= 0 && 0 <= self.hi
    }

    // The products of the numbers of two widened intervals.
    fn whole_product(self, o: Iv) -> Iv
        requires left { IsWithin (2 ^ (OPERAND_BITS - DROPPED_BITS)) self }
        requires right { IsWithin (2 ^ (OPERAND_BITS - DROPPED_BITS)) o }
        ensures { result ≡ from_ends (λ x y. x *ℤ y) (λ x y. x *ℤ y) self o }
    {
        let (lo, hi) = product_ends(self.lo, self.hi, o.lo, o.hi);
        Iv { lo, hi }
    }

    // The quotients by the numbers of a widened interval.
    fn whole_quotient(self, o: Iv) -> Iv
        requires left { IntervalFits self OPERAND_BITS }
        requires apart { has_zero o ≡ false }
        ensures { result ≡ from_ends quotient_down quotient_up self o }
    {
        let (lo, hi) = quotient_ends(self.lo, self.hi, o.lo, o.hi);
        Iv { lo, hi }
    }

    /// The products of the numbers of both, where the ends fit 88 bits.
    ///
    /// Both fit `OPERAND_BITS`, and are first widened to ends that are whole at the scale 2^-32. None where an end of the result has a
    /// magnitude of 2^88 or more.
    pub fn times(self, o: Iv) -> Option<Iv>
        requires left { IntervalFits self OPERAND_BITS }
        requires right { IntervalFits o OPERAND_BITS }
        ensures ends { SomeIff result (IntervalFits (times self o) OPERAND_BITS) (times self o) }
        ensures encloses { IfSome result (λ v. (x y : Ratio) → Encloses self x → Encloses o y →
            Encloses v (product_of x y)) }
    {
        let product = self.widened().whole_product(o.widened());
        if product.fits(OPERAND_BITS) {
            Some(product)
        } else {
            None
        }
    }

    /// The quotients of the numbers of both, where the ends fit 88 bits.
    ///
    /// Both fit `OPERAND_BITS`. The divisor is first widened to ends that are whole at the scale 2^-32. None where it then has the number 0, or
    /// an end of the result has a magnitude of 2^88 or more.
    pub fn divide(self, o: Iv) -> Option<Iv>
        requires left { IntervalFits self OPERAND_BITS }
        requires right { IntervalFits o OPERAND_BITS }
        ensures ends { SomeIff result (QuotientFits self o) (divided self o) }
        ensures encloses { IfSome result (λ v. (q y : Ratio) → 0 < y.den → Encloses o y →
            Encloses self (product_of q y) → Encloses v q) }
    {
        let divisor = o.widened();
        if divisor.has_zero() {
            return None;
        }
        let quotient = self.whole_quotient(divisor);
        if quotient.fits(OPERAND_BITS) {
            Some(quotient)
        } else {
            None
        }
    }
}
