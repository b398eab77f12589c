ghost use Rattle.std.specs.Prelude.{◌≡◌, ◌^◌, ◌<◌, unsigned_abs, IsTrue};
ghost use Rattle.fx_nums.specs.Arithmetic.{multiple};
ghost use Rattle.fx_nums.specs.Fraction.{den_value};
ghost use Rattle.fx_nums.specs.Products.{IsRoundedProduct};

use crate::products::small_span;
use crate::span::Span;
use fx_nums::{FACTOR_BITS, Frac, mul_ends};
use std::marker::Model;

/// A fraction with its denominator as a number and its magnitude times 2^64, rounded down, kept beside it.
#[derive(Clone, Copy)]
pub struct Ratio {
    fraction: Frac,
    den: u128,
    // 2^64 times the magnitude, rounded down.
    ratio: u128,
}

impl Model for Ratio {
    ghost use Rattle.fx_nums.specs.Fraction.{Fraction, den_value};
    ghost use Rattle.fx_ratio.specs.Kept.{IsKept, ratio_of};

    ghost Value = { Fraction };

    ghost view = { λ r. r.fraction };

    ghost invariant = { λ r. IsKept r.fraction r.den r.ratio };

    ghost inverse = { λ v. record { fraction = v; den = den_value v.den; ratio = ratio_of v } };

    ghost inverse_ok = { λ a h. rw (← h.ratio_is, ← h.den_is) (λ i. a) };
}

// Whether a number is below 2^64.
#[inline(always)]
pub(crate) fn is_small(w: i128) -> bool
    ensures { IsTrue result → unsigned_abs w < 2 ^ 64 }
{
    w.unsigned_abs() < 1 << u64::BITS
}

// The product of a number that is wider than 64 bits.
#[inline(never)]
fn wide_span(w: i128, fraction: Frac) -> Span
    requires { unsigned_abs w < 2 ^ FACTOR_BITS }
    ensures ends { result ≡ multiple w fraction }
    ensures rounded { IsRoundedProduct w fraction.num (den_value fraction.den) result.lo result.hi }
{
    let (low, high) = mul_ends(w, fraction);
    Span::between(low, high)
}

impl Ratio {
    /// Of a fraction. This takes one division; the products take none.
    pub fn new(fraction: Frac) -> Ratio
        ensures { result ≡ fraction }
    {
        let den = fraction.den().value();
        let magnitude = u128::from(fraction.num().unsigned_abs());
        Ratio {
            fraction,
            den,
            ratio: (magnitude << u64::BITS) / den,
        }
    }

    /// The fraction.
    pub fn fraction(self) -> Frac
        ensures { result ≡ self }
    {
        self.fraction
    }

    // The product with a number below 2^64.
    #[inline(always)]
    pub(crate) fn small_multiple(self, w: i128) -> Span
        requires { unsigned_abs w < 2 ^ 64 }
        ensures ends { result ≡ multiple w self }
        ensures rounded { IsRoundedProduct w self.num (den_value self.den) result.lo result.hi }
    {
        small_span(w, self.fraction.num(), self.den, self.ratio)
    }

    /// The product of `w / 2^64` with the fraction, rounded outward: what `Iv::multiple` answers. `w` is below
    /// 2^`FACTOR_BITS` in magnitude; from 2^64 on it takes as long as there.
    pub fn multiple(self, w: i128) -> Span
        requires { unsigned_abs w < 2 ^ FACTOR_BITS }
        ensures ends { result ≡ multiple w self }
        ensures rounded { IsRoundedProduct w self.num (den_value self.den) result.lo result.hi }
    {
        if is_small(w) {
            self.small_multiple(w)
        } else {
            wide_span(w, self.fraction)
        }
    }

    /// `w` times the fraction, rounded down and rounded up: what `fx_nums::mul_ends` answers. `w` is below
    /// 2^`FACTOR_BITS` in magnitude.
    #[inline]
    pub fn mul_ends(self, w: i128) -> (i128, i128)
        requires { unsigned_abs w < 2 ^ FACTOR_BITS }
        ensures { IsRoundedProduct w self.num (den_value self.den) result.0 result.1 }
    {
        let product = self.multiple(w);
        (product.lo(), product.hi())
    }
}
