ghost use Rattle.std.specs.Prelude.{◌≡◌, ◌↔◌, ◌^◌, ◌<◌, ◌≤◌, SomeIff, IsTrue};
ghost use Rattle.fx_nums.specs.Fraction.{
  den_value,
  DenFits,
  FractionFits,
  is_one,
  is_zero,
  minus,
  one_fraction,
  zero_fraction,
};

use crate::limits::{GREATEST_TEN, GREATEST_TWO, NUMERATOR_BITS, VALUE_BITS};
use std::marker::Model;

/// The denominator of a fraction: a power of two, or of ten.
#[derive(Clone, Copy, Debug, PartialEq, Eq)]
pub enum Den {
    /// 2^e. A fraction has e up to 62.
    Two(u8),
    /// 10^d. A fraction has d up to 28.
    Ten(u8),
}

impl Den {
    /// Whether the power is one that a fraction may have.
    pub fn fits(self) -> bool
        ensures { IsTrue result ↔ DenFits self }
    {
        match self {
            Den::Two(e) => e <= GREATEST_TWO,
            Den::Ten(d) => d <= GREATEST_TEN,
        }
    }

    /// The power as a number, from 1 to 10^28.
    pub fn value(self) -> u128
        requires { DenFits self }
        ensures value { result ≡ den_value self }
        ensures positive { 0 < result }
        ensures bound { result ≤ 10 ^ GREATEST_TEN }
    {
        match self {
            Den::Two(e) => 1u128 << e,
            Den::Ten(d) => 10u128.pow(u32::from(d)),
        }
    }
}

/// A fraction: its numerator is below 2^62 in magnitude, and its value below 2^24.
#[derive(Clone, Copy, Debug, PartialEq, Eq)]
pub struct Frac {
    num: i64,
    den: Den,
}

impl Model for Frac {
    ghost use Rattle.fx_nums.specs.Fraction.{Fraction, FractionFits};

    ghost Value = { Fraction };

    ghost view = { λ f. record { num = f.num; den = f.den } };

    ghost invariant = { λ f. FractionFits f.num f.den };

    ghost inverse = { λ v. record { num = v.num; den = v.den } };
}

impl Frac {
    /// The fraction `num / den`, or None where it is out of range.
    pub fn new(num: i64, den: Den) -> Option<Frac>
        ensures { SomeIff result (FractionFits num den) (record { num = num; den = den }) }
    {
        let magnitude = num.unsigned_abs();
        if !den.fits() || magnitude >= 1 << NUMERATOR_BITS {
            return None;
        }
        if u128::from(magnitude) >= (1 << VALUE_BITS) * den.value() {
            return None;
        }
        Some(Frac { num, den })
    }

    /// The number 0, over 10^0.
    pub fn zero() -> Frac
        ensures { result ≡ zero_fraction }
    {
        Frac {
            num: 0,
            den: Den::Ten(0),
        }
    }

    /// The number 1, over 10^0.
    pub fn one() -> Frac
        ensures { result ≡ one_fraction }
    {
        Frac {
            num: 1,
            den: Den::Ten(0),
        }
    }

    /// The numerator.
    pub fn num(self) -> i64
        ensures value { result ≡ self.num }
        ensures fits { FractionFits self.num self.den }
    {
        self.num
    }

    /// The denominator.
    pub fn den(self) -> Den
        ensures { result ≡ self.den }
    {
        self.den
    }

    /// Whether the fraction is 0.
    pub fn is_zero(self) -> bool
        ensures { result ≡ is_zero self }
    {
        self.num == 0
    }

    /// Whether the fraction is 1.
    pub fn is_one(self) -> bool
        ensures { result ≡ is_one self }
    {
        self.num > 0 && u128::from(self.num.unsigned_abs()) == self.den.value()
    }

    /// The fraction with the other sign.
    pub fn neg(self) -> Frac
        ensures { result ≡ minus self }
    {
        Frac {
            num: -self.num,
            den: self.den,
        }
    }
}
