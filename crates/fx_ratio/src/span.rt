ghost use Rattle.std.specs.Prelude.{◌≡◌, ◌↔◌, ◌^◌, ◌<◌, ◌≤◌, ◌+ℤ◌, ◌≤ℤ◌, pos, unsigned_abs, IsTrue};
ghost use Rattle.fx_nums.specs.Arithmetic.{width};
ghost use Rattle.fx_nums.specs.Interval.{IntervalFits, IsInterval, opposite, plus, point};

use fx_nums::{INTERVAL_BITS, Iv, SUMMAND_BITS};
use std::marker::Model;

/// The numbers from `low / 2^64` to `(low + width) / 2^64`: an interval as it is quickest to add to.
#[derive(Clone, Copy)]
pub struct Span {
    low: i128,
    width: u128,
}

impl Model for Span {
    ghost use Rattle.std.specs.Prelude.{◌≡◌, ◌+ℤ◌, ◌-ℤ◌, pos, unsigned_abs};
    ghost use Rattle.fx_nums.specs.Interval.{Interval, IsInterval};
    ghost use Rattle.std.proofs.Common.{arith};
    ghost use Rattle.std.proofs.lemmas.Int.{ints};

    ghost Value = { Interval };

    ghost view = { λ s. record { lo = s.low; hi = s.low +ℤ pos s.width } };

    ghost invariant = { λ s. IsInterval (record { lo = s.low; hi = s.low +ℤ pos s.width }) };

    ghost inverse = { λ v. record { low = v.lo; width = unsigned_abs (v.hi -ℤ v.lo) } };

    ghost inverse_ok = { λ a h. let same : unsigned_abs ((a.low +ℤ pos a.width) -ℤ a.low) ≡ a.width = omega (arith, ints) in rw same (λ i. a) };
}

impl Span {
    /// One number, `v / 2^64`.
    pub fn point(v: i128) -> Span
        requires { unsigned_abs v < 2 ^ INTERVAL_BITS }
        ensures { result ≡ point v }
    {
        Span { low: v, width: 0 }
    }

    // From a low end on, so many times 2^-64 wide.
    #[inline(always)]
    pub(crate) fn above(low: i128, width: u128) -> Span
        requires low { unsigned_abs low ≤ 2 ^ SUMMAND_BITS }
        requires width { width ≤ 2 ^ 60 }
        ensures { result ≡ record { lo = low; hi = low +ℤ pos width } }
    {
        Span { low, width }
    }

    // From one end to the other.
    #[inline(always)]
    pub(crate) fn between(low: i128, high: i128) -> Span
        requires ordered { low ≤ℤ high }
        requires low { unsigned_abs low < 2 ^ INTERVAL_BITS }
        requires high { unsigned_abs high < 2 ^ INTERVAL_BITS }
        ensures { result ≡ record { lo = low; hi = high } }
    {
        Span {
            low,
            width: (high - low) as u128,
        }
    }

    /// Whether it is the number 0 alone.
    #[inline(always)]
    pub fn is_zero(self) -> bool
        ensures { IsTrue result ↔ self ≡ point (pos 0) }
    {
        self.low == 0 && self.width == 0
    }

    /// The low end, times 2^64.
    #[inline(always)]
    pub fn lo(self) -> i128
        ensures value { result ≡ self.lo }
        ensures kept { IsInterval self }
    {
        self.low
    }

    /// The high end, times 2^64.
    #[inline(always)]
    pub fn hi(self) -> i128
        ensures value { result ≡ self.hi }
        ensures kept { IsInterval self }
    {
        self.low + self.width as i128
    }

    /// The sums of the numbers of both. Both fit `SUMMAND_BITS`.
    #[inline(always)]
    pub fn add(self, o: Span) -> Span
        requires left { IntervalFits self SUMMAND_BITS }
        requires right { IntervalFits o SUMMAND_BITS }
        ensures { result ≡ plus self o }
    {
        Span {
            low: self.low + o.low,
            width: self.width + o.width,
        }
    }

    /// The numbers with the other sign.
    pub fn neg(self) -> Span
        ensures { result ≡ opposite self }
    {
        Span {
            low: -self.hi(),
            width: self.width,
        }
    }

    /// The length from the low end to the high one, times 2^64. It is below 2^121.
    #[inline(always)]
    pub fn width(self) -> i128
        ensures value { result ≡ width self }
        ensures positive { pos 0 ≤ℤ result }
    {
        self.width as i128
    }

    /// The same as an interval by its ends.
    pub fn interval(self) -> Iv
        ensures { result ≡ self }
    {
        Iv::point(self.low).hull(Iv::point(self.hi()))
    }
}
