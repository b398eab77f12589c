//! Intervals that products and quotients take.

ghost use Rattle.std.specs.Prelude.{◌≡◌, ◌<◌, cond, pos, Some, None};
ghost use Rattle.fx_nums.specs.Arithmetic.{times};
ghost use Rattle.fx_nums.specs.Fraction.{den_value};
ghost use Rattle.fx_nums.specs.Interval.{IntervalFits, enclosure, opposite, plus, point};
ghost use Rattle.fx_lattice.specs.Lattice.{IsBelowOne};
ghost use Rattle.fx_lattice.specs.Operations.{in_range, is_below_one, less_product, one_point, quotient};

use fx_nums::{Frac, Iv, OPERAND_BITS, SCALE_BITS};
use std::marker::Model;

/// An interval with ends below 2^88 in magnitude.
#[derive(Clone, Copy)]
pub struct Operand {
    interval: Iv,
}

impl Model for Operand {
    ghost use Rattle.fx_nums.specs.Interval.{Interval, IntervalFits};
    ghost use Rattle.fx_nums.specs.declared.limits.TheConstants.{OPERAND_BITS};

    ghost Value = { Interval };

    ghost view = { λ o. o.interval };

    ghost invariant = { λ o. IntervalFits o.interval OPERAND_BITS };

    ghost inverse = { λ v. record { interval = v } };
}

impl Operand {
    /// The interval, where its ends are in range.
    #[tactic(auto, unfolding(crate::specs::Operations::in_range))]
    pub fn of(interval: Iv) -> Option<Operand>
        ensures { result ≡ in_range interval }
    {
        if interval.fits(OPERAND_BITS) {
            Some(Operand { interval })
        } else {
            None
        }
    }

    /// The least interval that encloses a fraction.
    pub fn enclosing(c: Frac) -> Operand
        ensures { result ≡ enclosure c.num (den_value c.den) }
    {
        Operand {
            interval: Iv::of(c),
        }
    }

    /// The number 0.
    pub fn zero() -> Operand
        ensures { result ≡ point (pos 0) }
    {
        Operand {
            interval: Iv::point(0),
        }
    }

    /// The interval itself.
    pub fn interval(self) -> Iv
        ensures value { result ≡ self }
        ensures fits { IntervalFits self OPERAND_BITS }
    {
        self.interval
    }

    /// The products of the numbers of both.
    #[tactic(auto, unfolding(crate::specs::Operations::in_range))]
    fn times(self, o: Operand) -> Option<Operand>
        ensures { result ≡ in_range (times self o) }
    {
        match self.interval().times(o.interval()) {
            Some(interval) => Some(Operand { interval }),
            None => None,
        }
    }

    /// The numbers of one less those of the other.
    fn less(self, o: Operand) -> Option<Operand>
        ensures { result ≡ in_range (plus self (opposite o)) }
    {
        Operand::of(self.interval().add(o.interval().neg()))
    }

    /// The numbers of one less the products of two others.
    #[tactic(auto, unfolding(crate::specs::Operations::less_product))]
    pub fn less_product(self, x: Operand, y: Operand) -> Option<Operand>
        ensures { result ≡ less_product self x y }
    {
        let product = x.times(y)?;
        self.less(product)
    }

    /// The quotients of the numbers of both. None also where the divisor, which is widened first, then has
    /// the number 0.
    #[tactic(auto, unfolding(crate::specs::Operations::in_range, crate::specs::Operations::quotient))]
    pub fn over(self, o: Operand) -> Option<Operand>
        ensures { result ≡ quotient self o }
    {
        match self.interval().divide(o.interval()) {
            Some(interval) => Some(Operand { interval }),
            None => None,
        }
    }
}

/// The number 1 in units of 2^-64.
const ONE: i128 = 1 << SCALE_BITS;

/// The number 1.
pub fn one() -> Operand
    ensures { result ≡ one_point }
{
    Operand {
        interval: Iv::point(ONE),
    }
}

/// An interval of numbers strictly between -1 and 1.
#[derive(Clone, Copy)]
pub struct Reflection {
    interval: Iv,
}

impl Model for Reflection {
    ghost use Rattle.fx_nums.specs.Interval.{Interval};
    ghost use Rattle.fx_lattice.specs.Lattice.{IsBelowOne};

    ghost Value = { Interval };

    ghost view = { λ r. r.interval };

    ghost invariant = { λ r. IsBelowOne r.interval };

    ghost inverse = { λ v. record { interval = v } };
}

impl Reflection {
    /// The interval, where its numbers lie strictly between -1 and 1.
    pub fn of(interval: Iv) -> Option<Reflection>
        ensures { result ≡ cond (is_below_one interval) (Some interval) None }
    {
        if -ONE < interval.lo() && interval.hi() < ONE {
            Some(Reflection { interval })
        } else {
            None
        }
    }

    /// The interval itself.
    pub fn interval(self) -> Iv
        ensures value { result ≡ self }
        ensures below_one { IsBelowOne self }
    {
        self.interval
    }
}
