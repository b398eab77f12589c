//! Coefficients of a row: rounded, and brought from the low position of their source to that of the row.

ghost use Rattle.std.specs.Prelude.{
  ◌≡◌,
  ◌<◌,
  ◌≤◌,
  ◌^◌,
  ◌+◌,
  ◌*◌,
  ◌-◌,
  ◌*ℤ◌,
  ◌+ℤ◌,
  ◌-ℤ◌,
  ◌≢◌,
  unsigned_abs,
  pos,
  slice_index_or,
  false,
};
ghost use Rattle.fx_math.specs.Division.{floor_div};
ghost use Rattle.fx_nums.specs.Fraction.{den_value};
ghost use Rattle.fx_quant.specs.Inside.{grid_of};
ghost use Rattle.fx_quant.specs.Rounding.{odd_part, rounded, zeros};
ghost use Rattle.fx_quant.specs.Positions.{row_low, source_low};
ghost use Rattle.fx_quant.specs.Rows.{IsSmall, at_least_zero, code_term, is_wide, left_of, product_of, scaled};

use crate::formats::{GREATEST_FRACTION, ROUNDED_BITS};
use fx_code::{COEFFICIENT_BITS, CodeTerm, LONGEST_SHIFT, PRODUCT_BITS, Read};
use fx_nums::Frac;

// Low positions, and how many places behind the point coefficients have.
#[derive(Drop)]
pub(crate) struct Places {
    pub input_low: i8,
    // Of each row.
    pub lows: Vec<i8>,
    pub fraction: u8,
}

// The low position of a row; 0 where there is none.
fn low_at(lows: &[i8], i: usize) -> i8
    ensures value { result ≡ slice_index_or lows.now i (pos 0) }
    ensures small { unsigned_abs result ≤ 128 }
{
    if i < lows.len() {
        return lows[i];
    }
    0
}

impl Places {
    // The low position of a row.
    fn row_low(&self, i: usize) -> i8
        ensures value { result ≡ row_low (grid_of self.now) i }
        ensures small { unsigned_abs result ≤ 128 }
    {
        low_at(&self.lows, i)
    }

    // The low position of what a term reads.
    fn source_low(&self, from: Read) -> i8
        ensures value { result ≡ source_low (grid_of self.now) from }
        ensures small { unsigned_abs result ≤ 128 }
    {
        match from {
            Read::Now(j) => self.row_low(usize::from(j)),
            Read::Old(j) => self.row_low(usize::from(j)),
            Read::In(_) => self.input_low,
        }
    }
}

// A coefficient with so many places behind the point, as a whole number.
#[derive(Clone, Copy)]
pub(crate) struct Rounded {
    pub number: i128,
}

// A number shifted to the left.
fn shifted(z: Rounded, left: u32) -> Rounded
    requires left { left ≤ LONGEST_SHIFT }
    requires fits { unsigned_abs (z.number *ℤ pos (2 ^ left)) < 2 ^ 127 }
    ensures { result.number ≡ z.number *ℤ pos (2 ^ left) }
{
    Rounded {
        number: z.number * (1i128 << left),
    }
}

// Twice a coefficient, in units of 2^-fraction and of one over its denominator.
#[tactic(auto, using(crate::proofs::Rounding::doubled_small, crate::proofs::Rounding::doubled_fits))]
fn doubled(fraction: u8, c: Frac) -> Rounded
    requires { fraction ≤ GREATEST_FRACTION }
    ensures value { result.number ≡ c.num *ℤ pos (2 ^ (fraction + 1)) }
    ensures small { unsigned_abs result.number < 2 ^ 103 }
{
    let numerator = Rounded {
        number: i128::from(c.num()),
    };
    shifted(numerator, u32::from(fraction) + 1)
}

// The same, within the bound of a coefficient.
fn doubled_within(fraction: u8, c: Frac) -> Rounded
    requires { fraction ≤ GREATEST_FRACTION }
    ensures value { result.number ≡ c.num *ℤ pos (2 ^ (fraction + 1)) }
    ensures bound { unsigned_abs result.number ≤ 2 ^ ROUNDED_BITS * den_value c.den }
    ensures small { unsigned_abs result.number < 2 ^ 103 }
{
    let _ = c.num();
    doubled(fraction, c)
}

// A quotient, rounded down.
fn floor_of(z: Rounded, n: u128) -> Rounded
    requires positive { 0 < n }
    requires fits { n < 2 ^ 127 }
    requires small { unsigned_abs z.number ≤ (2 ^ ROUNDED_BITS - 1) * n }
    ensures value { result.number ≡ floor_div z.number n }
    ensures bound { unsigned_abs result.number < 2 ^ ROUNDED_BITS }
{
    Rounded {
        number: z.number.div_euclid(n as i128),
    }
}

// A sum with a denominator.
fn raised(z: Rounded, den: u128) -> Rounded
    requires small { unsigned_abs z.number < 2 ^ 103 }
    requires fits { den < 2 ^ 103 }
    ensures { result.number ≡ z.number +ℤ pos den }
{
    Rounded {
        number: z.number + den as i128,
    }
}

impl Rounded {
    // Rounded to the nearest.
    #[tactic(auto, unfolding(crate::specs::Rounding::rounded), using(crate::proofs::Rounding::raised_small))]
    pub(crate) fn of(fraction: u8, c: Frac) -> Rounded
        requires { fraction ≤ GREATEST_FRACTION }
        ensures value { result.number ≡ rounded fraction c }
        ensures bound { unsigned_abs result.number < 2 ^ ROUNDED_BITS }
    {
        let _ = c.num();
        let den = c.den().value();
        floor_of(raised(doubled_within(fraction, c), den), 2 * den)
    }

    // How often 2 divides the number.
    #[tactic(auto, unfolding(crate::specs::Rounding::zeros), using(crate::proofs::Rounding::zeros_high))]
    fn zeros(self) -> u8
        requires nonzero { self.number ≢ pos 0 }
        requires small { unsigned_abs self.number < 2 ^ ROUNDED_BITS }
        ensures value { result ≡ zeros self.number }
        ensures high { result < 128 }
    {
        self.number.unsigned_abs().trailing_zeros() as u8
    }

    // What is left of it.
    #[tactic(auto, unfolding(crate::specs::Rounding::odd_part), using(crate::proofs::Rounding::odd_small))]
    fn odd_part(self) -> Rounded
        requires nonzero { self.number ≢ pos 0 }
        requires small { unsigned_abs self.number < 2 ^ ROUNDED_BITS }
        ensures value { result.number ≡ odd_part self.number }
        ensures bound { unsigned_abs result.number < 2 ^ ROUNDED_BITS }
    {
        Rounded {
            number: self.number >> self.zeros(),
        }
    }
}

// Places behind the point.
#[derive(Clone, Copy)]
struct Count {
    count: i16,
}

impl Places {
    // Those of the odd part of a coefficient.
    fn behind(&self, c: Rounded) -> Count
        requires nonzero { c.number ≢ pos 0 }
        requires small { unsigned_abs c.number < 2 ^ ROUNDED_BITS }
        ensures value { result.count ≡ pos self.now.fraction -ℤ pos (zeros c.number) }
        ensures small { unsigned_abs result.count < 2 ^ 8 }
    {
        Count {
            count: i16::from(self.fraction) - i16::from(c.zeros()),
        }
    }

    // By how much row i stands above what it reads.
    fn above(&self, i: usize, from: Read) -> Count
        ensures value { result.count ≡ row_low (grid_of self.now) i -ℤ source_low (grid_of self.now) from }
        ensures small { unsigned_abs result.count ≤ 2 ^ 8 }
    {
        Count {
            count: i16::from(self.row_low(i)) - i16::from(self.source_low(from)),
        }
    }
}

// A coefficient that is not 0: `odd` over 2^places.
#[derive(Clone, Copy)]
pub(crate) struct Scaled {
    pub odd: i128,
    pub places: i16,
    pub from: Read,
}

impl Scaled {
    // The coefficient of row i that reads this source.
    pub(crate) fn of(places: &Places, i: usize, from: Read, c: Rounded) -> Scaled
        requires nonzero { c.number ≢ pos 0 }
        requires small { unsigned_abs c.number < 2 ^ ROUNDED_BITS }
        ensures value { result ≡ scaled (grid_of places.now) i from c.number }
        ensures small { IsSmall result }
    {
        let (behind, above) = (places.behind(c), places.above(i, from));
        Scaled {
            odd: c.odd_part().number,
            places: behind.count + above.count,
            from,
        }
    }

    // The right shift that it asks for.
    pub(crate) fn shift(&self) -> u16
        ensures { result ≡ at_least_zero self.now.places }
    {
        self.places.max(0) as u16
    }

    // Its left shift in a row with this right shift.
    pub(crate) fn left(&self, shift: u16) -> u32
        ensures { result ≡ left_of shift self.now }
    {
        (i32::from(shift) - i32::from(self.places)).unsigned_abs()
    }

    // The odd part, shifted to the left.
    #[tactic(auto, using(crate::proofs::Rounding::product_fits))]
    pub(crate) fn product(&self, shift: u16) -> i128
        requires left { left_of shift self.now ≤ LONGEST_SHIFT }
        requires small { IsSmall self.now }
        ensures { result ≡ product_of shift self.now }
    {
        let odd = Rounded { number: self.odd };
        shifted(odd, self.left(shift)).number
    }

    // Whether that is too large.
    pub(crate) fn is_wide(&self, shift: u16) -> bool
        requires shift { shift ≤ LONGEST_SHIFT }
        requires left { left_of shift self.now ≤ LONGEST_SHIFT }
        requires small { IsSmall self.now }
        ensures { result ≡ is_wide shift self.now }
    {
        let magnitude = self.product(shift).unsigned_abs();
        magnitude >= 1 << COEFFICIENT_BITS || magnitude >= 1 << (u16::from(PRODUCT_BITS) + shift)
    }

    // As a term of integer code.
    #[tactic(auto, using(crate::proofs::Rounding::narrow_small))]
    pub(crate) fn code_term(&self, shift: u16) -> CodeTerm
        requires left { left_of shift self.now ≤ LONGEST_SHIFT }
        requires narrow { is_wide shift self.now ≡ false }
        ensures { result ≡ code_term shift self.now }
    {
        CodeTerm {
            coef: self.odd as i64,
            from: self.from,
            left: self.left(shift) as u8,
        }
    }
}
