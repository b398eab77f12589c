//! What the parts of a numeral mean.

ghost use Rattle.std.specs.Prelude.{◌≡◌, ◌≤◌, ◌<◌, ◌+◌, ◌*◌, ◌^◌, min, length, unsigned_abs};
ghost use Rattle.std.specs.List.{AllByRecursion};
ghost use Rattle.fx_nums.specs.Signs.{IsDigit, number_from};
ghost use Rattle.fx_decimal.specs.Numeral.{bounded, limited, scaled};
ghost use Rattle.fx_decimal.specs.Kept.{kept_from};

use crate::fault::DecimalFault;
use crate::limits::{GREATEST_EXPONENT, MOST_DIGITS, TOO_MANY};
use fx_nums::{Den, Frac, GREATEST_TEN, VALUE_BITS, signed};

// Ten to a greater power is no fraction.
const GREATEST_POWER: u128 = 7;

/// What digits write: the number without the zeros at its end, at most the least of too many digits, and the count of
/// those zeros.
#[derive(Clone, Copy)]
pub struct Kept {
    pub number: u64,
    pub zeros: usize,
}

// The number with zeros and one more digit behind it, at most the least of too many digits.
fn grown(number: u64, zeros: usize, digit: u8) -> u64
    requires number { number ≤ 10 ^ MOST_DIGITS }
    requires zeros { zeros < 2 ^ 63 }
    requires digit { digit < 10 }
    ensures { result ≡ min (number * 10 ^ (zeros + 1) + digit) (10 ^ MOST_DIGITS) }
{
    if number == 0 {
        return u64::from(digit);
    }
    if zeros >= MOST_DIGITS as usize {
        return TOO_MANY;
    }
    let wide = u128::from(number) * 10u128.pow(zeros as u32 + 1) + u128::from(digit);
    wide.min(u128::from(TOO_MANY)) as u64
}

/// More digits behind those that are kept.
pub fn kept_digits(before: Kept, digits: &[u8]) -> Kept
    requires digits { AllByRecursion IsDigit digits.now }
    requires number { before.number ≤ 10 ^ MOST_DIGITS }
    requires zeros { before.zeros + length digits.now < 2 ^ 63 }
    ensures value { result ≡ kept_from before digits.now }
    ensures number { result.number ≤ 10 ^ MOST_DIGITS }
    ensures zeros { result.zeros ≤ before.zeros + length digits.now }
{
    let mut number = before.number;
    let mut zeros = before.zeros;
    for digit in digits {
        if *digit == b'0' {
            zeros += 1;
        } else {
            number = grown(number, zeros, *digit - b'0');
            zeros = 0;
        }
    }
    Kept { number, zeros }
}

/// The number that digits write, clipped.
pub fn clipped(digits: &[u8]) -> u64
    requires { AllByRecursion IsDigit digits.now }
    ensures { result ≡ min (number_from 0 digits.now) GREATEST_EXPONENT }
{
    let mut number = 0u64;
    for digit in digits {
        number = (10 * number + u64::from(*digit - b'0')).min(GREATEST_EXPONENT);
    }
    number
}

// The fraction over this power of ten, where it is below the limit of a fraction.
fn bounded(negative: bool, number: u64, places: u8) -> Result<Frac, DecimalFault>
    requires number { number < 10 ^ MOST_DIGITS }
    requires places { places ≤ GREATEST_TEN }
    ensures { result ≡ bounded negative number places }
{
    match Frac::new(signed(negative, number), Den::Ten(places)) {
        Some(fraction) => Ok(fraction),
        None => Err(DecimalFault::TooLarge),
    }
}

// The number times a power of ten that is not below 1.
fn raised(negative: bool, number: u64, power: u128) -> Result<Frac, DecimalFault>
    requires some { 0 < number }
    requires number { number < 10 ^ MOST_DIGITS }
    ensures { result ≡ bounded negative (number * 10 ^ power) 0 }
{
    if power > GREATEST_POWER {
        return Err(DecimalFault::TooLarge);
    }
    let whole = u128::from(number) * 10u128.pow(power as u32);
    if whole >= 1 << VALUE_BITS {
        return Err(DecimalFault::TooLarge);
    }
    bounded(negative, whole as u64, 0)
}

// The number times a power of ten.
fn scaled(negative: bool, number: u64, power: i128) -> Result<Frac, DecimalFault>
    requires some { 0 < number }
    requires number { number < 10 ^ MOST_DIGITS }
    requires power { unsigned_abs power < 2 ^ 100 }
    ensures { result ≡ scaled negative number power }
{
    if power >= 0 {
        return raised(negative, number, power as u128);
    }
    let places = power.unsigned_abs();
    if places > u128::from(GREATEST_TEN) {
        return Err(DecimalFault::TooFine);
    }
    bounded(negative, number, places as u8)
}

/// A number that has no zero at its end, times a power of ten.
pub fn limited(negative: bool, number: u64, power: i128) -> Result<Frac, DecimalFault>
    requires { unsigned_abs power < 2 ^ 100 }
    ensures { result ≡ limited negative number power }
{
    if number == 0 {
        return bounded(false, 0, 0);
    }
    if number >= TOO_MANY {
        return Err(DecimalFault::TooManyDigits);
    }
    scaled(negative, number, power)
}
