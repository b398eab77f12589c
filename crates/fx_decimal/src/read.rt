//! Numerals, read from left to right.

ghost use Rattle.std.specs.Prelude.{◌≡◌, ◌≤◌, ◌+◌, ◌^◌, ◌<◌, ◌++◌, ◌-ℤ◌, ◌+ℤ◌, pos, IfOk, length, Ok, unsigned_abs};
ghost use Rattle.std.specs.List.{AllByRecursion};
ghost use Rattle.fx_decimal.specs.Continued.{BadByteLaw, EmptyLaw};
ghost use Rattle.fx_decimal.specs.Faults.{
  NumeralLaw,
  TextLaw,
  after_in,
  and_then,
  digits_in,
  exponent_in,
  exponent_number,
  front_digits,
  numeral,
  sign_in,
  stop,
};
ghost use Rattle.fx_nums.specs.Signs.{IsDigit, is_minus};
ghost use Rattle.fx_decimal.specs.Numeral.{after_digits, digits_value, exponent_value};

use crate::fault::DecimalFault;
use crate::limits::GREATEST_EXPONENT;
use crate::value::{Kept, clipped, kept_digits, limited};
use fx_nums::{Frac, signed};

// Whether a minus stands first, and what follows the sign.
fn sign(text: &[u8]) -> (bool, &[u8])
    ensures negative { result.0 ≡ is_minus (sign_in text.now).0 }
    ensures rest { result.1.now ≡ (sign_in text.now).1 }
    ensures within { length result.1.now ≤ length text.now }
{
    match text {
        [b'+', rest @ ..] => (false, rest),
        [b'-', rest @ ..] => (true, rest),
        _ => (false, text),
    }
}

fn digit_count(text: &[u8]) -> usize
    ensures count { result ≡ length (front_digits text.now) }
    ensures within { result ≤ length text.now }
{
    text.iter().take_while(|byte| byte.is_ascii_digit()).count()
}

// The digits at the front, and what follows them.
fn digits(text: &[u8]) -> (&[u8], &[u8])
    ensures digits { result.0.now ≡ (digits_in text.now).0 }
    ensures rest { result.1.now ≡ (digits_in text.now).1 }
    ensures all { AllByRecursion IsDigit result.0.now }
    ensures within { length result.0.now + length result.1.now ≤ length text.now }
{
    let count = digit_count(text);
    (&text[..count], &text[count..])
}

// The digits behind a point, if one stands first, and what follows them.
fn after_point(text: &[u8]) -> (&[u8], &[u8])
    ensures digits { result.0.now ≡ after_digits (after_in text.now).0 }
    ensures rest { result.1.now ≡ (after_in text.now).1 }
    ensures all { AllByRecursion IsDigit result.0.now }
    ensures within { length result.0.now + length result.1.now ≤ length text.now }
{
    match text {
        [b'.', rest @ ..] => digits(rest),
        _ => (&text[..0], text),
    }
}

// What stops the reading of a text of this length.
fn stop(total: usize, rest: &[u8]) -> DecimalFault
    requires { length rest.now ≤ total }
    ensures { result ≡ stop total rest.now }
{
    if rest.is_empty() {
        DecimalFault::Empty
    } else {
        DecimalFault::BadByte(total - rest.len())
    }
}

// The value of an exponent to the end of a text of this length, behind its letter and sign.
fn exponent_digits(total: usize, negative: bool, text: &[u8]) -> Result<i64, DecimalFault>
    requires { length text.now ≤ total }
    ensures value { result ≡ exponent_number total negative (digits_in text.now) }
    ensures within { IfOk result (λ e. unsigned_abs e ≤ GREATEST_EXPONENT) }
{
    let (digits, rest) = digits(text);
    if digits.is_empty() || !rest.is_empty() {
        return Err(stop(total, rest));
    }
    Ok(signed(negative, clipped(digits)))
}

// The value of an exponent, or 0 where the text ends, to the end of a text of this length.
#[tactic(auto, unfolding(crate::specs::Faults::exponent_in))]
fn exponent(total: usize, text: &[u8]) -> Result<i64, DecimalFault>
    requires { length text.now ≤ total }
    ensures value { result ≡ and_then (λ e. Ok (exponent_value e)) (exponent_in total text.now) }
    ensures within { IfOk result (λ e. unsigned_abs e ≤ GREATEST_EXPONENT) }
{
    match text {
        [] => Ok(0),
        [b'e' | b'E', rest @ ..] => {
            let (negative, rest) = sign(rest);
            exponent_digits(total, negative, rest)
        }
        _ => Err(stop(total, text)),
    }
}

// The power of ten of a number, behind whose last digit zeros are dropped.
fn power(exponent: i64, after: usize, zeros: usize) -> i128
    requires { unsigned_abs exponent ≤ GREATEST_EXPONENT }
    ensures value { result ≡ (exponent -ℤ pos after) +ℤ pos zeros }
    ensures small { unsigned_abs result < 2 ^ 100 }
{
    i128::from(exponent) - after as i128 + zeros as i128
}

// The fraction of a sign, digits before and after the point, and an exponent.
fn value(negative: bool, whole: &[u8], after: &[u8], exponent: i64) -> Result<Frac, DecimalFault>
    requires whole { AllByRecursion IsDigit whole.now }
    requires after { AllByRecursion IsDigit after.now }
    requires few { length whole.now + length after.now < 2 ^ 63 }
    requires exponent { unsigned_abs exponent ≤ GREATEST_EXPONENT }
    ensures { result ≡ digits_value negative (whole.now ++ after.now) (length after.now) exponent }
{
    let nothing = Kept {
        number: 0,
        zeros: 0,
    };
    let all = kept_digits(kept_digits(nothing, whole), after);
    limited(
        negative,
        all.number,
        power(exponent, after.len(), all.zeros),
    )
}

/// The fraction that a decimal numeral means, exactly.
///
/// A numeral is `+`, `-` or no sign, then digits with at most one point before, among or after them, then perhaps `e`
/// or `E` with a sign or none and digits. An exponent counts as at most `GREATEST_EXPONENT` in magnitude. The
/// fraction is over the least power of ten that serves.
///
/// The error is the first fault from left to right; of a whole numeral it is that of its digits, its places or its
/// size.
#[tactic(auto, unfolding(crate::specs::Faults::numeral, crate::specs::Faults::parts_in))]
pub fn read_decimal(text: &[u8]) -> Result<Frac, DecimalFault>
    ensures { result ≡ numeral text.now }
{
    let (negative, rest) = sign(text);
    let (whole, rest) = digits(rest);
    let (after, rest) = after_point(rest);
    if whole.is_empty() && after.is_empty() {
        return Err(stop(text.len(), rest));
    }
    match exponent(text.len(), rest) {
        Ok(exponent) => value(negative, whole, after, exponent),
        Err(fault) => Err(fault),
    }
}

/// A text is read as a fraction exactly where it is the text of the parts of a numeral that mean this fraction.
pub fn fraction_is_read_exactly()
    ensures { NumeralLaw }
{}

/// The text of a numeral's parts is read as what they mean, be it a fraction or the fault of a limit.
pub fn numeral_is_read_as_it_means()
    ensures { TextLaw }
{}

/// `Empty` is told exactly where a text is no numeral, but can be continued to one.
pub fn empty_is_unfinished()
    ensures { EmptyLaw }
{}

/// `BadByte` is told exactly at the byte before which the text can be continued to a numeral, and with which it can
/// not.
pub fn bad_byte_is_where_it_stops()
    ensures { BadByteLaw }
{}
