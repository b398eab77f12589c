//! Decimals, printed into a small fixed text.

ghost use Rattle.std.specs.Prelude.{
  ◌≡◌,
  ◌≤◌,
  ◌<◌,
  ◌+◌,
  ◌-◌,
  ◌*◌,
  ◌/◌,
  ◌%◌,
  ◌^◌,
  ◌++◌,
  ◌∷◌,
  [],
  ℕ,
  List,
  length,
  take,
  pos,
  unsigned_abs,
  ◌&&◌,
  ◌==◌,
  not,
};
ghost use Rattle.std.specs.Fmt.{decimal};
ghost use Rattle.fx_nums.specs.Fraction.{IsOverTen};
ghost use Rattle.fx_nums.specs.Signs.{minus_text};
ghost use Rattle.fx_decimal.specs.declared.limits.TheConstants.{LONGEST_DECIMAL};
ghost use Rattle.fx_decimal.specs.Printed.{down_text, fraction_text, last_digits, lowest, units, up_text, written};

use crate::limits::{LONGEST_DECIMAL, MOST_PLACES};
use fx_nums::{Den, Frac, GREATEST_TEN, SCALE_BITS};
use std::marker::Model;

/// A printed decimal: a text of at most `LONGEST_DECIMAL` bytes.
#[derive(Drop)]
pub struct Decimal {
    text: [u8; LONGEST_DECIMAL],
    len: usize,
}

impl Model for Decimal {
    ghost Value = { List ℕ };

    ghost view = { λ d. take d.len d.text };

    ghost invariant = { λ d. d.len ≤ LONGEST_DECIMAL };
}

impl Decimal {
    fn empty() -> Decimal
        ensures { result ≡ [] }
    {
        Decimal {
            text: [0; LONGEST_DECIMAL],
            len: 0,
        }
    }

    fn push(&mut self, byte: u8)
        requires { length self.old < LONGEST_DECIMAL }
        ensures { self.new ≡ self.old ++ byte ∷ [] }
    {
        self.text[self.len] = byte;
        self.len += 1;
    }

    // The decimal of a number.
    fn push_number(&mut self, number: u64)
        requires { length self.old + length (decimal number) ≤ LONGEST_DECIMAL }
        ensures { self.new ≡ self.old ++ decimal number }
    {
        if number < 10 {
            self.push(b'0' + number as u8);
            return;
        }
        self.push_number(number / 10);
        self.push(b'0' + (number % 10) as u8);
    }

    // The last digits of a number, this many.
    fn push_places(&mut self, number: u64, places: u8)
        requires { length self.old + places ≤ LONGEST_DECIMAL }
        ensures { self.new ≡ self.old ++ last_digits places number }
    {
        if places > 0 {
            self.push_places(number / 10, places - 1);
            self.push(b'0' + (number % 10) as u8);
        }
    }

    /// The text.
    pub fn bytes(&self) -> &[u8]
        ensures text { result.now ≡ self.now }
        ensures short { length self.now ≤ LONGEST_DECIMAL }
    {
        &self.text[..self.len]
    }
}

// A minus, or nothing.
fn minus_text(negative: bool) -> Decimal
    ensures text { result ≡ minus_text negative }
    ensures short { length result ≤ 1 }
{
    let mut text = Decimal::empty();
    if negative {
        text.push(b'-');
    }
    text
}

// A sign and a whole number.
fn whole_text(negative: bool, whole: u64) -> Decimal
    ensures text { result ≡ minus_text negative ++ decimal whole }
    ensures short { length result ≤ 21 }
{
    let mut text = minus_text(negative);
    text.push_number(whole);
    text
}

// A sign, a whole number, and behind a point the other digits.
#[tactic(auto, unfolding(crate::specs::Printed::written))]
fn written(negative: bool, whole: u64, rest: u64, places: u8) -> Decimal
    requires places { places ≤ GREATEST_TEN }
    requires rest { rest < 10 ^ places }
    ensures { result ≡ written negative whole rest places }
{
    let mut text = whole_text(negative, whole);
    if places == 0 {
        return text;
    }
    text.push(b'.');
    text.push_places(rest, places);
    text
}

// A magnitude over 2^64 in units of the last place, rounded up or down: the whole part and the rest.
fn split(magnitude: u128, places: u8, up: bool) -> (u64, u64)
    requires magnitude { magnitude ≤ 2 ^ 126 }
    requires places { places ≤ MOST_PLACES }
    ensures whole { result.0 ≡ units up magnitude places / 10 ^ places }
    ensures rest { result.1 ≡ units up magnitude places % 10 ^ places }
    ensures below { result.1 < 10 ^ places }
{
    let one = Den::Ten(places).value();
    let whole = magnitude / (1 << SCALE_BITS);
    let scaled = magnitude % (1 << SCALE_BITS) * one;
    let part = if up {
        scaled.div_ceil(1 << SCALE_BITS)
    } else {
        scaled / (1 << SCALE_BITS)
    };
    ((whole + part / one) as u64, (part % one) as u64)
}

// A magnitude over 2^64 with this many places, rounded up or down, and with a sign unless it is zero.
fn rounded(negative: bool, magnitude: u128, places: u8, up: bool) -> Decimal
    requires magnitude { magnitude ≤ 2 ^ 126 }
    requires places { places ≤ MOST_PLACES }
    ensures { let n = units up magnitude places in result
        ≡ written (negative && not (n == 0)) (n / 10 ^ places) (n % 10 ^ places) places }
{
    let (whole, rest) = split(magnitude, places, up);
    written(negative && (whole > 0 || rest > 0), whole, rest, places)
}

/// `v / 2^64` with this many places, 1 to `MOST_PLACES`, rounded up in the last. A zero has no sign.
/// `v` is below 2^126 in magnitude.
#[tactic(auto, unfolding(crate::specs::Printed::up_text))]
pub fn print_up(v: i128, places: u8) -> Decimal
    requires range { unsigned_abs v < 2 ^ 126 }
    requires some { 1 ≤ places }
    requires few { places ≤ MOST_PLACES }
    ensures { result ≡ up_text v places }
{
    if v < 0 {
        rounded(true, v.unsigned_abs(), places, false)
    } else {
        rounded(false, v.unsigned_abs(), places, true)
    }
}

/// `v / 2^64` with this many places, 1 to `MOST_PLACES`, rounded down in the last. A zero has no sign.
/// `v` is below 2^126 in magnitude.
#[tactic(auto, unfolding(crate::specs::Printed::down_text))]
pub fn print_down(v: i128, places: u8) -> Decimal
    requires range { unsigned_abs v < 2 ^ 126 }
    requires some { 1 ≤ places }
    requires few { places ≤ MOST_PLACES }
    ensures { result ≡ down_text v places }
{
    if v < 0 {
        rounded(true, v.unsigned_abs(), places, true)
    } else {
        rounded(false, v.unsigned_abs(), places, false)
    }
}

// The number over the least power of ten that serves.
fn lowest(mut number: u64, mut places: u8) -> (u64, u8)
    ensures value { result ≡ lowest number places }
    ensures fewer { result.1 ≤ places }
{
    while places > 0 && number % 10 == 0 {
        number /= 10;
        places -= 1;
    }
    (number, places)
}

/// A fraction over a power of ten, exactly: without zeros at the end of its places, and without a point where it is
/// whole.
#[tactic(auto, unfolding(crate::specs::Printed::fraction_text))]
pub fn print_frac(c: Frac) -> Decimal
    requires { IsOverTen c.den }
    ensures { result ≡ fraction_text c }
{
    let places = match c.den() {
        Den::Ten(d) => d,
        Den::Two(_) => 0,
    };
    let (number, places) = lowest(c.num().unsigned_abs(), places);
    let one = Den::Ten(places).value();
    let (whole, rest) = (u128::from(number) / one, u128::from(number) % one);
    written(c.num() < 0, whole as u64, rest as u64, places)
}
