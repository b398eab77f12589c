//! Decimal numerals: read, and printed with nine places.

ghost use Rattle.std.specs.Prelude.{◌≡◌, ◌≤◌, ◌<◌, ◌^◌, length, map, unsigned_abs};
ghost use Rattle.std.specs.List.{AllByRecursion, sum};
ghost use Rattle.fx_decimal.specs.Faults.{numeral};
ghost use Rattle.fx_bench.specs.Marks.{numeral_of_call, printed_mark, printed_sum, read_mark, read_sum, value_of_call};

use crate::checksum::mixed;
use crate::per_call::report;
use fx_decimal::{print_up, read_decimal};
use fx_nums::Den;
use std::io;
use std::rt::Clock;
use std::time::Instant;

// Numerals of 18 digits, as filter files have them.
const NUMERALS: [&[u8]; 16] = [
    b"43.1199938475118251",
    b"0.713795613417638553",
    b"-2.51717085982806726",
    b"7.74493722189696471e-05",
    b"13.1786298621682195",
    b"-0.246373012129263483",
    b"4.17381135784997167",
    b"6.37522489601798705e-06",
    b"-50251.1292304451456",
    b"0.551461091957695602",
    b"2.01210686479226118",
    b"-8.57424720401370382e-05",
    b"32375.1567201966004",
    b"0.404571808230201604",
    b"-9.32940317685534464",
    b"3.27926482113117774e-04",
];

// Errors at the scale 2^-64.
const VALUES: [i128; 16] = [
    33438069963599974040,
    9420949073812859793,
    558349600677820931935,
    79703928596904520603142,
    -35015727559694727649,
    8039282468254526301,
    916914445270302606604,
    105514583726163146169774,
    51111791266898155352,
    -7249315215258992532,
    766695817862920423274,
    153808584540851404226458,
    21031821863769723110,
    11402476280795475337,
    -793172204047378392321,
    221197651551128171910962,
];

// What reading a numeral adds to the checksum.
fn read_mark(text: &[u8]) -> u64
    ensures { result ≡ read_mark (numeral text.now) }
{
    let Ok(fraction) = read_decimal(text) else {
        return 0;
    };
    let places = match fraction.den() {
        Den::Ten(places) => places,
        Den::Two(_) => 0,
    };
    fraction.num().unsigned_abs() + u64::from(places)
}

// The sum of these bytes.
fn byte_sum(bytes: &[u8]) -> u64
    requires { length bytes.now ≤ 64 }
    ensures { result ≡ sum bytes.now }
{
    let mut sum = 0;
    for byte in bytes {
        sum += u64::from(*byte);
    }
    sum
}

// What printing a value adds to the checksum.
fn printed_mark(value: i128) -> u64
    requires { unsigned_abs value < 2 ^ 126 }
    ensures { result ≡ printed_mark value }
{
    byte_sum(print_up(value, 9).bytes())
}

// The numeral that a call reads.
fn numeral_of_call<'a>(numerals: &[&'a [u8]], call: u64, sum: u64) -> &'a [u8]
    requires some { 0 < length numerals.now }
    requires few { call ≤ 2 ^ 36 }
    ensures { result.now ≡ numeral_of_call (map (λ text. text.now) numerals.now) call sum }
{
    let place = (call + sum / (1 << 60)) % numerals.len() as u64;
    numerals[place as usize]
}

// The checksum of so many calls of `read_decimal`. Each call needs the checksum of those before it.
#[tactic(auto, unfolding(crate::specs::Marks::read_sum))]
fn read_sum(numerals: &[&[u8]], calls: u64) -> u64
    requires some { 0 < length numerals.now }
    requires few { calls ≤ 2 ^ 36 }
    ensures { result ≡ read_sum (map (λ text. text.now) numerals.now) calls }
{
    let mut sum = 0;
    for call in 0..calls {
        sum = mixed(sum, read_mark(numeral_of_call(numerals, call, sum)));
    }
    sum
}

// The value that a call prints.
fn value_of_call(values: &[i128], call: u64, sum: u64) -> i128
    requires some { 0 < length values.now }
    requires range { AllByRecursion (λ v. unsigned_abs v < 2 ^ 125) values.now }
    ensures value { result ≡ value_of_call values.now call sum }
    ensures bound { unsigned_abs result < 2 ^ 126 }
{
    let place = call % values.len() as u64;
    values[place as usize] + i128::from(sum % (1 << 34))
}

// The checksum of so many calls of `print_up`. Each call needs the checksum of those before it.
#[tactic(auto, unfolding(crate::specs::Marks::printed_sum))]
fn printed_sum(values: &[i128], calls: u64) -> u64
    requires some { 0 < length values.now }
    requires range { AllByRecursion (λ v. unsigned_abs v < 2 ^ 125) values.now }
    ensures { result ≡ printed_sum values.now calls }
{
    let mut sum = 0;
    for call in 0..calls {
        sum = mixed(sum, printed_mark(value_of_call(values, call, sum)));
    }
    sum
}

/// Times `read_decimal` and `print_up`, this many rounds over a table each, and prints nanoseconds a
/// call and a checksum.
pub fn bench(rt: &(impl Print + Clock), rounds: u32) -> io::Result<()>
    requires { 0 < rounds }
{
    let calls = 16 * u64::from(rounds);
    let start = Instant::now(rt)?;
    let checksum = read_sum(&NUMERALS, calls);
    let time = start.elapsed(rt)?;
    report(rt, "read_decimal 18 digits", time, calls, checksum)?;

    let start = Instant::now(rt)?;
    let checksum = printed_sum(&VALUES, calls);
    let time = start.elapsed(rt)?;
    report(rt, "print_up 9 places", time, calls, checksum)
}
