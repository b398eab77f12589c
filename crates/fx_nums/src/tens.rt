//! Division by powers of ten, without a division.
ghost use Rattle.std.specs.Prelude.{◌≡◌, ◌+◌, ◌*◌, ◌/◌, ◌%◌, ◌^◌, ◌<◌, ◌≤◌};
ghost use Rattle.std.specs.Int.{div_ceil};

use crate::limits::{GREATEST_TEN, PRODUCT_BITS};

// The powers of ten up to the greatest denominator.
const TENS: [u128; GREATEST_TEN as usize + 1] = [
    1,
    10,
    100,
    1_000,
    10_000,
    100_000,
    1_000_000,
    10_000_000,
    100_000_000,
    1_000_000_000,
    10_000_000_000,
    100_000_000_000,
    1_000_000_000_000,
    10_000_000_000_000,
    100_000_000_000_000,
    1_000_000_000_000_000,
    10_000_000_000_000_000,
    100_000_000_000_000_000,
    1_000_000_000_000_000_000,
    10_000_000_000_000_000_000,
    100_000_000_000_000_000_000,
    1_000_000_000_000_000_000_000,
    10_000_000_000_000_000_000_000,
    100_000_000_000_000_000_000_000,
    1_000_000_000_000_000_000_000_000,
    10_000_000_000_000_000_000_000_000,
    100_000_000_000_000_000_000_000_000,
    1_000_000_000_000_000_000_000_000_000,
    10_000_000_000_000_000_000_000_000_000,
];

// 2^126 over each power of ten, rounded down.
const RECIPROCALS: [u128; GREATEST_TEN as usize + 1] = [
    85_070_591_730_234_615_865_843_651_857_942_052_864,
    8_507_059_173_023_461_586_584_365_185_794_205_286,
    850_705_917_302_346_158_658_436_518_579_420_528,
    85_070_591_730_234_615_865_843_651_857_942_052,
    8_507_059_173_023_461_586_584_365_185_794_205,
    850_705_917_302_346_158_658_436_518_579_420,
    85_070_591_730_234_615_865_843_651_857_942,
    8_507_059_173_023_461_586_584_365_185_794,
    850_705_917_302_346_158_658_436_518_579,
    85_070_591_730_234_615_865_843_651_857,
    8_507_059_173_023_461_586_584_365_185,
    850_705_917_302_346_158_658_436_518,
    85_070_591_730_234_615_865_843_651,
    8_507_059_173_023_461_586_584_365,
    850_705_917_302_346_158_658_436,
    85_070_591_730_234_615_865_843,
    8_507_059_173_023_461_586_584,
    850_705_917_302_346_158_658,
    85_070_591_730_234_615_865,
    8_507_059_173_023_461_586,
    850_705_917_302_346_158,
    85_070_591_730_234_615,
    8_507_059_173_023_461,
    850_705_917_302_346,
    85_070_591_730_234,
    8_507_059_173_023,
    850_705_917_302,
    85_070_591_730,
    8_507_059_173,
];

// A power of ten.
#[inline]
fn ten_power(d: u8) -> u128
    requires { d ≤ GREATEST_TEN }
    ensures value { result ≡ 10 ^ d }
    ensures bound { result ≤ 10 ^ GREATEST_TEN }
    ensures positive { 0 < result }
{
    TENS[d as usize]
}

// 2^126 over a power of ten, rounded down.
#[inline]
fn reciprocal(d: u8) -> u128
    requires { d ≤ GREATEST_TEN }
    ensures bound { result ≤ 2 ^ PRODUCT_BITS }
    ensures low { result * 10 ^ d ≤ 2 ^ PRODUCT_BITS }
    ensures high { 2 ^ PRODUCT_BITS ≤ (result + 1) * 10 ^ d }
{
    RECIPROCALS[d as usize]
}

// `n * m / 2^126` rounded down.
#[inline]
fn high_product(n: u128, m: u128) -> u128
    requires n_in { n < 2 ^ PRODUCT_BITS }
    requires m_in { m ≤ 2 ^ PRODUCT_BITS }
    ensures { result ≡ n * m / 2 ^ PRODUCT_BITS }
{
    let (n_high, n_low) = (n >> u64::BITS, n % (1 << u64::BITS));
    let (m_high, m_low) = (m >> u64::BITS, m % (1 << u64::BITS));
    let middle = n_high * m_low + n_low * m_high + (n_low * m_low >> u64::BITS);
    n_high * m_high * 4 + (middle >> (PRODUCT_BITS - u64::BITS))
}

// The quotient by `t`, whose reciprocal is `m`, and what is left.
#[tactic(auto, using(crate::proofs::Reciprocals::guess_below))]
fn div_rem_by(n: u128, t: u128, m: u128) -> (u128, u128)
    requires n_in { n < 2 ^ PRODUCT_BITS }
    requires positive { 0 < t }
    requires m_in { m ≤ 2 ^ PRODUCT_BITS }
    requires low { m * t ≤ 2 ^ PRODUCT_BITS }
    requires high { 2 ^ PRODUCT_BITS ≤ (m + 1) * t }
    ensures parts { result.0 * t + result.1 ≡ n }
    ensures rest { result.1 < t }
{
    let guess = high_product(n, m);
    let rest = n - guess * t;
    if rest >= t {
        (guess + 1, rest - t)
    } else {
        (guess, rest)
    }
}

// `n / 10^d` rounded down and rounded up.
#[tactic(auto, using(crate::proofs::Reciprocals::quotient_is, crate::proofs::Reciprocals::rest_is))]
pub(crate) fn magnitude_over_ten(n: u128, d: u8) -> (u128, u128)
    requires n_in { n < 2 ^ PRODUCT_BITS }
    requires d_in { d ≤ GREATEST_TEN }
    ensures floor { result.0 ≡ n / 10 ^ d }
    ensures ceil { result.1 ≡ div_ceil n (10 ^ d) }
{
    let (floor, rest) = div_rem_by(n, ten_power(d), reciprocal(d));
    if rest == 0 {
        (floor, floor)
    } else {
        (floor, floor + 1)
    }
}
