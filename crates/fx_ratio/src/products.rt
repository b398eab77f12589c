//! Products of a number below 2^64 with a fraction whose ratio is at hand, rounded down and up.

ghost use Rattle.std.specs.Prelude.{◌≡◌, ◌+◌, ◌*◌, ◌/◌, ◌%◌, ◌^◌, ◌<◌, ◌≤◌, ◌*ℤ◌, unsigned_abs};
ghost use Rattle.std.specs.Int.{div_ceil};
ghost use Rattle.fx_math.specs.Division.{floor_div, ceil_div};
ghost use Rattle.fx_ratio.specs.Kept.{IsRatio};

use crate::span::Span;

// `x * ratio / 2^64` rounded down.
#[inline(always)]
fn guess_of(x: u64, ratio: u128) -> u128
    requires { ratio < 2 ^ 88 }
    ensures { result ≡ x * ratio / 2 ^ 64 }
{
    let (whole, part) = (ratio >> u64::BITS, ratio % (1 << u64::BITS));
    u128::from(x) * whole + (u128::from(x) * part >> u64::BITS)
}

// What is left of `x * mag` past `guess * den`, from the low 64 bits of each.
#[inline(always)]
fn low_rest(x: u64, mag: u64, den: u64, guess: u64) -> u64
    ensures { (result + guess * den) % 2 ^ 64 ≡ x * mag % 2 ^ 64 }
{
    x.wrapping_mul(mag).wrapping_sub(guess.wrapping_mul(den))
}

// `x * mag / den` rounded down, and what is left, where the guess is right or one too low. Whatever is left then is
// below 2^64.
#[inline(always)]
#[tactic(auto, using(crate::proofs::Guesses::low_rest_is))]
fn narrow_parts(x: u64, mag: u64, den: u64, guess: u128) -> (u128, u128)
    requires narrow { den < 2 ^ 63 }
    requires small { guess < 2 ^ 88 }
    requires low { guess * den ≤ x * mag }
    requires high { x * mag < guess * den + den + den }
    ensures parts { result.0 * den + result.1 ≡ x * mag }
    ensures rest { result.1 < den }
{
    let rest = low_rest(x, mag, den, (guess % (1 << u64::BITS)) as u64);
    if rest >= den {
        (guess + 1, u128::from(rest - den))
    } else {
        (guess, u128::from(rest))
    }
}

// The same for any denominator.
#[inline(always)]
fn wide_parts(x: u64, mag: u64, den: u128, guess: u128) -> (u128, u128)
    requires small { guess < 2 ^ 88 }
    requires low { guess * den ≤ x * mag }
    requires high { x * mag < guess * den + den + den }
    ensures parts { result.0 * den + result.1 ≡ x * mag }
    ensures rest { result.1 < den }
{
    let rest = u128::from(x) * u128::from(mag) - guess * den;
    if rest >= den {
        (guess + 1, rest - den)
    } else {
        (guess, rest)
    }
}

// `x * mag / den` rounded down, and what is left.
#[inline(always)]
#[tactic(auto, using(crate::proofs::Guesses::guess_below, crate::proofs::Guesses::ratio_in))]
fn parts(x: u64, mag: u64, den: u128, ratio: u128) -> (u128, u128)
    requires { IsRatio mag den ratio }
    ensures parts { result.0 * den + result.1 ≡ x * mag }
    ensures rest { result.1 < den }
{
    let guess = guess_of(x, ratio);
    if den < 1 << (u64::BITS - 1) {
        narrow_parts(x, mag, den as u64, guess)
    } else {
        wide_parts(x, mag, den, guess)
    }
}

// `x * mag / den` rounded down, and by how much it is more where it is rounded up.
#[inline(always)]
#[tactic(auto, using(crate::proofs::Guesses::quotient_is, crate::proofs::Guesses::rest_is))]
fn magnitude(x: u64, mag: u64, den: u128, ratio: u128) -> (u128, u128)
    requires { IsRatio mag den ratio }
    ensures floor { result.0 ≡ x * mag / den }
    ensures ceil { result.0 + result.1 ≡ div_ceil (x * mag) den }
    ensures floor_in { result.0 < 2 ^ 88 }
    ensures apart { result.1 ≤ 1 }
{
    let (floor, rest) = parts(x, mag, den, ratio);
    if rest == 0 { (floor, 0) } else { (floor, 1) }
}

// From `w * num / den` rounded down to `w * num / den` rounded up, from the ratio of the magnitude of `num`.
#[inline(always)]
pub(crate) fn small_span(w: i128, num: i64, den: u128, ratio: u128) -> Span
    requires small { unsigned_abs w < 2 ^ 64 }
    requires kept { IsRatio (unsigned_abs num) den ratio }
    ensures floor { result.lo ≡ floor_div (w *ℤ num) den }
    ensures ceil { result.hi ≡ ceil_div (w *ℤ num) den }
{
    let (floor, apart) = magnitude(w.unsigned_abs() as u64, num.unsigned_abs(), den, ratio);
    if (w < 0) != (num < 0) {
        Span::above(-((floor + apart) as i128), apart)
    } else {
        Span::above(floor as i128, apart)
    }
}
