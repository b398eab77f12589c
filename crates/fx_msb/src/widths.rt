//! Widths of words and accumulators.

ghost use Rattle.std.specs.Prelude.{◌≡◌, ◌↔◌, ◌<◌, ◌≤◌, FitsSigned, IsTrue, pos};
ghost use Rattle.std.specs.Int.{w16};
ghost use Rattle.fx_math.specs.Words.{WidthFits};
ghost use Rattle.fx_msb.specs.Widths.{AccumulatorFits, IsBound, IsLeastWidth, top_of};

use fx_math::LEAST_WIDTH;

/// The greatest bound of a row, in steps of the row: 2^31 - 1.
pub const GREATEST_BOUND: u32 = 2147483647;

/// The number that the limit of bounds is.
pub fn greatest_bound_is_this()
    ensures { GREATEST_BOUND ≡ 2147483647 }
{}

// A bound as a number without a sign.
fn magnitude(x: i64) -> u64
    requires { IsBound x }
    ensures value { x ≡ pos result }
    ensures small { result ≤ GREATEST_BOUND }
{
    x.unsigned_abs()
}

/// The least bits, 2 to 32, of a word that takes every number up to x: the least w from 2 on with x <= 2^(w-1) - 1.
/// The bound x lies in 0 to 2147483647.
pub fn least_width(x: i64) -> u8
    requires { IsBound x }
    ensures least { IsLeastWidth x result }
    ensures fits { WidthFits result }
{
    let bits = u64::BITS - magnitude(x).leading_zeros();
    LEAST_WIDTH.max(bits as u8 + 1)
}

/// Whether an accumulator of w bits takes the sums of a row with this bound and right shift:
/// 2^shift * (x + 1) <= 2^(w-1). The bound x lies in 0 to 2147483647, and shift < w <= 64.
pub fn accumulator_fits(x: i64, shift: u8, w: u8) -> bool
    requires bound { IsBound x }
    requires shifted { shift < w }
    requires high { w ≤ 64 }
    ensures { IsTrue result ↔ AccumulatorFits x shift w }
{
    let sums = (u128::from(magnitude(x)) + 1) << shift;
    sums <= 1 << (w - 1)
}

/// The position of the highest bit of a word, where that of its lowest bit is `low`: low + width - 1, which lies in
/// -32768 to 32767.
pub fn top_position(width: u8, low: i16) -> i16
    requires { FitsSigned w16 (top_of width low) }
    ensures { result ≡ top_of width low }
{
    (i32::from(low) + i32::from(width) - 1) as i16
}
