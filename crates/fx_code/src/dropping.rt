//! What a row that drops low places begins with, and how far off it may be.

ghost use Rattle.std.specs.Prelude.{◌≡◌, ◌≤◌, ◌^◌, ◌≤ℤ◌, pos};
ghost use Rattle.fx_code.specs.Code.{constant_in, half_place};
ghost use Rattle.fx_code.specs.NetRows.{class_in};

use crate::limits::LONGEST_SHIFT;
use fx_eqs::Mode;

// The power of two with this exponent.
fn power_of_two(k: u8) -> i64
    requires { k ≤ LONGEST_SHIFT }
    ensures { result ≡ pos (2 ^ k) }
{
    1i64 << k
}

// Half of the last place that a right shift drops.
fn half_place(shift: u8) -> i64
    requires { shift ≤ LONGEST_SHIFT }
    ensures value { result ≡ pos (half_place shift) }
    ensures high { result ≤ℤ pos (2 ^ 61) }
{
    match shift {
        0 => 0,
        shift => power_of_two(shift - 1),
    }
}

/// What the accumulator of a row with this mode and right shift begins with: half of the last place that is dropped
/// where the row rounds to the nearest, else 0.
pub fn constant_in(mode: Mode, shift: u8) -> i64
    requires { shift ≤ LONGEST_SHIFT }
    ensures value { result ≡ pos (constant_in mode shift) }
    ensures high { result ≤ℤ pos (2 ^ 61) }
{
    match mode {
        Mode::Nearest => half_place(shift),
        Mode::Floor => 0,
    }
}

/// How many half steps a row with this mode and right shift may be off: none without a shift, else one to the nearest
/// and two down.
pub fn class_in(mode: Mode, shift: u8) -> u8
    ensures value { result ≡ class_in mode shift }
    ensures high { result ≤ 2 }
{
    if shift == 0 {
        return 0;
    }
    match mode {
        Mode::Nearest => 1,
        Mode::Floor => 2,
    }
}
