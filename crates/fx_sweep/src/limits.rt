//! How far a sweep goes.

ghost use Rattle.std.specs.Prelude.{◌≡◌, pos};

/// The most moments of a sweep.
pub const GREATEST_LENGTH: u16 = 4096;

/// The low position of an output may differ by so much from that of the inputs.
pub const GREATEST_SHIFT: i8 = 16;

/// The numbers that the limits of sweeps are.
pub fn sweep_limits_are_these()
    ensures length { GREATEST_LENGTH ≡ 4096 }
    ensures shift { GREATEST_SHIFT ≡ pos 16 }
{}
