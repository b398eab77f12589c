//! The denominators of a lattice's fractions.

ghost use Rattle.std.specs.Prelude.{◌≡◌};

/// A reflection coefficient is a fraction over 2 to this power.
pub const REFLECTION_BITS: u8 = 62;

/// A tap is a fraction over 2 to this power.
pub const TAP_BITS: u8 = 38;

/// The numbers that the limits are.
pub fn lattice_limits_are_these()
    ensures reflection { REFLECTION_BITS ≡ 62 }
    ensures tap { TAP_BITS ≡ 38 }
{}
