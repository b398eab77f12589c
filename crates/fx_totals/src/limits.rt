//! How many lengths are kept.

ghost use Rattle.std.specs.Prelude.{◌≡◌};

/// The most lengths of a series.
pub const MOST_LENGTHS: usize = 8;

/// The numbers that the limits of totals are.
pub fn totals_limits_are_these()
    ensures lengths { MOST_LENGTHS ≡ 8 }
{}
