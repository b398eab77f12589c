//! The limits of numerals and of their texts.

ghost use Rattle.std.specs.Prelude.{◌≡◌, ◌^◌};

/// Between the zeros at both ends a numeral has at most this many digits.
pub const MOST_DIGITS: u32 = 18;

/// An exponent counts as at most this in magnitude.
pub const GREATEST_EXPONENT: u64 = 9999;

/// A number that is rounded is printed with at most this many places.
pub const MOST_PLACES: u8 = 18;

/// A printed decimal is at most this many bytes.
pub const LONGEST_DECIMAL: usize = 64;

// The least number of too many digits.
pub(crate) const TOO_MANY: u64 = 1_000_000_000_000_000_000;

/// The numbers that the limits are.
pub fn limits_are_these()
    ensures digits { MOST_DIGITS ≡ 18 }
    ensures exponent { GREATEST_EXPONENT ≡ 9999 }
    ensures places { MOST_PLACES ≡ 18 }
    ensures text { LONGEST_DECIMAL ≡ 64 }
    ensures too_many { TOO_MANY ≡ 10 ^ MOST_DIGITS }
{}
