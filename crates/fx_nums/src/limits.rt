//! The limits of fractions and of intervals.

ghost use Rattle.std.specs.Prelude.{◌≡◌};

/// A numerator is below 2 to this power in magnitude.
pub const NUMERATOR_BITS: u32 = 62;

/// A fraction is below 2 to this power in magnitude.
pub const VALUE_BITS: u32 = 24;

/// The greatest power of two that a denominator may be.
pub const GREATEST_TWO: u8 = 62;

/// The greatest power of ten that a denominator may be.
pub const GREATEST_TEN: u8 = 28;

/// The ends of an interval are below 2 to this power in magnitude.
pub const INTERVAL_BITS: u32 = 120;

/// Ends of intervals that are added are below 2 to this power in magnitude.
pub const SUMMAND_BITS: u32 = 119;

/// What is multiplied with a fraction is below 2 to this power in magnitude.
pub const FACTOR_BITS: u32 = 95;

/// The ends of intervals that are multiplied or divided, and of what comes of them, are below 2 to this power in
/// magnitude.
pub const OPERAND_BITS: u32 = 88;

/// The ends of an interval are in units of 2 to minus this power.
pub const SCALE_BITS: u32 = 64;

/// A product below 2 to this power in magnitude is taken exactly.
pub const PRODUCT_BITS: u32 = 126;

/// What is widened loses so many bits.
pub const DROPPED_BITS: u32 = 32;

/// The two roundings of a product are less than 2 to this power apart.
pub const APART_BITS: u32 = 57;

/// The numbers that the limits are.
pub fn limits_are_these()
    ensures numerator { NUMERATOR_BITS ≡ 62 }
    ensures value { VALUE_BITS ≡ 24 }
    ensures two { GREATEST_TWO ≡ 62 }
    ensures ten { GREATEST_TEN ≡ 28 }
    ensures interval { INTERVAL_BITS ≡ 120 }
    ensures summand { SUMMAND_BITS ≡ 119 }
    ensures factor { FACTOR_BITS ≡ 95 }
    ensures operand { OPERAND_BITS ≡ 88 }
    ensures scale { SCALE_BITS ≡ 64 }
    ensures product { PRODUCT_BITS ≡ 126 }
    ensures dropped { DROPPED_BITS ≡ 32 }
    ensures apart { APART_BITS ≡ 57 }
{}
