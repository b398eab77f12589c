//! How large a program may be.

ghost use Rattle.std.specs.Prelude.{◌≡◌};

/// The most rows of a program.
pub const CODE_ROWS: usize = 40;

/// The most terms over all rows.
pub const CODE_TERMS: usize = 624;

/// The longest shift, of a term to the left and of a row to the right.
pub const LONGEST_SHIFT: u8 = 62;

/// A coefficient has a magnitude below 2 to this power, also when it is shifted to the left.
pub const COEFFICIENT_BITS: u8 = 62;

/// A coefficient shifted to the left has a magnitude below 2 to the power of this and the row's right shift together.
pub const PRODUCT_BITS: u8 = 24;

/// The numbers that the limits of programs are.
pub fn code_limits_are_these()
    ensures rows { CODE_ROWS ≡ 40 }
    ensures terms { CODE_TERMS ≡ 624 }
    ensures shift { LONGEST_SHIFT ≡ 62 }
    ensures coefficient { COEFFICIENT_BITS ≡ 62 }
    ensures product { PRODUCT_BITS ≡ 24 }
{}
