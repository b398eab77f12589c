//! The ranges of a certificate's numbers. That of bounds is fx_msb's.

ghost use Rattle.std.specs.Prelude.{◌≡◌, ◌^◌, ◌-◌};

/// The least moments of a block.
pub const LEAST_LENGTH: u16 = 1;

/// The most moments of a block.
pub const GREATEST_LENGTH: u16 = 4096;

/// The most rows: those of the code and those of the filter together.
pub const GREATEST_ROWS: usize = 64;

/// The most outputs.
pub const GREATEST_OUTPUTS: usize = 4;

/// The greatest error of an output, in units of 2^-64 output steps: 2^96 - 1.
pub const GREATEST_ERROR: u128 = 79228162514264337593543950335;

/// No text of a certificate has more bytes.
pub const GREATEST_TEXT: usize = 65536;

/// The numbers that the limits of certificates are.
pub fn limits_are_these()
    ensures least_length { LEAST_LENGTH ≡ 1 }
    ensures greatest_length { GREATEST_LENGTH ≡ 4096 }
    ensures rows { GREATEST_ROWS ≡ 64 }
    ensures outputs { GREATEST_OUTPUTS ≡ 4 }
    ensures error { GREATEST_ERROR ≡ 2 ^ 96 - 1 }
    ensures text { GREATEST_TEXT ≡ 65536 }
{}
