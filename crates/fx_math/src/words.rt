//! The bits that words and accumulators may have.

ghost use Rattle.std.specs.Prelude.{◌≡◌, [], ◌∷◌};
ghost use Rattle.fx_math.specs.Words.{is_accumulator};

/// The least bits of a word.
pub const LEAST_WIDTH: u8 = 2;

/// The most bits of a word.
pub const GREATEST_WIDTH: u8 = 32;

/// The bits that an accumulator may have.
pub const ACCUMULATORS: [u8; 3] = [16, 32, 64];

/// Whether an accumulator may have this many bits.
pub fn is_accumulator(bits: u8) -> bool
    ensures { result ≡ is_accumulator bits }
{
    ACCUMULATORS.iter().any(|width| *width == bits)
}

/// The numbers that the limits of words are.
pub fn widths_are_these()
    ensures least { LEAST_WIDTH ≡ 2 }
    ensures greatest { GREATEST_WIDTH ≡ 32 }
    ensures accumulators { ACCUMULATORS ≡ 16 ∷ 32 ∷ 64 ∷ [] }
{}
