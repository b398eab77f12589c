//! The limits of what stands at the keys of a filter file.

ghost use Rattle.std.specs.Prelude.{◌≡◌, pos, negsuc, [], ◌∷◌};

use fx_math::{ACCUMULATORS, GREATEST_WIDTH, LEAST_WIDTH};

/// The whole numbers from one to another, both of them counted in. There is none where `low` is above `high`.
#[derive(Clone, Copy)]
pub struct Range {
    pub low: i64,
    pub high: i64,
}

/// The range of a key at which no whole number stands.
pub const NO_NUMBERS: Range = Range { low: 1, high: 0 };

/// Low positions of words.
pub const LOWS: Range = Range { low: -64, high: 63 };

/// How far an output's low position may be below that of the inputs.
pub const LOW_DIFFERENCES: Range = Range { low: -16, high: 16 };

/// Bits of a word.
pub const WIDTHS: Range = Range {
    low: LEAST_WIDTH as i64,
    high: GREATEST_WIDTH as i64,
};

/// Bits of an accumulator, of which only those of `ACCUMULATORS` are taken.
pub const ACCUMULATOR_WIDTHS: Range = Range {
    low: ACCUMULATORS[0] as i64,
    high: ACCUMULATORS[2] as i64,
};

/// Bounds of input words of any width: up to the greatest word of the most bits.
pub const BOUNDS: Range = Range {
    low: 0,
    high: 2147483647,
};

/// Counts of guard bits.
pub const GUARDS: Range = Range { low: 0, high: 16 };

/// Counts of bits of a coefficient's fraction.
pub const FRACTIONS: Range = Range { low: 1, high: 40 };

/// Counts of moments of a block.
pub const LENGTHS: Range = Range { low: 1, high: 4096 };

/// The most entries of a list of whole numbers.
pub const LIST_ENTRIES: usize = 8;

/// The coefficients of a section.
pub const SECTION_COEFFICIENTS: usize = 6;

/// The guard bits that are tried where a file names none.
pub const DEFAULT_GUARDS: [u16; 3] = [0, 4, 8];

/// The bits of fractions that are tried where a file names none.
pub const DEFAULT_FRACTIONS: [u16; 3] = [14, 20, 26];

/// The lengths of blocks that are tried where a file names none.
pub const DEFAULT_LENGTHS: [u16; 4] = [64, 256, 1024, 4096];

/// The numbers that the ranges of keys are.
pub fn ranges_are_these()
    ensures none { NO_NUMBERS ≡ record { low = pos 1; high = pos 0 } }
    ensures lows { LOWS ≡ record { low = negsuc 63; high = pos 63 } }
    ensures differences { LOW_DIFFERENCES ≡ record { low = negsuc 15; high = pos 16 } }
    ensures widths { WIDTHS ≡ record { low = pos 2; high = pos 32 } }
    ensures accumulators { ACCUMULATOR_WIDTHS ≡ record { low = pos 16; high = pos 64 } }
    ensures bounds { BOUNDS ≡ record { low = pos 0; high = pos 2147483647 } }
    ensures guards { GUARDS ≡ record { low = pos 0; high = pos 16 } }
    ensures fractions { FRACTIONS ≡ record { low = pos 1; high = pos 40 } }
    ensures lengths { LENGTHS ≡ record { low = pos 1; high = pos 4096 } }
{}

/// The numbers that the limits of counts are.
pub fn counts_are_these()
    ensures entries { LIST_ENTRIES ≡ 8 }
    ensures section { SECTION_COEFFICIENTS ≡ 6 }
{}

/// The numbers that are tried where a file names none.
pub fn defaults_are_these()
    ensures guards { DEFAULT_GUARDS ≡ 0 ∷ 4 ∷ 8 ∷ [] }
    ensures fractions { DEFAULT_FRACTIONS ≡ 14 ∷ 20 ∷ 26 ∷ [] }
    ensures lengths { DEFAULT_LENGTHS ≡ 64 ∷ 256 ∷ 1024 ∷ 4096 ∷ [] }
{}
