ghost use Rattle.std.specs.Prelude.{◌≡◌, pos, negsuc};

use fx_eqs::{Mode, PORTS};

/// The low positions of inputs and outputs, the bits of the accumulators, and how rows drop low places. The last place
/// of a word with the low position l counts 2^l.
#[derive(Clone, Copy)]
pub struct Formats {
    /// That of all inputs: `LEAST_LOW` to `GREATEST_LOW`.
    pub input_low: i8,
    /// That of each output: `LEAST_LOW` to `GREATEST_LOW`, at most `LOWS_APART` away from that of the inputs. Those
    /// past the outputs are not read.
    pub lows: [i8; PORTS],
    /// 16, 32 or 64.
    pub accumulator: u8,
    /// That of every row.
    pub mode: Mode,
}

/// The least low position of an input or an output.
pub const LEAST_LOW: i8 = -64;

/// The greatest low position of an input or an output.
pub const GREATEST_LOW: i8 = 63;

/// How far the low position of an output may be from that of the inputs.
pub const LOWS_APART: u8 = 16;

/// The most guard bits of a row.
pub const LARGEST_GUARD: u8 = 16;

/// The fewest places behind the point of a coefficient.
pub const LEAST_FRACTION: u8 = 1;

/// The most places behind the point of a coefficient.
pub const GREATEST_FRACTION: u8 = 40;

/// A rounded coefficient is below 2 to this power in magnitude.
pub const ROUNDED_BITS: u8 = 65;

/// The numbers that the limits of quantising are.
pub fn quantising_limits_are_these()
    ensures least_low { LEAST_LOW ≡ negsuc 63 }
    ensures greatest_low { GREATEST_LOW ≡ pos 63 }
    ensures apart { LOWS_APART ≡ 16 }
    ensures guard { LARGEST_GUARD ≡ 16 }
    ensures least_fraction { LEAST_FRACTION ≡ 1 }
    ensures rounded { ROUNDED_BITS ≡ 65 }
    ensures greatest_fraction { GREATEST_FRACTION ≡ 40 }
{}
