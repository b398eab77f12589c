//! What is swept, and where a sweep grew too large.

/// What the sweep of a net bounds.
#[derive(Clone, Copy, PartialEq, Eq)]
pub enum Target {
    /// The value of a row.
    Row(u8),
    /// The value of one row less `2^shift` times that of another, the shift being at most `GREATEST_SHIFT` in magnitude.
    Pair {
        /// The row that is counted in output steps.
        code: u8,
        /// The row that is counted in input steps.
        original: u8,
        /// The low position of the inputs less that of the output.
        shift: i8,
    },
}

/// A number of a sweep that is tested against its limit.
#[derive(Clone, Copy, Debug, PartialEq, Eq)]
pub enum Place {
    /// The magnitude of a row's interval in this moment.
    Weight(u8),
    /// The gain of a row up to this moment.
    Gain(u8),
    /// The gain of an input up to this moment.
    Input(u8),
    /// The magnitude of what is carried to a row of the moment before.
    Rest(u8),
}

/// The first number of a sweep that reached 2^88 (times 2^-64), and the number.
#[derive(Clone, Copy, Debug, PartialEq, Eq)]
pub struct RangeAt {
    /// Where it stands.
    pub place: Place,
    /// It, times 2^64.
    pub value: i128,
}
