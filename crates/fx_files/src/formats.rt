use fx_nums::Frac;

/// The words of an input, at the low position that all inputs share.
#[derive(Clone, Copy)]
pub struct InputFormat {
    /// Bits of a word, 2 to 32.
    pub width: u8,
    /// The greatest magnitude of an admissible word, 0 to `2^(width-1) - 1`.
    pub bound: i64,
}

/// The words of an output, and how far they may be off.
#[derive(Clone, Copy)]
pub struct OutputFormat {
    /// The row of the equations that is put out.
    pub row: u8,
    /// Bits of a word, 2 to 32.
    pub width: u8,
    /// The low position: a word counts multiples of `2^low`.
    pub low: i8,
    /// The error that is allowed, in output steps of `2^low`: at least 0, over a power of ten.
    pub error: Frac,
    /// The same at the scale `2^-64`, rounded down.
    pub target: i128,
}

/// An output as a file gives it.
#[derive(Clone, Copy)]
pub(crate) struct OutputEntry {
    pub width: u8,
    pub low: i8,
    pub error: Frac,
}
