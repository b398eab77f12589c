/// Which limit a number passes.
#[derive(Clone, Copy)]
pub enum LimitOf {
    /// Bits of the accumulators: 16, 32 or 64.
    Accumulator,
    /// Inputs: 1 to 4.
    Inputs,
    /// Rows: at most 40.
    Rows,
    /// Outputs: at most 4.
    Outputs,
    /// Bits of an input word: 2 to 32.
    InputWidth,
    /// Bits of a row's word: 2 to 32, and at most those of the accumulators.
    Width,
    /// A row's right shift: at most 62, and below the bits of the accumulators.
    Shift,
    /// A term's left shift: at most 62.
    Left,
    /// A coefficient: below 2^62 in magnitude.
    Coefficient,
    /// A coefficient shifted to the left: below 2^62 and below 2^(24 + the row's shift) in magnitude.
    Product,
    /// Terms over all rows: at most 624.
    Terms,
    /// An output's row: below the count of rows.
    OutputRow,
}

/// Why a part of a program was refused.
#[derive(Clone, Copy)]
pub enum ProgramFault {
    /// The number is out of its range.
    Limit(LimitOf, i128),
    /// The row of this number reads a word of this moment that is not there yet.
    Order(u8),
    /// The row of this number reads a source twice.
    Twice(u8),
    /// Memory was refused.
    NoMemory,
}
