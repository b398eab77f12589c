use fx_sweep::Place;

/// The inequalities that a certificate has to meet, in their order; rows, inputs, outputs and targets are numbered from
/// 0. The rows of the program come first, then the expanded rows of the filter; targets are the rows, then a pair for
/// each output.
#[derive(Clone, Copy)]
pub enum Inequality {
    /// The program has as many inputs as the filter.
    Inputs,
    /// The program has as many outputs as the filter.
    Outputs,
    /// The program's accumulators have as many bits as the filter's.
    Accumulator,
    /// This input of the program has as many bits as the filter's.
    InputWidth(u8),
    /// The row of this output of the program has as many bits as the filter's output.
    OutputWidth(u8),
    /// The certificate has a bound for each row.
    Rows,
    /// The certificate has an error for each output.
    Errors,
    /// In the sweep of this target the number at this place stays below 2^88, times 2^-64.
    Sweep(u8, Place),
    /// The total of this row is at most its bound. Both sides are at the scale 2^-64.
    Bound(u8),
    /// The word of this row takes its bound. Both sides are words.
    Word(u8),
    /// The accumulator takes each sum of this row. Both sides are sums.
    Sum(u8),
    /// The total of the pair of this output is at most the certificate's error. Both sides are at the scale 2^-64.
    Error(u8),
    /// The certificate's error of this output is at most the one that is wanted. Both sides are at the scale 2^-64.
    Wanted(u8),
}
