//! Why a candidate does not pass.

use fx_totals::TargetRange;

/// Why a candidate does not pass. Rows and outputs are numbered from 0; the rows of the code stand before the expanded
/// rows of the filter.
#[derive(Clone, Copy)]
pub enum Fail {
    /// The right shift of this row is above 62 or not below the bits of the accumulators, or a left shift of one of its
    /// terms is above 62.
    Shift(u8),
    /// In this row the term at this place, counted from 0, is too large: its coefficient shifted to the left.
    Wide(u8, u8, i128),
    /// A target meets a range within the length.
    Range(TargetRange),
    /// The raised bound of this row passes its cap: the bound, then the cap.
    Over(u8, i128, i64),
    /// All raises changed some bound, the last of them first that of this row: from one bound to another.
    Slow(u8, i64, i64),
    /// The total of this output's pair is above the error that is wanted: the total, then the wanted one, times 2^64.
    Error(u8, i128, i128),
}

/// A candidate that does not pass: its guard bits, the bits of its coefficients' fractions, the moments of its sweeps,
/// and why.
#[derive(Clone, Copy)]
pub struct Failed {
    /// Guard bits of the rows that are not put out: 0 to 16.
    pub guard: u8,
    /// Bits of a coefficient's fraction: 1 to 40.
    pub fraction: u8,
    /// Moments of a sweep: 1 to 4096.
    pub length: u16,
    /// Its first failure.
    pub why: Fail,
}
