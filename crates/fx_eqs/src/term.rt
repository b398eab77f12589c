use fx_nums::Frac;

/// What a term reads.
#[derive(Clone, Copy, PartialEq, Eq)]
pub enum Source {
    /// The row of this number.
    Row(u8),
    /// The input of this number.
    In(u8),
}

/// A summand of a row: a coefficient times a source, `lag` moments before.
#[derive(Clone, Copy)]
pub struct Term {
    /// The row that it belongs to, below the count of rows.
    pub row: u8,
    pub coef: Frac,
    pub from: Source,
    /// Moments before: 0 to `LONGEST_LAG`, and from 1 on where the source is this row or a later one.
    pub lag: u8,
}
