/// Why entries make no implicit form. A number of 32 bits is the place of an entry among the given ones.
#[derive(Clone, Copy)]
pub enum SifFault {
    /// The entry lies outside its block.
    Shape(u32),
    /// The entry of J in this row and column is on the diagonal and not 1, or above it and not 0.
    NotUnitLower(u8, u8),
    /// An earlier entry has the same block, row and column.
    Twice(u32),
    /// So many rows, and they are 0 or more than `FORM_ROWS`; or so many inputs or outputs, and they are 0 or more than
    /// `PORTS` of fx_eqs.
    Limit(usize),
    /// Memory was refused.
    NoMemory,
}
