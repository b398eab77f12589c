use fx_nums::Frac;

/// An entry other than 0, with the places of the next such entry of its row and of its column.
///
/// The cell that ends all lines, and those that lead to the first entries of the lines, are cells too. A freed
/// cell leads to the next one.
#[derive(Clone, Copy)]
pub struct Cell {
    pub row: u8,
    pub column: u8,
    pub right: u16,
    pub down: u16,
    pub coef: Frac,
}
