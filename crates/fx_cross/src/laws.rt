//! What loops over links come to.

ghost use Rattle.fx_cross.specs.Laws.{RowsSumOverLinks, ColumnsSumOverLinks};

/// Laws with nothing to run: where what is summed is 0 at an entry of value 0, the sum over the links of a row,
/// or of a column, is the sum over all its entries.
pub fn sums_follow_the_links()
    ensures rows { RowsSumOverLinks }
    ensures columns { ColumnsSumOverLinks }
{}
