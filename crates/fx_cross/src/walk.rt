//! Walks along rows and down columns, for loops over the entries that are not 0.

ghost use Rattle.fx_cross.specs.Walks.{LeadsAlong, LeadsDown};

use crate::cross::{Cross, Link, entries_have_places};
use crate::limits::GREATEST_SIDE;

/// A walk along a row, by rising column.
#[derive(Drop)]
pub struct Row<'a> {
    table: &'a Cross,
    row: usize,
    // The column after the last that was met, 0 at the start.
    from: usize,
    // The cell that leads on.
    at: usize,
    ghost leads: { LeadsAlong table.now row from at },
}

/// A walk down a column, by rising row.
#[derive(Drop)]
pub struct Column<'a> {
    table: &'a Cross,
    column: usize,
    // The row after the last that was met, 0 at the start.
    from: usize,
    // The cell that leads on.
    at: usize,
    ghost leads: { LeadsDown table.now column from at },
}

impl Cross {
    ghost use Rattle.std.specs.Prelude.{◌≡◌, ◌<◌, ◌≤◌, length};
    ghost use Rattle.fx_cross.specs.Walks.{column_links, row_links};
    ghost use Rattle.fx_cross.specs.Rests.{column_rest, row_rest};

    /// The entries of row `i` that are not 0, by rising column.
    pub fn row(&self, i: usize) -> Row<'_>
        requires { i < self.now.rows }
        ensures rest { row_rest result ≡ row_links self.now i }
        ensures short { length (row_links self.now i) ≤ GREATEST_SIDE }
    {
        entries_have_places(self);
        Row {
            table: self,
            row: i,
            from: 0,
            at: self.room() + 1 + i,
        }
    }

    /// The entries of column `j` that are not 0, by rising row.
    pub fn column(&self, j: usize) -> Column<'_>
        requires { j < self.now.columns }
        ensures rest { column_rest result ≡ column_links self.now j }
        ensures short { length (column_links self.now j) ≤ GREATEST_SIDE }
    {
        entries_have_places(self);
        Column {
            table: self,
            column: j,
            from: 0,
            at: self.room() + 1 + j,
        }
    }
}

impl<'a> Iterator for Row<'a> {
    ghost use Rattle.std.specs.Iterator.{YieldsFirst, item_count};
    ghost use Rattle.fx_cross.specs.Rests.{row_rest};

    type Item = Link;

    ghost next_gives = { YieldsFirst row_rest };

    ghost remaining = { item_count row_rest };

    fn next(&mut self) -> Option<Link> {
        let link = self.table.along(self.at)?;
        self.from = usize::from(link.index) + 1;
        self.at = link.place as usize;
        Some(link)
    }
}

impl<'a> Iterator for Column<'a> {
    ghost use Rattle.std.specs.Iterator.{YieldsFirst, item_count};
    ghost use Rattle.fx_cross.specs.Rests.{column_rest};

    type Item = Link;

    ghost next_gives = { YieldsFirst column_rest };

    ghost remaining = { item_count column_rest };

    fn next(&mut self) -> Option<Link> {
        let link = self.table.beneath(self.at)?;
        self.from = usize::from(link.index) + 1;
        self.at = link.place as usize;
        Some(link)
    }
}
