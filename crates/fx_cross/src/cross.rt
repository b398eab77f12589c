ghost use Rattle.std.specs.Prelude.{
  ℕ,
  ◌≡◌,
  ◌+◌,
  ◌-◌,
  ◌*◌,
  ◌<◌,
  ◌≤◌,
  IfOk,
  IfSome,
  length,
  slice_index_or,
};
ghost use Rattle.fx_nums.specs.Fraction.{zero_fraction};
ghost use Rattle.fx_cross.specs.Table.{
  HasPlaces,
  HasSizes,
  IsEntry,
  IsNonzero,
  IsZero,
  KeepsPlaces,
  entry_at,
  no_entries,
  nonzero_count,
  place_at,
  plain,
  put,
};
ghost use Rattle.fx_cross.specs.Lines.{IsLead};
ghost use Rattle.fx_cross.specs.WellLinked.{head_of};
ghost use Rattle.fx_cross.specs.Walks.{
  GivesFirst,
  LeadsAlong,
  LeadsDown,
  LeadsPast,
  column_line,
  row_line,
};
ghost use Rattle.fx_cross.specs.Cells.{cell_of, right_of, down_of};

use crate::cell::Cell;
use crate::limits::{GREATEST_ROOM, GREATEST_SIDE};
use fx_nums::Frac;
use std::alloc::{AllocError, Global};
use std::marker::Model;

/// An entry that is not 0 as it is met on a walk: its place, its column in a walk along a row or its row in
/// one down a column, and its value.
#[derive(Clone, Copy)]
pub struct Link {
    pub place: u32,
    pub index: u8,
    pub coef: Frac,
}

/// A table of fractions with up to `GREATEST_SIDE` rows and columns, which has memory for so many entries other than 0.
///
/// Each such entry is a cell at a place of its own, in the list of its row by rising column and in the list of
/// its column by rising row. The cells of no entry are a list too, and are used again.
#[derive(Drop)]
pub struct Cross {
    rows: usize,
    columns: usize,
    room: usize,
    terms: usize,
    // The place of each entry, row after row; the room where it is 0.
    places: Vec<u16>,
    // The entries, then the cell that ends all lines, then those that lead to the first of each line.
    cells: Vec<Cell>,
    // The first freed place, and the room where there is none. The cell at such a place leads to the next one
    // as along a row, and keeps how many there are from it on as what it leads to down a column.
    free: u16,
}

impl Model for Cross {
    ghost use Rattle.fx_cross.specs.Table.{Table};

    ghost Value = { Table };

    ghost use Rattle.fx_cross.specs.Cells.{table_of};
    ghost use Rattle.fx_cross.specs.WellLinked.{IsWellLinked};

    ghost view = { λ a. table_of a.rows a.columns a.room a.places.items a.cells.items };

    ghost invariant = { λ a. IsWellLinked a.rows a.columns a.room a.terms a.free a.places.items a.cells.items };
}

// The cell that leads to what stands at position `k` of a line or after it: the line's last place before `k`,
// or else its head. The places of the line stand at `start`, `start + step` and so on.
fn lead(index: &[u16], start: usize, step: usize, k: usize, end: usize, head: usize) -> usize
    requires inside { (m : ℕ) → m < k → start + m * step < length index.now }
    requires head { head ≡ end → ⊥ }
    ensures { (b : ℕ) × IsLead end head (λ m. slice_index_or index.now (start + m * step) end) k result b }
{
    for m in (0..k).rev() {
        let place = usize::from(index[start + m * step]);
        if place != end {
            return place;
        }
    }
    head
}

// The cell that ends all lines, and in a table of zeros every cell.
fn end_cell(rows: usize, columns: usize, room: usize) -> Cell
    requires rows { rows ≤ GREATEST_SIDE }
    requires columns { columns ≤ GREATEST_SIDE }
    requires room { room ≤ GREATEST_ROOM }
    ensures { result ≡ record { row = rows; column = columns; right = room; down = room; coef = zero_fraction } }
{
    Cell {
        row: rows as u8,
        column: columns as u8,
        right: room as u16,
        down: room as u16,
        coef: Frac::zero(),
    }
}

// Makes all cells before the room free, each leading to the one after it.
fn chain_all(cells: &mut Vec<Cell>, room: usize)
    requires long { length cells.old.items ≡ room + 1 + GREATEST_SIDE }
    requires high { room ≤ GREATEST_ROOM }
    ensures long { length cells.new.items ≡ length cells.old.items }
    ensures chain { (t : ℕ) → t < room → right_of cells.new.items t ≡ t + 1 }
    ensures ranks { (t : ℕ) → t < room → down_of cells.new.items t ≡ room - t }
    ensures others { (t : ℕ) → room ≤ t → cell_of cells.new.items t ≡ cell_of cells.old.items t }
{
    for t in 0..room {
        let cell = &mut cells[t];
        cell.right = (t + 1) as u16;
        cell.down = (room - t) as u16;
    }
}

impl Cross {
    /// A table of zeros, with 1 to `GREATEST_SIDE` rows and columns and room for 1 to `GREATEST_ROOM` entries other
    /// than 0. Its error is want of memory.
    pub fn new(alloc: Global, rows: usize, columns: usize, room: usize) -> Result<Cross, AllocError>
        requires rows_low { 1 ≤ rows }
        requires rows_high { rows ≤ GREATEST_SIDE }
        requires columns_low { 1 ≤ columns }
        requires columns_high { columns ≤ GREATEST_SIDE }
        requires room_low { 1 ≤ room }
        requires room_high { room ≤ GREATEST_ROOM }
        ensures sizes { IfOk result (λ t. HasSizes t rows columns room) }
        ensures entries { IfOk result (λ t. entry_at t ≡ no_entries) }
    {
        let places = vec![in alloc; room as u16; rows * columns]?;
        let mut cells = vec![in alloc; end_cell(rows, columns, room); room + 1 + GREATEST_SIDE]?;
        chain_all(&mut cells, room);
        Ok(Cross {
            rows,
            columns,
            room,
            terms: 0,
            places,
            cells,
            free: 0,
        })
    }

    /// How many rows.
    pub fn rows(&self) -> usize
        ensures { result ≡ self.now.rows }
    {
        self.rows
    }

    /// How many columns.
    pub fn cols(&self) -> usize
        ensures { result ≡ self.now.columns }
    {
        self.columns
    }

    /// How many entries other than 0 there may be.
    pub fn room(&self) -> usize
        ensures { result ≡ self.now.room }
    {
        self.room
    }

    /// How many entries are not 0.
    pub fn terms(&self) -> usize
        ensures { result ≡ nonzero_count self.now }
    {
        self.terms
    }

    /// The entry of row `i` and column `j`.
    pub fn get(&self, i: usize, j: usize) -> Frac
        requires row { i < self.now.rows }
        requires column { j < self.now.columns }
        ensures { result ≡ entry_at self.now i j }
    {
        let place = usize::from(self.places[i * self.columns + j]);
        let cell = &self.cells[place];
        cell.coef
    }

    // The cell that leads to the entry of row `i` and column `j` along its row, or would lead to it.
    fn left_of(&self, i: usize, j: usize) -> usize
        requires row { i < self.now.rows }
        requires column { j < self.now.columns }
        ensures { (b : ℕ) × IsLead self.now.room (head_of self.now.room i) (place_at self.now i) j result b }
    {
        let head = self.room + 1 + i;
        lead(&self.places, i * self.columns, 1, j, self.room, head)
    }

    // The cell that leads to the entry of row `i` and column `j` down its column, or would lead to it.
    fn above(&self, i: usize, j: usize) -> usize
        requires row { i < self.now.rows }
        requires column { j < self.now.columns }
        ensures { (b : ℕ) × IsLead self.now.room (head_of self.now.room j) (λ m. place_at self.now m j) i result b }
    {
        let head = self.room + 1 + j;
        lead(&self.places, j, self.columns, i, self.room, head)
    }

    // Puts a number other than 0 in the place of a 0.
    fn put(&mut self, i: usize, j: usize, c: Frac)
        requires row { i < self.old.rows }
        requires column { j < self.old.columns }
        requires empty { place_at self.old i j ≡ self.old.room }
        requires room { nonzero_count self.old < self.old.room }
        requires nonzero { IsNonzero c }
        ensures sizes { HasSizes self.new self.old.rows self.old.columns self.old.room }
        ensures entries { entry_at self.new ≡ put i j c (entry_at self.old) }
        ensures places { KeepsPlaces self.old self.new }
    {
        let left = self.left_of(i, j);
        let above = self.above(i, j);
        let p = usize::from(self.free);
        self.free = self.cells[p].right;
        let right = self.cells[left].right;
        let down = self.cells[above].down;
        self.cells[p] = Cell {
            row: i as u8,
            column: j as u8,
            right,
            down,
            coef: c,
        };
        self.cells[left].right = p as u16;
        self.cells[above].down = p as u16;
        self.places[i * self.columns + j] = p as u16;
        self.terms += 1;
    }

    // Takes away a number other than 0.
    fn take(&mut self, i: usize, j: usize)
        requires row { i < self.old.rows }
        requires column { j < self.old.columns }
        requires full { place_at self.old i j ≡ self.old.room → ⊥ }
        ensures sizes { HasSizes self.new self.old.rows self.old.columns self.old.room }
        ensures entries { entry_at self.new ≡ put i j zero_fraction (entry_at self.old) }
        ensures places { KeepsPlaces self.old self.new }
    {
        let left = self.left_of(i, j);
        let above = self.above(i, j);
        let p = usize::from(self.places[i * self.columns + j]);
        let right = self.cells[p].right;
        let down = self.cells[p].down;
        self.cells[left].right = right;
        self.cells[above].down = down;
        self.places[i * self.columns + j] = self.room as u16;
        self.terms -= 1;
        let cell = &mut self.cells[p];
        cell.right = self.free;
        cell.down = (self.room - self.terms) as u16;
        self.free = p as u16;
    }

    // Changes a number other than 0 into another.
    fn change(&mut self, i: usize, j: usize, c: Frac)
        requires row { i < self.old.rows }
        requires column { j < self.old.columns }
        requires full { place_at self.old i j ≡ self.old.room → ⊥ }
        requires nonzero { IsNonzero c }
        ensures sizes { HasSizes self.new self.old.rows self.old.columns self.old.room }
        ensures entries { entry_at self.new ≡ put i j c (entry_at self.old) }
        ensures places { KeepsPlaces self.old self.new }
    {
        let p = usize::from(self.places[i * self.columns + j]);
        self.cells[p].coef = c;
    }

    /// Sets the entry of row `i` and column `j`. A value of 0 is kept as 0 over 10^0. An entry that is not 0
    /// before and after keeps its place. Where the entry is 0 and the new one is not, there must be room for
    /// one more.
    pub fn set(&mut self, i: usize, j: usize, c: Frac)
        requires row { i < self.old.rows }
        requires column { j < self.old.columns }
        requires room { IsZero (entry_at self.old i j) → IsNonzero c → nonzero_count self.old < self.old.room }
        ensures sizes { HasSizes self.new self.old.rows self.old.columns self.old.room }
        ensures entries { entry_at self.new ≡ put i j (plain c) (entry_at self.old) }
        ensures places { KeepsPlaces self.old self.new }
    {
        let full = usize::from(self.places[i * self.columns + j]) != self.room;
        if !c.is_zero() {
            if full {
                self.change(i, j, c);
            } else {
                self.put(i, j, c);
            }
        } else if full {
            self.take(i, j);
        }
    }

    /// Makes each entry 0.
    pub fn clear(&mut self)
        ensures sizes { HasSizes self.new self.old.rows self.old.columns self.old.room }
        ensures entries { entry_at self.new ≡ no_entries }
    {
        self.terms = 0;
        self.places.fill(self.room as u16);
        self.cells
            .fill(end_cell(self.rows, self.columns, self.room));
        chain_all(&mut self.cells, self.room);
        self.free = 0;
    }

    // What a cell leads to along its row.
    pub(crate) fn along(&self, at: usize) -> Option<Link>
        requires { (i : ℕ) × (b : ℕ) × LeadsAlong self.now i b at }
        ensures first { (i b : ℕ) → LeadsAlong self.now i b at → GivesFirst (row_line self.now i) b result }
        ensures onward { (i b : ℕ) → LeadsAlong self.now i b at → IfSome result (LeadsPast (LeadsAlong self.now i)) }
    {
        let place = usize::from(self.cells[at].right);
        if place == self.room {
            return None;
        }
        let cell = &self.cells[place];
        Some(Link {
            place: place as u32,
            index: cell.column,
            coef: cell.coef,
        })
    }

    /// The first entry of row `i` that is not 0. Its index is its column.
    pub fn row_first(&self, i: usize) -> Option<Link>
        requires { i < self.now.rows }
        ensures { GivesFirst (row_line self.now i) 0 result }
    {
        self.along(self.room + 1 + i)
    }

    /// The first entry of row `i` that is not 0 past that at `place`, which is not 0 either.
    pub fn row_next(&self, i: usize, place: u32) -> Option<Link>
        requires row { i < self.now.rows }
        requires place { (j : ℕ) × IsEntry self.now i j place }
        ensures { (j : ℕ) → place_at self.now i j ≡ place → GivesFirst (row_line self.now i) (j + 1) result }
    {
        let _ = &self.places;
        self.along(place as usize)
    }

    // What a cell leads to down its column.
    pub(crate) fn beneath(&self, at: usize) -> Option<Link>
        requires { (j : ℕ) × (b : ℕ) × LeadsDown self.now j b at }
        ensures first { (j b : ℕ) → LeadsDown self.now j b at → GivesFirst (column_line self.now j) b result }
        ensures onward { (j b : ℕ) → LeadsDown self.now j b at → IfSome result (LeadsPast (LeadsDown self.now j)) }
    {
        let place = usize::from(self.cells[at].down);
        if place == self.room {
            return None;
        }
        let cell = &self.cells[place];
        Some(Link {
            place: place as u32,
            index: cell.row,
            coef: cell.coef,
        })
    }

    /// The first entry of column `j` that is not 0. Its index is its row.
    pub fn col_first(&self, j: usize) -> Option<Link>
        requires { j < self.now.columns }
        ensures { GivesFirst (column_line self.now j) 0 result }
    {
        self.beneath(self.room + 1 + j)
    }

    /// The first entry of column `j` that is not 0 past that at `place`, which is not 0 either.
    pub fn col_next(&self, j: usize, place: u32) -> Option<Link>
        requires column { j < self.now.columns }
        requires place { (i : ℕ) × IsEntry self.now i j place }
        ensures { (i : ℕ) → place_at self.now i j ≡ place → GivesFirst (column_line self.now j) (i + 1) result }
    {
        let _ = &self.places;
        self.beneath(place as usize)
    }
}

/// A law with nothing to run: each entry that is not 0 has a place of its own below the room.
pub fn entries_have_places(table: &Cross)
    ensures { HasPlaces table.now }
{
    let _ = &table.places;
}
