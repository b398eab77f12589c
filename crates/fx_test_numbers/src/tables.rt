//! Tables of fractions whose entries other than 0 are linked along rows and down columns.
use fx_cross::Cross;
use fx_nums::{Den, Frac};
use std::alloc::{AllocError, Global};
use std::test::Fail;

// The sizes of a table, and how many entries are not 0.
fn counts(table: &Cross) -> [usize; 4] {
    [table.rows(), table.cols(), table.room(), table.terms()]
}

// Sets an entry, where there is room.
fn set(table: &mut Cross, i: usize, j: usize, num: i64) {
    if i < table.rows() && j < table.cols() && table.terms() < table.room() {
        table.set(i, j, Frac::new(num, Den::Ten(0)).unwrap_or(Frac::zero()));
    }
}

// Sets an entry to 0.
fn free(table: &mut Cross, i: usize, j: usize) {
    if i < table.rows() && j < table.cols() {
        table.set(i, j, Frac::zero());
    }
}

// The numbers of a row by rising column, each with its column, as a walk meets them.
fn along(table: &Cross, i: usize) -> [(u8, i64); 3] {
    let mut met = [(9, 0); 3];
    if i < table.rows() {
        for (place, link) in met.iter_mut().zip(table.row(i)) {
            *place = (link.index, link.coef.num());
        }
    }
    met
}

// The numbers of a column by rising row, each with its row.
fn down(table: &Cross, j: usize) -> [(u8, i64); 3] {
    let mut met = [(9, 0); 3];
    if j < table.cols() {
        for (place, link) in met.iter_mut().zip(table.column(j)) {
            *place = (link.index, link.coef.num());
        }
    }
    met
}

// The columns of the first two entries of a row.
fn first_columns(table: &Cross, i: usize) -> Option<(u8, u8)> {
    if i >= table.rows() {
        return None;
    }
    let first = table.row_first(i)?;
    let second = table.row_next(i, first.place)?;
    Some((first.index, second.index))
}

// The rows of the first two entries of a column.
fn first_rows(table: &Cross, j: usize) -> Option<(u8, u8)> {
    if j >= table.cols() {
        return None;
    }
    let first = table.col_first(j)?;
    let second = table.col_next(j, first.place)?;
    Some((first.index, second.index))
}

// The number of an entry.
fn number(table: &Cross, i: usize, j: usize) -> Option<i64> {
    if i >= table.rows() || j >= table.cols() {
        return None;
    }
    Some(table.get(i, j).num())
}

// A table with room for three entries, two of which share a row, and two a column.
fn three_entries(alloc: Global) -> Result<Cross, AllocError> {
    let mut table = Cross::new(alloc, 3, 3, 3)?;
    set(&mut table, 0, 2, 7);
    set(&mut table, 2, 2, 9);
    set(&mut table, 0, 1, 5);
    Ok(table)
}

// Whether walks meet the entries in their order.
fn walks_hold(alloc: Global) -> Result<bool, AllocError> {
    let table = three_entries(alloc)?;
    Ok(
        counts(&table) == [3; 4]
            && along(&table, 0) == [(1, 5), (2, 7), (9, 0)]
            && along(&table, 1) == [(9, 0); 3]
            && down(&table, 2) == [(0, 7), (2, 9), (9, 0)]
            && first_columns(&table, 0) == Some((1, 2))
            && first_rows(&table, 2) == Some((0, 2)),
    )
}

#[test]
fn walks_meet_the_entries(rt: HostRuntime) -> Result<(), Fail> {
    assert!(rt; walks_hold(rt.alloc())?);
    Ok(())
}

// Whether an entry that is set to 0 gives room for another.
fn room_holds(alloc: Global) -> Result<bool, AllocError> {
    let mut table = three_entries(alloc)?;
    free(&mut table, 0, 2);
    let freed = number(&table, 0, 2) == Some(0) && counts(&table) == [3, 3, 3, 2];
    set(&mut table, 1, 2, 4);
    let used = down(&table, 2) == [(1, 4), (2, 9), (9, 0)] && counts(&table) == [3; 4];
    table.clear();
    Ok(freed && used && down(&table, 2) == [(9, 0); 3] && counts(&table) == [3, 3, 3, 0])
}

#[test]
fn freed_entries_give_room(rt: HostRuntime) -> Result<(), Fail> {
    assert!(rt; room_holds(rt.alloc())?);
    Ok(())
}
