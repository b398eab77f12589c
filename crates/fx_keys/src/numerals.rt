//! Lists of numerals, and rows of them.

ghost use Rattle.fx_decimal.specs.Faults.{numeral};
ghost use Rattle.std.specs.Prelude.{◌≡◌, ◌≤◌, ◌<◌, ◌+◌, ◌*◌, ◌^◌, length, All, IfOk, is_some};
ghost use Rattle.toml.specs.View.{view, table_view, items_view};
ghost use Rattle.fx_nums.specs.Fraction.{OverTen};
ghost use Rattle.fx_keys.specs.Numerals.{
  all_numerals,
  all_rows,
  each_exactly,
  each_numeral,
  each_row,
  entries_in,
  matrix,
  numeral_at,
  numeral_text,
  row_of,
  rows_in,
};
ghost use Rattle.fx_keys.specs.Faults.{is_memory, seen};
ghost use Rattle.fx_math.specs.Answers.{Gives};

use crate::entries::{exactly, list_at};
use crate::fault::FilterFault;
use crate::key::Key;
use crate::table::needed;
use fx_decimal::{DecimalFault, read_decimal};
use fx_eqs::STATES;
use fx_nums::Frac;
use itoa::Buffer;
use std::alloc::Global;
use toml::{Table, Value};

fn is_numeral(value: &Value) -> bool
    ensures { result ≡ is_some (numeral_text (view value.now)) }
{
    value.is_str() || value.is_integer()
}

// The fraction of a text.
fn fraction_of(text: &[u8]) -> Result<Frac, DecimalFault>
    ensures value { result ≡ numeral text.now }
    ensures over_ten { IfOk result OverTen }
{
    read_decimal(text)
}

/// The fraction of the numeral that is the entry at this place of a key: a quoted one or a whole number. `WrongKind`
/// for other values, `Numeral` with its place for a text that is no numeral.
#[tactic(auto, unfolding(crate::specs::Numerals::numeral_at))]
pub fn numeral_of(value: &Value, key: Key, place: u32) -> Result<Frac, FilterFault>
    ensures gives { result ≡ numeral_at key place (view value.now) }
    ensures over_ten { IfOk result OverTen }
{
    let mut buffer = Buffer::new();
    let read = if let Some(text) = value.as_str() {
        fraction_of(text.as_bytes())
    } else if let Some(number) = value.as_integer() {
        fraction_of(buffer.format(number).as_bytes())
    } else {
        return Err(FilterFault::WrongKind(key));
    };
    match read {
        Ok(fraction) => Ok(fraction),
        Err(fault) => Err(FilterFault::Numeral(key, place, fault)),
    }
}

#[tactic(auto, unfolding(crate::specs::Numerals::all_numerals))]
fn all_numerals(entries: &[Value], key: Key) -> Result<(), FilterFault>
    ensures { result ≡ all_numerals key (items_view entries.now) }
{
    for entry in entries {
        if !is_numeral(entry) {
            return Err(FilterFault::WrongKind(key));
        }
    }
    Ok(())
}

/// The fractions of the numerals from this place of a key on, or the fault of the first that has one.
#[tactic(auto, unfolding(crate::specs::Numerals::each_numeral))]
pub fn each_numeral(
    alloc: Global,
    entries: &[Value],
    key: Key,
    start: u32,
) -> Result<Vec<Frac>, FilterFault>
    requires { start + length entries.now < 2 ^ 32 }
    ensures gives { Gives is_memory (λ v. v.items) result (each_numeral key start (items_view entries.now)) }
    ensures count { IfOk result (λ v. length v.items ≡ length entries.now) }
    ensures over_ten { IfOk result (λ v. All OverTen v.items) }
{
    let mut found = Vec::new(alloc);
    let mut place = start;
    for entry in entries {
        found.push(numeral_of(entry, key, place)?)?;
        place += 1;
    }
    Ok(found)
}

/// The list of numerals at a key: else `Missing`, or `WrongKind` where it is no list or an entry is neither a text nor
/// a whole number.
#[tactic(auto, unfolding(crate::specs::Numerals::entries_in))]
pub fn entries_of(table: &Table, key: Key) -> Result<&[Value], FilterFault>
    ensures { seen (λ s. items_view s.now) result ≡ entries_in key (table_view table.now) }
{
    let value = needed(table, key)?;
    let entries = list_at(value, key)?;
    all_numerals(entries, key)?;
    Ok(entries)
}

#[tactic(auto, unfolding(crate::specs::Numerals::all_rows))]
fn all_rows(rows: &[Value], key: Key) -> Result<(), FilterFault>
    ensures { result ≡ all_rows key (items_view rows.now) }
{
    for row in rows {
        let entries = list_at(row, key)?;
        all_numerals(entries, key)?;
    }
    Ok(())
}

/// The rows of numerals at a key, each a list of them: else `Missing` or `WrongKind`.
#[tactic(auto, unfolding(crate::specs::Numerals::rows_in))]
pub fn rows_of(table: &Table, key: Key) -> Result<&[Value], FilterFault>
    ensures { seen (λ s. items_view s.now) result ≡ rows_in key (table_view table.now) }
{
    let value = needed(table, key)?;
    let rows = list_at(value, key)?;
    all_rows(rows, key)?;
    Ok(rows)
}

// The entries of a row of this many.
#[tactic(auto, unfolding(crate::specs::Numerals::row_of))]
fn row_of(value: &Value, key: Key, width: usize) -> Result<&[Value], FilterFault>
    ensures gives { seen (λ s. items_view s.now) result ≡ row_of key width (view value.now) }
    ensures within { IfOk result (λ s. length s.now ≡ width) }
{
    let entries = list_at(value, key)?;
    exactly(entries, key, width)?;
    Ok(entries)
}

// Each row has to have this many entries.
#[tactic(auto, unfolding(crate::specs::Numerals::each_exactly))]
fn each_exactly(rows: &[Value], key: Key, width: usize) -> Result<(), FilterFault>
    ensures { result ≡ each_exactly key width (items_view rows.now) }
{
    for row in rows {
        row_of(row, key, width)?;
    }
    Ok(())
}

#[tactic(auto, unfolding(crate::specs::Numerals::each_row))]
fn each_row(alloc: Global, rows: &[Value], key: Key, width: usize) -> Result<Vec<Frac>, FilterFault>
    requires width { width ≤ STATES }
    requires rows { length rows.now ≤ STATES }
    ensures gives { Gives is_memory (λ v. v.items) result (each_row key width 0 (items_view rows.now)) }
    ensures count { IfOk result (λ v. length v.items ≡ length rows.now * width) }
    ensures over_ten { IfOk result (λ v. All OverTen v.items) }
{
    let mut found = Vec::new(alloc);
    let mut place = 0u32;
    for row in rows {
        let entries = row_of(row, key, width)?;
        let numerals = each_numeral(alloc, entries, key, place)?;
        found.extend_from_slice(&numerals)?;
        place += width as u32;
    }
    Ok(found)
}

/// The fractions of rows of this many numerals each, row after row. The faults come in this order: `Shape` for the
/// first row of another length, then the fault of the first numeral that has one, whose place is counted through all
/// rows.
#[tactic(auto, unfolding(crate::specs::Numerals::matrix))]
pub fn matrix_of(
    alloc: Global,
    rows: &[Value],
    key: Key,
    width: usize,
) -> Result<Vec<Frac>, FilterFault>
    requires width { width ≤ STATES }
    requires rows { length rows.now ≤ STATES }
    ensures gives { Gives is_memory (λ v. v.items) result (matrix key width (items_view rows.now)) }
    ensures count { IfOk result (λ v. length v.items ≡ length rows.now * width) }
    ensures over_ten { IfOk result (λ v. All OverTen v.items) }
{
    each_exactly(rows, key, width)?;
    each_row(alloc, rows, key, width)
}
