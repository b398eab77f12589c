//! Whole numbers at keys, alone and in lists.

ghost use Rattle.std.specs.Prelude.{◌≡◌, ◌≤◌, ◌^◌, ◌<◌, ◌≤ℤ◌, pos, unsigned_abs, length, All, IfOk};
ghost use Rattle.toml.specs.View.{view, table_view, items_view};
ghost use Rattle.fx_math.specs.Answers.{Gives};
ghost use Rattle.fx_keys.specs.Faults.{is_memory};
ghost use Rattle.fx_keys.specs.Fits.{NaturalsFit};
ghost use Rattle.fx_keys.specs.Keys.{IsNatural, IsWithin, range_of};
ghost use Rattle.fx_keys.specs.Wholes.{
  all_whole,
  each_natural,
  integer_at,
  integer_or,
  natural_at,
  natural_in,
  naturals,
  naturals_in,
  ranged,
  whole_in,
  whole_or,
};

use crate::entries::{at_most, list_at, some};
use crate::fault::FilterFault;
use crate::key::Key;
use crate::limits::Range;
use crate::table::value_at;
use std::alloc::{AllocError, Global};
use toml::{Table, Value};

fn integer_at(value: &Value, key: Key) -> Result<i64, FilterFault>
    ensures { result ≡ integer_at key (view value.now) }
{
    match value.as_integer() {
        Some(number) => Ok(number),
        None => Err(FilterFault::WrongKind(key)),
    }
}

/// The whole number at a key, of any size, with this default in place of the key's own: `Missing` where it is absent
/// and has no default, `WrongKind` for other values.
pub fn integer_or(table: &Table, key: Key, default: Option<i64>) -> Result<i64, FilterFault>
    ensures { result ≡ integer_or key default (table_view table.now) }
{
    match (value_at(table, key), default) {
        (Some(value), _) => integer_at(value, key),
        (None, Some(number)) => Ok(number),
        (None, None) => Err(FilterFault::Missing(key)),
    }
}

fn ranged(number: i64, key: Key, range: Range) -> Result<i64, FilterFault>
    ensures gives { result ≡ ranged key range number }
    ensures within { IfOk result (IsWithin range) }
{
    if number < range.low {
        Err(FilterFault::Limit(key, number, range.low))
    } else if number > range.high {
        Err(FilterFault::Limit(key, number, range.high))
    } else {
        Ok(number)
    }
}

/// The whole number at a key, of this range, with this default: the faults of `integer_or`, and `Limit` with the nearer
/// end for a number out of range.
pub fn whole_or(
    table: &Table,
    key: Key,
    range: Range,
    default: Option<i64>,
) -> Result<i64, FilterFault>
    ensures gives { result ≡ whole_or key range default (table_view table.now) }
    ensures within { IfOk result (IsWithin range) }
{
    let number = integer_or(table, key, default)?;
    ranged(number, key, range)
}

/// The whole number at a key, with the key's own range and default; its faults are those of `whole_or`.
pub fn whole_of(table: &Table, key: Key) -> Result<i64, FilterFault>
    ensures gives { result ≡ whole_in key (table_view table.now) }
    ensures within { IfOk result (IsWithin (range_of key)) }
{
    whole_or(table, key, key.range(), key.default())
}

// A number that is not negative.
fn natural(number: i64) -> u16
    requires { (pos 0 ≤ℤ number) × (number ≤ℤ pos 65535) }
    ensures value { result ≡ unsigned_abs number }
    ensures same { pos result ≡ number }
{
    number.unsigned_abs() as u16
}

/// The whole number at a key whose range has natural numbers alone, as by `whole_of`.
pub fn natural_of(table: &Table, key: Key) -> Result<u16, FilterFault>
    requires { IsNatural (range_of key) }
    ensures gives { result ≡ natural_in key (table_view table.now) }
    ensures within { IfOk result (λ n. IsWithin (range_of key) (pos n)) }
{
    let number = whole_of(table, key)?;
    Ok(natural(number))
}

#[tactic(auto, unfolding(crate::specs::Wholes::all_whole))]
fn all_whole(entries: &[Value], key: Key) -> Result<(), FilterFault>
    ensures { result ≡ all_whole key (items_view entries.now) }
{
    for entry in entries {
        if !entry.is_integer() {
            return Err(FilterFault::WrongKind(key));
        }
    }
    Ok(())
}

// An entry of a list.
fn natural_at(value: &Value, key: Key) -> Result<u16, FilterFault>
    requires { IsNatural (range_of key) }
    ensures gives { result ≡ natural_at key (view value.now) }
    ensures within { IfOk result (λ n. IsWithin (range_of key) (pos n)) }
{
    let number = integer_at(value, key)?;
    Ok(natural(ranged(number, key, key.range())?))
}

#[tactic(auto, unfolding(crate::specs::Wholes::each_natural))]
fn each_natural(alloc: Global, entries: &[Value], key: Key) -> Result<Vec<u16>, FilterFault>
    requires { IsNatural (range_of key) }
    ensures gives { Gives is_memory (λ v. v.items) result (each_natural key (items_view entries.now)) }
    ensures count { IfOk result (λ v. length v.items ≡ length entries.now) }
    ensures within { IfOk result (λ v. All (λ n. IsWithin (range_of key) (pos n)) v.items) }
{
    let mut found = Vec::new(alloc);
    for entry in entries {
        found.push(natural_at(entry, key)?)?;
    }
    Ok(found)
}

#[tactic(auto, unfolding(crate::specs::Wholes::naturals))]
fn naturals(alloc: Global, value: &Value, key: Key) -> Result<Vec<u16>, FilterFault>
    requires { IsNatural (range_of key) }
    ensures gives { Gives is_memory (λ v. v.items) result (naturals key (view value.now)) }
    ensures fits { IfOk result (λ v. NaturalsFit key v.items) }
{
    let entries = list_at(value, key)?;
    all_whole(entries, key)?;
    some(entries, key)?;
    at_most(entries, key)?;
    each_natural(alloc, entries, key)
}

/// The list of whole numbers at a key whose numbers are natural, with the key's range, greatest count and default. The
/// faults come in this order: `Missing`, `WrongKind` for other values and other entries, `Shape` for an empty list,
/// `Limit` for too many entries, and then of the first number that is out of range.
pub fn naturals_of(alloc: Global, table: &Table, key: Key) -> Result<Vec<u16>, FilterFault>
    requires { IsNatural (range_of key) }
    ensures gives { Gives is_memory (λ v. v.items) result (naturals_in key (table_view table.now)) }
    ensures fits { IfOk result (λ v. NaturalsFit key v.items) }
{
    match (value_at(table, key), key.default_list()) {
        (Some(value), _) => naturals(alloc, value, key),
        (None, Some(numbers)) => Ok(Vec::from_slice(alloc, numbers)?),
        (None, None) => Err(FilterFault::Missing(key)),
    }
}

/// The same numbers in 8 bits. Its error is want of memory.
pub fn narrowed(alloc: Global, numbers: &[u16]) -> Result<Vec<u8>, AllocError>
    requires { All (λ n. n < 2 ^ 8) numbers.now }
    ensures { IfOk result (λ v. v.items ≡ numbers.now) }
{
    let mut narrow = Vec::new(alloc);
    for number in numbers {
        narrow.push(*number as u8)?;
    }
    Ok(narrow)
}
