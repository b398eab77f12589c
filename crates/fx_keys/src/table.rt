//! The table of a file, and the values at its keys.

ghost use Rattle.fx_keys.specs.Laws.{FirstUnknown};
ghost use Rattle.std.specs.Prelude.{◌≡◌, ◌++◌, option_map};
ghost use Rattle.toml.specs.Data.{get_member};
ghost use Rattle.toml.specs.View.{view, table_view};
ghost use Rattle.fx_math.specs.Answers.{Gives};
ghost use Rattle.fx_keys.specs.Faults.{is_memory, seen};
ghost use Rattle.fx_keys.specs.Keys.{own_name};
ghost use Rattle.fx_keys.specs.Table.{is_known, needed, only_keys, table_at};

use crate::fault::FilterFault;
use crate::key::{Key, KeyText};
use std::alloc::Global;
use toml::{Table, Value};

/// The table that the text of the bytes is, or `NotToml`.
pub fn table_of(alloc: Global, bytes: &[u8]) -> Result<Table, FilterFault>
    ensures { Gives is_memory table_view result (table_at bytes.now) }
{
    let Ok(text) = std::str::from_utf8(bytes) else {
        return Err(FilterFault::NotToml);
    };
    match toml::table_from_str(alloc, text) {
        Ok(table) => Ok(table),
        Err(error) => {
            if error.is_memory() {
                Err(FilterFault::NoMemory)
            } else {
                Err(FilterFault::NotToml)
            }
        }
    }
}

/// The value at a key.
pub fn value_at(table: &Table, key: Key) -> Option<&Value>
    ensures { option_map (λ v. view v.now) result ≡ get_member (own_name key) (table_view table.now) }
{
    table.get(key.own_name())
}

/// The value at a key that has to be there, or `Missing`.
pub fn needed(table: &Table, key: Key) -> Result<&Value, FilterFault>
    ensures { seen (λ v. view v.now) result ≡ needed key (table_view table.now) }
{
    match value_at(table, key) {
        Some(value) => Ok(value),
        None => Err(FilterFault::Missing(key)),
    }
}

fn is_among(text: &str, keys: &[Key]) -> bool
    ensures { result ≡ is_known keys.now text.now }
{
    keys.iter().any(|key| key.own_name() == text)
}

// Whether a text is one of these keys, or one of those.
fn is_known(text: &str, shared: &[Key], own: &[Key]) -> bool
    ensures { result ≡ is_known (shared.now ++ own.now) text.now }
{
    is_among(text, shared) || is_among(text, own)
}

/// A key of the table that is in neither list is a fault: `UnknownKey` of the first such key in byte order.
#[tactic(auto, unfolding(crate::specs::Table::only_keys))]
pub fn only_keys(
    alloc: Global,
    table: &Table,
    shared: &[Key],
    own: &[Key],
) -> Result<(), FilterFault>
    ensures { Gives is_memory (λ _. tt) result (only_keys (shared.now ++ own.now) (table_view table.now)) }
{
    for (text, _) in table.iter() {
        if !is_known(text.as_str(), shared, own) {
            let bytes = Vec::from_slice(alloc, text.as_bytes())?;
            return Err(FilterFault::UnknownKey(KeyText::new(bytes)));
        }
    }
    Ok(())
}

/// A law with nothing to run: where a key of a table is answered as unknown, all keys before it in byte order are
/// known.
pub fn unknown_keys_come_first(table: &Table)
    ensures { FirstUnknown (table_view table.now) }
{
    let _ = table.len();
}
