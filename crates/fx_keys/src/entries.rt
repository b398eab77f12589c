//! The entries of lists.

ghost use Rattle.std.specs.Prelude.{◌≡◌, ◌≤◌, ◌<◌, length, IfOk};
ghost use Rattle.toml.specs.View.{view, items_view};
ghost use Rattle.fx_keys.specs.Entries.{all_tables, at_most, exactly, item_count, list_at, some};
ghost use Rattle.fx_keys.specs.Faults.{seen};
ghost use Rattle.fx_keys.specs.Keys.{most_of};

use crate::fault::FilterFault;
use crate::key::Key;
use toml::Value;

/// The entries of a list, or `WrongKind`.
pub fn list_at(value: &Value, key: Key) -> Result<&[Value], FilterFault>
    ensures { seen (λ s. items_view s.now) result ≡ list_at key (view value.now) }
{
    match value.as_array() {
        Some(entries) => Ok(entries.as_slice()),
        None => Err(FilterFault::WrongKind(key)),
    }
}

/// How many entries there are.
pub fn item_count(entries: &[Value]) -> usize
    ensures count { result ≡ item_count (items_view entries.now) }
    ensures len { result ≡ length entries.now }
{
    entries.len()
}

/// There has to be an entry: else `Shape` with the counts 0 and 1.
pub fn some(entries: &[Value], key: Key) -> Result<(), FilterFault>
    ensures gives { result ≡ some key (items_view entries.now) }
    ensures within { IfOk result (λ _. 1 ≤ length entries.now) }
{
    if item_count(entries) > 0 {
        Ok(())
    } else {
        Err(FilterFault::Shape(key, 0, 1))
    }
}

/// There are no more entries than the key may have: else `Limit` with both counts.
pub fn at_most(entries: &[Value], key: Key) -> Result<(), FilterFault>
    ensures gives { result ≡ at_most key (items_view entries.now) }
    ensures within { IfOk result (λ _. length entries.now ≤ most_of key) }
{
    let (count, most) = (item_count(entries), key.most());
    if count <= most {
        Ok(())
    } else {
        Err(FilterFault::Limit(key, count as i64, most as i64))
    }
}

/// There are just as many entries as wanted: else `Shape` with both counts.
pub fn exactly(entries: &[Value], key: Key, wanted: usize) -> Result<(), FilterFault>
    ensures gives { result ≡ exactly key wanted (items_view entries.now) }
    ensures within { IfOk result (λ _. length entries.now ≡ wanted) }
{
    let count = item_count(entries);
    if count == wanted {
        Ok(())
    } else {
        Err(FilterFault::Shape(key, count, wanted))
    }
}

/// Each entry is a table: else `WrongKind`.
#[tactic(auto, unfolding(crate::specs::Entries::all_tables))]
pub fn all_tables(entries: &[Value], key: Key) -> Result<(), FilterFault>
    ensures { result ≡ all_tables key (items_view entries.now) }
{
    for entry in entries {
        if !entry.is_table() {
            return Err(FilterFault::WrongKind(key));
        }
    }
    Ok(())
}
