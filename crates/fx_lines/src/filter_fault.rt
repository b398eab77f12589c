// The line of a refused filter file.

ghost use Rattle.std.specs.Prelude.{◌≡◌, ◌++◌, codes, IfOk, OnOk};
ghost use Rattle.std.specs.Fmt.{decimal};
ghost use Rattle.fx_keys.specs.Keys.{name_of};
ghost use Rattle.fx_keys.specs.declared.fault.FilterFault.TheVariants.{Limit, NotMonic, Numeral, Shape, UnknownKey};
ghost use Rattle.fx_lines.specs.FilterFault.{filter_fault_line, numeral_fault_text};
ghost use Rattle.fx_lines.specs.Laws.{OneLine};

use crate::pieces::{put_field, put_word};
use crate::unknown_key::put_key;
use fx_decimal::DecimalFault;
use fx_files::{FilterFault, Key, KeyText};
use std::alloc::{AllocError, Global};

// A key; one of a table inside a list stands behind that list's key and a point.
fn put_name(text: &mut Vec<u8>, key: Key) -> Result<(), AllocError>
    ensures { OnOk result (text.new.items ≡ text.old.items ++ name_of key) }
{
    if let Some(list) = key.parent() {
        put_word(text, list.own_name())?;
        put_word(text, ".")?;
    }
    put_word(text, key.own_name())
}

// What went wrong, and the key.
fn keyed(alloc: Global, what: &str, key: Key) -> Result<Vec<u8>, AllocError>
    ensures { IfOk result (λ t. t.items ≡ what.now ++ name_of key ++ codes "\n") }
{
    let mut text = Vec::from_slice(alloc, what.as_bytes())?;
    put_name(&mut text, key)?;
    put_word(&mut text, "\n")?;
    Ok(text)
}

// What went wrong, the key, and the place of an entry.
fn placed(alloc: Global, what: &str, key: Key, place: u32) -> Result<Vec<u8>, AllocError>
    ensures { IfOk result (λ t. t.items ≡ what.now ++ name_of key ++ codes " " ++ decimal place) }
{
    let mut text = Vec::from_slice(alloc, what.as_bytes())?;
    put_name(&mut text, key)?;
    put_field(&mut text, " ", place)?;
    Ok(text)
}

fn put_numeral_fault(text: &mut Vec<u8>, fault: DecimalFault) -> Result<(), AllocError>
    ensures { OnOk result (text.new.items ≡ text.old.items ++ numeral_fault_text fault) }
{
    match fault {
        DecimalFault::Empty => put_word(text, "empty"),
        DecimalFault::BadByte(at) => put_field(text, "bad byte ", at),
        DecimalFault::TooManyDigits => put_word(text, "too many digits"),
        DecimalFault::TooFine => put_word(text, "too fine"),
        DecimalFault::TooLarge => put_word(text, "too large"),
    }
}

// An entry that is no numeral.
fn numeral(alloc: Global, key: Key, place: u32, fault: DecimalFault) -> Result<Vec<u8>, AllocError>
    ensures { IfOk result (λ t. t.items ≡ filter_fault_line (Numeral key place fault)) }
{
    let mut text = placed(alloc, "bad filter numeral ", key, place)?;
    put_word(&mut text, " ")?;
    put_numeral_fault(&mut text, fault)?;
    put_word(&mut text, "\n")?;
    Ok(text)
}

// An entry that has to be 1.
fn not_monic(alloc: Global, key: Key, place: u32) -> Result<Vec<u8>, AllocError>
    ensures { IfOk result (λ t. t.items ≡ filter_fault_line (NotMonic key place)) }
{
    let mut text = placed(alloc, "bad filter not monic ", key, place)?;
    put_word(&mut text, "\n")?;
    Ok(text)
}

// A count of entries, and the one that is wanted.
fn shape(alloc: Global, key: Key, got: usize, wanted: usize) -> Result<Vec<u8>, AllocError>
    ensures { IfOk result (λ t. t.items ≡ filter_fault_line (Shape key got wanted)) }
{
    let mut text = Vec::from_slice(alloc, b"bad filter shape ")?;
    put_name(&mut text, key)?;
    put_field(&mut text, " ", got)?;
    put_field(&mut text, " ", wanted)?;
    put_word(&mut text, "\n")?;
    Ok(text)
}

// A number, and the end of its range.
fn limit(alloc: Global, key: Key, got: i64, end: i64) -> Result<Vec<u8>, AllocError>
    ensures { IfOk result (λ t. t.items ≡ filter_fault_line (Limit key got end)) }
{
    let mut text = Vec::from_slice(alloc, b"bad filter limit ")?;
    put_name(&mut text, key)?;
    put_field(&mut text, " ", got)?;
    put_field(&mut text, " ", end)?;
    put_word(&mut text, "\n")?;
    Ok(text)
}

// A key as the file has it, its control bytes escaped.
fn unknown_key(alloc: Global, key: &KeyText) -> Result<Vec<u8>, AllocError>
    ensures { IfOk result (λ t. t.items ≡ filter_fault_line (UnknownKey key.now)) }
{
    let mut text = Vec::from_slice(alloc, b"bad filter unknown key ")?;
    put_key(&mut text, key.bytes())?;
    put_word(&mut text, "\n")?;
    Ok(text)
}

/// The line of a refused filter file. Want of memory has none: its text is empty.
pub fn filter_fault_line(alloc: Global, fault: &FilterFault) -> Result<Vec<u8>, AllocError>
    ensures { IfOk result (λ t. t.items ≡ filter_fault_line fault.now) }
{
    match fault {
        FilterFault::NotToml => Vec::from_slice(alloc, b"bad filter not toml\n"),
        FilterFault::Missing(key) => keyed(alloc, "bad filter missing ", *key),
        FilterFault::WrongKind(key) => keyed(alloc, "bad filter wrong kind ", *key),
        FilterFault::Numeral(key, place, why) => numeral(alloc, *key, *place, *why),
        FilterFault::NotMonic(key, place) => not_monic(alloc, *key, *place),
        FilterFault::Shape(key, got, wanted) => shape(alloc, *key, *got, *wanted),
        FilterFault::Limit(key, got, end) => limit(alloc, *key, *got, *end),
        FilterFault::UnknownKey(key) => unknown_key(alloc, key),
        FilterFault::UnknownWord(key) => keyed(alloc, "bad filter unknown word ", *key),
        FilterFault::NoMemory => Ok(Vec::new(alloc)),
    }
}

/// A law with nothing to run: whatever is wrong in a filter file, one line tells it, with no control
/// byte before its line feed.
pub fn filter_faults_are_one_line()
    ensures { OneLine }
{}
