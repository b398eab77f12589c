//! Keys of filter files, and the values at them.
use fx_keys::{
    FilterFault, Key, LOWS, at_most, each_numeral, entries_of, integer_or, matrix_of, only_keys,
    rows_of, table_of,
};
use fx_nums::Frac;
use std::alloc::Global;
use std::test::Fail;

// The whole number at a key of a text, with a default.
fn integer(alloc: Global, key: Key, default: Option<i64>) -> Option<i64> {
    let table = table_of(alloc, b"accumulator = 100000").ok()?;
    integer_or(&table, key, default).ok()
}

#[test]
fn whole_numbers_take_any_default(rt: HostRuntime) {
    let table = [
        (Key::Accumulator, None, Some(100000)),
        (Key::Accumulator, Some(7), Some(100000)),
        (Key::Word, Some(LOWS.high), Some(63)),
        (Key::Word, None, None),
    ];
    for (key, default, number) in table {
        assert_eq!(rt; integer(rt.alloc(), key, default), number);
    }
}

// The numerals of a text, and its rows of two.
fn numerals(alloc: Global, text: &str) -> Result<(Vec<Frac>, Vec<Frac>), FilterFault> {
    let table = table_of(alloc, text.as_bytes())?;
    let entries = entries_of(&table, Key::B)?;
    at_most(entries, Key::B)?;
    let list = each_numeral(alloc, entries, Key::B, 0)?;
    let rows = rows_of(&table, Key::Sections)?;
    at_most(rows, Key::Sections)?;
    Ok((list, matrix_of(alloc, rows, Key::Sections, 2)?))
}

// The numerator of a fraction and its denominator.
fn parts(fraction: Option<&Frac>) -> Option<(i64, u128)> {
    let fraction = fraction?;
    Some((fraction.num(), fraction.den().value()))
}

#[test]
fn numerals_are_read(rt: HostRuntime) -> Result<(), Fail> {
    let text = "b = [\"0.5\", 7]\nsections = [[7, \"0.5\"], [7, 7]]";
    let (list, rows) = numerals(rt.alloc(), text).ok().ok_or("read")?;
    assert_eq!(rt; (list.len(), rows.len()), (2, 4));
    for (place, num, den) in [(0, 5, 10), (1, 7, 1)] {
        assert_eq!(rt; parts(list.get(place)), Some((num, den)), "{place}");
    }
    for (place, num, den) in [(0, 7, 1), (1, 5, 10), (2, 7, 1), (3, 7, 1)] {
        assert_eq!(rt; parts(rows.get(place)), Some((num, den)), "{place}");
    }
    Ok(())
}

#[test]
fn keys_have_names(rt: HostRuntime) {
    let table = [
        (Key::OutputsError, "error", Some("outputs")),
        (Key::InputsWidth, "width", Some("inputs")),
        (Key::MatD, "D", None),
        (Key::Rounding, "rounding", None),
    ];
    for (key, name, parent) in table {
        assert_eq!(rt; key.own_name(), name);
        assert_eq!(rt; key.parent().map(|list| list.own_name()), parent);
    }
}

#[test]
fn unknown_keys_keep_their_bytes(rt: HostRuntime) -> Result<(), Fail> {
    let table = table_of(rt.alloc(), "\"é\" = 1".as_bytes())
        .ok()
        .ok_or("read")?;
    match only_keys(rt.alloc(), &table, &[Key::Outputs], &[Key::Inputs]) {
        Err(FilterFault::UnknownKey(key)) => assert_eq!(rt; key.bytes(), "é".as_bytes()),
        _ => return Err(Fail::from("unknown")),
    }
    Ok(())
}
