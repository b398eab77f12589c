//! Decimals that are read and printed.
use fx_decimal::{DecimalFault, print_down, print_frac, print_up, read_decimal};
use fx_nums::{Den, Frac};

// The numerator and the denominator that a text writes.
fn number(text: &[u8]) -> Option<(i64, u128)> {
    match read_decimal(text) {
        Ok(c) => Some((c.num(), c.den().value())),
        Err(_) => None,
    }
}

// Whether they are as the table says.
fn fractions_of_texts_hold() -> bool {
    let ten_to_18 = 1000000000000000000;
    let table = [
        (b"0".as_slice(), 0, 1),
        (b"-0.000e-99999999999999999999".as_slice(), 0, 1),
        (b"1.00e0".as_slice(), 1, 1),
        (b".5".as_slice(), 5, 10),
        (b"+5.".as_slice(), 5, 1),
        (b"-007.250".as_slice(), -725, 100),
        (b"12E+2".as_slice(), 1200, 1),
        (
            b"2.0083365564211236e-02".as_slice(),
            20083365564211236,
            ten_to_18,
        ),
        (b"1000000000000000000000000e-24".as_slice(), 1, 1),
        (b"1e-28".as_slice(), 1, 10000000000000000000000000000),
        (b"16777215.9".as_slice(), 167772159, 10),
    ];
    for (text, num, den) in table {
        if number(text) != Some((num, den)) {
            return false;
        }
    }
    true
}

#[test]
fn fractions_of_texts(rt: HostRuntime) {
    assert!(rt; fractions_of_texts_hold());
}

// Whether they are as the table says.
fn texts_that_end_early_hold() -> bool {
    for text in [
        b"".as_slice(),
        b".".as_slice(),
        b"+".as_slice(),
        b"1e".as_slice(),
        b"1e+".as_slice(),
    ] {
        if !matches!(read_decimal(text), Err(DecimalFault::Empty)) {
            return false;
        }
    }
    true
}

#[test]
fn texts_that_end_early(rt: HostRuntime) {
    assert!(rt; texts_that_end_early_hold());
}

// Where the first byte stands that cannot go on a numeral.
fn bad_place(text: &[u8]) -> Option<usize> {
    match read_decimal(text) {
        Err(DecimalFault::BadByte(place)) => Some(place),
        _ => None,
    }
}

// Whether they are as the table says.
fn bytes_that_do_not_go_on_hold() -> bool {
    let table = [
        (b"e5".as_slice(), 0),
        (b".e5".as_slice(), 1),
        (b"1.2.3".as_slice(), 3),
        (b"1e5.".as_slice(), 3),
        (b"--1".as_slice(), 1),
    ];
    for (text, place) in table {
        if bad_place(text) != Some(place) {
            return false;
        }
    }
    true
}

#[test]
fn bytes_that_do_not_go_on(rt: HostRuntime) {
    assert!(rt; bytes_that_do_not_go_on_hold());
}

// Whether they are as the table says.
fn numbers_out_of_range_hold() -> bool {
    for text in [
        b"1.234567890123456789".as_slice(),
        b"1234567890123456789e-99".as_slice(),
    ] {
        if !matches!(read_decimal(text), Err(DecimalFault::TooManyDigits)) {
            return false;
        }
    }
    for text in [
        b"0.00000000000000000000000000001".as_slice(),
        b"1e-99999999999999999999".as_slice(),
    ] {
        if !matches!(read_decimal(text), Err(DecimalFault::TooFine)) {
            return false;
        }
    }
    for text in [
        b"16777216".as_slice(),
        b"-1e99999999999999999999".as_slice(),
    ] {
        if !matches!(read_decimal(text), Err(DecimalFault::TooLarge)) {
            return false;
        }
    }
    true
}

#[test]
fn numbers_out_of_range(rt: HostRuntime) {
    assert!(rt; numbers_out_of_range_hold());
}

// Whether numbers are printed so, up and down.
fn numbers_are_printed_hold() -> bool {
    let above_one = 18446744073709552016;
    print_up(above_one, 9).bytes() == b"1.000000001".as_slice()
        && print_up(-1, 9).bytes() == b"0.000000000".as_slice()
        && print_down(-1, 9).bytes() == b"-0.000000001".as_slice()
        && print_down(above_one, 1).bytes() == b"1.0".as_slice()
}

#[test]
fn numbers_are_printed(rt: HostRuntime) {
    assert!(rt; numbers_are_printed_hold());
}

// Whether a fraction over a power of ten is printed so.
fn is_printed(num: i64, places: u8, text: &[u8]) -> bool {
    match Frac::new(num, Den::Ten(places)) {
        Some(c) => print_frac(c).bytes() == text,
        None => false,
    }
}

// Whether they are as the table says.
fn fractions_are_printed_hold() -> bool {
    let table = [
        (300, 3, b"0.3".as_slice()),
        (-1200, 2, b"-12".as_slice()),
        (0, 5, b"0".as_slice()),
        (-1, 28, b"-0.0000000000000000000000000001".as_slice()),
    ];
    for (num, places, text) in table {
        if !is_printed(num, places, text) {
            return false;
        }
    }
    true
}

#[test]
fn fractions_are_printed(rt: HostRuntime) {
    assert!(rt; fractions_are_printed_hold());
}
