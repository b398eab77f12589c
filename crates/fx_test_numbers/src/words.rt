//! Whole numbers of texts, signs, widths of words and accumulators.
use fx_math::is_accumulator;
use fx_msb::{accumulator_fits, least_width, top_position};
use fx_nums::{is_blank, signed, whole_at};

// The number at a place of a text, and the place behind it.
fn number_at(text: &[u8], at: usize, limit: u128) -> Option<(u128, usize)> {
    if at > text.len() {
        return None;
    }
    whole_at(text, at, limit)
}

// Whether they are as the table says.
fn whole_numbers_of_texts_hold() -> bool {
    let table = [
        (b"a120,".as_slice(), 1, 121, Some((120, 4))),
        (b"a120,".as_slice(), 1, 120, None),
        (b"0".as_slice(), 0, 1, Some((0, 1))),
        (b"00".as_slice(), 0, 1, None),
        (b"a120,".as_slice(), 0, 121, None),
        (b"a120,".as_slice(), 5, 121, None),
        (
            b"999999999999999999999999999999999999999999".as_slice(),
            0,
            1 << 127,
            None,
        ),
    ];
    for (text, at, limit, wanted) in table {
        if number_at(text, at, limit) != wanted {
            return false;
        }
    }
    true
}

#[test]
fn whole_numbers_of_texts(rt: HostRuntime) {
    assert!(rt; whole_numbers_of_texts_hold());
}

// Whether bytes are blanks, and signs are put, as they should be.
fn blanks_and_signs_hold() -> bool {
    for (byte, blank) in [(b' ', true), (b'\t', true), (b'\n', true), (b'0', false)] {
        if is_blank(byte) != blank {
            return false;
        }
    }
    signed(true, 17) == -17 && signed(false, 17) == 17 && signed(true, 0) == 0
}

#[test]
fn blanks_and_signs(rt: HostRuntime) {
    assert!(rt; blanks_and_signs_hold());
}

// The least width of words with a bound, if it is one.
fn width_of(bound: i64) -> Option<u8> {
    if bound < 0 || bound > 2147483647 {
        return None;
    }
    Some(least_width(bound))
}

// Whether they are as the table says.
fn least_widths_hold() -> bool {
    let table = [
        (0, 2),
        (1, 2),
        (2, 3),
        (3, 3),
        (50, 7),
        (51, 7),
        (63, 7),
        (64, 8),
        (127, 8),
        (128, 9),
        (1073741823, 31),
        (1073741824, 32),
        (2147483647, 32),
    ];
    for (bound, width) in table {
        if width_of(bound) != Some(width) {
            return false;
        }
    }
    true
}

#[test]
fn least_widths(rt: HostRuntime) {
    assert!(rt; least_widths_hold());
}

// Whether an accumulator takes the sums of a row, if its bound, its shift and the accumulator are within their limits.
fn sums_fit(bound: i64, shift: u8, bits: u8) -> Option<bool> {
    if bound < 0 || bound > 2147483647 || shift >= bits || bits > 64 {
        return None;
    }
    Some(accumulator_fits(bound, shift, bits))
}

// Whether they are as the table says.
fn accumulators_hold() -> bool {
    for (bits, listed) in [(16, true), (32, true), (64, true), (0, false), (24, false)] {
        if is_accumulator(bits) != listed {
            return false;
        }
    }
    let table = [
        (0, 15, 16, true),
        (1, 15, 16, false),
        (127, 8, 16, true),
        (128, 8, 16, false),
        (2147483647, 32, 64, true),
        (2147483647, 33, 64, false),
        (0, 0, 1, true),
        (0, 63, 64, true),
        (1, 63, 64, false),
    ];
    for (bound, shift, bits, fits) in table {
        if sums_fit(bound, shift, bits) != Some(fits) {
            return false;
        }
    }
    true
}

#[test]
fn accumulators(rt: HostRuntime) {
    assert!(rt; accumulators_hold());
}

// Whether the highest bits of words stand where they should.
fn tops_hold() -> bool {
    top_position(8, -4) == 3
        && top_position(2, -64) == -63
        && top_position(32, 63) == 94
        && top_position(0, 0) == -1
        && top_position(1, 32767) == 32767
}

#[test]
fn top_positions(rt: HostRuntime) {
    assert!(rt; tops_hold());
}
