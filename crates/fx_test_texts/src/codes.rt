//! Code that is read: its terms in the order of the text, and the same text written of it.
use fx_code::{CodeTerm, Program, Read};
use fx_eqs::Mode;
use fx_text::{read_code, write_code};
use std::alloc::Global;
use std::test::Fail;

// One row: half of its last word and of the input, to the nearest.
const HALF: &[u8] =
    b"#include \"fixif.h\"\nSTEP(32, 1, 1, 1)\n{\n  IN(u0, 16);\n  a = 1;\n  a += MUL(1, s0, 0);\n  a += MUL(1, u0, 1);\n  r0 = LOW(SAR(a, 1), 16);\n  OUT(0, r0);\n  s0 = r0;\n}\n";

// The same, rounded down.
const FLOORED: &[u8] =
    b"#include \"fixif.h\"\nSTEP(32, 1, 1, 1)\n{\n  IN(u0, 16);\n  a = 0;\n  a += MUL(1, s0, 0);\n  a += MUL(1, u0, 1);\n  r0 = LOW(FLR(a, 1), 16);\n  OUT(0, r0);\n  s0 = r0;\n}\n";

// Three rows, the last of which is put out.
const THREE: &[u8] =
    b"#include \"fixif.h\"\nSTEP(64, 1, 3, 1)\n{\n  IN(u0, 16);\n  a = 1;\n  a += MUL(1, s1, 0);\n  a += MUL(1, u0, 1);\n  r0 = LOW(SAR(a, 1), 9);\n  a = 0;\n  a += MUL(1, r0, 0);\n  r1 = LOW(SAR(a, 0), 9);\n  a = 0;\n  a += MUL(1, r0, 0);\n  r2 = LOW(SAR(a, 0), 16);\n  OUT(0, r2);\n  s0 = r0;\n  s1 = r1;\n  s2 = r2;\n}\n";

// The first text with its terms swapped, on one line behind the first, with tabs between the tokens.
const SWAPPED: &[u8] =
    b"#include \"fixif.h\"\nSTEP\t(\t32\t,\t1\t,\t1\t,\t1\t)\t{\tIN\t(\tu0\t,\t16\t)\t;\ta\t=\t1\t;\ta\t+=\tMUL\t(\t1\t,\tu0\t,\t1\t)\t;\ta\t+=\tMUL\t(\t1\t,\ts0\t,\t0\t)\t;\tr0\t=\tLOW\t(\tSAR\t(\ta\t,\t1\t)\t,\t16\t)\t;\tOUT\t(\t0\t,\tr0\t)\t;\ts0\t=\tr0\t;\t}";

const SIGNED: &[u8] =
    b"#include \"fixif.h\"\nSTEP(32,1,1,1){IN(u0,16);a=0;a+=MUL(- 0,s0,0);a+=MUL(-7,u0,0);r0=LOW(SAR(a,0),16);OUT(0,r0);s0=r0;}";

// The coefficient of a term, whether it reads an input, the word before or the word now, which one, and the left shift.
fn parts(term: &CodeTerm) -> (i64, &'static str, u8, u8) {
    let (kind, number) = match term.from {
        Read::Now(row) => ("now", row),
        Read::Old(row) => ("old", row),
        Read::In(input) => ("in", input),
    };
    (term.coef, kind, number, term.left)
}

// The two terms of the first row of a text.
fn two_terms(
    alloc: Global,
    text: &[u8],
) -> Option<((i64, &'static str, u8, u8), (i64, &'static str, u8, u8))> {
    let Ok(program) = read_code(alloc, text) else {
        return None;
    };
    if program.rows() == 0 {
        return None;
    }
    match program.terms(0) {
        [first, second] => Some((parts(first), parts(second))),
        _ => None,
    }
}

#[test]
fn terms_stand_in_the_order_of_the_text(rt: HostRuntime) {
    let table = [
        (HALF, (1, "old", 0, 0), (1, "in", 0, 1)),
        (SWAPPED, (1, "in", 0, 1), (1, "old", 0, 0)),
        (SIGNED, (0, "old", 0, 0), (-7, "in", 0, 0)),
    ];
    for (text, first, second) in table {
        assert_eq!(rt; two_terms(rt.alloc(), text), Some((first, second)));
    }
}

// Whether each row of a program rounds down.
fn all_floored(program: &Program) -> bool {
    for row in 0..program.rows() {
        if !matches!(program.mode(row), Mode::Floor) {
            return false;
        }
    }
    true
}

#[test]
fn rows_keep_their_mode(rt: HostRuntime) -> Result<(), Fail> {
    for (text, floored) in [(HALF, false), (FLOORED, true), (THREE, false)] {
        let Ok(program) = read_code(rt.alloc(), text) else {
            return Err(Fail::from("read"));
        };
        assert_eq!(rt; all_floored(&program), floored);
    }
    Ok(())
}

#[test]
fn what_was_read_is_written_again(rt: HostRuntime) -> Result<(), Fail> {
    for (text, bits, last) in [(HALF, 32, 0), (FLOORED, 32, 0), (THREE, 64, 2)] {
        let Ok(program) = read_code(rt.alloc(), text) else {
            return Err(Fail::from("read"));
        };
        assert_eq!(rt; (program.accumulator(), program.inputs()), (bits, 1));
        assert_eq!(rt; program.outputs(), [last].as_slice());
        let written = write_code(rt.alloc(), &program)?;
        assert_eq!(rt; written.as_slice(), text);
    }
    Ok(())
}
