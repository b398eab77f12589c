//! Lines of values that no small file gives.
use fx_block::Inequality;
use fx_cert::{Cert, CertFault};
use fx_code::LimitOf;
use fx_error::Parts;
use fx_files::{FilterFault, read_filter};
use fx_lines::{
    accepted_lines, cert_fault_line, code_fault_line, filter_fault_line, refused_line,
    report_lines, sample_fault_line,
};
use fx_sim::SampleFault;
use fx_sweep::Place;
use fx_text::{CodeFault, read_code};
use std::test::Fail;

#[test]
fn want_of_memory_has_no_line(rt: HostRuntime) -> Result<(), Fail> {
    let alloc = rt.alloc();
    assert!(rt; filter_fault_line(alloc, &FilterFault::NoMemory)?.is_empty());
    assert!(rt; code_fault_line(alloc, &CodeFault::NoMemory)?.is_empty());
    assert!(rt; sample_fault_line(alloc, &SampleFault::NoMemory)?.is_empty());
    assert!(rt; cert_fault_line(alloc, &CertFault::NoMemory)?.is_empty());
    Ok(())
}

fn code_faults() -> [(CodeFault, &'static [u8]); 4] {
    [
        (CodeFault::Name(65536), b"bad code name 65536\n"),
        (
            CodeFault::Rounding(1, -2, 512),
            b"bad code rounding 1 -2 512\n",
        ),
        (
            CodeFault::Limit(LimitOf::OutputRow, 40),
            b"bad code limit outputrow 40\n",
        ),
        (
            CodeFault::Limit(LimitOf::Product, -42535295865117307932921825928971026432),
            b"bad code limit product -42535295865117307932921825928971026432\n",
        ),
    ]
}

#[test]
fn code_faults_have_their_lines(rt: HostRuntime) -> Result<(), Fail> {
    for (fault, line) in &code_faults() {
        assert_eq!(rt; code_fault_line(rt.alloc(), fault)?.as_slice(), *line);
    }
    Ok(())
}

fn sample_faults() -> [(SampleFault, &'static [u8]); 3] {
    [
        (
            SampleFault::Columns(1, 3, 2),
            b"bad samples columns 1 3 2\n",
        ),
        (
            SampleFault::Field(18446744073709551615, 2),
            b"bad samples field 18446744073709551615 2\n",
        ),
        (
            SampleFault::OutOfWord(4, 1, -999999999999999999),
            b"bad samples out of word 4 1 -999999999999999999\n",
        ),
    ]
}

#[test]
fn sample_faults_have_their_lines(rt: HostRuntime) -> Result<(), Fail> {
    for (fault, line) in &sample_faults() {
        assert_eq!(rt; sample_fault_line(rt.alloc(), fault)?.as_slice(), *line);
    }
    Ok(())
}

#[test]
fn certificates_have_long_lines(rt: HostRuntime) -> Result<(), Fail> {
    assert_eq!(rt;
        cert_fault_line(rt.alloc(), &CertFault::Number(73))?.as_slice(),
        b"bad certificate number 73\n".as_slice()
    );
    Ok(())
}

// A half, the least error that is not 0, and the greatest one.
#[test]
fn an_accepted_certificate_has_its_errors(rt: HostRuntime) -> Result<(), Fail> {
    let errors = [9223372036854775808, 1, 79228162514264337593543950335];
    let certificate = Cert::build(rt.alloc(), 1, &[51], &errors)?;
    assert_eq!(rt;
        accepted_lines(rt.alloc(), &certificate)?.as_slice(),
        b"accepted\nerror 0 0.500000000\nerror 1 0.000000001\nerror 2 4294967296.000000000\n".as_slice()
    );
    Ok(())
}

const LIMIT: i128 = 309485009821345068724781056;

fn failures() -> [(Inequality, i128, i128, &'static [u8]); 13] {
    [
        (Inequality::Inputs, 2, 1, b"refused I1 inputs 2 1\n"),
        (Inequality::Outputs, 4, 3, b"refused I1 outputs 4 3\n"),
        (
            Inequality::Accumulator,
            32,
            64,
            b"refused I1 accumulator 32 64\n",
        ),
        (Inequality::InputWidth(3), 8, 9, b"refused I1 input 3 8 9\n"),
        (
            Inequality::OutputWidth(1),
            8,
            9,
            b"refused I1 output 1 8 9\n",
        ),
        (Inequality::Rows, 3, 2, b"refused I1 rows 3 2\n"),
        (Inequality::Errors, 2, 1, b"refused I1 errors 2 1\n"),
        (
            Inequality::Sweep(2, Place::Input(0)),
            LIMIT + 1,
            LIMIT,
            b"refused I2 target 2 input 0 309485009821345068724781057 309485009821345068724781056\n",
        ),
        (
            Inequality::Bound(63),
            18446744073709551617,
            18446744073709551616,
            b"refused I3 row 63 18446744073709551617 18446744073709551616\n",
        ),
        (Inequality::Word(0), 128, 127, b"refused I4 row 0 128 127\n"),
        (Inequality::Sum(1), 129, 128, b"refused I5 row 1 129 128\n"),
        (Inequality::Error(0), 9, 8, b"refused I6 output 0 9 8\n"),
        (Inequality::Wanted(3), 1, -1, b"refused I7 output 3 1 -1\n"),
    ]
}

#[test]
fn failures_have_their_lines(rt: HostRuntime) -> Result<(), Fail> {
    for (which, left, right, line) in &failures() {
        assert_eq!(rt;
            refused_line(rt.alloc(), *which, *left, *right)?.as_slice(),
            *line
        );
    }
    Ok(())
}

fn places() -> [(Place, &'static [u8]); 3] {
    [
        (Place::Weight(7), b"refused I2 target 0 weight 7 5 4\n"),
        (Place::Gain(8), b"refused I2 target 0 gain 8 5 4\n"),
        (Place::Rest(9), b"refused I2 target 0 rest 9 5 4\n"),
    ]
}

#[test]
fn places_of_a_sweep_are_named(rt: HostRuntime) -> Result<(), Fail> {
    for (place, line) in &places() {
        let which = Inequality::Sweep(0, *place);
        assert_eq!(rt; refused_line(rt.alloc(), which, 5, 4)?.as_slice(), *line);
    }
    Ok(())
}

// y(k) = u(k) + 0.5 y(k-1).
const FILTER: &[u8] =
    b"form = \"tf\"\nb = [\"1\"]\na = [\"1\", \"-0.5\"]\naccumulator = 32\n[[inputs]]\nwidth = 16\nbound = 100\n[[outputs]]\nwidth = 16\nerror = \"3\"\n";

const CODE: &[u8] =
    b"#include \"fixif.h\"\nSTEP(32, 1, 2, 1)\n{\n  IN(u0, 16);\n  a = 0;\n  a += MUL(1, u0, 0);\n  r0 = LOW(SAR(a, 0), 9);\n  a = 1;\n  a += MUL(1, r0, 0);\n  r1 = LOW(SAR(a, 1), 16);\n  OUT(0, r1);\n  s0 = r0;\n  s1 = r1;\n}\n";

const REPORT_LINES: &[u8] =
    b"row 0 width 9 bound 256 shift 0 spare -1\nrow 1 width 16 bound 100 shift 1 spare 32667\noutput 0 rounding 0.500000000 difference 0.000000001 rest 0.000000000 total 0.500000001 target 3\n";

#[test]
fn a_report_has_its_rows_and_parts(rt: HostRuntime) -> Result<(), Fail> {
    let filter = read_filter(rt.alloc(), FILTER).ok().ok_or("a filter")?;
    let program = read_code(rt.alloc(), CODE).ok().ok_or("a program")?;
    let certificate = Cert::build(rt.alloc(), 1, &[256, 100, 7], &[0])?;
    let parts = Parts {
        rounding: 9223372036854775808,
        difference: 1,
        rest: 0,
    };
    let text = report_lines(rt.alloc(), &filter, &program, &certificate, &[parts; 4])?;
    assert_eq!(rt; text.as_slice(), REPORT_LINES);
    Ok(())
}
