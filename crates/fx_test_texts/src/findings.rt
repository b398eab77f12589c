//! Lines of designs, and of what stands in their way, with values that no small filter gives.
use fx_block::{Least, LengthWhy};
use fx_cert::Cert;
use fx_files::{Form, Structure};
use fx_findings::{design_lines, no_design_lines, no_length_lines, structure_fault_line};
use fx_gain::LengthFail;
use fx_make::{Fail, Failed, StructureFault};
use fx_nums::Iv;
use fx_sweep::{Place, RangeAt};
use fx_totals::TargetRange;
use std::test::Fail as TestFail;

const GREATEST: TargetRange = TargetRange {
    target: 2,
    at: RangeAt {
        place: Place::Gain(3),
        value: 309485009821345068724781056,
    },
};

const RANGE: LengthWhy = LengthWhy::Range(GREATEST);

const OVER: LengthWhy = LengthWhy::Bounds(Least::Over {
    row: 2,
    value: 2147483648,
    cap: 2147483647,
});

const SLOW: LengthWhy = LengthWhy::Bounds(Least::Slow {
    row: 5,
    before: 8,
    after: 9,
});

fn lengths() -> [LengthFail; 3] {
    [
        LengthFail {
            length: 64,
            input: 0,
            why: RANGE,
        },
        LengthFail {
            length: 256,
            input: 1,
            why: OVER,
        },
        LengthFail {
            length: 4096,
            input: 0,
            why: SLOW,
        },
    ]
}

const LENGTH_LINES: &[u8] =
    b"no design\nlength 64 range target 2 gain 3 309485009821345068724781056\nlength 256 input 1 over row 2 2147483648 2147483647\nlength 4096 input 0 slow row 5 8 9\n";

#[test]
fn lengths_have_their_lines(rt: HostRuntime) -> Result<(), TestFail> {
    assert_eq!(rt;
        no_length_lines(rt.alloc(), &lengths())?.as_slice(),
        LENGTH_LINES
    );
    Ok(())
}

#[test]
fn a_design_has_its_errors(rt: HostRuntime) -> Result<(), TestFail> {
    let certificate = Cert::build(rt.alloc(), 256, &[51, 50], &[9223372036854775808, 0])?;
    assert_eq!(rt;
        design_lines(rt.alloc(), 4, 20, 256, &certificate)?.as_slice(),
        b"design 4 20 256\nerror 0 0.500000000\nerror 1 0.000000000\n".as_slice()
    );
    Ok(())
}

fn failed(guard: u8, why: Fail) -> Failed {
    Failed {
        guard,
        fraction: 14,
        length: 64,
        why,
    }
}

fn fails() -> [Failed; 6] {
    [
        failed(0, Fail::Shift(3)),
        failed(1, Fail::Wide(3, 1, -4611686018427387904)),
        failed(2, Fail::Range(GREATEST)),
        failed(3, Fail::Over(2, 2147483648, 2147483647)),
        failed(4, Fail::Slow(5, 8, 9)),
        failed(5, Fail::Error(1, 9, 8)),
    ]
}

const FAIL_LINES: &[u8] =
    b"no design\ncandidate 0 14 64 shift row 3\ncandidate 1 14 64 wide row 3 term 1 -4611686018427387904\ncandidate 2 14 64 range target 2 gain 3 309485009821345068724781056\ncandidate 3 14 64 over row 2 2147483648 2147483647\ncandidate 4 14 64 slow row 5 8 9\ncandidate 5 14 64 error output 1 9 8\n";

#[test]
fn candidates_have_their_lines(rt: HostRuntime) -> Result<(), TestFail> {
    assert_eq!(rt;
        no_design_lines(rt.alloc(), &fails())?.as_slice(),
        FAIL_LINES
    );
    Ok(())
}

fn structure_faults() -> [(StructureFault, &'static [u8]); 6] {
    [
        (
            StructureFault::NotListed(Form::Sos, Structure::Fir),
            b"unbuildable not listed sos fir\n",
        ),
        (StructureFault::NotFir(2), b"unbuildable not fir 2\n"),
        (StructureFault::Order(12, 11), b"unbuildable order 12 11\n"),
        (
            StructureFault::NotBelowOne(2, Iv::point(-18446744073709551617)),
            b"unbuildable not below one 2 -18446744073709551617 -18446744073709551617\n",
        ),
        (StructureFault::Range(7), b"unbuildable range 7\n"),
        (StructureFault::NoMemory, b""),
    ]
}

#[test]
fn structure_faults_have_their_lines(rt: HostRuntime) -> Result<(), TestFail> {
    for (fault, line) in &structure_faults() {
        assert_eq!(rt; structure_fault_line(rt.alloc(), fault)?.as_slice(), *line);
    }
    Ok(())
}
