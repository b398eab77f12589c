//! Runs on samples of one byte.
use fx_code::{CodeTerm, Program, ProgramFault, Read};
use fx_eqs::Mode;
use fx_sim::{SampleFault, simulate};
use std::alloc::Global;
use std::test::Fail;

fn term(from: Read, left: u8) -> CodeTerm {
    CodeTerm {
        coef: 1,
        from,
        left,
    }
}

// Half of what was put out before, and the input.
fn recursive(alloc: Global) -> Result<Program, ProgramFault> {
    let mut program = Program::start(alloc, 32, &[16])?;
    let terms = [term(Read::Old(0), 0), term(Read::In(0), 1)];
    program.add_row(16, 1, Mode::Nearest, &terms)?;
    program.add_output(0)?;
    Ok(program)
}

// Whether a run wants more memory than there is.
fn wants_memory(alloc: Global, program: &Program, samples: &[u8]) -> bool {
    if !program.is_whole() {
        return true;
    }
    matches!(
        simulate(alloc, program, samples),
        Err(SampleFault::NoMemory)
    )
}

#[test]
fn short_texts_want_no_more_memory(rt: HostRuntime) -> Result<(), Fail> {
    let program = recursive(rt.alloc()).ok().ok_or("a program")?;
    for byte in 0..=255u8 {
        assert!(rt; !wants_memory(rt.alloc(), &program, &[byte]), "{byte}");
    }
    Ok(())
}
