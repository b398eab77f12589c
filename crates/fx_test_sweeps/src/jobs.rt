//! Jobs of numbers: what is drawn, and a run on drawn samples.
ghost use Rattle.std.specs.Prelude.{IfOk};
ghost use Rattle.fx_large.specs.Runs.{HasPorts};

use fx_code::{CodeTerm, Program, ProgramFault, Read};
use fx_eqs::Mode;
use fx_large::{Draws, drawn_sections, next_sample, run_samples};
use std::alloc::{AllocError, Global};
use std::test::Fail;

const NUMBER: Draws = Draws { state: 1 };

// The first two draws of a number, and the first sample behind another state.
fn drawn() -> (u16, u16, i64) {
    let mut draws = NUMBER;
    let first = draws.draw();
    let second = draws.draw();
    let mut samples = Draws { state: 7 };
    (first, second, next_sample(&mut samples))
}

#[test]
fn a_step_comes_before_each_draw(rt: HostRuntime) {
    assert!(rt; drawn() == (15496, 24200, 641));
}

// The numerators of the first section and of the next coefficient, and the state behind all sections.
fn sections(alloc: Global) -> Result<([i64; 7], u32), AllocError> {
    let mut draws = NUMBER;
    let drawn = drawn_sections(alloc, &mut draws)?;
    let mut numerators = [0; 7];
    for i in 0..7 {
        if i < drawn.len() {
            numerators[i] = drawn[i].num();
        }
    }
    Ok((numerators, draws.state))
}

#[test]
fn sections_are_drawn_in_order(rt: HostRuntime) -> Result<(), Fail> {
    let wanted = [171, -140, 292, 1, -120, -96, -124];
    assert!(rt; sections(rt.alloc())? == (wanted, 3055474921));
    Ok(())
}

// The input itself.
fn straight(alloc: Global) -> Result<Program, ProgramFault>
    ensures { IfOk result (HasPorts 16) }
{
    let mut program = Program::start(alloc, 32, &[16])?;
    let input = CodeTerm {
        coef: 1,
        from: Read::In(0),
        left: 0,
    };
    program.add_row(16, 0, Mode::Nearest, &[input])?;
    program.add_output(0)?;
    Ok(program)
}

// The least, the greatest and the sum of the words on five samples.
fn five_samples(alloc: Global) -> Option<(i64, i64, i128)> {
    let program = straight(alloc).ok()?;
    let summary = run_samples(alloc, &program, 5, NUMBER).ok()?;
    Some((summary.least, summary.greatest, summary.sum))
}

#[test]
fn samples_are_run(rt: HostRuntime) {
    assert!(rt; five_samples(rt.alloc()) == Some((-828, 489, -810)));
}
