//! Machines: the words and the marks of small programs, moment by moment.
ghost use Rattle.std.specs.Prelude.{◌≡◌, [], ◌∷◌, length, IfOk};

use crate::programs::{add, term};
use fx_code::{CodeTerm, Program, ProgramFault, Read};
use fx_eqs::Mode;
use fx_machine::Machine;
use std::alloc::{AllocError, Global};

// A row by its width, its shift, how it drops places, and its terms.
type Row<'a> = (u8, u8, Mode, &'a [CodeTerm]);

// A program of these rows, which puts out the last.
fn program_of(alloc: Global, accumulator: u8, rows: &[Row<'_>]) -> Result<Program, ProgramFault>
    ensures input { IfOk result (λ p. p.inputs ≡ 16 ∷ []) }
    ensures output { IfOk result (λ p. length p.outputs ≡ 1) }
{
    let mut program = Program::start(alloc, accumulator, &[16])?;
    for row in rows {
        let (width, shift, mode, terms) = *row;
        add(&mut program, width, shift, mode, terms)?;
    }
    let last = (program.rows() as u8).saturating_sub(1);
    program.add_output(last)?;
    Ok(program)
}

// A word that is put out, and the marks of its moment.
type Told = (i64, u64, u64);

// Runs one moment of a program with one input and one output.
fn feed(machine: &mut Machine, sample: i16) -> Told
    requires input { machine.old.program.inputs ≡ 16 ∷ [] }
    requires output { length machine.old.program.outputs ≡ 1 }
    ensures { machine.new.program ≡ machine.old.program }
{
    let mut output = [0];
    let marks = machine.step(&[i64::from(sample)], &mut output);
    (output[0], marks.partial, marks.lost)
}

// What a program puts out and marks for these samples.
fn told(alloc: Global, program: &Program, samples: [i16; 5]) -> Result<[Told; 5], AllocError>
    requires input { program.now.inputs ≡ 16 ∷ [] }
    requires output { length program.now.outputs ≡ 1 }
{
    let mut machine = Machine::new(alloc, program)?;
    let mut all = [(0, 0, 0); 5];
    for i in 0..5 {
        all[i] = feed(&mut machine, samples[i]);
    }
    Ok(all)
}

// The same of a program of these rows.
fn run(alloc: Global, accumulator: u8, rows: &[Row<'_>], samples: [i16; 5]) -> Option<[Told; 5]> {
    let program = program_of(alloc, accumulator, rows).ok()?;
    told(alloc, &program, samples).ok()
}

// The words alone, where nothing is marked.
fn words(told: Option<[Told; 5]>) -> Option<[i64; 5]> {
    let mut words = [0; 5];
    for (word, (put, partial, lost)) in words.iter_mut().zip(told?) {
        if partial != 0 || lost != 0 {
            return None;
        }
        *word = put;
    }
    Some(words)
}

// Half of the word before and of twice the input.
fn recursive(alloc: Global, mode: Mode, samples: [i16; 5]) -> Option<[i64; 5]> {
    let input = CodeTerm {
        coef: 1,
        from: Read::In(0),
        left: 1,
    };
    let terms = [term(1, Read::Old(0)), input];
    words(run(alloc, 32, &[(16, 1, mode, terms.as_slice())], samples))
}

#[test]
fn a_recursive_row(rt: HostRuntime) {
    let alloc = rt.alloc();
    assert!(rt; recursive(alloc, Mode::Nearest, [100, 0, 0, 0, 0]) == Some([100, 50, 25, 13, 7]));
    assert!(rt; recursive(alloc, Mode::Nearest, [-1, 0, 0, 0, 0]) == Some([-1, 0, 0, 0, 0]));
    assert!(rt; recursive(alloc, Mode::Floor, [100, 0, 0, 0, 0]) == Some([100, 50, 25, 12, 6]));
    assert!(rt; recursive(alloc, Mode::Floor, [-1, 0, 0, 0, 0]) == Some([-1; 5]));
    assert!(rt;
        recursive(alloc, Mode::Nearest, [-32768, 0, 0, 0, 0])
            == Some([-32768, -16384, -8192, -4096, -2048])
    );
}

// The mean of the last four inputs.
fn mean(alloc: Global, samples: [i16; 5]) -> Option<[i64; 5]> {
    let (now, first, second) = (
        [term(1, Read::In(0))],
        [term(1, Read::Old(0))],
        [term(1, Read::Old(1))],
    );
    let sum = [
        term(1, Read::In(0)),
        term(1, Read::Old(0)),
        term(1, Read::Old(1)),
        term(1, Read::Old(2)),
    ];
    let rows = [
        (16, 0, Mode::Nearest, now.as_slice()),
        (16, 0, Mode::Nearest, first.as_slice()),
        (16, 0, Mode::Nearest, second.as_slice()),
        (16, 2, Mode::Nearest, sum.as_slice()),
    ];
    words(run(alloc, 32, &rows, samples))
}

#[test]
fn the_mean_of_four_inputs(rt: HostRuntime) {
    assert!(rt; mean(rt.alloc(), [100, 0, 0, 0, 0]) == Some([25, 25, 25, 25, 0]));
}

// Two hundred times the input, less 199 times, over accumulators of 16 bits, which are left on the way.
fn detour(alloc: Global, sample: i16) -> Option<Told> {
    let kept = [term(1, Read::In(0))];
    let terms = [term(200, Read::In(0)), term(-199, Read::Now(0))];
    let rows = [
        (16, 0, Mode::Nearest, kept.as_slice()),
        (16, 0, Mode::Nearest, terms.as_slice()),
    ];
    let [first, ..] = run(alloc, 16, &rows, [sample, 0, 0, 0, 0])?;
    Some(first)
}

// The low 8 bits of the input.
fn narrow(alloc: Global, sample: i16) -> Option<Told> {
    let kept = [term(1, Read::In(0))];
    let [first, ..] = run(
        alloc,
        32,
        &[(8, 0, Mode::Nearest, kept.as_slice())],
        [sample, 0, 0, 0, 0],
    )?;
    Some(first)
}

#[test]
fn marks_tell_what_is_lost(rt: HostRuntime) {
    assert!(rt; detour(rt.alloc(), 1000) == Some((1000, 2, 0)));
    assert!(rt; narrow(rt.alloc(), 200) == Some((-56, 0, 1)));
    assert!(rt; narrow(rt.alloc(), -128) == Some((-128, 0, 0)));
}
