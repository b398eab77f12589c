//! Steps of machines, run on drawn words.

ghost use Rattle.std.specs.Prelude.{◌≡◌, ◌<◌, ℤ, List, [], ◌∷◌, ◌++◌, length, IfOk};
ghost use Rattle.fx_code.specs.Code.{Code};
ghost use Rattle.fx_machine.specs.Moments.{StandsAfter};
ghost use Rattle.fx_bench.specs.Runs.{drawn, low_bits, next_seed, put_word, words_sum};

use crate::checksum::mixed;
use crate::per_call::PerCall;
use fx_code::{CodeTerm, Program, ProgramFault, Read};
use fx_eqs::Mode;
use fx_machine::{Machine, Marks};
use std::alloc::{AllocError, Global};
use std::io;
use std::rt::Clock;
use std::time::Instant;

// What a run left: a checksum of the words that were put out, and one of the marks.
#[derive(Clone, Copy)]
struct Sums {
    words: u64,
    marks: u64,
}

fn term(coef: i64, from: Read, left: u8) -> CodeTerm {
    CodeTerm { coef, from, left }
}

// A second-order section of ten terms, over accumulators of so many bits.
fn second_order(alloc: Global, accumulator: u8) -> Result<Program, ProgramFault>
    ensures input { IfOk result (λ p. p.inputs ≡ 16 ∷ []) }
    ensures output { IfOk result (λ p. length p.outputs ≡ 1) }
{
    let mut program = Program::start(alloc, accumulator, &[16])?;
    let terms = [
        term(21059, Read::Old(1), 1),
        term(21059, Read::Old(2), 0),
        term(818423, Read::Old(3), 1),
        term(-336253, Read::Old(4), 1),
        term(21059, Read::In(0), 4),
    ];
    program.add_row(20, 20, Mode::Nearest, &terms)?;
    program.add_row(20, 0, Mode::Nearest, &[term(1, Read::In(0), 4)])?;
    program.add_row(20, 0, Mode::Nearest, &[term(1, Read::Old(1), 0)])?;
    program.add_row(20, 0, Mode::Nearest, &[term(1, Read::Now(0), 0)])?;
    program.add_row(20, 0, Mode::Nearest, &[term(1, Read::Old(3), 0)])?;
    program.add_row(16, 4, Mode::Nearest, &[term(1, Read::Now(0), 0)])?;
    program.add_output(5)?;
    Ok(program)
}

// A row that keeps the input, and one whose sums leave 16 bits and come back.
fn detour(alloc: Global) -> Result<Program, ProgramFault>
    ensures input { IfOk result (λ p. p.inputs ≡ 16 ∷ []) }
    ensures output { IfOk result (λ p. length p.outputs ≡ 1) }
{
    let mut program = Program::start(alloc, 16, &[16])?;
    program.add_row(16, 0, Mode::Nearest, &[term(1, Read::In(0), 0)])?;
    let terms = [term(200, Read::In(0), 0), term(-199, Read::Now(0), 0)];
    program.add_row(16, 0, Mode::Nearest, &terms)?;
    program.add_output(1)?;
    Ok(program)
}

// The generator's number behind this one.
fn next_seed(seed: u32) -> u32
    ensures { result ≡ next_seed seed }
{
    ((u64::from(seed) * 1664525 + 1013904223) % 4294967296) as u32
}

// The word that is drawn at a number of the generator.
fn drawn(seed: u32) -> i16
    ensures { result ≡ drawn seed }
{
    (seed / 65536 % 2001) as i16 - 1000
}

// The low 32 bits of a word.
fn low_bits(word: i64) -> u64
    ensures { result ≡ low_bits word }
{
    word.cast_unsigned() % 4294967296
}

// Runs one moment.
#[inline]
fn feed(machine: &mut Machine, sample: i16) -> (i64, Marks)
    requires input { machine.old.program.inputs ≡ 16 ∷ [] }
    requires output { length machine.old.program.outputs ≡ 1 }
    ensures program { machine.new.program ≡ machine.old.program }
    ensures stands { (p : Code) (list : List (List ℤ)) → StandsAfter machine.old p list →
        StandsAfter machine.new p (list ++ (sample ∷ []) ∷ []) }
    ensures word { (p : Code) (list : List (List ℤ)) → StandsAfter machine.old p list →
        result.0 ≡ put_word p (list ++ (sample ∷ []) ∷ []) (length list) }
{
    let mut output = [0];
    let marks = machine.step(&[i64::from(sample)], &mut output);
    (output[0], marks)
}

// Runs the first so many moments.
fn run(machine: &mut Machine, count: u32) -> Sums
    requires input { machine.old.program.inputs ≡ 16 ∷ [] }
    requires output { length machine.old.program.outputs ≡ 1 }
    requires new { StandsAfter machine.old machine.old.program [] }
    ensures { result.words ≡ words_sum machine.old.program count }
{
    let mut seed = 1;
    let mut sums = Sums { words: 0, marks: 0 };
    for _ in 0..count {
        seed = next_seed(seed);
        let (word, marks) = feed(machine, drawn(seed));
        sums.words = mixed(sums.words, low_bits(word));
        sums.marks = mixed(mixed(sums.marks, marks.partial), marks.lost);
    }
    sums
}

// Times a program from its first moment on.
fn time_steps<R: Print + Clock>(
    rt: &R,
    alloc: Global,
    name: &str,
    program: Result<Program, ProgramFault>,
    count: u32,
) -> io::Result<()>
    requires input { IfOk program (λ p. p.inputs ≡ 16 ∷ []) }
    requires output { IfOk program (λ p. length p.outputs ≡ 1) }
    requires count { 0 < count }
{
    let Ok(program) = program else {
        return Err(AllocError.into());
    };
    let mut machine = Machine::new(alloc, &program)?;
    let start = Instant::now(rt)?;
    let sums = run(&mut machine, count);
    let time = start.elapsed(rt)?;
    let per_call = PerCall::new(time, u64::from(count));
    println!(rt;
        "step {name} {per_call} words {} marks {}",
        sums.words, sums.marks
    )
}

/// Times `Machine::step`, over this many moments of each of a few programs, and prints nanoseconds a step, and
/// checksums of the words and of the marks.
pub fn bench<R: Print + Clock>(rt: &R, alloc: Global, count: u32) -> io::Result<()>
    requires { 0 < count }
{
    time_steps(rt, alloc, "second_order_64", second_order(alloc, 64), count)?;
    time_steps(rt, alloc, "second_order_32", second_order(alloc, 32), count)?;
    time_steps(rt, alloc, "detour_16", detour(alloc), count)
}
