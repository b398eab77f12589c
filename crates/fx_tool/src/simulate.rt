//! `simulate`.
ghost use Rattle.std.specs.Prelude.{◌≡◌, ◌≢◌, ◌∷◌, [], Ok, IfOk, IsTrue};
ghost use Rattle.fx_code.specs.Code.{IsWhole};
ghost use Rattle.fx_lines.specs.SampleFault.{sample_fault_line};
ghost use Rattle.fx_sim.specs.Simulation.{simulation};
ghost use Rattle.fx_sim.specs.declared.fault.SampleFault.TheVariants as samples;
ghost use Rattle.fx_text.specs.Reading.{code_in};
ghost use Rattle.fx_tool.specs.Answer.{says};
ghost use Rattle.fx_tool.specs.Plan.{Follows};
ghost use Rattle.fx_tool.specs.Simulate.{outputs, samples_plan, simulate_plan};
ghost use Rattle.fx_words.specs.declared.operand.Operand.TheVariants.{Code, Samples};

use crate::ending::Ending;
use crate::operand::{read_operand, too_long};
use crate::refused::refused_code;
use crate::status::Status;
use fx_code::Program;
use fx_io::{IoFault, Shelf};
use fx_lines::sample_fault_line;
use fx_sim::{SampleFault, simulate as run_on};
use fx_text::read_code;
use fx_words::Operand;
use std::alloc::{AllocError, Global};

// Refused samples end the run with their line.
fn refused_samples(alloc: Global, fault: &SampleFault) -> Result<Ending, AllocError>
    ensures answer { IfOk result (λ e. e ≡ says Status.BadSamples (sample_fault_line fault.now)) }
    ensures fault { IfOk result (λ e. fault.now ≢ samples.NoMemory) }
{
    if let SampleFault::NoMemory = fault {
        return Err(AllocError);
    }
    Ok(Ending::new(Status::BadSamples, sample_fault_line(alloc, fault)?))
}

// How a program's run on samples ends: its outputs are put, or the samples' first fault is told.
fn ran(alloc: Global, program: &Program, samples: &[u8]) -> Result<Ending, AllocError>
    requires { IsWhole program.now }
    ensures { IfOk result (λ e. outputs (simulation program.now samples.now) ≡ e) }
{
    match run_on(alloc, program, samples) {
        Ok(text) => Ok(Ending::new(Status::Done, text)),
        Err(fault) => refused_samples(alloc, &fault),
    }
}

// Reads samples, and runs a program on them.
fn with_samples<S: Shelf>(
    alloc: Global,
    program: &Program,
    samples: &str,
    shelf: &mut S,
) -> Result<Ending, IoFault>
    requires whole { IsWhole program.now }
    requires readable { IsTrue ((S.seen shelf.old).readable samples.now) }
    ensures { Follows (Samples ∷ []) (samples.now ∷ []) (samples_plan (Ok program.now))
        (S.seen shelf.old) (S.seen shelf.new) result }
{
    match read_operand(alloc, Operand::Samples, samples, shelf)? {
        Some(bytes) => Ok(ran(alloc, program, &bytes)?),
        None => too_long(alloc, Operand::Samples),
    }
}

// Goes on with the bytes of a program, or refuses them.
fn with_code<S: Shelf>(
    alloc: Global,
    bytes: &[u8],
    samples: &str,
    shelf: &mut S,
) -> Result<Ending, IoFault>
    requires { IsTrue ((S.seen shelf.old).readable samples.now) }
    ensures { Follows (Samples ∷ []) (samples.now ∷ []) (samples_plan (code_in bytes.now))
        (S.seen shelf.old) (S.seen shelf.new) result }
{
    match read_code(alloc, bytes) {
        Ok(program) => with_samples(alloc, &program, samples, shelf),
        Err(fault) => Ok(refused_code(alloc, &fault)?),
    }
}

/// Reads a program, then samples, and runs the program on them.
///
/// # Errors
///
/// `Failed` just where the shelf's count of read faults rose.
pub fn simulate<S: Shelf>(
    alloc: Global,
    code: &str,
    samples: &str,
    shelf: &mut S,
) -> Result<Ending, IoFault>
    requires code { IsTrue ((S.seen shelf.old).readable code.now) }
    requires samples { IsTrue ((S.seen shelf.old).readable samples.now) }
    ensures { Follows (Code ∷ Samples ∷ []) (code.now ∷ samples.now ∷ []) simulate_plan
        (S.seen shelf.old) (S.seen shelf.new) result }
{
    match read_operand(alloc, Operand::Code, code, shelf)? {
        Some(bytes) => with_code(alloc, &bytes, samples, shelf),
        None => too_long(alloc, Operand::Code),
    }
}
