//! Runs on samples.

ghost use Rattle.std.specs.Prelude.{◌≡◌, ◌≤◌, ◌++◌, ◌∷◌, [], List, ℤ, length, IfOk, unsigned_abs};
ghost use Rattle.fx_code.specs.Code.{Code};
ghost use Rattle.fx_code.specs.Inputs.{word_at};
ghost use Rattle.fx_code.specs.Run.{output_word};
ghost use Rattle.fx_machine.specs.Moments.{StandsAfter};
ghost use Rattle.fx_large.specs.Runs.{HasPorts, run_summary};

use crate::drawing::Draws;
use crate::limits::SAMPLES;
use crate::sections::next_sample;
use crate::summary::Summary;
use fx_code::{Program, outputs_are_output_words, words_read_no_later_inputs};
use fx_machine::Machine;
use std::alloc::{AllocError, Global};

// Runs one moment, and gives the word of the output.
fn feed(machine: &mut Machine<'_>, sample: i64) -> i64
    requires ports { HasPorts 16 machine.old.program }
    requires within { unsigned_abs sample ≤ 1000 }
    ensures program { machine.new.program ≡ machine.old.program }
    ensures stands { (p : Code) (list : List (List ℤ)) → StandsAfter machine.old p list →
        StandsAfter machine.new p (list ++ (sample ∷ []) ∷ []) }
    ensures word { (p : Code) (list : List (List ℤ)) → StandsAfter machine.old p list →
        result ≡ output_word p (word_at (list ++ (sample ∷ []) ∷ [])) (length list) 0 }
{
    outputs_are_output_words();
    let mut output = [0];
    machine.step(&[sample], &mut output);
    output[0]
}

/// The summary of the words that a program of one input of 16 bits and one output puts out, on so many samples that are
/// drawn: at least 1, at most `SAMPLES`. No list of samples or words is kept. Its error is want of memory.
#[tactic(auto, using(crate::proofs::RunsSoFar::ends))]
pub fn run_samples(
    alloc: Global,
    program: &Program,
    count: usize,
    draws: Draws,
) -> Result<Summary, AllocError>
    requires ports { HasPorts 16 program.now }
    requires low { 1 ≤ count }
    requires high { count ≤ SAMPLES }
    ensures { IfOk result (λ s. s ≡ run_summary program.now count draws.state) }
{
    words_read_no_later_inputs();
    let mut draws = draws;
    let mut machine = Machine::new(alloc, program)?;
    let mut summary = Summary::of(feed(&mut machine, next_sample(&mut draws)));
    for _ in 1..count {
        let word = feed(&mut machine, next_sample(&mut draws));
        summary.take(word);
    }
    Ok(summary)
}
