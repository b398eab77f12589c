ghost use Rattle.std.specs.Prelude.{◌≡◌, List, [], ℤ, pos, length, replicate, IfOk};
ghost use Rattle.fx_code.specs.Code.{Code};
ghost use Rattle.fx_code.specs.Inputs.{IsMoment};
ghost use Rattle.fx_machine.specs.Moments.{GivesMoment, StandsAfter};

use crate::moment::{Marks, begin, put_out, run_rows};
use crate::places::WORD_COUNT;
use crate::prepared::{PreparedRow, prepared_rows};
use fx_code::{Program, programs_fit};
use std::alloc::{AllocError, Global};
use std::marker::Model;

/// Runs a program, moment by moment.
#[derive(Drop)]
pub struct Machine<'p> {
    program: &'p Program,
    rows: Vec<PreparedRow>,
    // The words of this moment's rows, from `FIRST_OLD` on those of the moment before, and from `FIRST_INPUT` on the
    // inputs.
    words: [i64; WORD_COUNT],
}

impl<'p> Model for Machine<'p> {
    ghost use Rattle.fx_machine.specs.Moments.{State};

    ghost Value = { State };

    ghost use Rattle.fx_machine.specs.Standing.{state_of, IsReady};

    ghost view = { state_of };

    ghost invariant = { IsReady };
}

impl<'p> Machine<'p> {
    /// A machine that has run nothing yet. Its error is want of memory.
    pub fn new(alloc: Global, program: &'p Program) -> Result<Machine<'p>, AllocError>
        ensures { IfOk result (λ m. StandsAfter m program.now []) }
    {
        programs_fit(program);
        let rows = prepared_rows(alloc, program)?;
        let words = no_words();
        Ok(Machine {
            program,
            rows,
            words,
        })
    }

    /// Runs one moment: takes a word of each input, and puts out a word for each output.
    /// Each input lies in its width, in two's complement.
    pub fn step(&mut self, input: &[i64], output: &mut [i64]) -> Marks
        requires input { IsMoment self.old.program input.now }
        requires output { length output.old ≡ length self.old.program.outputs }
        ensures program { self.new.program ≡ self.old.program }
        ensures moment { (p : Code) (list : List (List ℤ)) → StandsAfter self.old p list →
            GivesMoment self.new p list input.now output.new result }
    {
        let program = self.program;
        begin(&mut self.words, program.rows(), input);
        let marks = run_rows(program, &self.rows, &mut self.words);
        put_out(program.outputs(), &self.words, output);
        marks
    }
}

// No words yet: all are 0.
fn no_words() -> [i64; WORD_COUNT]
    ensures { result ≡ replicate WORD_COUNT (pos 0) }
{
    [0; WORD_COUNT]
}
