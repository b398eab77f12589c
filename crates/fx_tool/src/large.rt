//! `large`.
ghost use Rattle.std.specs.Prelude.{◌≡◌, IfOk, IsTrue};
ghost use Rattle.std.specs.Str.Parse.{digits_value};
ghost use Rattle.fx_words.specs.Number.{is_number};
ghost use Rattle.fx_tool.specs.Answer.{WhereDone};
ghost use Rattle.fx_tool.specs.Large.{large_answer, NumberIsServed};

use crate::ending::Ending;
use crate::status::Status;
use fx_cert::certificates_fit;
use fx_code::programs_fit;
use fx_findings::{large_lines, no_design_lines};
use fx_large::{JobFault, large};
use fx_words::given_number;
use std::alloc::{AllocError, Global};

// Makes a program for the filter of a number, judges it, and runs it on the number's samples.
fn run_number(alloc: Global, number: u32) -> Result<Ending, AllocError>
    ensures answer { IfOk result (λ e. large_answer number ≡ e) }
    ensures served { WhereDone result (NumberIsServed number) }
{
    match large(alloc, number) {
        Ok(job) => {
            certificates_fit(&job.made.cert);
            programs_fit(&job.made.program);
            Ok(Ending::new(Status::Done, large_lines(alloc, number, &job)?))
        }
        Err(JobFault::NoDesign(fails)) => {
            Ok(Ending::new(Status::NoDesign, no_design_lines(alloc, fails.list())?))
        }
        Err(JobFault::NoMemory) => Err(AllocError),
    }
}

/// Makes a program for the filter of the number that this word writes, judges it, and runs it on the number's samples.
/// Its error is want of memory.
pub fn run_large(alloc: Global, word: &str) -> Result<Ending, AllocError>
    requires { IsTrue (is_number word.now) }
    ensures answer { IfOk result (λ e. large_answer (digits_value 10 word.now) ≡ e) }
    ensures served { WhereDone result (NumberIsServed (digits_value 10 word.now)) }
{
    run_number(alloc, given_number(word))
}
