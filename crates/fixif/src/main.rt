//! The program: makes certified fixed-point code for linear filters, judges it, tells what its errors are made of, runs
//! it on samples, shows filter files, finds how far their outputs go, and runs the job of a number.
#![tactic(auto)]

ghost use Rattle.fx_words.specs.Command.{texts};
ghost use Rattle.fx_tool.specs.Running.{CanRead};
ghost use Rattle.fixif.specs.Ending.{EndsRun};

use fx_io::{DiskShelf, Shelf, Sink, StdoutSink};
use fx_tool::{NO_WORDS, Status, run};
use std::alloc::Global;
use std::env;
use std::io::ErrorKind;
use std::process::ExitCode;
use std::rt::Env;

/// Why the words of the command line cannot be had.
enum NoWords {
    Memory,
    Other,
}

impl NoWords {
    /// The number that the program ends with, as no command was run.
    fn number(self) -> u8 {
        match self {
            NoWords::Memory => Status::NoMemory.number(),
            NoWords::Other => NO_WORDS,
        }
    }
}

fn words<R: Env + AllocGlobal>(rt: &R, alloc: Global) -> Result<Vec<String>, NoWords> {
    let args = match env::args(rt) {
        Ok(args) => args,
        Err(error) if error.kind() == ErrorKind::OutOfMemory => return Err(NoWords::Memory),
        Err(_) => return Err(NoWords::Other),
    };
    let mut words = Vec::new(alloc);
    for word in args {
        if words.push(word).is_err() {
            return Err(NoWords::Memory);
        }
    }
    Ok(words)
}

/// Runs a command line, and ends with the number of its status.
fn end_of_run<S: Shelf, K: Sink>(
    alloc: Global,
    words: &[String],
    shelf: &mut S,
    out: &mut K,
) -> ExitCode
    requires { CanRead (S.seen shelf.old) (texts words.now) }
    ensures { EndsRun (texts words.now) (S.seen shelf.old) (S.seen shelf.new)
        (K.seen out.old) (K.seen out.new) result }
{
    let status = run(alloc, words, shelf, out);
    ExitCode::from(status.number())
}

fn main(rt: HostRuntime) -> ExitCode {
    let words = match words(&rt, rt.alloc()) {
        Ok(words) => words,
        Err(cause) => return ExitCode::from(cause.number()),
    };
    let mut shelf = DiskShelf::new(rt.alloc(), &rt);
    let mut out = StdoutSink::new(&rt);
    end_of_run(rt.alloc(), &words, &mut shelf, &mut out)
}
