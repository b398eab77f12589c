//! Times calls of the library by the clock. With no words it does nothing.
#![tactic(auto)]

mod checksum;
mod decimal;
mod machine;
mod per_call;
mod recipe;
mod sweep;
mod words;

use std::alloc::Global;
use std::process::ExitCode;
use std::rt::Env;
use std::{env, io};
use words::{Asked, Bench};

fn given<R: Env + AllocGlobal>(rt: &R, alloc: Global) -> io::Result<Vec<String>> {
    let mut words = Vec::new(alloc);
    for word in env::args(rt)? {
        words.push(word)?;
    }
    Ok(words)
}

fn main(rt: HostRuntime) -> io::Result<ExitCode> {
    let words = given(&rt, rt.alloc())?;
    match words::request(&words) {
        Asked::Nothing => Ok(ExitCode::SUCCESS),
        Asked::Rounds(Bench::Decimal, rounds) => {
            decimal::bench(&rt, rounds)?;
            Ok(ExitCode::SUCCESS)
        }
        Asked::Rounds(Bench::Machine, moments) => {
            machine::bench(&rt, rt.alloc(), moments)?;
            Ok(ExitCode::SUCCESS)
        }
        Asked::Sweep(recipe) => {
            sweep::bench(&rt, rt.alloc(), recipe)?;
            Ok(ExitCode::SUCCESS)
        }
        Asked::Unknown => {
            eprintln!(rt;
                "usage: fx_bench [decimal ROUNDS | machine MOMENTS | sweep ROWS NOW OLD PLACES MOMENTS]"
            )?;
            Ok(ExitCode::from(2))
        }
    }
}
