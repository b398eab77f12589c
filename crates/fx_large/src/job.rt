//! What is made of sections, and its run on samples.

ghost use Rattle.std.specs.Prelude.{◌≡◌, IfOk};
ghost use Rattle.fx_block.specs.Passes.{Passes};
ghost use Rattle.fx_code.specs.Code.{IsWhole};
ghost use Rattle.fx_files.specs.Plan.{PlanFits, SectionsFit};
ghost use Rattle.fx_large.specs.Job.{
  HasStructure,
  IsJob,
  IsMade,
  four,
  job_filter,
  job_plan,
  job_summary,
};
ghost use Rattle.fx_large.specs.Runs.{HasPorts};
ghost use Rattle.fx_large.specs.Sections.{samples_state, sections_of};
ghost use Rattle.fx_large.specs.declared.job.JobFault.TheVariants.{NoMemory};

use crate::drawing::Draws;
use crate::limits::SAMPLES;
use crate::running::run_samples;
use crate::sections::drawn_sections;
use crate::summary::Summary;
use fx_block::{inequalities_make_sound, none_fails_where_all_hold};
use fx_check::{Verdict, judge};
use fx_code::Program;
use fx_files::{Filter, InputFormat, Plan, Structure};
use fx_make::{Fails, Made, MakeFault, make};
use fx_nums::{Den, Frac};
use std::alloc::{AllocError, AllocFailed, Global};

/// What was made of sections, and the summary of its run.
#[derive(Drop)]
pub struct Job {
    /// A program and its certificate, and the candidate that they are of.
    pub made: Made,
    /// Of the words that the program puts out on the samples.
    pub summary: Summary,
}

/// Why there is no run.
#[derive(Drop)]
pub enum JobFault {
    /// Each candidate fails.
    NoDesign(Fails),
    /// Memory was refused.
    NoMemory,
}

impl From<AllocError> for JobFault {
    ghost from_gives = { λ _ e. e ≡ NoMemory };

    fn from(_e: AllocError) -> JobFault {
        JobFault::NoMemory
    }
}

// The error that is allowed: 4 steps.
fn four() -> Frac
    ensures { result ≡ four }
{
    match Frac::new(4, Den::Ten(0)) {
        Some(error) => error,
        None => unreachable!(),
    }
}

// The formats, and the one candidate.
fn job_plan() -> Plan
    ensures value { result ≡ job_plan }
    ensures fits { PlanFits result }
{
    Plan {
        structure: Structure::Df2t,
        input_low: 0,
        input: InputFormat {
            width: 16,
            bound: 1000,
        },
        width: 32,
        low: 0,
        error: four(),
        accumulator: 64,
        word: 32,
        guard: 8,
        fraction: 24,
        length: 256,
    }
}

// The filter of these sections.
fn job_filter(alloc: Global, sections: &[Frac]) -> Result<Filter, AllocError>
    requires { SectionsFit sections.now }
    ensures value { IfOk result (λ f. f ≡ job_filter sections.now) }
    ensures structure { IfOk result HasStructure }
{
    Filter::of_sections(alloc, sections, job_plan())
}

// What is made for a filter whose structure is there.
#[tactic(auto, unfolding(crate::specs::Job::HasStructure))]
fn made_for(alloc: Global, filter: &Filter) -> Result<Made, JobFault>
    requires { HasStructure filter.now }
    ensures { IsMade filter.now result }
{
    match make(alloc, filter) {
        Ok(made) => {
            inequalities_make_sound(filter, &made.program, &made.cert);
            Ok(made)
        }
        Err(MakeFault::Unbuildable(_)) => unreachable!(),
        Err(MakeFault::NoDesign(fails)) => Err(JobFault::NoDesign(fails)),
        Err(MakeFault::NoMemory) => Err(JobFault::NoMemory),
    }
}

// Judges what was made: it is accepted.
fn accept(alloc: Global, filter: &Filter, made: &Made) -> Result<(), AllocError>
    requires whole { IsWhole made.now.program }
    requires passes { Passes filter.now made.now.program made.now.cert }
{
    none_fails_where_all_hold();
    match judge(alloc, filter, &made.program, &made.cert)? {
        Verdict::Accepted => Ok(()),
        Verdict::Refused { .. } => unreachable!(),
    }
}

// Runs it on the samples.
#[tactic(auto, unfolding(crate::specs::Job::job_summary))]
fn run_on_samples(alloc: Global, program: &Program, samples: Draws) -> Result<Summary, AllocError>
    requires { HasPorts 16 program.now }
    ensures { IfOk result (λ s. s ≡ job_summary program.now samples.state) }
{
    run_samples(alloc, program, SAMPLES, samples)
}

/// Makes a program for the filter of these sections, judges it, and runs it on the samples that these draws give: the
/// program of the first candidate that passes, and the summary of its words. The filter has form `sos`, structure
/// `df2t`, an input of 16 bits and bound 1000, an output of 32 bits and error 4, and one candidate.
///
/// # Errors
///
/// `NoDesign` exactly where each candidate fails, with each failure; `NoMemory` may come at any time.
pub fn run_sections(alloc: Global, sections: &[Frac], samples: Draws) -> Result<Job, JobFault>
    requires { SectionsFit sections.now }
    ensures { IsJob sections.now samples.state result }
{
    let filter = job_filter(alloc, sections)?;
    let made = made_for(alloc, &filter)?;
    accept(alloc, &filter, &made)?;
    let summary = run_on_samples(alloc, &made.program, samples)?;
    Ok(Job { made, summary })
}

/// The same of a number: its eight sections are drawn first, and then the samples.
pub fn large(alloc: Global, number: u32) -> Result<Job, JobFault>
    ensures { IsJob (sections_of number) (samples_state number) result }
{
    let mut draws = Draws { state: number };
    let sections = drawn_sections(alloc, &mut draws)?;
    run_sections(alloc, &sections, draws)
}
