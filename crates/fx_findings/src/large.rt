//! The lines of a job that is drawn from a number.

ghost use Rattle.std.specs.Prelude.{◌≡◌, ◌++◌, IfOk, OnOk};
ghost use Rattle.fx_findings.specs.Large.{large_lines, summary_line, words_part};
ghost use Rattle.fx_findings.specs.Laws.{LargeLines};

use crate::design::put_design;
use fx_large::{Job, SAMPLES, Summary};
use fx_lines::{put_field, put_word};
use std::alloc::{AllocError, Global};

// What the words of a program are.
fn put_words(text: &mut Vec<u8>, summary: &Summary) -> Result<(), AllocError>
    ensures { OnOk result (text.new.items ≡ text.old.items ++ words_part summary.now) }
{
    put_field(text, " least ", summary.least)?;
    put_field(text, " greatest ", summary.greatest)?;
    put_field(text, " sum ", summary.sum)
}

// How many samples it was run on, and what its words are.
#[tactic(auto, using(crate::proofs::Joined::regrouped))]
fn put_summary(text: &mut Vec<u8>, samples: usize, summary: &Summary) -> Result<(), AllocError>
    ensures { OnOk result (text.new.items ≡ text.old.items ++ summary_line samples summary.now) }
{
    put_field(text, "samples ", samples)?;
    put_words(text, summary)?;
    put_word(text, "\n")
}

/// The lines of a job: its number, the design that was made with its certificate's error of each output, in output
/// steps with nine places, rounded up in the last, and the least, the greatest and the sum of the program's words.
pub fn large_lines(alloc: Global, number: u32, job: &Job) -> Result<Vec<u8>, AllocError>
    ensures { IfOk result (λ t. t.items ≡ large_lines number job.now.made.guard job.now.made.fraction
        job.now.made.length job.now.made.cert.errors job.now.summary) }
{
    let made = &job.made;
    let mut text = Vec::new(alloc);
    put_field(&mut text, "large ", number)?;
    put_word(&mut text, "\n")?;
    put_design(
        &mut text,
        made.guard,
        made.fraction,
        made.length,
        &made.cert,
    )?;
    put_summary(&mut text, SAMPLES, &job.summary)?;
    Ok(text)
}

/// A law with nothing to run: a job is told in three lines and one more for each output, with no control byte before a
/// line feed.
pub fn jobs_are_lines()
    ensures { LargeLines }
{}
