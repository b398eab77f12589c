// The line of refused samples.

ghost use Rattle.std.specs.Prelude.{◌≡◌, IfOk};
ghost use Rattle.fx_sim.specs.declared.fault.SampleFault.TheVariants.{Columns, Field, OutOfWord};
ghost use Rattle.fx_lines.specs.SampleFault.{sample_fault_line};
ghost use Rattle.fx_lines.specs.Laws.{SampleFaultLine};

use crate::pieces::{put_field, put_word};
use fx_sim::SampleFault;
use std::alloc::{AllocError, Global};

// The count of a record's fields, and the count of inputs.
fn columns(alloc: Global, moment: u64, got: usize, wanted: usize) -> Result<Vec<u8>, AllocError>
    ensures { IfOk result (λ t. t.items ≡ sample_fault_line (Columns moment got wanted)) }
{
    let mut text = Vec::new(alloc);
    put_field(&mut text, "bad samples columns ", moment)?;
    put_field(&mut text, " ", got)?;
    put_field(&mut text, " ", wanted)?;
    put_word(&mut text, "\n")?;
    Ok(text)
}

// A field that is no whole number.
fn field(alloc: Global, moment: u64, column: usize) -> Result<Vec<u8>, AllocError>
    ensures { IfOk result (λ t. t.items ≡ sample_fault_line (Field moment column)) }
{
    let mut text = Vec::new(alloc);
    put_field(&mut text, "bad samples field ", moment)?;
    put_field(&mut text, " ", column)?;
    put_word(&mut text, "\n")?;
    Ok(text)
}

// A number that is outside the input's width.
fn out_of_word(alloc: Global, moment: u64, column: usize, value: i64) -> Result<Vec<u8>, AllocError>
    ensures { IfOk result (λ t. t.items ≡ sample_fault_line (OutOfWord moment column value)) }
{
    let mut text = Vec::new(alloc);
    put_field(&mut text, "bad samples out of word ", moment)?;
    put_field(&mut text, " ", column)?;
    put_field(&mut text, " ", value)?;
    put_word(&mut text, "\n")?;
    Ok(text)
}

/// The line of refused samples. Want of memory has none: its text is empty.
pub fn sample_fault_line(alloc: Global, fault: &SampleFault) -> Result<Vec<u8>, AllocError>
    ensures { IfOk result (λ t. t.items ≡ sample_fault_line fault.now) }
{
    match *fault {
        SampleFault::Columns(moment, got, wanted) => columns(alloc, moment, got, wanted),
        SampleFault::Field(moment, column) => field(alloc, moment, column),
        SampleFault::OutOfWord(moment, column, value) => out_of_word(alloc, moment, column, value),
        SampleFault::NoMemory => Ok(Vec::new(alloc)),
    }
}

/// A law with nothing to run: whatever is wrong in samples, one line tells it, with no control byte before its line
/// feed.
pub fn sample_faults_are_one_line()
    ensures { SampleFaultLine }
{}
