// The line of a filter that cannot have the structure that it asks for.

ghost use Rattle.std.specs.Prelude.{◌≡◌, ◌++◌, codes, IfOk};
ghost use Rattle.fx_make.specs.declared.refusal.StructureFault.TheVariants.{NotBelowOne, NotListed, Order};
ghost use Rattle.fx_findings.specs.Structures.{structure_fault_line};
ghost use Rattle.fx_findings.specs.Laws.{StructureFaultLine};

use fx_files::{Form, Structure};
use fx_lines::{put_compared, put_field, put_word};
use fx_make::StructureFault;
use fx_nums::Iv;
use itoa::Integer;
use std::alloc::{AllocError, Global};

// A form that has no such structure.
fn not_listed(alloc: Global, form: Form, structure: Structure) -> Result<Vec<u8>, AllocError>
    ensures { IfOk result (λ t. t.items ≡ structure_fault_line (NotListed form structure)) }
{
    let mut text = Vec::from_slice(alloc, b"unbuildable not listed ")?;
    put_word(&mut text, form.word())?;
    put_word(&mut text, " ")?;
    put_word(&mut text, structure.word())?;
    put_word(&mut text, "\n")?;
    Ok(text)
}

// What is wrong, and a number.
fn numbered<I: Integer>(alloc: Global, what: &str, number: I) -> Result<Vec<u8>, AllocError>
    ensures { IfOk result (λ t. t.items ≡ what.now ++ I.text number ++ codes "\n") }
{
    let mut text = Vec::new(alloc);
    put_field(&mut text, what, number)?;
    put_word(&mut text, "\n")?;
    Ok(text)
}

// An order, and the greatest one of a lattice.
fn order(alloc: Global, order: usize, greatest: usize) -> Result<Vec<u8>, AllocError>
    ensures { IfOk result (λ t. t.items ≡ structure_fault_line (Order order greatest)) }
{
    let mut text = Vec::new(alloc);
    put_field(&mut text, "unbuildable order ", order)?;
    put_field(&mut text, " ", greatest)?;
    put_word(&mut text, "\n")?;
    Ok(text)
}

// A step, and the enclosure of its reflection coefficient.
fn not_below_one(alloc: Global, step: u8, k: Iv) -> Result<Vec<u8>, AllocError>
    ensures { IfOk result (λ t. t.items ≡ structure_fault_line (NotBelowOne step k)) }
{
    let mut text = Vec::new(alloc);
    put_compared(
        &mut text,
        "unbuildable not below one ",
        step,
        k.lo(),
        k.hi(),
    )?;
    Ok(text)
}

/// The line of a filter that cannot have the structure that it asks for. Ends of an enclosure are whole numbers at the
/// scale 2^-64. Want of memory has none: its text is empty.
pub fn structure_fault_line(alloc: Global, fault: &StructureFault) -> Result<Vec<u8>, AllocError>
    ensures { IfOk result (λ t. t.items ≡ structure_fault_line fault.now) }
{
    match *fault {
        StructureFault::NotListed(form, structure) => not_listed(alloc, form, structure),
        StructureFault::NotFir(count) => numbered(alloc, "unbuildable not fir ", count),
        StructureFault::Order(got, greatest) => order(alloc, got, greatest),
        StructureFault::NotBelowOne(step, k) => not_below_one(alloc, step, k),
        StructureFault::Range(step) => numbered(alloc, "unbuildable range ", step),
        StructureFault::NoMemory => Ok(Vec::new(alloc)),
    }
}

/// A law with nothing to run: whatever is wrong with a structure, one line tells it, with no control byte before its
/// line feed.
pub fn structure_faults_are_one_line()
    ensures { StructureFaultLine }
{}
