// The line of refused code.

ghost use Rattle.std.specs.Prelude.{◌≡◌, ◌++◌, codes, IfOk};
ghost use Rattle.fx_text.specs.declared.fault.CodeFault.TheVariants.{Limit, Rounding};
ghost use Rattle.fx_lines.specs.CodeFault.{code_fault_line, limit_name};
ghost use Rattle.fx_lines.specs.Laws.{CodeFaultLine};

use crate::pieces::{put_field, put_word};
use fx_code::LimitOf;
use fx_text::CodeFault;
use itoa::Integer;
use std::alloc::{AllocError, Global};

// What went wrong, and where.
fn placed<I: Integer>(alloc: Global, what: &str, place: I) -> Result<Vec<u8>, AllocError>
    ensures { IfOk result (λ t. t.items ≡ what.now ++ I.text place ++ codes "\n") }
{
    let mut text = Vec::new(alloc);
    put_field(&mut text, what, place)?;
    put_word(&mut text, "\n")?;
    Ok(text)
}

// A row, the constant that it has, and the one that its shift demands.
fn rounding(alloc: Global, row: u8, got: i64, wanted: i64) -> Result<Vec<u8>, AllocError>
    ensures { IfOk result (λ t. t.items ≡ code_fault_line (Rounding row got wanted)) }
{
    let mut text = Vec::new(alloc);
    put_field(&mut text, "bad code rounding ", row)?;
    put_field(&mut text, " ", got)?;
    put_field(&mut text, " ", wanted)?;
    put_word(&mut text, "\n")?;
    Ok(text)
}

fn limit_name(which: LimitOf) -> &'static str
    ensures { result.now ≡ limit_name which }
{
    match which {
        LimitOf::Accumulator => "accumulator",
        LimitOf::Inputs => "inputs",
        LimitOf::Rows => "rows",
        LimitOf::Outputs => "outputs",
        LimitOf::InputWidth => "inputwidth",
        LimitOf::Width => "width",
        LimitOf::Shift => "shift",
        LimitOf::Left => "left",
        LimitOf::Coefficient => "coefficient",
        LimitOf::Product => "product",
        LimitOf::Terms => "terms",
        LimitOf::OutputRow => "outputrow",
    }
}

// A limit, and the number that passes it.
fn limit(alloc: Global, which: LimitOf, got: i128) -> Result<Vec<u8>, AllocError>
    ensures { IfOk result (λ t. t.items ≡ code_fault_line (Limit which got)) }
{
    let mut text = Vec::from_slice(alloc, b"bad code limit ")?;
    put_word(&mut text, limit_name(which))?;
    put_field(&mut text, " ", got)?;
    put_word(&mut text, "\n")?;
    Ok(text)
}

/// The line of refused code. Want of memory has none: its text is empty.
pub fn code_fault_line(alloc: Global, fault: &CodeFault) -> Result<Vec<u8>, AllocError>
    ensures { IfOk result (λ t. t.items ≡ code_fault_line fault.now) }
{
    match *fault {
        CodeFault::Token(at) => placed(alloc, "bad code token ", at),
        CodeFault::Unexpected(at) => placed(alloc, "bad code unexpected ", at),
        CodeFault::Name(at) => placed(alloc, "bad code name ", at),
        CodeFault::Order(row) => placed(alloc, "bad code order ", row),
        CodeFault::Number(at) => placed(alloc, "bad code number ", at),
        CodeFault::Rounding(row, got, wanted) => rounding(alloc, row, got, wanted),
        CodeFault::Limit(which, got) => limit(alloc, which, got),
        CodeFault::Twice(row) => placed(alloc, "bad code twice ", row),
        CodeFault::NoMemory => Ok(Vec::new(alloc)),
    }
}

/// A law with nothing to run: whatever is wrong in code, one line tells it, with no control byte before its line feed.
pub fn code_faults_are_one_line()
    ensures { CodeFaultLine }
{}
