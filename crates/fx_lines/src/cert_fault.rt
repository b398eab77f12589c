// The line of a refused certificate.

ghost use Rattle.std.specs.Prelude.{◌≡◌, ◌++◌, codes, IfOk};
ghost use Rattle.std.specs.Fmt.{decimal};
ghost use Rattle.fx_cert.specs.declared.fault.CertFault.TheVariants.{Count};
ghost use Rattle.fx_lines.specs.CertFault.{cert_fault_line};
ghost use Rattle.fx_lines.specs.Laws.{CertFaultLine};

use crate::pieces::{put_field, put_word};
use fx_cert::CertFault;
use std::alloc::{AllocError, Global};

// What went wrong, and the number of the line.
fn at_line(alloc: Global, what: &str, line: u32) -> Result<Vec<u8>, AllocError>
    ensures { IfOk result (λ t. t.items ≡ what.now ++ decimal line ++ codes "\n") }
{
    let mut text = Vec::new(alloc);
    put_field(&mut text, what, line)?;
    put_word(&mut text, "\n")?;
    Ok(text)
}

// A line, the count of lines that are there, and the one that is wanted.
fn count(alloc: Global, line: u32, got: u32, wanted: u32) -> Result<Vec<u8>, AllocError>
    ensures { IfOk result (λ t. t.items ≡ cert_fault_line (Count line got wanted)) }
{
    let mut text = Vec::new(alloc);
    put_field(&mut text, "bad certificate count ", line)?;
    put_field(&mut text, " ", got)?;
    put_field(&mut text, " ", wanted)?;
    put_word(&mut text, "\n")?;
    Ok(text)
}

/// The line of a refused certificate. Want of memory has none: its text is empty.
pub fn cert_fault_line(alloc: Global, fault: &CertFault) -> Result<Vec<u8>, AllocError>
    ensures { IfOk result (λ t. t.items ≡ cert_fault_line fault.now) }
{
    match *fault {
        CertFault::Version => Vec::from_slice(alloc, b"bad certificate version\n"),
        CertFault::Line(line) => at_line(alloc, "bad certificate line ", line),
        CertFault::Number(line) => at_line(alloc, "bad certificate number ", line),
        CertFault::Count(line, got, wanted) => count(alloc, line, got, wanted),
        CertFault::AfterEnd => Vec::from_slice(alloc, b"bad certificate after end\n"),
        CertFault::NoMemory => Ok(Vec::new(alloc)),
    }
}

/// A law with nothing to run: whatever is wrong in a certificate, one line tells it, with no control byte before its
/// line feed.
pub fn cert_faults_are_one_line()
    ensures { CertFaultLine }
{}
