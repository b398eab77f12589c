//! The text of a certificate.

ghost use Rattle.std.specs.Prelude.{◌≡◌, ◌≤◌, ◌++◌, length, codes, IfOk, OnOk, Ok};
ghost use Rattle.fx_cert.specs.Certificate.{numbered, numbered_each, text_of};
ghost use Rattle.fx_cert.specs.Lines.{lines_of};
ghost use Rattle.fx_cert.specs.Reading.{certificate_in};

use crate::cert::{Cert, certificates_fit};
use crate::limits::GREATEST_TEXT;
use crate::reader::FIRST_LINE;
use itoa::{Buffer, Integer};
use std::alloc::{AllocError, Global};

// A line of a word and a number.
fn put_numbered<I: Integer>(out: &mut Vec<u8>, word: &[u8], number: I) -> Result<(), AllocError>
    ensures { OnOk result (out.new.items ≡ out.old.items ++ numbered word.now (I.text number)) }
{
    let mut buffer = Buffer::new();
    out.extend_from_slice(word)?;
    out.extend_from_slice(buffer.format(number).as_bytes())?;
    out.extend_from_slice(b"\n")
}

fn put_bounds(out: &mut Vec<u8>, bounds: &[i64]) -> Result<(), AllocError>
    ensures { OnOk result (out.new.items ≡ out.old.items ++ numbered_each (codes "X ") bounds.now) }
{
    for bound in bounds {
        put_numbered(out, b"X ", *bound)?;
    }
    Ok(())
}

fn put_errors(out: &mut Vec<u8>, errors: &[i128]) -> Result<(), AllocError>
    ensures { OnOk result (out.new.items ≡ out.old.items ++ numbered_each (codes "E ") errors.now) }
{
    for error in errors {
        put_numbered(out, b"E ", *error)?;
    }
    Ok(())
}

// The whole text.
fn text_of(alloc: Global, certificate: &Cert) -> Result<Vec<u8>, AllocError>
    ensures { IfOk result (λ v. v.items ≡ text_of certificate.now) }
{
    let mut out = Vec::from_slice(alloc, FIRST_LINE)?;
    out.push(b'\n')?;
    put_numbered(&mut out, b"length ", certificate.length())?;
    put_numbered(&mut out, b"rows ", certificate.x().len())?;
    put_bounds(&mut out, certificate.x())?;
    put_numbered(&mut out, b"outputs ", certificate.e().len())?;
    put_errors(&mut out, certificate.e())?;
    out.extend_from_slice(b"end\n")?;
    Ok(out)
}

/// The text of a certificate, at most `GREATEST_TEXT` bytes.
///
/// # Errors
///
/// Only where memory is refused.
pub fn write_cert(alloc: Global, c: &Cert) -> Result<Vec<u8>, AllocError>
    ensures text { IfOk result (λ v. v.items ≡ text_of c.now) }
    ensures short { IfOk result (λ v. length v.items ≤ GREATEST_TEXT) }
{
    certificates_fit(c);
    text_of(alloc, c)
}

/// A law with nothing to run: the text of a certificate is read as the same certificate.
pub fn written_certificate_is_read(c: &Cert)
    ensures { certificate_in (lines_of (text_of c.now)) ≡ Ok c.now }
{
    certificates_fit(c);
}
