//! The program and the certificate of a candidate that passes.

ghost use Rattle.std.specs.Prelude.{◌≡◌, ◌<◌, ◌≤◌, ℕ, length, map, All, IfOk};
ghost use Rattle.fx_code.specs.Code.{IsWhole};
ghost use Rattle.fx_sweep.specs.Swept.{whole_in};
ghost use Rattle.fx_totals.specs.Kept.{AreBounds, bound_in};
ghost use Rattle.fx_block.specs.Candidate.{candidate_count, cap_of};
ghost use Rattle.fx_block.specs.Made.{IsCertificateOf, IsProgramOf};
ghost use Rattle.fx_make.specs.Designs.{AreRowsOf, ErrorFits};
ghost use Rattle.fx_make.specs.Lengths.{HasPassing};

use crate::targets::row_count;
use fx_cert::{Cert, GREATEST_LENGTH, LEAST_LENGTH};
use fx_code::Program;
use fx_files::{Filter, InputFormat, OutputFormat, filters_fit};
use fx_quant::Design;
use fx_totals::totals_grow;
use std::alloc::{AllocError, Global};

// The widths of the words of inputs.
fn input_widths(alloc: Global, inputs: &[InputFormat]) -> Result<Vec<u8>, AllocError>
    ensures { IfOk result (λ v. v.items ≡ map (λ i. i.width) inputs.now) }
{
    let mut widths = Vec::new(alloc);
    for input in inputs {
        widths.push(input.width)?;
    }
    Ok(widths)
}

// The widths of the words of outputs.
fn output_widths(alloc: Global, outputs: &[OutputFormat]) -> Result<Vec<u8>, AllocError>
    ensures { IfOk result (λ v. v.items ≡ map (λ o. o.width) outputs.now) }
{
    let mut widths = Vec::new(alloc);
    for output in outputs {
        widths.push(output.width)?;
    }
    Ok(widths)
}

/// The program of a design whose rows have these bounds, within their caps: over the accumulators, the inputs and the
/// outputs of a filter, where the words of the rows that are not put out have the least width that takes their bounds.
///
/// Its error is want of memory.
pub fn made_program(alloc: Global, f: &Filter, d: &Design, x: &[i64]) -> Result<Program, AllocError>
    requires rows { AreRowsOf f.now d.now }
    requires count { length d.now.rows ≤ length x.now }
    requires bounds { AreBounds x.now }
    requires caps { (i : ℕ) → i < length d.now.rows → bound_in x.now i ≤ cap_of f.now d.now.rows i }
    ensures made { IfOk result (IsProgramOf f.now d.now.rows (bound_in x.now)) }
    ensures whole { IfOk result IsWhole }
{
    filters_fit(f);
    let inputs = input_widths(alloc, f.inputs())?;
    let outputs = output_widths(alloc, f.outputs())?;
    let widths = d.widths(alloc, x, &outputs)?;
    d.program(alloc, f.accumulator(), &inputs, &widths, outputs.len())
}

// Reads each wanted error, so that its limits are known.
fn errors_are_small(outputs: &[OutputFormat])
    ensures { All ErrorFits outputs.now }
{
    for output in outputs {
        let _ = output.error.num();
    }
}

/// The certificate of a design that passes after so many moments, 1 to 4096: with the bounds of its rows and of the
/// filter's, and with the totals of the outputs' pairs.
///
/// Its error is want of memory.
pub fn made_certificate(
    alloc: Global,
    f: &Filter,
    d: &Design,
    moments: u16,
    x: &[i64],
    e: &[i128],
) -> Result<Cert, AllocError>
    requires rows { AreRowsOf f.now d.now }
    requires low { LEAST_LENGTH ≤ moments }
    requires high { moments ≤ GREATEST_LENGTH }
    requires count { candidate_count f.now d.now.rows ≤ length x.now }
    requires bounds { AreBounds x.now }
    requires errors { length e.now ≡ length f.now.outputs }
    requires passing { HasPassing f.now d.now.rows moments (bound_in x.now) (whole_in e.now) }
    ensures { IfOk result (IsCertificateOf f.now d.now.rows moments (bound_in x.now)) }
{
    filters_fit(f);
    totals_grow();
    errors_are_small(f.outputs());
    Cert::build(alloc, moments, &x[..row_count(f, d)], e)
}
