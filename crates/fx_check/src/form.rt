//! Whether a filter, a program and a certificate have the same form.

ghost use Rattle.std.specs.Prelude.{◌≡◌, ◌<◌, ◌≤◌, OnOk, length, slice_index};
ghost use Rattle.fx_block.specs.Failure.{first_of, form_failure, unequal};
ghost use Rattle.fx_block.specs.Formats.{input_at, output_at};
ghost use Rattle.fx_block.specs.Passes.{row_count};
ghost use Rattle.fx_block.specs.declared.inequality.Inequality.TheVariants.{InputWidth, OutputWidth};
ghost use Rattle.fx_check.specs.Targets.{AreCounted};
ghost use Rattle.fx_check.specs.Verdict.{told_by};
ghost use Rattle.fx_code.specs.Code.{row_at};
ghost use Rattle.fx_files.specs.Fits.{InputFits, OutputFits};

use crate::refusal::{Refusal, equal};
use fx_block::Inequality;
use fx_cert::Cert;
use fx_code::Program;
use fx_eqs::PORTS;
use fx_files::{Filter, InputFormat, OutputFormat};
use fx_net::LARGEST_NET;

/// How many inputs a filter has.
pub fn input_count(f: &Filter) -> usize
    ensures value { result ≡ length f.now.inputs }
    ensures few { result ≤ PORTS }
{
    f.inputs().len()
}

/// How many outputs a filter has.
pub fn output_count(f: &Filter) -> usize
    ensures value { result ≡ length f.now.outputs }
    ensures few { result ≤ PORTS }
{
    f.outputs().len()
}

/// Input `j` of a filter.
pub fn input(f: &Filter, j: usize) -> InputFormat
    requires { j < length f.now.inputs }
    ensures value { result ≡ input_at f.now j }
    ensures fits { InputFits result }
{
    f.input(j)
}

/// Output `o` of a filter.
pub fn output(f: &Filter, o: usize) -> OutputFormat
    requires { o < length f.now.outputs }
    ensures value { result ≡ output_at f.now o }
    ensures fits { OutputFits f.now.input_low f.now.settings.accumulator result }
{
    f.output(o)
}

/// How many rows a program and the expanded equations of a filter have together.
pub fn joint_rows(f: &Filter, p: &Program) -> usize
    ensures value { result ≡ row_count f.now p.now }
    ensures program { length p.now.rows ≤ result }
    ensures high { result ≤ LARGEST_NET }
{
    p.rows() + f.eqs().net_rows()
}

// The width of an input.
fn test_input(f: &Filter, p: &Program, j: usize) -> Result<(), Refusal>
    requires program { j < length p.now.inputs }
    requires filter { j < length f.now.inputs }
    requires few { j < PORTS }
    ensures { told_by result ≡ unequal (InputWidth j) (slice_index p.now.inputs j) (input_at f.now j).width }
{
    equal(
        Inequality::InputWidth(j as u8),
        usize::from(p.input_width(j)),
        usize::from(input(f, j).width),
    )
}

// The widths of the inputs.
fn test_inputs(f: &Filter, p: &Program) -> Result<(), Refusal>
    requires { length p.now.inputs ≡ length f.now.inputs }
    ensures { told_by result ≡ first_of (length f.now.inputs) (λ j.
        unequal (InputWidth j) (slice_index p.now.inputs j) (input_at f.now j).width) }
{
    for j in 0..input_count(f) {
        test_input(f, p, j)?;
    }
    Ok(())
}

/// The row of an output.
pub fn output_row(p: &Program, o: usize) -> u8
    requires { o < length p.now.outputs }
    ensures value { result ≡ slice_index p.now.outputs o }
    ensures fits { result < length p.now.rows }
{
    p.outputs()[o]
}

// The width of the row of an output.
fn test_output(f: &Filter, p: &Program, o: usize) -> Result<(), Refusal>
    requires program { o < length p.now.outputs }
    requires filter { o < length f.now.outputs }
    requires few { o < PORTS }
    ensures { told_by result
        ≡ unequal (OutputWidth o) (row_at p.now (slice_index p.now.outputs o)).width (output_at f.now o).width }
{
    let row = usize::from(output_row(p, o));
    equal(
        Inequality::OutputWidth(o as u8),
        usize::from(p.width(row)),
        usize::from(output(f, o).width),
    )
}

// The widths of the rows of the outputs.
fn test_outputs(f: &Filter, p: &Program) -> Result<(), Refusal>
    requires { length p.now.outputs ≡ length f.now.outputs }
    ensures { told_by result ≡ first_of (length f.now.outputs) (λ o.
        unequal (OutputWidth o) (row_at p.now (slice_index p.now.outputs o)).width (output_at f.now o).width) }
{
    for o in 0..output_count(f) {
        test_output(f, p, o)?;
    }
    Ok(())
}

/// All numbers of the form.
pub fn test_form(f: &Filter, p: &Program, c: &Cert) -> Result<(), Refusal>
    ensures told { told_by result ≡ form_failure f.now p.now c.now }
    ensures counted { OnOk result (AreCounted f.now p.now c.now) }
{
    equal(Inequality::Inputs, p.inputs(), input_count(f))?;
    equal(Inequality::Outputs, p.outputs().len(), output_count(f))?;
    equal(
        Inequality::Accumulator,
        usize::from(p.accumulator()),
        usize::from(f.accumulator()),
    )?;
    test_inputs(f, p)?;
    test_outputs(f, p)?;
    equal(Inequality::Rows, c.x().len(), joint_rows(f, p))?;
    equal(Inequality::Errors, c.e().len(), output_count(f))
}
