//! A filter of its parts.

ghost use Rattle.std.specs.Prelude.{◌≡◌, ◌≤◌, length, All, IfOk};
ghost use Rattle.fx_nums.specs.Fraction.{OverTen};
ghost use Rattle.fx_files.specs.Building.{assembled, equations_of, target_of, with_rows};
ghost use Rattle.fx_files.specs.Coefficients.{coefficients_of, form_of};
ghost use Rattle.fx_files.specs.Fits.{CoefficientsFit, CountsFit, EntryAgrees, PortsFit, SettingsFit};
ghost use Rattle.fx_files.specs.Inside.{ports_view, settings_view};

use crate::coefficients::{Coefficients, Lists};
use crate::filter::Filter;
use crate::formats::{OutputEntry, OutputFormat};
use crate::ports::Ports;
use crate::settings::Settings;
use fx_eqs::{Eqs, PORTS};
use fx_nums::{Frac, Iv};
use fx_textbook::{Space, cascade_system, ladder_system, space_system, transfer_system};
use std::alloc::{AllocError, Global};

// The equations of a form, with m inputs and p outputs.
fn equations(
    alloc: Global,
    m: usize,
    p: usize,
    coefficients: &Coefficients,
) -> Result<Eqs, AllocError>
    requires inputs_low { 1 ≤ m }
    requires inputs_high { m ≤ PORTS }
    requires outputs_low { 1 ≤ p }
    requires outputs_high { p ≤ PORTS }
    requires fits { CoefficientsFit m p coefficients.now }
    requires over_ten { All OverTen (coefficients_of coefficients.now) }
    ensures { IfOk result (λ s. s ≡ equations_of m p coefficients.now) }
{
    match coefficients.lists() {
        Lists::Tf(b, a) => transfer_system(alloc, b, a),
        Lists::Sos(sections) => cascade_system(alloc, sections),
        Lists::Ss(n, a, b, c, d) => space_system(
            alloc,
            &Space {
                n,
                m,
                p,
                a,
                b,
                c,
                d,
            },
        ),
        Lists::Lattice(k, v) => ladder_system(alloc, k, v),
    }
}

// An error at the scale 2^-64, rounded down.
fn target_of(error: Frac) -> i128
    ensures { result ≡ target_of error }
{
    Iv::of(error).lo()
}

// The outputs, each with the row that it puts out.
#[tactic(auto, unfolding(crate::specs::Building::with_rows))]
fn with_rows(
    alloc: Global,
    rows: &[u8],
    entries: &[OutputEntry],
) -> Result<Vec<OutputFormat>, AllocError>
    requires { length rows.now ≡ length entries.now }
    ensures { IfOk result (λ v. v.items ≡ with_rows rows.now entries.now) }
{
    let mut outputs = Vec::new(alloc);
    for (j, entry) in entries.iter().enumerate() {
        outputs.push(OutputFormat {
            row: rows[j],
            width: entry.width,
            low: entry.low,
            error: entry.error,
            target: target_of(entry.error),
        })?;
    }
    Ok(outputs)
}

/// The filter of parts that agree.
#[tactic(auto, unfolding(crate::specs::Building::assembled))]
pub(crate) fn assembled(
    alloc: Global,
    ports: Ports,
    coefficients: Coefficients,
    settings: Settings,
) -> Result<Filter, AllocError>
    requires ports { PortsFit (ports_view ports) }
    requires counts { CountsFit (form_of coefficients) (length ports.inputs.formats.items)
        (length ports.outputs.items) }
    requires fits { CoefficientsFit (length ports.inputs.formats.items) (length ports.outputs.items) coefficients }
    requires over_ten { All OverTen (coefficients_of coefficients) }
    requires settings { SettingsFit (settings_view settings) }
    requires agree { All (EntryAgrees ports.inputs.low settings.accumulator) ports.outputs.items }
    ensures { IfOk result (λ f. f ≡ assembled (ports_view ports) coefficients (settings_view settings)) }
{
    let (inputs, outputs) = (ports.inputs.formats.len(), ports.outputs.len());
    let eqs = equations(alloc, inputs, outputs, &coefficients)?;
    let outputs = with_rows(alloc, eqs.outputs(), &ports.outputs)?;
    Ok(Filter {
        inputs: ports.inputs,
        outputs,
        coefficients,
        settings,
        eqs,
    })
}
