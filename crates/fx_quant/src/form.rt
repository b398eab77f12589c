//! The rows of an implicit form, one after the other.

ghost use Rattle.std.specs.Prelude.{◌≡◌, ◌<◌, ◌≤◌, ◌+◌, ◌++◌, length, map, take, All, IfOk, OnOk};
ghost use Rattle.fx_math.specs.Answers.{Gives};
ghost use Rattle.fx_net.specs.Tables.{net_of};
ghost use Rattle.fx_quant.specs.Design.{DesignFits};
ghost use Rattle.fx_quant.specs.Inside.{grid_of, row_of, rows_of};
ghost use Rattle.fx_quant.specs.Positions.{grid, guarded};
ghost use Rattle.fx_quant.specs.Quantised.{
  FormatsFit,
  FractionFits,
  HasSizes,
  IsGuard,
  LowFits,
  equal_guards,
  is_memory,
  net_rows,
  quantised,
};
ghost use Rattle.fx_quant.specs.Rows.{kept_terms, quantised_row};

use crate::design::{Design, DesignRow};
use crate::fault::QuantFault;
use crate::formats::{Formats, GREATEST_FRACTION};
use crate::row;
use crate::scaled::Places;
use fx_code::CODE_TERMS;
use fx_eqs::PORTS;
use fx_net::Net;
use fx_sif::{FORM_ROWS, Sif, forms_fit};
use std::alloc::{AllocError, Global};

// The low position of a row with a guard.
fn guarded(formats: &Formats, guard: u8) -> i8
    requires low { LowFits formats.now.input_low }
    requires guard { IsGuard guard }
    ensures { result ≡ guarded formats.now.input_low guard }
{
    formats.input_low - guard as i8
}

// Adds the low positions of the rows with these guards.
fn add_guarded(lows: &mut Vec<i8>, formats: &Formats, guards: &[u8]) -> Result<(), AllocError>
    requires low { LowFits formats.now.input_low }
    requires guards { All IsGuard guards.now }
    ensures { OnOk result (lows.new.items ≡ lows.old.items ++ map (guarded formats.now.input_low) guards.now) }
{
    for &guard in guards {
        lows.push(guarded(formats, guard))?;
    }
    Ok(())
}

// Adds the low positions of the outputs.
fn add_outputs(lows: &mut Vec<i8>, formats: &Formats, outputs: usize) -> Result<(), AllocError>
    requires { outputs ≤ PORTS }
    ensures { OnOk result (lows.new.items ≡ lows.old.items ++ take outputs formats.now.lows) }
{
    for o in 0..outputs {
        lows.push(formats.lows[o])?;
    }
    Ok(())
}

// The low position of each row.
fn places(
    alloc: Global,
    formats: &Formats,
    guards: &[u8],
    outputs: usize,
    fraction: u8,
) -> Result<Places, AllocError>
    requires low { LowFits formats.now.input_low }
    requires guards { All IsGuard guards.now }
    requires outputs { outputs ≤ PORTS }
    ensures { IfOk result (λ p. grid_of p ≡ grid formats.now guards.now outputs fraction) }
{
    let mut lows = Vec::new(alloc);
    add_guarded(&mut lows, formats, guards)?;
    add_outputs(&mut lows, formats, outputs)?;
    Ok(Places {
        input_low: formats.input_low,
        lows,
        fraction,
    })
}

// Row i.
#[tactic(auto, using(crate::proofs::Faults::fault_told))]
fn design_row(
    alloc: Global,
    formats: &Formats,
    net: &Net<FORM_ROWS>,
    places: &Places,
    rows: usize,
    inputs: usize,
    i: usize,
) -> Result<DesignRow, QuantFault>
    requires fraction { places.now.fraction ≤ GREATEST_FRACTION }
    requires row { i < rows }
    requires rows { rows ≤ FORM_ROWS }
    requires inputs { inputs ≤ PORTS }
    ensures { Gives is_memory row_of result
        (quantised_row formats.now i (kept_terms (grid_of places.now) (net_of net.now) rows inputs i)) }
{
    let terms = row::kept_terms(alloc, net, places, rows, inputs, i)?;
    row::quantised_row(alloc, formats, i as u8, &terms)
}

// All rows, or the first fault among them.
#[tactic(auto, using(crate::proofs::Faults::rows_next, crate::proofs::Faults::rows_later))]
fn design_rows(
    alloc: Global,
    formats: &Formats,
    net: &Net<FORM_ROWS>,
    places: &Places,
    rows: usize,
    inputs: usize,
) -> Result<Vec<DesignRow>, QuantFault>
    requires fraction { places.now.fraction ≤ GREATEST_FRACTION }
    requires rows { rows ≤ FORM_ROWS }
    requires inputs { inputs ≤ PORTS }
    ensures { Gives is_memory rows_of result
        (net_rows formats.now (grid_of places.now) (net_of net.now) rows inputs) }
{
    let mut list = Vec::new(alloc);
    for i in 0..rows {
        let row = design_row(alloc, formats, net, places, rows, inputs, i)?;
        list.push(row)?;
    }
    Ok(list)
}

/// The integer rows of a form, with a guard for each intermediate variable and each state: 0 to `LARGEST_GUARD` bits by
/// which the row's low position is below that of the inputs. Coefficients are rounded to `fraction` places behind the
/// point.
///
/// Its error is the first fault, row by row; `NoMemory` may come at any time. Where the form has at most `CODE_TERMS`
/// entries, the design fits a program.
#[tactic(auto, using(crate::proofs::Faults::quantised_is, crate::proofs::Faults::quantised_fails))]
pub fn quantise_rows(
    alloc: Global,
    sif: &Sif,
    formats: Formats,
    guards: &[u8],
    fraction: u8,
) -> Result<Design, QuantFault>
    requires formats { FormatsFit sif.now.sizes.y formats }
    requires count { length guards.now ≡ sif.now.sizes.t + sif.now.sizes.x }
    requires guards { All IsGuard guards.now }
    requires fraction { FractionFits fraction }
    ensures value { Gives is_memory (λ d. d) result (quantised sif.now formats guards.now fraction) }
    ensures sizes { IfOk result (HasSizes sif.now formats) }
    ensures fits { IfOk result (λ d. length sif.now.entries ≤ CODE_TERMS → DesignFits d) }
{
    forms_fit(sif);
    let sizes = sif.sizes();
    let mut net: Net<FORM_ROWS> = Net::new(alloc)?;
    sif.put_net(&mut net, 0);
    let places = places(alloc, &formats, guards, usize::from(sizes.y), fraction)?;
    let inputs = usize::from(sizes.u);
    let rows = design_rows(alloc, &formats, &net, &places, sif.rows(), inputs)?;
    Ok(Design {
        accumulator: formats.accumulator,
        inputs: sizes.u,
        rows,
    })
}

/// The integer rows of a form, with the same guard for each intermediate variable and each state, as by
/// `quantise_rows`.
///
/// Its error is the first fault, row by row; `NoMemory` may come at any time.
pub fn quantise(
    alloc: Global,
    sif: &Sif,
    formats: Formats,
    guard: u8,
    fraction: u8,
) -> Result<Design, QuantFault>
    requires formats { FormatsFit sif.now.sizes.y formats }
    requires guard { IsGuard guard }
    requires fraction { FractionFits fraction }
    ensures value { Gives is_memory (λ d. d) result (quantised sif.now formats (equal_guards sif.now guard) fraction) }
    ensures sizes { IfOk result (HasSizes sif.now formats) }
    ensures fits { IfOk result (λ d. length sif.now.entries ≤ CODE_TERMS → DesignFits d) }
{
    let sizes = sif.sizes();
    let count = usize::from(sizes.t) + usize::from(sizes.x);
    let guards = vec![in alloc; guard; count]?;
    quantise_rows(alloc, sif, formats, &guards, fraction)
}
