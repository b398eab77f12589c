//! The integer rows of a form for a filter.

ghost use Rattle.std.specs.Prelude.{◌≡◌, length, IfOk};
ghost use Rattle.fx_math.specs.Answers.{Gives};
ghost use Rattle.fx_block.specs.Formats.{output_at};
ghost use Rattle.fx_quant.specs.Quantised.{FractionFits, IsGuard, equal_guards, is_memory, quantised};
ghost use Rattle.fx_sif.specs.Implicit.{rows};
ghost use Rattle.fx_make.specs.Candidates.{formats_of};
ghost use Rattle.fx_make.specs.Designs.{AreRowsOf};
ghost use Rattle.fx_make.specs.Structures.{HasFewEntries, HasPorts};

use crate::targets::{output, output_count};
use fx_files::{Filter, filters_fit};
use fx_quant::{Design, Formats, QuantFault, quantise};
use fx_sif::Sif;
use std::alloc::Global;

// The low position of output `o`; 0 past the outputs.
fn output_low(f: &Filter, o: usize) -> i8
    ensures { result ≡ (output_at f.now o).low }
{
    if o < output_count(f) {
        return output(f, o).low;
    }
    0
}

// The low positions, the accumulators and the rounding of a filter.
fn formats(f: &Filter) -> Formats
    ensures { result ≡ formats_of f.now }
{
    Formats {
        input_low: f.input_low(),
        lows: [
            output_low(f, 0),
            output_low(f, 1),
            output_low(f, 2),
            output_low(f, 3),
        ],
        accumulator: f.accumulator(),
        mode: f.mode(),
    }
}

/// The integer rows of the form of a filter's structure: with so many guard bits of each row that is not put out, 0 to
/// 16, and with coefficients of so many bits behind the point, 1 to 40.
///
/// Its error is the first fault, row by row; `NoMemory` may come at any time.
pub fn quantised_design(
    alloc: Global,
    f: &Filter,
    form: &Sif,
    guard: u8,
    fraction: u8,
) -> Result<Design, QuantFault>
    requires ports { HasPorts f.now form.now }
    requires few { HasFewEntries form.now }
    requires guard { IsGuard guard }
    requires fraction { FractionFits fraction }
    ensures value { Gives is_memory (λ d. d) result
        (quantised form.now (formats_of f.now) (equal_guards form.now guard) fraction) }
    ensures rows { IfOk result (AreRowsOf f.now) }
    ensures count { IfOk result (λ d. length d.rows ≡ rows form.now.sizes) }
{
    filters_fit(f);
    quantise(alloc, form, formats(f), guard, fraction)
}
