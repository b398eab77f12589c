ghost use Rattle.toml.specs.View.{table_view};
ghost use Rattle.fx_math.specs.Answers.{Gives};
ghost use Rattle.fx_keys.specs.Faults.{is_memory};
ghost use Rattle.fx_files.specs.Reading.{filter_in, filter_of_bytes};

use crate::building::assembled;
use crate::filter::Filter;
use crate::head::head_of;
use crate::lists::read_coefficients;
use crate::ports::{outputs_fit, ports_of, single};
use crate::settings::settings_of;
use fx_keys::{FilterFault, table_of};
use std::alloc::Global;
use toml::Table;

// The filter of a table.
#[tactic(auto, unfolding(crate::specs::Reading::filter_in))]
fn filter_of(alloc: Global, table: &Table) -> Result<Filter, FilterFault>
    ensures { Gives is_memory (λ f. f) result (filter_in (table_view table.now)) }
{
    let form = head_of(alloc, table)?;
    let ports = ports_of(alloc, table)?;
    let (inputs, outputs) = (ports.inputs.formats.len(), ports.outputs.len());
    let coefficients = read_coefficients(alloc, table, form, inputs, outputs)?;
    let settings = settings_of(alloc, table, form)?;
    single(form, inputs, outputs)?;
    outputs_fit(&ports, settings.accumulator)?;
    Ok(assembled(alloc, ports, coefficients, settings)?)
}

/// The filter of a file's bytes, or the file's first fault.
///
/// The bytes are the text of a TOML table. Its form is looked at first, then whether a key is unknown, then
/// `input_low`, the inputs, the outputs, the coefficients, and the keys from `structure` on; last, that a form other
/// than the state space has one input and one output, and that each output's low position is at most 16 from the
/// inputs' and its words fit the accumulator. `NoMemory` may come at any time.
#[tactic(auto, unfolding(crate::specs::Reading::filter_of_bytes))]
pub fn read_filter(alloc: Global, bytes: &[u8]) -> Result<Filter, FilterFault>
    ensures { Gives is_memory (λ f. f) result (filter_of_bytes bytes.now) }
{
    let table = table_of(alloc, bytes)?;
    filter_of(alloc, &table)
}
