//! The inputs and outputs of a file.

ghost use Rattle.std.specs.Prelude.{◌≡◌, ◌≤◌, ◌<◌, ◌≤ℤ◌, ◌-ℤ◌, pos, length, All, IfOk};
ghost use Rattle.toml.specs.View.{table_view, items_view};
ghost use Rattle.fx_nums.specs.Fraction.{OverTen};
ghost use Rattle.fx_math.specs.Answers.{Gives};
ghost use Rattle.fx_math.specs.Words.{WidthFits};
ghost use Rattle.fx_keys.specs.Faults.{is_memory, seen};
ghost use Rattle.fx_keys.specs.Keys.{IsWithin, most_of};
ghost use Rattle.fx_files.specs.Fits.{CountsFit, EntryAgrees, EntryFits, InputFits, InputsFit, PortsFit};
ghost use Rattle.fx_files.specs.Inside.{inputs_view, ports_view};
ghost use Rattle.fx_files.specs.Ports.{
  alone,
  bounds_of,
  each_input,
  each_output,
  error_in,
  input_in,
  inputs_in,
  output_fits,
  output_in,
  outputs_fit,
  outputs_in,
  ports_in,
  single,
  tables_in,
  top_word,
};

use crate::formats::{InputFormat, OutputEntry};
use crate::forms::Form;
use fx_eqs::PORTS;
use fx_keys::{
    FilterFault, Key, LOW_DIFFERENCES, LOWS, Range, all_tables, at_most, list_at, natural_of,
    needed, numeral_of, only_keys, some, whole_of, whole_or,
};
use fx_nums::Frac;
use std::alloc::{AllocError, Global};
use toml::{Table, Value};

/// The inputs, and the low position that they share.
#[derive(Drop)]
pub(crate) struct Inputs {
    pub low: i8,
    pub formats: Vec<InputFormat>,
}

impl Inputs {
    /// The same inputs.
    pub(crate) fn copy(&self, alloc: Global) -> Result<Inputs, AllocError>
        ensures { IfOk result (λ i. inputs_view i ≡ inputs_view self.now) }
    {
        Ok(Inputs {
            low: self.low,
            formats: self.formats.to_vec(alloc)?,
        })
    }
}

/// The inputs and outputs as a file gives them.
#[derive(Drop)]
pub(crate) struct Ports {
    pub inputs: Inputs,
    pub outputs: Vec<OutputEntry>,
}

// The one to four tables at a key.
#[tactic(auto, unfolding(crate::specs::Ports::tables_in))]
fn tables_of(table: &Table, key: Key) -> Result<&[Value], FilterFault>
    ensures gives { seen (λ s. items_view s.now) result ≡ tables_in key (table_view table.now) }
    ensures low { IfOk result (λ s. 1 ≤ length s.now) }
    ensures high { IfOk result (λ s. length s.now ≤ most_of key) }
{
    let value = needed(table, key)?;
    let entries = list_at(value, key)?;
    all_tables(entries, key)?;
    some(entries, key)?;
    at_most(entries, key)?;
    Ok(entries)
}

// The greatest word of so many bits.
fn top_word(width: u16) -> i64
    requires { WidthFits width }
    ensures value { result ≡ top_word width }
    ensures low { pos 0 ≤ℤ result }
{
    (1i64 << (width - 1)) - 1
}

// The bounds that words of so many bits may have.
fn bounds_of(width: u16) -> Range
    requires { WidthFits width }
    ensures value { result ≡ bounds_of width }
    ensures some { IsWithin result result.high }
{
    Range {
        low: 0,
        high: top_word(width),
    }
}

#[tactic(auto, unfolding(crate::specs::Ports::input_in))]
fn input_of(alloc: Global, table: &Table) -> Result<InputFormat, FilterFault>
    ensures gives { Gives is_memory (λ i. i) result (input_in (table_view table.now)) }
    ensures fits { IfOk result InputFits }
{
    only_keys(alloc, table, &[Key::InputsWidth, Key::InputsBound], &[])?;
    let width = natural_of(table, Key::InputsWidth)?;
    let bounds = bounds_of(width);
    let bound = whole_or(table, Key::InputsBound, bounds, Some(bounds.high))?;
    Ok(InputFormat {
        width: width as u8,
        bound,
    })
}

#[tactic(auto, unfolding(crate::specs::Ports::each_input))]
fn each_input(alloc: Global, entries: &[Value]) -> Result<Vec<InputFormat>, FilterFault>
    ensures gives { Gives is_memory (λ v. v.items) result (each_input (items_view entries.now)) }
    ensures count { IfOk result (λ v. length v.items ≡ length entries.now) }
    ensures fits { IfOk result (λ v. All InputFits v.items) }
{
    let mut inputs = Vec::new(alloc);
    for entry in entries {
        let Some(table) = entry.as_table() else {
            return Err(FilterFault::WrongKind(Key::Inputs));
        };
        inputs.push(input_of(alloc, table)?)?;
    }
    Ok(inputs)
}

// The inputs and their low position.
#[tactic(auto, unfolding(crate::specs::Ports::inputs_in))]
fn inputs_of(alloc: Global, table: &Table) -> Result<Inputs, FilterFault>
    ensures gives { Gives is_memory inputs_view result (inputs_in (table_view table.now)) }
    ensures fits { IfOk result (λ i. InputsFit (inputs_view i)) }
{
    let low = whole_of(table, Key::InputLow)?;
    let entries = tables_of(table, Key::Inputs)?;
    let formats = each_input(alloc, entries)?;
    Ok(Inputs {
        low: low as i8,
        formats,
    })
}

// The keys of an output.
const OUTPUT_KEYS: [Key; 3] = [Key::OutputsWidth, Key::OutputsLow, Key::OutputsError];

// The error of the output at this place.
#[tactic(auto, unfolding(crate::specs::Ports::error_in))]
fn error_of(table: &Table, place: u32) -> Result<Frac, FilterFault>
    ensures gives { result ≡ error_in place (table_view table.now) }
    ensures over_ten { IfOk result OverTen }
    ensures low { IfOk result (λ c. pos 0 ≤ℤ c.num) }
{
    let value = needed(table, Key::OutputsError)?;
    let error = numeral_of(value, Key::OutputsError, place)?;
    if error.num() < 0 {
        return Err(FilterFault::Limit(Key::OutputsError, i64::from(place), 0));
    }
    Ok(error)
}

// The output at this place, whose low position is the inputs' where it names none.
#[tactic(auto, unfolding(crate::specs::Ports::output_in))]
fn output_of(
    alloc: Global,
    table: &Table,
    inputs: &Inputs,
    place: u32,
) -> Result<OutputEntry, FilterFault>
    requires { InputsFit (inputs_view inputs.now) }
    ensures gives { Gives is_memory (λ o. o) result (output_in inputs.now.low place (table_view table.now)) }
    ensures fits { IfOk result EntryFits }
{
    only_keys(alloc, table, &OUTPUT_KEYS, &[])?;
    let width = natural_of(table, Key::OutputsWidth)?;
    let default = i64::from(inputs.low);
    let low = whole_or(table, Key::OutputsLow, LOWS, Some(default))?;
    let error = error_of(table, place)?;
    Ok(OutputEntry {
        width: width as u8,
        low: low as i8,
        error,
    })
}

#[tactic(auto, unfolding(crate::specs::Ports::each_output))]
fn each_output(
    alloc: Global,
    entries: &[Value],
    inputs: &Inputs,
) -> Result<Vec<OutputEntry>, FilterFault>
    requires fits { InputsFit (inputs_view inputs.now) }
    requires few { length entries.now ≤ PORTS }
    ensures gives { Gives is_memory (λ v. v.items) result (each_output inputs.now.low 0 (items_view entries.now)) }
    ensures count { IfOk result (λ v. length v.items ≡ length entries.now) }
    ensures fits { IfOk result (λ v. All EntryFits v.items) }
{
    let mut outputs = Vec::new(alloc);
    let mut place = 0u32;
    for entry in entries {
        let Some(table) = entry.as_table() else {
            return Err(FilterFault::WrongKind(Key::Outputs));
        };
        outputs.push(output_of(alloc, table, inputs, place)?)?;
        place += 1;
    }
    Ok(outputs)
}

#[tactic(auto, unfolding(crate::specs::Ports::outputs_in))]
fn outputs_of(
    alloc: Global,
    table: &Table,
    inputs: &Inputs,
) -> Result<Vec<OutputEntry>, FilterFault>
    requires { InputsFit (inputs_view inputs.now) }
    ensures gives { Gives is_memory (λ v. v.items) result (outputs_in inputs.now.low (table_view table.now)) }
    ensures low { IfOk result (λ v. 1 ≤ length v.items) }
    ensures high { IfOk result (λ v. length v.items ≤ PORTS) }
    ensures fits { IfOk result (λ v. All EntryFits v.items) }
{
    let entries = tables_of(table, Key::Outputs)?;
    each_output(alloc, entries, inputs)
}

/// The inputs and outputs of a file.
#[tactic(auto, unfolding(crate::specs::Ports::ports_in))]
pub(crate) fn ports_of(alloc: Global, table: &Table) -> Result<Ports, FilterFault>
    ensures gives { Gives is_memory ports_view result (ports_in (table_view table.now)) }
    ensures fits { IfOk result (λ p. PortsFit (ports_view p)) }
{
    let inputs = inputs_of(alloc, table)?;
    let outputs = outputs_of(alloc, table, &inputs)?;
    Ok(Ports { inputs, outputs })
}

// More than one is a fault.
fn alone(key: Key, count: usize) -> Result<(), FilterFault>
    ensures gives { result ≡ alone key count }
    ensures within { IfOk result (λ _. count ≤ 1) }
{
    if count <= 1 {
        Ok(())
    } else {
        Err(FilterFault::Shape(key, count, 1))
    }
}

/// Forms other than the state space have one input and one output.
#[tactic(auto, unfolding(crate::specs::Ports::single))]
pub(crate) fn single(form: Form, inputs: usize, outputs: usize) -> Result<(), FilterFault>
    requires inputs { 1 ≤ inputs }
    requires outputs { 1 ≤ outputs }
    ensures gives { result ≡ single form inputs outputs }
    ensures counts { IfOk result (λ _. CountsFit form inputs outputs) }
{
    if matches!(form, Form::Ss) {
        return Ok(());
    }
    alone(Key::Inputs, inputs)?;
    alone(Key::Outputs, outputs)
}

// How far an output's low position is below the inputs'.
fn shift_of(inputs: &Inputs, output: &OutputEntry) -> i64
    ensures { result ≡ inputs.now.low -ℤ output.now.low }
{
    i64::from(inputs.low) - i64::from(output.low)
}

// An output's low position is at most 16 from the inputs', and its words fit the accumulator.
fn output_fits(inputs: &Inputs, accumulator: u8, output: &OutputEntry) -> Result<(), FilterFault>
    ensures gives { result ≡ output_fits inputs.now.low accumulator output.now }
    ensures within { IfOk result (λ _. EntryAgrees inputs.now.low accumulator output.now) }
{
    let shift = shift_of(inputs, output);
    let Range { low, high } = LOW_DIFFERENCES;
    if shift < low {
        return Err(FilterFault::Limit(Key::OutputsLow, shift, low));
    }
    if shift > high {
        return Err(FilterFault::Limit(Key::OutputsLow, shift, high));
    }
    if output.width > accumulator {
        return Err(FilterFault::Limit(
            Key::OutputsWidth,
            i64::from(output.width),
            i64::from(accumulator),
        ));
    }
    Ok(())
}

/// The same of each output.
#[tactic(auto, unfolding(crate::specs::Ports::outputs_fit))]
pub(crate) fn outputs_fit(ports: &Ports, accumulator: u8) -> Result<(), FilterFault>
    ensures gives { result ≡ outputs_fit ports.now.inputs.low accumulator ports.now.outputs.items }
    ensures within { IfOk result (λ _. All (EntryAgrees ports.now.inputs.low accumulator) ports.now.outputs.items) }
{
    let inputs = &ports.inputs;
    let outputs = ports.outputs.as_slice();
    for output in outputs {
        output_fits(inputs, accumulator, output)?;
    }
    Ok(())
}
