ghost use Rattle.std.specs.Prelude.{◌≡◌, ◌<◌, ◌≤◌, Some, IsSome, IfOk, length, map, All, slice_index_or};
ghost use Rattle.fx_math.specs.Words.{WidthFits};
ghost use Rattle.fx_nums.specs.Fraction.{OverTen};
ghost use Rattle.fx_keys.specs.Fits.{NaturalsFit};
ghost use Rattle.fx_keys.specs.Keys.{IsWithin};
ghost use Rattle.fx_keys.specs.declared.key.Key.TheVariants as key;
ghost use Rattle.fx_files.specs.Building.{equations_of};
ghost use Rattle.fx_files.specs.Coefficients.{coefficients_of, form_of, list_of};
ghost use Rattle.fx_files.specs.Fits.{AccumulatorFits, FilterFits, InputFits, OutputFits};
ghost use Rattle.fx_files.specs.Forms.{own_keys};

use crate::coefficients::Coefficients;
use crate::formats::{InputFormat, OutputFormat};
use crate::forms::{Form, Structure};
use crate::ports::Inputs;
use crate::settings::Settings;
use fx_eqs::{Eqs, Mode, PORTS};
use fx_keys::{Key, LOWS};
use fx_nums::Frac;
use std::alloc::{AllocError, Global};
use std::marker::Model;

/// A filter: its equations, the formats of its words, and what is to be tried in making its code.
#[derive(Drop)]
pub struct Filter {
    pub(crate) inputs: Inputs,
    pub(crate) outputs: Vec<OutputFormat>,
    pub(crate) coefficients: Coefficients,
    pub(crate) settings: Settings,
    pub(crate) eqs: Eqs,
}

impl Model for Filter {
    ghost use Rattle.fx_files.specs.Filter as filter;

    ghost Value = { filter.Filter };

    ghost use Rattle.fx_files.specs.Inside.{filter_view, IsKept};

    ghost view = { filter_view };

    ghost invariant = { IsKept };
}

impl Filter {
    /// The form in which the file gives the filter.
    pub fn form(&self) -> Form
        ensures value { result ≡ form_of self.now.coefficients }
        ensures lists { All (λ key. IsSome (list_of key self.now.coefficients)) (own_keys result) }
    {
        self.coefficients.form()
    }

    /// The structure of the code that is to be made.
    pub fn structure(&self) -> Structure
        ensures { result ≡ self.now.settings.structure }
    {
        self.settings.structure
    }

    /// How each row of the code drops its low places.
    pub fn mode(&self) -> Mode
        ensures { result ≡ self.now.settings.rounding }
    {
        self.settings.rounding
    }

    /// The equations, which are the textbook's for the form and its coefficients. Each coefficient is over a power of
    /// ten; the rows put out are those of the outputs.
    pub fn eqs(&self) -> &Eqs
        ensures value { result.now ≡ self.now.equations }
        ensures textbook { result.now
            ≡ equations_of (length self.now.inputs) (length self.now.outputs) self.now.coefficients }
        ensures inputs { result.now.inputs ≡ length self.now.inputs }
        ensures outputs { result.now.outputs ≡ map (λ o. o.row) self.now.outputs }
        ensures over_ten { All (λ t. OverTen t.coef) result.now.terms }
    {
        &self.eqs
    }

    /// The low position that all inputs share, -64 to 63: an input word counts multiples of `2^low`.
    pub fn input_low(&self) -> i8
        ensures value { result ≡ self.now.input_low }
        ensures within { IsWithin LOWS result }
    {
        self.inputs.low
    }

    /// The inputs: 1 to 4.
    pub fn inputs(&self) -> &[InputFormat]
        ensures value { result.now ≡ self.now.inputs }
        ensures low { 1 ≤ length result.now }
        ensures high { length result.now ≤ PORTS }
        ensures fits { All InputFits result.now }
    {
        &self.inputs.formats
    }

    /// The outputs: 1 to 4, one for each row that the equations put out.
    pub fn outputs(&self) -> &[OutputFormat]
        ensures value { result.now ≡ self.now.outputs }
        ensures low { 1 ≤ length result.now }
        ensures high { length result.now ≤ PORTS }
        ensures fits { All (OutputFits self.now.input_low self.now.settings.accumulator) result.now }
    {
        &self.outputs
    }

    /// Input `j`.
    pub fn input(&self, j: usize) -> InputFormat
        requires { j < length self.now.inputs }
        ensures value { result ≡ slice_index_or self.now.inputs j result }
        ensures fits { InputFits result }
    {
        self.inputs.formats[j]
    }

    /// Output `j`.
    pub fn output(&self, j: usize) -> OutputFormat
        requires { j < length self.now.outputs }
        ensures value { result ≡ slice_index_or self.now.outputs j result }
        ensures fits { OutputFits self.now.input_low self.now.settings.accumulator result }
    {
        self.outputs[j]
    }

    /// Bits of an accumulator: 16, 32 or 64.
    pub fn accumulator(&self) -> u8
        ensures value { result ≡ self.now.settings.accumulator }
        ensures fits { AccumulatorFits result }
    {
        self.settings.accumulator
    }

    /// The most bits of an inner word: 2 to 32.
    pub fn word(&self) -> u8
        ensures value { result ≡ self.now.settings.word }
        ensures fits { WidthFits result }
    {
        self.settings.word
    }

    /// Counts of guard bits, in the order in which they are to be tried: 1 to 8 numbers from 0 to 16.
    pub fn guards(&self) -> &[u8]
        ensures value { result.now ≡ self.now.settings.guards }
        ensures fits { NaturalsFit key.Guards result.now }
    {
        &self.settings.guards
    }

    /// Counts of bits of a coefficient's fraction, in the order in which they are to be tried: 1 to 8 numbers from 1
    /// to 40.
    pub fn fractions(&self) -> &[u8]
        ensures value { result.now ≡ self.now.settings.fractions }
        ensures fits { NaturalsFit key.Fractions result.now }
    {
        &self.settings.fractions
    }

    /// Counts of moments, in the order in which they are to be tried: 1 to 8 numbers from 1 to 4096.
    pub fn lengths(&self) -> &[u16]
        ensures value { result.now ≡ self.now.settings.lengths }
        ensures fits { NaturalsFit key.Lengths result.now }
    {
        &self.settings.lengths
    }

    /// The coefficients of all keys of the form, key after key, each over a power of ten.
    pub fn coefficients(&self) -> &[Frac]
        ensures value { result.now ≡ coefficients_of self.now.coefficients }
        ensures over_ten { All OverTen result.now }
    {
        self.coefficients.all()
    }

    /// The coefficients of one key of the form, row after row, each over a power of ten.
    pub fn list(&self, key: Key) -> &[Frac]
        requires { IsSome (list_of key self.now.coefficients) }
        ensures value { Some result.now ≡ list_of key self.now.coefficients }
        ensures over_ten { All OverTen result.now }
    {
        match self.coefficients.list(key) {
            Some(list) => list,
            None => unreachable!(),
        }
    }

    /// An equal filter. Its error is want of memory.
    pub fn copy(&self, alloc: Global) -> Result<Filter, AllocError>
        ensures { IfOk result (λ f. f ≡ self.now) }
    {
        let inputs = self.inputs.copy(alloc)?;
        let outputs = self.outputs.to_vec(alloc)?;
        Ok(Filter {
            inputs,
            outputs,
            coefficients: self.coefficients.copy(alloc)?,
            settings: self.settings.copy(alloc)?,
            eqs: self.eqs.copy(alloc)?,
        })
    }
}

/// A law with nothing to run: each filter keeps the limits.
pub fn filters_fit(filter: &Filter)
    ensures { FilterFits filter.now }
{
    let _ = &filter.coefficients;
}
