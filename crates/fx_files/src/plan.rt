//! A filter of sections and a plan.

ghost use Rattle.std.specs.Prelude.{◌≡◌, IfOk};
ghost use Rattle.fx_files.specs.Inside.{ports_view, settings_view};
ghost use Rattle.fx_files.specs.Plan.{
  IsOfFiles,
  PlanFits,
  SectionsFit,
  filter_of_sections,
  ports_of,
  settings_of,
};

use crate::building::assembled;
use crate::coefficients::Coefficients;
use crate::filter::Filter;
use crate::formats::{InputFormat, OutputEntry};
use crate::forms::Structure;
use crate::ports::{Inputs, Ports};
use crate::settings::Settings;
use fx_eqs::Mode;
use fx_nums::Frac;
use std::alloc::{AllocError, Global};

/// What a file of one input and one output says beside its coefficients, with one entry in each list that is tried and
/// no key `rounding`. Each value is in the range of its key; the output's low position is at most 16 from the input's,
/// and its width is at most the accumulator's.
#[derive(Clone, Copy)]
pub struct Plan {
    /// The structure of the code that is to be made.
    pub structure: Structure,
    /// The low position of the input: a word counts multiples of `2^input_low`.
    pub input_low: i8,
    /// The words of the input.
    pub input: InputFormat,
    /// Bits of an output word.
    pub width: u8,
    /// The low position of the output: a word counts multiples of `2^low`.
    pub low: i8,
    /// The error that is allowed, in output steps of `2^low`: at least 0, over a power of ten.
    pub error: Frac,
    /// Bits of an accumulator.
    pub accumulator: u8,
    /// The most bits of an inner word.
    pub word: u8,
    /// Guard bits.
    pub guard: u8,
    /// Bits of a coefficient's fraction.
    pub fraction: u8,
    /// Moments of a block.
    pub length: u16,
}

impl Plan {
    // The one input and the one output.
    fn ports(&self, alloc: Global) -> Result<Ports, AllocError>
        ensures { IfOk result (λ p. ports_view p ≡ ports_of self.now) }
    {
        let output = OutputEntry {
            width: self.width,
            low: self.low,
            error: self.error,
        };
        let inputs = Inputs {
            low: self.input_low,
            formats: [self.input].to_vec(alloc)?,
        };
        Ok(Ports {
            inputs,
            outputs: [output].to_vec(alloc)?,
        })
    }

    // What is to be tried, with rows that round to the nearest.
    fn settings(&self, alloc: Global) -> Result<Settings, AllocError>
        ensures { IfOk result (λ s. settings_view s ≡ settings_of self.now) }
    {
        Ok(Settings {
            structure: self.structure,
            rounding: Mode::Nearest,
            accumulator: self.accumulator,
            word: self.word,
            guards: [self.guard].to_vec(alloc)?,
            fractions: [self.fraction].to_vec(alloc)?,
            lengths: [self.length].to_vec(alloc)?,
        })
    }
}

impl Filter {
    /// The filter of form `sos` that a file with these values gives, with the coefficients as they are handed in: one
    /// to eight sections of six, b0 b1 b2 a0 a1 a2, each over a power of ten, a0 being 1. Its error is want of memory.
    pub fn of_sections(alloc: Global, sections: &[Frac], plan: Plan) -> Result<Filter, AllocError>
        requires sections { SectionsFit sections.now }
        requires plan { PlanFits plan }
        ensures value { IfOk result (λ f. f ≡ filter_of_sections sections.now plan) }
        ensures of_files { IfOk result (IsOfFiles sections.now plan) }
    {
        let ports = plan.ports(alloc)?;
        let settings = plan.settings(alloc)?;
        let coefficients = Coefficients::cascade(sections.to_vec(alloc)?);
        assembled(alloc, ports, coefficients, settings)
    }
}
