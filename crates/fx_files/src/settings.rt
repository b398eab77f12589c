//! What a file says on the code that is to be made.

ghost use Rattle.std.specs.Prelude.{◌≡◌, IfOk};
ghost use Rattle.toml.specs.View.{table_view};
ghost use Rattle.fx_math.specs.Answers.{Gives};
ghost use Rattle.fx_keys.specs.Faults.{is_memory};
ghost use Rattle.fx_files.specs.Forms.{mode_word};
ghost use Rattle.fx_files.specs.Settings.{accumulator_in, is_listed, mode_in, settings_in, structure_in};
ghost use Rattle.fx_files.specs.Fits.{AccumulatorFits, SettingsFit};
ghost use Rattle.fx_files.specs.Inside.{settings_view};

use crate::forms::{Form, Structure};
use fx_eqs::Mode;
use fx_keys::{FilterFault, Key, integer_or, narrowed, natural_of, naturals_of, text_at, value_at};
use fx_math::is_accumulator;
use std::alloc::{AllocError, Global};
use toml::Table;

/// What is to be tried in making code.
#[derive(Drop)]
pub(crate) struct Settings {
    pub structure: Structure,
    pub rounding: Mode,
    pub accumulator: u8,
    pub word: u8,
    pub guards: Vec<u8>,
    pub fractions: Vec<u8>,
    pub lengths: Vec<u16>,
}

impl Settings {
    /// The same settings.
    pub(crate) fn copy(&self, alloc: Global) -> Result<Settings, AllocError>
        ensures { IfOk result (λ s. settings_view s ≡ settings_view self.now) }
    {
        Ok(Settings {
            structure: self.structure,
            rounding: self.rounding,
            accumulator: self.accumulator,
            word: self.word,
            guards: self.guards.to_vec(alloc)?,
            fractions: self.fractions.to_vec(alloc)?,
            lengths: self.lengths.to_vec(alloc)?,
        })
    }
}

fn structure_of(table: &Table, form: Form) -> Result<Structure, FilterFault>
    ensures { result ≡ structure_in form (table_view table.now) }
{
    let Some(value) = value_at(table, Key::Structure) else {
        return Ok(form.structure());
    };
    let word = text_at(value, Key::Structure)?;
    Structure::of_word(word).ok_or(FilterFault::UnknownWord(Key::Structure))
}

// How a word says that rows drop their low places.
fn mode_of_word(word: &str) -> Option<Mode>
    ensures { result ≡ mode_word word.now }
{
    match word {
        "nearest" => Some(Mode::Nearest),
        "floor" => Some(Mode::Floor),
        _ => None,
    }
}

fn mode_of(table: &Table) -> Result<Mode, FilterFault>
    ensures { result ≡ mode_in (table_view table.now) }
{
    let Some(value) = value_at(table, Key::Rounding) else {
        return Ok(Mode::Nearest);
    };
    let word = text_at(value, Key::Rounding)?;
    mode_of_word(word).ok_or(FilterFault::UnknownWord(Key::Rounding))
}

// Whether an accumulator may have so many bits.
fn is_listed(number: i64) -> bool
    ensures { result ≡ is_listed number }
{
    (0..=255).contains(&number) && is_accumulator(number as u8)
}

fn accumulator_of(table: &Table) -> Result<u8, FilterFault>
    ensures gives { result ≡ accumulator_in (table_view table.now) }
    ensures fits { IfOk result AccumulatorFits }
{
    let key = Key::Accumulator;
    let number = integer_or(table, key, key.default())?;
    if !is_listed(number) {
        return Err(FilterFault::Limit(key, number, key.range().high));
    }
    Ok(number.unsigned_abs() as u8)
}

/// The keys from `structure` on.
#[tactic(auto, unfolding(crate::specs::Settings::settings_in))]
pub(crate) fn settings_of(alloc: Global, table: &Table, form: Form) -> Result<Settings, FilterFault>
    ensures gives { Gives is_memory settings_view result (settings_in form (table_view table.now)) }
    ensures fits { IfOk result (λ s. SettingsFit (settings_view s)) }
{
    let structure = structure_of(table, form)?;
    let rounding = mode_of(table)?;
    let accumulator = accumulator_of(table)?;
    let word = natural_of(table, Key::Word)?;
    let guards = naturals_of(alloc, table, Key::Guards)?;
    let fractions = naturals_of(alloc, table, Key::Fractions)?;
    let lengths = naturals_of(alloc, table, Key::Lengths)?;
    Ok(Settings {
        structure,
        rounding,
        accumulator,
        word: word as u8,
        guards: narrowed(alloc, &guards)?,
        fractions: narrowed(alloc, &fractions)?,
        lengths,
    })
}
