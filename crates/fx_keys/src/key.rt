//! The keys of a filter file.

use crate::limits::{
    ACCUMULATOR_WIDTHS, BOUNDS, DEFAULT_FRACTIONS, DEFAULT_GUARDS, DEFAULT_LENGTHS, FRACTIONS,
    GUARDS, LENGTHS, LIST_ENTRIES, LOWS, NO_NUMBERS, Range, WIDTHS,
};
use fx_eqs::{COEFFICIENTS, PORTS, REFLECTIONS, SECTIONS, STATES};
use fx_math::GREATEST_WIDTH;
use std::marker::Model;

/// The keys of a filter file.
#[derive(Clone, Copy)]
pub enum Key {
    Form,
    InputLow,
    Inputs,
    InputsWidth,
    InputsBound,
    Outputs,
    OutputsWidth,
    OutputsLow,
    OutputsError,
    /// `b`, the numerator of a transfer function.
    B,
    /// `a`, its denominator.
    A,
    Sections,
    /// `A`, a matrix of a state space, as are the next three.
    MatA,
    MatB,
    MatC,
    MatD,
    /// `k`, the reflection coefficients of a lattice.
    K,
    /// `v`, its taps.
    V,
    Structure,
    Rounding,
    Accumulator,
    Word,
    Guards,
    Fractions,
    Lengths,
}

impl Key {
    ghost use Rattle.std.specs.Prelude.{◌≡◌, IfSome, option_map};
    ghost use Rattle.fx_keys.specs.Fits.{NaturalsFit};
    ghost use Rattle.fx_keys.specs.Keys.{default_list_of, default_of, most_of, own_name, parent_of, range_of};

    /// The key as its table spells it.
    pub fn own_name(self) -> &'static str
        ensures { result.now ≡ own_name self }
    {
        match self {
            Key::Form => "form",
            Key::InputLow => "input_low",
            Key::Inputs => "inputs",
            Key::InputsWidth => "width",
            Key::InputsBound => "bound",
            Key::Outputs => "outputs",
            Key::OutputsWidth => "width",
            Key::OutputsLow => "low",
            Key::OutputsError => "error",
            Key::B => "b",
            Key::A => "a",
            Key::Sections => "sections",
            Key::MatA => "A",
            Key::MatB => "B",
            Key::MatC => "C",
            Key::MatD => "D",
            Key::K => "k",
            Key::V => "v",
            Key::Structure => "structure",
            Key::Rounding => "rounding",
            Key::Accumulator => "accumulator",
            Key::Word => "word",
            Key::Guards => "guards",
            Key::Fractions => "fractions",
            Key::Lengths => "lengths",
        }
    }

    /// The key of the list whose tables have this one; None for a key of the file's own table. A fault prints it
    /// before the key, with a point between them.
    pub fn parent(self) -> Option<Key>
        ensures { result ≡ parent_of self }
    {
        match self {
            Key::InputsWidth | Key::InputsBound => Some(Key::Inputs),
            Key::OutputsWidth | Key::OutputsLow | Key::OutputsError => Some(Key::Outputs),
            _ => None,
        }
    }

    /// The whole numbers that stand at the key or in its list: none at other keys.
    pub fn range(self) -> Range
        ensures { result ≡ range_of self }
    {
        match self {
            Key::InputLow | Key::OutputsLow => LOWS,
            Key::InputsWidth | Key::OutputsWidth | Key::Word => WIDTHS,
            Key::InputsBound => BOUNDS,
            Key::Accumulator => ACCUMULATOR_WIDTHS,
            Key::Guards => GUARDS,
            Key::Fractions => FRACTIONS,
            Key::Lengths => LENGTHS,
            _ => NO_NUMBERS,
        }
    }

    /// The most entries of the key's list; 0 where another key fixes their count, and for keys with no list.
    pub fn most(self) -> usize
        ensures { result ≡ most_of self }
    {
        match self {
            Key::Inputs | Key::Outputs => PORTS,
            Key::B | Key::A => COEFFICIENTS,
            Key::Sections => SECTIONS,
            Key::MatA => STATES,
            Key::K => REFLECTIONS,
            Key::Guards | Key::Fractions | Key::Lengths => LIST_ENTRIES,
            _ => 0,
        }
    }

    /// The whole number that holds where the key is absent. None where the key has to be there, or where another key
    /// has its default.
    pub fn default(self) -> Option<i64>
        ensures { result ≡ default_of self }
    {
        match self {
            Key::InputLow => Some(0),
            Key::Accumulator => Some(ACCUMULATOR_WIDTHS.high),
            Key::Word => Some(i64::from(GREATEST_WIDTH)),
            _ => None,
        }
    }

    /// The whole numbers that hold where the key is absent. None for keys with no list of them.
    pub fn default_list(self) -> Option<&'static [u16]>
        ensures value { option_map (λ s. s.now) result ≡ default_list_of self }
        ensures within { IfSome result (λ s. NaturalsFit self s.now) }
    {
        match self {
            Key::Guards => Some(&DEFAULT_GUARDS),
            Key::Fractions => Some(&DEFAULT_FRACTIONS),
            Key::Lengths => Some(&DEFAULT_LENGTHS),
            _ => None,
        }
    }
}

/// The bytes of a key that the table where it stands may not have.
#[derive(Drop)]
pub struct KeyText {
    text: Vec<u8>,
}

impl Model for KeyText {
    ghost use Rattle.std.specs.Prelude.{List, ℕ};

    ghost Value = { List ℕ };

    ghost view = { λ k. k.text.items };
}

impl KeyText {
    ghost use Rattle.std.specs.Prelude.{◌≡◌};

    /// The bytes, as they stand in the key.
    pub fn bytes(&self) -> &[u8]
        ensures { result.now ≡ self.now }
    {
        self.text.as_slice()
    }

    pub(crate) fn new(text: Vec<u8>) -> KeyText
        ensures { result ≡ text.items }
    {
        KeyText { text }
    }
}
