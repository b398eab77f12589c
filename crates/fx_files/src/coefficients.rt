//! The coefficients of a filter.

ghost use Rattle.std.specs.Prelude.{◌≡◌, All, IfOk, IfSome, option_map};
ghost use Rattle.fx_files.specs.Coefficients as coefficients;
ghost use Rattle.fx_files.specs.Coefficients.{coefficients_of, form_of, list_of};
ghost use Rattle.fx_files.specs.Fits.{EachOverTen};
ghost use Rattle.fx_files.specs.Inside.{lists_view};
ghost use Rattle.fx_nums.specs.Fraction.{OverTen};

use crate::forms::Form;
use fx_keys::Key;
use fx_nums::Frac;
use std::alloc::{AllocError, Global};
use std::marker::Model;

/// Where the lists of a form end in the list of all coefficients; of a state space its count of states stands first.
#[derive(Clone, Copy)]
pub(crate) enum Ends {
    Tf(usize),
    Sos,
    Ss(usize, usize, usize, usize),
    Lattice(usize),
}

/// The lists of a form, of a state space with its count of states.
#[derive(Clone, Copy)]
pub(crate) enum Lists<'a> {
    Tf(&'a [Frac], &'a [Frac]),
    Sos(&'a [Frac]),
    Ss(usize, &'a [Frac], &'a [Frac], &'a [Frac], &'a [Frac]),
    Lattice(&'a [Frac], &'a [Frac]),
}

/// The coefficients of a form, one list behind the other.
#[derive(Drop)]
pub(crate) struct Coefficients {
    ends: Ends,
    all: Vec<Frac>,
}

impl Model for Coefficients {
    ghost use Rattle.fx_files.specs.Coefficients as coefficients;

    ghost Value = { coefficients.Coefficients };

    ghost use Rattle.fx_files.specs.Inside.{AreOrdered, cut};

    ghost view = { λ c. cut c.all.items c.ends };

    ghost invariant = { λ c. AreOrdered c.all.items c.ends };
}

impl Coefficients {
    /// Those of a transfer function: its numerator and its denominator.
    pub(crate) fn transfer(b: Vec<Frac>, a: &[Frac]) -> Result<Coefficients, AllocError>
        ensures { IfOk result (λ c. c ≡ coefficients.Tf b.items a.now) }
    {
        let mut all = b;
        let end = all.len();
        all.extend_from_slice(a)?;
        Ok(Coefficients {
            ends: Ends::Tf(end),
            all,
        })
    }

    /// Those of sections, one behind the other.
    pub(crate) fn cascade(sections: Vec<Frac>) -> Coefficients
        ensures { result ≡ coefficients.Sos sections.items }
    {
        Coefficients {
            ends: Ends::Sos,
            all: sections,
        }
    }

    /// Those of a state space: its count of states and its four matrices.
    pub(crate) fn space(
        states: usize,
        a: Vec<Frac>,
        b: &[Frac],
        c: &[Frac],
        d: &[Frac],
    ) -> Result<Coefficients, AllocError>
        ensures { IfOk result (λ s. s ≡ coefficients.Ss states a.items b.now c.now d.now) }
    {
        let mut all = a;
        let first = all.len();
        all.extend_from_slice(b)?;
        let second = all.len();
        all.extend_from_slice(c)?;
        let third = all.len();
        all.extend_from_slice(d)?;
        Ok(Coefficients {
            ends: Ends::Ss(states, first, second, third),
            all,
        })
    }

    /// Those of a lattice: its reflection coefficients and its taps.
    pub(crate) fn lattice(k: Vec<Frac>, v: &[Frac]) -> Result<Coefficients, AllocError>
        ensures { IfOk result (λ c. c ≡ coefficients.Lattice k.items v.now) }
    {
        let mut all = k;
        let end = all.len();
        all.extend_from_slice(v)?;
        Ok(Coefficients {
            ends: Ends::Lattice(end),
            all,
        })
    }

    /// The form that has these lists.
    pub(crate) fn form(&self) -> Form
        ensures { result ≡ form_of self.now }
    {
        match self.ends {
            Ends::Tf(_) => Form::Tf,
            Ends::Sos => Form::Sos,
            Ends::Ss(..) => Form::Ss,
            Ends::Lattice(_) => Form::Lattice,
        }
    }

    /// All coefficients, list behind list.
    pub(crate) fn all(&self) -> &[Frac]
        ensures { result.now ≡ coefficients_of self.now }
    {
        &self.all
    }

    /// The lists.
    #[tactic(auto, using(crate::proofs::ListsOverTen::each_over_ten))]
    pub(crate) fn lists(&self) -> Lists<'_>
        requires { All OverTen (coefficients_of self.now) }
        ensures value { lists_view result ≡ self.now }
        ensures over_ten { EachOverTen self.now }
    {
        match self.ends {
            Ends::Tf(end) => Lists::Tf(&self.all[..end], &self.all[end..]),
            Ends::Sos => Lists::Sos(&self.all),
            Ends::Ss(states, first, second, third) => Lists::Ss(
                states,
                &self.all[..first],
                &self.all[first..second],
                &self.all[second..third],
                &self.all[third..],
            ),
            Ends::Lattice(end) => Lists::Lattice(&self.all[..end], &self.all[end..]),
        }
    }

    /// The list of a key, where there is one.
    pub(crate) fn list(&self, key: Key) -> Option<&[Frac]>
        requires { All OverTen (coefficients_of self.now) }
        ensures value { option_map (λ s. s.now) result ≡ list_of key self.now }
        ensures over_ten { IfSome result (λ s. All OverTen s.now) }
    {
        match (self.lists(), key) {
            (Lists::Tf(b, _), Key::B) => Some(b),
            (Lists::Tf(_, a), Key::A) => Some(a),
            (Lists::Sos(sections), Key::Sections) => Some(sections),
            (Lists::Ss(_, a, _, _, _), Key::MatA) => Some(a),
            (Lists::Ss(_, _, b, _, _), Key::MatB) => Some(b),
            (Lists::Ss(_, _, _, c, _), Key::MatC) => Some(c),
            (Lists::Ss(_, _, _, _, d), Key::MatD) => Some(d),
            (Lists::Lattice(k, _), Key::K) => Some(k),
            (Lists::Lattice(_, v), Key::V) => Some(v),
            _ => None,
        }
    }

    /// The same coefficients.
    pub(crate) fn copy(&self, alloc: Global) -> Result<Coefficients, AllocError>
        ensures { IfOk result (λ c. c ≡ self.now) }
    {
        Ok(Coefficients {
            ends: self.ends,
            all: self.all.to_vec(alloc)?,
        })
    }
}
