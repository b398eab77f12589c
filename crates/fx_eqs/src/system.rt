ghost use Rattle.std.specs.Prelude.{◌≡◌, ◌<◌, ◌≤◌, ◌^◌, length, All, IfOk};
ghost use Rattle.fx_eqs.specs.Equations.{Equations, kept};
ghost use Rattle.fx_eqs.specs.Expanded.{expanded};
ghost use Rattle.fx_math.specs.Answers.{fault_told};
ghost use Rattle.fx_eqs.specs.Faults.{eqs_fault, is_memory};
ghost use Rattle.fx_eqs.specs.Fits.{EquationsFit, TermFits};
ghost use Rattle.fx_eqs.specs.Lags.{greatest_lag, net_rows};

use crate::checks::{eqs_fault, greatest_lag, kept_terms, net_rows};
use crate::fault::EqsFault;
use crate::limits::{EQUATION_TERMS, LONGEST_LAG, NET_ROWS, PORTS};
use crate::term::{Source, Term};
use std::alloc::{AllocError, Global};
use std::marker::Model;

/// Rows of equations with a constant count of rows and inputs. Each system keeps the limits that its making tests.
#[derive(Drop)]
pub struct Eqs {
    rows: usize,
    inputs: usize,
    terms: Vec<Term>,
    outputs: Vec<u8>,
    net_rows: usize,
}

impl Model for Eqs {
    ghost use Rattle.fx_eqs.specs.Equations.{Equations};

    ghost Value = { Equations };

    ghost use Rattle.fx_eqs.specs.Inside.{equations_of, IsKept};

    ghost view = { equations_of };

    ghost invariant = { IsKept };
}

impl Eqs {
    /// The system of the terms with a coefficient other than 0, in their order. The others are dropped before any
    /// check.
    ///
    /// At most 256 rows, 1 to `PORTS` inputs, and fewer than 2^32 terms; 1 to `PORTS` outputs, each below the count of
    /// rows where there are rows.
    ///
    /// Its error is the first fault, term by term and then of the counts, and `NoMemory` only where there is none.
    pub fn build(
        alloc: Global,
        rows: usize,
        inputs: usize,
        terms: &[Term],
        outputs: &[u8],
    ) -> Result<Eqs, EqsFault>
        requires rows { rows ≤ 256 }
        requires terms { length terms.now < 2 ^ 32 }
        requires inputs_low { 1 ≤ inputs }
        requires inputs_high { inputs ≤ PORTS }
        requires outputs_low { 1 ≤ length outputs.now }
        requires outputs_high { length outputs.now ≤ PORTS }
        requires outputs_below { 1 ≤ rows → All (λ o. o < rows) outputs.now }
        ensures ok { IfOk result (λ s. s ≡ record {
          rows = rows;
          inputs = inputs;
          terms =
              kept terms.now;
          outputs = outputs.now;
        }) }
        ensures fault { eqs_fault rows inputs terms.now ≡ fault_told is_memory result }
    {
        if let Some(fault) = eqs_fault(rows, inputs, terms) {
            return Err(fault);
        }
        let kept = kept_terms(alloc, terms)?;
        let outputs = outputs.to_vec(alloc)?;
        Ok(Eqs {
            rows,
            inputs,
            terms: kept,
            outputs,
            net_rows: net_rows(rows, inputs, terms),
        })
    }

    /// How many rows there are: 1 to `NET_ROWS`.
    pub fn rows(&self) -> usize
        ensures value { result ≡ self.now.rows }
        ensures low { 1 ≤ result }
        ensures high { result ≤ NET_ROWS }
    {
        self.rows
    }

    /// How many inputs there are: 1 to `PORTS`.
    pub fn inputs(&self) -> usize
        ensures value { result ≡ self.now.inputs }
        ensures low { 1 ≤ result }
        ensures high { result ≤ PORTS }
    {
        self.inputs
    }

    /// The rows that are put out, in the order of the outputs: 1 to `PORTS`, each below the count of rows.
    pub fn outputs(&self) -> &[u8]
        ensures value { result.now ≡ self.now.outputs }
        ensures low { 1 ≤ length result.now }
        ensures high { length result.now ≤ PORTS }
        ensures fits { All (λ o. o < self.now.rows) result.now }
    {
        &self.outputs
    }

    /// The terms in their order: at most `EQUATION_TERMS`.
    pub fn terms(&self) -> &[Term]
        ensures value { result.now ≡ self.now.terms }
        ensures high { length result.now ≤ EQUATION_TERMS }
        ensures fits { All (TermFits self.now.rows self.now.inputs) result.now }
    {
        &self.terms
    }

    /// How many rows the expanded net has: at most `NET_ROWS`. Each of its rows reads rows of this moment or of the
    /// one before, and inputs of this moment.
    pub fn net_rows(&self) -> usize
        ensures value { result ≡ length (expanded self.now) }
        ensures count { result ≡ net_rows self.now.rows self.now.inputs self.now.terms }
        ensures low { self.now.rows ≤ result }
        ensures high { result ≤ NET_ROWS }
    {
        self.net_rows
    }

    /// The greatest lag at which the terms read a source: at most `LONGEST_LAG`, and 0 where none does.
    pub fn greatest_lag(&self, source: Source) -> usize
        ensures value { result ≡ greatest_lag source self.now.terms }
        ensures high { result ≤ LONGEST_LAG }
    {
        greatest_lag(source, &self.terms)
    }

    /// An equal system. Its error is want of memory.
    pub fn copy(&self, alloc: Global) -> Result<Eqs, AllocError>
        ensures { IfOk result (λ s. s ≡ self.now) }
    {
        Ok(Eqs {
            rows: self.rows,
            inputs: self.inputs,
            terms: self.terms.to_vec(alloc)?,
            outputs: self.outputs.to_vec(alloc)?,
            net_rows: self.net_rows,
        })
    }
}

/// A law with nothing to run: each system keeps the limits.
pub fn systems_fit(system: &Eqs)
    ensures { EquationsFit system.now }
{
    let _ = &system.rows;
}
