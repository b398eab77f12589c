ghost use Rattle.std.specs.Prelude.{◌≡◌, ◌+◌, ◌<◌, ◌≤◌, ◌^◌, length, IfOk};
ghost use Rattle.fx_net.specs.Rows.{AreEmpty, put_rows};
ghost use Rattle.fx_net.specs.Run.{IsDenominator};
ghost use Rattle.fx_net.specs.Running.{widest};
ghost use Rattle.fx_net.specs.Tables.{net_of};
ghost use Rattle.fx_math.specs.Answers.{fault_told};
ghost use Rattle.fx_sif.specs.Faults.{is_memory, sif_fault};
ghost use Rattle.fx_sif.specs.Fits.{CoefficientsFit, ImplicitFits};
ghost use Rattle.fx_sif.specs.Laws.{NeverRefused};
ghost use Rattle.fx_sif.specs.Implicit.{Implicit, entry_of, given_or, not_given, rows};
ghost use Rattle.fx_sif.specs.Rows.{rows_of};
ghost use Rattle.fx_sif.specs.SameOutputs.{net_alone};

use crate::checks::{is_at, sif_fault};
use crate::fault::SifFault;
use crate::limits::FORM_ROWS;
use crate::parts::{Block, Entry, Sizes};
use crate::rows::put_entries;
use fx_eqs::PORTS;
use fx_net::Net;
use fx_nums::Frac;
use std::alloc::{AllocError, Global};
use std::marker::Model;

/// A filter in the Specialized Implicit Form (SIF), by Hilaire, Chevrel and Whidborne. J is lower triangular
/// with ones on its diagonal, so the intermediate variables are computed one after the other. Each form keeps
/// the limits that its making tests.
#[derive(Drop)]
pub struct Sif {
    sizes: Sizes,
    entries: Vec<Entry>,
}

impl Model for Sif {
    ghost use Rattle.fx_sif.specs.Implicit.{Implicit};

    ghost Value = { Implicit };

    ghost use Rattle.fx_sif.specs.Inside.{form_of};
    ghost use Rattle.fx_sif.specs.Fits.{ImplicitFits};

    ghost view = { form_of };

    ghost invariant = { λ s. ImplicitFits (form_of s) };
}

// What stands where nothing was given.
fn not_given(sizes: Sizes, block: Block, i: usize, j: usize) -> Frac
    ensures { result ≡ not_given sizes block i j }
{
    if block == Block::J && i == j && i < usize::from(sizes.t) {
        Frac::one()
    } else {
        Frac::zero()
    }
}

// The coefficient of the first entry in a place; the one that is passed where there is none.
fn given_or(missing: Frac, block: Block, i: usize, j: usize, entries: &[Entry]) -> Frac
    ensures { result ≡ given_or missing block i j entries.now }
{
    for entry in entries {
        if is_at(block, i, j, entry) {
            return entry.coef;
        }
    }
    missing
}

impl Sif {
    /// The form of these counts and entries. What is not given is 1 on the diagonal of J and 0 elsewhere.
    ///
    /// Its error is the first fault, of the counts and then entry by entry, and `NoMemory` only where there is none.
    pub fn build(alloc: Global, sizes: Sizes, entries: &[Entry]) -> Result<Sif, SifFault>
        requires entries { length entries.now < 2 ^ 32 }
        ensures ok { IfOk result (λ s. s ≡ record { sizes = sizes; entries = entries.now }) }
        ensures fault { sif_fault sizes entries.now ≡ fault_told is_memory result }
    {
        if let Some(fault) = sif_fault(sizes, entries) {
            return Err(fault);
        }
        let Ok(entries) = entries.to_vec(alloc) else {
            return Err(SifFault::NoMemory);
        };
        Ok(Sif { sizes, entries })
    }

    /// The form of counts and entries that are never refused. Its error is want of memory.
    pub fn build_unrefused(
        alloc: Global,
        sizes: Sizes,
        entries: &[Entry],
    ) -> Result<Sif, AllocError>
        requires { NeverRefused (record { sizes = sizes; entries = entries.now }) }
        ensures { IfOk result (λ s. s ≡ record { sizes = sizes; entries = entries.now }) }
    {
        match Sif::build(alloc, sizes, entries) {
            Ok(form) => Ok(form),
            Err(SifFault::NoMemory) => Err(AllocError),
            Err(_) => unreachable!(),
        }
    }

    /// How many intermediate variables, states, inputs and outputs there are: 1 to `PORTS` inputs and outputs.
    pub fn sizes(&self) -> Sizes
        ensures value { result ≡ self.now.sizes }
        ensures inputs_low { 1 ≤ result.u }
        ensures inputs_high { result.u ≤ PORTS }
        ensures outputs_low { 1 ≤ result.y }
        ensures outputs_high { result.y ≤ PORTS }
        ensures rows_high { rows result ≤ FORM_ROWS }
    {
        self.sizes
    }

    /// How many rows there are, one for each intermediate variable, each state and each output: 1 to `FORM_ROWS`.
    pub fn rows(&self) -> usize
        ensures value { result ≡ rows self.now.sizes }
        ensures low { 1 ≤ result }
        ensures high { result ≤ FORM_ROWS }
    {
        usize::from(self.sizes.t) + usize::from(self.sizes.x) + usize::from(self.sizes.y)
    }

    /// The coefficient in row `i` and column `j` of a block, as it was given. What was not given is 1 over 10^0 on the
    /// diagonal of J, else 0 over 10^0; so is what lies outside the block.
    pub fn entry(&self, block: Block, i: usize, j: usize) -> Frac
        ensures { result ≡ entry_of self.now block i j }
    {
        given_or(
            not_given(self.sizes, block, i, j),
            block,
            i,
            j,
            &self.entries,
        )
    }

    /// Writes the rows of the form into a net, from row `at` on: the intermediate variables, then the states behind the
    /// moment, then the outputs. A state is read as the row's value of the moment before. The rows have to fit into the
    /// net, and to be empty there; the other rows stay.
    pub fn put_net<const N: usize>(&self, net: &mut Net<N>, at: usize)
        requires room { at + rows self.now.sizes ≤ N }
        requires empty { AreEmpty at (rows self.now.sizes) (net_of net.old) }
        ensures { net_of net.new ≡ put_rows (rows_of self.now) at (net_of net.old) }
    {
        put_entries(self.sizes, &self.entries, net, at);
    }

    /// An equal form. Its error is want of memory.
    pub fn copy(&self, alloc: Global) -> Result<Sif, AllocError>
        ensures { IfOk result (λ s. s ≡ self.now) }
    {
        Ok(Sif {
            sizes: self.sizes,
            entries: self.entries.to_vec(alloc)?,
        })
    }
}

/// A law with nothing to run: each form keeps the limits.
pub fn forms_fit(form: &Sif)
    ensures { ImplicitFits form.now }
{
    let _ = &form.sizes;
}

// A law that only reads: each coefficient has a denominator that a fraction may have.
fn coefficients_fit(entries: &[Entry])
    ensures { CoefficientsFit entries.now }
{
    for entry in entries {
        let _ = entry.coef.num();
    }
}

/// A law that only reads: 2^62 * 10^28 is a denominator of each form's net alone, since each coefficient is a fraction
/// over a power of two up to 2^62 or of ten up to 10^28.
pub fn forms_have_a_denominator(form: &Sif)
    ensures { IsDenominator (net_alone form.now) widest }
{
    coefficients_fit(&form.entries);
}
