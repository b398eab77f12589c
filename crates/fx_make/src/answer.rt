//! What is made for a filter.

ghost use Rattle.std.specs.Prelude.{◌≡◌};
ghost use Rattle.fx_make.specs.declared.answer.MakeFault.TheVariants.{NoMemory};

use crate::fail::Failed;
use crate::refusal::StructureFault;
use fx_cert::Cert;
use fx_code::Program;
use std::alloc::{AllocError, AllocFailed};
use std::marker::Model;

/// A program for a filter, its certificate, and the candidate that they are of.
#[derive(Drop)]
pub struct Made {
    /// The program.
    pub program: Program,
    /// Its certificate.
    pub cert: Cert,
    /// Guard bits of the rows that are not put out: 0 to 16.
    pub guard: u8,
    /// Bits of a coefficient's fraction: 1 to 40.
    pub fraction: u8,
    /// Moments of a sweep: 1 to 4096.
    pub length: u16,
}

/// The failure of each candidate, in their order.
#[derive(Drop)]
pub struct Fails {
    pub(crate) list: Vec<Failed>,
}

impl Model for Fails {
    ghost use Rattle.std.specs.Prelude.{List};
    ghost use Rattle.fx_make.specs.declared.fail.Failed.{Failed};

    ghost Value = { List Failed };

    ghost view = { λ f. f.list.items };
}

impl Fails {
    /// The failures.
    pub fn list(&self) -> &[Failed]
        ensures { result.now ≡ self.now }
    {
        &self.list
    }
}

/// Why nothing is made for a filter.
#[derive(Drop)]
pub enum MakeFault {
    /// There is no form of the structure that it asks for. It is never want of memory.
    Unbuildable(StructureFault),
    /// Each candidate fails.
    NoDesign(Fails),
    /// Memory was refused.
    NoMemory,
}

impl From<AllocError> for MakeFault {
    ghost from_gives = { λ _ e. e ≡ NoMemory };

    fn from(_e: AllocError) -> MakeFault {
        MakeFault::NoMemory
    }
}

impl<T: Drop> From<AllocFailed<T>> for MakeFault {
    ghost from_gives = { λ _ e. e ≡ NoMemory };

    fn from(_e: AllocFailed<T>) -> MakeFault {
        MakeFault::NoMemory
    }
}
