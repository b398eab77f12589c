ghost use Rattle.std.specs.Prelude.{◌≡◌};
ghost use Rattle.fx_make.specs.Structures.{refusal_of};
ghost use Rattle.fx_make.specs.declared.refusal.StructureFault.TheVariants.{NoMemory};

use fx_files::{Form, Structure};
use fx_lattice::Step;
use fx_nums::Iv;
use std::alloc::AllocError;

/// Why a filter has no implicit form of the structure that it asks for.
#[derive(Clone, Copy)]
pub enum StructureFault {
    /// Filters of this form have no such structure.
    NotListed(Form, Structure),
    /// A structure without feedback, for a denominator of so many coefficients.
    NotFir(usize),
    /// A lattice for a transfer function whose order, the first number, is above the second, the greatest of a lattice.
    Order(usize, usize),
    /// In the step of this number, from the order down to 1, the enclosure of the reflection coefficient does not lie
    /// strictly between -1 and 1.
    NotBelowOne(u8, Iv),
    /// In this step an enclosure does not fit 88 bits, or a divisor may be 0.
    Range(u8),
    /// Memory was refused.
    NoMemory,
}

impl From<AllocError> for StructureFault {
    ghost from_gives = { λ _ e. e ≡ NoMemory };

    fn from(_e: AllocError) -> StructureFault {
        StructureFault::NoMemory
    }
}

impl From<Step> for StructureFault {
    ghost from_gives = { λ step e. e ≡ refusal_of step };

    fn from(step: Step) -> StructureFault {
        match step {
            Step::NotBelowOne(i, enclosure) => StructureFault::NotBelowOne(i, enclosure),
            Step::Range(i) => StructureFault::Range(i),
            Step::NoMemory => StructureFault::NoMemory,
        }
    }
}
