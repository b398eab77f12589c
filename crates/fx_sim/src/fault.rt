//! Why samples are refused.

ghost use Rattle.std.specs.Prelude.{◌≡◌};
ghost use Rattle.fx_sim.specs.declared.fault.SampleFault.TheVariants.{NoMemory};

use std::alloc::{AllocError, AllocFailed};
use thiserror::Error;

/// Why samples are refused. Records and columns count from 1.
#[derive(Clone, Copy, Debug, Error)]
pub enum SampleFault {
    /// A record, the count of its fields, and the count of the program's inputs, which it is not.
    #[error("record {0} has {1} fields in place of {2}")]
    Columns(u64, usize, usize),
    /// A record and the column of a field that is no whole number of 1 to 18 digits.
    #[error("record {0}, column {1}: not a whole number of 1 to 18 digits")]
    Field(u64, usize),
    /// A record, the column of a number that is outside the input's width, and the number.
    #[error("record {0}, column {1}: {2} is outside the input's width")]
    OutOfWord(u64, usize, i64),
    /// Memory was refused.
    #[error("out of memory")]
    NoMemory,
}

impl From<AllocError> for SampleFault {
    ghost from_gives = { λ _ e. e ≡ NoMemory };

    fn from(_e: AllocError) -> SampleFault {
        SampleFault::NoMemory
    }
}

impl<T: Drop> From<AllocFailed<T>> for SampleFault {
    ghost from_gives = { λ _ e. e ≡ NoMemory };

    fn from(_e: AllocFailed<T>) -> SampleFault {
        SampleFault::NoMemory
    }
}
