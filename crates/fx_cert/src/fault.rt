//! Why bytes are no certificate.

ghost use Rattle.std.specs.Prelude.{◌≡◌};
ghost use Rattle.fx_cert.specs.declared.fault.CertFault.TheVariants.{NoMemory};

use std::alloc::{AllocError, AllocFailed};
use thiserror::Error;

/// Why bytes are no certificate. Lines are numbered from 1.
#[derive(Clone, Copy, Debug, Error)]
pub enum CertFault {
    /// Line 1 is not that of a certificate.
    #[error("line 1 is not that of a certificate")]
    Version,
    /// The line of this number is missing, is not ended, or is not of its form.
    #[error("line {0} is not there, or not of its form")]
    Line(u32),
    /// What stands behind the word in the line of this number is no number in its range.
    #[error("line {0} has no number in its range")]
    Number(u32),
    /// At the line of this number there are too few or too many lines: so many, and so many are wanted.
    #[error("line {0}: {1} lines in place of {2}")]
    Count(u32, u32, u32),
    /// Something follows the last line.
    #[error("something follows the last line")]
    AfterEnd,
    /// Memory was refused.
    #[error("out of memory")]
    NoMemory,
}

impl From<AllocError> for CertFault {
    ghost from_gives = { λ _ e. e ≡ NoMemory };

    fn from(_e: AllocError) -> CertFault {
        CertFault::NoMemory
    }
}

impl<T: Drop> From<AllocFailed<T>> for CertFault {
    ghost from_gives = { λ _ e. e ≡ NoMemory };

    fn from(_e: AllocFailed<T>) -> CertFault {
        CertFault::NoMemory
    }
}
