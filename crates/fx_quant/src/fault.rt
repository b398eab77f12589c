ghost use Rattle.std.specs.Prelude.{◌≡◌};
ghost use Rattle.fx_quant.specs.declared.fault.QuantFault.TheVariants.{NoMemory};

use std::alloc::{AllocError, AllocFailed};

/// Why a form has no integer rows on a grid. Rows and terms are counted from 0.
#[derive(Clone, Copy)]
pub enum QuantFault {
    /// The row's right shift is above 62 or not below the bits of the accumulators, or a left shift of one of its terms
    /// is above 62.
    ShiftRange(u8),
    /// A coefficient shifted to the left, of this value, is 2^62 or more or 2^(24 + the row's right shift) or more in
    /// magnitude. `term` is its place among the row's terms.
    Wide { row: u8, term: u8, value: i128 },
    /// Memory was refused.
    NoMemory,
}

impl From<AllocError> for QuantFault {
    ghost from_gives = { λ _ e. e ≡ NoMemory };

    fn from(_e: AllocError) -> QuantFault {
        QuantFault::NoMemory
    }
}

impl<T: Drop> From<AllocFailed<T>> for QuantFault {
    ghost from_gives = { λ _ e. e ≡ NoMemory };

    fn from(_e: AllocFailed<T>) -> QuantFault {
        QuantFault::NoMemory
    }
}
