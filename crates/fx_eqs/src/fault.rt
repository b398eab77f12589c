ghost use Rattle.std.specs.Prelude.{◌≡◌};
ghost use Rattle.fx_eqs.specs.declared.fault.EqsFault.TheVariants.{NoMemory};

use std::alloc::AllocError;

/// Why terms make no equation system. A number of 32 bits is the place of a term among the given ones.
#[derive(Clone, Copy)]
pub enum EqsFault {
    /// The term reads a row of the same moment that is not an earlier one.
    ForwardNow(u32),
    /// The term's row, or the row that it reads, is not below the count of rows.
    RowRange(u32),
    /// The input that the term reads is not below the count of inputs.
    InputRange(u32),
    /// The term's lag is above `LONGEST_LAG`.
    LagRange(u32),
    /// So many terms with a coefficient other than 0: more than `EQUATION_TERMS`.
    TooManyTerms(usize),
    /// So many rows of the expanded net: more than `NET_ROWS`, or 0 where there are no rows.
    TooManyRows(usize),
    /// An earlier term has the same row, source and lag.
    Twice(u32),
    /// Memory was refused.
    NoMemory,
}

impl From<AllocError> for EqsFault {
    ghost from_gives = { λ _ e. e ≡ NoMemory };

    fn from(_e: AllocError) -> EqsFault {
        EqsFault::NoMemory
    }
}
