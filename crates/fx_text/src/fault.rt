ghost use Rattle.std.specs.Prelude.{◌≡◌};
ghost use Rattle.fx_text.specs.declared.fault.CodeFault.TheVariants.{NoMemory};
ghost use Rattle.fx_text.specs.Reading.{fault_of};

use fx_code::{LimitOf, ProgramFault};
use std::alloc::{AllocError, AllocFailed};

/// Why a text is no program. Offsets count bytes from 0, and rows are numbered from 0.
#[derive(Clone, Copy)]
pub enum CodeFault {
    /// The byte at this offset begins no token.
    Token(usize),
    /// Another kind of token, another keyword or the end of the text stands at this offset.
    Unexpected(usize),
    /// The name at this offset, or the number of an output, is not one that may stand there.
    Name(usize),
    /// The row of this number reads a word of this moment that is not there yet.
    Order(u8),
    /// The number at this offset has a zero before other digits, or is 2^63 or more.
    Number(usize),
    /// The constant of the row of this number, and the one that its shift and its mode demand.
    Rounding(u8, i64, i64),
    /// The number is out of its range.
    Limit(LimitOf, i128),
    /// The row of this number reads a source twice.
    Twice(u8),
    /// Memory was refused.
    NoMemory,
}

impl From<AllocError> for CodeFault {
    ghost from_gives = { λ _ e. e ≡ NoMemory };

    fn from(_e: AllocError) -> CodeFault {
        CodeFault::NoMemory
    }
}

impl<T: Drop> From<AllocFailed<T>> for CodeFault {
    ghost from_gives = { λ _ e. e ≡ NoMemory };

    fn from(_e: AllocFailed<T>) -> CodeFault {
        CodeFault::NoMemory
    }
}

impl From<ProgramFault> for CodeFault {
    ghost from_gives = { λ fault e. e ≡ fault_of fault };

    fn from(fault: ProgramFault) -> CodeFault {
        match fault {
            ProgramFault::Limit(what, number) => CodeFault::Limit(what, number),
            ProgramFault::Order(row) => CodeFault::Order(row),
            ProgramFault::Twice(row) => CodeFault::Twice(row),
            ProgramFault::NoMemory => CodeFault::NoMemory,
        }
    }
}
