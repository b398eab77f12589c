ghost use Rattle.std.specs.Prelude.{◌≡◌};
ghost use Rattle.fx_keys.specs.declared.fault.FilterFault.TheVariants.{NoMemory};

use crate::key::{Key, KeyText};
use fx_decimal::DecimalFault;
use std::alloc::{AllocError, AllocFailed};

/// Why bytes are no filter file.
#[derive(Drop)]
pub enum FilterFault {
    /// The bytes are no text in UTF-8, or the text is no TOML table.
    NotToml,
    /// The key has to be there.
    Missing(Key),
    /// The value of the key, or an entry of it, is of another kind.
    WrongKind(Key),
    /// The entry at this place of the key, counted from 0 row after row, is no numeral.
    Numeral(Key, u32, DecimalFault),
    /// The entry at this place of the key has to be 1.
    NotMonic(Key, u32),
    /// The key, or a row of it, has this many entries, and not as many as the second number.
    Shape(Key, usize, usize),
    /// The number is out of range; the second is the end of the range next to it.
    Limit(Key, i64, i64),
    /// A key that its table may not have in a file of this form.
    UnknownKey(KeyText),
    /// The text of the key is none of its words.
    UnknownWord(Key),
    /// Memory was refused.
    NoMemory,
}

impl From<AllocError> for FilterFault {
    ghost from_gives = { λ _ e. e ≡ NoMemory };

    fn from(_e: AllocError) -> FilterFault {
        FilterFault::NoMemory
    }
}

impl<T: Drop> From<AllocFailed<T>> for FilterFault {
    ghost from_gives = { λ _ e. e ≡ NoMemory };

    fn from(_e: AllocFailed<T>) -> FilterFault {
        FilterFault::NoMemory
    }
}
