ghost use Rattle.std.specs.Prelude.{◌≡◌, ◌<◌, ◌≤◌, ◌^◌, ◌*ℤ◌, pos, unsigned_abs};
ghost use Rattle.std.specs.List.{list_any};
ghost use Rattle.fx_code.specs.Code.{weight};
ghost use Rattle.fx_code.specs.Limits.{same_source};

use crate::limits::{COEFFICIENT_BITS, LONGEST_SHIFT};

/// Where a term reads.
#[derive(Clone, Copy, PartialEq, Eq)]
pub enum Read {
    /// The word of a row, of this moment.
    Now(u8),
    /// The word of a row, of the moment before; 0 at the first.
    Old(u8),
    /// The word of an input.
    In(u8),
}

/// A coefficient times a word, shifted to the left.
#[derive(Clone, Copy)]
pub struct CodeTerm {
    /// Below 2^62 in magnitude, shifted to the left too.
    pub coef: i64,
    pub from: Read,
    /// By so many places: 0 to 62.
    pub left: u8,
}

// A number shifted to the left.
fn shifted(z: i128, left: u8) -> i128
    requires left { left ≤ LONGEST_SHIFT }
    requires fits { unsigned_abs (z *ℤ pos (2 ^ left)) < 2 ^ 126 }
    ensures { result ≡ z *ℤ pos (2 ^ left) }
{
    z * (1i128 << left)
}

impl CodeTerm {
    /// The coefficient shifted to the left.
    pub fn weight(&self) -> i128
        requires left { self.now.left ≤ LONGEST_SHIFT }
        requires coefficient { unsigned_abs self.now.coef < 2 ^ COEFFICIENT_BITS }
        ensures { result ≡ weight self.now }
    {
        shifted(i128::from(self.coef), self.left)
    }
}

/// Whether one of these terms reads a source.
pub fn reads_source(terms: &[CodeTerm], from: Read) -> bool
    ensures { result ≡ list_any (λ e. same_source e.from from) terms.now }
{
    terms.iter().any(|e| e.from == from)
}
