//! Which of several targets met a range.

use fx_sweep::RangeAt;

/// The first target whose sweep met a range, and that range.
#[derive(Clone, Copy, Debug, PartialEq, Eq)]
pub struct TargetRange {
    /// The target's place in the list.
    pub target: u8,
    /// Where its sweep first left the range.
    pub at: RangeAt,
}
