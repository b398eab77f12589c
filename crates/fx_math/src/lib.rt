//! What the definitions and proofs of the other crates stand on: sums over a range, division rounded down and up,
//! residues in two's complement, and values that come moment by moment and row by row.
//!
//! Each function here but the test of an accumulator's bits is a law: it does nothing, and its contract is what it
//! says.
#![tactic(auto)]

ghost use Rattle.fx_math.specs.Laws.{
  CeilingLaw,
  FloorLaw,
  ResidueCongruence,
  ResidueLaw,
  ResidueRange,
  SameValueChains,
  SumsCollect,
  SumsExchange,
  UnrolledIsItsStep,
};

mod words;

pub use words::{ACCUMULATORS, GREATEST_WIDTH, LEAST_WIDTH, is_accumulator, widths_are_these};

/// The floor is the greatest whole number at or below a quotient.
pub fn floor_is_greatest_below()
    ensures { FloorLaw }
{}

/// The ceiling is the least whole number at or above a quotient.
pub fn ceiling_is_least_above()
    ensures { CeilingLaw }
{}

/// A number that fits the bits is its own residue.
pub fn residue_keeps_what_fits()
    ensures { ResidueLaw }
{}

/// The residue of a number is in the range of the bits, and differs from it by a multiple of 2 to the power of the
/// bits.
pub fn residue_is_congruent()
    ensures range { ResidueRange }
    ensures congruent { ResidueCongruence }
{}

/// Sums over two ranges are taken in either order.
pub fn sums_exchange()
    ensures { SumsExchange }
{}

/// A factor that one range does not change is taken out of its sum.
pub fn sums_collect()
    ensures { SumsCollect }
{}

/// Where steps read earlier rows alone, each row of a run is its step of the finished moment and of the one before.
pub fn unrolled_is_its_step()
    ensures { UnrolledIsItsStep }
{}

/// Values that are the same as one are the same.
pub fn same_values_chain()
    ensures { SameValueChains }
{}
