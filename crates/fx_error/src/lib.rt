//! The parts of an error: what rounding adds, how far the exact values are apart, and what lies before the block.
#![tactic(auto)]

mod parts;

pub use parts::{Parts, split};
