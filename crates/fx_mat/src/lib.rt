//! Matrices of fractions and of intervals with constant counts of rows and columns.
#![tactic(auto)]

mod fractions;
mod intervals;

pub use fractions::{FracMat, entries_outside_are_zero};
pub use intervals::{IvMat, PRODUCT_TERMS, intervals_outside_are_zero, product_terms_are_these};
