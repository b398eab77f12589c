//! Fractions with what their products need kept beside them, so that a product with a number below 2^64 takes neither a
//! division nor a table.
#![tactic(auto)]

mod products;
mod ratio;
mod ratios;
mod span;

pub use ratio::Ratio;
pub use ratios::Ratios;
pub use span::Span;
