//! The equation systems of the four forms of a filter, built from their coefficients.
#![tactic(auto)]

mod systems;
mod terms;

pub use systems::{cascade_system, ladder_system, space_system, transfer_system};
pub use terms::Space;
