//! The lattice structure: step-down from a transfer function to reflection coefficients and taps, and the
//! structure as a filter in implicit form.
#![tactic(auto)]

mod laws;
mod limits;
mod lowering;
mod operands;
mod refusal;
mod rungs;
mod structure;

pub use laws::{ladder_is_never_refused, ladder_keeps_the_outputs, orders_are_enclosed};
pub use limits::{REFLECTION_BITS, TAP_BITS, lattice_limits_are_these};
pub use lowering::step_down;
pub use refusal::Step;
pub use rungs::Ladder;
pub use structure::ladder_sif;
