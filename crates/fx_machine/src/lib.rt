//! Machines that run programs of integer code moment by moment, and mark what went beyond its bits.
#![tactic(auto)]

mod low_bits;
mod machine;
mod moment;
mod places;
mod prepared;
mod sums;

pub use machine::Machine;
pub use moment::Marks;
