//! Runs of programs of integer code on samples: comma-separated text in, comma-separated text out.
#![tactic(auto)]

mod fault;
mod field;
mod laws;
mod moment;
mod plain;
mod record;
mod simulation;
mod text;

pub use fault::SampleFault;
pub use field::field_digits_is_this;
pub use laws::{fields_are_read_exactly, samples_are_read_exactly};
pub use simulation::simulate;
