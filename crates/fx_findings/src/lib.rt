//! The printed lines of what is found for a filter: designs, candidates that fail, structures that cannot be built,
//! jobs that are drawn from a number, and peak gains.
#![tactic(auto)]

mod design;
mod large;
mod peaks;
mod structure;

pub use design::{design_lines, designs_are_lines, no_design_lines};
pub use large::{jobs_are_lines, large_lines};
pub use peaks::{gain_lines, gains_are_lines, no_length_lines};
pub use structure::{structure_fault_line, structure_faults_are_one_line};
