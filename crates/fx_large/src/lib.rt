//! One big valid job: filters and samples that are drawn from a number, and runs on these samples.
#![tactic(auto)]

mod drawing;
mod job;
mod limits;
mod running;
mod sections;
mod summary;

pub use drawing::Draws;
pub use job::{Job, JobFault, large, run_sections};
pub use limits::SAMPLES;
pub use running::run_samples;
pub use sections::{drawn_sections, next_sample};
pub use summary::Summary;
