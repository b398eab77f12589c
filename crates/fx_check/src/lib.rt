//! Whether a certificate suffices for a program and a filter: the first inequality that fails, with both sides.
#![tactic(auto)]

mod bounds;
mod form;
mod judging;
mod laws;
mod numbers;
mod refusal;
mod report;
mod sizes;
mod targets;
mod verdict;

pub use judging::Judge;
pub use laws::parts_add_up;
pub use report::Report;
pub use sizes::{explain, judge};
pub use verdict::Verdict;
