//! The printed lines of a run: a filter as it is shown, verdicts, reports, and why a file is refused; and the pieces of
//! which lines are put together.
#![tactic(auto)]

mod cert_fault;
mod code_fault;
mod decimals;
mod filter_fault;
mod pieces;
mod report;
mod sample_fault;
mod shown;
mod unknown_key;
mod verdict;

pub use cert_fault::{cert_fault_line, cert_faults_are_one_line};
pub use code_fault::{code_fault_line, code_faults_are_one_line};
pub use decimals::{PLACES, places_are_these, put_up};
pub use filter_fault::{filter_fault_line, filter_faults_are_one_line};
pub use pieces::{put_field, put_word};
pub use report::{report_lines, reports_are_lines};
pub use sample_fault::{sample_fault_line, sample_faults_are_one_line};
pub use shown::shown_filter;
pub use verdict::{
    accepted_lines, put_compared, put_errors, put_target, refused_line, verdicts_are_lines,
};
