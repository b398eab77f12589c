//! What each fault of a filter file says of its table.
#![tactic(auto)]

mod laws;

pub use laws::{
    faulty_tables_describe_no_filter, no_table_is_told_exactly,
    tables_without_faults_are_described, told_faults_are_true,
};
