//! Nets of rows that read rows of the same moment, rows of the moment before, and inputs.
#![tactic(auto)]

mod equations;
mod laws;
mod layout;
mod limits;
mod net;

pub use laws::{
    denominators_stay, each_net_has_a_run, expanded_rows_agree,
    expanded_rows_have_the_exact_values, other_rows_stay, rows_stand, runs_are_blocks,
};
pub use limits::{GREATEST_CLASS, LARGEST_NET, net_limits_are_these};
pub use net::{Net, Which, nets_fit, nets_have_a_denominator};
