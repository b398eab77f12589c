//! Totals of targets from what their sweeps add up: bounds of them at all moments, for one length or several.
#![tactic(auto)]

mod all_time;
mod at_length;
mod filling;
mod laws;
mod limits;
mod series;
mod sums;
mod target_range;
mod totals;

pub use all_time::bounds_hold_for_all_time;
pub use laws::{
    empty_rows_change_nothing, targets_have_these_values, targets_lie_between, totals_bound,
    totals_grow,
};
pub use limits::{MOST_LENGTHS, totals_limits_are_these};
pub use series::Series;
pub use target_range::TargetRange;
pub use totals::{Totals, totals_fit};
