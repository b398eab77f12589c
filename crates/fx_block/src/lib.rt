//! When a program does what a filter asks for, on all inputs and for all time: what a certificate has to meet, and why
//! that suffices.
#![tactic(auto)]

mod certified;
mod inequality;
mod laws;
mod least;

pub use certified::{inequalities_make_sound, none_fails_where_all_hold, passing_candidates_pass};
pub use inequality::Inequality;
pub use laws::{
    bounded_rows_are_exact, bounds_make_near, ideal_values_run, joint_nets_hold_both,
    joint_values_are_exact, totals_serve_for_all_time, words_are_ideal,
};
pub use least::{
    Least, LengthWhy, MOST_RAISES, holds, least_bounds, most_raises_is_this, raises_find_the_least,
};
