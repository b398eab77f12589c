//! How many bits a word and an accumulator need, and where the highest bit of a word stands.
#![tactic(auto)]

mod widths;

pub use widths::{
    GREATEST_BOUND, accumulator_fits, greatest_bound_is_this, least_width, top_position,
};
