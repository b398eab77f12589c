//! Sparse tables of fractions: the entries other than 0 are cells, linked by index along their rows and their
//! columns.
#![tactic(auto)]

mod cell;
mod cross;
mod laws;
mod limits;
mod walk;

pub use cross::{Cross, Link, entries_have_places};
pub use laws::sums_follow_the_links;
pub use limits::{GREATEST_ROOM, GREATEST_SIDE, limits_are_these};
pub use walk::{Column, Row};
