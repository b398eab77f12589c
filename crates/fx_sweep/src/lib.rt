//! The sweep of a net backwards in time: how much each earlier word, rounding and bound can still matter for a target.
#![tactic(auto)]

mod handing;
mod laws;
mod limits;
mod numbers;
mod repeating;
mod sweep;
mod target;

pub use laws::{intervals_stay_ordered, standing_moments_repeat};
pub use limits::{GREATEST_LENGTH, GREATEST_SHIFT, sweep_limits_are_these};
pub use sweep::Sweep;
pub use target::{Place, RangeAt, Target};
