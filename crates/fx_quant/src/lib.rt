//! Filters in implicit form as integer rows: each coefficient becomes an odd number, shifted to the left, over 2 to the
//! power of its row's right shift.
#![tactic(auto)]

mod design;
mod fault;
mod form;
mod formats;
mod laws;
mod net;
mod program;
mod row;
mod scaled;
mod widths;

pub use design::Design;
pub use fault::QuantFault;
pub use form::{quantise, quantise_rows};
pub use formats::{
    Formats, GREATEST_FRACTION, GREATEST_LOW, LARGEST_GUARD, LEAST_FRACTION, LEAST_LOW, LOWS_APART,
    ROUNDED_BITS, quantising_limits_are_these,
};
pub use laws::{coefficients_are_rounded_to_nearest, rows_take_the_forms};
