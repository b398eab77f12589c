//! Decimal numerals: read as exact fractions, and printed rounded up, rounded down or exactly.
#![tactic(auto)]

mod fault;
mod limits;
mod print;
mod read;
mod value;

pub use fault::DecimalFault;
pub use limits::{GREATEST_EXPONENT, LONGEST_DECIMAL, MOST_DIGITS, MOST_PLACES, limits_are_these};
pub use print::{Decimal, print_down, print_frac, print_up};
pub use read::{
    bad_byte_is_where_it_stops, empty_is_unfinished, fraction_is_read_exactly,
    numeral_is_read_as_it_means, read_decimal,
};
