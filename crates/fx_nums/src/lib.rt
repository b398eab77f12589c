//! Exact fractions over powers of two and of ten, intervals that enclose real numbers, and plain whole numbers in
//! texts.
//!
//! A fraction is below 2^24 in magnitude. An interval has its ends at the scale 2^-64, as whole numbers below 2^120 in
//! magnitude.
#![tactic(auto)]

mod ends;
mod fraction;
mod interval;
mod limits;
mod products;
mod signs;
mod tens;
mod whole;

pub use fraction::{Den, Frac};
pub use interval::Iv;
pub use limits::{
    APART_BITS, DROPPED_BITS, FACTOR_BITS, GREATEST_TEN, GREATEST_TWO, INTERVAL_BITS,
    NUMERATOR_BITS, OPERAND_BITS, PRODUCT_BITS, SCALE_BITS, SUMMAND_BITS, VALUE_BITS,
    limits_are_these,
};
pub use products::{ceil_mul, floor_mul, mul_ends};
pub use signs::{is_blank, signed};
pub use whole::{whole_at, whole_is_read_exactly};
