//! Programs of integer code: rows of terms over wrapping accumulators, and what their words are.
#![tactic(auto)]

mod checks;
mod dropping;
mod fault;
mod laws;
mod limits;
mod net_rows;
mod program;
mod term;

pub use dropping::{class_in, constant_in};
pub use fault::{LimitOf, ProgramFault};
pub use laws::{
    code_stands, exact_words_are_floored_sums, joint_nets_have_a_denominator,
    outputs_are_output_words, what_fits_has_no_fault, words_are_a_run, words_are_their_step,
    words_read_no_later_inputs,
};
pub use limits::{
    CODE_ROWS, CODE_TERMS, COEFFICIENT_BITS, LONGEST_SHIFT, PRODUCT_BITS, code_limits_are_these,
};
pub use net_rows::put_term;
pub use program::{Program, programs_fit};
pub use term::{CodeTerm, Read, reads_source};
