//! Filters in the Specialized Implicit Form (SIF), by Hilaire, Chevrel and Whidborne: intermediate variables,
//! states and outputs, each a row of a matrix.
#![tactic(auto)]

mod checks;
mod entries;
mod fault;
mod implicit;
mod laws;
mod limits;
mod parts;
mod rows;

pub use entries::{add_across, add_against, add_delays, add_entry, coefficient};
pub use fault::SifFault;
pub use implicit::{Sif, forms_fit, forms_have_a_denominator};
pub use laws::{
    denominators_divide, j_is_unit_lower, nets_have_the_blocks, runs_are_sums,
    what_fits_has_no_fault,
};
pub use limits::{FORM_ROWS, form_rows_are_these};
pub use parts::{Block, Entry, Sizes};
