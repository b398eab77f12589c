//! Equation systems of linear filters: rows of terms that read rows and inputs some moments before.
#![tactic(auto)]

mod checks;
mod fault;
mod laws;
mod limits;
mod mode;
mod system;
mod term;

pub use fault::EqsFault;
pub use laws::{
    cascades_have_no_fault, cascades_meet_their_recursions, common_divides_each,
    exact_values_meet_their_equations, lattices_have_no_fault, lattices_meet_their_equations,
    state_spaces_have_no_fault, state_spaces_meet_their_equations,
    transfer_functions_have_no_fault, transfer_functions_meet_their_recursion,
    what_fits_has_no_fault,
};
pub use limits::{
    COEFFICIENTS, EQUATION_TERMS, LONGEST_LAG, NET_ROWS, PORTS, REFLECTIONS, SECTIONS, STATES,
    equation_limits_are_these, form_limits_are_these,
};
pub use mode::Mode;
pub use system::{Eqs, systems_fit};
pub use term::{Source, Term};
