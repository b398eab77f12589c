//! State spaces as filters in implicit form.
#![tactic(auto)]

mod form;
mod laws;

pub use form::space;
pub use laws::{space_is_never_refused, space_keeps_the_outputs};
