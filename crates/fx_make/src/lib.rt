//! Integer code for a filter: the structure that it asks for, as a filter in implicit form, and the search for a
//! design.
#![tactic(auto)]

mod answer;
mod caps;
mod fail;
mod joint;
mod laws;
mod lengths;
mod made;
mod quantising;
mod refusal;
mod searching;
mod structure;
mod targets;
mod trying;

pub use answer::{Fails, Made, MakeFault};
pub use fail::{Fail, Failed};
pub use laws::search_finds_the_first;
pub use refusal::StructureFault;
pub use searching::make;
pub use structure::build_structure;
pub use trying::try_lengths;
