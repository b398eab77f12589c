//! The worst-case peak gains of a filter: how far each output goes on words of each input alone, enclosed, and for each
//! of these the words that reach the lower end.
#![tactic(auto)]

mod block;
mod bounds;
mod ends;
mod fails;
mod finding;
mod laws;
mod lengths;
mod peaks;
mod weights;

pub use fails::{LengthFail, LengthFails, PeakFault};
pub use finding::peak;
pub use laws::enclosures_hold;
pub use peaks::Peaks;
