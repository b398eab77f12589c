use crate::verdict::Verdict;
use fx_eqs::PORTS;
use fx_error::Parts;

/// A verdict, and what the errors of the outputs are made of.
#[derive(Clone, Copy)]
pub struct Report {
    /// The verdict.
    pub verdict: Verdict,
    /// The parts of the total of each output's pair, times 2^64, and 0 past the outputs. None where the form differs
    /// or a number of a sweep reaches its limit.
    pub parts: Option<[Parts; PORTS]>,
}
