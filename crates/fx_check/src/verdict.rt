ghost use Rattle.std.specs.Prelude.{◌≡◌};
ghost use Rattle.fx_check.specs.Verdict.{failure_of, told_by};

use crate::refusal::Refusal;
use fx_block::Inequality;

/// What a filter, a program and a certificate are found to be.
#[derive(Clone, Copy)]
pub enum Verdict {
    /// All inequalities hold: the program is sound for the filter, with the certificate's errors.
    Accepted,
    /// The first inequality that fails, in their order.
    Refused {
        /// Which one.
        which: Inequality,
        /// Its left side.
        left: i128,
        /// Its right side.
        right: i128,
    },
}

/// The verdict where the steps of a judgement end so.
pub fn verdict_of(end: Result<(), Refusal>) -> Verdict
    ensures { failure_of result ≡ told_by end }
{
    match end {
        Ok(()) => Verdict::Accepted,
        Err(refusal) => Verdict::Refused {
            which: refusal.which,
            left: refusal.left,
            right: refusal.right,
        },
    }
}
