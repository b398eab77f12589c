// Calls of one kind, of which some are to fail.
ghost use Rattle.std.specs.Prelude.{◌≡◌, OnOk, OnErr};
ghost use Rattle.fx_io.specs.Memory.{no_calls, with_failing, next_fails, counted};

use std::alloc::{AllocError, Global};
use std::marker::Model;

/// The numbers of the calls that are to fail, and how many calls were made. Calls are counted from
/// 1, and the count stops at the greatest `u64`: a later call has no number.
#[derive(Drop)]
pub(crate) struct CallPlan {
    failing: Vec<u64>,
    made: u64,
}

impl Model for CallPlan {
    ghost use Rattle.fx_io.specs.Memory.{Calls, calls_code};

    ghost Value = { Calls };

    ghost coded = { calls_code };

    ghost view = { λ p. record { failing = p.failing.items; made = p.made } };
}

impl CallPlan {
    /// No call was made, and none is to fail.
    pub(crate) fn new(alloc: Global) -> CallPlan
        ensures { result ≡ no_calls }
    {
        CallPlan {
            failing: Vec::new(alloc),
            made: 0,
        }
    }

    /// Lets the call of this number fail.
    pub(crate) fn fail(&mut self, call: u64) -> Result<(), AllocError>
        ensures ok { OnOk result (self.new ≡ with_failing self.old call) }
        ensures err { OnErr result (self.new ≡ self.old) }
    {
        self.failing.push(call)?;
        Ok(())
    }

    /// Counts one more call, and says whether it is to fail.
    pub(crate) fn next(&mut self) -> bool
        ensures fails { result ≡ next_fails self.old }
        ensures counted { self.new ≡ counted self.old }
    {
        if self.made == u64::MAX {
            return false;
        }
        self.made += 1;
        self.failing.contains(&self.made)
    }
}
