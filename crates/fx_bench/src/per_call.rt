//! What one call takes.

ghost use Rattle.std.specs.Prelude.{◌≡◌, ◌<◌, Some};
ghost use Rattle.std.specs.Duration.{as_nanos};
ghost use Rattle.fx_bench.specs.PerCall.{tenths_per_call, tenths_text};

use std::time::Duration;
use std::{fmt, io};

/// What one call takes, printed in nanoseconds with one place.
#[derive(Clone, Copy)]
pub struct PerCall {
    /// Tenths of a nanosecond.
    pub tenths: u128,
}

impl PerCall {
    /// A call's part of the time of this many, rounded down.
    pub fn new(time: Duration, calls: u64) -> PerCall
        requires { 0 < calls }
        ensures { result.tenths ≡ tenths_per_call (as_nanos time) calls }
    {
        PerCall {
            tenths: time.as_nanos() * 10 / u128::from(calls),
        }
    }
}

impl fmt::Display for PerCall {
    ghost output = { λ x. Some (tenths_text x.tenths) };

    fn fmt<W: fmt::Write>(&self, f: &mut fmt::Formatter<W>) -> fmt::Result {
        let whole = self.tenths / 10;
        let tenth = self.tenths % 10;
        write!(f, "{whole}.{tenth}")
    }
}

/// Prints what each of this many calls took, and the checksum of their results.
pub fn report(
    rt: &impl Print,
    name: &str,
    time: Duration,
    calls: u64,
    checksum: u64,
) -> io::Result<()>
    requires { 0 < calls }
{
    let per_call = PerCall::new(time, calls);
    println!(rt; "{name} {per_call} checksum {checksum}")
}
