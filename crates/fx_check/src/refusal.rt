//! One inequality.

ghost use Rattle.std.specs.Prelude.{◌≡◌, OnOk};
ghost use Rattle.fx_block.specs.Failure.{above, unequal};
ghost use Rattle.fx_check.specs.Verdict.{told_by};

use fx_block::Inequality;

/// An inequality that fails, with both sides.
#[derive(Clone, Copy)]
pub struct Refusal {
    pub which: Inequality,
    pub left: i128,
    pub right: i128,
}

/// Two numbers have to be equal.
pub fn equal(which: Inequality, left: usize, right: usize) -> Result<(), Refusal>
    ensures told { told_by result ≡ unequal which left right }
    ensures equal { OnOk result (left ≡ right) }
{
    if left == right {
        return Ok(());
    }
    Err(Refusal {
        which,
        left: left as i128,
        right: right as i128,
    })
}

/// The left number has to be at most the right one.
pub fn at_most(which: Inequality, left: i128, right: i128) -> Result<(), Refusal>
    ensures { told_by result ≡ above which left right }
{
    if left <= right {
        return Ok(());
    }
    Err(Refusal { which, left, right })
}
