//! The parts of the direct forms.

ghost use Rattle.std.specs.Prelude.{◌≡◌, ◌≤◌, ◌<◌, ◌+◌, ◌++◌, length, max, OnOk};
ghost use Rattle.fx_math.specs.Sums.{joined};
ghost use Rattle.fx_sif.specs.Entries.{coefficient};
ghost use Rattle.fx_direct.specs.Forms.{df2t_row, first_state, numerator_row};

use fx_eqs::COEFFICIENTS;
use fx_nums::Frac;
use fx_sif::{Block, Entry, add_across, add_entry, coefficient};
use std::alloc::AllocError;

/// A row over the numerator: its first coefficient in one block, the others in another.
pub fn numerator(
    entries: &mut Vec<Entry>,
    direct: Block,
    states: Block,
    b: &[Frac],
) -> Result<(), AllocError>
    requires low { 1 ≤ length b.now }
    requires high { length b.now ≤ COEFFICIENTS }
    ensures { OnOk result (entries.new.items ≡ entries.old.items ++ numerator_row direct states b.now) }
{
    add_entry(entries, direct, 0, 0, coefficient(b, 0))?;
    add_across(entries, states, 0, 0, &b[1..])
}

// State `i` of the transposed form with `count` states.
fn transposed_state(
    entries: &mut Vec<Entry>,
    b: &[Frac],
    a: &[Frac],
    count: usize,
    i: usize,
) -> Result<(), AllocError>
    requires { (i < count) × (count < COEFFICIENTS) }
    ensures { OnOk result (entries.new.items ≡ entries.old.items ++ df2t_row b.now a.now count i) }
{
    if i + 1 < count {
        add_entry(entries, Block::P, i, i + 1, Frac::one())?;
    }
    add_entry(entries, Block::Q, i, 0, coefficient(b, i + 1))?;
    add_entry(entries, Block::K, i, 0, coefficient(a, i + 1).neg())
}

/// The states of the transposed form.
#[tactic(auto, using(crate::proofs::Rows::joined_next))]
pub fn transposed_states(
    entries: &mut Vec<Entry>,
    b: &[Frac],
    a: &[Frac],
    count: usize,
) -> Result<(), AllocError>
    requires { count < COEFFICIENTS }
    ensures { OnOk result (entries.new.items ≡ entries.old.items ++ joined count (df2t_row b.now a.now count)) }
{
    for i in 0..count {
        transposed_state(entries, b, a, count, i)?;
    }
    Ok(())
}

/// What the transposed form's variable takes of its first state, where there is one.
pub fn first_state(entries: &mut Vec<Entry>, count: usize) -> Result<(), AllocError>
    ensures { OnOk result (entries.new.items ≡ entries.old.items ++ first_state count) }
{
    if count > 0 {
        add_entry(entries, Block::M, 0, 0, Frac::one())?;
    }
    Ok(())
}

/// The greater of two numbers.
pub fn greater(a: usize, b: usize) -> usize
    ensures { result ≡ max a b }
{
    a.max(b)
}
