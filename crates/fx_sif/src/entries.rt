//! Entries of an implicit form, row after row.

ghost use Rattle.std.specs.Prelude.{◌≡◌, ◌≤◌, ◌<◌, ◌+◌, ◌^◌, ◌++◌, [], ◌∷◌, length, map, OnOk};
ghost use Rattle.fx_nums.specs.Fraction.{minus};
ghost use Rattle.fx_sif.specs.Entries.{across, coefficient, delay_row, delays, entry};

use crate::parts::{Block, Entry};
use fx_nums::Frac;
use std::alloc::AllocError;

/// Coefficient `i` of a list; 0 where it has none.
pub fn coefficient(coefficients: &[Frac], i: usize) -> Frac
    ensures { result ≡ coefficient coefficients.now i }
{
    if i < coefficients.len() {
        return coefficients[i];
    }
    Frac::zero()
}

/// One more entry, in row `i` and column `j` of a block. Its error is want of memory.
pub fn add_entry(
    entries: &mut Vec<Entry>,
    block: Block,
    i: usize,
    j: usize,
    coef: Frac,
) -> Result<(), AllocError>
    requires row { i < 2 ^ 8 }
    requires column { j < 2 ^ 8 }
    ensures { OnOk result (entries.new.items ≡ entries.old.items ++ entry block i j coef ∷ []) }
{
    entries.push(Entry {
        block,
        i: i as u8,
        j: j as u8,
        coef,
    })?;
    Ok(())
}

/// Coefficients of row `i` of a block, in column `first` and the next ones. Its error is want of memory.
pub fn add_across(
    entries: &mut Vec<Entry>,
    block: Block,
    i: usize,
    first: usize,
    coefficients: &[Frac],
) -> Result<(), AllocError>
    requires row { i < 2 ^ 8 }
    requires columns { first + length coefficients.now ≤ 2 ^ 8 }
    ensures { OnOk result (entries.new.items ≡ entries.old.items ++ across block i first coefficients.now) }
{
    let mut column = first;
    for coef in coefficients {
        add_entry(entries, block, i, column, *coef)?;
        column += 1;
    }
    Ok(())
}

/// Coefficients of row `i` of a block with the other sign, in column `first` and the next ones. Its error is
/// want of memory.
pub fn add_against(
    entries: &mut Vec<Entry>,
    block: Block,
    i: usize,
    first: usize,
    coefficients: &[Frac],
) -> Result<(), AllocError>
    requires row { i < 2 ^ 8 }
    requires columns { first + length coefficients.now ≤ 2 ^ 8 }
    ensures { OnOk result (entries.new.items ≡ entries.old.items ++ across block i first (map minus coefficients.now)) }
{
    let mut column = first;
    for coef in coefficients {
        add_entry(entries, block, i, column, coef.neg())?;
        column += 1;
    }
    Ok(())
}

// State `i` of those from `at` on that pass a value on.
fn add_delay_row(
    entries: &mut Vec<Entry>,
    block: Block,
    column: usize,
    at: usize,
    i: usize,
) -> Result<(), AllocError>
    requires column { column < 2 ^ 8 }
    requires states { at + i < 2 ^ 8 }
    ensures { OnOk result (entries.new.items ≡ entries.old.items ++ delay_row block column at i) }
{
    if i == 0 {
        return add_entry(entries, block, at, column, Frac::one());
    }
    add_entry(entries, Block::P, at + i, at + i - 1, Frac::one())
}

/// States from `at` on, so many, that pass a value on: the first takes what a column of the block reads, each
/// further one the state before it. Its error is want of memory.
pub fn add_delays(
    entries: &mut Vec<Entry>,
    block: Block,
    column: usize,
    at: usize,
    count: usize,
) -> Result<(), AllocError>
    requires column { column < 2 ^ 8 }
    requires states { at + count ≤ 2 ^ 8 }
    ensures { OnOk result (entries.new.items ≡ entries.old.items ++ delays block column at count) }
{
    for i in 0..count {
        add_delay_row(entries, block, column, at, i)?;
    }
    Ok(())
}
