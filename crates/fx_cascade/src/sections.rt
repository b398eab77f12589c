//! The entries of one section, and of all.

ghost use Rattle.std.specs.Prelude.{◌≡◌, ◌≤◌, ◌<◌, ◌+◌, ◌-◌, ◌*◌, ◌++◌, [], ◌∷◌, OnOk};
ghost use Rattle.fx_math.specs.Sums.{joined};
ghost use Rattle.fx_cascade.specs.Cascades.{
  df1_section,
  df1_states,
  df2t_section,
  df2t_states,
  first_state,
  last_section,
  second_state,
  state_takes,
  taken_in,
};

use fx_eqs::SECTIONS;
use fx_nums::Frac;
use fx_sif::{Block, Entry, add_delays, add_entry, coefficient};
use std::alloc::AllocError;

// What section `i` takes in, in its own row, times a coefficient.
fn add_taken(entries: &mut Vec<Entry>, i: usize, coef: Frac) -> Result<(), AllocError>
    requires { i < SECTIONS }
    ensures { OnOk result (entries.new.items ≡ entries.old.items ++ taken_in i coef ∷ []) }
{
    if i == 0 {
        return add_entry(entries, Block::N, 0, 0, coef);
    }
    add_entry(entries, Block::J, i, i - 1, coef.neg())
}

// What section `i` takes in, in the row of a state, times a coefficient.
fn add_state_taken(
    entries: &mut Vec<Entry>,
    row: usize,
    i: usize,
    coef: Frac,
) -> Result<(), AllocError>
    requires row { row < 2 * SECTIONS }
    requires section { i < SECTIONS }
    ensures { OnOk result (entries.new.items ≡ entries.old.items ++ state_takes row i coef ∷ []) }
{
    if i == 0 {
        return add_entry(entries, Block::Q, row, 0, coef);
    }
    add_entry(entries, Block::K, row, i - 1, coef)
}

// The row of section `i` in the first direct form.
fn add_df1_section(entries: &mut Vec<Entry>, sections: &[Frac], i: usize) -> Result<(), AllocError>
    requires { i < SECTIONS }
    ensures { OnOk result (entries.new.items ≡ entries.old.items ++ df1_section sections.now i) }
{
    add_taken(entries, i, coefficient(sections, 6 * i))?;
    add_entry(
        entries,
        Block::M,
        i,
        2 * i,
        coefficient(sections, 6 * i + 1),
    )?;
    add_entry(
        entries,
        Block::M,
        i,
        2 * i + 1,
        coefficient(sections, 6 * i + 2),
    )?;
    let (a1, a2) = (
        coefficient(sections, 6 * i + 4),
        coefficient(sections, 6 * i + 5),
    );
    add_entry(entries, Block::M, i, 2 * i + 2, a1.neg())?;
    add_entry(entries, Block::M, i, 2 * i + 3, a2.neg())
}

/// The rows of so many sections in the first direct form. Its error is want of memory.
pub fn add_df1_sections(
    entries: &mut Vec<Entry>,
    sections: &[Frac],
    count: usize,
) -> Result<(), AllocError>
    requires { count ≤ SECTIONS }
    ensures { OnOk result (entries.new.items ≡ entries.old.items ++ joined count (df1_section sections.now)) }
{
    for i in 0..count {
        add_df1_section(entries, sections, i)?;
    }
    Ok(())
}

/// The states of so many sections in the first direct form. Its error is want of memory.
pub fn add_df1_states(entries: &mut Vec<Entry>, count: usize) -> Result<(), AllocError>
    requires { count ≤ SECTIONS }
    ensures { OnOk result (entries.new.items ≡ entries.old.items ++ joined count df1_states) }
{
    for i in 0..count {
        add_delays(entries, Block::K, i, 2 * i + 2, 2)?;
    }
    Ok(())
}

// The row of section `i` in the second direct form transposed.
fn add_df2t_section(entries: &mut Vec<Entry>, sections: &[Frac], i: usize) -> Result<(), AllocError>
    requires { i < SECTIONS }
    ensures { OnOk result (entries.new.items ≡ entries.old.items ++ df2t_section sections.now i) }
{
    add_taken(entries, i, coefficient(sections, 6 * i))?;
    add_entry(entries, Block::M, i, 2 * i, Frac::one())
}

/// The rows of so many sections in the second direct form transposed. Its error is want of memory.
pub fn add_df2t_sections(
    entries: &mut Vec<Entry>,
    sections: &[Frac],
    count: usize,
) -> Result<(), AllocError>
    requires { count ≤ SECTIONS }
    ensures { OnOk result (entries.new.items ≡ entries.old.items ++ joined count (df2t_section sections.now)) }
{
    for i in 0..count {
        add_df2t_section(entries, sections, i)?;
    }
    Ok(())
}

// The first state of section `i` in the second direct form transposed.
fn add_first_state(entries: &mut Vec<Entry>, sections: &[Frac], i: usize) -> Result<(), AllocError>
    requires { i < SECTIONS }
    ensures { OnOk result (entries.new.items ≡ entries.old.items ++ first_state sections.now i) }
{
    add_entry(entries, Block::P, 2 * i, 2 * i + 1, Frac::one())?;
    add_state_taken(entries, 2 * i, i, coefficient(sections, 6 * i + 1))?;
    add_entry(
        entries,
        Block::K,
        2 * i,
        i,
        coefficient(sections, 6 * i + 4).neg(),
    )
}

// The second state of section `i` in the second direct form transposed.
fn add_second_state(entries: &mut Vec<Entry>, sections: &[Frac], i: usize) -> Result<(), AllocError>
    requires { i < SECTIONS }
    ensures { OnOk result (entries.new.items ≡ entries.old.items ++ second_state sections.now i) }
{
    let row = 2 * i + 1;
    add_state_taken(entries, row, i, coefficient(sections, 6 * i + 2))?;
    add_entry(
        entries,
        Block::K,
        row,
        i,
        coefficient(sections, 6 * i + 5).neg(),
    )
}

// The states of section `i` in the second direct form transposed.
fn add_state_pair(entries: &mut Vec<Entry>, sections: &[Frac], i: usize) -> Result<(), AllocError>
    requires { i < SECTIONS }
    ensures { OnOk result (entries.new.items ≡ entries.old.items ++ df2t_states sections.now i) }
{
    add_first_state(entries, sections, i)?;
    add_second_state(entries, sections, i)
}

/// The states of so many sections in the second direct form transposed. Its error is want of memory.
pub fn add_df2t_states(
    entries: &mut Vec<Entry>,
    sections: &[Frac],
    count: usize,
) -> Result<(), AllocError>
    requires { count ≤ SECTIONS }
    ensures { OnOk result (entries.new.items ≡ entries.old.items ++ joined count (df2t_states sections.now)) }
{
    for i in 0..count {
        add_state_pair(entries, sections, i)?;
    }
    Ok(())
}

/// The last of so many sections is put out. Its error is want of memory.
pub fn add_last_section(entries: &mut Vec<Entry>, count: usize) -> Result<(), AllocError>
    requires low { 1 ≤ count }
    requires high { count ≤ SECTIONS }
    ensures { OnOk result (entries.new.items ≡ entries.old.items ++ last_section count) }
{
    add_entry(entries, Block::L, 0, count - 1, Frac::one())
}
