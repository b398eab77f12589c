//! The two cascades.

ghost use Rattle.std.specs.Prelude.{◌≡◌, ◌<◌, IfOk};
ghost use Rattle.fx_eqs.specs.Textbook.{sos_equations};
ghost use Rattle.fx_sif.specs.SameOutputs.{HasOutputs};
ghost use Rattle.fx_cascade.specs.Cascades.{cascade_df1_form, cascade_df2t_form};
ghost use Rattle.fx_cascade.specs.Sections.{SectionsFit};

use crate::laws::{
    cascade_df1_is_never_refused, cascade_df1_keeps_the_outputs, cascade_df2t_is_never_refused,
    cascade_df2t_keeps_the_outputs,
};
use crate::sections::{
    add_df1_sections, add_df1_states, add_df2t_sections, add_df2t_states, add_last_section,
};
use fx_nums::Frac;
use fx_sif::{Block, Sif, Sizes, add_delays};
use std::alloc::{AllocError, Global};

/// One to `SECTIONS` second-order sections one behind the other, each in the first direct form. `sections`
/// has b0, b1, b2, a0, a1 and a2 of each section; a0 stands for 1 and is not read. The states are the two
/// earlier inputs, and then the two earlier values of each section. Its error is want of memory.
pub fn cascade_df1(alloc: Global, sections: &[Frac]) -> Result<Sif, AllocError>
    requires { SectionsFit sections.now }
    ensures value { IfOk result (λ s. s ≡ cascade_df1_form sections.now) }
    ensures same { IfOk result (λ s. HasOutputs s (sos_equations sections.now)) }
{
    let count = sections.len() / 6;
    let mut entries = Vec::new(alloc);
    add_df1_sections(&mut entries, sections, count)?;
    add_delays(&mut entries, Block::Q, 0, 0, 2)?;
    add_df1_states(&mut entries, count)?;
    add_last_section(&mut entries, count)?;
    cascade_df1_is_never_refused(sections);
    cascade_df1_keeps_the_outputs(sections);
    Sif::build_unrefused(alloc, Sizes::single(count, 2 * count + 2), &entries)
}

/// One to `SECTIONS` second-order sections one behind the other, each in the second direct form transposed.
/// `sections` has b0, b1, b2, a0, a1 and a2 of each section; a0 stands for 1 and is not read. Each section
/// has two states, sums that are still to be put out. Its error is want of memory.
pub fn cascade_df2t(alloc: Global, sections: &[Frac]) -> Result<Sif, AllocError>
    requires { SectionsFit sections.now }
    ensures value { IfOk result (λ s. s ≡ cascade_df2t_form sections.now) }
    ensures same { IfOk result (λ s. HasOutputs s (sos_equations sections.now)) }
{
    let count = sections.len() / 6;
    let mut entries = Vec::new(alloc);
    add_df2t_sections(&mut entries, sections, count)?;
    add_df2t_states(&mut entries, sections, count)?;
    add_last_section(&mut entries, count)?;
    cascade_df2t_is_never_refused(sections);
    cascade_df2t_keeps_the_outputs(sections);
    Sif::build_unrefused(alloc, Sizes::single(count, 2 * count), &entries)
}
