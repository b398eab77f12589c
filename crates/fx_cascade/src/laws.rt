//! Laws with nothing to run.

ghost use Rattle.fx_eqs.specs.Textbook.{sos_equations};
ghost use Rattle.fx_sif.specs.Laws.{NeverRefused};
ghost use Rattle.fx_sif.specs.SameOutputs.{HasOutputs};
ghost use Rattle.fx_cascade.specs.Cascades.{cascade_df1_form, cascade_df2t_form};
ghost use Rattle.fx_cascade.specs.Sections.{SectionsFit};

use fx_nums::Frac;
use fx_sif::what_fits_has_no_fault;

/// A law with nothing to run: the entries of `cascade_df1` are never refused, and there are at most `EQUATION_TERMS` of
/// fx_eqs.
pub fn cascade_df1_is_never_refused(sections: &[Frac])
    requires { SectionsFit sections.now }
    ensures { NeverRefused (cascade_df1_form sections.now) }
{
    what_fits_has_no_fault();
}

/// A law with nothing to run: the entries of `cascade_df2t` are never refused, and there are at most
/// `EQUATION_TERMS` of fx_eqs.
pub fn cascade_df2t_is_never_refused(sections: &[Frac])
    requires { SectionsFit sections.now }
    ensures { NeverRefused (cascade_df2t_form sections.now) }
{
    what_fits_has_no_fault();
}

/// A law with nothing to run: `cascade_df1` puts out what the equations of its sections put out, at every moment and
/// whatever the inputs.
pub fn cascade_df1_keeps_the_outputs(sections: &[Frac])
    requires { SectionsFit sections.now }
    ensures { HasOutputs (cascade_df1_form sections.now) (sos_equations sections.now) }
{}

/// A law with nothing to run: `cascade_df2t` puts out what the equations of its sections put out, at every moment and
/// whatever the inputs.
pub fn cascade_df2t_keeps_the_outputs(sections: &[Frac])
    requires { SectionsFit sections.now }
    ensures { HasOutputs (cascade_df2t_form sections.now) (sos_equations sections.now) }
{}
