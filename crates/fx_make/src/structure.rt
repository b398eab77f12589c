//! The structure that a filter asks for.

ghost use Rattle.std.specs.Prelude.{◌≡◌, ◌+◌, length, IfOk};
ghost use Rattle.fx_math.specs.Answers.{Gives};
ghost use Rattle.fx_eqs.specs.Textbook.{lattice_equations, sos_equations, tf_equations};
ghost use Rattle.fx_files.specs.Coefficients as coefficients;
ghost use Rattle.fx_files.specs.Coefficients.{form_of};
ghost use Rattle.fx_files.specs.Fits.{CascadeFits, LadderFits, TransferFits};
ghost use Rattle.fx_files.specs.declared.forms.Form.TheVariants as form;
ghost use Rattle.fx_lattice.specs.StepDown.{step_down};
ghost use Rattle.fx_sif.specs.SameOutputs.{HasOutputs};
ghost use Rattle.fx_space.specs.Matrices.{SpaceFits};
ghost use Rattle.fx_space.specs.Space.{space_equations};
ghost use Rattle.fx_make.specs.Structures.{
  HasFewEntries,
  HasPorts,
  built_equations,
  equations_by,
  fir_or_refusal,
  is_memory,
  ladder_equations,
  lattice_form,
  reflections_of,
  sections_form,
  space_form,
  step_down_or_refusal,
  structure_form,
  taps_of,
  transfer_form,
};

use crate::refusal::StructureFault;
use fx_cascade::{
    cascade_df1, cascade_df1_is_never_refused, cascade_df2t, cascade_df2t_is_never_refused,
};
use fx_direct::{
    df1, df1_is_never_refused, df2, df2_is_never_refused, df2t, df2t_is_never_refused, fir,
    fir_is_never_refused,
};
use fx_eqs::REFLECTIONS;
use fx_files::{Filter, Form, Key, Structure, filters_fit};
use fx_lattice::{Ladder, ladder_is_never_refused, ladder_sif, step_down};
use fx_nums::Frac;
use fx_sif::{Sif, Sizes};
use fx_space::{space, space_is_never_refused};
use std::alloc::{AllocError, Global};

// The structure without feedback.
#[tactic(auto, using(crate::proofs::OfForm::without_feedback))]
fn fir_form(alloc: Global, b: &[Frac], a: &[Frac]) -> Result<Sif, StructureFault>
    requires { TransferFits b.now a.now }
    ensures value { Gives is_memory (λ s. s) result (fir_or_refusal b.now a.now) }
    ensures same { IfOk result (λ s. HasOutputs s (tf_equations b.now a.now)) }
    ensures few { IfOk result HasFewEntries }
{
    if a.len() != 1 {
        return Err(StructureFault::NotFir(a.len()));
    }
    fir_is_never_refused(b);
    Ok(fir(alloc, b)?)
}

// The reflection coefficients of a lattice as fractions.
#[tactic(auto, using(crate::proofs::Listed::listed_count, crate::proofs::Listed::listed_next))]
fn reflections(alloc: Global, ladder: &Ladder) -> Result<Vec<Frac>, AllocError>
    ensures value { IfOk result (λ k. k.items ≡ reflections_of ladder.now) }
    ensures count { IfOk result (λ k. length k.items ≡ length ladder.now.k) }
{
    let mut k = Vec::new(alloc);
    for i in 0..ladder.order() {
        k.push(ladder.k_frac(i + 1))?;
    }
    Ok(k)
}

// Its taps as fractions.
#[tactic(auto, using(crate::proofs::Listed::listed_count, crate::proofs::Listed::listed_next))]
fn taps(alloc: Global, ladder: &Ladder) -> Result<Vec<Frac>, AllocError>
    ensures value { IfOk result (λ v. v.items ≡ taps_of ladder.now) }
    ensures count { IfOk result (λ v. length v.items ≡ length ladder.now.k + 1) }
{
    let mut v = Vec::new(alloc);
    for i in 0..ladder.order() + 1 {
        v.push(ladder.v_frac(i))?;
    }
    Ok(v)
}

// The lattice structure by step-down.
fn step_down_form(alloc: Global, b: &[Frac], a: &[Frac]) -> Result<Sif, StructureFault>
    requires { TransferFits b.now a.now }
    ensures value { Gives is_memory (λ s. s) result (step_down_or_refusal b.now a.now) }
    ensures same { IfOk result (λ s. HasOutputs s
        (ladder_equations (step_down b.now a.now) (tf_equations b.now a.now))) }
    ensures few { IfOk result HasFewEntries }
{
    let order = b.len().max(a.len()) - 1;
    if order > REFLECTIONS {
        return Err(StructureFault::Order(order, REFLECTIONS));
    }
    let ladder = step_down(alloc, b, a)?;
    let k = reflections(alloc, &ladder)?;
    let v = taps(alloc, &ladder)?;
    ladder_is_never_refused(&k, &v);
    Ok(ladder_sif(alloc, &k, &v)?)
}

// The structures of a transfer function.
fn transfer_form(
    alloc: Global,
    b: &[Frac],
    a: &[Frac],
    structure: Structure,
) -> Result<Sif, StructureFault>
    requires { TransferFits b.now a.now }
    ensures value { Gives is_memory (λ s. s) result (transfer_form b.now a.now structure) }
    ensures same { IfOk result (λ s. HasOutputs s
        (equations_by (coefficients.Tf b.now a.now) structure (tf_equations b.now a.now))) }
    ensures few { IfOk result HasFewEntries }
{
    df1_is_never_refused(b, a);
    df2_is_never_refused(b, a);
    df2t_is_never_refused(b, a);
    match structure {
        Structure::Df1 => Ok(df1(alloc, b, a)?),
        Structure::Df2 => Ok(df2(alloc, b, a)?),
        Structure::Df2t => Ok(df2t(alloc, b, a)?),
        Structure::Fir => fir_form(alloc, b, a),
        Structure::Lattice => step_down_form(alloc, b, a),
        Structure::Ss => Err(StructureFault::NotListed(Form::Tf, structure)),
    }
}

// The structures of second-order sections.
fn sections_form(
    alloc: Global,
    sections: &[Frac],
    structure: Structure,
) -> Result<Sif, StructureFault>
    requires { CascadeFits sections.now }
    ensures value { Gives is_memory (λ s. s) result (sections_form sections.now structure) }
    ensures same { IfOk result (λ s. HasOutputs s (sos_equations sections.now)) }
    ensures few { IfOk result HasFewEntries }
{
    cascade_df1_is_never_refused(sections);
    cascade_df2t_is_never_refused(sections);
    match structure {
        Structure::Df1 => Ok(cascade_df1(alloc, sections)?),
        Structure::Df2t => Ok(cascade_df2t(alloc, sections)?),
        _ => Err(StructureFault::NotListed(Form::Sos, structure)),
    }
}

// The structure of a state space.
fn space_form(
    alloc: Global,
    sizes: Sizes,
    abcd: &[Frac],
    structure: Structure,
) -> Result<Sif, StructureFault>
    requires { SpaceFits sizes abcd.now }
    ensures value { Gives is_memory (λ s. s) result (space_form sizes abcd.now structure) }
    ensures same { IfOk result (λ s. HasOutputs s (space_equations sizes abcd.now)) }
    ensures few { IfOk result HasFewEntries }
{
    space_is_never_refused(sizes, abcd);
    match structure {
        Structure::Ss => Ok(space(alloc, sizes, abcd)?),
        _ => Err(StructureFault::NotListed(Form::Ss, structure)),
    }
}

// The structure of a lattice.
fn lattice_form(
    alloc: Global,
    k: &[Frac],
    v: &[Frac],
    structure: Structure,
) -> Result<Sif, StructureFault>
    requires { LadderFits k.now v.now }
    ensures value { Gives is_memory (λ s. s) result (lattice_form k.now v.now structure) }
    ensures same { IfOk result (λ s. HasOutputs s (lattice_equations k.now v.now)) }
    ensures few { IfOk result HasFewEntries }
{
    ladder_is_never_refused(k, v);
    match structure {
        Structure::Lattice => Ok(ladder_sif(alloc, k, v)?),
        _ => Err(StructureFault::NotListed(Form::Lattice, structure)),
    }
}

// The structure of a filter in the form of a transfer function.
#[tactic(auto, using(crate::proofs::OfForm::is_transfer))]
fn of_transfer(alloc: Global, filter: &Filter) -> Result<Sif, StructureFault>
    requires { form_of filter.now.coefficients ≡ form.Tf }
    ensures value { Gives is_memory (λ s. s) result (structure_form filter.now) }
    ensures same { IfOk result (λ s. HasOutputs s (built_equations filter.now)) }
    ensures few { IfOk result HasFewEntries }
{
    filters_fit(filter);
    let (b, a) = (filter.list(Key::B), filter.list(Key::A));
    transfer_form(alloc, b, a, filter.structure())
}

// The structure of a filter in the form of sections.
#[tactic(auto, using(crate::proofs::OfForm::is_sections))]
fn of_sections(alloc: Global, filter: &Filter) -> Result<Sif, StructureFault>
    requires { form_of filter.now.coefficients ≡ form.Sos }
    ensures value { Gives is_memory (λ s. s) result (structure_form filter.now) }
    ensures same { IfOk result (λ s. HasOutputs s (built_equations filter.now)) }
    ensures few { IfOk result HasFewEntries }
{
    filters_fit(filter);
    sections_form(alloc, filter.list(Key::Sections), filter.structure())
}

// The structure of a filter in the form of a state space.
#[tactic(auto, using(crate::proofs::OfForm::is_space))]
fn of_space(alloc: Global, filter: &Filter) -> Result<Sif, StructureFault>
    requires { form_of filter.now.coefficients ≡ form.Ss }
    ensures value { Gives is_memory (λ s. s) result (structure_form filter.now) }
    ensures same { IfOk result (λ s. HasOutputs s (built_equations filter.now)) }
    ensures few { IfOk result HasFewEntries }
{
    filters_fit(filter);
    let (inputs, outputs) = (filter.inputs().len(), filter.outputs().len());
    let states = filter.list(Key::MatB).len() / inputs;
    let sizes = Sizes {
        t: 0,
        x: states as u8,
        u: inputs as u8,
        y: outputs as u8,
    };
    space_form(alloc, sizes, filter.coefficients(), filter.structure())
}

// The structure of a filter in the form of a lattice.
#[tactic(auto, using(crate::proofs::OfForm::is_lattice))]
fn of_lattice(alloc: Global, filter: &Filter) -> Result<Sif, StructureFault>
    requires { form_of filter.now.coefficients ≡ form.Lattice }
    ensures value { Gives is_memory (λ s. s) result (structure_form filter.now) }
    ensures same { IfOk result (λ s. HasOutputs s (built_equations filter.now)) }
    ensures few { IfOk result HasFewEntries }
{
    filters_fit(filter);
    let (k, v) = (filter.list(Key::K), filter.list(Key::V));
    lattice_form(alloc, k, v, filter.structure())
}

/// The implicit form of the structure that a filter asks for. It has the outputs of the filter's equations; only a
/// transfer function's lattice, whose fractions step-down cuts, has those of its own equations.
///
/// A transfer function may be `df1`, `df2`, `df2t`, `fir` or `lattice`, sections `df1` or `df2t`, a state space `ss`
/// and a lattice `lattice`. Its error is the first refusal: `NotListed` for other structures; `NotFir` with the count
/// of the denominator's coefficients, where these are more than one; `Order` above `REFLECTIONS` of fx_eqs; then the
/// refusals of step-down. `NoMemory` may come at any time.
#[tactic(auto, using(crate::proofs::Ports::has_ports))]
pub fn build_structure(alloc: Global, filter: &Filter) -> Result<Sif, StructureFault>
    ensures value { Gives is_memory (λ s. s) result (structure_form filter.now) }
    ensures same { IfOk result (λ s. HasOutputs s (built_equations filter.now)) }
    ensures ports { IfOk result (λ s. HasPorts filter.now s) }
    ensures few { IfOk result HasFewEntries }
{
    filters_fit(filter);
    match filter.form() {
        Form::Tf => of_transfer(alloc, filter),
        Form::Sos => of_sections(alloc, filter),
        Form::Ss => of_space(alloc, filter),
        Form::Lattice => of_lattice(alloc, filter),
    }
}
