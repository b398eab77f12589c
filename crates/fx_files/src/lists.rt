//! The lists of coefficients of each form.

ghost use Rattle.std.specs.Prelude.{◌≡◌, ◌≤◌, ◌+◌, ◌*◌, ◌^◌, ◌<◌, length, All, IfOk};
ghost use Rattle.toml.specs.View.{table_view, items_view};
ghost use Rattle.fx_nums.specs.Fraction.{OverTen};
ghost use Rattle.fx_math.specs.Answers.{Gives};
ghost use Rattle.fx_keys.specs.Faults.{is_memory, seen};
ghost use Rattle.fx_keys.specs.Keys.{most_of};
ghost use Rattle.fx_files.specs.Coefficients.{coefficients_of, form_of};
ghost use Rattle.fx_files.specs.Lists.{
  cascade_in,
  coefficients_in,
  each_monic,
  ladder_in,
  matrix_in,
  monic,
  polynomial_in,
  reflections_in,
  space_in,
  state_rows,
  taps_in,
  transfer_in,
};
ghost use Rattle.fx_files.specs.Fits.{AlwaysFit, CoefficientsFit};
ghost use Rattle.fx_files.specs.declared.forms.Form.TheVariants as form;

use crate::coefficients::Coefficients;
use crate::forms::Form;
use fx_eqs::{PORTS, REFLECTIONS, STATES};
use fx_keys::{
    FilterFault, Key, SECTION_COEFFICIENTS, at_most, each_numeral, entries_of, exactly, item_count,
    matrix_of, rows_of, some,
};
use fx_nums::Frac;
use std::alloc::Global;
use toml::{Table, Value};

// The first coefficient has to be 1.
fn monic(coefficients: &[Frac], key: Key) -> Result<(), FilterFault>
    ensures { result ≡ monic key 0 coefficients.now }
{
    match coefficients {
        [first, ..] if !first.is_one() => Err(FilterFault::NotMonic(key, 0)),
        _ => Ok(()),
    }
}

// Of each six coefficients, the first of which stands at this place, the fourth has to be 1.
#[tactic(auto, unfolding(crate::specs::Lists::each_monic))]
fn each_monic(coefficients: &[Frac], key: Key, place: u32) -> Result<(), FilterFault>
    requires { place + length coefficients.now < 2 ^ 32 }
    ensures { result ≡ each_monic key place coefficients.now }
{
    match coefficients {
        [_, _, _, first, _, _, rest @ ..] => {
            if !first.is_one() {
                return Err(FilterFault::NotMonic(key, place + 3));
            }
            each_monic(rest, key, place + 6)
        }
        _ => Ok(()),
    }
}

// One numeral or more, up to one more than the greatest order.
#[tactic(auto, unfolding(crate::specs::Lists::polynomial_in))]
fn polynomial_of(alloc: Global, table: &Table, key: Key) -> Result<Vec<Frac>, FilterFault>
    ensures gives { Gives is_memory (λ v. v.items) result (polynomial_in key (table_view table.now)) }
    ensures low { IfOk result (λ v. 1 ≤ length v.items) }
    ensures high { IfOk result (λ v. length v.items ≤ most_of key) }
    ensures over_ten { IfOk result (λ v. All OverTen v.items) }
{
    let entries = entries_of(table, key)?;
    some(entries, key)?;
    at_most(entries, key)?;
    each_numeral(alloc, entries, key, 0)
}

// Numerator and denominator of a transfer function.
#[tactic(auto, unfolding(crate::specs::Lists::transfer_in), using(crate::proofs::ListsOverTen::both_over_ten))]
fn transfer_of(alloc: Global, table: &Table) -> Result<Coefficients, FilterFault>
    ensures gives { Gives is_memory (λ c. c) result (transfer_in (table_view table.now)) }
    ensures fits { IfOk result AlwaysFit }
    ensures form { IfOk result (λ c. form_of c ≡ form.Tf) }
    ensures over_ten { IfOk result (λ c. All OverTen (coefficients_of c)) }
{
    let b = polynomial_of(alloc, table, Key::B)?;
    let a = polynomial_of(alloc, table, Key::A)?;
    monic(&a, Key::A)?;
    Ok(Coefficients::transfer(b, &a)?)
}

// One section or more.
#[tactic(auto, unfolding(crate::specs::Lists::cascade_in))]
fn cascade_of(alloc: Global, table: &Table) -> Result<Coefficients, FilterFault>
    ensures gives { Gives is_memory (λ c. c) result (cascade_in (table_view table.now)) }
    ensures fits { IfOk result AlwaysFit }
    ensures form { IfOk result (λ c. form_of c ≡ form.Sos) }
    ensures over_ten { IfOk result (λ c. All OverTen (coefficients_of c)) }
{
    let rows = rows_of(table, Key::Sections)?;
    some(rows, Key::Sections)?;
    at_most(rows, Key::Sections)?;
    let sections = matrix_of(alloc, rows, Key::Sections, SECTION_COEFFICIENTS)?;
    each_monic(&sections, Key::Sections, 0)?;
    Ok(Coefficients::cascade(sections))
}

// The rows of the matrix over the states: one for each.
#[tactic(auto, unfolding(crate::specs::Lists::state_rows))]
fn state_rows(table: &Table) -> Result<&[Value], FilterFault>
    ensures gives { seen (λ s. items_view s.now) result ≡ state_rows (table_view table.now) }
    ensures low { IfOk result (λ s. 1 ≤ length s.now) }
    ensures high { IfOk result (λ s. length s.now ≤ STATES) }
{
    let rows = rows_of(table, Key::MatA)?;
    some(rows, Key::MatA)?;
    at_most(rows, Key::MatA)?;
    Ok(rows)
}

// A matrix of so many rows of so many numerals each.
#[tactic(auto, unfolding(crate::specs::Lists::matrix_in))]
fn matrix_at(
    alloc: Global,
    table: &Table,
    key: Key,
    count: usize,
    width: usize,
) -> Result<Vec<Frac>, FilterFault>
    requires count { count ≤ STATES }
    requires width { width ≤ STATES }
    ensures gives { Gives is_memory (λ v. v.items) result (matrix_in key count width (table_view table.now)) }
    ensures count { IfOk result (λ v. length v.items ≡ count * width) }
    ensures over_ten { IfOk result (λ v. All OverTen v.items) }
{
    let rows = rows_of(table, key)?;
    some(rows, key)?;
    exactly(rows, key, count)?;
    matrix_of(alloc, rows, key, width)
}

// The matrices of a state space.
#[tactic(auto, unfolding(crate::specs::Lists::space_in), using(crate::proofs::ListsOverTen::four_over_ten))]
fn space_of(
    alloc: Global,
    table: &Table,
    inputs: usize,
    outputs: usize,
) -> Result<Coefficients, FilterFault>
    requires inputs { inputs ≤ PORTS }
    requires outputs { outputs ≤ PORTS }
    ensures gives { Gives is_memory (λ c. c) result (space_in inputs outputs (table_view table.now)) }
    ensures fits { IfOk result (CoefficientsFit inputs outputs) }
    ensures form { IfOk result (λ c. form_of c ≡ form.Ss) }
    ensures over_ten { IfOk result (λ c. All OverTen (coefficients_of c)) }
{
    let rows = state_rows(table)?;
    let states = item_count(rows);
    let a = matrix_of(alloc, rows, Key::MatA, states)?;
    let b = matrix_at(alloc, table, Key::MatB, states, inputs)?;
    let c = matrix_at(alloc, table, Key::MatC, outputs, states)?;
    let d = matrix_at(alloc, table, Key::MatD, outputs, inputs)?;
    Ok(Coefficients::space(states, a, &b, &c, &d)?)
}

// Reflection coefficients: none, or up to the greatest order.
#[tactic(auto, unfolding(crate::specs::Lists::reflections_in))]
fn reflections_of(alloc: Global, table: &Table) -> Result<Vec<Frac>, FilterFault>
    ensures gives { Gives is_memory (λ v. v.items) result (reflections_in (table_view table.now)) }
    ensures high { IfOk result (λ v. length v.items ≤ REFLECTIONS) }
    ensures over_ten { IfOk result (λ v. All OverTen v.items) }
{
    let entries = entries_of(table, Key::K)?;
    at_most(entries, Key::K)?;
    each_numeral(alloc, entries, Key::K, 0)
}

// One tap more than reflection coefficients.
#[tactic(auto, unfolding(crate::specs::Lists::taps_in))]
fn taps_of(alloc: Global, table: &Table, order: usize) -> Result<Vec<Frac>, FilterFault>
    requires { order ≤ REFLECTIONS }
    ensures gives { Gives is_memory (λ v. v.items) result (taps_in order (table_view table.now)) }
    ensures count { IfOk result (λ v. length v.items ≡ order + 1) }
    ensures over_ten { IfOk result (λ v. All OverTen v.items) }
{
    let entries = entries_of(table, Key::V)?;
    some(entries, Key::V)?;
    exactly(entries, Key::V, order + 1)?;
    each_numeral(alloc, entries, Key::V, 0)
}

// Reflection coefficients and taps of a lattice.
#[tactic(auto, unfolding(crate::specs::Lists::ladder_in), using(crate::proofs::ListsOverTen::both_over_ten))]
fn ladder_of(alloc: Global, table: &Table) -> Result<Coefficients, FilterFault>
    ensures gives { Gives is_memory (λ c. c) result (ladder_in (table_view table.now)) }
    ensures fits { IfOk result AlwaysFit }
    ensures form { IfOk result (λ c. form_of c ≡ form.Lattice) }
    ensures over_ten { IfOk result (λ c. All OverTen (coefficients_of c)) }
{
    let k = reflections_of(alloc, table)?;
    let v = taps_of(alloc, table, k.len())?;
    Ok(Coefficients::lattice(k, &v)?)
}

/// The coefficients of a form, with so many inputs and outputs.
pub(crate) fn read_coefficients(
    alloc: Global,
    table: &Table,
    form: Form,
    inputs: usize,
    outputs: usize,
) -> Result<Coefficients, FilterFault>
    requires inputs { inputs ≤ PORTS }
    requires outputs { outputs ≤ PORTS }
    ensures gives { Gives is_memory (λ c. c) result (coefficients_in form inputs outputs (table_view table.now)) }
    ensures fits { IfOk result (CoefficientsFit inputs outputs) }
    ensures form { IfOk result (λ c. form_of c ≡ form) }
    ensures over_ten { IfOk result (λ c. All OverTen (coefficients_of c)) }
{
    match form {
        Form::Tf => transfer_of(alloc, table),
        Form::Sos => cascade_of(alloc, table),
        Form::Ss => space_of(alloc, table, inputs, outputs),
        Form::Lattice => ladder_of(alloc, table),
    }
}
