//! Step-down: one order after the other, from the highest to 0.

ghost use Rattle.std.specs.Prelude.{◌≡◌, ◌≤◌, ◌<◌, ◌+◌, ◌++◌, [], ◌∷◌, max, length, IfOk, OnOk, option_map};
ghost use Rattle.fx_math.specs.Answers.{Gives};
ghost use Rattle.fx_lattice.specs.Exact.{EnclosesExact};
ghost use Rattle.fx_lattice.specs.Lattice.{at};
ghost use Rattle.fx_lattice.specs.Operations.{less_product, one_point};
ghost use Rattle.fx_sif.specs.Entries.{coefficient};
ghost use Rattle.fx_lattice.specs.StepDown.{
  behind,
  down,
  enclosed,
  enclosures,
  greater_order,
  is_memory,
  lower_a,
  lower_b,
  lower_denominator,
  lower_numerator,
  step_down,
};

use crate::operands::{Operand, Reflection, one};
use crate::refusal::Step;
use crate::rungs::Ladder;
use fx_eqs::REFLECTIONS;
use fx_nums::Frac;
use fx_sif::coefficient;
use std::alloc::{AllocError, Global};

// Coefficient `j` of a list, enclosed; 0 where it has none.
fn enclosed(coefficients: &[Frac], j: usize) -> Operand
    ensures { result ≡ enclosed (coefficient coefficients.now j) }
{
    Operand::enclosing(coefficient(coefficients, j))
}

// So many coefficients from this one on, enclosed.
fn enclosures(
    alloc: Global,
    coefficients: &[Frac],
    first: usize,
    count: usize,
) -> Result<Vec<Operand>, AllocError>
    requires { first + count ≤ REFLECTIONS + 1 }
    ensures { IfOk result (λ v. v.items ≡ enclosures coefficients.now first count) }
{
    let mut intervals = Vec::new(alloc);
    for j in 0..count {
        intervals.push(enclosed(coefficients, j + first))?;
    }
    Ok(intervals)
}

// The number at a place; 0 where there is none.
fn at(numbers: &[Operand], j: usize) -> Operand
    ensures { result ≡ at numbers.now j }
{
    if j < numbers.len() {
        return numbers[j];
    }
    Operand::zero()
}

// Coefficient `j` of a denominator without its leading 1, from 1 on.
fn behind(a: &[Operand], j: usize) -> Operand
    requires { 1 ≤ j }
    ensures { result ≡ behind a.now j }
{
    at(a, j - 1)
}

// Coefficient `j` of the denominator of the order below `i`. The last is a divisor.
#[tactic(auto, unfolding(crate::specs::StepDown::lower_a))]
fn lower_a(i: usize, a: &[Operand], d: Operand, j: usize) -> Option<Operand>
    requires low { 1 ≤ j }
    requires high { j < i }
    ensures { result ≡ lower_a i a.now d j }
{
    let numerator = behind(a, j).less_product(behind(a, i), behind(a, i - j))?;
    numerator.over(d)
}

// The divisor of a step, `1 - k^2`.
fn divisor(k: Operand) -> Option<Operand>
    ensures { result ≡ less_product one_point k k }
{
    one().less_product(k, k)
}

// The denominator of the order below `i`. None where one of its coefficients is out of range.
#[tactic(auto, unfolding(crate::specs::StepDown::lower_denominator))]
fn lower_denominator(
    alloc: Global,
    i: usize,
    a: &[Operand],
) -> Result<Option<Vec<Operand>>, AllocError>
    requires { 1 ≤ i }
    ensures { IfOk result (λ r. option_map (λ v. v.items) r ≡ lower_denominator i a.now) }
{
    let Some(d) = divisor(behind(a, i)) else {
        return Ok(None);
    };
    let mut lower = Vec::new(alloc);
    for j in 0..i - 1 {
        let Some(next) = lower_a(i, a, d, j + 1) else {
            return Ok(None);
        };
        lower.push(next)?;
    }
    Ok(Some(lower))
}

// Coefficient `j` of the numerator of the order below `i`.
#[tactic(auto, unfolding(crate::specs::StepDown::lower_b))]
fn lower_b(i: usize, a: &[Operand], b: &[Operand], j: usize) -> Option<Operand>
    requires { j < i }
    ensures { result ≡ lower_b i a.now b.now j }
{
    at(b, j).less_product(at(b, i), behind(a, i - j))
}

// The numerator of the order below `i`. None where one of its coefficients is out of range.
#[tactic(auto, unfolding(crate::specs::StepDown::lower_numerator))]
fn lower_numerator(
    alloc: Global,
    i: usize,
    a: &[Operand],
    b: &[Operand],
) -> Result<Option<Vec<Operand>>, AllocError>
    ensures { IfOk result (λ r. option_map (λ v. v.items) r ≡ lower_numerator i a.now b.now) }
{
    let mut lower = Vec::new(alloc);
    for j in 0..i {
        let Some(next) = lower_b(i, a, b, j) else {
            return Ok(None);
        };
        lower.push(next)?;
    }
    Ok(Some(lower))
}

// The reflection coefficients and the taps of the orders up to one.
#[derive(Drop)]
struct Rungs {
    k: Vec<Reflection>,
    v: Vec<Operand>,
}

impl Rungs {
    // Of order 0.
    fn new(alloc: Global, tap: Operand) -> Result<Rungs, AllocError>
        ensures k { IfOk result (λ r. r.k.items ≡ []) }
        ensures v { IfOk result (λ r. r.v.items ≡ tap ∷ []) }
    {
        let mut v = Vec::new(alloc);
        v.push(tap)?;
        Ok(Rungs {
            k: Vec::new(alloc),
            v,
        })
    }

    // Those of the next order.
    fn push(&mut self, reflection: Reflection, tap: Operand) -> Result<(), AllocError>
        ensures k { OnOk result (self.new.k.items ≡ self.old.k.items ++ reflection ∷ []) }
        ensures v { OnOk result (self.new.v.items ≡ self.old.v.items ++ tap ∷ []) }
    {
        self.k.push(reflection)?;
        self.v.push(tap)?;
        Ok(())
    }
}

// From order `i` down to 0.
fn down(alloc: Global, i: usize, a: &[Operand], b: &[Operand]) -> Result<Rungs, Step>
    requires { i ≤ REFLECTIONS }
    ensures { Gives is_memory (λ r. record { k = r.k.items; v = r.v.items }) result (down i a.now b.now) }
{
    if i == 0 {
        return Ok(Rungs::new(alloc, at(b, 0))?);
    }
    let enclosure = behind(a, i).interval();
    let Some(reflection) = Reflection::of(enclosure) else {
        return Err(Step::NotBelowOne(i as u8, enclosure));
    };
    let out_of_range = Step::Range(i as u8);
    let Some(lower) = lower_denominator(alloc, i, a)? else {
        return Err(out_of_range);
    };
    let Some(upper) = lower_numerator(alloc, i, a, b)? else {
        return Err(out_of_range);
    };
    let mut rungs = down(alloc, i - 1, &lower, &upper)?;
    rungs.push(reflection, at(b, i))?;
    Ok(rungs)
}

/// Step-down: the lattice with the transfer function of numerator `b` and denominator `a`, of 1 to
/// `REFLECTIONS` + 1 coefficients each. The denominator's first stands for 1 and is not read. Missing
/// coefficients are 0.
///
/// From the greater order down to 1, the reflection coefficient `k` of order `i` is the denominator's last
/// coefficient and the tap `v` the numerator's. The next denominator is `(a_j - k a_(i-j)) / (1 - k^2)`, and
/// the next numerator is `b_j - v a_(i-j)`. The arithmetic is that of `Iv`, in this order of operations.
///
/// Its error is the first refusal: `NotBelowOne` with the enclosure of `k` where that does not lie strictly
/// between -1 and 1, then `Range` where an enclosure of this order leaves 88 bits or a divisor may be 0.
pub fn step_down(alloc: Global, b: &[Frac], a: &[Frac]) -> Result<Ladder, Step>
    requires numerator_low { 1 ≤ length b.now }
    requires numerator_high { length b.now ≤ REFLECTIONS + 1 }
    requires denominator_low { 1 ≤ length a.now }
    requires denominator_high { length a.now ≤ REFLECTIONS + 1 }
    ensures exact { Gives is_memory (λ l. l) result (step_down b.now a.now) }
    ensures order { IfOk result (λ l. length l.k ≡ greater_order b.now a.now) }
    ensures encloses { IfOk result (λ l. EnclosesExact b.now a.now l) }
{
    let order = b.len().max(a.len()) - 1;
    let lower = enclosures(alloc, a, 1, order)?;
    let upper = enclosures(alloc, b, 0, order + 1)?;
    let rungs = down(alloc, order, &lower, &upper)?;
    Ok(Ladder::of(rungs.k, rungs.v))
}
