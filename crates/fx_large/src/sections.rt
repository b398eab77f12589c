//! Sections and samples that are drawn.

ghost use Rattle.std.specs.Prelude.{◌≡◌, IfOk, OnErr, OnOk, ◌<◌, ◌≤◌, unsigned_abs};
ghost use Rattle.fx_files.specs.Plan.{SectionsFit};
ghost use Rattle.fx_large.specs.Draws.{draw, state_after};
ghost use Rattle.fx_large.specs.Sections.{
  centred,
  denominator_of,
  numerator_of,
  sample_of,
  samples_state,
  section_from,
  sections_of,
  thousandths,
};

use crate::drawing::Draws;
use crate::limits::SECTIONS_DRAWN;
use fx_nums::{Den, Frac};
use std::alloc::{AllocError, Global};

// A number of thousandths.
fn thousandths(number: i64) -> Frac
    requires { unsigned_abs number ≤ 1000 }
    ensures { result ≡ thousandths number }
{
    match Frac::new(number, Den::Ten(3)) {
        Some(fraction) => fraction,
        None => unreachable!(),
    }
}

// A draw, brought into the numbers from -middle to middle.
fn centred(draw: u16, middle: u16) -> i64
    requires { middle ≤ 1000 }
    ensures value { result ≡ centred draw middle }
    ensures within { unsigned_abs result ≤ middle }
{
    i64::from(draw % (2 * middle + 1)) - i64::from(middle)
}

// A coefficient of a numerator.
#[tactic(auto, unfolding(crate::specs::Draws::state_after))]
fn numerator(draws: &mut Draws) -> Frac
    ensures value { result ≡ numerator_of (draw draws.old.state 1) }
    ensures state { draws.new.state ≡ state_after 1 draws.old.state }
{
    thousandths(centred(draws.draw(), 300))
}

// A coefficient of a denominator.
#[tactic(auto, unfolding(crate::specs::Draws::state_after))]
fn denominator(draws: &mut Draws) -> Frac
    ensures value { result ≡ denominator_of (draw draws.old.state 1) }
    ensures state { draws.new.state ≡ state_after 1 draws.old.state }
{
    thousandths(centred(draws.draw(), 200))
}

// A section.
#[tactic(auto, unfolding(crate::specs::Draws::state_after, crate::specs::Sections::section_from))]
fn section(draws: &mut Draws) -> [Frac; 6]
    ensures value { result ≡ section_from draws.old.state }
    ensures state { draws.new.state ≡ state_after 5 draws.old.state }
{
    let (b0, b1, b2) = (numerator(draws), numerator(draws), numerator(draws));
    let (a1, a2) = (denominator(draws), denominator(draws));
    [b0, b1, b2, Frac::one(), a1, a2]
}

/// The sections that are drawn from a number, one behind the other: b0 b1 b2 a0 a1 a2 of each. The draws of samples
/// follow. Its error is want of memory, which leaves the draws as they were.
pub fn drawn_sections(alloc: Global, draws: &mut Draws) -> Result<Vec<Frac>, AllocError>
    ensures value { IfOk result (λ v. v.items ≡ sections_of draws.old.state) }
    ensures fits { IfOk result (λ v. SectionsFit v.items) }
    ensures state { OnOk result (draws.new.state ≡ samples_state draws.old.state) }
    ensures refused { OnErr result (draws.new ≡ draws.old) }
{
    let mut ahead = *draws;
    let mut sections = Vec::new(alloc);
    for _ in 0..SECTIONS_DRAWN {
        sections.extend_from_slice(&section(&mut ahead))?;
    }
    *draws = ahead;
    Ok(sections)
}

/// The next sample: a word from -1000 to 1000.
#[tactic(auto, unfolding(crate::specs::Draws::state_after))]
pub fn next_sample(draws: &mut Draws) -> i64
    ensures value { result ≡ sample_of (draw draws.old.state 1) }
    ensures state { draws.new.state ≡ state_after 1 draws.old.state }
    ensures within { unsigned_abs result ≤ 1000 }
{
    centred(draws.draw(), 1000)
}
