ghost use Rattle.std.specs.Prelude.{◌≡◌, ◌+◌, ◌*◌, ◌≤◌, length, None};
ghost use Rattle.fx_eqs.specs.Faults.{eqs_fault};
ghost use Rattle.fx_eqs.specs.Laws.{CommonDividesEach, SystemsMeetTheirEquations, WhatFitsHasNoFault};
ghost use Rattle.fx_eqs.specs.Textbook.{lattice_terms, sos_terms, ss_terms, tf_terms};
ghost use Rattle.fx_eqs.specs.TextbookRuns.{CascadeRuns, LatticeRuns, StateSpaceRuns, TransferRuns};

use crate::limits::{COEFFICIENTS, PORTS, REFLECTIONS, SECTIONS, STATES};
use fx_nums::Frac;

/// A law with nothing to run: terms are never refused where those with a coefficient other than 0 make a system within
/// the limits.
pub fn what_fits_has_no_fault()
    ensures { WhatFitsHasNoFault }
{}

/// A law with nothing to run: the exact values of each system within the limits meet its equations.
pub fn exact_values_meet_their_equations()
    ensures { SystemsMeetTheirEquations }
{}

/// A law with nothing to run: the terms of a transfer function with at most `COEFFICIENTS` coefficients above and below
/// are never refused.
pub fn transfer_functions_have_no_fault(b: &[Frac], a: &[Frac])
    requires b_high { length b.now ≤ COEFFICIENTS }
    requires a_high { length a.now ≤ COEFFICIENTS }
    ensures { eqs_fault 1 1 (tf_terms b.now a.now) ≡ None }
{}

/// A law with nothing to run: the terms of one to `SECTIONS` second-order sections, of six coefficients each, are never
/// refused.
pub fn cascades_have_no_fault(count: usize, sections: &[Frac])
    requires low { 1 ≤ count }
    requires high { count ≤ SECTIONS }
    requires whole { length sections.now ≡ 6 * count }
    ensures { eqs_fault count 1 (sos_terms sections.now) ≡ None }
{}

/// A law with nothing to run: the terms of a state space with at most `STATES` states, at most `PORTS` inputs and 1 to
/// `PORTS` outputs are never refused, however many entries the matrices have.
pub fn state_spaces_have_no_fault(
    n: usize,
    m: usize,
    p: usize,
    a: &[Frac],
    b: &[Frac],
    c: &[Frac],
    d: &[Frac],
)
    requires states { n ≤ STATES }
    requires inputs { m ≤ PORTS }
    requires outputs_low { 1 ≤ p }
    requires outputs_high { p ≤ PORTS }
    ensures { eqs_fault (n + p) m (ss_terms n m p a.now b.now c.now d.now) ≡ None }
{}

/// A law with nothing to run: the terms of a lattice with at most `REFLECTIONS` reflection coefficients, and no more
/// than one tap beyond these, are never refused.
pub fn lattices_have_no_fault(k: &[Frac], v: &[Frac])
    requires order { length k.now ≤ REFLECTIONS }
    requires taps { length v.now ≤ length k.now + 1 }
    ensures { eqs_fault (2 * length k.now + 1) 1 (lattice_terms k.now v.now) ≡ None }
{}

/// A law with nothing to run: the product of the greatest powers of two and of ten among the denominators of a system
/// is positive, and it and each of its multiples is a denominator of every coefficient of the system.
pub fn common_divides_each()
    ensures { CommonDividesEach }
{}

/// A law with nothing to run: the exact run of a transfer function meets its recursion over the input,
/// `y(k) = b0 x(k) + b1 x(k-1) + .. - a1 y(k-1) - a2 y(k-2) - ..`, where all is 0 before the first moment.
pub fn transfer_functions_meet_their_recursion()
    ensures { TransferRuns }
{}

/// A law with nothing to run: in the exact run of a cascade, each second-order section meets its recursion over the
/// section before it, and the first over the input.
pub fn cascades_meet_their_recursions()
    ensures { CascadeRuns }
{}

/// A law with nothing to run: the exact run of a state space meets `x(k+1) = A x(k) + B u(k)` and
/// `y(k) = C x(k) + D u(k)`, and its states are 0 at the first moment.
pub fn state_spaces_meet_their_equations()
    ensures { StateSpaceRuns }
{}

/// A law with nothing to run: the exact run of a lattice meets its equations from the input down to the first
/// reflection and back up, and its output is the sum of the taps over what comes back.
pub fn lattices_meet_their_equations()
    ensures { LatticeRuns }
{}
