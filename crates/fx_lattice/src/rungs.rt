ghost use Rattle.std.specs.Prelude.{◌≡◌, ◌≤◌, ◌<◌, ◌-◌, ◌*◌, ◌/◌, ◌^◌, length, pos, unsigned_abs};
ghost use Rattle.fx_nums.specs.Fraction.{FractionFits};
ghost use Rattle.fx_nums.specs.declared.fraction.Den.TheVariants.{Two};
ghost use Rattle.fx_nums.specs.Interval.{IntervalFits};
ghost use Rattle.fx_lattice.specs.Lattice.{IsBelowOne, LatticeFits, cut, low_over, reflection, tap};

use crate::limits::{REFLECTION_BITS, TAP_BITS};
use crate::operands::{Operand, Reflection};
use fx_nums::{Den, Frac, Iv, NUMERATOR_BITS, OPERAND_BITS, SCALE_BITS};
use std::marker::Model;

/// The lattice of a transfer function: enclosures of its reflection coefficients, N of them from 1 on, and of
/// its N + 1 taps from 0 on. N is at most `REFLECTIONS` of fx_eqs.
#[derive(Drop)]
pub struct Ladder {
    k: Vec<Reflection>,
    v: Vec<Operand>,
}

impl Model for Ladder {
    ghost use Rattle.fx_lattice.specs.Lattice.{Lattice, LatticeFits};

    ghost Value = { Lattice };

    ghost view = { λ l. record { k = l.k.items; v = l.v.items } };

    ghost invariant = { λ l. LatticeFits (record { k = l.k.items; v = l.v.items }) };
}

// A magnitude divided by 2^bits and rounded down.
#[tactic(auto, using(crate::proofs::Cutting::quotient_below))]
fn shifted(magnitude: u128, bits: u32) -> i64
    requires bits { bits ≤ SCALE_BITS }
    requires range { magnitude < 2 ^ NUMERATOR_BITS * 2 ^ bits }
    ensures value { result ≡ pos (magnitude / 2 ^ bits) }
    ensures bound { magnitude / 2 ^ bits < 2 ^ NUMERATOR_BITS }
{
    (magnitude >> bits) as i64
}

// A number divided by 2^bits and cut towards zero.
#[tactic(auto, using(crate::proofs::Cutting::cut_negative, crate::proofs::Cutting::cut_positive))]
fn cut(z: i128, bits: u32) -> i64
    requires bits { bits ≤ SCALE_BITS }
    requires range { unsigned_abs z < 2 ^ NUMERATOR_BITS * 2 ^ bits }
    ensures value { result ≡ cut z (2 ^ bits) }
    ensures bound { unsigned_abs result < 2 ^ NUMERATOR_BITS }
{
    let magnitude = shifted(z.unsigned_abs(), bits);
    if z < 0 { -magnitude } else { magnitude }
}

// A numerator over a power of two.
fn over_two(num: i64, bits: u8) -> Frac
    requires { FractionFits num (Two bits) }
    ensures { result ≡ record { num = num; den = Two bits } }
{
    match Frac::new(num, Den::Two(bits)) {
        Some(fraction) => fraction,
        None => unreachable!(),
    }
}

impl Ladder {
    /// The lattice of these enclosures.
    pub(crate) fn of(k: Vec<Reflection>, v: Vec<Operand>) -> Ladder
        requires { LatticeFits (record { k = k.items; v = v.items }) }
        ensures { result ≡ record { k = k.items; v = v.items } }
    {
        Ladder { k, v }
    }

    /// How many reflection coefficients there are: 0 to `REFLECTIONS` of fx_eqs. There is one tap more.
    pub fn order(&self) -> usize
        ensures value { result ≡ length self.now.k }
        ensures fits { LatticeFits self.now }
    {
        self.k.len()
    }

    /// The enclosure of reflection coefficient `i`, from 1 on. It lies strictly between -1 and 1.
    pub fn k(&self, i: usize) -> Iv
        requires low { 1 ≤ i }
        requires high { i ≤ length self.now.k }
        ensures value { result ≡ reflection self.now i }
        ensures below_one { IsBelowOne result }
    {
        self.k[i - 1].interval()
    }

    /// Reflection coefficient `i`, from 1 on, as a fraction over 2^62: the low end, cut towards zero.
    pub fn k_frac(&self, i: usize) -> Frac
        requires low { 1 ≤ i }
        requires high { i ≤ length self.now.k }
        ensures { result ≡ low_over REFLECTION_BITS (reflection self.now i) }
    {
        let low = cut(self.k(i).lo(), SCALE_BITS - u32::from(REFLECTION_BITS));
        over_two(low, REFLECTION_BITS)
    }

    /// The enclosure of tap `i`, from 0 on. Its ends fit 88 bits.
    pub fn v(&self, i: usize) -> Iv
        requires { i ≤ length self.now.k }
        ensures value { result ≡ tap self.now i }
        ensures fits { IntervalFits result OPERAND_BITS }
    {
        self.v[i].interval()
    }

    /// Tap `i`, from 0 on, as a fraction over 2^38: the low end, cut towards zero.
    pub fn v_frac(&self, i: usize) -> Frac
        requires { i ≤ length self.now.k }
        ensures { result ≡ low_over TAP_BITS (tap self.now i) }
    {
        let low = cut(self.v(i).lo(), SCALE_BITS - u32::from(TAP_BITS));
        over_two(low, TAP_BITS)
    }
}
