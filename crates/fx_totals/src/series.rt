ghost use Rattle.std.specs.Prelude.{
  ◌≡◌,
  ℕ,
  ◌+◌,
  ◌*◌,
  ◌<◌,
  ◌≤◌,
  length,
  IfOk,
  List,
  None,
};
ghost use Rattle.fx_eqs.specs.declared.limits.TheConstants.{PORTS};
ghost use Rattle.fx_net.specs.Net.{Net as AnyNet};
ghost use Rattle.fx_net.specs.Tables.{net_of};
ghost use Rattle.fx_sweep.specs.declared.target.Target.{Target as AnyTarget};
ghost use Rattle.fx_totals.specs.Filled.{Filled, first_target_range, length_in, told_by};
ghost use Rattle.fx_totals.specs.Series.{
  AreDone,
  AreSoFar,
  AreUpToLength,
  CanBeSeries,
  IsKeptOn,
  IsMadeForEach,
  IsRefusedOn,
  IsSeries,
  WantUpTo,
  for_each,
  part_in,
  range_for,
  totals_for,
};

use crate::at_length::AtLength;
use crate::filling::{length_at, target_at};
use crate::limits::MOST_LENGTHS;
use crate::target_range::TargetRange;
use crate::totals::Totals;
use fx_eqs::PORTS;
use fx_net::{LARGEST_NET, Net, nets_fit};
use fx_sweep::{RangeAt, Sweep, Target};
use std::alloc::{AllocError, Global};
use std::marker::Model;

/// The totals of the same targets of a net with N rows at up to `MOST_LENGTHS` lengths, from one sweep of each target.
/// N is 1 to `LARGEST_NET`.
#[derive(Drop)]
pub struct Series<const N: usize> {
    // How many lengths are filled, and what is kept for each; there is room for `MOST_LENGTHS`.
    count: usize,
    parts: Vec<AtLength<N>>,
}

impl<const N: usize> Model for Series<N> {
    ghost use Rattle.std.specs.Prelude.{◌≡◌, ◌≤◌, length};
    ghost use Rattle.fx_totals.specs.Series.{KeptSeries};
    ghost use Rattle.fx_totals.specs.declared.limits.TheConstants.{MOST_LENGTHS};

    ghost Value = { KeptSeries };

    ghost view = { λ s. record { count = s.count; parts = s.parts.items } };

    ghost invariant = { λ s. (s.count ≤ MOST_LENGTHS) × (length s.parts.items ≡ MOST_LENGTHS) };
}

impl<const N: usize> Series<N> {
    /// A series with no length. It takes the memory of `MOST_LENGTHS` totals, at most 2 MB. Its error is want of
    /// memory.
    pub fn new(alloc: Global) -> Result<Series<N>, AllocError>
        requires low { 1 ≤ N }
        requires high { N ≤ LARGEST_NET }
        ensures { IfOk result (λ s. s.count ≡ 0) }
    {
        let mut parts = Vec::with_capacity(alloc, MOST_LENGTHS)?;
        for _ in 0..MOST_LENGTHS {
            parts.push(AtLength::new(alloc)?)?;
        }
        Ok(Series { count: 0, parts })
    }

    /// Sweeps each target in order, once, for as many moments as the greatest length for which no target has met a
    /// range, and keeps its numbers at each length. There are at most N + `PORTS` targets, and at most `MOST_LENGTHS`
    /// lengths of 1 to `GREATEST_LENGTH` moments, in any order.
    pub fn fill(&mut self, sweep: &mut Sweep<N>, net: &Net<N>, targets: &[Target], lengths: &[u16])
        requires { CanBeSeries N targets.now lengths.now }
        ensures filled { IsSeries self.new (net_of net.now) targets.now lengths.now }
        ensures made { (most : ℕ) → AreUpToLength most lengths.now →
            sweep.new.made ≤ sweep.old.made + length targets.now * most }
    {
        self.count = lengths.len();
        fill_parts(&mut self.parts, sweep, net, targets, lengths);
    }

    /// The totals that are filled with length `l` of those that the series was filled with, for each target. Its error
    /// is the first target that meets a range within that length.
    pub fn at(&self, l: usize) -> Result<&Totals<N>, TargetRange>
        requires { l < self.now.count }
        ensures range { told_by result ≡ range_for self.now l }
        ensures totals { IfOk result (λ totals. totals.now ≡ totals_for self.now l) }
        ensures first { (net : AnyNet) (targets : List AnyTarget) (lengths : List ℕ) →
            IsSeries self.now net targets lengths → told_by result
            ≡ first_target_range net targets (for_each targets (length_in lengths l)) (length targets) }
        ensures filled { (net : AnyNet) (targets : List AnyTarget) (lengths : List ℕ) →
            IsSeries self.now net targets lengths → IfOk result (λ totals.
            Filled totals.now net targets (for_each targets (length_in lengths l))) }
    {
        self.parts[l].answer()
    }
}

// Begins anew for each length, with no target.
fn begin_each<const N: usize>(parts: &mut [AtLength<N>], lengths: &[u16])
    requires few { length lengths.now ≤ length parts.old }
    requires some { (l : ℕ) → l < length lengths.now → 1 ≤ length_in lengths.now l }
    ensures count { length parts.new ≡ length parts.old }
    ensures begun { (net : AnyNet) (targets : List AnyTarget) → AreSoFar parts.new net targets lengths.now 0 0 }
{
    for l in 0..lengths.len() {
        let part = &mut parts[l];
        part.begin(length_at(lengths, l));
    }
}

// Target t was swept for so many moments: keeps its numbers for each of the first lengths that end there.
fn keep_each<const N: usize>(
    parts: &mut [AtLength<N>],
    count: usize,
    t: usize,
    sweep: &Sweep<N>,
    net: &Net<N>,
    moments: u16,
)
    requires count { count ≤ length parts.old }
    requires target { t < N + PORTS }
    ensures count { length parts.new ≡ length parts.old }
    ensures kept { IsMadeForEach (IsKeptOn sweep.now (net_of net.now) t moments) count parts.old parts.new }
{
    for l in 0..count {
        let part = &mut parts[l];
        part.keep(t, sweep, net, moments);
    }
}

// Target t met a range in the moment after so many: keeps it for each of the first lengths that go further.
fn refuse_each<const N: usize>(
    parts: &mut [AtLength<N>],
    count: usize,
    t: usize,
    at: RangeAt,
    moments: u16,
)
    requires count { count ≤ length parts.old }
    requires target { t < LARGEST_NET + PORTS }
    ensures count { length parts.new ≡ length parts.old }
    ensures refused { IsMadeForEach (IsRefusedOn t at moments) count parts.old parts.new }
{
    for l in 0..count {
        let part = &mut parts[l];
        part.refuse(t, at, moments);
    }
}

// The greater of two numbers of moments.
fn greater(a: u16, b: u16) -> u16
    ensures first { a ≤ result }
    ensures second { b ≤ result }
    ensures one { (most : ℕ) → a ≤ most → b ≤ most → result ≤ most }
{
    a.max(b)
}

// The greatest of the first lengths for which no target has met a range; 0 where there is none.
fn longest<const N: usize>(parts: &[AtLength<N>], count: usize) -> u16
    requires { count ≤ length parts.now }
    ensures covers { (l : ℕ) → l < count → (part_in parts.now l).range ≡ None →
        (part_in parts.now l).moments ≤ result }
    ensures few { (most : ℕ) → WantUpTo most count parts.now → result ≤ most }
{
    let mut longest = 0;
    for l in 0..count {
        let part = &parts[l];
        longest = greater(longest, part.wanted());
    }
    longest
}

// The least length above so many moments, or the limit, where that is less.
fn next_length(lengths: &[u16], moments: u16, limit: u16) -> u16
    requires { moments < limit }
    ensures more { moments < result }
    ensures inside { result ≤ limit }
    ensures next { (l : ℕ) → l < length lengths.now → moments < length_in lengths.now l →
        result ≤ length_in lengths.now l }
{
    let mut next = limit;
    for l in 0..lengths.len() {
        let at = length_at(lengths, l);
        if at > moments && at < next {
            next = at;
        }
    }
    next
}

// Sweeps target t once, and keeps its numbers at each length.
fn sweep_target<const N: usize>(
    parts: &mut [AtLength<N>],
    t: usize,
    sweep: &mut Sweep<N>,
    net: &Net<N>,
    targets: &[Target],
    lengths: &[u16],
)
    requires parts { length lengths.now ≤ length parts.old }
    requires target { t < length targets.now }
    requires can { CanBeSeries N targets.now lengths.now }
    requires before { AreSoFar parts.old (net_of net.now) targets.now lengths.now t 0 }
    ensures count { length parts.new ≡ length parts.old }
    ensures after { AreSoFar parts.new (net_of net.now) targets.now lengths.now (t + 1) 0 }
    ensures made { (most : ℕ) → AreUpToLength most lengths.now → sweep.new.made ≤ sweep.old.made + most }
{
    nets_fit(net);
    let longest = longest(parts, lengths.len());
    sweep.start(target_at(targets, t));
    let mut moments = 0;
    while moments < longest {
        let next = next_length(lengths, moments, longest);
        match sweep.moments(net, next - moments) {
            Ok(more) => {
                moments += more;
                keep_each(parts, lengths.len(), t, sweep, net, moments);
            }
            Err(at) => return refuse_each(parts, lengths.len(), t, at, moments),
        }
    }
}

// Sweeps the targets in order, each once.
fn sweep_targets<const N: usize>(
    parts: &mut [AtLength<N>],
    sweep: &mut Sweep<N>,
    net: &Net<N>,
    targets: &[Target],
    lengths: &[u16],
)
    requires parts { length lengths.now ≤ length parts.old }
    requires can { CanBeSeries N targets.now lengths.now }
    requires before { AreSoFar parts.old (net_of net.now) targets.now lengths.now 0 0 }
    ensures count { length parts.new ≡ length parts.old }
    ensures after { AreSoFar parts.new (net_of net.now) targets.now lengths.now (length targets.now) 0 }
    ensures made { (most : ℕ) → AreUpToLength most lengths.now →
        sweep.new.made ≤ sweep.old.made + length targets.now * most }
{
    for t in 0..targets.len() {
        sweep_target(parts, t, sweep, net, targets, lengths);
    }
}

// All targets were swept.
fn finish_each<const N: usize>(
    parts: &mut [AtLength<N>],
    net: &Net<N>,
    targets: &[Target],
    lengths: &[u16],
)
    requires parts { length lengths.now ≤ length parts.old }
    requires can { CanBeSeries N targets.now lengths.now }
    requires before { AreSoFar parts.old (net_of net.now) targets.now lengths.now (length targets.now) 0 }
    ensures count { length parts.new ≡ length parts.old }
    ensures done { AreDone parts.new (net_of net.now) targets.now lengths.now }
{
    nets_fit(net);
    for l in 0..lengths.len() {
        let part = &mut parts[l];
        part.finish(targets);
    }
}

// Sweeps each target in order, once, and keeps the totals at each length.
fn fill_parts<const N: usize>(
    parts: &mut [AtLength<N>],
    sweep: &mut Sweep<N>,
    net: &Net<N>,
    targets: &[Target],
    lengths: &[u16],
)
    requires parts { length lengths.now ≤ length parts.old }
    requires can { CanBeSeries N targets.now lengths.now }
    ensures count { length parts.new ≡ length parts.old }
    ensures done { AreDone parts.new (net_of net.now) targets.now lengths.now }
    ensures made { (most : ℕ) → AreUpToLength most lengths.now →
        sweep.new.made ≤ sweep.old.made + length targets.now * most }
{
    begin_each(parts, lengths);
    sweep_targets(parts, sweep, net, targets, lengths);
    finish_each(parts, net, targets, lengths);
}
