ghost use Rattle.std.specs.Prelude.{
  ◌≡◌,
  ℕ,
  ◌+◌,
  ◌-◌,
  ◌*◌,
  ◌^◌,
  ◌<◌,
  ◌≤◌,
  length,
  ℤ,
  pos,
  ◌*ℤ◌,
  IfOk,
  IfErr,
  OnOk,
  List,
  option_map,
};
ghost use Rattle.fx_eqs.specs.declared.limits.TheConstants.{PORTS};
ghost use Rattle.fx_math.specs.Sums.{total};
ghost use Rattle.fx_net.specs.Net.{Net as AnyNet};
ghost use Rattle.fx_net.specs.Tables.{net_of};
ghost use Rattle.fx_sweep.specs.Range.{first_range_in};
ghost use Rattle.fx_sweep.specs.Swept.{Swept};
ghost use Rattle.fx_sweep.specs.Target.{TargetFits, start_of};
ghost use Rattle.fx_sweep.specs.declared.target.Target.{Target as AnyTarget};
ghost use Rattle.fx_totals.specs.Filled.{
  AreHeld,
  CanBeFilled,
  Filled,
  HoldsTarget,
  first_target_range,
  length_in,
  moments_of,
  target_in,
  told_by,
};
ghost use Rattle.fx_totals.specs.Kept.{
  AreBounds,
  AreEarlierSame,
  IsUpTo,
  KeptFits,
  bound_in,
  greatest_gain,
  greatest_rounding,
  greatest_sum_of_widths,
  greatest_total,
  kept_gain,
  kept_rest,
  kept_rounding,
  kept_total,
  kept_width,
};
ghost use Rattle.fx_totals.specs.Totals.{target_total};

use crate::filling::{
    copy_gains, copy_rests, copy_widths, leading_rows, length_at, line_at, place_in, put,
    sweep_target, target_at,
};
use crate::sums::{products, rounding, sum_of_parts};
use crate::target_range::TargetRange;
use fx_eqs::PORTS;
use fx_net::{LARGEST_NET, Net, nets_fit};
use fx_sweep::{GREATEST_LENGTH, Sweep, Target};
use std::alloc::{AllocError, Global};
use std::marker::Model;

/// The numbers of targets of a net with N rows, each swept for as many moments as its length: what is needed for their
/// totals. There is room for the rows and for one target more for each output. N is 1 to `LARGEST_NET`.
#[derive(Drop)]
pub struct Totals<const N: usize> {
    // How many targets are filled, and how many of these, from the first on, are the rows in order.
    filled: usize,
    leading: usize,
    // Target after target, times 2^64.
    roundings: Vec<i128>,
    input_gains: Vec<i128>,
    widths: Vec<i128>,
    rests: Vec<i128>,
}

impl<const N: usize> Model for Totals<N> {
    ghost use Rattle.fx_totals.specs.Kept.{Kept, KeptFits, kept_of};

    ghost Value = { Kept };

    ghost view = { λ t.
        kept_of N t.filled t.leading t.roundings.items t.input_gains.items t.widths.items t.rests.items };

    ghost invariant = { λ t. KeptFits
        (kept_of N t.filled t.leading t.roundings.items t.input_gains.items t.widths.items t.rests.items) };
}

impl<const N: usize> Totals<N> {
    /// Totals with no target. Its error is want of memory.
    pub fn new(alloc: Global) -> Result<Totals<N>, AllocError>
        requires low { 1 ≤ N }
        requires high { N ≤ LARGEST_NET }
        ensures { IfOk result (λ t. t.filled ≡ 0) }
    {
        let lines = N + PORTS;
        Ok(Totals {
            filled: 0,
            leading: 0,
            roundings: vec![in alloc; 0; lines]?,
            input_gains: vec![in alloc; 0; lines * PORTS]?,
            widths: vec![in alloc; 0; lines * N]?,
            rests: vec![in alloc; 0; lines * N]?,
        })
    }

    // Copies the numbers of a sweep as those of one target.
    pub(crate) fn keep(&mut self, t: usize, sweep: &Sweep<N>, net: &Net<N>)
        requires target { t < N + PORTS }
        ensures size { self.new.size ≡ N }
        ensures filled { self.new.filled ≡ self.old.filled }
        ensures held { (target : AnyTarget) (m : ℕ) → Swept sweep.now (net_of net.now) target m →
            HoldsTarget self.new t (net_of net.now) (start_of target) m }
        ensures earlier { AreEarlierSame t self.old self.new }
    {
        nets_fit(net);
        let lines = N + PORTS;
        put(&mut self.roundings, t, rounding(sweep, net));
        copy_gains(sweep, &mut self.input_gains, line_at(t, PORTS, lines));
        copy_widths(sweep, &mut self.widths, line_at(t, N, lines));
        copy_rests(sweep, &mut self.rests, line_at(t, N, lines));
    }

    // Sweeps one target and keeps its numbers.
    fn fill_target(
        &mut self,
        t: usize,
        sweep: &mut Sweep<N>,
        net: &Net<N>,
        target: Target,
        moments: u16,
    ) -> Result<(), TargetRange>
        requires place { t < N + PORTS }
        requires rows { N ≤ LARGEST_NET }
        requires target { TargetFits N target }
        requires short { moments ≤ GREATEST_LENGTH }
        ensures filled { self.new.filled ≡ self.old.filled }
        ensures range { told_by result ≡ option_map (λ at.
            record { target = t; at = at }) (first_range_in (net_of net.now) (start_of target) moments) }
        ensures held { OnOk result (HoldsTarget self.new t (net_of net.now) (start_of target) moments) }
        ensures earlier { AreEarlierSame t self.old self.new }
        ensures made { sweep.new.made ≤ sweep.old.made + moments }
    {
        match sweep_target(sweep, net, target, moments) {
            Ok(()) => {
                self.keep(t, sweep, net);
                Ok(())
            }
            Err(at) => Err(TargetRange {
                target: t as u8,
                at,
            }),
        }
    }

    // Sweeps the targets in order and keeps the numbers of each, up to the first that meets a range.
    fn fill_targets(
        &mut self,
        sweep: &mut Sweep<N>,
        net: &Net<N>,
        targets: &[Target],
        lengths: &[u16],
    ) -> Result<(), TargetRange>
        requires targets { CanBeFilled N targets.now lengths.now }
        requires rows { N ≤ LARGEST_NET }
        ensures size { self.new.size ≡ N }
        ensures filled { self.new.filled ≡ self.old.filled }
        ensures range { told_by result
            ≡ first_target_range (net_of net.now) targets.now lengths.now (length targets.now) }
        ensures held { OnOk result (AreHeld self.new (net_of net.now) targets.now lengths.now) }
        ensures made { sweep.new.made ≤ sweep.old.made + moments_of lengths.now (length targets.now) }
    {
        nets_fit(net);
        totals_fit(self);
        for t in 0..targets.len() {
            self.fill_target(t, sweep, net, target_at(targets, t), length_at(lengths, t))?;
        }
        Ok(())
    }

    /// Sweeps each target in order for as many moments as its length, and keeps its numbers; there is one length for
    /// each target, and at most N + `PORTS` of them. Its error is the first target that meets a range within its
    /// length; then nothing is filled.
    pub fn fill(
        &mut self,
        sweep: &mut Sweep<N>,
        net: &Net<N>,
        targets: &[Target],
        lengths: &[u16],
    ) -> Result<(), TargetRange>
        requires { CanBeFilled N targets.now lengths.now }
        ensures range { told_by result
            ≡ first_target_range (net_of net.now) targets.now lengths.now (length targets.now) }
        ensures filled { OnOk result (Filled self.new (net_of net.now) targets.now lengths.now) }
        ensures refused { IfErr result (λ _. self.new.filled ≡ 0) }
        ensures made { sweep.new.made ≤ sweep.old.made + moments_of lengths.now (length targets.now) }
    {
        nets_fit(net);
        self.filled = 0;
        self.leading = 0;
        self.fill_targets(sweep, net, targets, lengths)?;
        self.finish(targets);
        Ok(())
    }

    // The numbers of all targets are kept.
    pub(crate) fn finish(&mut self, targets: &[Target])
        requires few { length targets.now ≤ N + PORTS }
        requires fit { (t : ℕ) → t < length targets.now → TargetFits N (target_in targets.now t) }
        ensures { (net : AnyNet) (lengths : List ℕ) → net.rows ≡ N → CanBeFilled N targets.now lengths →
            AreHeld self.old net targets.now lengths → Filled self.new net targets.now lengths }
    {
        self.filled = targets.len();
        self.leading = leading_rows(targets);
    }

    /// How many of the filled targets, from the first on, are the rows in order.
    pub fn rows(&self) -> usize
        ensures value { result ≡ self.now.leading }
        ensures few { result ≤ self.now.filled }
        ensures rows { result ≤ N }
    {
        self.leading
    }

    /// The rounding of the target at place `t` of those that are filled, times 2^64: half of the rows' gains times
    /// their classes, rounded up. It is at most 2^95.
    pub fn rounding(&self, t: usize) -> i128
        requires { t < self.now.filled }
        ensures value { result ≡ kept_rounding self.now t }
        ensures fits { IsUpTo greatest_rounding result }
    {
        self.roundings[t]
    }

    /// The gain of input `j`, below `PORTS`, for the target at place `t` of those that are filled, times 2^64. It is
    /// below 2^88.
    pub fn input_gain(&self, t: usize, j: usize) -> i128
        requires target { t < self.now.filled }
        requires input { j < PORTS }
        ensures value { result ≡ kept_gain self.now t j }
        ensures fits { IsUpTo greatest_gain result }
    {
        self.input_gains[place_in(t, PORTS, j, N + PORTS)]
    }

    /// The width of row `i`, below N, for the target at place `t` of those that are filled, times 2^64. It is at most
    /// 2^76.
    pub fn width(&self, t: usize, i: usize) -> i128
        requires target { t < self.now.filled }
        requires row { i < N }
        ensures value { result ≡ kept_width self.now t i }
        ensures fits { IsUpTo greatest_sum_of_widths result }
    {
        self.widths[place_in(t, N, i, N + PORTS)]
    }

    /// The rest of row `i`, below N, for the target at place `t` of those that are filled, times 2^64. It is below
    /// 2^88.
    pub fn rest(&self, t: usize, i: usize) -> i128
        requires target { t < self.now.filled }
        requires row { i < N }
        ensures value { result ≡ kept_rest self.now t i }
        ensures fits { IsUpTo greatest_gain result }
    {
        self.rests[place_in(t, N, i, N + PORTS)]
    }

    /// What the inputs add to the total of the target at place `t` of those that are filled, times 2^64, for `PORTS`
    /// bounds of their words, each 0 to 2147483647: their gains times these. It is at most 2^121.
    pub fn input_part(&self, t: usize, bounds: &[i64]) -> i128
        requires target { t < self.now.filled }
        requires count { length bounds.now ≡ PORTS }
        requires bounds { AreBounds bounds.now }
        ensures value { result ≡ total PORTS (λ j. kept_gain self.now t j *ℤ pos (bound_in bounds.now j)) }
        ensures fits { IsUpTo (2 ^ 121) result }
    {
        products(&self.input_gains, line_at(t, PORTS, N + PORTS), bounds)
    }

    /// What was cut off the weights adds to it, times 2^64, for bounds of the N rows, each 0 to 2147483647: the widths
    /// of the rows times these. It is at most 2^113.
    pub fn width_part(&self, t: usize, x: &[i64]) -> i128
        requires target { t < self.now.filled }
        requires count { length x.now ≡ N }
        requires bounds { AreBounds x.now }
        ensures value { result ≡ total self.now.size (λ i. kept_width self.now t i *ℤ pos (bound_in x.now i)) }
        ensures fits { IsUpTo (2 ^ 113) result }
    {
        products(&self.widths, line_at(t, N, N + PORTS), x)
    }

    /// What lies before the block adds to it, times 2^64, for such bounds: the rests of the rows times these. It is at
    /// most 2^125.
    pub fn rest_part(&self, t: usize, x: &[i64]) -> i128
        requires target { t < self.now.filled }
        requires count { length x.now ≡ N }
        requires bounds { AreBounds x.now }
        ensures value { result ≡ total self.now.size (λ i. kept_rest self.now t i *ℤ pos (bound_in x.now i)) }
        ensures fits { IsUpTo (2 ^ 125) result }
    {
        products(&self.rests, line_at(t, N, N + PORTS), x)
    }

    /// The total of the target at place `t` of those that are filled, times 2^64, for bounds of the inputs' words and
    /// of the N rows, each 0 to 2147483647. It is below 2^126.
    pub fn total(&self, t: usize, bounds: &[i64; PORTS], x: &[i64]) -> i128
        requires target { t < self.now.filled }
        requires bounds { AreBounds bounds.now }
        requires count { length x.now ≡ N }
        requires rows { AreBounds x.now }
        ensures kept { result ≡ kept_total self.now t (bound_in bounds.now) (bound_in x.now) }
        ensures total { (net : AnyNet) (targets : List AnyTarget) (lengths : List ℕ) →
            Filled self.now net targets lengths → result
            ≡ target_total net (start_of (target_in targets t)) (length_in lengths t) (bound_in bounds.now)
            (bound_in x.now) }
        ensures fits { IsUpTo greatest_total result }
    {
        sum_of_parts(
            self.input_part(t, bounds),
            self.rounding(t),
            self.width_part(t, x),
            self.rest_part(t, x),
        )
    }
}

/// A law with nothing to run: the numbers of all totals are within their limits.
pub fn totals_fit<const N: usize>(totals: &Totals<N>)
    ensures size { totals.now.size ≡ N }
    ensures fits { KeptFits totals.now }
{
    let _ = &totals.roundings;
}
