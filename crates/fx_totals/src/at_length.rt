//! What a series keeps for one of its lengths.

ghost use Rattle.std.specs.Prelude.{
  ◌≡◌,
  ℕ,
  ◌+◌,
  ◌<◌,
  ◌≤◌,
  length,
  IfOk,
  List,
  None,
};
ghost use Rattle.fx_eqs.specs.declared.limits.TheConstants.{PORTS};
ghost use Rattle.fx_net.specs.Net.{Net as AnyNet};
ghost use Rattle.fx_net.specs.Tables.{net_of};
ghost use Rattle.fx_sweep.specs.Target.{TargetFits};
ghost use Rattle.fx_sweep.specs.declared.target.Target.{Target as AnyTarget};
ghost use Rattle.fx_totals.specs.Filled.{CanBeFilled, target_in, told_by};
ghost use Rattle.fx_totals.specs.Series.{IsDone, IsKeptOn, IsRefusedOn, IsSoFar, for_each, still_wanted};

use crate::target_range::TargetRange;
use crate::totals::{Totals, totals_fit};
use fx_eqs::PORTS;
use fx_net::{LARGEST_NET, Net, nets_fit};
use fx_sweep::{RangeAt, Sweep, Target};
use std::alloc::{AllocError, Global};
use std::marker::Model;

// The totals of targets that are swept for so many moments, or the first target that meets a range within them.
#[derive(Drop)]
pub struct AtLength<const N: usize> {
    moments: u16,
    totals: Totals<N>,
    range: Option<TargetRange>,
}

impl<const N: usize> Model for AtLength<N> {
    ghost use Rattle.fx_totals.specs.Series.{KeptAtLength};

    ghost Value = { KeptAtLength };

    ghost view = { λ p. record { moments = p.moments; kept = p.totals; range = p.range } };
}

impl<const N: usize> AtLength<N> {
    // For no moments and with no target. Its error is want of memory.
    pub fn new(alloc: Global) -> Result<AtLength<N>, AllocError>
        requires low { 1 ≤ N }
        requires high { N ≤ LARGEST_NET }
    {
        Ok(AtLength {
            moments: 0,
            totals: Totals::new(alloc)?,
            range: None,
        })
    }

    // Begins anew, with no target, for so many moments.
    pub fn begin(&mut self, moments: u16)
        requires { 1 ≤ moments }
        ensures { (net : AnyNet) (targets : List AnyTarget) → IsSoFar self.new net targets moments 0 0 }
    {
        self.moments = moments;
        self.range = None;
    }

    // For how many moments a target has still to be swept: for none, where one has met a range.
    pub fn wanted(&self) -> u16
        ensures { result ≡ still_wanted self.now }
    {
        match self.range {
            None => self.moments,
            Some(_) => 0,
        }
    }

    // Target t was swept for so many moments: keeps its numbers, if these are all that are wanted.
    pub fn keep(&mut self, t: usize, sweep: &Sweep<N>, net: &Net<N>, moments: u16)
        requires { t < N + PORTS }
        ensures { IsKeptOn sweep.now (net_of net.now) t moments self.old self.new }
    {
        nets_fit(net);
        if self.moments == moments {
            totals_fit(&self.totals);
            self.totals.keep(t, sweep, net);
        }
    }

    // Target t met a range in the moment after so many: keeps it, if that many are not all that are wanted.
    pub fn refuse(&mut self, t: usize, at: RangeAt, moments: u16)
        requires { t < LARGEST_NET + PORTS }
        ensures { IsRefusedOn t at moments self.old self.new }
    {
        if moments < self.wanted() {
            self.range = Some(TargetRange {
                target: t as u8,
                at,
            });
        }
    }

    // All targets were swept.
    pub fn finish(&mut self, targets: &[Target])
        requires few { length targets.now ≤ N + PORTS }
        requires fit { (t : ℕ) → t < length targets.now → TargetFits N (target_in targets.now t) }
        ensures { (net : AnyNet) (wanted : ℕ) → net.rows ≡ N →
            CanBeFilled N targets.now (for_each targets.now wanted) →
            IsSoFar self.old net targets.now wanted (length targets.now) 0 → IsDone self.new net targets.now wanted }
    {
        self.totals.finish(targets);
    }

    // The totals, or the first target that met a range.
    pub fn answer(&self) -> Result<&Totals<N>, TargetRange>
        ensures range { told_by result ≡ self.now.range }
        ensures totals { IfOk result (λ totals. totals.now ≡ self.now.kept) }
    {
        match self.range {
            None => Ok(&self.totals),
            Some(range) => Err(range),
        }
    }
}
