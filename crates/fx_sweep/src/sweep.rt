ghost use Rattle.std.specs.Prelude.{
  ◌≡◌,
  ℕ,
  ◌+◌,
  ◌^◌,
  ◌<◌,
  ◌≤◌,
  ℤ,
  pos,
  ◌≤ℤ◌,
  IfOk,
  OnOk,
  Option,
  Some,
  None,
};
ghost use Rattle.fx_eqs.specs.declared.limits.TheConstants.{PORTS};
ghost use Rattle.fx_net.specs.Net.{Net as AnyNet};
ghost use Rattle.fx_net.specs.Tables.{net_of};
ghost use Rattle.fx_nums.specs.Interval.{magnitude};
ghost use Rattle.fx_nums.specs.declared.limits.TheConstants.{OPERAND_BITS};
ghost use Rattle.fx_sweep.specs.Range.{range_at};
ghost use Rattle.fx_sweep.specs.Swept.{
  IsSameBut,
  Swept,
  carried_at,
  count_after,
  count_of,
  input_at,
  input_gain_at,
  one_more,
  range_of,
  row_gain_at,
  width_at,
};
ghost use Rattle.fx_sweep.specs.Target.{TargetFits, start_of};
ghost use Rattle.fx_sweep.specs.declared.target.RangeAt.{RangeAt as AnyRange};
ghost use Rattle.fx_sweep.specs.declared.target.Target.{Target as AnyTarget};

use crate::limits::GREATEST_LENGTH;
use crate::numbers::Numbers;
use crate::target::{RangeAt, Target};
use fx_eqs::PORTS;
use fx_net::{LARGEST_NET, Net, nets_fit};
use fx_nums::Iv;
use std::alloc::{AllocError, Global};
use std::marker::Model;

/// The sweep of a net with N rows backwards in time, from a target, moment by moment. N is 1 to `LARGEST_NET`.
///
/// It adds up how much each input, each row's rounding and each row's bound can matter for the target.
#[derive(Drop)]
pub struct Sweep<const N: usize> {
    numbers: Numbers,
    // How many moments answered Ok since the last start.
    count: u16,
    // How many moments were made in all.
    made: u64,
    // The range that was met since the last start.
    range: Option<RangeAt>,
}

impl<const N: usize> Model for Sweep<N> {
    ghost use Rattle.fx_sweep.specs.Swept.{State};

    ghost Value = { State };

    ghost use Rattle.fx_sweep.specs.Steps.{SweepFits, state_of};

    ghost view = { λ s. state_of s.count s.made s.range s.numbers };

    ghost invariant = { λ s. SweepFits N s.count s.range s.numbers };
}

impl<const N: usize> Sweep<N> {
    /// A sweep that was started for no target. Its error is want of memory.
    pub fn new(alloc: Global) -> Result<Sweep<N>, AllocError>
        requires low { 1 ≤ N }
        requires high { N ≤ LARGEST_NET }
        ensures count { IfOk result (λ s. s.count ≡ 0) }
        ensures made { IfOk result (λ s. s.made ≡ 0) }
        ensures range { IfOk result (λ s. s.range ≡ None) }
    {
        Ok(Sweep {
            numbers: Numbers::new(alloc, N)?,
            count: 0,
            made: 0,
            range: None,
        })
    }

    /// Starts the sweep of a target, whose rows are below N.
    pub fn start(&mut self, target: Target)
        requires { TargetFits N target }
        ensures swept { (net : AnyNet) → Swept self.new net target 0 }
        ensures count { self.new.count ≡ 0 }
        ensures range { self.new.range ≡ None }
        ensures made { self.new.made ≡ self.old.made }
    {
        self.numbers.start(target);
        self.count = 0;
        self.range = None;
    }

    /// One moment of the sweep. Its error is the first number that reached 2^88 times 2^-64, which is kept, and is the
    /// answer of each further moment, until the next start. At most `GREATEST_LENGTH` moments may answer Ok.
    pub fn moment(&mut self, net: &Net<N>) -> Result<(), RangeAt>
        requires { self.old.count < GREATEST_LENGTH }
        ensures range { (target : AnyTarget) (m : ℕ) → Swept self.old (net_of net.now) target m →
            range_of result ≡ range_at (net_of net.now) (start_of target) m }
        ensures swept { (target : AnyTarget) (m : ℕ) → Swept self.old (net_of net.now) target m →
            OnOk result (Swept self.new (net_of net.now) target (m + 1)) }
        ensures kept { self.new.range ≡ range_of result }
        ensures again { (at : AnyRange) → self.old.range ≡ Some at → range_of result ≡ Some at }
        ensures leaves { (at : AnyRange) → self.old.range ≡ Some at → IsSameBut self.old self.new }
        ensures count { self.new.count ≡ count_after result self.old.count }
        ensures made { self.new.made ≡ one_more self.old.made }
    {
        self.moments(net, 1)?;
        Ok(())
    }

    /// One moment of the sweep; or at most `most`, where it leaves what is carried as it was, so that those after it
    /// repeat it. Answers how many, of which only one is counted as made. Its error is that of `moment`. With those
    /// that answered Ok since the last start, `most` is at most `GREATEST_LENGTH`.
    pub fn moments(&mut self, net: &Net<N>, most: u16) -> Result<u16, RangeAt>
        requires some { 1 ≤ most }
        requires short { self.old.count + most ≤ GREATEST_LENGTH }
        ensures some { IfOk result (λ moments. 1 ≤ moments) }
        ensures few { IfOk result (λ moments. moments ≤ most) }
        ensures range { (target : AnyTarget) (m : ℕ) → Swept self.old (net_of net.now) target m →
            range_of result ≡ range_at (net_of net.now) (start_of target) m }
        ensures swept { (target : AnyTarget) (m : ℕ) → Swept self.old (net_of net.now) target m →
            IfOk result (λ moments. Swept self.new (net_of net.now) target (m + moments)) }
        ensures kept { self.new.range ≡ range_of result }
        ensures again { (at : AnyRange) → self.old.range ≡ Some at → range_of result ≡ Some at }
        ensures leaves { (at : AnyRange) → self.old.range ≡ Some at → IsSameBut self.old self.new }
        ensures count { self.new.count ≡ count_of result self.old.count }
        ensures made { self.new.made ≡ one_more self.old.made }
    {
        nets_fit(net);
        self.made = self.made.saturating_add(1);
        if let Some(at) = self.range {
            return Err(at);
        }
        match self.numbers.moments(net, most) {
            Ok(moments) => {
                self.count += moments;
                Ok(moments)
            }
            Err(at) => {
                self.numbers.drop_carried();
                self.range = Some(at);
                Err(at)
            }
        }
    }

    /// The interval of input `j`, below `PORTS`, in the last moment; 0 before the first.
    pub fn input_now(&self, j: usize) -> Iv
        requires { j < PORTS }
        ensures { result ≡ input_at self.now j }
    {
        self.numbers.inputs[j].interval()
    }

    /// The gain of input `j`, below `PORTS`, times 2^64: the magnitudes of its intervals, added up. It is below 2^88.
    pub fn input_gain(&self, j: usize) -> i128
        requires { j < PORTS }
        ensures value { result ≡ pos (input_gain_at self.now j) }
        ensures fits { input_gain_at self.now j < 2 ^ OPERAND_BITS }
    {
        self.numbers.input_gains[j] as i128
    }

    /// The gain of row `i`, below N, times 2^64: the magnitudes of its weights, added up. It is below 2^88.
    pub fn row_gain(&self, i: usize) -> i128
        requires { i < N }
        ensures value { result ≡ pos (row_gain_at self.now i) }
        ensures fits { row_gain_at self.now i < 2 ^ OPERAND_BITS }
    {
        self.numbers.row_gains[i] as i128
    }

    /// The width of row `i`, below N, times 2^64: what was cut off its intervals, added up. It is at most 2^76.
    pub fn width(&self, i: usize) -> i128
        requires { i < N }
        ensures value { result ≡ width_at self.now i }
        ensures positive { pos 0 ≤ℤ result }
        ensures fits { result ≤ℤ pos (2 ^ 76) }
    {
        self.numbers.widths[i]
    }

    /// The magnitude of what is carried to row `i`, below N, of the moment before, times 2^64. It is below 2^88.
    pub fn rest(&self, i: usize) -> i128
        requires { i < N }
        ensures value { result ≡ pos (magnitude (carried_at self.now i)) }
        ensures fits { magnitude (carried_at self.now i) < 2 ^ OPERAND_BITS }
    {
        self.numbers.carried[i].interval().magnitude()
    }

    /// How many moments were made, those that only repeat a range among them. It stays at the greatest u64.
    pub fn made(&self) -> u64
        ensures { result ≡ self.now.made }
    {
        self.made
    }
}
