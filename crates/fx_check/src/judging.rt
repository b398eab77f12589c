//! The judgement: form, sweeps, and what the sweeps are compared with.

ghost use Rattle.std.specs.Prelude.{◌≡◌, ◌+◌, ◌<◌, ◌≤◌, All, IfSome, OnOk, Some, None};
ghost use Rattle.fx_block.specs.Failure.{first_failure, range_failure};
ghost use Rattle.fx_block.specs.Passes.{row_count};
ghost use Rattle.fx_check.specs.Targets.{AreCounted, AreFilled, HasTotals, padded_net};
ghost use Rattle.fx_check.specs.Report.{IsReportOf, parts_of};
ghost use Rattle.fx_check.specs.Verdict.{compared_failure, failure_in, failure_of, told_by};
ghost use Rattle.fx_code.specs.Code.{IsWhole};
ghost use Rattle.fx_error.specs.PartsOf.{PartsFit};
ghost use Rattle.fx_net.specs.Tables.{net_of};

use crate::bounds::{test_bounds, test_errors, test_sums, test_wanted_errors, test_words};
use crate::form::{joint_rows, output_count, test_form};
use crate::numbers::{input_bounds, row_bounds};
use crate::refusal::Refusal;
use crate::report::Report;
use crate::targets::{MOST_TARGETS, lengths, target_count, targets};
use crate::verdict::{Verdict, verdict_of};
use fx_block::Inequality;
use fx_cert::{Cert, certificates_fit};
use fx_code::{Program, programs_fit};
use fx_eqs::{PORTS, systems_fit};
use fx_error::{Parts, split};
use fx_files::{Filter, filters_fit};
use fx_net::{LARGEST_NET, Net, other_rows_stay};
use fx_nums::OPERAND_BITS;
use fx_sweep::Sweep;
use fx_totals::{Totals, empty_rows_change_nothing, totals_fit};
use std::alloc::{AllocError, Global};

/// What it takes to judge programs and filters of together at most N rows. N is 1 to `LARGEST_NET`.
#[derive(Drop)]
pub struct Judge<const N: usize> {
    net: Net<N>,
    sweep: Sweep<N>,
    totals: Totals<N>,
}

// No parts.
const NO_PARTS: Parts = Parts {
    rounding: 0,
    difference: 0,
    rest: 0,
};

// The rows of a program and, behind them, the expanded rows of a filter in a net.
fn put_joint<const N: usize>(net: &mut Net<N>, f: &Filter, p: &Program)
    requires whole { IsWhole p.now }
    requires rows { row_count f.now p.now ≤ N }
    ensures { net_of net.new ≡ padded_net N f.now p.now }
{
    other_rows_stay();
    net.clear();
    p.put_net(net, 0);
    net.put_eqs(f.eqs(), p.rows());
}

impl<const N: usize> Judge<N> {
    /// A judge of any programs and filters of so many rows. Its error is want of memory.
    pub fn prepare(alloc: Global) -> Result<Judge<N>, AllocError>
        requires low { 1 ≤ N }
        requires high { N ≤ LARGEST_NET }
    {
        Ok(Judge {
            net: Net::new(alloc)?,
            sweep: Sweep::new(alloc)?,
            totals: Totals::new(alloc)?,
        })
    }

    // Sweeps all targets of what has the same form.
    fn sweep(&mut self, f: &Filter, p: &Program, c: &Cert) -> Result<(), Refusal>
        requires whole { IsWhole p.now }
        requires room { row_count f.now p.now ≤ N }
        requires counted { AreCounted f.now p.now c.now }
        ensures told { told_by result ≡ range_failure f.now p.now c.now }
        ensures filled { OnOk result (AreFilled N f.now p.now c.now self.new.totals) }
    {
        filters_fit(f);
        systems_fit(f.eqs());
        programs_fit(p);
        certificates_fit(c);
        empty_rows_change_nothing();
        put_joint(&mut self.net, f, p);
        let count = target_count(f, p);
        let targets = targets(f, p);
        let lengths = lengths(f, p, c);
        match self.totals.fill(
            &mut self.sweep,
            &self.net,
            &targets[..count],
            &lengths[..count],
        ) {
            Ok(()) => Ok(()),
            Err(range) => Err(Refusal {
                which: Inequality::Sweep(range.target, range.at.place),
                left: range.at.value,
                right: 1 << OPERAND_BITS,
            }),
        }
    }

    // The totals of all targets that were swept.
    fn totals(&self, f: &Filter, p: &Program, c: &Cert) -> [i128; MOST_TARGETS]
        requires whole { IsWhole p.now }
        requires room { row_count f.now p.now ≤ N }
        requires counted { AreCounted f.now p.now c.now }
        requires filled { AreFilled N f.now p.now c.now self.now.totals }
        ensures { HasTotals f.now p.now c.now result }
    {
        filters_fit(f);
        systems_fit(f.eqs());
        programs_fit(p);
        empty_rows_change_nothing();
        totals_fit(&self.totals);
        let bounds = input_bounds(f);
        let x: [i64; N] = row_bounds(c);
        let mut totals = [0; MOST_TARGETS];
        for t in 0..target_count(f, p) {
            totals[t] = self.totals.total(t, &bounds, &x);
        }
        totals
    }

    // Totals, bounds and errors of what was swept, against what they have to be at most.
    fn compare(&self, f: &Filter, p: &Program, c: &Cert) -> Result<(), Refusal>
        requires whole { IsWhole p.now }
        requires room { row_count f.now p.now ≤ N }
        requires counted { AreCounted f.now p.now c.now }
        requires filled { AreFilled N f.now p.now c.now self.now.totals }
        ensures { told_by result ≡ compared_failure f.now p.now c.now }
    {
        let totals = self.totals(f, p, c);
        test_bounds(f, p, c, &totals)?;
        test_words(p, c)?;
        test_sums(p, c)?;
        test_errors(f, p, c, &totals)?;
        test_wanted_errors(f, c)
    }

    // All inequalities, in their order.
    fn test(&mut self, f: &Filter, p: &Program, c: &Cert) -> Result<(), Refusal>
        requires whole { IsWhole p.now }
        requires room { row_count f.now p.now ≤ N }
        ensures { told_by result ≡ first_failure f.now p.now c.now }
    {
        test_form(f, p, c)?;
        self.sweep(f, p, c)?;
        self.compare(f, p, c)
    }

    /// Accepted exactly where all inequalities hold of a filter, a whole program and a certificate; else the first
    /// that fails, with both sides. The rows of the program and the expanded rows of the filter are together at most N.
    /// It takes no memory.
    pub fn verdict(&mut self, f: &Filter, p: &Program, c: &Cert) -> Verdict
        requires whole { IsWhole p.now }
        requires room { row_count f.now p.now ≤ N }
        ensures { failure_of result ≡ first_failure f.now p.now c.now }
    {
        verdict_of(self.test(f, p, c))
    }

    // The parts of the totals of all pairs that were swept.
    fn parts(&self, f: &Filter, p: &Program, c: &Cert) -> [Parts; PORTS]
        requires whole { IsWhole p.now }
        requires room { row_count f.now p.now ≤ N }
        requires counted { AreCounted f.now p.now c.now }
        requires filled { AreFilled N f.now p.now c.now self.now.totals }
        ensures value { result ≡ parts_of f.now p.now c.now }
        ensures fits { All PartsFit result }
    {
        filters_fit(f);
        systems_fit(f.eqs());
        programs_fit(p);
        empty_rows_change_nothing();
        totals_fit(&self.totals);
        let bounds = input_bounds(f);
        let x: [i64; N] = row_bounds(c);
        let rows = joint_rows(f, p);
        let mut parts = [NO_PARTS; PORTS];
        for o in 0..output_count(f) {
            parts[o] = split(&self.totals, rows + o, &bounds, &x);
        }
        parts
    }

    /// The verdict, and the parts of the total of each output's pair where the form holds and no sweep reaches its
    /// limit. It takes what `verdict` takes, and no memory.
    pub fn report(&mut self, f: &Filter, p: &Program, c: &Cert) -> Report
        requires whole { IsWhole p.now }
        requires room { row_count f.now p.now ≤ N }
        ensures report { IsReportOf f.now p.now c.now result }
        ensures fits { IfSome result.parts (All PartsFit) }
    {
        if let Err(refusal) = test_form(f, p, c) {
            return without_parts(refusal);
        }
        if let Err(refusal) = self.sweep(f, p, c) {
            return without_parts(refusal);
        }
        Report {
            verdict: verdict_of(self.compare(f, p, c)),
            parts: Some(self.parts(f, p, c)),
        }
    }
}

// The report where the form differs or a sweep reaches its limit.
fn without_parts(refusal: Refusal) -> Report
    ensures verdict { failure_of result.verdict ≡ Some (failure_in refusal) }
    ensures parts { result.parts ≡ None }
{
    Report {
        verdict: verdict_of(Err(refusal)),
        parts: None,
    }
}
