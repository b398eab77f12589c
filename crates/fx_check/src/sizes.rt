//! The least judge that holds a program and a filter.

ghost use Rattle.std.specs.Prelude.{◌≡◌, ◌≤◌, All, IfOk, IfSome};
ghost use Rattle.fx_block.specs.Failure.{first_failure};
ghost use Rattle.fx_block.specs.Passes.{row_count};
ghost use Rattle.fx_check.specs.Report.{IsReportOf};
ghost use Rattle.fx_check.specs.Verdict.{failure_of};
ghost use Rattle.fx_code.specs.Code.{IsWhole};
ghost use Rattle.fx_error.specs.PartsOf.{PartsFit};

use crate::form::joint_rows;
use crate::judging::Judge;
use crate::report::Report;
use crate::verdict::Verdict;
use fx_cert::Cert;
use fx_code::Program;
use fx_files::Filter;
use fx_net::LARGEST_NET;
use std::alloc::{AllocError, Global};

// The verdict of a judge of N rows.
fn judge_within<const N: usize>(
    alloc: Global,
    f: &Filter,
    p: &Program,
    c: &Cert,
) -> Result<Verdict, AllocError>
    requires high { N ≤ LARGEST_NET }
    requires whole { IsWhole p.now }
    requires room { row_count f.now p.now ≤ N }
    requires low { 1 ≤ N }
    ensures { IfOk result (λ verdict. failure_of verdict ≡ first_failure f.now p.now c.now) }
{
    let mut judge: Judge<N> = Judge::prepare(alloc)?;
    Ok(judge.verdict(f, p, c))
}

/// Accepted exactly where all inequalities hold of a filter, a whole program and a certificate; else the first that
/// fails, with both sides. Its error is want of memory.
pub fn judge(alloc: Global, f: &Filter, p: &Program, c: &Cert) -> Result<Verdict, AllocError>
    requires { IsWhole p.now }
    ensures { IfOk result (λ verdict. failure_of verdict ≡ first_failure f.now p.now c.now) }
{
    match joint_rows(f, p) {
        0..=8 => judge_within::<8>(alloc, f, p, c),
        9..=16 => judge_within::<16>(alloc, f, p, c),
        17..=32 => judge_within::<32>(alloc, f, p, c),
        _ => judge_within::<64>(alloc, f, p, c),
    }
}

// The report of a judge of N rows.
fn explain_within<const N: usize>(
    alloc: Global,
    f: &Filter,
    p: &Program,
    c: &Cert,
) -> Result<Report, AllocError>
    requires high { N ≤ LARGEST_NET }
    requires whole { IsWhole p.now }
    requires room { row_count f.now p.now ≤ N }
    requires low { 1 ≤ N }
    ensures report { IfOk result (IsReportOf f.now p.now c.now) }
    ensures fits { IfOk result (λ r. IfSome r.parts (All PartsFit)) }
{
    let mut judge: Judge<N> = Judge::prepare(alloc)?;
    Ok(judge.report(f, p, c))
}

/// The verdict that `judge` gives, and the parts of the total of each output's pair where the form holds and no sweep
/// reaches its limit. Its error is want of memory.
pub fn explain(alloc: Global, f: &Filter, p: &Program, c: &Cert) -> Result<Report, AllocError>
    requires { IsWhole p.now }
    ensures report { IfOk result (IsReportOf f.now p.now c.now) }
    ensures fits { IfOk result (λ r. IfSome r.parts (All PartsFit)) }
{
    match joint_rows(f, p) {
        0..=8 => explain_within::<8>(alloc, f, p, c),
        9..=16 => explain_within::<16>(alloc, f, p, c),
        17..=32 => explain_within::<32>(alloc, f, p, c),
        _ => explain_within::<64>(alloc, f, p, c),
    }
}
