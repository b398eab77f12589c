//! What is told of a judgement.
ghost use Rattle.std.specs.Prelude.{◌≡◌, All, IfOk, IfSome, None};
ghost use Rattle.fx_block.specs.Certified.{PassesSound};
ghost use Rattle.fx_check.specs.Verdict.{failure_of};
ghost use Rattle.fx_code.specs.Code.{IsWhole};
ghost use Rattle.fx_error.specs.PartsOf.{PartsFit};
ghost use Rattle.fx_tool.specs.Answer.{WhereDone};
ghost use Rattle.fx_tool.specs.Judgement.{by_failure, judged, parts_text, reported, told};

use crate::ending::Ending;
use crate::status::Status;
use fx_block::{inequalities_make_sound, none_fails_where_all_hold};
use fx_cert::Cert;
use fx_check::{Report, Verdict, explain, judge};
use fx_code::Program;
use fx_files::Filter;
use fx_lines::{accepted_lines, refused_line, report_lines};
use std::alloc::{AllocError, Global};

/// How much is told of a judgement.
#[derive(Clone, Copy)]
pub enum Detail {
    /// The verdict.
    Brief,
    /// The rows of the program and the parts of the errors where these are known, then the verdict.
    Full,
}

// How a verdict ends.
fn verdict_ending(alloc: Global, cert: &Cert, verdict: Verdict) -> Result<Ending, AllocError>
    ensures answer { IfOk result (λ e. e ≡ by_failure (failure_of verdict) cert.now.errors) }
    ensures passes { WhereDone result (failure_of verdict ≡ None) }
{
    match verdict {
        Verdict::Accepted => Ok(Ending::new(Status::Done, accepted_lines(alloc, cert)?)),
        Verdict::Refused { which, left, right } => {
            Ok(Ending::new(Status::Refused, refused_line(alloc, which, left, right)?))
        }
    }
}

// The verdict on a filter, a program and a certificate.
#[tactic(auto, unfolding(crate::specs::Judgement::judged))]
fn judged(
    alloc: Global,
    filter: &Filter,
    program: &Program,
    cert: &Cert,
) -> Result<Ending, AllocError>
    requires { IsWhole program.now }
    ensures answer { IfOk result (λ e. judged filter.now program.now cert.now ≡ e) }
    ensures sound { WhereDone result (PassesSound filter.now program.now cert.now) }
{
    none_fails_where_all_hold();
    inequalities_make_sound(filter, program, cert);
    verdict_ending(alloc, cert, judge(alloc, filter, program, cert)?)
}

// The lines of the parts of a report, where these are known.
fn parts_lines(
    alloc: Global,
    filter: &Filter,
    program: &Program,
    cert: &Cert,
    report: &Report,
) -> Result<Vec<u8>, AllocError>
    requires { IfSome report.now.parts (All PartsFit) }
    ensures { IfOk result (λ t. t.items ≡ parts_text filter.now program.now cert.now report.now.parts) }
{
    match &report.parts {
        Some(parts) => report_lines(alloc, filter, program, cert, parts),
        None => Ok(Vec::new(alloc)),
    }
}

// The report on them, the verdict last.
#[tactic(auto, unfolding(crate::specs::Judgement::judged, crate::specs::Judgement::reported))]
fn reported(
    alloc: Global,
    filter: &Filter,
    program: &Program,
    cert: &Cert,
) -> Result<Ending, AllocError>
    requires { IsWhole program.now }
    ensures answer { IfOk result (λ e. reported filter.now program.now cert.now ≡ e) }
    ensures sound { WhereDone result (PassesSound filter.now program.now cert.now) }
{
    none_fails_where_all_hold();
    inequalities_make_sound(filter, program, cert);
    let report = explain(alloc, filter, program, cert)?;
    let lines = parts_lines(alloc, filter, program, cert, &report)?;
    verdict_ending(alloc, cert, report.verdict)?.led_by(lines)
}

/// What is told of the judgement of a filter, a whole program and a certificate. Where that ends with `Done`, all
/// inequalities hold, and the program is sound for the filter, with the certificate's errors. Its error is want of
/// memory.
pub fn told(
    alloc: Global,
    detail: Detail,
    filter: &Filter,
    program: &Program,
    cert: &Cert,
) -> Result<Ending, AllocError>
    requires { IsWhole program.now }
    ensures answer { IfOk result (λ e. told detail filter.now program.now cert.now ≡ e) }
    ensures sound { WhereDone result (PassesSound filter.now program.now cert.now) }
{
    match detail {
        Detail::Brief => judged(alloc, filter, program, cert),
        Detail::Full => reported(alloc, filter, program, cert),
    }
}
