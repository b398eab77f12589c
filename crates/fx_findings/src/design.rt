// The lines of a design, and of candidates that fail.

ghost use Rattle.std.specs.Prelude.{◌≡◌, ◌++◌, IfOk, OnOk};
ghost use Rattle.fx_make.specs.declared.fail.Fail.TheVariants.{Error, Shift, Wide};
ghost use Rattle.fx_findings.specs.Designs.{
  choice_text,
  design_lines,
  fail_line,
  failed_line,
  no_design_lines,
};
ghost use Rattle.fx_findings.specs.Laws.{DesignLines, NoDesignLines};

use crate::peaks::put_range;
use fx_cert::Cert;
use fx_lines::{put_compared, put_errors, put_field, put_word};
use fx_make::{Fail, Failed};
use std::alloc::{AllocError, Global};

// A word, the guard bits, the fraction bits and the moments of a block.
#[tactic(auto, using(crate::proofs::Joined::regrouped))]
fn put_choice(
    text: &mut Vec<u8>,
    word: &str,
    guard: u8,
    fraction: u8,
    length: u16,
) -> Result<(), AllocError>
    ensures { OnOk result (text.new.items ≡ text.old.items ++ (word.now ++ choice_text guard fraction length)) }
{
    put_field(text, word, guard)?;
    put_field(text, " ", fraction)?;
    put_field(text, " ", length)
}

// The lines of a design behind a text.
#[tactic(auto, using(crate::proofs::Joined::regrouped))]
pub(crate) fn put_design(
    text: &mut Vec<u8>,
    guard: u8,
    fraction: u8,
    length: u16,
    certificate: &Cert,
) -> Result<(), AllocError>
    ensures { OnOk result (text.new.items
        ≡ text.old.items ++ design_lines guard fraction length certificate.now.errors) }
{
    put_choice(text, "design ", guard, fraction, length)?;
    put_word(text, "\n")?;
    put_errors(text, certificate)
}

/// The lines of a design: its guard bits, fraction bits and moments of a block, and its certificate's error of each
/// output, in output steps with nine places, rounded up in the last.
pub fn design_lines(
    alloc: Global,
    guard: u8,
    fraction: u8,
    length: u16,
    certificate: &Cert,
) -> Result<Vec<u8>, AllocError>
    ensures { IfOk result (λ t. t.items ≡ design_lines guard fraction length certificate.now.errors) }
{
    let mut text = Vec::new(alloc);
    put_design(&mut text, guard, fraction, length, certificate)?;
    Ok(text)
}

// A row whose shift is too great.
#[tactic(auto, using(crate::proofs::Joined::regrouped))]
fn put_shift(text: &mut Vec<u8>, row: u8) -> Result<(), AllocError>
    ensures { OnOk result (text.new.items ≡ text.old.items ++ fail_line (Shift row)) }
{
    put_field(text, " shift row ", row)?;
    put_word(text, "\n")
}

// A term of a row whose coefficient, shifted to the left, is too large.
#[tactic(auto, using(crate::proofs::Joined::regrouped))]
fn put_wide(text: &mut Vec<u8>, row: u8, term: u8, value: i128) -> Result<(), AllocError>
    ensures { OnOk result (text.new.items ≡ text.old.items ++ fail_line (Wide row term value)) }
{
    put_field(text, " wide row ", row)?;
    put_field(text, " term ", term)?;
    put_field(text, " ", value)?;
    put_word(text, "\n")
}

// An output whose total is above the error that is wanted.
fn put_above(text: &mut Vec<u8>, output: u8, total: i128, target: i128) -> Result<(), AllocError>
    ensures { OnOk result (text.new.items ≡ text.old.items ++ fail_line (Error output total target)) }
{
    put_compared(text, " error output ", output, total, target)
}

// Why a candidate fails.
fn put_fail(text: &mut Vec<u8>, why: Fail) -> Result<(), AllocError>
    ensures { OnOk result (text.new.items ≡ text.old.items ++ fail_line why) }
{
    match why {
        Fail::Shift(row) => put_shift(text, row),
        Fail::Wide(row, term, value) => put_wide(text, row, term, value),
        Fail::Range(range) => put_range(text, range),
        Fail::Over(row, value, cap) => {
            put_compared(text, " over row ", row, value, i128::from(cap))
        }
        Fail::Slow(row, before, after) => put_compared(
            text,
            " slow row ",
            row,
            i128::from(before),
            i128::from(after),
        ),
        Fail::Error(output, total, target) => put_above(text, output, total, target),
    }
}

// A candidate, and why it fails.
#[tactic(auto, using(crate::proofs::Joined::regrouped))]
fn put_failed(text: &mut Vec<u8>, failed: &Failed) -> Result<(), AllocError>
    ensures { OnOk result (text.new.items ≡ text.old.items ++ failed_line failed.now) }
{
    put_choice(
        text,
        "candidate ",
        failed.guard,
        failed.fraction,
        failed.length,
    )?;
    put_fail(text, failed.why)
}

/// The lines of a search that found no design: each candidate with its first failure, in their order.
pub fn no_design_lines(alloc: Global, fails: &[Failed]) -> Result<Vec<u8>, AllocError>
    ensures { IfOk result (λ t. t.items ≡ no_design_lines fails.now) }
{
    let mut text = Vec::from_slice(alloc, b"no design\n")?;
    for failed in fails {
        put_failed(&mut text, failed)?;
    }
    Ok(text)
}

/// A law with nothing to run: a design is told in one line and one more for each output, that there is none in one line
/// and one more for each candidate, with no control byte before a line feed.
pub fn designs_are_lines()
    ensures found { DesignLines }
    ensures failed { NoDesignLines }
{}
