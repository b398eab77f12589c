// The lines of a verdict.

ghost use Rattle.std.specs.Prelude.{◌≡◌, ◌++◌, codes, IfOk, OnOk};
ghost use Rattle.std.specs.Fmt.{decimal};
ghost use Rattle.fx_cert.specs.Certificate.{IsError};
ghost use Rattle.fx_lines.specs.Laws.{AcceptedLines, RefusedLine};
ghost use Rattle.fx_lines.specs.Verdict.{
  accepted_lines,
  error_line,
  error_lines,
  inequality_text,
  place_text,
  refused_line,
  sides_line,
};

use crate::decimals::put_up;
use crate::pieces::{put_field, put_word};
use fx_block::Inequality;
use fx_cert::Cert;
use fx_sweep::Place;
use std::alloc::{AllocError, Global};

// The error of an output, in units of 2^-64 of its steps.
#[tactic(auto, using(crate::proofs::Joined::regrouped))]
fn put_error(text: &mut Vec<u8>, output: usize, error: i128) -> Result<(), AllocError>
    requires { IsError error }
    ensures { OnOk result (text.new.items ≡ text.old.items ++ error_line output error) }
{
    put_field(text, "error ", output)?;
    put_up(text, " ", error)?;
    put_word(text, "\n")
}

/// Puts the lines of a certificate's errors behind a text, those of `accepted_lines`.
pub fn put_errors(text: &mut Vec<u8>, certificate: &Cert) -> Result<(), AllocError>
    ensures { OnOk result (text.new.items ≡ text.old.items ++ error_lines 0 certificate.now.errors) }
{
    for (output, error) in certificate.e().iter().enumerate() {
        put_error(text, output, *error)?;
    }
    Ok(())
}

/// The lines of an accepted certificate: `accepted`, and its error of each output, in output steps with nine places,
/// rounded up in the last.
pub fn accepted_lines(alloc: Global, certificate: &Cert) -> Result<Vec<u8>, AllocError>
    ensures { IfOk result (λ t. t.items ≡ accepted_lines certificate.now.errors) }
{
    let mut text = Vec::from_slice(alloc, b"accepted\n")?;
    put_errors(&mut text, certificate)?;
    Ok(text)
}

// A number of a sweep.
fn put_place(text: &mut Vec<u8>, place: Place) -> Result<(), AllocError>
    ensures { OnOk result (text.new.items ≡ text.old.items ++ place_text place) }
{
    match place {
        Place::Weight(i) => put_field(text, "weight ", i),
        Place::Gain(i) => put_field(text, "gain ", i),
        Place::Input(j) => put_field(text, "input ", j),
        Place::Rest(i) => put_field(text, "rest ", i),
    }
}

/// Puts a word, a target and a number of its sweep behind a text.
#[tactic(auto, using(crate::proofs::Joined::regrouped))]
pub fn put_target(
    text: &mut Vec<u8>,
    word: &str,
    target: u8,
    place: Place,
) -> Result<(), AllocError>
    ensures { OnOk result (text.new.items
        ≡ text.old.items ++ (word.now ++ decimal target ++ codes " " ++ place_text place)) }
{
    put_field(text, word, target)?;
    put_word(text, " ")?;
    put_place(text, place)
}

// An inequality with its place.
fn put_inequality(text: &mut Vec<u8>, which: Inequality) -> Result<(), AllocError>
    ensures { OnOk result (text.new.items ≡ text.old.items ++ inequality_text which) }
{
    match which {
        Inequality::Inputs => put_word(text, "I1 inputs"),
        Inequality::Outputs => put_word(text, "I1 outputs"),
        Inequality::Accumulator => put_word(text, "I1 accumulator"),
        Inequality::InputWidth(j) => put_field(text, "I1 input ", j),
        Inequality::OutputWidth(o) => put_field(text, "I1 output ", o),
        Inequality::Rows => put_word(text, "I1 rows"),
        Inequality::Errors => put_word(text, "I1 errors"),
        Inequality::Sweep(target, place) => put_target(text, "I2 target ", target, place),
        Inequality::Bound(i) => put_field(text, "I3 row ", i),
        Inequality::Word(i) => put_field(text, "I4 row ", i),
        Inequality::Sum(i) => put_field(text, "I5 row ", i),
        Inequality::Error(o) => put_field(text, "I6 output ", o),
        Inequality::Wanted(o) => put_field(text, "I7 output ", o),
    }
}

// What is there, and the limit that it passes or the number that is wanted.
#[tactic(auto, using(crate::proofs::Joined::regrouped))]
fn put_sides(text: &mut Vec<u8>, left: i128, right: i128) -> Result<(), AllocError>
    ensures { OnOk result (text.new.items ≡ text.old.items ++ sides_line left right) }
{
    put_field(text, " ", left)?;
    put_field(text, " ", right)?;
    put_word(text, "\n")
}

/// Puts the end of a line behind a text: a word, the number of a row or an output, what is there, and the limit that it
/// passes or the number that is wanted.
#[tactic(auto, using(crate::proofs::Joined::regrouped))]
pub fn put_compared(
    text: &mut Vec<u8>,
    word: &str,
    place: u8,
    left: i128,
    right: i128,
) -> Result<(), AllocError>
    ensures { OnOk result (text.new.items ≡ text.old.items ++ (word.now ++ decimal place ++ sides_line left right)) }
{
    put_field(text, word, place)?;
    put_sides(text, left, right)
}

/// The line of a refused certificate: the first inequality that fails, with its left and its right side.
pub fn refused_line(
    alloc: Global,
    which: Inequality,
    left: i128,
    right: i128,
) -> Result<Vec<u8>, AllocError>
    ensures { IfOk result (λ t. t.items ≡ refused_line (record { which = which; left = left; right = right })) }
{
    let mut text = Vec::from_slice(alloc, b"refused ")?;
    put_inequality(&mut text, which)?;
    put_sides(&mut text, left, right)?;
    Ok(text)
}

/// A law with nothing to run: an accepted certificate is told in one line and one more for each output, a refused one
/// in one line, with no control byte before a line feed.
pub fn verdicts_are_lines()
    ensures accepted { AcceptedLines }
    ensures refused { RefusedLine }
{}
