// The lines of peak gains, and of lengths that do not do.

ghost use Rattle.std.specs.Prelude.{◌≡◌, ◌++◌, ◌<◌, length, IfOk, OnOk};
ghost use Rattle.fx_findings.specs.Peaks.{
  bounds_line,
  gain_line,
  gain_lines,
  length_line,
  no_length_lines,
  output_lines,
  peak_lines,
  range_line,
  words_text,
  worst_line,
};
ghost use Rattle.fx_findings.specs.Laws.{NoLengthLines, PeakLines};

use fx_block::{Least, LengthWhy};
use fx_decimal::print_down;
use fx_files::Filter;
use fx_gain::{LengthFail, Peaks};
use fx_lines::{PLACES, put_compared, put_field, put_target, put_up, put_word};
use fx_nums::Iv;
use fx_totals::TargetRange;
use std::alloc::{AllocError, Global};

// How far an input can drive an output.
#[tactic(auto, using(crate::proofs::Joined::regrouped))]
fn put_gain(text: &mut Vec<u8>, output: usize, input: usize, gain: Iv) -> Result<(), AllocError>
    ensures { OnOk result (text.new.items ≡ text.old.items ++ gain_line output input gain) }
{
    put_field(text, "gain ", output)?;
    put_field(text, " ", input)?;
    put_word(text, " ")?;
    text.extend_from_slice(print_down(gain.lo(), PLACES).bytes())?;
    put_up(text, " ", gain.hi())?;
    put_word(text, "\n")
}

// Words, each behind a space.
fn put_words(text: &mut Vec<u8>, words: &[i64]) -> Result<(), AllocError>
    ensures { OnOk result (text.new.items ≡ text.old.items ++ words_text words.now) }
{
    for word in words {
        put_field(text, " ", *word)?;
    }
    Ok(())
}

// The words of an input on which an output reaches the low end of its gain.
#[tactic(auto, using(crate::proofs::Joined::regrouped))]
fn put_worst(
    text: &mut Vec<u8>,
    output: usize,
    input: usize,
    words: &[i64],
) -> Result<(), AllocError>
    ensures { OnOk result (text.new.items ≡ text.old.items ++ worst_line output input words.now) }
{
    put_field(text, "worst ", output)?;
    put_field(text, " ", input)?;
    put_words(text, words)?;
    put_word(text, "\n")
}

// The gain from an input to an output, and the words of the input on which the output reaches its low end.
#[tactic(auto, using(crate::proofs::Joined::regrouped))]
fn put_peak(
    text: &mut Vec<u8>,
    output: usize,
    input: usize,
    gain: Iv,
    words: &[i64],
) -> Result<(), AllocError>
    ensures { OnOk result (text.new.items ≡ text.old.items ++ peak_lines output input gain words.now) }
{
    put_gain(text, output, input, gain)?;
    put_worst(text, output, input, words)
}

// The gains of all inputs for one output.
fn put_output(
    text: &mut Vec<u8>,
    filter: &Filter,
    peaks: &Peaks,
    output: usize,
) -> Result<(), AllocError>
    requires inside { output < peaks.now.outputs }
    requires inputs { peaks.now.inputs ≡ length filter.now.inputs }
    ensures { OnOk result (text.new.items ≡ text.old.items ++ output_lines peaks.now output) }
{
    for input in 0..filter.inputs().len() {
        let gain = peaks.enclosure(output, input);
        put_peak(text, output, input, gain, peaks.worst(output, input))?;
    }
    Ok(())
}

/// The lines of a filter's peak gains: for each output and in it for each input the ends of the gain, in input steps
/// with nine places, rounded outwards in the last, and the words of the input on which the output reaches the low end,
/// in the order of time. The peaks are those of the filter.
pub fn gain_lines(alloc: Global, filter: &Filter, peaks: &Peaks) -> Result<Vec<u8>, AllocError>
    requires outputs { peaks.now.outputs ≡ length filter.now.outputs }
    requires inputs { peaks.now.inputs ≡ length filter.now.inputs }
    ensures { IfOk result (λ t. t.items ≡ gain_lines peaks.now) }
{
    let mut text = Vec::new(alloc);
    for output in 0..filter.outputs().len() {
        put_output(&mut text, filter, peaks, output)?;
    }
    Ok(text)
}

// A target whose sweep meets a range, and the number there.
#[tactic(auto, using(crate::proofs::Joined::regrouped))]
pub(crate) fn put_range(text: &mut Vec<u8>, range: TargetRange) -> Result<(), AllocError>
    ensures { OnOk result (text.new.items ≡ text.old.items ++ range_line range) }
{
    put_target(text, " range target ", range.target, range.at.place)?;
    put_field(text, " ", range.at.value)?;
    put_word(text, "\n")
}

// How raises of bounds end.
fn put_bounds(text: &mut Vec<u8>, bounds: Least) -> Result<(), AllocError>
    ensures { OnOk result (text.new.items ≡ text.old.items ++ bounds_line bounds) }
{
    match bounds {
        Least::Rest => put_word(text, "\n"),
        Least::Over { row, value, cap } => {
            put_compared(text, " over row ", row, value, i128::from(cap))
        }
        Least::Slow { row, before, after } => {
            put_compared(
                text,
                " slow row ",
                row,
                i128::from(before),
                i128::from(after),
            )
        }
    }
}

// A length that does not do; the input, whose bounds do not come to rest, is named with bounds alone.
#[tactic(auto, using(crate::proofs::Joined::regrouped))]
fn put_length(text: &mut Vec<u8>, length: u16, input: u8, why: LengthWhy) -> Result<(), AllocError>
    ensures { OnOk result (text.new.items ≡ text.old.items ++ length_line length input why) }
{
    put_field(text, "length ", length)?;
    match why {
        LengthWhy::Range(range) => put_range(text, range),
        LengthWhy::Bounds(bounds) => {
            put_field(text, " input ", input)?;
            put_bounds(text, bounds)
        }
    }
}

/// The lines of a filter without peak gains: each length with what fails, in their order. Lengths are in moments.
pub fn no_length_lines(alloc: Global, fails: &[LengthFail]) -> Result<Vec<u8>, AllocError>
    ensures { IfOk result (λ t. t.items ≡ no_length_lines fails.now) }
{
    let mut text = Vec::from_slice(alloc, b"no design\n")?;
    for fail in fails {
        put_length(&mut text, fail.length, fail.input, fail.why)?;
    }
    Ok(text)
}

/// A law with nothing to run: a gain and its words are two lines, that there is none is told in one line and one more
/// for each length, with no control byte before a line feed.
pub fn gains_are_lines()
    ensures gain { PeakLines }
    ensures failed { NoLengthLines }
{}
