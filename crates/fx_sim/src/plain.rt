// Plain lines, read without `csv`: whole numbers of digits, with commas between them, and a line feed.

ghost use Rattle.std.specs.Prelude.{◌≡◌, ◌∷◌, ◌≤◌, ◌<◌, ◌^◌, ◌++◌, length, take, FitsSigned, IfSome};
ghost use Rattle.std.specs.Int.{w64};
ghost use Rattle.std.specs.List.{AllByRecursion};
ghost use Rattle.fx_code.specs.Inputs.{IsMoment};
ghost use Rattle.fx_nums.specs.Signs.{IsDigit, minus_text, number_from};
ghost use Rattle.fx_sim.specs.Fields.{IsField};
ghost use Rattle.fx_sim.specs.Plain.{BeginsWithWord, FirstRecord, IsPlain, line_at};

use crate::field::FIELD_DIGITS;
use crate::moment::is_word;
use fx_code::Program;
use fx_math::GREATEST_WIDTH;

// The number of the digits at the front of a text, and their count, where there are some, no more than a field may have,
// and the text goes on.
fn leading_digits(text: &[u8]) -> Option<(u64, usize)>
    ensures some { IfSome result (λ r. 1 ≤ r.1) }
    ensures few { IfSome result (λ r. r.1 ≤ FIELD_DIGITS) }
    ensures within { IfSome result (λ r. r.1 ≤ length text.now) }
    ensures digits { IfSome result (λ r. AllByRecursion IsDigit (take r.1 text.now)) }
    ensures value { IfSome result (λ r. r.0 ≡ number_from 0 (take r.1 text.now)) }
    ensures small { IfSome result (λ r. r.0 < 10 ^ 18) }
{
    let mut value = 0u64;
    for (i, byte) in text.iter().enumerate() {
        if *byte < b'0' || *byte > b'9' {
            return if i > 0 { Some((value, i)) } else { None };
        }
        if i == FIELD_DIGITS {
            return None;
        }
        value = 10 * value + (*byte - b'0') as u64;
    }
    None
}

// Whether a minus stands at the front of a text, and what follows it.
fn split_minus(text: &[u8]) -> (bool, &[u8])
    ensures { text.now ≡ minus_text result.0 ++ result.1.now }
{
    match text {
        [b'-', rest @ ..] => (true, rest),
        _ => (false, text),
    }
}

// The number at the front of a text, perhaps behind a minus, and the count of its bytes.
fn leading_number(text: &[u8]) -> Option<(i64, usize)>
    ensures some { IfSome result (λ r. 1 ≤ r.1) }
    ensures within { IfSome result (λ r. r.1 ≤ length text.now) }
    ensures plain { IfSome result (λ r. AllByRecursion IsPlain (take r.1 text.now)) }
    ensures value { IfSome result (λ r. IsField (take r.1 text.now) r.0) }
    ensures fits { IfSome result (λ r. FitsSigned w64 r.0) }
{
    let (negative, digits) = split_minus(text);
    let (value, count) = leading_digits(digits)?;
    if negative {
        return Some((-(value as i64), count + 1));
    }
    Some((value as i64, count))
}

// The word at the front of a text, and what follows it.
#[tactic(auto, using(crate::proofs::PlainFields::begins_with))]
fn leading_word(text: &[u8], width: u8) -> Option<(i64, &[u8])>
    requires low { 1 ≤ width }
    requires high { width ≤ GREATEST_WIDTH }
    ensures word { IfSome result (λ r. BeginsWithWord text.now width r.0 r.1.now) }
    ensures fits { IfSome result (λ r. FitsSigned w64 r.0) }
{
    let (number, count) = leading_number(text)?;
    if !is_word(width, number) {
        return None;
    }
    Some((number, &text[count..]))
}

// What follows a line feed at the front, where there is one.
fn line_at(text: &[u8]) -> &[u8]
    ensures { result.now ≡ line_at text.now }
{
    match text {
        [b'\n', line @ ..] => line,
        _ => text,
    }
}

// What follows this byte, where it stands at the front of a text.
fn after_mark(text: &[u8], mark: u8) -> Option<&[u8]>
    ensures { IfSome result (λ rest. text.now ≡ mark ∷ rest.now) }
{
    match text {
        [first, rest @ ..] if *first == mark => Some(rest),
        _ => None,
    }
}

// The words of a plain line into the places of the inputs, and the text from its line feed on.
fn read_columns<'t>(program: &Program, line: &'t [u8], input: &mut [i64]) -> Option<&'t [u8]>
    requires { length input.old ≡ length program.now.inputs }
    ensures { IfSome result (λ behind. FirstRecord program.now.inputs line.now input.new behind.now) }
{
    let last = program.inputs().checked_sub(1)?;
    let mut rest = line;
    for j in 0..last {
        let (word, behind) = leading_word(rest, program.input_width(j))?;
        input[j] = word;
        rest = after_mark(behind, b',')?;
    }
    let (word, behind) = leading_word(rest, program.input_width(last))?;
    input[last] = word;
    after_mark(behind, b'\n')?;
    Some(behind)
}

// The words of the first line of a text, where it is plain, and the text from its line feed on. A line feed at the
// front ends the line before.
#[tactic(auto, using(crate::proofs::PlainLines::moment_of, crate::proofs::PlainLines::left_shorter))]
pub fn read_plain<'t>(program: &Program, text: &'t [u8], input: &mut [i64]) -> Option<&'t [u8]>
    requires { length input.old ≡ length program.now.inputs }
    ensures record { IfSome result (λ behind.
        FirstRecord program.now.inputs (line_at text.now) input.new behind.now) }
    ensures moment { IfSome result (λ _. IsMoment program.now input.new) }
    ensures shorter { IfSome result (λ behind. length behind.now < length text.now) }
{
    read_columns(program, line_at(text), input)
}
