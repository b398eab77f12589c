//! The parts of a text that are not rows.

ghost use Rattle.std.specs.Prelude.{◌≡◌, ◌≤◌, ◌<◌, length, IfOk};
ghost use Rattle.fx_math.specs.Answers.{Gives};
ghost use Rattle.fx_text.specs.TokenReading.{is_memory};
ghost use Rattle.fx_text.specs.Reading.{accumulator_at, head_at, input_at, output_at, row_name_at, end_at};

use crate::fault::CodeFault;
use crate::token::{
    begins_with_letter, due_at, expect_at, index_at, name_number, next_at, number_at, pair_at,
    token_at,
};
use fx_code::{CODE_ROWS, LimitOf};
use fx_eqs::PORTS;
use fx_math::{ACCUMULATORS, GREATEST_WIDTH, LEAST_WIDTH};

/// What the head of a text says.
#[derive(Clone, Copy)]
pub struct Head {
    /// Bits of the accumulators, one of `ACCUMULATORS`.
    pub accumulator: u8,
    /// How many inputs there are: 1 to `PORTS`.
    pub inputs: u8,
    /// How many rows there are: 1 to `CODE_ROWS`.
    pub rows: u8,
    /// How many outputs there are: 1 to `PORTS`.
    pub outputs: u8,
}

// The bits of the accumulators, and the place after them.
#[tactic(auto, unfolding(crate::specs::Reading::accumulator_at))]
fn accumulator_at(text: &[u8], at: usize) -> Result<(u8, usize), CodeFault>
    requires { at ≤ length text.now }
    ensures gives { Gives is_memory (λ n. n) result (accumulator_at text.now at) }
    ensures within { IfOk result (λ n. n.1 ≤ length text.now) }
{
    let (number, end) = number_at(text, at)?;
    if ACCUMULATORS.iter().any(|bits| u64::from(*bits) == number) {
        Ok((number as u8, end))
    } else {
        Err(CodeFault::Limit(LimitOf::Accumulator, i128::from(number)))
    }
}

// `STEP ( W , inputs , rows , outputs ) {`, and the place after it.
#[tactic(auto, unfolding(crate::specs::Reading::head_at))]
pub fn head_at(text: &[u8], at: usize) -> Result<(Head, usize), CodeFault>
    requires { at ≤ length text.now }
    ensures gives { Gives is_memory (λ h. h) result (head_at text.now at) }
    ensures within { IfOk result (λ h. (h.0.inputs ≤ PORTS) × (h.1 ≤ length text.now)) }
{
    let at = pair_at(text, at, b"STEP", b"(")?;
    let (accumulator, at) = accumulator_at(text, at)?;
    let (inputs, at) = next_at(text, at, LimitOf::Inputs, 1, PORTS as u8)?;
    let (rows, at) = next_at(text, at, LimitOf::Rows, 1, CODE_ROWS as u8)?;
    let (outputs, at) = next_at(text, at, LimitOf::Outputs, 1, PORTS as u8)?;
    let at = pair_at(text, at, b")", b"{")?;
    let head = Head {
        accumulator,
        inputs,
        rows,
        outputs,
    };
    Ok((head, at))
}

// The bits of input j in `IN ( uJ , width ) ;`, and the place after it.
#[tactic(auto, unfolding(crate::specs::Reading::input_at))]
pub fn input_at(text: &[u8], at: usize, j: u8) -> Result<(u8, usize), CodeFault>
    requires { at ≤ length text.now }
    ensures gives { Gives is_memory (λ n. n) result (input_at j text.now at) }
    ensures within { IfOk result (λ n. n.1 ≤ length text.now) }
{
    let at = pair_at(text, at, b"IN", b"(")?;
    let at = due_at(text, at, b'u', j)?;
    let (width, at) = next_at(text, at, LimitOf::InputWidth, LEAST_WIDTH, GREATEST_WIDTH)?;
    let at = pair_at(text, at, b")", b";")?;
    Ok((width, at))
}

// The number of a row below the count behind a comma, and the place after its name.
#[tactic(auto, unfolding(crate::specs::Reading::row_name_at))]
fn row_name_at(text: &[u8], at: usize, rows: u8) -> Result<(u8, usize), CodeFault>
    requires { at ≤ length text.now }
    ensures gives { Gives is_memory (λ n. n) result (row_name_at rows text.now at) }
    ensures within { IfOk result (λ n. n.1 ≤ length text.now) }
{
    let at = expect_at(text, at, b",")?;
    let (start, word, end) = token_at(text, at)?;
    if !begins_with_letter(word) {
        return Err(CodeFault::Unexpected(start));
    }
    match name_number(word, b'r', rows) {
        Some(row) => Ok((row, end)),
        None => Err(CodeFault::Name(start)),
    }
}

// The row of output j in `OUT ( J , rI ) ;`, and the place after it.
#[tactic(auto, unfolding(crate::specs::Reading::output_at))]
pub fn output_at(text: &[u8], at: usize, j: u8, rows: u8) -> Result<(u8, usize), CodeFault>
    requires place { at ≤ length text.now }
    requires digit { j < 10 }
    ensures gives { Gives is_memory (λ n. n) result (output_at j rows text.now at) }
    ensures within { IfOk result (λ n. n.1 ≤ length text.now) }
{
    let at = pair_at(text, at, b"OUT", b"(")?;
    let at = index_at(text, at, j)?;
    let (row, at) = row_name_at(text, at, rows)?;
    let at = pair_at(text, at, b")", b";")?;
    Ok((row, at))
}

// `}`, and nothing but blanks behind it.
#[tactic(auto, unfolding(crate::specs::Reading::end_at))]
pub fn end_at(text: &[u8], at: usize) -> Result<(), CodeFault>
    requires { at ≤ length text.now }
    ensures gives { Gives is_memory (λ _. tt) result (end_at text.now at) }
{
    let at = expect_at(text, at, b"}")?;
    let (start, word, _) = token_at(text, at)?;
    if word.is_empty() {
        Ok(())
    } else {
        Err(CodeFault::Unexpected(start))
    }
}
