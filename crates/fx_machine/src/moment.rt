ghost use Rattle.std.specs.Prelude.{◌≡◌, ◌≢◌, ℕ, ◌+◌, ◌<◌, ◌≤◌, cond, false, length, map, All};
ghost use Rattle.std.specs.Int.{bit_at};
ghost use Rattle.fx_code.specs.Fits.{CodeFits};
ghost use Rattle.fx_machine.specs.Prepared.{word_in};
ghost use Rattle.fx_machine.specs.Standing.{rows_done, WordsFit, ArePrepared, Begins, HasBits, partial_at, lost_at};

use crate::places::{FIRST_INPUT, FIRST_OLD, WORD_COUNT};
use crate::prepared::PreparedRow;
use crate::sums::{Outcome, row_outcome};
use fx_code::{CODE_ROWS, Program};
use fx_eqs::PORTS;

/// What went beyond its bits in one moment. Bit i tells of row i, and no further bit is set.
#[derive(Clone, Copy)]
pub struct Marks {
    /// A sum on the way, after the constant or a term, was outside the accumulator.
    pub partial: u64,
    /// The row is not exact: its accumulator or its stored word is not the whole-number one.
    pub lost: u64,
}

// Keeps the words of the rows as those of the moment before.
fn keep_rows(words: &mut [i64], rows: usize)
    requires count { length words.old ≡ WORD_COUNT }
    requires rows { rows ≤ CODE_ROWS }
    ensures now { (i : ℕ) → i < CODE_ROWS → word_in words.new i ≡ word_in words.old i }
    ensures old { (i : ℕ) → i < rows → word_in words.new (FIRST_OLD + i) ≡ word_in words.old i }
    ensures others { (i : ℕ) → rows ≤ i → word_in words.new (FIRST_OLD + i) ≡ word_in words.old (FIRST_OLD + i) }
{
    for i in 0..rows {
        words[FIRST_OLD + i] = words[i];
    }
}

// Takes the words of the inputs.
fn take_inputs(words: &mut [i64], input: &[i64])
    requires count { length words.old ≡ WORD_COUNT }
    requires few { length input.now ≤ PORTS }
    ensures taken { (j : ℕ) → j < length input.now → word_in words.new (FIRST_INPUT + j) ≡ word_in input.now j }
    ensures others { (i : ℕ) → i < FIRST_INPUT → word_in words.new i ≡ word_in words.old i }
{
    for (j, &word) in input.iter().enumerate() {
        words[FIRST_INPUT + j] = word;
    }
}

// Begins a moment.
pub fn begin(words: &mut [i64], rows: usize, input: &[i64])
    requires count { length words.old ≡ WORD_COUNT }
    requires rows { rows ≤ CODE_ROWS }
    requires few { length input.now ≤ PORTS }
    ensures { Begins words.old words.new rows input.now }
{
    keep_rows(words, rows);
    take_inputs(words, input);
}

// Marks with one bit more.
fn with_bit(marks: u64, i: usize, bit: bool) -> u64
    requires place { i < 64 }
    requires clear { bit_at marks i ≡ 0 }
    ensures here { bit_at result i ≡ cond bit 1 0 }
    ensures others { (j : ℕ) → j ≢ i → bit_at result j ≡ bit_at marks j }
{
    if bit { marks | 1 << i } else { marks }
}

// Marks with those of row i.
fn with_row(marks: Marks, i: usize, outcome: Outcome) -> Marks
    requires place { i < 64 }
    requires partial { bit_at marks.partial i ≡ 0 }
    requires lost { bit_at marks.lost i ≡ 0 }
    requires marked { outcome.marked ≡ false → (outcome.partial ≡ false) × (outcome.lost ≡ false) }
    ensures partial { bit_at result.partial i ≡ cond outcome.partial 1 0 }
    ensures lost { bit_at result.lost i ≡ cond outcome.lost 1 0 }
    ensures other_partial { (j : ℕ) → j ≢ i → bit_at result.partial j ≡ bit_at marks.partial j }
    ensures other_lost { (j : ℕ) → j ≢ i → bit_at result.lost j ≡ bit_at marks.lost j }
{
    if !outcome.marked {
        return marks;
    }
    Marks {
        partial: with_bit(marks.partial, i, outcome.partial),
        lost: with_bit(marks.lost, i, outcome.lost),
    }
}

// Computes the rows of a moment in their order.
pub fn run_rows(program: &Program, rows: &[PreparedRow], words: &mut [i64]) -> Marks
    requires fits { CodeFits program.now }
    requires prepared { ArePrepared program.now rows.now }
    requires words { WordsFit program.now words.old }
    ensures words { words.new ≡ rows_done program.now words.old (length program.now.rows) }
    ensures fit { WordsFit program.now words.new }
    ensures partial { HasBits (partial_at program.now words.old) (length program.now.rows) result.partial }
    ensures lost { HasBits (lost_at program.now words.old) (length program.now.rows) result.lost }
{
    let mut marks = Marks {
        partial: 0,
        lost: 0,
    };
    for i in 0..program.rows() {
        let outcome = row_outcome(&rows[i], words);
        words[i] = outcome.word;
        marks = with_row(marks, i, outcome);
    }
    marks
}

// Puts out the words of rows.
pub fn put_out(outputs: &[u8], words: &[i64], output: &mut [i64])
    requires rows { All (λ row. row < length words.now) outputs.now }
    requires count { length output.old ≡ length outputs.now }
    ensures { output.new ≡ map (word_in words.now) outputs.now }
{
    for (o, &row) in outputs.iter().enumerate() {
        output[o] = words[usize::from(row)];
    }
}
