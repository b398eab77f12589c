// The words of records.

ghost use Rattle.std.specs.Prelude.{
  [],
  slice_index_or,
  ◌≡◌,
  ◌≤◌,
  ◌<◌,
  ◌+◌,
  length,
  slice_index,
  FitsSigned,
  IfErr,
  IfOk,
  OnOk,
  Ok,
};
ghost use Rattle.std.specs.Int.{w64};
ghost use Rattle.csv.specs.Records.{fields_of};
ghost use Rattle.fx_code.specs.Inputs.{IsMoment};
ghost use Rattle.fx_math.specs.Answers.{Fails, Gives};
ghost use Rattle.fx_sim.specs.Samples.{is_memory, is_word, moment_in, word_in, words_in};

use crate::fault::SampleFault;
use crate::field::field_value;
use csv::ByteRecord;
use fx_code::Program;
use fx_math::GREATEST_WIDTH;

// Whether a number is one of this many bits in two's complement.
pub fn is_word(width: u8, number: i64) -> bool
    requires low { 1 ≤ width }
    requires high { width ≤ GREATEST_WIDTH }
    ensures { result ≡ is_word width number }
{
    let half = 1i64 << (width - 1);
    -half <= number && number < half
}

// The word of a field: a number of so many bits.
#[tactic(auto, unfolding(crate::specs::Samples::word_in))]
fn word_of(number: u64, column: usize, width: u8, field: &[u8]) -> Result<i64, SampleFault>
    requires low { 1 ≤ width }
    requires high { width ≤ GREATEST_WIDTH }
    ensures word { Gives is_memory (λ z. z) result (word_in number column width field.now) }
    ensures fits { IfOk result (λ z. FitsSigned w64 z) }
{
    let Some(word) = field_value(field) else {
        return Err(SampleFault::Field(number, column));
    };
    if !is_word(width, word) {
        return Err(SampleFault::OutOfWord(number, column, word));
    }
    Ok(word)
}

// The word of the field at a place of a record.
#[tactic(auto, using(crate::proofs::WordsSoFar::field_there))]
fn column_word(
    program: &Program,
    number: u64,
    row: &ByteRecord,
    j: usize,
) -> Result<i64, SampleFault>
    requires input { j < length program.now.inputs }
    requires field { j < length (fields_of row.now) }
    ensures word { Gives is_memory (λ z.
        z) result (word_in number (j + 1) (slice_index program.now.inputs j)
        (slice_index_or (fields_of row.now) j [])) }
    ensures fits { IfOk result (λ z. FitsSigned w64 z) }
{
    let Some(field) = row.get(j) else {
        unreachable!()
    };
    word_of(number, j + 1, program.input_width(j), field)
}

// The words of a record with as many fields as the program has inputs.
#[tactic(auto, unfolding(crate::specs::Samples::words_in))]
fn read_words(
    program: &Program,
    number: u64,
    row: &ByteRecord,
    input: &mut [i64],
) -> Result<(), SampleFault>
    requires places { length input.old ≡ length program.now.inputs }
    requires fields { length (fields_of row.now) ≡ length program.now.inputs }
    ensures ok { OnOk result (words_in number 1 program.now.inputs (fields_of row.now) ≡ Ok input.new) }
    ensures fault { IfErr result (λ e. Fails is_memory e (words_in number 1 program.now.inputs (fields_of row.now))) }
{
    for (j, word) in input.iter_mut().enumerate() {
        *word = column_word(program, number, row, j)?;
    }
    Ok(())
}

// The words of a record into the places of the inputs.
#[tactic(auto, unfolding(crate::specs::Samples::moment_in), using(crate::proofs::Moments::is_moment))]
pub fn read_moment(
    program: &Program,
    number: u64,
    row: &ByteRecord,
    input: &mut [i64],
) -> Result<(), SampleFault>
    requires { length input.old ≡ length program.now.inputs }
    ensures ok { OnOk result (moment_in number program.now.inputs (fields_of row.now) ≡ Ok input.new) }
    ensures moment { OnOk result (IsMoment program.now input.new) }
    ensures fault { IfErr result (λ e. Fails is_memory e (moment_in number program.now.inputs (fields_of row.now))) }
{
    if row.len() != program.inputs() {
        return Err(SampleFault::Columns(number, row.len(), program.inputs()));
    }
    read_words(program, number, row, input)
}
