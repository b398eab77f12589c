ghost use Rattle.fx_code.specs.Laws.{
  BareRowsStand,
  CodeStands,
  EarlierInputs,
  ExactWords,
  FittingOutputs,
  FittingRows,
  FittingStarts,
  FlooredRowsRun,
  OutputsInOrder,
  WordsAreTheirStep,
  WordsRun,
};
ghost use Rattle.fx_code.specs.Joint.{JointCommon, JointDenominator};

use crate::program::{Program, programs_fit};
use fx_eqs::common_divides_each;
use fx_math::unrolled_is_its_step;
use fx_net::{denominators_stay, rows_stand};

/// A law with nothing to run: what keeps the limits is never refused, be it a start, a row or an output.
#[tactic(auto, using(crate::proofs::Fitting::start_passes, crate::proofs::Fitting::row_passes, crate::proofs::Fitting::output_passes))]
pub fn what_fits_has_no_fault()
    ensures start { FittingStarts }
    ensures row { FittingRows }
    ensures output { FittingOutputs }
{}

/// A law with nothing to run: the word of an exact row is its whole-number sum, floored by the shift.
pub fn exact_words_are_floored_sums(program: &Program)
    ensures { ExactWords program.now }
{
    programs_fit(program);
}

/// A law with nothing to run: the words of a moment read inputs up to that moment alone.
pub fn words_read_no_later_inputs()
    ensures { EarlierInputs }
{}

/// A law with nothing to run: what is put out at a moment are its output words.
pub fn outputs_are_output_words()
    ensures { OutputsInOrder }
{}

/// A law with nothing to run: each word is its row's step over the words of the whole moment and of the one before.
pub fn words_are_their_step(program: &Program)
    ensures { WordsAreTheirStep program.now }
{
    programs_fit(program);
    unrolled_is_its_step();
}

/// A law with nothing to run: rows that are put into a net stand there, each with its class, and so do those of a
/// program.
pub fn code_stands()
    ensures rows { BareRowsStand }
    ensures code { CodeStands }
{
    rows_stand();
}

/// A law with nothing to run: each denominator of a system's coefficients, shifted by the longest shift, is one of the
/// net that has the rows of a program and, behind them, the expanded rows of the system. So the system's common one
/// serves.
pub fn joint_nets_have_a_denominator()
    ensures each { JointDenominator }
    ensures common { JointCommon }
{
    common_divides_each();
    denominators_stay();
}

/// A law with nothing to run: in each net that holds the rows of a whole program, the words are a perturbed run of
/// these rows, over each common denominator of the net: what an exact row stores is off by at most half a step where
/// it rounds to the nearest and by less than one where it floors, and what one without a right shift stores is just
/// what it reads. So it is with any numbers that are floored by the shift as words are, without wrapping. The other
/// rows of the net may have any values.
pub fn words_are_a_run(program: &Program)
    ensures numbers { FlooredRowsRun program.now }
    ensures words { WordsRun program.now }
{
    programs_fit(program);
    exact_words_are_floored_sums(program);
}
