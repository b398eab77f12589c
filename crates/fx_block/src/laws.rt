ghost use Rattle.fx_block.specs.Laws.{
  BoundedRowsAreExact,
  ExpandedRowsAreWithin,
  IdealIsFloored,
  JointNetsHoldBoth,
  JointValuesAreExact,
  JointValuesRun,
  PairsAreNear,
  RowsAreExact,
  TotalsServeForAllTime,
  WordsAreIdeal,
};

use fx_code::{Program, code_stands, joint_nets_have_a_denominator, programs_fit, words_are_a_run};
use fx_eqs::common_divides_each;
use fx_math::unrolled_is_its_step;
use fx_net::{
    expanded_rows_agree, expanded_rows_have_the_exact_values, other_rows_stay, rows_stand,
};
use fx_totals::{bounds_hold_for_all_time, targets_have_these_values, totals_bound};

/// A law with nothing to run: where each bound serves the next value too, the total of each target, of a row or of a
/// pair, swept for any moments, bounds it at all moments, in each perturbed run on inputs within their bounds.
pub fn totals_serve_for_all_time()
    ensures { TotalsServeForAllTime }
{
    totals_bound();
    bounds_hold_for_all_time();
}

/// A law with nothing to run: the numbers of a program without wrapping are floored as words are. Where they are within
/// bounds that the words and the accumulators take, they are the words, and each row is exact.
pub fn words_are_ideal(program: &Program)
    ensures floored { IdealIsFloored program.now }
    ensures words { WordsAreIdeal program.now }
{
    programs_fit(program);
    unrolled_is_its_step();
}

/// A law with nothing to run: in each net that begins with the rows of a whole program, the numbers of the program
/// without wrapping and, in the other rows, what these read are a run, over each denominator of the net and for all
/// inputs. The rows of the program are off by at most their class in half steps, the others by nothing.
pub fn ideal_values_run(program: &Program)
    ensures { JointValuesRun program.now }
{
    programs_fit(program);
    words_are_a_run(program);
    words_are_ideal(program);
}

/// A law with nothing to run: the net of a program and a system of equations holds the rows of the one and, behind
/// them, the expanded rows of the other.
pub fn joint_nets_hold_both()
    ensures { JointNetsHoldBoth }
{
    code_stands();
    rows_stand();
    other_rows_stay();
}

/// A law with nothing to run: in the run of that net that has the program's numbers without wrapping, the expanded rows
/// have their exact values.
pub fn joint_values_are_exact(program: &Program)
    ensures { JointValuesAreExact program.now }
{
    joint_nets_hold_both();
    ideal_values_run(program);
    expanded_rows_have_the_exact_values();
}

/// A law with nothing to run: in each net that begins with the rows of a whole program, where each bound serves for all
/// time and words and accumulators take the bounds of the program's rows, each of these rows is exact and within its
/// bound, at all moments and on all inputs within their bounds.
pub fn bounded_rows_are_exact(program: &Program)
    ensures { BoundedRowsAreExact program.now }
{
    bounds_hold_for_all_time();
    ideal_values_run(program);
    words_are_ideal(program);
}

/// A law with nothing to run: so it is in the net of a whole program and a system of equations. There the total of a
/// pair bounds how far a word is from 2^shift times an exact value, at all moments, and each expanded row of the
/// equations is within its bound, in each net that runs them.
pub fn bounds_make_near(program: &Program)
    ensures exact { RowsAreExact program.now }
    ensures near { PairsAreNear program.now }
    ensures original { ExpandedRowsAreWithin program.now }
{
    programs_fit(program);
    joint_nets_have_a_denominator();
    common_divides_each();
    joint_nets_hold_both();
    ideal_values_run(program);
    joint_values_are_exact(program);
    bounded_rows_are_exact(program);
    bounds_hold_for_all_time();
    totals_serve_for_all_time();
    targets_have_these_values();
    expanded_rows_agree();
}
