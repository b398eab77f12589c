ghost use Rattle.fx_net.specs.Blocks.{BoundsAreRaised, BoundsHoldBefore, RowsAreLifted, RunsAreBlocks};
ghost use Rattle.fx_net.specs.Laws.{
  ExactInNet,
  ExactInRuns,
  ExpandedRowsAgree,
  ExpandedRowsAreDivided,
  NewNetsAreDivided,
  NewRowsAreEmpty,
  OtherRowsStay,
  OtherRowsStayEmpty,
  OtherRowsStillStand,
  PutRowsAreDivided,
  RowsStand,
};
ghost use Rattle.fx_net.specs.Running.{EachNetHasARun};

use fx_eqs::{common_divides_each, exact_values_meet_their_equations};

/// A law with nothing to run: rows that are put stand in the net.
pub fn rows_stand()
    ensures { RowsStand }
{}

/// A law with nothing to run: where rows are put, all other rows stay. So those that stood elsewhere still stand, and
/// those that were empty, as all rows of a new net are, still are.
pub fn other_rows_stay()
    ensures each { OtherRowsStay }
    ensures stand { OtherRowsStillStand }
    ensures empty { OtherRowsStayEmpty }
    ensures new { NewRowsAreEmpty }
{}

/// A law with nothing to run: each positive number is a denominator of a new net, a denominator of a net and of the
/// coefficients of rows is one of the net with these rows put, and a denominator of all coefficients of a system is one
/// of its expanded rows.
pub fn denominators_stay()
    ensures new { NewNetsAreDivided }
    ensures put { PutRowsAreDivided }
    ensures expanded { ExpandedRowsAreDivided }
{}

/// A law with nothing to run: each net has a run without perturbation, over each denominator and for all inputs. Its
/// rows have just what they read.
pub fn each_net_has_a_run()
    ensures { EachNetHasARun }
{}

/// A law with nothing to run: where a net holds the expanded rows of a system within the limits, and these have just
/// what they read, each of them has its exact value at all moments, over each denominator of the net and each of the
/// equations: the rows of the equations their own, and those that hold inputs or rows what these had before. The other
/// rows may have any values. So it is in each run that has no perturbation in these rows.
pub fn expanded_rows_have_the_exact_values()
    ensures rows { ExactInNet }
    ensures runs { ExactInRuns }
{
    exact_values_meet_their_equations();
}

/// A law with nothing to run: nets that hold the expanded rows of the same system, where these rows have just what they
/// read and the inputs are the same, have the same values in each of these rows at all moments.
pub fn expanded_rows_agree()
    ensures { ExpandedRowsAgree }
{
    common_divides_each();
    expanded_rows_have_the_exact_values();
}

/// A law with nothing to run: the moments of a run up to any one are a block, its rows over one denominator, and bounds
/// on rows and inputs at all moments are bounds in the block.
pub fn runs_are_blocks()
    ensures rows { RowsAreLifted }
    ensures blocks { RunsAreBlocks }
    ensures bounds { BoundsAreRaised }
    ensures inputs { BoundsHoldBefore }
{}
