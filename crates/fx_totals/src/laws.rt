ghost use Rattle.fx_totals.specs.Growth.{NoTotalIsNegative, TotalsGrow};
ghost use Rattle.fx_totals.specs.Laws.{PairTargets, RowTargets, TargetsLieBetween, TotalsBound};
ghost use Rattle.fx_totals.specs.Padding.{EmptyRowsChangeNothing};

use fx_net::runs_are_blocks;

/// A law with nothing to run: the value of a row target is 2^64 times the row's, that of a pair 2^64 times the code
/// row's less 2^(64 + shift) times the original row's.
pub fn targets_have_these_values()
    ensures row { RowTargets }
    ensures pair { PairTargets }
{}

/// A law with nothing to run: at each moment of a run, with any perturbations that the classes of its rows allow, a
/// target lies between the least and the greatest sum of the words of the moments that were swept, less and more what
/// the roundings, what was cut off the weights, and what lies before these moments may add. For that the words of these
/// moments and the rows of the moments before the last have to be within their bounds, and at the last moment itself
/// those rows before a target row, or for a pair all.
pub fn targets_lie_between()
    ensures { TargetsLieBetween }
{
    runs_are_blocks();
}

/// A law with nothing to run: the magnitude of such a target is at most its total.
pub fn totals_bound()
    ensures { TotalsBound }
{
    targets_lie_between();
}

/// A law with nothing to run: with greater bounds the total of a target is not less, and it is never negative.
pub fn totals_grow()
    ensures grow { TotalsGrow }
    ensures none { NoTotalIsNegative }
{}

/// A law with nothing to run: where empty rows stand behind a net, and no row of it reads them, its sweep has the same
/// numbers as without them, and reaches the limit at the same place. So no number depends on the size of a net.
pub fn empty_rows_change_nothing()
    ensures { EmptyRowsChangeNothing }
{}
