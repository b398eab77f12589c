ghost use Rattle.fx_gain.specs.Laws.{EnclosuresHold};

use fx_block::{raises_find_the_least, totals_serve_for_all_time};
use fx_eqs::{common_divides_each, systems_fit};
use fx_files::{Filter, filters_fit};
use fx_net::{
    denominators_stay, each_net_has_a_run, expanded_rows_have_the_exact_values, other_rows_stay,
    rows_stand,
};
use fx_totals::{bounds_hold_for_all_time, targets_have_these_values, targets_lie_between};

/// A law with nothing to run: over a length that does not fail, the ends enclose how far each output goes on words of
/// each input alone, at all moments, and the words reach the low end.
pub fn enclosures_hold(filter: &Filter)
    ensures { EnclosuresHold filter.now }
{
    filters_fit(filter);
    systems_fit(filter.eqs());
    common_divides_each();
    rows_stand();
    other_rows_stay();
    denominators_stay();
    each_net_has_a_run();
    expanded_rows_have_the_exact_values();
    raises_find_the_least();
    totals_serve_for_all_time();
    bounds_hold_for_all_time();
    targets_lie_between();
    targets_have_these_values();
}
