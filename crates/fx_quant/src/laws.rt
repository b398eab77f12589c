ghost use Rattle.fx_quant.specs.Coefficients.{FractionsAreSmall, RoundedRows};
ghost use Rattle.fx_quant.specs.Laws.{RoundsToNearest};

/// A law with nothing to run: a rounded coefficient is off by at most half of its last place.
#[tactic(auto, using(crate::proofs::Rounding::to_nearest))]
pub fn coefficients_are_rounded_to_nearest()
    ensures { RoundsToNearest }
{}

/// A law with nothing to run: what a row of a design takes of each source is the form's coefficient, rounded to so many
/// places behind the point, and off by at most half of the last of these places; no row could do with a lesser right
/// shift; and each row drops low places as the formats say. The coefficients are small, as those of fractions are.
pub fn rows_take_the_forms()
    ensures rows { RoundedRows }
    ensures small { FractionsAreSmall }
{}
