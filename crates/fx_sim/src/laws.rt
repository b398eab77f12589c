ghost use Rattle.fx_sim.specs.Laws.{FieldLaw, SamplesLaw};

/// A law with nothing to run: a number is read from exactly the fields that stand for it.
pub fn fields_are_read_exactly()
    ensures { FieldLaw }
{}

/// A law with nothing to run: moments are read from exactly the samples whose records stand for them.
pub fn samples_are_read_exactly()
    ensures { SamplesLaw }
{}
