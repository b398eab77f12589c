ghost use Rattle.fx_check.specs.Report.{PartsAddUp};

/// A law with nothing to run: the three parts of an output's error that a report tells add up to the total of its pair,
/// with which the certificate's error is compared.
pub fn parts_add_up()
    ensures { PartsAddUp }
{}
