ghost use Rattle.fx_faults.specs.Laws.{FaultlessLaw, FaultsAreTrue, NoTableLaw, NoneIsDescribed};

/// A law with nothing to run: what a fault says that is told of a filter file is so.
pub fn told_faults_are_true()
    ensures { FaultsAreTrue }
{}

/// A law with nothing to run: `NotToml` is told exactly where the bytes are no text in UTF-8 or the text is no table.
pub fn no_table_is_told_exactly()
    ensures { NoTableLaw }
{}

/// A law with nothing to run: a table of which a fault is told describes no filter.
pub fn faulty_tables_describe_no_filter()
    ensures { NoneIsDescribed }
{}

/// A law with nothing to run: a table describes a filter exactly where what each fault says of it is not so.
pub fn tables_without_faults_are_described()
    ensures { FaultlessLaw }
{}
