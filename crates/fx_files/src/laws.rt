//! What a filter file means.

ghost use Rattle.fx_files.specs.Describes.{DescribesOne, FileLaw};

/// Bytes are read as a filter exactly where they are a text in UTF-8 that is a TOML table, and the table describes this
/// filter.
pub fn files_are_described()
    ensures { FileLaw }
{}

/// A table describes at most one filter.
pub fn tables_describe_one_filter()
    ensures { DescribesOne }
{}
