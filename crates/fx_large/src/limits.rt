//! How much is drawn.

/// The sections of a filter.
pub const SECTIONS_DRAWN: usize = 8;

/// The draws of a section.
pub const SECTION_DRAWS: usize = 5;

/// The draws of all sections.
pub const FILTER_DRAWS: usize = SECTIONS_DRAWN * SECTION_DRAWS;

/// The samples that a program is run on.
pub const SAMPLES: usize = 100_000;
