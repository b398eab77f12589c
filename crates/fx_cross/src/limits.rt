//! How large a table may be.

ghost use Rattle.std.specs.Prelude.{◌≡◌};

/// The most rows, and the most columns, of a table.
pub const GREATEST_SIDE: usize = 64;

/// The most entries other than 0 that a table may have memory for.
pub const GREATEST_ROOM: usize = 4096;

/// The numbers that the limits of tables are.
pub fn limits_are_these()
    ensures side { GREATEST_SIDE ≡ 64 }
    ensures room { GREATEST_ROOM ≡ 4096 }
{}
