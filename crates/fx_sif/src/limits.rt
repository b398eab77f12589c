ghost use Rattle.std.specs.Prelude.{◌≡◌};

/// The most rows of an implicit form: intermediate variables, states and outputs.
pub const FORM_ROWS: usize = 40;

/// The number that the limit of a form is.
pub fn form_rows_are_these()
    ensures rows { FORM_ROWS ≡ 40 }
{}
