//! The commands: from the words of a command line and the files that they name to a status and a text.
#![tactic(auto)]

ghost use Rattle.std.specs.Prelude.{◌≡◌};

mod check;
mod ending;
mod gain;
mod judgement;
mod large;
mod make;
mod operand;
mod placing;
mod reading;
mod refused;
mod running;
mod show;
mod simulate;
mod status;
mod writing;

use fx_words::{LONGEST_FILE, LONGEST_SAMPLES};
use reading::PIECE;
pub use running::{check_ends_by_its_files, run};
pub use status::{NO_WORDS, Status};

/// The limits of the files, and of one read, in bytes.
pub fn limits_are_these()
    ensures file { LONGEST_FILE ≡ 1048576 }
    ensures samples { LONGEST_SAMPLES ≡ 16777216 }
    ensures piece { PIECE ≡ 65536 }
{}
