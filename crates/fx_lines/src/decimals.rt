// Decimals of numbers at the scale 2^-64.

ghost use Rattle.std.specs.Prelude.{◌≡◌, ◌++◌, ◌<◌, ◌^◌, unsigned_abs, OnOk};
ghost use Rattle.fx_lines.specs.Verdict.{up_part};

use crate::pieces::put_word;
use fx_decimal::print_up;
use std::alloc::AllocError;

/// Decimals of errors and gains have so many places.
pub const PLACES: u8 = 9;

/// The number that it is.
pub fn places_are_these()
    ensures { PLACES ≡ 9 }
{}

/// Puts a word and v / 2^64 behind a text, with nine places, rounded up in the last. The magnitude of v is below 2^126.
#[tactic(auto, using(crate::proofs::Joined::regrouped))]
pub fn put_up(text: &mut Vec<u8>, word: &str, v: i128) -> Result<(), AllocError>
    requires { unsigned_abs v < 2 ^ 126 }
    ensures { OnOk result (text.new.items ≡ text.old.items ++ up_part word.now v) }
{
    put_word(text, word)?;
    text.extend_from_slice(print_up(v, PLACES).bytes())
}
