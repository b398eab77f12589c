// The numbers of fields.

ghost use Rattle.std.specs.Prelude.{◌≡◌, ◌<◌, ◌^◌, IfSome, FitsSigned};
ghost use Rattle.std.specs.Int.{w64};
ghost use Rattle.fx_sim.specs.Fields.{field_value, magnitude, skipped};

use fx_nums::is_blank;

/// The most digits of a field.
pub const FIELD_DIGITS: usize = 18;

/// The number that the limit of digits is.
pub fn field_digits_is_this()
    ensures { FIELD_DIGITS ≡ 18 }
{}

// What follows the blanks at the front.
#[tactic(auto, unfolding(crate::specs::Fields::skipped))]
fn skipped(bytes: &[u8]) -> &[u8]
    ensures { result.now ≡ skipped bytes.now }
{
    for (i, byte) in bytes.iter().enumerate() {
        if !is_blank(*byte) {
            return &bytes[i..];
        }
    }
    &[]
}

// The number of at least one digit and not too many, with only blanks behind them.
#[tactic(auto, unfolding(crate::specs::Fields::magnitude, crate::specs::Fields::skipped), using(crate::proofs::Digits::one_digit_left, crate::proofs::Digits::grows))]
fn magnitude(bytes: &[u8]) -> Option<u64>
    ensures value { result ≡ magnitude 0 0 bytes.now }
    ensures small { IfSome result (λ n. n < 10 ^ 18) }
{
    let mut value = 0u64;
    let mut count = 0usize;
    for (i, byte) in bytes.iter().enumerate() {
        if *byte < b'0' || *byte > b'9' {
            return if count > 0 && skipped(&bytes[i..]).is_empty() {
                Some(value)
            } else {
                None
            };
        }
        if count == FIELD_DIGITS {
            return None;
        }
        value = 10 * value + (*byte - b'0') as u64;
        count += 1;
    }
    if count > 0 { Some(value) } else { None }
}

/// The number of a field: blanks, perhaps a sign, 1 to `FIELD_DIGITS` digits, and blanks.
#[tactic(auto, unfolding(crate::specs::Fields::number_in, crate::specs::Fields::magnitude))]
pub fn field_value(field: &[u8]) -> Option<i64>
    ensures value { result ≡ field_value field.now }
    ensures fits { IfSome result (λ z. FitsSigned w64 z) }
{
    match skipped(field) {
        [b'-', rest @ ..] => Some(-(magnitude(rest)? as i64)),
        [b'+', rest @ ..] => Some(magnitude(rest)? as i64),
        rest => Some(magnitude(rest)? as i64),
    }
}
