//! Plain whole numbers inside a text.

ghost use Rattle.std.specs.Prelude.{◌≡◌, ◌≤◌, ◌<◌, IfSome, drop, length, option_map};
ghost use Rattle.fx_nums.specs.Whole.{WholeLaw, begins_number, digits_from, whole_in};

/// Whether a digit stands first, and no zero before another digit.
fn begins_number(text: &[u8]) -> bool
    ensures { result ≡ begins_number text.now }
{
    match text {
        [] => false,
        [only] => only.is_ascii_digit(),
        [first, second, ..] => first.is_ascii_digit()
            && (*first != b'0' || !second.is_ascii_digit()),
    }
}

/// The number that the digits at the front write, below the limit, and their count.
#[tactic(auto, unfolding(crate::specs::Whole::digits_from))]
fn front_digits(text: &[u8], limit: u128) -> Option<(u128, usize)>
    ensures read { option_map (λ p. (p.0, drop p.1 text.now)) result ≡ digits_from limit 0 text.now }
    ensures within { IfSome result (λ p. p.1 ≤ length text.now) }
{
    let mut value = 0u128;
    for (i, byte) in text.iter().enumerate() {
        if !byte.is_ascii_digit() {
            return Some((value, i));
        }
        value = value.checked_mul(10)?.checked_add((*byte - b'0') as u128)?;
        if value >= limit {
            return None;
        }
    }
    Some((value, text.len()))
}

/// The whole number below the limit that stands at this place of a text, and the place after its
/// last digit. It is written in digits, as many as stand there, without a zero before others.
///
/// None where no such number stands there.
#[tactic(auto, unfolding(crate::specs::Whole::whole_in))]
pub fn whole_at(text: &[u8], at: usize, limit: u128) -> Option<(u128, usize)>
    requires { at ≤ length text.now }
    ensures read { option_map (λ p. (p.0, drop p.1 text.now)) result ≡ whole_in limit (drop at text.now) }
    ensures within { IfSome result (λ p. (p.0 < limit) × (p.1 ≤ length text.now)) }
{
    let rest = &text[at..];
    if !begins_number(rest) {
        return None;
    }
    let (value, count) = front_digits(rest, limit)?;
    Some((value, at + count))
}

/// What is read is the decimal of the number, to the last digit, and each such decimal is read.
pub fn whole_is_read_exactly()
    ensures { WholeLaw }
{}
