//! Numbers as they are written in a certificate.

ghost use Rattle.std.specs.Prelude.{◌≡◌, ◌≤◌, ◌<◌, IfOk, IfSome, option_map};
ghost use Rattle.fx_math.specs.Answers.{Gives};
ghost use Rattle.fx_cert.specs.Laws.{NumberLaw};
ghost use Rattle.fx_cert.specs.Reading.{
  behind,
  has_no_leading_zero,
  is_memory,
  number_behind,
  number_within,
  value_within,
};

use crate::fault::CertFault;
use crate::limits::GREATEST_ERROR;

// The number of these digits, where it is at most high.
#[tactic(auto, unfolding(crate::specs::Reading::value_within))]
fn value_within(digits: &[u8], high: u128) -> Option<u128>
    requires { high ≤ GREATEST_ERROR }
    ensures value { result ≡ value_within high 0 digits.now }
    ensures within { IfSome result (λ n. n ≤ high) }
{
    let mut value = 0u128;
    for digit in digits {
        if !digit.is_ascii_digit() {
            return None;
        }
        value = 10 * value + (*digit - b'0') as u128;
        if value > high {
            return None;
        }
    }
    Some(value)
}

// Whether there is a digit, and no zero before another.
fn has_no_leading_zero(digits: &[u8]) -> bool
    ensures { result ≡ has_no_leading_zero digits.now }
{
    match digits {
        [] => false,
        [_] => true,
        [first, ..] => *first != b'0',
    }
}

// A number from low to high, in decimal without a sign and without leading zeros.
#[tactic(auto, unfolding(crate::specs::Reading::number_within))]
fn number_within(digits: &[u8], low: u128, high: u128) -> Option<u128>
    requires { high ≤ GREATEST_ERROR }
    ensures value { result ≡ number_within low high digits.now }
    ensures within { IfSome result (λ n. (low ≤ n) × (n ≤ high)) }
{
    if !has_no_leading_zero(digits) {
        return None;
    }
    let value = value_within(digits, high)?;
    if value < low { None } else { Some(value) }
}

// What stands behind a word.
fn behind<'a>(text: &'a [u8], word: &[u8]) -> Option<&'a [u8]>
    ensures { option_map (λ s. s.now) result ≡ behind word.now text.now }
{
    if text.starts_with(word) {
        Some(&text[word.len()..])
    } else {
        None
    }
}

// The number from low to high behind a word, the text of a line of this number.
#[tactic(auto, unfolding(crate::specs::Reading::number_behind))]
pub(crate) fn number_behind(
    text: &[u8],
    line: u32,
    word: &[u8],
    low: u128,
    high: u128,
) -> Result<u128, CertFault>
    requires { high ≤ GREATEST_ERROR }
    ensures gives { Gives is_memory (λ n. n) result (number_behind line word.now low high text.now) }
    ensures within { IfOk result (λ n. (low ≤ n) × (n ≤ high)) }
{
    let Some(digits) = behind(text, word) else {
        return Err(CertFault::Line(line));
    };
    let Some(number) = number_within(digits, low, high) else {
        return Err(CertFault::Number(line));
    };
    Ok(number)
}

/// A law with nothing to run: a number is read exactly from its decimal, in its range.
pub fn numbers_are_read_exactly()
    ensures { NumberLaw }
{}
