//! Tokens of a text from left to right. Places are offsets in the whole text.

ghost use Rattle.std.specs.Prelude.{◌≡◌, ◌≤◌, ◌<◌, ◌^◌, ◌+◌, ◌-◌, length, take, drop, IfOk, IfSome};
ghost use Rattle.fx_nums.specs.Signs.{is_blank, is_digit};
ghost use Rattle.fx_text.specs.Tokens.{is_letter, is_word, begins};
ghost use Rattle.fx_math.specs.Answers.{Gives};
ghost use Rattle.fx_text.specs.TokenReading.{
  is_memory,
  front_len,
  is_zero,
  is_mark,
  token_len,
  token_at,
  expect_at,
  pair_at,
  front_fault,
  first_line_at,
  number_at,
  ranged_at,
  next_at,
  writes_digit,
  index_at,
  name_number,
  due_at,
};

use crate::fault::CodeFault;
use fx_code::{CODE_ROWS, LimitOf};
use fx_nums::{is_blank, whole_at};

/// The first line of each program's text.
pub const FIRST_LINE: &[u8] = b"#include \"fixif.h\"\n";

fn is_letter(byte: u8) -> bool
    ensures { result ≡ is_letter byte }
{
    (byte >= b'a' && byte <= b'z') || (byte >= b'A' && byte <= b'Z')
}

fn is_digit(byte: u8) -> bool
    ensures { result ≡ is_digit byte }
{
    byte >= b'0' && byte <= b'9'
}

// Whether the byte may stand in a name behind its first.
fn is_word(byte: u8) -> bool
    ensures { result ≡ is_word byte }
{
    is_letter(byte) || is_digit(byte) || byte == b'_'
}

// Whether the byte is a sign by itself.
fn is_mark(byte: u8) -> bool
    ensures { result ≡ is_mark byte }
{
    b"{}(),;=-".iter().any(|mark| *mark == byte)
}

// How many blanks stand at the front.
#[tactic(auto, unfolding(crate::specs::TokenReading::front_len))]
fn blank_len(bytes: &[u8]) -> usize
    ensures count { result ≡ front_len is_blank bytes.now }
    ensures within { result ≤ length bytes.now }
{
    for (i, byte) in bytes.iter().enumerate() {
        if !is_blank(*byte) {
            return i;
        }
    }
    bytes.len()
}

// How many letters, digits and `_` stand at the front.
#[tactic(auto, unfolding(crate::specs::TokenReading::front_len))]
fn word_len(bytes: &[u8]) -> usize
    ensures count { result ≡ front_len is_word bytes.now }
    ensures within { result ≤ length bytes.now }
{
    for (i, byte) in bytes.iter().enumerate() {
        if !is_word(*byte) {
            return i;
        }
    }
    bytes.len()
}

// How many digits stand at the front.
#[tactic(auto, unfolding(crate::specs::TokenReading::front_len))]
fn digits_len(bytes: &[u8]) -> usize
    ensures count { result ≡ front_len is_digit bytes.now }
    ensures within { result ≤ length bytes.now }
{
    for (i, byte) in bytes.iter().enumerate() {
        if !is_digit(*byte) {
            return i;
        }
    }
    bytes.len()
}

// How many zeros stand at the front.
#[tactic(auto, unfolding(crate::specs::TokenReading::front_len))]
fn zeros_len(bytes: &[u8]) -> usize
    ensures count { result ≡ front_len is_zero bytes.now }
    ensures within { result ≤ length bytes.now }
{
    for (i, byte) in bytes.iter().enumerate() {
        if *byte != b'0' {
            return i;
        }
    }
    bytes.len()
}

// The length of the token at the front; 0 where none begins.
#[tactic(auto, unfolding(crate::specs::TokenReading::token_len))]
fn token_len(bytes: &[u8]) -> usize
    ensures count { result ≡ token_len bytes.now }
    ensures within { result ≤ length bytes.now }
{
    match bytes {
        [first, ..] if is_letter(*first) => word_len(bytes),
        [first, ..] if is_digit(*first) => digits_len(bytes),
        [first, ..] if is_mark(*first) => 1,
        [b'+', b'=', ..] => 2,
        _ => 0,
    }
}

// Where the next token begins, its text, which is empty at the end, and where it ends.
#[tactic(auto, unfolding(crate::specs::TokenReading::token_at))]
pub fn token_at(text: &[u8], at: usize) -> Result<(usize, &[u8], usize), CodeFault>
    requires { at ≤ length text.now }
    ensures gives { Gives is_memory (λ t. (t.0, t.1.now, t.2)) result (token_at text.now at) }
    ensures within { IfOk result (λ t. t.2 ≤ length text.now) }
{
    let start = at + blank_len(&text[at..]);
    let rest = &text[start..];
    let len = token_len(rest);
    if len == 0 && !rest.is_empty() {
        return Err(CodeFault::Token(start));
    }
    Ok((start, &rest[..len], start + len))
}

// The place after this token.
#[tactic(auto, unfolding(crate::specs::TokenReading::expect_at))]
pub fn expect_at(text: &[u8], at: usize, word: &[u8]) -> Result<usize, CodeFault>
    requires { at ≤ length text.now }
    ensures gives { Gives is_memory (λ n. n) result (expect_at word.now text.now at) }
    ensures within { IfOk result (λ n. n ≤ length text.now) }
{
    let (start, found, end) = token_at(text, at)?;
    if found == word {
        Ok(end)
    } else {
        Err(CodeFault::Unexpected(start))
    }
}

// The place after these two tokens.
#[tactic(auto, unfolding(crate::specs::TokenReading::pair_at))]
pub fn pair_at(text: &[u8], at: usize, first: &[u8], second: &[u8]) -> Result<usize, CodeFault>
    requires { at ≤ length text.now }
    ensures gives { Gives is_memory (λ n. n) result (pair_at first.now second.now text.now at) }
    ensures within { IfOk result (λ n. n ≤ length text.now) }
{
    let middle = expect_at(text, at, first)?;
    expect_at(text, middle, second)
}

// Why a text does not begin as it must.
fn front_fault(bytes: &[u8]) -> CodeFault
    ensures { result ≡ front_fault bytes.now }
{
    match bytes {
        [] => CodeFault::Unexpected(0),
        [first, ..] => {
            if is_blank(*first) || *first == b'#' || token_len(bytes) != 0 {
                CodeFault::Unexpected(0)
            } else {
                CodeFault::Token(0)
            }
        }
    }
}

// The place after the first line.
#[tactic(auto, unfolding(crate::specs::TokenReading::first_line_at))]
pub fn first_line_at(bytes: &[u8]) -> Result<usize, CodeFault>
    ensures gives { Gives is_memory (λ n. n) result (first_line_at bytes.now) }
    ensures within { IfOk result (λ n. n ≤ length bytes.now) }
{
    if bytes.starts_with(FIRST_LINE) {
        Ok(FIRST_LINE.len())
    } else {
        Err(front_fault(bytes))
    }
}

fn begins_with_digit(word: &[u8]) -> bool
    ensures { result ≡ begins is_digit word.now }
{
    match word {
        [first, ..] => is_digit(*first),
        [] => false,
    }
}

// Whether a token is a name.
pub fn begins_with_letter(word: &[u8]) -> bool
    ensures { result ≡ begins is_letter word.now }
{
    match word {
        [first, ..] => is_letter(*first),
        [] => false,
    }
}

// A number below 2^63, and the place after it.
#[tactic(auto, unfolding(crate::specs::TokenReading::number_at))]
pub fn number_at(text: &[u8], at: usize) -> Result<(u64, usize), CodeFault>
    requires { at ≤ length text.now }
    ensures gives { Gives is_memory (λ n. n) result (number_at text.now at) }
    ensures within { IfOk result (λ n. (n.0 < 2 ^ 63) × (n.1 ≤ length text.now)) }
{
    let (start, word, end) = token_at(text, at)?;
    if !begins_with_digit(word) {
        return Err(CodeFault::Unexpected(start));
    }
    match whole_at(word, 0, 1 << 63) {
        Some((number, _)) => Ok((number as u64, end)),
        None => Err(CodeFault::Number(start)),
    }
}

// A number from low to high, and the place after it.
#[tactic(auto, unfolding(crate::specs::TokenReading::ranged_at))]
fn ranged_at(
    text: &[u8],
    at: usize,
    what: LimitOf,
    low: u8,
    high: u8,
) -> Result<(u8, usize), CodeFault>
    requires { at ≤ length text.now }
    ensures gives { Gives is_memory (λ n. n) result (ranged_at what low high text.now at) }
    ensures within { IfOk result (λ n. (low ≤ n.0) × (n.0 ≤ high) × (n.1 ≤ length text.now)) }
{
    let (number, end) = number_at(text, at)?;
    if number < u64::from(low) || number > u64::from(high) {
        return Err(CodeFault::Limit(what, i128::from(number)));
    }
    Ok((number as u8, end))
}

// A number from low to high behind a comma, and the place after it.
#[tactic(auto, unfolding(crate::specs::TokenReading::next_at))]
pub fn next_at(
    text: &[u8],
    at: usize,
    what: LimitOf,
    low: u8,
    high: u8,
) -> Result<(u8, usize), CodeFault>
    requires { at ≤ length text.now }
    ensures gives { Gives is_memory (λ n. n) result (next_at what low high text.now at) }
    ensures within { IfOk result (λ n. (low ≤ n.0) × (n.0 ≤ high) × (n.1 ≤ length text.now)) }
{
    let at = expect_at(text, at, b",")?;
    ranged_at(text, at, what, low, high)
}

// Whether digits write this number below ten, zeros before it left out.
fn writes_digit(due: u8, digits: &[u8]) -> bool
    requires { due < 10 }
    ensures { result ≡ writes_digit due digits.now }
{
    let rest = &digits[zeros_len(digits)..];
    if due == 0 {
        rest.is_empty()
    } else {
        rest == [b'0' + due].as_slice()
    }
}

// The place after the number that is due.
#[tactic(auto, unfolding(crate::specs::TokenReading::index_at))]
pub fn index_at(text: &[u8], at: usize, due: u8) -> Result<usize, CodeFault>
    requires place { at ≤ length text.now }
    requires digit { due < 10 }
    ensures gives { Gives is_memory (λ n. n) result (index_at due text.now at) }
    ensures within { IfOk result (λ n. n ≤ length text.now) }
{
    let (start, word, end) = token_at(text, at)?;
    if !begins_with_digit(word) {
        return Err(CodeFault::Unexpected(start));
    }
    if !writes_digit(due, word) {
        return Err(CodeFault::Name(start));
    }
    if word.len() != 1 {
        return Err(CodeFault::Number(start));
    }
    Ok(end)
}

// The number of a name with this letter, below the limit.
#[tactic(auto, unfolding(crate::specs::TokenReading::name_number))]
pub fn name_number(word: &[u8], letter: u8, limit: u8) -> Option<u8>
    ensures value { result ≡ name_number letter limit word.now }
    ensures below { IfSome result (λ n. n < limit) }
{
    let [first, digits @ ..] = word else {
        return None;
    };
    if *first != letter {
        return None;
    }
    let (number, end) = whole_at(digits, 0, u128::from(limit))?;
    if !digits[end..].is_empty() {
        return None;
    }
    Some(number as u8)
}

// The place after the name that is due.
#[tactic(auto, unfolding(crate::specs::TokenReading::due_at))]
pub fn due_at(text: &[u8], at: usize, letter: u8, number: u8) -> Result<usize, CodeFault>
    requires { at ≤ length text.now }
    ensures gives { Gives is_memory (λ n. n) result (due_at letter number text.now at) }
    ensures within { IfOk result (λ n. n ≤ length text.now) }
{
    let (start, word, end) = token_at(text, at)?;
    if !begins_with_letter(word) {
        return Err(CodeFault::Unexpected(start));
    }
    match name_number(word, letter, CODE_ROWS as u8) {
        Some(found) if found == number => Ok(end),
        _ => Err(CodeFault::Name(start)),
    }
}
