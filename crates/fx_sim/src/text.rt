// The text of words.

ghost use Rattle.std.specs.Prelude.{◌≡◌, ◌+◌, ◌*◌, ◌≤◌, ◌<◌, ◌++◌, List, [], length, take, codes, ℕ, OnOk};
ghost use Rattle.std.specs.Fmt.{decimal, signed_decimal};
ghost use Rattle.std.specs.List.{flat_map, join_by};
ghost use Rattle.fx_nums.specs.Signs.{minus_text};
ghost use Rattle.fx_eqs.specs.declared.limits.TheConstants.{PORTS};
ghost use Rattle.fx_sim.specs.Output.{line_of};

use fx_eqs::PORTS;
use itoa::write_digits;
use std::alloc::{AllocError, Global};
use std::marker::Model;

// The most bytes of a number of 64 bits with a sign.
const NUMBER_BYTES: usize = 20;

// The most bytes of a line: numbers, and a comma or a line feed behind each.
const LINE_BYTES: usize = PORTS * (NUMBER_BYTES + 1) + 1;

// The room that is made at once.
const ROOM_BYTES: usize = 4096;

// Lines in a text whose room was made before.
#[derive(Drop)]
pub struct Lines {
    // The lines, and room behind them.
    text: Vec<u8>,
    // Where the lines end.
    end: usize,
}

impl Model for Lines {
    ghost Value = { List ℕ };

    ghost view = { λ l. take l.end l.text.items };

    ghost invariant = { λ l. l.end ≤ length l.text.items };
}

impl Lines {
    // No lines.
    pub fn new(alloc: Global) -> Lines
        ensures { result ≡ [] }
    {
        Lines {
            text: Vec::new(alloc),
            end: 0,
        }
    }

    // One line more: words joined by commas, and a line feed.
    pub fn put(&mut self, words: &[i64]) -> Result<(), AllocError>
        requires { length words.now ≤ PORTS }
        ensures { OnOk result (self.new ≡ self.old ++ line_of words.now) }
    {
        if self.text.len() - self.end < LINE_BYTES {
            self.text.resize(self.end + ROOM_BYTES, 0)?;
        }
        self.end = put_line(&mut self.text, self.end, words);
        Ok(())
    }

    // The lines alone.
    pub fn into_text(mut self) -> Vec<u8>
        ensures { result.items ≡ self }
    {
        self.text.truncate(self.end);
        self.text
    }
}

// The count of the digits of a number below 10,000.
#[tactic(auto, using(crate::proofs::Counts::one_digit, crate::proofs::Counts::two_digits, crate::proofs::Counts::three_digits, crate::proofs::Counts::four_digits))]
fn short_count(number: u64) -> usize
    requires { number < 10000 }
    ensures { result ≡ length (decimal number) }
{
    if number < 100 {
        if number < 10 { 1 } else { 2 }
    } else if number < 1_000 {
        3
    } else {
        4
    }
}

// The count of the digits of a number.
#[tactic(auto, using(crate::proofs::Counts::four_more, crate::proofs::Counts::few_digits))]
fn digit_count(number: u64) -> usize
    ensures { result ≡ length (decimal number) }
{
    let mut left = number;
    let mut count = 0;
    while left >= 10_000 {
        left /= 10_000;
        count += 4;
    }
    count + short_count(left)
}

// Digits at a place of a text, and where they end.
#[tactic(auto, using(crate::proofs::Written::written))]
fn put_digits(text: &mut [u8], at: usize, number: u64) -> usize
    requires { at + length (decimal number) ≤ length text.old }
    ensures end { result ≡ at + length (decimal number) }
    ensures text { take result text.new ≡ take at text.old ++ decimal number }
{
    let end = at + digit_count(number);
    write_digits(number, text, end);
    end
}

// A minus, where there is one, and where it ends.
fn put_minus(text: &mut [u8], at: usize, negative: bool) -> usize
    requires { at < length text.old }
    ensures end { result ≡ at + length (minus_text negative) }
    ensures text { take result text.new ≡ take at text.old ++ minus_text negative }
{
    if !negative {
        return at;
    }
    text[at] = b'-';
    at + 1
}

// A number at a place of a text, and where it ends.
#[tactic(auto, using(crate::proofs::Counts::digits_of_word))]
fn put_number(text: &mut [u8], at: usize, number: i64) -> usize
    requires { at + NUMBER_BYTES ≤ length text.old }
    ensures end { result ≤ at + NUMBER_BYTES }
    ensures text { take result text.new ≡ take at text.old ++ signed_decimal number }
{
    let start = put_minus(text, at, number < 0);
    put_digits(text, start, number.unsigned_abs())
}

// Words, each behind a comma, and where they end.
fn put_more(text: &mut [u8], at: usize, words: &[i64]) -> usize
    requires { at + length words.now * (NUMBER_BYTES + 1) ≤ length text.old }
    ensures end { result ≤ at + length words.now * (NUMBER_BYTES + 1) }
    ensures text { take result text.new
        ≡ take at text.old ++ flat_map (λ z. codes "," ++ signed_decimal z) words.now }
{
    let mut end = at;
    for word in words {
        text[end] = b',';
        end = put_number(text, end + 1, *word);
    }
    end
}

// Words joined by commas, and where they end.
fn put_words(text: &mut [u8], at: usize, words: &[i64]) -> usize
    requires { at + length words.now * (NUMBER_BYTES + 1) ≤ length text.old }
    ensures end { result ≤ at + length words.now * (NUMBER_BYTES + 1) }
    ensures text { take result text.new ≡ take at text.old ++ join_by signed_decimal (codes ",") words.now }
{
    match words {
        [] => at,
        [first, more @ ..] => {
            let end = put_number(text, at, *first);
            put_more(text, end, more)
        }
    }
}

// Words joined by commas, and a line feed; and where they end.
fn put_line(text: &mut [u8], at: usize, words: &[i64]) -> usize
    requires room { at + LINE_BYTES ≤ length text.old }
    requires few { length words.now ≤ PORTS }
    ensures end { result ≤ at + LINE_BYTES }
    ensures text { take result text.new ≡ take at text.old ++ line_of words.now }
{
    let end = put_words(text, at, words);
    text[end] = b'\n';
    end + 1
}
