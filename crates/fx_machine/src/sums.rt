ghost use Rattle.std.specs.Prelude.{
  ◌≡◌,
  ◌+◌,
  ◌*◌,
  ◌^◌,
  ◌<◌,
  ◌≤◌,
  ◌∷◌,
  ◌+ℤ◌,
  ◌*ℤ◌,
  length,
  All,
  unsigned_abs,
};
ghost use Rattle.std.specs.List.{list_any};
ghost use Rattle.fx_math.specs.Division.{floor_div};
ghost use Rattle.fx_math.specs.Residue.{wrap};
ghost use Rattle.fx_math.specs.Words.{WidthFits};
ghost use Rattle.fx_machine.specs.Prepared.{
  half_of,
  is_outside,
  word_in,
  scaled_sum,
  later_sums,
  magnitudes,
  plan_of,
  CanRun,
  Gives,
};

use crate::low_bits::{
    Reading, floored, half_64, is_outside_128, raised, read_62, read_64, read_128,
};
use crate::prepared::{Kind, PreparedRow, ScaledTerm};
use fx_code::LONGEST_SHIFT;

// The word of a row, and what went beyond its bits.
#[derive(Clone, Copy)]
pub struct Outcome {
    pub word: i64,
    // A sum on the way left the accumulator.
    pub partial: bool,
    // The accumulator or the word lost bits.
    pub lost: bool,
    // Whether one of the two may be true.
    pub marked: bool,
}

// ---- sums

// A term's product within 64 bits.
fn product_64(term: &ScaledTerm, words: &[i64]) -> i64
    requires place { term.now.place < length words.now }
    requires fits { unsigned_abs term.now.multiplier * unsigned_abs (word_in words.now term.now.place) < 2 ^ 63 }
    ensures { result ≡ term.now.multiplier *ℤ word_in words.now term.now.place }
{
    term.multiplier * words[term.place]
}

// A term's product within 128 bits.
fn product_128(term: &ScaledTerm, words: &[i64]) -> i128
    requires place { term.now.place < length words.now }
    requires fits { unsigned_abs term.now.multiplier * unsigned_abs (word_in words.now term.now.place) < 2 ^ 127 }
    ensures { result ≡ term.now.multiplier *ℤ word_in words.now term.now.place }
{
    i128::from(term.multiplier) * i128::from(words[term.place])
}

// The sum of a row within 64 bits.
fn plain_sum(constant: i64, terms: &[ScaledTerm], words: &[i64]) -> i64
    requires places { All (λ (t : ScaledTerm). t.place < length words.now) terms.now }
    requires reach { unsigned_abs constant + magnitudes words.now terms.now < 2 ^ 63 }
    ensures { result ≡ constant +ℤ scaled_sum words.now terms.now }
{
    let mut sum = constant;
    for term in terms {
        sum += product_64(term, words);
    }
    sum
}

// The sum of a row within 62 bits, and whether a sum on the way is not one of so many bits.
fn watched_sum_62(constant: i64, terms: &[ScaledTerm], words: &[i64], bits: u8) -> (i64, bool)
    requires low { 1 ≤ bits }
    requires high { bits ≤ 61 }
    requires places { All (λ (t : ScaledTerm). t.place < length words.now) terms.now }
    requires reach { unsigned_abs constant + magnitudes words.now terms.now < 2 ^ 61 }
    ensures sum { result.0 ≡ constant +ℤ scaled_sum words.now terms.now }
    ensures left { result.1 ≡ list_any (is_outside bits) (constant ∷ later_sums constant words.now terms.now) }
{
    let half = half_64(bits);
    let mut sum = constant;
    let mut seen = raised(sum, half);
    for term in terms {
        sum += product_64(term, words);
        seen |= raised(sum, half);
    }
    (sum, seen >= half + half)
}

// The sum of a row within 128 bits, and whether a sum on the way is not one of so many bits.
fn watched_sum_128(constant: i64, terms: &[ScaledTerm], words: &[i64], bits: u8) -> (i128, bool)
    requires low { 1 ≤ bits }
    requires high { bits ≤ 64 }
    requires places { All (λ (t : ScaledTerm). t.place < length words.now) terms.now }
    requires reach { unsigned_abs constant + magnitudes words.now terms.now < 2 ^ 126 }
    ensures sum { result.0 ≡ constant +ℤ scaled_sum words.now terms.now }
    ensures left { result.1 ≡ list_any (is_outside bits) (constant ∷ later_sums constant words.now terms.now) }
{
    let mut sum = i128::from(constant);
    let mut left = is_outside_128(sum, bits);
    for term in terms {
        sum += product_128(term, words);
        left |= is_outside_128(sum, bits);
    }
    (sum, left)
}

// ---- words

// The word that a row keeps of its accumulator.
fn stored(accumulator: i64, row: &PreparedRow) -> Reading
    requires width { WidthFits row.now.width }
    requires half { row.now.half ≡ half_of row.now.width }
    requires shift { row.now.shift ≤ LONGEST_SHIFT }
    ensures value { result.value ≡ wrap row.now.width (floor_div accumulator (2 ^ row.now.shift)) }
    ensures lost { result.lost ≡ is_outside row.now.width (floor_div accumulator (2 ^ row.now.shift)) }
{
    read_64(floored(accumulator, row.shift), row.half, row.width)
}

// ---- rows

// A row that is the word of one source.
fn copied(row: &PreparedRow, words: &[i64]) -> Outcome
    requires runs { CanRun (plan_of row.now) words.now }
    requires kind { row.now.kind ≡ Kind.Copy }
    ensures { Gives (plan_of row.now) words.now result }
{
    let term = row.terms[0];
    Outcome {
        word: words[term.place],
        partial: false,
        lost: false,
        marked: false,
    }
}

// A row whose sums stay within the accumulator and are kept as words.
fn sure(row: &PreparedRow, words: &[i64]) -> Outcome
    requires runs { CanRun (plan_of row.now) words.now }
    requires kind { row.now.kind ≡ Kind.Sure }
    ensures { Gives (plan_of row.now) words.now result }
{
    let sum = plain_sum(row.constant, &row.terms, words);
    let word = floored(sum, row.shift);
    Outcome {
        word,
        partial: false,
        lost: false,
        marked: false,
    }
}

// A row whose sums stay within the accumulator.
fn kept(row: &PreparedRow, words: &[i64]) -> Outcome
    requires runs { CanRun (plan_of row.now) words.now }
    requires kind { row.now.kind ≡ Kind.Word }
    ensures { Gives (plan_of row.now) words.now result }
{
    let sum = plain_sum(row.constant, &row.terms, words);
    let word = stored(sum, row);
    Outcome {
        word: word.value,
        partial: false,
        lost: word.lost,
        marked: word.lost,
    }
}

// A row whose sums may leave the accumulator, and stay within 62 bits.
fn watched(row: &PreparedRow, words: &[i64]) -> Outcome
    requires runs { CanRun (plan_of row.now) words.now }
    requires kind { row.now.kind ≡ Kind.Watched }
    ensures { Gives (plan_of row.now) words.now result }
{
    let (sum, partial) = watched_sum_62(row.constant, &row.terms, words, row.accumulator);
    let total = read_62(sum, row.accumulator);
    let word = stored(total.value, row);
    Outcome {
        word: word.value,
        partial,
        lost: total.lost | word.lost,
        marked: true,
    }
}

// A row whose sums stay within 128 bits.
fn wide(row: &PreparedRow, words: &[i64]) -> Outcome
    requires runs { CanRun (plan_of row.now) words.now }
    requires kind { row.now.kind ≡ Kind.Wide }
    ensures { Gives (plan_of row.now) words.now result }
{
    let (sum, partial) = watched_sum_128(row.constant, &row.terms, words, row.accumulator);
    let total = read_128(sum, row.accumulator);
    let word = stored(total.value, row);
    Outcome {
        word: word.value,
        partial,
        lost: total.lost | word.lost,
        marked: true,
    }
}

// The word of a row, and what went beyond its bits.
pub fn row_outcome(row: &PreparedRow, words: &[i64]) -> Outcome
    requires { CanRun (plan_of row.now) words.now }
    ensures { Gives (plan_of row.now) words.now result }
{
    match row.kind {
        Kind::Copy => copied(row, words),
        Kind::Sure => sure(row, words),
        Kind::Word => kept(row, words),
        Kind::Watched => watched(row, words),
        Kind::Wide => wide(row, words),
    }
}
