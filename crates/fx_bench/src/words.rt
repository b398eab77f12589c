//! What the words of the command line ask for.

ghost use Rattle.std.specs.Prelude.{◌≡◌, ◌+◌, ◌<◌, ◌≤◌, IfSome};
ghost use Rattle.fx_bench.specs.Recipe.{RecipeFits};
ghost use Rattle.fx_bench.specs.Words.{
  HasRounds,
  asked_by,
  bench_named,
  number_in,
  possible,
  recipe_in,
  rounds_in,
  sweep_asked,
  texts,
};

use crate::recipe::Recipe;
use fx_nums::whole_at;

/// What is timed.
#[derive(Clone, Copy)]
pub enum Bench {
    /// Numerals read, and values printed.
    Decimal,
    /// Steps of machines.
    Machine,
}

/// What the words ask for.
#[derive(Clone, Copy)]
pub enum Asked {
    /// No bench.
    Nothing,
    /// A bench, and this many rounds over its tables, or moments of its programs.
    Rounds(Bench, u32),
    /// Sweeps of a net by a recipe.
    Sweep(Recipe),
    /// What this program does not have.
    Unknown,
}

fn bench_named(word: &str) -> Option<Bench>
    ensures { result ≡ bench_named word.now }
{
    match word {
        "decimal" => Some(Bench::Decimal),
        "machine" => Some(Bench::Machine),
        _ => None,
    }
}

fn rounds_in(word: &str) -> Option<u32>
    ensures { result ≡ rounds_in word.now }
{
    let bytes = word.as_bytes();
    let (count, end) = whole_at(bytes, 0, 1 << 32)?;
    match &bytes[end..] {
        [] if count > 0 => Some(count as u32),
        _ => None,
    }
}

// The number that a word is, from the least to the greatest.
fn number_in(word: &str, least: u16, greatest: u16) -> Option<u16>
    ensures number { result ≡ number_in word.now least greatest }
    ensures within { IfSome result (λ n. (least ≤ n) × (n ≤ greatest)) }
{
    let bytes = word.as_bytes();
    let (number, end) = whole_at(bytes, 0, u128::from(greatest) + 1)?;
    match &bytes[end..] {
        [] if number >= u128::from(least) => Some(number as u16),
        _ => None,
    }
}

// The recipe, where no more rows are read than there are, and some.
fn possible(recipe: Recipe) -> Option<Recipe>
    requires now { recipe.now ≤ 63 }
    requires old { recipe.old ≤ 64 }
    ensures recipe { result ≡ possible recipe }
    ensures within { IfSome result (λ r. (r ≡ recipe) × (r.old ≤ r.rows) × (1 ≤ r.now + r.old)) }
{
    if recipe.old > recipe.rows {
        return None;
    }
    if recipe.now + recipe.old == 0 {
        return None;
    }
    Some(recipe)
}

// The recipe that five words are.
fn recipe_in(words: &[String]) -> Option<Recipe>
    ensures recipe { result ≡ recipe_in (texts words.now) }
    ensures fits { IfSome result (λ r. RecipeFits r) }
{
    match words {
        [rows, now, old, places, moments] => possible(Recipe {
            rows: number_in(rows.as_str(), 1, 64)?,
            now: number_in(now.as_str(), 0, 63)?,
            old: number_in(old.as_str(), 0, 64)?,
            places: number_in(places.as_str(), 7, 18)?,
            moments: number_in(moments.as_str(), 1, 4096)?,
        }),
        _ => None,
    }
}

// What the name of a bench and a recipe ask for.
fn sweep_asked(bench: &str, recipe: Option<Recipe>) -> Asked
    requires { IfSome recipe (λ r. RecipeFits r) }
    ensures asked { result ≡ sweep_asked bench.now recipe }
    ensures rounds { HasRounds result }
{
    match (bench, recipe) {
        ("sweep", Some(recipe)) => Asked::Sweep(recipe),
        _ => Asked::Unknown,
    }
}

/// What the program's name and the words behind it ask for.
pub fn request(words: &[String]) -> Asked
    ensures asked { result ≡ asked_by (texts words.now) }
    ensures rounds { HasRounds result }
{
    match words {
        [] | [_] => Asked::Nothing,
        [_, bench, rounds] => match (bench_named(bench.as_str()), rounds_in(rounds.as_str())) {
            (Some(bench), Some(rounds)) => Asked::Rounds(bench, rounds),
            _ => Asked::Unknown,
        },
        [_, bench, numbers @ ..] => sweep_asked(bench.as_str(), recipe_in(numbers)),
    }
}
