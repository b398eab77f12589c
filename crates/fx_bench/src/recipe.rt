//! Nets by a recipe, to sweep.

ghost use Rattle.std.specs.Prelude.{◌≡◌, ◌<◌, ◌≤◌, ◌^◌, pos};
ghost use Rattle.fx_nums.specs.Fraction.{FractionFits};
ghost use Rattle.fx_nums.specs.declared.fraction.Den.TheVariants.{Ten};
ghost use Rattle.fx_net.specs.Tables.{net_of};
ghost use Rattle.fx_bench.specs.Recipe.{
  RecipeFits,
  coefficient,
  earlier,
  numerator,
  row_terms,
  terms,
  with_now,
  with_old,
  with_row,
  with_rows,
};

use fx_net::{LARGEST_NET, Net};
use fx_nums::{Den, Frac};

/// A net by a recipe, and how many moments it is swept.
#[derive(Clone, Copy)]
pub struct Recipe {
    /// The rows, 1 to 64.
    pub rows: u16,
    /// How many of the rows before it each row reads in the same moment, 0 to 63. Fewer are read where there are fewer.
    pub now: u16,
    /// How many rows of the moment before each row reads, up to all.
    pub old: u16,
    /// The places of the coefficients, 7 to 18.
    pub places: u16,
    /// The moments of a sweep, 1 to 4096.
    pub moments: u16,
}

// The numerator of the n-th coefficient.
#[tactic(auto, using(crate::proofs::Numerators::numerator_fits, crate::proofs::Numerators::scaled_fits))]
fn numerator(recipe: Recipe, n: usize) -> i64
    requires recipe { RecipeFits recipe }
    requires few { n ≤ 2 ^ 16 }
    ensures value { result ≡ pos (numerator recipe n) }
    ensures fits { FractionFits result (Ten recipe.places) }
{
    let millionths = 880000 + (n as u64 * 7919 + 104729) % 200003;
    let scaled = millionths * 10u64.pow(u32::from(recipe.places) - 6);
    (scaled / u64::from(recipe.now + recipe.old)) as i64
}

// The n-th coefficient.
fn coefficient(recipe: Recipe, n: usize) -> Frac
    requires recipe { RecipeFits recipe }
    requires few { n ≤ 2 ^ 16 }
    ensures { result ≡ coefficient recipe n }
{
    match Frac::new(numerator(recipe, n), Den::Ten(recipe.places as u8)) {
        Some(coef) => coef,
        None => unreachable!(),
    }
}

// How many rows before it a row reads in the same moment.
fn earlier(recipe: Recipe, i: usize) -> usize
    ensures value { result ≡ earlier recipe i }
    ensures high { result ≤ i }
{
    i.min(usize::from(recipe.now))
}

// Puts what a row reads of the same moment, by coefficients from the n-th.
#[tactic(auto, unfolding(crate::specs::Recipe::with_now))]
fn put_now<const N: usize>(net: &mut Net<N>, recipe: Recipe, i: usize, n: usize)
    requires recipe { RecipeFits recipe }
    requires row { i < N }
    requires size { N ≤ LARGEST_NET }
    requires few { n ≤ 2 ^ 15 }
    ensures { net_of net.new ≡ with_now recipe i n (earlier recipe i) (net_of net.old) }
{
    let count = earlier(recipe, i);
    for k in 0..count {
        net.set_now(i, i - count + k, coefficient(recipe, n + k));
    }
}

// Puts what a row reads of the moment before, by coefficients from the n-th.
#[tactic(auto, unfolding(crate::specs::Recipe::with_old))]
fn put_old<const N: usize>(net: &mut Net<N>, recipe: Recipe, i: usize, n: usize)
    requires recipe { RecipeFits recipe }
    requires row { i < N }
    requires rows { recipe.rows ≤ N }
    requires size { N ≤ LARGEST_NET }
    requires few { n ≤ 2 ^ 15 }
    ensures { net_of net.new ≡ with_old recipe i n recipe.old (net_of net.old) }
{
    let rows = usize::from(recipe.rows);
    for k in 0..usize::from(recipe.old) {
        net.set_old(i, (i + k) % rows, coefficient(recipe, n + k));
    }
}

// Puts what a row reads, by coefficients from the n-th.
fn put_row<const N: usize>(net: &mut Net<N>, recipe: Recipe, i: usize, n: usize)
    requires recipe { RecipeFits recipe }
    requires row { i < N }
    requires rows { recipe.rows ≤ N }
    requires size { N ≤ LARGEST_NET }
    requires few { n ≤ 2 ^ 14 }
    ensures { net_of net.new ≡ with_row recipe i n (net_of net.old) }
{
    let old = n + earlier(recipe, i);
    put_now(net, recipe, i, n);
    put_old(net, recipe, i, old);
    net.set_in(i, 0, coefficient(recipe, old + usize::from(recipe.old)));
}

// How many coefficients a row has.
fn row_terms(recipe: Recipe, i: usize) -> usize
    requires { RecipeFits recipe }
    ensures value { result ≡ row_terms recipe i }
    ensures high { result ≤ 128 }
{
    earlier(recipe, i) + usize::from(recipe.old) + 1
}

/// Puts what all rows read into a net. It gives the count of coefficients.
#[tactic(auto, unfolding(crate::specs::Recipe::with_rows))]
pub fn put_rows<const N: usize>(net: &mut Net<N>, recipe: Recipe) -> usize
    requires recipe { RecipeFits recipe }
    requires rows { recipe.rows ≤ N }
    requires size { N ≤ LARGEST_NET }
    ensures net { net_of net.new ≡ with_rows recipe recipe.rows (net_of net.old) }
    ensures count { result ≡ terms recipe }
    ensures low { 1 ≤ result }
    ensures high { result ≤ 2 ^ 13 }
{
    let mut terms = 0;
    for i in 0..usize::from(recipe.rows) {
        put_row(net, recipe, i, terms + 1);
        terms += row_terms(recipe, i);
    }
    terms
}
