//! Sweeps of nets by recipes.

ghost use Rattle.std.specs.Prelude.{◌≡◌, ◌<◌, ◌≤◌, ◌-◌, IfOk, Some};
ghost use Rattle.fx_net.specs.Tables.{net_of};
ghost use Rattle.fx_sweep.specs.declared.target.Target.TheVariants.{Row};
ghost use Rattle.fx_bench.specs.Recipe.{RecipeFits};
ghost use Rattle.fx_bench.specs.Sweeping.{IsTimeOf, gain_or_range, recipe_text, size_for, time_text};

use crate::per_call::PerCall;
use crate::recipe::{Recipe, put_rows};
use fx_net::{LARGEST_NET, Net};
use fx_sweep::{RangeAt, Sweep, Target};
use std::alloc::Global;
use std::rt::Clock;
use std::time::{Duration, Instant};
use std::{fmt, io};

// How many sweeps are timed.
const SWEEPS: u32 = 5;

impl fmt::Display for Recipe {
    ghost output = { λ r. Some (recipe_text r) };

    fn fmt<W: fmt::Write>(&self, f: &mut fmt::Formatter<W>) -> fmt::Result {
        write!(
            f,
            "{} {} {} {} {}",
            self.rows, self.now, self.old, self.places, self.moments
        )
    }
}

/// What a sweep of a recipe's net took, and what it left.
#[derive(Clone, Copy)]
pub struct SweepTime {
    /// The recipe.
    pub recipe: Recipe,
    /// What a term of a moment took.
    pub per_term: PerCall,
    /// How many coefficients the net has.
    pub terms: usize,
    /// The gain of input 0, times 2^64.
    pub gain: u128,
}

impl fmt::Display for SweepTime {
    ghost output = { λ t. Some (time_text t) };

    fn fmt<W: fmt::Write>(&self, f: &mut fmt::Formatter<W>) -> fmt::Result {
        let high = self.gain >> 64;
        let low = self.gain % (1 << 64);
        write!(
            f,
            "sweep {} {} terms {} gain {high} {low}",
            self.recipe, self.per_term, self.terms
        )
    }
}

// The gain of input 0 for a row after so many moments of its sweep, or the first range in them.
#[tactic(auto, using(crate::proofs::FirstMet::range_met, crate::proofs::FirstMet::no_range_met))]
fn swept_gain<const N: usize>(
    sweep: &mut Sweep<N>,
    net: &Net<N>,
    row: u8,
    moments: u16,
) -> Result<u128, RangeAt>
    requires row { row < N }
    requires moments { moments ≤ 4096 }
    ensures { result ≡ gain_or_range (net_of net.now) (Row row) moments }
{
    sweep.start(Target::Row(row));
    for _ in 0..moments {
        sweep.moment(net)?;
    }
    Ok(sweep.input_gain(0).unsigned_abs())
}

// Times one sweep.
fn timed_gain<R: Clock, const N: usize>(
    rt: &R,
    sweep: &mut Sweep<N>,
    net: &Net<N>,
    recipe: Recipe,
) -> io::Result<(Duration, Result<u128, RangeAt>)>
    requires recipe { RecipeFits recipe }
    requires rows { recipe.rows ≤ N }
    ensures { IfOk result (λ t. t.1 ≡ gain_or_range (net_of net.now) (Row (recipe.rows - 1)) recipe.moments) }
{
    let start = Instant::now(rt)?;
    let gain = swept_gain(sweep, net, (recipe.rows - 1) as u8, recipe.moments);
    let time = start.elapsed(rt)?;
    Ok((time, gain))
}

// The least time of a few sweeps, and the gain of input 0 after each.
fn least_time<R: Clock, const N: usize>(
    rt: &R,
    sweep: &mut Sweep<N>,
    net: &Net<N>,
    recipe: Recipe,
) -> io::Result<(Duration, Result<u128, RangeAt>)>
    requires recipe { RecipeFits recipe }
    requires rows { recipe.rows ≤ N }
    ensures { IfOk result (λ t. t.1 ≡ gain_or_range (net_of net.now) (Row (recipe.rows - 1)) recipe.moments) }
{
    let (mut least, gain) = timed_gain(rt, sweep, net, recipe)?;
    for _ in 1..SWEEPS {
        let (time, _) = timed_gain(rt, sweep, net, recipe)?;
        least = least.min(time);
    }
    Ok((least, gain))
}

// Times sweeps of a recipe's net with room for N rows; or gives the first range in one.
fn sized_time<R: Clock, const N: usize>(
    rt: &R,
    alloc: Global,
    recipe: Recipe,
) -> io::Result<Result<SweepTime, RangeAt>>
    requires recipe { RecipeFits recipe }
    requires rows { recipe.rows ≤ N }
    requires size { N ≤ LARGEST_NET }
    ensures { IfOk result (λ t. IsTimeOf recipe N t) }
{
    let mut net = Net::<N>::new(alloc)?;
    let terms = put_rows(&mut net, recipe);
    let mut sweep = Sweep::<N>::new(alloc)?;
    let (time, gain) = least_time(rt, &mut sweep, &net, recipe)?;
    let per_term = PerCall::new(time, terms as u64 * u64::from(recipe.moments));
    match gain {
        Ok(gain) => Ok(Ok(SweepTime {
            recipe,
            per_term,
            terms,
            gain,
        })),
        Err(at) => Ok(Err(at)),
    }
}

// Times sweeps of a recipe's net, of the least size that holds its rows; or gives the first range in one.
fn sweep_time<R: Clock>(
    rt: &R,
    alloc: Global,
    recipe: Recipe,
) -> io::Result<Result<SweepTime, RangeAt>>
    requires { RecipeFits recipe }
    ensures { IfOk result (λ t. IsTimeOf recipe (size_for recipe.rows) t) }
{
    if recipe.rows <= 8 {
        return sized_time::<R, 8>(rt, alloc, recipe);
    }
    if recipe.rows <= 16 {
        return sized_time::<R, 16>(rt, alloc, recipe);
    }
    if recipe.rows <= 32 {
        return sized_time::<R, 32>(rt, alloc, recipe);
    }
    sized_time::<R, 64>(rt, alloc, recipe)
}

/// Times sweeps of a recipe's net for its last row, and prints nanoseconds a term and moment, the count of terms, and
/// the gain of input 0; or that a number reached its limit.
pub fn bench<R: Print + Clock>(rt: &R, alloc: Global, recipe: Recipe) -> io::Result<()>
    requires { RecipeFits recipe }
{
    match sweep_time(rt, alloc, recipe)? {
        Ok(time) => println!(rt; "{time}"),
        Err(_) => println!(rt; "sweep {recipe} range"),
    }
}
