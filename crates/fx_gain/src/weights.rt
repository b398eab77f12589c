//! The weights of the inputs for an output, moment by moment, and what is made of them.

ghost use Rattle.std.specs.Prelude.{◌≡◌, ℕ, ◌+◌, ◌-◌, ◌*◌, ◌^◌, ◌<◌, ◌≤◌, IfOk, None, [], ◌∷◌, length};
ghost use Rattle.fx_eqs.specs.declared.limits.TheConstants.{PORTS};
ghost use Rattle.fx_math.specs.Sums.{joined, sum_below, total};
ghost use Rattle.fx_net.specs.Tables.{net_of};
ghost use Rattle.fx_nums.specs.Interval.{magnitude};
ghost use Rattle.fx_nums.specs.declared.limits.TheConstants.{OPERAND_BITS};
ghost use Rattle.fx_sweep.specs.Range.{first_range_in};
ghost use Rattle.fx_sweep.specs.Swept.{input_at, input_gain_at, interval_in};
ghost use Rattle.fx_sweep.specs.Target.{start_of};
ghost use Rattle.fx_sweep.specs.declared.limits.TheConstants.{GREATEST_LENGTH};
ghost use Rattle.fx_sweep.specs.declared.target.Target.TheVariants.{Row};
ghost use Rattle.fx_totals.specs.Kept.{IsUpTo, greatest_bound};
ghost use Rattle.fx_gain.specs.Enclosing.{least_magnitude, worst_word};
ghost use Rattle.fx_gain.specs.Weights.{AreWeights};

use crate::ends::sum;
use fx_eqs::PORTS;
use fx_net::{LARGEST_NET, Net};
use fx_nums::Iv;
use fx_sweep::{Sweep, Target};
use std::alloc::{AllocError, Global};

// Copies the intervals of the inputs in the last moment of a sweep from a place on.
fn copy_inputs<const N: usize>(sweep: &Sweep<N>, at: &mut [Iv], place: usize)
    requires { place + PORTS ≤ length at.old }
    ensures count { length at.new ≡ length at.old }
    ensures here { (j : ℕ) → j < PORTS → interval_in at.new (place + j) ≡ input_at sweep.now j }
    ensures before { (k : ℕ) → k < place → interval_in at.new k ≡ interval_in at.old k }
{
    for j in 0..PORTS {
        at[place + j] = sweep.input_now(j);
    }
}

// A law that only reads: the gains of the inputs are below the limit.
fn gains_fit<const N: usize>(sweep: &Sweep<N>)
    ensures { (j : ℕ) → j < PORTS → input_gain_at sweep.now j < 2 ^ OPERAND_BITS }
{
    for j in 0..PORTS {
        let _ = sweep.input_gain(j);
    }
}

// The weights of the inputs for a row that meets no range within a length: those of the row's own moment first, then
// those of the moment before, and so on, `PORTS` of them for each moment.
pub fn weights_for<const N: usize>(
    alloc: Global,
    net: &Net<N>,
    sweep: &mut Sweep<N>,
    row: usize,
    moments: u16,
) -> Result<Vec<Iv>, AllocError>
    requires row { row < N }
    requires rows { N ≤ LARGEST_NET }
    requires short { moments ≤ GREATEST_LENGTH }
    requires within { first_range_in (net_of net.now) (start_of (Row row)) moments ≡ None }
    ensures { IfOk result (λ ws. AreWeights (net_of net.now) (start_of (Row row)) moments ws.items) }
{
    let mut weights = vec![in alloc; Iv::point(0); usize::from(moments) * PORTS]?;
    sweep.start(Target::Row(row as u8));
    for n in 0..usize::from(moments) {
        match sweep.moment(net) {
            Ok(()) => copy_inputs(sweep, &mut weights, n * PORTS),
            Err(_) => unreachable!(),
        }
    }
    gains_fit(sweep);
    Ok(weights)
}

// The weight of input `j`, `n` moments before the last.
fn weight_at(weights: &[Iv], n: usize, j: usize) -> Iv
    requires input { j < PORTS }
    requires moment { (n + 1) * PORTS ≤ length weights.now }
    requires few { n < GREATEST_LENGTH }
    ensures { result ≡ interval_in weights.now (n * PORTS + j) }
{
    weights[n * PORTS + j]
}

// The least magnitude in an interval.
fn least_magnitude(v: Iv) -> i128
    ensures value { result ≡ least_magnitude v }
    ensures fits { IsUpTo (magnitude v) result }
{
    v.low_magnitude()
}

// The least magnitudes of the weights of input `j`, added up.
pub fn least_sum(weights: &[Iv], j: usize, moments: u16) -> i128
    requires input { j < PORTS }
    requires short { moments ≤ GREATEST_LENGTH }
    requires long { length weights.now ≡ moments * PORTS }
    requires small { sum_below moments (λ n. magnitude (interval_in weights.now (n * PORTS + j))) < 2 ^ OPERAND_BITS }
    ensures value { result ≡ total moments (λ n. least_magnitude (interval_in weights.now (n * PORTS + j))) }
    ensures fits { IsUpTo (sum_below moments (λ n. magnitude (interval_in weights.now (n * PORTS + j)))) result }
{
    let mut total = 0;
    for n in 0..usize::from(moments) {
        total = sum(total, least_magnitude(weight_at(weights, n, j)));
    }
    total
}

// The bound with the sign of a weight, 0 where that is not known.
fn worst_word(bound: i64, v: Iv) -> i64
    requires { IsUpTo greatest_bound bound }
    ensures { result ≡ worst_word bound v }
{
    if v.lo() > 0 {
        bound
    } else if v.hi() < 0 {
        -bound
    } else {
        0
    }
}

// The words of input `j` that have the signs of its weights, in the order of time.
pub fn worst_words(
    alloc: Global,
    weights: &[Iv],
    j: usize,
    bound: i64,
    moments: u16,
) -> Result<Vec<i64>, AllocError>
    requires input { j < PORTS }
    requires short { moments ≤ GREATEST_LENGTH }
    requires long { length weights.now ≡ moments * PORTS }
    requires bound { IsUpTo greatest_bound bound }
    ensures { IfOk result (λ ws. ws.items ≡ joined moments (λ k.
        worst_word bound (interval_in weights.now ((moments - (k + 1)) * PORTS + j)) ∷ [])) }
{
    let mut words = Vec::new(alloc);
    for k in 0..usize::from(moments) {
        let n = usize::from(moments) - (k + 1);
        words.push(worst_word(bound, weight_at(weights, n, j)))?;
    }
    Ok(words)
}
