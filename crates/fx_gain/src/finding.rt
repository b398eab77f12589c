ghost use Rattle.std.specs.Prelude.{◌≡◌, ◌≢◌, ◌<◌, ◌≤◌, ◌++◌, ◌∷◌, [], ℕ, IfOk, IfErr, OnOk, Some, None, length, map};
ghost use Rattle.fx_math.specs.Sums.{joined};
ghost use Rattle.fx_mat.specs.Intervals.{interval_at};
ghost use Rattle.fx_net.specs.Tables.{net_of};
ghost use Rattle.fx_gain.specs.Enclosing.{enclosure, worst_words};
ghost use Rattle.fx_gain.specs.Lengths.{first_serving, original_count, original_net};
ghost use Rattle.fx_gain.specs.Peaks.{ArePeaks, EachFails, EnclosePeaks, FailsSo, FindsLength};

use crate::block::Block;
use crate::bounds::RowBounds;
use crate::fails::{LengthFails, PeakFault};
use crate::laws::enclosures_hold;
use crate::lengths::length_failure;
use crate::peaks::Peaks;
use fx_eqs::{NET_ROWS, PORTS, systems_fit};
use fx_files::{Filter, filters_fit};
use fx_mat::IvMat;
use fx_net::{Net, nets_fit, other_rows_stay};
use fx_sweep::Sweep;
use fx_totals::Totals;
use std::alloc::{AllocError, Global};

// The net of the filter's own equations.
fn original_net<const N: usize>(alloc: Global, f: &Filter) -> Result<Net<N>, AllocError>
    requires { N ≡ NET_ROWS }
    ensures { IfOk result (λ net. net_of net ≡ original_net f.now) }
{
    other_rows_stay();
    systems_fit(f.eqs());
    let mut net: Net<N> = Net::new(alloc)?;
    net.put_eqs(f.eqs(), 0);
    Ok(net)
}

// The first listed length that serves, over which the totals are then filled; or how each of them fails.
fn first_serving<const N: usize>(
    alloc: Global,
    f: &Filter,
    net: &Net<N>,
    sweep: &mut Sweep<N>,
    totals: &mut Totals<N>,
    rows: &mut RowBounds<N>,
) -> Result<Result<u16, LengthFails>, AllocError>
    requires inside { original_count f.now ≤ N }
    ensures { IfOk result (FindsLength (net_of net.now) f.now totals.new) }
{
    nets_fit(net);
    let mut fails = Vec::new(alloc);
    for moments in f.lengths() {
        match length_failure(alloc, f, net, sweep, totals, rows, *moments)? {
            None => return Ok(Ok(*moments)),
            Some(fail) => fails.push(fail)?,
        }
    }
    Ok(Err(LengthFails { items: fails }))
}

// Adds the intervals and the words of output `o`.
fn add_output<const N: usize>(
    alloc: Global,
    block: &Block<N>,
    sweep: &mut Sweep<N>,
    rows: &mut RowBounds<N>,
    o: usize,
    intervals: &mut IvMat<PORTS, PORTS>,
    words: &mut Vec<Vec<i64>>,
) -> Result<(), AllocError>
    requires output { o < length block.now.filter.now.outputs }
    requires few { o < PORTS }
    requires original { net_of block.now.net.now ≡ original_net block.now.filter.now }
    ensures here { OnOk result ((j : ℕ) → j < length block.now.filter.now.inputs → interval_at intervals.new o j
        ≡ enclosure (net_of block.now.net.now) block.now.filter.now block.now.moments o j) }
    ensures others { OnOk result ((p j : ℕ) → p ≢ o → interval_at intervals.new p j ≡ interval_at intervals.old p j) }
    ensures words { OnOk result (map (λ w. w.items) words.new.items
        ≡ map (λ w. w.items) words.old.items ++ joined (length block.now.filter.now.inputs) (λ j.
        worst_words (net_of block.now.net.now) block.now.filter.now block.now.moments o j ∷ [])) }
{
    let weights = block.weights(alloc, sweep, o)?;
    for j in 0..block.filter.inputs().len() {
        intervals.set(o, j, block.enclosure(rows, &weights, o, j));
        words.push(block.worst_words(alloc, &weights, o, j)?)?;
    }
    Ok(())
}

// The peaks over a block.
fn peaks_over<const N: usize>(
    alloc: Global,
    block: &Block<N>,
    sweep: &mut Sweep<N>,
    rows: &mut RowBounds<N>,
) -> Result<Peaks, AllocError>
    requires original { net_of block.now.net.now ≡ original_net block.now.filter.now }
    requires serves { first_serving (net_of block.now.net.now) block.now.filter.now
        block.now.filter.now.settings.lengths ≡ Some block.now.moments }
    ensures { IfOk result (ArePeaks (net_of block.now.net.now) block.now.filter.now) }
{
    let mut intervals = IvMat::new(alloc)?;
    let mut words = Vec::new(alloc);
    let outputs = block.filter.outputs().len();
    for o in 0..outputs {
        add_output(alloc, block, sweep, rows, o, &mut intervals, &mut words)?;
    }
    Ok(Peaks {
        moments: block.moments,
        outputs,
        inputs: block.filter.inputs().len(),
        intervals,
        words,
    })
}

// The peaks over the first listed length that serves, or how each of them fails.
fn peaks_or_fails<const N: usize>(
    alloc: Global,
    f: &Filter,
) -> Result<Result<Peaks, LengthFails>, AllocError>
    requires { N ≡ NET_ROWS }
    ensures peaks { IfOk result (λ r. IfOk r (ArePeaks (original_net f.now) f.now)) }
    ensures fails { IfOk result (λ r. IfErr r (EachFails (original_net f.now) f.now)) }
{
    systems_fit(f.eqs());
    let net: Net<N> = original_net(alloc, f)?;
    let mut sweep = Sweep::new(alloc)?;
    let mut totals = Totals::new(alloc)?;
    let mut rows = RowBounds::new(alloc)?;
    match first_serving(alloc, f, &net, &mut sweep, &mut totals, &mut rows)? {
        Ok(moments) => {
            let block = Block {
                filter: f,
                net: &net,
                totals: &totals,
                moments,
            };
            Ok(Ok(peaks_over(alloc, &block, &mut sweep, &mut rows)?))
        }
        Err(fails) => Ok(Err(fails)),
    }
}

/// How far each output of a filter goes on words of each input alone, in input steps: each enclosed, with words that
/// reach the low end. The block is the first listed length that serves: no row of the filter's own net meets a range
/// within it, and for words of each input alone the bounds of the rows come to rest.
///
/// Its error is `NoLength` with the failure of each listed length, or want of memory.
pub fn peak(alloc: Global, f: &Filter) -> Result<Peaks, PeakFault>
    ensures peaks { IfOk result (ArePeaks (original_net f.now) f.now) }
    ensures encloses { IfOk result (EnclosePeaks f.now) }
    ensures fails { IfErr result (FailsSo (original_net f.now) f.now) }
{
    filters_fit(f);
    enclosures_hold(f);
    match peaks_or_fails::<NET_ROWS>(alloc, f) {
        Ok(Ok(peaks)) => Ok(peaks),
        Ok(Err(fails)) => Err(PeakFault::NoLength(fails)),
        Err(_) => Err(PeakFault::NoMemory),
    }
}
