//! The search for the first candidate that passes.

ghost use Rattle.std.specs.Prelude.{◌≡◌, ◌+◌, ◌<◌, ◌≤◌, ◌++◌, length, slice_index, IfOk, OnOk, Ok, Some};
ghost use Rattle.fx_math.specs.Sums.{joined};
ghost use Rattle.fx_eqs.specs.Expanded.{expanded};
ghost use Rattle.fx_sif.specs.Implicit.{rows};
ghost use Rattle.fx_code.specs.Code.{IsWhole};
ghost use Rattle.fx_quant.specs.Quantised.{FractionFits, IsGuard};
ghost use Rattle.fx_sweep.specs.Swept.{whole_in};
ghost use Rattle.fx_totals.specs.Filled.{length_in};
ghost use Rattle.fx_totals.specs.Kept.{AreBounds, bound_in};
ghost use Rattle.fx_block.specs.Candidate.{candidate_count};
ghost use Rattle.fx_block.specs.Passes.{Passes};
ghost use Rattle.fx_make.specs.Candidates.{candidate_at, of_fraction, of_guard, quantised_rows, tried};
ghost use Rattle.fx_make.specs.Designs.{AreRowsOf};
ghost use Rattle.fx_make.specs.Lengths.{HasPassing, fail_in};
ghost use Rattle.fx_make.specs.Made.{Finds, IsMadeOf, Makes, TellsSearch};
ghost use Rattle.fx_make.specs.Search.{failed_of, search, searched};
ghost use Rattle.fx_make.specs.Search.Progress.{AllFailed};
ghost use Rattle.fx_make.specs.Structures.{HasFewEntries, HasPorts};

use crate::answer::{Fails, Made, MakeFault};
use crate::fail::{Fail, Failed};
use crate::joint::put_joint;
use crate::made::{made_certificate, made_program};
use crate::quantising::quantised_design;
use crate::refusal::StructureFault;
use crate::structure::build_structure;
use crate::trying::try_lengths;
use fx_block::passing_candidates_pass;
use fx_code::programs_fit;
use fx_eqs::PORTS;
use fx_files::{Filter, filters_fit};
use fx_net::{LARGEST_NET, Net};
use fx_quant::{Design, QuantFault};
use fx_sif::Sif;
use fx_sweep::{GREATEST_LENGTH, Sweep};
use fx_totals::{MOST_LENGTHS, Series};
use std::alloc::{AllocError, Global};

// What it takes to try candidates of at most N rows with the filter's. N is 1 to `LARGEST_NET`.
#[derive(Drop)]
struct Bench<const N: usize> {
    net: Net<N>,
    series: Series<N>,
    sweep: Sweep<N>,
}

impl<const N: usize> Bench<N> {
    // Its error is want of memory.
    fn new(alloc: Global) -> Result<Bench<N>, AllocError>
        requires low { 1 ≤ N }
        requires high { N ≤ LARGEST_NET }
    {
        Ok(Bench {
            net: Net::new(alloc)?,
            series: Series::new(alloc)?,
            sweep: Sweep::new(alloc)?,
        })
    }
}

// The guard bits and the bits of a coefficient's fraction.
#[derive(Clone, Copy)]
struct Grid {
    guard: u8,
    fraction: u8,
}

// Adds the failure of the length at a place, if it failed.
fn add_one(
    fails: &mut Vec<Failed>,
    f: &Filter,
    grid: Grid,
    l: usize,
    why: Option<Fail>,
) -> Result<(), AllocError>
    requires { l < length f.now.settings.lengths }
    ensures { OnOk result (fails.new.items ≡ fails.old.items
        ++ failed_of (candidate_at grid.guard grid.fraction (length_in f.now.settings.lengths l)) why) }
{
    if let Some(why) = why {
        fails.push(Failed {
            guard: grid.guard,
            fraction: grid.fraction,
            length: f.lengths()[l],
            why,
        })?;
    }
    Ok(())
}

// Adds the same failure for each length.
fn add_all(fails: &mut Vec<Failed>, f: &Filter, grid: Grid, why: Fail) -> Result<(), AllocError>
    ensures { OnOk result (fails.new.items ≡ fails.old.items ++ joined (length f.now.settings.lengths) (λ l.
        failed_of (candidate_at grid.guard grid.fraction (length_in f.now.settings.lengths l)) (Some why))) }
{
    for l in 0..f.lengths().len() {
        add_one(fails, f, grid, l, Some(why))?;
    }
    Ok(())
}

// Adds the failures of the lengths that failed, in their order.
fn add_each(
    fails: &mut Vec<Failed>,
    f: &Filter,
    grid: Grid,
    told: &[Option<Fail>],
) -> Result<(), AllocError>
    requires { length f.now.settings.lengths ≤ length told.now }
    ensures { OnOk result (fails.new.items ≡ fails.old.items ++ joined (length f.now.settings.lengths) (λ l.
        failed_of (candidate_at grid.guard grid.fraction (length_in f.now.settings.lengths l))
        (fail_in told.now l))) }
{
    for l in 0..f.lengths().len() {
        add_one(fails, f, grid, l, told[l])?;
    }
    Ok(())
}

// The rows of a form on a grid, or why there are none.
fn design_or_fail(
    alloc: Global,
    f: &Filter,
    form: &Sif,
    grid: Grid,
) -> Result<Result<Design, Fail>, AllocError>
    requires ports { HasPorts f.now form.now }
    requires few { HasFewEntries form.now }
    requires guard { IsGuard grid.guard }
    requires fraction { FractionFits grid.fraction }
    ensures value { IfOk result (λ d. d ≡ quantised_rows f.now form.now grid.guard grid.fraction) }
    ensures rows { IfOk result (λ d. IfOk d (AreRowsOf f.now)) }
    ensures count { IfOk result (λ d. IfOk d (λ d. length d.rows ≡ rows form.now.sizes)) }
{
    match quantised_design(alloc, f, form, grid.guard, grid.fraction) {
        Ok(design) => Ok(Ok(design)),
        Err(QuantFault::ShiftRange(row)) => Ok(Err(Fail::Shift(row))),
        Err(QuantFault::Wide { row, term, value }) => Ok(Err(Fail::Wide(row, term, value))),
        Err(QuantFault::NoMemory) => Err(AllocError),
    }
}

// The moments of a sweep at a place.
fn length_at(f: &Filter, l: usize) -> u16
    requires { l < length f.now.settings.lengths }
    ensures value { result ≡ length_in f.now.settings.lengths l }
    ensures low { 1 ≤ result }
    ensures high { result ≤ GREATEST_LENGTH }
{
    f.lengths()[l]
}

// The program and the certificate of rows that pass.
fn assemble(
    alloc: Global,
    f: &Filter,
    d: &Design,
    grid: Grid,
    moments: u16,
    x: &[i64],
    e: &[i128],
) -> Result<Made, AllocError>
    requires rows { AreRowsOf f.now d.now }
    requires low { 1 ≤ moments }
    requires high { moments ≤ GREATEST_LENGTH }
    requires room { candidate_count f.now d.now.rows ≤ length x.now }
    requires bounds { AreBounds x.now }
    requires errors { length e.now ≡ length f.now.outputs }
    requires passing { HasPassing f.now d.now.rows moments (bound_in x.now) (whole_in e.now) }
    ensures { IfOk result (IsMadeOf f.now (candidate_at grid.guard grid.fraction moments)
        (record { design = d.now; bounds = bound_in x.now })) }
{
    passing_candidates_pass();
    let program = made_program(alloc, f, d, x)?;
    programs_fit(&program);
    let cert = made_certificate(alloc, f, d, moments, x, e)?;
    Ok(Made {
        program,
        cert,
        guard: grid.guard,
        fraction: grid.fraction,
        length: moments,
    })
}

// Tries the rows of a design for all lengths.
fn try_design<const N: usize>(
    alloc: Global,
    f: &Filter,
    form: &Sif,
    d: &Design,
    grid: Grid,
    bench: &mut Bench<N>,
    fails: &mut Vec<Failed>,
) -> Result<Option<Made>, AllocError>
    requires rows { AreRowsOf f.now d.now }
    requires room { candidate_count f.now d.now.rows ≤ N }
    requires high { N ≤ LARGEST_NET }
    requires quantised { quantised_rows f.now form.now grid.guard grid.fraction ≡ Ok d.now }
    ensures { IfOk result (λ made. TellsSearch f.now (searched (tried f.now form.now) (AllFailed fails.old.items)
        (of_fraction f.now.settings.lengths grid.guard grid.fraction)) made fails.new.items) }
{
    filters_fit(f);
    put_joint(&mut bench.net, f, d);
    let mut x = [0; N];
    let mut scratch = [0; N];
    let mut totals = [0; PORTS];
    let e = &mut totals[..f.outputs().len()];
    let mut told = [None; MOST_LENGTHS];
    let first = try_lengths(
        f,
        d,
        &bench.net,
        &mut bench.series,
        &mut bench.sweep,
        &mut x,
        &mut scratch,
        e,
        &mut told,
    );
    add_each(fails, f, grid, &told)?;
    match first {
        None => Ok(None),
        Some(l) => {
            let moments = length_at(f, usize::from(l));
            Ok(Some(assemble(alloc, f, d, grid, moments, &x, e)?))
        }
    }
}

// Tries a grid with all lengths.
fn try_fraction<const N: usize>(
    alloc: Global,
    f: &Filter,
    form: &Sif,
    grid: Grid,
    bench: &mut Bench<N>,
    fails: &mut Vec<Failed>,
) -> Result<Option<Made>, AllocError>
    requires ports { HasPorts f.now form.now }
    requires few { HasFewEntries form.now }
    requires guard { IsGuard grid.guard }
    requires fraction { FractionFits grid.fraction }
    requires room { rows form.now.sizes + length (expanded f.now.equations) ≤ N }
    requires high { N ≤ LARGEST_NET }
    ensures { IfOk result (λ made. TellsSearch f.now (searched (tried f.now form.now) (AllFailed fails.old.items)
        (of_fraction f.now.settings.lengths grid.guard grid.fraction)) made fails.new.items) }
{
    match design_or_fail(alloc, f, form, grid)? {
        Ok(design) => try_design(alloc, f, form, &design, grid, bench, fails),
        Err(why) => {
            add_all(fails, f, grid, why)?;
            Ok(None)
        }
    }
}

// The guard bits at a place.
fn guard_at(f: &Filter, i: usize) -> u8
    requires { i < length f.now.settings.guards }
    ensures value { result ≡ slice_index f.now.settings.guards i }
    ensures fits { IsGuard result }
{
    f.guards()[i]
}

// The bits of a coefficient's fraction at a place.
fn fraction_at(f: &Filter, i: usize) -> u8
    requires { i < length f.now.settings.fractions }
    ensures value { result ≡ slice_index f.now.settings.fractions i }
    ensures fits { FractionFits result }
{
    f.fractions()[i]
}

// Tries a count of guard bits with all fractions and lengths.
fn try_guard<const N: usize>(
    alloc: Global,
    f: &Filter,
    form: &Sif,
    guard: u8,
    bench: &mut Bench<N>,
    fails: &mut Vec<Failed>,
) -> Result<Option<Made>, AllocError>
    requires ports { HasPorts f.now form.now }
    requires few { HasFewEntries form.now }
    requires guard { IsGuard guard }
    requires room { rows form.now.sizes + length (expanded f.now.equations) ≤ N }
    requires high { N ≤ LARGEST_NET }
    ensures { IfOk result (λ made. TellsSearch f.now (searched (tried f.now form.now) (AllFailed fails.old.items)
        (of_guard f.now.settings.fractions f.now.settings.lengths guard)) made fails.new.items) }
{
    for i in 0..f.fractions().len() {
        let fraction = fraction_at(f, i);
        let grid = Grid { guard, fraction };
        if let Some(made) = try_fraction(alloc, f, form, grid, bench, fails)? {
            return Ok(Some(made));
        }
    }
    Ok(None)
}

// Tries all candidates, with at most N rows together with the filter's.
fn search_within<const N: usize>(alloc: Global, f: &Filter, form: &Sif) -> Result<Made, MakeFault>
    requires low { 1 ≤ N }
    requires high { N ≤ LARGEST_NET }
    requires ports { HasPorts f.now form.now }
    requires few { HasFewEntries form.now }
    requires room { rows form.now.sizes + length (expanded f.now.equations) ≤ N }
    ensures { Finds f.now (search f.now form.now) result }
{
    let mut bench: Bench<N> = Bench::new(alloc)?;
    let mut fails = Vec::new(alloc);
    for i in 0..f.guards().len() {
        let guard = guard_at(f, i);
        if let Some(made) = try_guard(alloc, f, form, guard, &mut bench, &mut fails)? {
            return Ok(made);
        }
    }
    Err(MakeFault::NoDesign(Fails { list: fails }))
}

// Tries all candidates.
fn search_all(alloc: Global, f: &Filter, form: &Sif) -> Result<Made, MakeFault>
    requires ports { HasPorts f.now form.now }
    requires few { HasFewEntries form.now }
    ensures { Finds f.now (search f.now form.now) result }
{
    match form.rows() + f.eqs().net_rows() {
        0..=8 => search_within::<8>(alloc, f, form),
        9..=16 => search_within::<16>(alloc, f, form),
        17..=32 => search_within::<32>(alloc, f, form),
        _ => search_within::<64>(alloc, f, form),
    }
}

/// The program and the certificate of the first candidate for a filter that passes. Candidates are tried with the guard
/// bits outermost, then the bits of a coefficient's fraction, then the moments of a sweep, each list of the filter in
/// its own order. The program's inner words have the least widths that take their bounds, which are the least that
/// serve; the certificate's errors are the totals of the outputs' pairs. All inequalities hold of filter, program and
/// certificate.
///
/// Its error is `Unbuildable` where `build_structure` refuses the filter; else `NoDesign` where each candidate fails,
/// with the failures in their order. `NoMemory` may come at any time.
pub fn make(alloc: Global, f: &Filter) -> Result<Made, MakeFault>
    ensures value { Makes f.now result }
    ensures whole { IfOk result (λ m. IsWhole m.program) }
    ensures passes { IfOk result (λ m. Passes f.now m.program m.cert) }
{
    let form = match build_structure(alloc, f) {
        Ok(form) => form,
        Err(StructureFault::NoMemory) => return Err(MakeFault::NoMemory),
        Err(why) => return Err(MakeFault::Unbuildable(why)),
    };
    search_all(alloc, f, &form)
}
