//! What is swept of a candidate: each row, then a pair for each output.

ghost use Rattle.std.specs.Prelude.{◌≡◌, ◌+◌, ◌*◌, ◌<◌, ◌≤◌, length, take};
ghost use Rattle.fx_block.specs.Candidate.{candidate_count, candidate_pair, inner_count};
ghost use Rattle.fx_block.specs.Formats.{output_at, shift_of};
ghost use Rattle.fx_eqs.specs.Expanded.{row_place};
ghost use Rattle.fx_files.specs.Fits.{OutputFits};
ghost use Rattle.fx_make.specs.Designs.{AreRowsOf};
ghost use Rattle.fx_make.specs.Targets.{target_at, target_count, targets_of};

use fx_eqs::{Eqs, LONGEST_LAG, PORTS, Source, systems_fit};
use fx_files::{Filter, OutputFormat, filters_fit};
use fx_net::LARGEST_NET;
use fx_quant::Design;
use fx_sweep::Target;

/// The most targets: a row each, and a pair for each output.
pub const MOST_TARGETS: usize = LARGEST_NET + PORTS;

/// How many outputs a filter has.
pub fn output_count(f: &Filter) -> usize
    ensures value { result ≡ length f.now.outputs }
    ensures few { result ≤ PORTS }
{
    f.outputs().len()
}

/// Output `o` of a filter.
pub fn output(f: &Filter, o: usize) -> OutputFormat
    requires { o < length f.now.outputs }
    ensures value { result ≡ output_at f.now o }
    ensures fits { OutputFits f.now.input_low f.now.settings.accumulator result }
{
    f.output(o)
}

/// How many rows a design and the expanded equations of a filter have together.
pub fn row_count(f: &Filter, d: &Design) -> usize
    requires { AreRowsOf f.now d.now }
    ensures value { result ≡ candidate_count f.now d.now.rows }
    ensures design { length d.now.rows ≤ result }
    ensures high { result ≤ LARGEST_NET }
{
    d.rows() + f.eqs().net_rows()
}

/// How many rows of a design are not put out.
pub fn inner_count(f: &Filter, d: &Design) -> usize
    requires { AreRowsOf f.now d.now }
    ensures value { result ≡ inner_count f.now d.now.rows }
    ensures all { result + length f.now.outputs ≡ length d.now.rows }
{
    d.rows() - output_count(f)
}

/// How many targets there are.
pub fn target_count(f: &Filter, d: &Design) -> usize
    requires { AreRowsOf f.now d.now }
    ensures value { result ≡ target_count f.now d.now.rows }
    ensures high { result ≤ MOST_TARGETS }
{
    row_count(f, d) + output_count(f)
}

// Where the first row of the equations stands, behind the rows that hold inputs.
fn first_row(eqs: &Eqs) -> usize
    ensures value { result ≡ row_place eqs.now 0 }
    ensures high { result ≤ LONGEST_LAG * PORTS }
{
    let mut next = 0;
    for j in 0..eqs.inputs() {
        next += eqs.greatest_lag(Source::In(j as u8));
    }
    next
}

// Where the row of the filter stands that is output `o`.
fn original(f: &Filter, d: &Design, o: usize) -> u8
    requires rows { AreRowsOf f.now d.now }
    requires output { o < length f.now.outputs }
    ensures { result ≡ length d.now.rows + row_place f.now.equations (output_at f.now o).row }
{
    let eqs = f.eqs();
    filters_fit(f);
    systems_fit(eqs);
    let row = usize::from(output(f, o).row);
    (d.rows() + first_row(eqs) + row) as u8
}

// How many steps of output `o`, as a power of two, a step of the inputs has.
fn shift(f: &Filter, o: usize) -> i8
    requires { o < length f.now.outputs }
    ensures { result ≡ shift_of f.now o }
{
    f.input_low() - output(f, o).low
}

// The pair of an output: its row of the design and its row of the filter.
fn pair(f: &Filter, d: &Design, o: usize) -> Target
    requires rows { AreRowsOf f.now d.now }
    requires output { o < length f.now.outputs }
    ensures { result ≡ candidate_pair f.now d.now.rows o }
{
    Target::Pair {
        code: (inner_count(f, d) + o) as u8,
        original: original(f, d, o),
        shift: shift(f, o),
    }
}

// Target `t`.
#[tactic(auto, unfolding(crate::specs::Targets::target_at))]
fn target(f: &Filter, d: &Design, t: usize) -> Target
    requires rows { AreRowsOf f.now d.now }
    requires target { t < target_count f.now d.now.rows }
    ensures { result ≡ target_at f.now d.now.rows t }
{
    let rows = row_count(f, d);
    if t < rows {
        Target::Row(t as u8)
    } else {
        pair(f, d, t - rows)
    }
}

/// The targets, in the first places.
pub fn targets(f: &Filter, d: &Design) -> [Target; MOST_TARGETS]
    requires { AreRowsOf f.now d.now }
    ensures { take (target_count f.now d.now.rows) result ≡ targets_of f.now d.now.rows }
{
    let mut targets = [Target::Row(0); MOST_TARGETS];
    for t in 0..target_count(f, d) {
        targets[t] = target(f, d, t);
    }
    targets
}
