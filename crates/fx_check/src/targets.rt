//! What is swept: each row, then a pair for each output.

ghost use Rattle.std.specs.Prelude.{◌≡◌, ◌+◌, ◌*◌, ◌<◌, ◌≤◌, length, take};
ghost use Rattle.fx_block.specs.Formats.{output_at, shift_of};
ghost use Rattle.fx_block.specs.Joint.{original_row};
ghost use Rattle.fx_block.specs.Passes.{pair_of, row_count};
ghost use Rattle.fx_check.specs.Targets.{length_at, lengths_of, target_at, target_count, targets_of};
ghost use Rattle.fx_eqs.specs.Expanded.{row_place};

use crate::form::{joint_rows, output, output_count, output_row};
use fx_cert::Cert;
use fx_code::Program;
use fx_eqs::{Eqs, LONGEST_LAG, PORTS, Source, systems_fit};
use fx_files::{Filter, filters_fit};
use fx_net::LARGEST_NET;
use fx_sweep::Target;

/// The most targets: a row each, and a pair for each output.
pub const MOST_TARGETS: usize = LARGEST_NET + PORTS;

/// How many targets there are.
pub fn target_count(f: &Filter, p: &Program) -> usize
    ensures value { result ≡ target_count f.now p.now }
    ensures rows { row_count f.now p.now ≤ result }
    ensures high { result ≤ MOST_TARGETS }
{
    joint_rows(f, p) + output_count(f)
}

// Where the first row of the equations stands, behind the rows that hold inputs.
fn first_row(eqs: &Eqs) -> usize
    ensures value { result ≡ row_place eqs.now 0 }
    ensures high { result ≤ LONGEST_LAG * PORTS }
{
    let mut next = 0;
    for j in 0..eqs.inputs() {
        next += eqs.greatest_lag(Source::In(j as u8));
    }
    next
}

// Where the row of the filter stands that is output `o`.
fn original(f: &Filter, p: &Program, o: usize) -> u8
    requires { o < length f.now.outputs }
    ensures { result ≡ original_row p.now f.now.equations (output_at f.now o).row }
{
    let eqs = f.eqs();
    filters_fit(f);
    systems_fit(eqs);
    let row = usize::from(output(f, o).row);
    (p.rows() + first_row(eqs) + row) as u8
}

// How many steps of output `o`, as a power of two, a step of the inputs has.
fn shift(f: &Filter, o: usize) -> i8
    requires { o < length f.now.outputs }
    ensures { result ≡ shift_of f.now o }
{
    f.input_low() - output(f, o).low
}

// The pair of an output: its row of the program and its row of the filter.
fn pair(f: &Filter, p: &Program, o: usize) -> Target
    requires outputs { length p.now.outputs ≡ length f.now.outputs }
    requires output { o < length f.now.outputs }
    ensures { result ≡ pair_of f.now p.now o }
{
    Target::Pair {
        code: output_row(p, o),
        original: original(f, p, o),
        shift: shift(f, o),
    }
}

// Target `t`.
#[tactic(auto, unfolding(crate::specs::Targets::target_at))]
fn target(f: &Filter, p: &Program, t: usize) -> Target
    requires outputs { length p.now.outputs ≡ length f.now.outputs }
    requires target { t < target_count f.now p.now }
    ensures { result ≡ target_at f.now p.now t }
{
    let rows = joint_rows(f, p);
    if t < rows {
        Target::Row(t as u8)
    } else {
        pair(f, p, t - rows)
    }
}

/// The targets, in the first places.
pub fn targets(f: &Filter, p: &Program) -> [Target; MOST_TARGETS]
    requires { length p.now.outputs ≡ length f.now.outputs }
    ensures { take (target_count f.now p.now) result ≡ targets_of f.now p.now }
{
    let mut targets = [Target::Row(0); MOST_TARGETS];
    for t in 0..target_count(f, p) {
        targets[t] = target(f, p, t);
    }
    targets
}

// For how many moments target `t` is swept.
#[tactic(auto, unfolding(crate::specs::Targets::length_at))]
fn length(f: &Filter, p: &Program, c: &Cert, t: usize) -> u16
    requires rows { length c.now.bounds ≡ row_count f.now p.now }
    requires errors { length c.now.errors ≡ length f.now.outputs }
    requires target { t < target_count f.now p.now }
    ensures { result ≡ length_at f.now p.now c.now t }
{
    let rows = joint_rows(f, p);
    if t < rows {
        c.row_length(t)
    } else {
        c.output_length(t - rows)
    }
}

/// The lengths of the targets, in the first places.
pub fn lengths(f: &Filter, p: &Program, c: &Cert) -> [u16; MOST_TARGETS]
    requires rows { length c.now.bounds ≡ row_count f.now p.now }
    requires errors { length c.now.errors ≡ length f.now.outputs }
    ensures { take (target_count f.now p.now) result ≡ lengths_of f.now p.now c.now }
{
    let mut lengths = [1; MOST_TARGETS];
    for t in 0..target_count(f, p) {
        lengths[t] = length(f, p, c, t);
    }
    lengths
}
