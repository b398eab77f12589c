//! Whether bounds and errors are large enough, and words, accumulators and what is wanted larger still.

ghost use Rattle.std.specs.Prelude.{◌≡◌, ◌+◌, ◌-◌, ◌^◌, ◌<◌, ◌≤◌, length, pos, ◌+ℤ◌, ◌*ℤ◌};
ghost use Rattle.fx_block.specs.Failure.{
  above,
  bound_failure,
  error_failure,
  sum_failure,
  wanted_failure,
  word_failure,
};
ghost use Rattle.fx_block.specs.Formats.{output_at};
ghost use Rattle.fx_block.specs.Passes.{bound_at, error_at, pair_total, row_count, row_total};
ghost use Rattle.fx_block.specs.declared.inequality.Inequality.TheVariants.{
  Bound as BoundOf,
  Error as ErrorOf,
  Sum as SumOf,
  Wanted as WantedOf,
  Word as WordOf,
};
ghost use Rattle.fx_check.specs.Targets.{HasTotals};
ghost use Rattle.fx_check.specs.Verdict.{told_by};
ghost use Rattle.fx_code.specs.Code.{row_at};
ghost use Rattle.fx_sweep.specs.Target.{one};

use crate::form::{joint_rows, output_count};
use crate::numbers::{at_scale, bound, error, greatest_sum, greatest_word, room, wanted};
use crate::refusal::{Refusal, at_most};
use crate::targets::MOST_TARGETS;
use fx_block::Inequality;
use fx_cert::Cert;
use fx_code::Program;
use fx_eqs::PORTS;
use fx_files::Filter;
use fx_net::LARGEST_NET;

// The bound of a row.
fn test_bound(
    f: &Filter,
    p: &Program,
    c: &Cert,
    totals: &[i128; MOST_TARGETS],
    j: usize,
) -> Result<(), Refusal>
    requires rows { length c.now.bounds ≡ row_count f.now p.now }
    requires totals { HasTotals f.now p.now c.now totals.now }
    requires row { j < row_count f.now p.now }
    requires few { j < LARGEST_NET }
    ensures { told_by result ≡ above (BoundOf j) (row_total f.now p.now c.now j) (pos (bound_at c.now j) *ℤ one) }
{
    at_most(Inequality::Bound(j as u8), totals[j], at_scale(bound(c, j)))
}

/// The bounds of all rows.
pub fn test_bounds(
    f: &Filter,
    p: &Program,
    c: &Cert,
    totals: &[i128; MOST_TARGETS],
) -> Result<(), Refusal>
    requires rows { length c.now.bounds ≡ row_count f.now p.now }
    requires totals { HasTotals f.now p.now c.now totals.now }
    ensures { told_by result ≡ bound_failure f.now p.now c.now }
{
    for j in 0..joint_rows(f, p) {
        test_bound(f, p, c, totals, j)?;
    }
    Ok(())
}

// The word of a row of the program.
fn test_word(p: &Program, c: &Cert, i: usize) -> Result<(), Refusal>
    requires row { i < length p.now.rows }
    requires bound { i < length c.now.bounds }
    requires few { i < LARGEST_NET }
    ensures { told_by result
        ≡ above (WordOf i) (pos (bound_at c.now i)) (pos (2 ^ ((row_at p.now i).width - 1) - 1)) }
{
    at_most(Inequality::Word(i as u8), bound(c, i), greatest_word(p, i))
}

/// The words of all rows of the program.
pub fn test_words(p: &Program, c: &Cert) -> Result<(), Refusal>
    requires { length p.now.rows ≤ length c.now.bounds }
    ensures { told_by result ≡ word_failure p.now c.now }
{
    for i in 0..p.rows() {
        test_word(p, c, i)?;
    }
    Ok(())
}

// The sums of a row of the program.
fn test_sum(p: &Program, c: &Cert, i: usize) -> Result<(), Refusal>
    requires row { i < length p.now.rows }
    requires bound { i < length c.now.bounds }
    requires few { i < LARGEST_NET }
    ensures { told_by result
        ≡ above (SumOf i) (pos (2 ^ (row_at p.now i).own.shift) *ℤ (pos (bound_at c.now i) +ℤ pos 1))
        (pos (2 ^ (p.now.accumulator - 1))) }
{
    at_most(
        Inequality::Sum(i as u8),
        greatest_sum(p, i, bound(c, i)),
        room(p),
    )
}

/// The sums of all rows of the program.
pub fn test_sums(p: &Program, c: &Cert) -> Result<(), Refusal>
    requires { length p.now.rows ≤ length c.now.bounds }
    ensures { told_by result ≡ sum_failure p.now c.now }
{
    for i in 0..p.rows() {
        test_sum(p, c, i)?;
    }
    Ok(())
}

// The error of an output.
fn test_error(
    f: &Filter,
    p: &Program,
    c: &Cert,
    totals: &[i128; MOST_TARGETS],
    o: usize,
) -> Result<(), Refusal>
    requires errors { length c.now.errors ≡ length f.now.outputs }
    requires totals { HasTotals f.now p.now c.now totals.now }
    requires output { o < length f.now.outputs }
    requires few { o < PORTS }
    ensures { told_by result ≡ above (ErrorOf o) (pair_total f.now p.now c.now o) (error_at c.now o) }
{
    at_most(
        Inequality::Error(o as u8),
        totals[joint_rows(f, p) + o],
        error(c, o),
    )
}

/// The errors of all outputs.
pub fn test_errors(
    f: &Filter,
    p: &Program,
    c: &Cert,
    totals: &[i128; MOST_TARGETS],
) -> Result<(), Refusal>
    requires errors { length c.now.errors ≡ length f.now.outputs }
    requires totals { HasTotals f.now p.now c.now totals.now }
    ensures { told_by result ≡ error_failure f.now p.now c.now }
{
    for o in 0..output_count(f) {
        test_error(f, p, c, totals, o)?;
    }
    Ok(())
}

// The error of an output, against the one that is wanted.
fn test_wanted_error(f: &Filter, c: &Cert, o: usize) -> Result<(), Refusal>
    requires errors { length c.now.errors ≡ length f.now.outputs }
    requires output { o < length f.now.outputs }
    requires few { o < PORTS }
    ensures { told_by result ≡ above (WantedOf o) (error_at c.now o) (output_at f.now o).target }
{
    at_most(Inequality::Wanted(o as u8), error(c, o), wanted(f, o))
}

/// The errors of all outputs, against those that are wanted.
pub fn test_wanted_errors(f: &Filter, c: &Cert) -> Result<(), Refusal>
    requires { length c.now.errors ≡ length f.now.outputs }
    ensures { told_by result ≡ wanted_failure f.now c.now }
{
    for o in 0..output_count(f) {
        test_wanted_error(f, c, o)?;
    }
    Ok(())
}
