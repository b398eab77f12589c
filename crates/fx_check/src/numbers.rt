//! The numbers of filters, programs and certificates that inequalities compare.

ghost use Rattle.std.specs.Prelude.{◌≡◌, ◌+◌, ◌-◌, ◌^◌, ◌<◌, ◌≤◌, length, pos, ◌+ℤ◌, ◌*ℤ◌};
ghost use Rattle.fx_block.specs.Formats.{bound_of, input_at, output_at};
ghost use Rattle.fx_block.specs.Passes.{bound_at, error_at};
ghost use Rattle.fx_code.specs.Code.{row_at};
ghost use Rattle.fx_eqs.specs.declared.limits.TheConstants.{PORTS};
ghost use Rattle.fx_sweep.specs.Swept.{whole_in};
ghost use Rattle.fx_sweep.specs.Target.{one};
ghost use Rattle.fx_totals.specs.Kept.{AreBounds, IsUpTo, bound_in, greatest_bound};

use crate::form::{input, input_count, output};
use fx_cert::Cert;
use fx_code::Program;
use fx_eqs::PORTS;
use fx_files::Filter;
use fx_nums::SCALE_BITS;

// The bound of the words of input `j`.
fn input_bound(f: &Filter, j: usize) -> i64
    requires { j < length f.now.inputs }
    ensures value { result ≡ (input_at f.now j).bound }
    ensures fits { IsUpTo greatest_bound result }
{
    input(f, j).bound
}

/// The bounds of the words of the inputs, 0 past them.
pub fn input_bounds(f: &Filter) -> [i64; PORTS]
    ensures value { bound_in result ≡ bound_of f.now }
    ensures fits { AreBounds result }
{
    let mut bounds = [0; PORTS];
    for j in 0..input_count(f) {
        bounds[j] = input_bound(f, j);
    }
    bounds
}

// The bound of row `j`.
fn row_bound(c: &Cert, j: usize) -> i64
    requires { j < length c.now.bounds }
    ensures value { result ≡ whole_in c.now.bounds j }
    ensures fits { IsUpTo greatest_bound result }
{
    c.x()[j]
}

/// The bounds of the rows, 0 past them.
pub fn row_bounds<const N: usize>(c: &Cert) -> [i64; N]
    requires { length c.now.bounds ≤ N }
    ensures count { length result ≡ N }
    ensures value { bound_in result ≡ bound_at c.now }
    ensures fits { AreBounds result }
{
    let mut bounds = [0; N];
    for j in 0..c.x().len() {
        bounds[j] = row_bound(c, j);
    }
    bounds
}

/// The same for comparisons.
pub fn bound(c: &Cert, j: usize) -> i128
    requires { j < length c.now.bounds }
    ensures value { result ≡ pos (bound_at c.now j) }
    ensures fits { IsUpTo greatest_bound result }
{
    i128::from(row_bound(c, j))
}

/// The error of output `o`.
pub fn error(c: &Cert, o: usize) -> i128
    requires { o < length c.now.errors }
    ensures { result ≡ error_at c.now o }
{
    c.e()[o]
}

/// The error of output `o` that is wanted.
pub fn wanted(f: &Filter, o: usize) -> i128
    requires { o < length f.now.outputs }
    ensures { result ≡ (output_at f.now o).target }
{
    output(f, o).target
}

/// A bound at the scale of totals.
pub fn at_scale(bound: i128) -> i128
    requires { IsUpTo greatest_bound bound }
    ensures { result ≡ bound *ℤ one }
{
    bound << SCALE_BITS
}

/// The greatest word of row `i`.
pub fn greatest_word(p: &Program, i: usize) -> i128
    requires { i < length p.now.rows }
    ensures { result ≡ pos (2 ^ ((row_at p.now i).width - 1) - 1) }
{
    (1 << (p.width(i) - 1)) - 1
}

// The power of two by which row `i` shifts to the right.
fn divisor(p: &Program, i: usize) -> i64
    requires { i < length p.now.rows }
    ensures { result ≡ pos (2 ^ (row_at p.now i).own.shift) }
{
    1 << p.shift(i)
}

// The product of two numbers.
fn product(a: i64, b: i128) -> i128
    requires { IsUpTo (2 ^ 31) b }
    ensures { result ≡ a *ℤ b }
{
    i128::from(a) * b
}

/// A bound on the sums of row `i` whose words have this bound.
pub fn greatest_sum(p: &Program, i: usize, bound: i128) -> i128
    requires row { i < length p.now.rows }
    requires bound { IsUpTo greatest_bound bound }
    ensures { result ≡ pos (2 ^ (row_at p.now i).own.shift) *ℤ (bound +ℤ pos 1) }
{
    product(divisor(p, i), bound + 1)
}

/// What an accumulator takes.
pub fn room(p: &Program) -> i128
    ensures { result ≡ pos (2 ^ (p.now.accumulator - 1)) }
{
    1 << (p.accumulator() - 1)
}
