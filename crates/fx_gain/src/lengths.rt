//! Whether a length serves.

ghost use Rattle.std.specs.Prelude.{◌≡◌, ◌<◌, ◌≤◌, IfOk, None, length, replicate};
ghost use Rattle.fx_net.specs.Tables.{net_of};
ghost use Rattle.fx_sweep.specs.declared.limits.TheConstants.{GREATEST_LENGTH};
ghost use Rattle.fx_totals.specs.Filled.{Filled};
ghost use Rattle.fx_gain.specs.Lengths.{bounds_failure, length_failure, original_count};
ghost use Rattle.fx_gain.specs.Rows.{row_targets};

use crate::bounds::RowBounds;
use crate::fails::LengthFail;
use fx_block::{Least, LengthWhy};
use fx_files::Filter;
use fx_net::{LARGEST_NET, Net};
use fx_sweep::{Sweep, Target};
use fx_totals::Totals;
use std::alloc::{AllocError, Global};

// The first rows as targets.
fn row_targets(alloc: Global, rows: usize) -> Result<Vec<Target>, AllocError>
    requires { rows ≤ LARGEST_NET }
    ensures { IfOk result (λ ts. ts.items ≡ row_targets rows) }
{
    let mut targets = Vec::new(alloc);
    for i in 0..rows {
        targets.push(Target::Row(i as u8))?;
    }
    Ok(targets)
}

// The same length for each of so many rows.
fn same_lengths(alloc: Global, moments: u16, rows: usize) -> Result<Vec<u16>, AllocError>
    ensures { IfOk result (λ ls. ls.items ≡ replicate rows moments) }
{
    vec![in alloc; moments; rows]
}

// The first input for whose words alone the bounds of the rows do not come to rest.
fn bounds_failure<const N: usize>(
    f: &Filter,
    net: &Net<N>,
    totals: &Totals<N>,
    rows: &mut RowBounds<N>,
    moments: u16,
) -> Option<LengthFail>
    requires filled { Filled totals.now (net_of net.now) (row_targets (original_count f.now))
        (replicate (original_count f.now) moments) }
    ensures { result ≡ bounds_failure (net_of net.now) f.now moments }
{
    for j in 0..f.inputs().len() {
        let least = rows.raise(totals, f, j);
        if least != Least::Rest {
            return Some(LengthFail {
                length: moments,
                input: j as u8,
                why: LengthWhy::Bounds(least),
            });
        }
    }
    None
}

// How a length fails, if it does: a row meets a range within it, or the bounds of the rows do not come to rest for
// words of some input alone. Else the totals are filled with the rows.
pub fn length_failure<const N: usize>(
    alloc: Global,
    f: &Filter,
    net: &Net<N>,
    sweep: &mut Sweep<N>,
    totals: &mut Totals<N>,
    rows: &mut RowBounds<N>,
    moments: u16,
) -> Result<Option<LengthFail>, AllocError>
    requires inside { original_count f.now ≤ N }
    requires some { 1 ≤ moments }
    requires short { moments ≤ GREATEST_LENGTH }
    ensures failure { IfOk result (λ r. r ≡ length_failure (net_of net.now) f.now moments) }
    ensures filled { IfOk result (λ r. r ≡ None →
        Filled totals.new (net_of net.now) (row_targets (original_count f.now))
        (replicate (original_count f.now) moments)) }
{
    let count = f.eqs().net_rows();
    let targets = row_targets(alloc, count)?;
    let lengths = same_lengths(alloc, moments, count)?;
    match totals.fill(sweep, net, &targets, &lengths) {
        Ok(()) => Ok(bounds_failure(f, net, totals, rows, moments)),
        Err(range) => Ok(Some(LengthFail {
            length: moments,
            input: 0,
            why: LengthWhy::Range(range),
        })),
    }
}
