ghost use Rattle.std.specs.Prelude.{◌≡◌, ◌+◌, ◌<◌, ◌≤◌, All};
ghost use Rattle.fx_net.specs.Tables.{net_of};
ghost use Rattle.fx_sif.specs.Fits.{EntryFits};
ghost use Rattle.fx_sif.specs.Implicit.{rows};
ghost use Rattle.fx_sif.specs.Rows.{put_entries, put_entry, row_place};

use crate::parts::{Block, Entry, Sizes};
use fx_eqs::PORTS;
use fx_net::Net;

// The row of an entry: intermediate variables come first, then states, then outputs.
fn row_place(sizes: Sizes, entry: &Entry) -> usize
    requires { EntryFits sizes entry.now }
    ensures value { result ≡ row_place sizes entry.now.block entry.now.i }
    ensures below { result < rows sizes }
{
    let (t, x, i) = (
        usize::from(sizes.t),
        usize::from(sizes.x),
        usize::from(entry.i),
    );
    match entry.block {
        Block::J | Block::M | Block::N => i,
        Block::K | Block::P | Block::Q => t + i,
        Block::L | Block::R | Block::S => t + x + i,
    }
}

// Puts one entry into its row of the net; the first row stands at `at`.
fn put_entry<const N: usize>(sizes: Sizes, entry: &Entry, net: &mut Net<N>, at: usize)
    requires fits { EntryFits sizes entry.now }
    requires inputs { sizes.u ≤ PORTS }
    requires room { at + rows sizes ≤ N }
    ensures { net_of net.new ≡ put_entry sizes at entry.now (net_of net.old) }
{
    let row = at + row_place(sizes, entry);
    let column = usize::from(entry.j);
    let state = usize::from(sizes.t) + column;
    match entry.block {
        Block::J if entry.i > entry.j => net.set_now(row, at + column, entry.coef.neg()),
        Block::J => {}
        Block::K | Block::L => net.set_now(row, at + column, entry.coef),
        Block::M | Block::P | Block::R => net.set_old(row, at + state, entry.coef),
        Block::N | Block::Q | Block::S => net.set_in(row, column, entry.coef),
    }
}

/// Puts each entry into its row of the net; the first row stands at `at`.
pub fn put_entries<const N: usize>(sizes: Sizes, entries: &[Entry], net: &mut Net<N>, at: usize)
    requires fits { All (EntryFits sizes) entries.now }
    requires inputs { sizes.u ≤ PORTS }
    requires room { at + rows sizes ≤ N }
    ensures { net_of net.new ≡ put_entries sizes at entries.now (net_of net.old) }
{
    for entry in entries {
        put_entry(sizes, entry, net, at);
    }
}
