ghost use Rattle.std.specs.Prelude.{◌≡◌, ◌<◌, ◌^◌, [], length, None};
ghost use Rattle.std.specs.List.{list_any};
ghost use Rattle.fx_sif.specs.Blocks.{height, is_at, same_place, width};
ghost use Rattle.fx_sif.specs.Faults.{breaks_unit_lower, entries_fault, entry_fault, is_out, limit_fault, sif_fault};

use crate::fault::SifFault;
use crate::limits::FORM_ROWS;
use crate::parts::{Block, Entry, Sizes};
use fx_eqs::PORTS;

// How many rows a block has.
fn height(sizes: Sizes, block: Block) -> u8
    ensures { result ≡ height sizes block }
{
    match block {
        Block::J | Block::M | Block::N => sizes.t,
        Block::K | Block::P | Block::Q => sizes.x,
        Block::L | Block::R | Block::S => sizes.y,
    }
}

// How many columns a block has.
fn width(sizes: Sizes, block: Block) -> u8
    ensures { result ≡ width sizes block }
{
    match block {
        Block::J | Block::K | Block::L => sizes.t,
        Block::M | Block::P | Block::R => sizes.x,
        Block::N | Block::Q | Block::S => sizes.u,
    }
}

/// Whether an entry stands in this block, row and column.
pub fn is_at(block: Block, i: usize, j: usize, entry: &Entry) -> bool
    ensures { result ≡ is_at block i j entry.now }
{
    entry.block == block && usize::from(entry.i) == i && usize::from(entry.j) == j
}

// Whether a count is not from 1 to the greatest.
fn is_out(greatest: usize, count: usize) -> bool
    ensures { result ≡ is_out greatest count }
{
    count == 0 || count > greatest
}

// The fault of the counts.
fn limit_fault(sizes: Sizes) -> Option<SifFault>
    ensures { result ≡ limit_fault sizes None }
{
    let rows = usize::from(sizes.t) + usize::from(sizes.x) + usize::from(sizes.y);
    if is_out(FORM_ROWS, rows) {
        return Some(SifFault::Limit(rows));
    }
    let (inputs, outputs) = (usize::from(sizes.u), usize::from(sizes.y));
    if is_out(PORTS, inputs) {
        return Some(SifFault::Limit(inputs));
    }
    if is_out(PORTS, outputs) {
        return Some(SifFault::Limit(outputs));
    }
    None
}

// Whether an entry of J is not 1 on the diagonal, or not 0 above it.
fn breaks_unit_lower(entry: &Entry) -> bool
    ensures { result ≡ breaks_unit_lower entry.now.block entry.now.i entry.now.j entry.now.coef }
{
    if entry.block != Block::J {
        return false;
    }
    if entry.i == entry.j {
        return !entry.coef.is_one();
    }
    entry.i < entry.j && !entry.coef.is_zero()
}

// Whether an earlier entry stands in the same place.
fn stands_twice(earlier: &[Entry], entry: &Entry) -> bool
    ensures { result ≡ list_any (same_place entry.now) earlier.now }
{
    earlier.iter().any(|other| is_at(
        entry.block,
        usize::from(entry.i),
        usize::from(entry.j),
        other,
    ))
}

// The fault of one entry behind the earlier ones.
fn entry_fault(sizes: Sizes, earlier: &[Entry], entry: &Entry) -> Option<SifFault>
    requires { length earlier.now < 2 ^ 32 }
    ensures { result ≡ entry_fault sizes earlier.now entry.now }
{
    let place = earlier.len() as u32;
    if entry.i >= height(sizes, entry.block) || entry.j >= width(sizes, entry.block) {
        return Some(SifFault::Shape(place));
    }
    if breaks_unit_lower(entry) {
        return Some(SifFault::NotUnitLower(entry.i, entry.j));
    }
    if stands_twice(earlier, entry) {
        return Some(SifFault::Twice(place));
    }
    None
}

// The first fault of the entries, entry by entry.
fn entries_fault(sizes: Sizes, entries: &[Entry]) -> Option<SifFault>
    requires { length entries.now < 2 ^ 32 }
    ensures { result ≡ entries_fault sizes [] entries.now }
{
    for (i, entry) in entries.iter().enumerate() {
        if let Some(fault) = entry_fault(sizes, &entries[..i], entry) {
            return Some(fault);
        }
    }
    None
}

/// The first fault of an implicit form: of the counts, then entry by entry.
pub fn sif_fault(sizes: Sizes, entries: &[Entry]) -> Option<SifFault>
    requires { length entries.now < 2 ^ 32 }
    ensures { result ≡ sif_fault sizes entries.now }
{
    if let Some(fault) = limit_fault(sizes) {
        return Some(fault);
    }
    entries_fault(sizes, entries)
}
