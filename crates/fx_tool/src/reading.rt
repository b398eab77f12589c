ghost use Rattle.std.specs.Prelude.{◌≡◌, ◌<◌, ◌≤◌, ◌+◌, ◌^◌, IsTrue, IfOk, IfSome, OnOk, min, take, length};
ghost use Rattle.std.specs.Bool.{IsFalse};
ghost use Rattle.std.specs.Option.{option_map};
ghost use Rattle.fx_io.specs.Outside.{OnlyReads};
ghost use Rattle.fx_tool.specs.Reading.{Has, HoldsContent, SoFar, read_calls};

use fx_io::{IoFault, Shelf};
use std::alloc::Global;

/// The most bytes that one read asks for.
pub const PIECE: usize = 65_536;

// Reads one piece behind the bytes that were read, up to one byte past the limit, and says whether there may be
// another.
fn read_piece<S: Shelf>(
    shelf: &mut S,
    name: &str,
    limit: usize,
    piece: &mut [u8],
    bytes: &mut Vec<u8>,
) -> Result<bool, IoFault>
    requires readable { IsTrue ((S.seen shelf.old).readable name.now) }
    requires limit { limit < 2 ^ 32 }
    requires room { length bytes.old.items ≤ limit }
    requires piece { (0 < length piece.old) × (length piece.old ≤ PIECE) }

    ensures more { SoFar (S.seen shelf.old).files name.now bytes.old.items →
        OnOk result (SoFar (S.seen shelf.old).files name.now bytes.new.items) }
    ensures end { SoFar (S.seen shelf.old).files name.now bytes.old.items → IfOk result (λ more. IsFalse more →
        Has (S.seen shelf.old).files name.now (λ content. bytes.new.items ≡ take (limit + 1) content)) }
    ensures longer { IfOk result (λ more. IsTrue more → length bytes.old.items < length bytes.new.items) }
    ensures no_shorter { length bytes.old.items ≤ length bytes.new.items }
    ensures within { length bytes.new.items ≤ limit + 1 }

    ensures shelf { OnlyReads 1 (S.seen shelf.old) (S.seen shelf.new) result }
{
    let room = (limit + 1 - bytes.len()).min(piece.len());
    let count = shelf.read_at(name, bytes.len() as u64, &mut piece[..room])?;
    if count == 0 {
        return Ok(false);
    }
    bytes.extend_from_slice(&piece[..count])?;
    Ok(true)
}

// Reads a file piece by piece, up to one byte past the limit.
fn read_up_to<S: Shelf>(
    alloc: Global,
    shelf: &mut S,
    name: &str,
    limit: usize,
    piece: &mut [u8],
) -> Result<Vec<u8>, IoFault>
    requires readable { IsTrue ((S.seen shelf.old).readable name.now) }
    requires limit { limit < 2 ^ 32 }
    requires piece { (0 < length piece.old) × (length piece.old ≤ PIECE) }

    ensures content { IfOk result (λ bytes. Has (S.seen shelf.old).files name.now
        (λ content. bytes.items ≡ take (limit + 1) content)) }
    ensures within { IfOk result (λ bytes. length bytes.items ≤ limit + 1) }
    ensures shelf { OnlyReads (read_calls limit (S.seen shelf.old).files name.now)
        (S.seen shelf.old) (S.seen shelf.new) result }
{
    let mut bytes = Vec::new(alloc);
    'pieces: while bytes.len() <= limit {
        if !read_piece(shelf, name, limit, piece, &mut bytes)? {
            return Ok(bytes);
        }
    }
    Ok(bytes)
}

/// Reads a file whole, where it is no longer than the limit.
///
/// # Errors
///
/// `Failed` just where the shelf's count of read faults rose.
pub fn read_file<S: Shelf>(
    alloc: Global,
    shelf: &mut S,
    name: &str,
    limit: usize,
) -> Result<Option<Vec<u8>>, IoFault>
    requires readable { IsTrue ((S.seen shelf.old).readable name.now) }
    requires limit { limit < 2 ^ 32 }

    ensures content { IfOk result (λ r. Has (S.seen shelf.old).files name.now
        (HoldsContent limit (option_map (λ bytes. bytes.items) r))) }
    ensures short { IfOk result (λ r. IfSome (option_map (λ bytes. bytes.items) r) (λ bytes. length bytes ≤ limit)) }
    ensures shelf { OnlyReads (read_calls limit (S.seen shelf.old).files name.now)
        (S.seen shelf.old) (S.seen shelf.new) result }
{
    let mut piece = vec![in alloc; 0; PIECE.min(limit + 1)]?;
    let bytes = read_up_to(alloc, shelf, name, limit, &mut piece)?;
    Ok(if bytes.len() <= limit {
        Some(bytes)
    } else {
        None
    })
}
