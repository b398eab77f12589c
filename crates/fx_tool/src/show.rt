//! `show`.
ghost use Rattle.std.specs.Prelude.{◌≡◌, ◌∷◌, [], IfOk, IsTrue};
ghost use Rattle.fx_files.specs.Reading.{filter_of_bytes};
ghost use Rattle.fx_tool.specs.Plan.{Follows};
ghost use Rattle.fx_tool.specs.Show.{show_plan, shown};
ghost use Rattle.fx_words.specs.declared.operand.Operand.TheVariants.{Filter};

use crate::ending::Ending;
use crate::operand::{read_operand, too_long};
use crate::refused::refused_filter;
use crate::status::Status;
use fx_files::read_filter;
use fx_io::{IoFault, Shelf};
use fx_lines::shown_filter;
use fx_words::Operand;
use std::alloc::{AllocError, Global};

// How a filter's bytes end: it is shown, or its first fault is told.
fn shown(alloc: Global, bytes: &[u8]) -> Result<Ending, AllocError>
    ensures { IfOk result (λ e. shown (filter_of_bytes bytes.now) ≡ e) }
{
    match read_filter(alloc, bytes) {
        Ok(filter) => Ok(Ending::new(Status::Done, shown_filter(alloc, &filter)?)),
        Err(fault) => refused_filter(alloc, &fault),
    }
}

/// Reads a filter and shows it.
///
/// # Errors
///
/// `Failed` just where the shelf's count of read faults rose.
pub fn show<S: Shelf>(alloc: Global, filter: &str, shelf: &mut S) -> Result<Ending, IoFault>
    requires { IsTrue ((S.seen shelf.old).readable filter.now) }
    ensures { Follows (Filter ∷ []) (filter.now ∷ []) show_plan
        (S.seen shelf.old) (S.seen shelf.new) result }
{
    match read_operand(alloc, Operand::Filter, filter, shelf)? {
        Some(bytes) => Ok(shown(alloc, &bytes)?),
        None => too_long(alloc, Operand::Filter),
    }
}
