//! `gain`.
ghost use Rattle.std.specs.Prelude.{◌≡◌, ◌∷◌, [], IfOk, IsTrue};
ghost use Rattle.fx_files.specs.Reading.{filter_of_bytes};
ghost use Rattle.fx_tool.specs.Answer.{WhereDone};
ghost use Rattle.fx_tool.specs.Gain.{
  gain_plan,
  gained,
  gains,
  BytesEnclose,
  FileEncloses,
  GainsEnclose,
};
ghost use Rattle.fx_tool.specs.Plan.{Follows};
ghost use Rattle.fx_words.specs.declared.operand.Operand.TheVariants as operand;

use crate::ending::Ending;
use crate::operand::{read_operand, too_long};
use crate::refused::refused_filter;
use crate::status::Status;
use fx_files::{Filter, read_filter};
use fx_findings::{gain_lines, no_length_lines};
use fx_gain::{PeakFault, peak};
use fx_io::{IoFault, Shelf};
use fx_words::Operand;
use std::alloc::{AllocError, Global};

// The gains of a filter, or why there are none.
fn gains(alloc: Global, filter: &Filter) -> Result<Ending, AllocError>
    ensures answer { IfOk result (λ e. gains filter.now ≡ e) }
    ensures encloses { WhereDone result (GainsEnclose filter.now) }
{
    match peak(alloc, filter) {
        Ok(peaks) => Ok(Ending::new(Status::Done, gain_lines(alloc, filter, &peaks)?)),
        Err(PeakFault::NoLength(fails)) => {
            Ok(Ending::new(Status::NoDesign, no_length_lines(alloc, fails.list())?))
        }
        Err(PeakFault::NoMemory) => Err(AllocError),
    }
}

// How a filter's bytes end.
fn gained(alloc: Global, bytes: &[u8]) -> Result<Ending, AllocError>
    ensures answer { IfOk result (λ e. gained (filter_of_bytes bytes.now) ≡ e) }
    ensures encloses { WhereDone result (BytesEnclose bytes.now) }
{
    match read_filter(alloc, bytes) {
        Ok(filter) => gains(alloc, &filter),
        Err(fault) => refused_filter(alloc, &fault),
    }
}

/// Reads a filter and finds how far each output goes on words of each input alone. Where that ends with `Done`, the
/// intervals and words enclose it.
///
/// # Errors
///
/// `Failed` just where the shelf's count of read faults rose.
pub fn gain<S: Shelf>(alloc: Global, filter: &str, shelf: &mut S) -> Result<Ending, IoFault>
    requires { IsTrue ((S.seen shelf.old).readable filter.now) }
    ensures follows { Follows (operand.Filter ∷ []) (filter.now ∷ []) gain_plan
        (S.seen shelf.old) (S.seen shelf.new) result }
    ensures encloses { WhereDone result (FileEncloses (S.seen shelf.old).files filter.now) }
{
    match read_operand(alloc, Operand::Filter, filter, shelf)? {
        Some(bytes) => Ok(gained(alloc, &bytes)?),
        None => too_long(alloc, Operand::Filter),
    }
}
