//! Reading the files of a command.
ghost use Rattle.std.specs.Prelude.{◌≡◌, ◌≤◌, IfOk, IfErr, IfSome, IsTrue, length, option_map};
ghost use Rattle.fx_io.specs.Outside.{OnlyReads};
ghost use Rattle.fx_io.specs.declared.shelf.IoFault.TheVariants.{NoMemory};
ghost use Rattle.fx_words.specs.Operand.{limit_of};
ghost use Rattle.fx_tool.specs.Operand.{too_long};
ghost use Rattle.fx_tool.specs.Reading.{Has, HoldsContent, read_calls};

use crate::ending::Ending;
use crate::reading::read_file;
use crate::status::Status;
use fx_io::{IoFault, Shelf};
use fx_words::Operand;
use std::alloc::Global;

// The line of a longer file.
fn too_long_line(operand: Operand) -> &'static str
    ensures { result.now ≡ (too_long operand).text }
{
    match operand {
        Operand::Filter => "too long FILTER\n",
        Operand::Code => "too long CODE\n",
        Operand::Certificate => "too long CERT\n",
        Operand::Samples => "too long SAMPLES\n",
    }
}

/// Reads the file of an operand whole, where it is no longer than its limit.
///
/// # Errors
///
/// `Failed` just where the shelf's count of read faults rose.
pub fn read_operand<S: Shelf>(
    alloc: Global,
    operand: Operand,
    name: &str,
    shelf: &mut S,
) -> Result<Option<Vec<u8>>, IoFault>
    requires { IsTrue ((S.seen shelf.old).readable name.now) }

    ensures content { IfOk result (λ r. Has (S.seen shelf.old).files name.now
        (HoldsContent (limit_of operand) (option_map (λ bytes. bytes.items) r))) }
    ensures short { IfOk result (λ r. IfSome (option_map (λ bytes. bytes.items) r)
        (λ bytes. length bytes ≤ limit_of operand)) }
    ensures shelf { OnlyReads (read_calls (limit_of operand) (S.seen shelf.old).files name.now)
        (S.seen shelf.old) (S.seen shelf.new) result }
{
    read_file(alloc, shelf, name, operand.limit())
}

/// How a run ends whose file is longer than its limit.
///
/// # Errors
///
/// Want of memory.
pub fn too_long(alloc: Global, operand: Operand) -> Result<Ending, IoFault>
    ensures answer { IfOk result (λ e. e ≡ too_long operand) }
    ensures fault { IfErr result (λ fault. fault ≡ NoMemory) }
{
    Ok(Ending::line(alloc, Status::TooLong, too_long_line(operand))?)
}
