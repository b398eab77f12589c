// The traits of the outside.
ghost use Rattle.std.specs.Prelude.{◌≡◌, ◌<◌, ◌≤◌, IsTrue, IfOk, length};
ghost use Rattle.fx_io.specs.declared.shelf.IoFault.TheVariants.{NoMemory};
ghost use Rattle.fx_io.specs.Shelf.{ReadsPiece};
ghost use Rattle.fx_io.specs.Outside.{OnlyReads, Outside, Output, Places, Puts};

use std::alloc::AllocError;
use thiserror::Error;

/// Why a call to the outside was refused.
#[derive(Clone, Copy, Debug, Error)]
pub enum IoFault {
    /// The file or the output is not there, or gave an error.
    #[error("input or output failed")]
    Failed,
    /// Memory ran out.
    #[error("out of memory")]
    NoMemory,
}

impl From<AllocError> for IoFault {
    ghost from_gives = { λ _ e. e ≡ NoMemory };

    fn from(_e: AllocError) -> IoFault {
        IoFault::NoMemory
    }
}

/// Named files, which may be read and placed.
pub trait Shelf {
    /// What is seen of the outside: the files, where the shelf tells them (no call changes whether
    /// it tells); counts of failed reads, of failed placings and of calls, none of which falls, a
    /// count of faults rising only with `Failed`; and the names that may be read, of which no call
    /// takes one out.
    ghost seen: { Self → Outside };

    /// Reads bytes of a file from the place `from` on, and says how many: none for a buffer that is
    /// not empty exactly where `from` is at or past the file's end. After an error the buffer may
    /// hold anything.
    ///
    /// # Errors
    ///
    /// `Failed` just where `read_faults` rose. A name that is not there is such a failure.
    fn read_at(&mut self, name: &str, from: u64, into: &mut [u8]) -> Result<usize, IoFault>
        requires { IsTrue ((seen self.old).readable name.now) }

        ensures within { IfOk result (λ n. n ≤ length into.new) }
        ensures bytes { IfOk result (λ n. ReadsPiece (seen self.old).files name.now from into.new n) }
        ensures shelf { OnlyReads 1 (seen self.old) (seen self.new) result };

    /// Gives a file exactly these bytes, and leaves every other file.
    ///
    /// # Errors
    ///
    /// `Failed` just where `place_faults` rose; then the file of that name may hold anything. After
    /// `NoMemory` every file is as before.
    fn place(&mut self, name: &str, bytes: &[u8]) -> Result<(), IoFault>
        ensures { Places name.now bytes.now (seen self.old) (seen self.new) result };
}

/// Where a command's text goes.
pub trait Sink {
    /// What is seen of the output: the bytes so far, where the sink tells them (no call changes
    /// whether it tells), and a count of failed writes, which does not fall and rises only with
    /// `Failed` and with a write that took no byte.
    ghost seen: { Self → Output };

    /// Takes the first bytes of a piece that is not empty, and says how many.
    ///
    /// # Errors
    ///
    /// `Failed` only where `faults` rose. After an error nothing was taken.
    fn put(&mut self, bytes: &[u8]) -> Result<usize, IoFault>
        requires { 0 < length bytes.now }
        ensures { Puts bytes.now (seen self.old) (seen self.new) result };
}
