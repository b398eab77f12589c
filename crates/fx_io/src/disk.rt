// The edge: real files and standard output. They tell no contents. What a call of the runtime
// answered becomes the answer of the shelf or the sink by `counted`, `placed` and `taken`.
ghost use Rattle.std.specs.Prelude.{◌≡◌, ◌+◌, ◌<◌, ◌≤◌, IfOk, IfErr, OnOk, OnErr, length};
ghost use Rattle.std.specs.IoError.{error_kind};
ghost use Rattle.fx_io.specs.Causes.{saturated, CountsWrite, HasCause, IsCounted, TellsError};
ghost use Rattle.fx_io.specs.Outside.{files_untold, output_untold};

use crate::opened::{Opened, open_at};
use crate::shelf::{IoFault, Shelf, Sink};
use crate::whole::{place_whole, write_whole};
use std::alloc::Global;
use std::io::ErrorKind;
use std::marker::Model;
use std::rt::Files;
use std::{fs, io};

// Counts a failure.
fn count_failure(faults: &mut u64)
    ensures counted { faults.new ≡ saturated (faults.old + 1) }
    ensures later { faults.old ≤ faults.new }
{
    *faults = faults.saturating_add(1);
}

// What the system answered, with its error as a fault. Want of memory is not counted, and every
// other error is.
fn counted<T>(answer: io::Result<T>, faults: &mut u64) -> Result<T, IoFault>
    ensures done { IfOk answer (λ value. (result ≡ Ok value) × (faults.new ≡ faults.old)) }
    ensures refused { IfErr answer (λ error. TellsError (error_kind error) faults.old faults.new result) }
    ensures cause { HasCause faults.old faults.new result }
{
    match answer {
        Ok(value) => Ok(value),
        Err(error) if error.kind() == ErrorKind::OutOfMemory => Err(IoFault::NoMemory),
        Err(_) => {
            count_failure(faults);
            Err(IoFault::Failed)
        }
    }
}

// What the writing of a file answered. The file was emptied before, so an error, whatever its kind,
// is a failed placing.
fn placed(answer: io::Result<()>, faults: &mut u64) -> Result<(), IoFault>
    ensures done { OnOk answer ((result ≡ Ok tt) × (faults.new ≡ faults.old)) }
    ensures refused { OnErr answer (IsCounted faults.old faults.new result) }
    ensures cause { HasCause faults.old faults.new result }
{
    if answer.is_err() {
        count_failure(faults);
        return Err(IoFault::Failed);
    }
    Ok(())
}

// What a write of bytes answered: one that took none of them is a failed write.
fn taken(answer: io::Result<usize>, faults: &mut u64) -> Result<usize, IoFault>
    ensures some { IfOk answer (λ n. 0 < n → (result ≡ Ok n) × (faults.new ≡ faults.old)) }
    ensures none { IfOk answer (λ n. n ≡ 0 → IsCounted faults.old faults.new result) }
    ensures refused { IfErr answer (λ error. TellsError (error_kind error) faults.old faults.new result) }
    ensures cause { CountsWrite faults.old faults.new result }
{
    let n = counted(answer, faults)?;
    if n == 0 {
        count_failure(faults);
        return Err(IoFault::Failed);
    }
    Ok(n)
}

// Writes what the output takes of the bytes. A write that a signal interrupted is made again.
fn print_again<R: Print>(rt: &R, bytes: &[u8]) -> io::Result<usize>
    ensures { IfOk result (λ n. n ≤ length bytes.now) }
{
    for _ in 0..u64::MAX {
        match rt.write_some(bytes) {
            Err(error) if error.kind() == ErrorKind::Interrupted => {}
            answer => return answer,
        }
    }
    Err(ErrorKind::Interrupted.into())
}

/// Files of the file system. Every name may be tried. The file that is read stands open from its first piece to its
/// last, so that pieces in order are of one file, and may come from a pipe.
#[derive(Drop)]
pub struct DiskShelf<'r, R: Files> {
    alloc: Global,
    rt: &'r R,
    opened: Option<Opened<R::File>>,
    read_faults: u64,
    place_faults: u64,
}

impl<'r, R: Files> Model for DiskShelf<'r, R> {
    ghost use Rattle.fx_io.specs.Causes.{FaultCounts};

    ghost Value = { FaultCounts };

    ghost view = { λ s. record { read_faults = s.read_faults; place_faults = s.place_faults } };
}

impl<'r, R: Files> DiskShelf<'r, R> {
    /// The files of this runtime, before any fault.
    pub fn new(alloc: Global, rt: &'r R) -> DiskShelf<'r, R>
        ensures { result ≡ record { read_faults = 0; place_faults = 0 } }
    {
        DiskShelf {
            alloc,
            rt,
            opened: None,
            read_faults: 0,
            place_faults: 0,
        }
    }

    // Reads on in the file that stands open, where the piece is its next one, else opens the file anew. After an error
    // none stands open.
    fn read_piece(&mut self, name: &str, from: u64, into: &mut [u8]) -> io::Result<usize>
        ensures within { IfOk result (λ n. n ≤ length into.new) }
        ensures counts { self.new ≡ self.old }
    {
        let mut file = match self.opened.take() {
            Some(file) if file.goes_on(name, from) => file,
            _ => open_at(self.alloc, self.rt, name, from)?,
        };
        let count = file.read(into)?;
        self.opened = Some(file);
        Ok(count)
    }
}

impl<'r, R: Files> Shelf for DiskShelf<'r, R> {
    ghost seen = { files_untold };

    fn read_at(&mut self, name: &str, from: u64, into: &mut [u8]) -> Result<usize, IoFault> {
        let answer = self.read_piece(name, from, into);
        counted(answer, &mut self.read_faults)
    }

    fn place(&mut self, name: &str, bytes: &[u8]) -> Result<(), IoFault> {
        if counted(
            place_whole(self.alloc, self.rt, name, bytes),
            &mut self.place_faults,
        )? {
            return Ok(());
        }
        let mut file = counted(fs::create(self.rt, name), &mut self.place_faults)?;
        placed(write_whole(&mut file, bytes), &mut self.place_faults)
    }
}

/// Standard output.
#[derive(Drop)]
pub struct StdoutSink<'r, R: Print> {
    rt: &'r R,
    faults: u64,
}

impl<'r, R: Print> Model for StdoutSink<'r, R> {
    ghost use Rattle.std.specs.Prelude.{ℕ};

    ghost Value = { ℕ };

    ghost view = { λ s. s.faults };
}

impl<'r, R: Print> StdoutSink<'r, R> {
    /// The standard output of this runtime, before any fault.
    pub fn new(rt: &'r R) -> StdoutSink<'r, R>
        ensures { result ≡ 0 }
    {
        StdoutSink { rt, faults: 0 }
    }
}

impl<'r, R: Print> Sink for StdoutSink<'r, R> {
    ghost seen = { output_untold };

    fn put(&mut self, bytes: &[u8]) -> Result<usize, IoFault> {
        taken(print_again(self.rt, bytes), &mut self.faults)
    }
}
