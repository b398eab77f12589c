// A file of the disk that is read from its first piece to its last.
ghost use Rattle.std.specs.Prelude.{◌≡◌, ◌↔◌, ◌<◌, ◌+◌, IsTrue, IfOk, take};
ghost use Rattle.std.specs.String.{string_bytes};
ghost use Rattle.std.specs.Io.{ReadsAtMost};
ghost use Rattle.std.specs.Io.KnownBytes.{Consumes};
ghost use Rattle.fx_io.specs.Causes.{saturated};

use std::alloc::Global;
use std::io::{ErrorKind, Read, Seek, SeekFrom};
use std::rt::Files;
use std::{fs, io};

/// A file that stands open, and the place of its next byte.
#[derive(Drop)]
pub(crate) struct Opened<F> {
    name: String,
    file: F,
    next: u64,
}

/// Opens the file of this name at a place. A first piece needs no place to be sought, so a pipe serves.
pub(crate) fn open_at<R: Files>(
    alloc: Global,
    rt: &R,
    name: &str,
    from: u64,
) -> io::Result<Opened<R::File>>
    ensures { IfOk result (λ f. (f.next ≡ from) × (string_bytes f.name ≡ name.now)) }
{
    let owned = String::from_str(alloc, name)?;
    let mut file = fs::open(rt, name)?;
    if from > 0 {
        file.seek(SeekFrom::Start(from))?;
    }
    Ok(Opened {
        name: owned,
        file,
        next: from,
    })
}

// A read that a signal interrupted is made again.
fn read_again<F: Read>(file: &mut F, into: &mut [u8]) -> io::Result<usize>
    ensures within { ReadsAtMost result into.new }
    ensures bytes { IfOk result (λ n. Consumes (F.remaining file.old) (F.remaining file.new) (take n into.new)) }
{
    for _ in 0..u64::MAX {
        match file.read(into) {
            Err(error) if error.kind() == ErrorKind::Interrupted => {}
            answer => return answer,
        }
    }
    Err(ErrorKind::Interrupted.into())
}

impl<F: Read> Opened<F> {
    /// Whether a piece of the file of this name from this place on is the next one of this file. A first piece never is:
    /// for it a file is opened anew.
    pub(crate) fn goes_on(&self, name: &str, from: u64) -> bool
        ensures { IsTrue result ↔ (0 < from) × (from ≡ self.now.next) × (string_bytes self.now.name ≡ name.now) }
    {
        from > 0 && from == self.next && self.name.as_str() == name
    }

    /// Reads on.
    pub(crate) fn read(&mut self, into: &mut [u8]) -> io::Result<usize>
        ensures within { ReadsAtMost result into.new }
        ensures bytes { IfOk result (λ n.
            Consumes (F.remaining self.old.file) (F.remaining self.new.file) (take n into.new)) }
        ensures place { IfOk result (λ n. self.new.next ≡ saturated (self.old.next + n)) }
        ensures name { self.new.name ≡ self.old.name }
    {
        let count = read_again(&mut self.file, into)?;
        self.next = self.next.saturating_add(count as u64);
        Ok(count)
    }
}
