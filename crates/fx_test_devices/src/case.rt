//! Runs of the commands over memory, with faults of the devices.
use fx_io::{MemShelf, MemSink, Shelf};
use fx_tool::{Status, run};
use std::alloc::{AllocError, Global};

/// A name and the content of its file.
pub type File<'a> = (&'a str, &'a [u8]);

/// What fails or comes short.
#[derive(Clone, Copy)]
pub enum Fault {
    /// The read of this number, counted from 1.
    Read(u64),
    /// The placing of this number.
    Place(u64),
    /// The write of this number.
    Put(u64),
    /// Each read gives at most so many bytes, at least one.
    ReadPiece(usize),
    /// Each write takes at most so many bytes.
    PutPiece(usize),
}

impl Fault {
    // Lets it happen.
    fn set(self, shelf: &mut MemShelf, out: &mut MemSink) -> Result<(), AllocError> {
        match self {
            Fault::Read(call) => shelf.fail_read(call)?,
            Fault::Place(call) => shelf.fail_place(call)?,
            Fault::Put(call) => out.fail_put(call)?,
            Fault::ReadPiece(most) => shelf.piece(most.max(1)),
            Fault::PutPiece(most) => out.piece(most),
        }
        Ok(())
    }
}

/// What a run left.
#[derive(Drop)]
pub struct Outcome {
    status: Status,
    shelf: MemShelf,
    out: MemSink,
}

impl Outcome {
    /// Whether it ended so.
    pub fn ended(&self, status: Status) -> bool {
        self.status.number() == status.number()
    }

    /// Whether it ended so, with this text.
    pub fn is(&self, status: Status, text: &[u8]) -> bool {
        self.ended(status) && self.out.bytes() == text
    }

    /// Whether the file of this name holds this content, of at most 1024 bytes.
    pub fn holds(&mut self, alloc: Global, file: &File<'_>) -> Result<bool, AllocError> {
        let (name, bytes) = *file;
        let mut content = vec![in alloc; 0; 1024]?;
        match self.shelf.read_at(name, 0, &mut content) {
            Ok(count) => Ok(content.get(..count) == Some(bytes)),
            Err(_) => Ok(false),
        }
    }
}

/// Runs these words on these files.
pub fn run_on(
    alloc: Global,
    words: &[&str],
    files: &[File<'_>],
    faults: &[Fault],
) -> Result<Outcome, AllocError> {
    let mut shelf = shelf_of(alloc, files)?;
    let mut out = MemSink::new(alloc)?;
    for fault in faults {
        fault.set(&mut shelf, &mut out)?;
    }
    let words = words_of(alloc, words)?;
    let status = run(alloc, &words, &mut shelf, &mut out);
    Ok(Outcome { status, shelf, out })
}

/// The words of a command line, the program's name first.
pub fn words_of(alloc: Global, texts: &[&str]) -> Result<Vec<String>, AllocError> {
    let mut words = Vec::new(alloc);
    for text in texts {
        words.push(String::from_str(alloc, text)?)?;
    }
    Ok(words)
}

/// Files in memory.
pub fn shelf_of(alloc: Global, files: &[File<'_>]) -> Result<MemShelf, AllocError> {
    let mut shelf = MemShelf::new(alloc)?;
    for (name, bytes) in files {
        shelf.add(name, bytes)?;
    }
    Ok(shelf)
}

/// A row of a table: words on files with faults, and how the run has to end.
#[derive(Clone, Copy)]
pub struct Case<'a> {
    pub name: &'a str,
    pub words: &'a [&'a str],
    pub files: &'a [File<'a>],
    pub faults: &'a [Fault],
    pub status: Status,
    pub text: &'a [u8],
}

/// The name of the first row that ends otherwise.
pub fn first_wrong<'a>(alloc: Global, table: &[Case<'a>]) -> Result<Option<&'a str>, AllocError> {
    for case in table {
        let ended = run_on(alloc, case.words, case.files, case.faults)?;
        if !ended.is(case.status, case.text) {
            return Ok(Some(case.name));
        }
    }
    Ok(None)
}
