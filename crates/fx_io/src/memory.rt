// Contents in memory, with calls that are to fail.
ghost use Rattle.std.specs.Prelude.{
  ◌≡◌,
  ◌↔◌,
  ◌<◌,
  [],
  min,
  None,
  Some,
  IfOk,
  IfErr,
  OnOk,
  OnErr,
  IsErr,
  IsErrOf,
  IsOkAnd,
  IsSomeAnd,
  IsTrue,
  length,
  drop,
};
ghost use Rattle.std.specs.FinMap as map;
ghost use Rattle.fx_io.specs.declared.shelf.IoFault.TheVariants.{Failed};
ghost use Rattle.fx_io.specs.Shelf.{ReadsPiece};
ghost use Rattle.fx_io.specs.Memory.{
  no_calls,
  with_failing,
  next_fails,
  counted,
  read_fails,
  after_read,
  at_most,
  after_put,
  seen_of_shelf,
  seen_of_sink,
};

use crate::call_plan::CallPlan;
use crate::file_list::{FileList, copy_piece};
use crate::shelf::{IoFault, Shelf, Sink};
use std::alloc::{AllocError, Global};
use std::marker::Model;

// So many bytes, or as many as a piece has, where that is less.
fn at_most(piece: Option<usize>, count: usize) -> usize
    ensures { result ≡ at_most piece count }
{
    match piece {
        Some(most) => count.min(most),
        None => count,
    }
}

/// Files in memory. Every name may be read. The calls that were listed answer `Failed`, and so does each read of a name
/// that is not there; all others are done, but for want of memory. A read gives all that fits, or at most a piece.
#[derive(Drop)]
pub struct MemShelf {
    files: FileList,
    reads: CallPlan,
    places: CallPlan,
    absences: u64,
    piece: Option<usize>,
}

impl Model for MemShelf {
    ghost use Rattle.fx_io.specs.Memory.{HoldsBytes, ShelfState, shelf_code};

    ghost Value = { ShelfState };

    ghost coded = { shelf_code };

    ghost view = { λ s. record {
      files = s.files;
      reads = s.reads;
      places = s.places;
      absences = s.absences;
      piece = s.piece;
    } };

    ghost invariant = { λ s. HoldsBytes s.piece };
}

impl MemShelf {
    /// A shelf without files, on which no call fails and a read gives all that fits.
    ///
    /// # Errors
    ///
    /// None: a shelf without files takes no memory.
    pub fn new(alloc: Global) -> Result<MemShelf, AllocError>
        ensures { IsOkAnd result (λ s. s ≡ record {
          files = map.empty;
          reads = no_calls;
          places = no_calls;
          absences = 0;
          piece = None;
        }) }
    {
        Ok(MemShelf {
            files: FileList::new(alloc),
            reads: CallPlan::new(alloc),
            places: CallPlan::new(alloc),
            absences: 0,
            piece: None,
        })
    }

    /// Adds a file, or replaces the one of this name.
    ///
    /// # Errors
    ///
    /// Want of memory, which leaves the shelf as it was.
    pub fn add(&mut self, name: &str, bytes: &[u8]) -> Result<(), AllocError>
        ensures ok { OnOk result (self.new ≡ record self.old { files = map.insert self.old.files name.now bytes.now }) }
        ensures err { OnErr result (self.new ≡ self.old) }
    {
        self.files.insert(name, bytes)
    }

    /// Lets the read of this number fail. Reads are counted from 1.
    ///
    /// # Errors
    ///
    /// Want of memory, which leaves the shelf as it was.
    pub fn fail_read(&mut self, call: u64) -> Result<(), AllocError>
        ensures ok { OnOk result (self.new ≡ record self.old { reads = with_failing self.old.reads call }) }
        ensures err { OnErr result (self.new ≡ self.old) }
    {
        self.reads.fail(call)
    }

    /// Lets the placing of this number fail. Placings are counted from 1.
    ///
    /// # Errors
    ///
    /// Want of memory, which leaves the shelf as it was.
    pub fn fail_place(&mut self, call: u64) -> Result<(), AllocError>
        ensures ok { OnOk result (self.new ≡ record self.old { places = with_failing self.old.places call }) }
        ensures err { OnErr result (self.new ≡ self.old) }
    {
        self.places.fail(call)
    }

    /// Lets a read give at most so many bytes from now on, at least one.
    pub fn piece(&mut self, most: usize)
        requires { 0 < most }
        ensures { self.new ≡ record self.old { piece = Some most } }
    {
        self.piece = Some(most);
    }
}

impl Shelf for MemShelf {
    ghost seen = { seen_of_shelf };

    fn read_at(&mut self, name: &str, from: u64, into: &mut [u8]) -> Result<usize, IoFault>
        ensures fails { IsErr result ↔ IsTrue (read_fails self.old name.now) }
        ensures fault { IfErr result (λ e. e ≡ Failed) }
        ensures after { self.new ≡ after_read self.old name.now }
        // As many bytes as there are and as fit, or as a piece has.
        ensures count { IfOk result (λ n. IsSomeAnd (map.get self.old.files name.now)
            (λ content. n ≡ min (length (drop from content)) (at_most self.old.piece (length into.new)))) }
        ensures bytes { IfOk result (λ n. ReadsPiece (Some self.old.files) name.now from into.new n) }
    {
        if self.reads.next() {
            return Err(IoFault::Failed);
        }
        match self.files.get(name) {
            Some(content) => {
                let most = at_most(self.piece, into.len());
                Ok(copy_piece(content, from, most, into))
            }
            None => {
                self.absences = self.absences.saturating_add(1);
                Err(IoFault::Failed)
            }
        }
    }

    fn place(&mut self, name: &str, bytes: &[u8]) -> Result<(), IoFault>
        ensures fails { IsErrOf result Failed ↔ IsTrue (next_fails self.old.places) }
        ensures done { OnOk result (self.new ≡ record self.old {
          files = map.insert self.old.files name.now bytes.now;
          places = counted self.old.places;
        }) }
        ensures refused { OnErr result (self.new ≡ record self.old { places = counted self.old.places }) }
    {
        if self.places.next() {
            return Err(IoFault::Failed);
        }
        Ok(self.add(name, bytes)?)
    }
}

/// Bytes in memory. The calls that were listed answer `Failed`; all others are done, but for want of memory. A write
/// takes all of its bytes, or at most a piece.
#[derive(Drop)]
pub struct MemSink {
    bytes: Vec<u8>,
    puts: CallPlan,
    empty_puts: u64,
    piece: Option<usize>,
}

impl Model for MemSink {
    ghost use Rattle.fx_io.specs.Memory.{SinkState, sink_code};

    ghost Value = { SinkState };

    ghost coded = { sink_code };

    ghost view = { λ s. record {
      bytes = s.bytes.items;
      puts = s.puts;
      empty_puts = s.empty_puts;
      piece = s.piece;
    } };
}

impl MemSink {
    /// A sink that holds nothing, on which no call fails and a write takes all of its bytes.
    ///
    /// # Errors
    ///
    /// None: a sink that holds nothing takes no memory.
    pub fn new(alloc: Global) -> Result<MemSink, AllocError>
        ensures { IsOkAnd result (λ s. s ≡ record { bytes = []; puts = no_calls; empty_puts = 0; piece = None }) }
    {
        Ok(MemSink {
            bytes: Vec::new(alloc),
            puts: CallPlan::new(alloc),
            empty_puts: 0,
            piece: None,
        })
    }

    /// Lets the write of this number fail. Writes are counted from 1.
    ///
    /// # Errors
    ///
    /// Want of memory, which leaves the sink as it was.
    pub fn fail_put(&mut self, call: u64) -> Result<(), AllocError>
        ensures ok { OnOk result (self.new ≡ record self.old { puts = with_failing self.old.puts call }) }
        ensures err { OnErr result (self.new ≡ self.old) }
    {
        self.puts.fail(call)
    }

    /// Lets a write take at most so many bytes from now on. With 0 each write takes none, and is
    /// counted as a fault.
    pub fn piece(&mut self, most: usize)
        ensures { self.new ≡ record self.old { piece = Some most } }
    {
        self.piece = Some(most);
    }

    /// What was put.
    pub fn bytes(&self) -> &[u8]
        ensures { result.now ≡ self.now.bytes }
    {
        &self.bytes
    }
}

impl Sink for MemSink {
    ghost seen = { seen_of_sink };

    fn put(&mut self, bytes: &[u8]) -> Result<usize, IoFault>
        ensures fails { IsErrOf result Failed ↔ IsTrue (next_fails self.old.puts) }
        ensures done { IfOk result (λ n. (n ≡ at_most self.old.piece (length bytes.now))
            × (self.new ≡ after_put self.old bytes.now n)) }
        ensures refused { OnErr result (self.new ≡ record self.old { puts = counted self.old.puts }) }
    {
        if self.puts.next() {
            return Err(IoFault::Failed);
        }
        let count = at_most(self.piece, bytes.len());
        self.bytes.extend_from_slice(&bytes[..count])?;
        if count == 0 {
            self.empty_puts = self.empty_puts.saturating_add(1);
        }
        Ok(count)
    }
}
