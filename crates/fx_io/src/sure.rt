// Contents in memory, without faults.
ghost use Rattle.std.specs.Prelude.{
  ◌≡◌,
  ◌++◌,
  Some,
  [],
  IsTrue,
  IfOk,
  OnOk,
  OnErr,
  IsOkAnd,
  IsSomeAnd,
  IsOkUnless,
  min,
  drop,
  length,
};
ghost use Rattle.std.specs.FinMap as map;
ghost use Rattle.fx_io.specs.declared.shelf.IoFault.TheVariants.{NoMemory};
ghost use Rattle.fx_io.specs.Memory.{seen_of_bytes, seen_of_files};
ghost use Rattle.fx_io.specs.Shelf.{ReadsPiece, KeepsNames};

use crate::file_list::{FileList, copy_piece};
use crate::shelf::{IoFault, Shelf, Sink};
use std::alloc::{AllocError, Global};
use std::marker::Model;

/// Files in memory. A name may be read where it is there, and no call but for want of memory fails.
#[derive(Drop)]
pub struct SureShelf {
    files: FileList,
}

impl Model for SureShelf {
    ghost use Rattle.fx_io.specs.Shelf.{Files};
    ghost use Rattle.fx_io.specs.Memory.{files_code};

    ghost Value = { Files };

    ghost coded = { files_code };

    ghost view = { λ s. s.files };
}

impl SureShelf {
    /// A shelf without files.
    ///
    /// # Errors
    ///
    /// None: a shelf without files takes no memory.
    pub fn new(alloc: Global) -> Result<SureShelf, AllocError>
        ensures { IsOkAnd result (λ s. s ≡ map.empty) }
    {
        Ok(SureShelf {
            files: FileList::new(alloc),
        })
    }

    /// Adds a file, or replaces the one of this name.
    ///
    /// # Errors
    ///
    /// Want of memory, which leaves the shelf as it was.
    pub fn add(&mut self, name: &str, bytes: &[u8]) -> Result<(), AllocError>
        ensures ok { OnOk result (self.new ≡ map.insert self.old name.now bytes.now) }
        ensures err { OnErr result (self.new ≡ self.old) }
        ensures readable { OnOk result (IsTrue (map.contains_key self.new name.now)) }
        ensures others { KeepsNames (map.contains_key self.old) (map.contains_key self.new) }
    {
        self.files.insert(name, bytes)
    }
}

impl Shelf for SureShelf {
    ghost seen = { seen_of_files };

    fn read_at(&mut self, name: &str, from: u64, into: &mut [u8]) -> Result<usize, IoFault>
        requires { IsTrue (map.contains_key self.old name.now) }
        // As many bytes as there are and as fit.
        ensures done { IsOkAnd result (λ n. IsSomeAnd (map.get self.old name.now)
            (λ content. n ≡ min (length (drop from content)) (length into.new))) }
        ensures bytes { IfOk result (λ n. ReadsPiece (Some self.old) name.now from into.new n) }
        ensures same { self.new ≡ self.old }
    {
        match self.files.get(name) {
            Some(content) => Ok(copy_piece(content, from, into.len(), into)),
            None => unreachable!(),
        }
    }

    fn place(&mut self, name: &str, bytes: &[u8]) -> Result<(), IoFault>
        ensures ok { OnOk result (self.new ≡ map.insert self.old name.now bytes.now) }
        ensures err { OnErr result (self.new ≡ self.old) }
        ensures memory { IsOkUnless result NoMemory }
        ensures readable { KeepsNames (map.contains_key self.old) (map.contains_key self.new) }
    {
        Ok(self.add(name, bytes)?)
    }
}

/// Bytes in memory. No call but for want of memory fails.
#[derive(Drop)]
pub struct SureSink {
    bytes: Vec<u8>,
}

impl Model for SureSink {
    ghost use Rattle.std.specs.Prelude.{List, ℕ};

    ghost Value = { List ℕ };

    ghost view = { λ s. s.bytes.items };
}

impl SureSink {
    /// A sink that holds nothing.
    ///
    /// # Errors
    ///
    /// None: a sink that holds nothing takes no memory.
    pub fn new(alloc: Global) -> Result<SureSink, AllocError>
        ensures { IsOkAnd result (λ s. s ≡ []) }
    {
        Ok(SureSink {
            bytes: Vec::new(alloc),
        })
    }

    /// What was put.
    pub fn bytes(&self) -> &[u8]
        ensures { result.now ≡ self.now }
    {
        &self.bytes
    }
}

impl Sink for SureSink {
    ghost seen = { seen_of_bytes };

    fn put(&mut self, bytes: &[u8]) -> Result<usize, IoFault>
        ensures done { IfOk result (λ n. (n ≡ length bytes.now) × (self.new ≡ self.old ++ bytes.now)) }
        ensures err { OnErr result (self.new ≡ self.old) }
        ensures memory { IsOkUnless result NoMemory }
    {
        self.bytes.extend_from_slice(bytes)?;
        Ok(bytes.len())
    }
}
