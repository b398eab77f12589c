// Files in memory, seen as a map from names to contents.
ghost use Rattle.std.specs.Prelude.{◌≡◌, ◌≤◌, ◌++◌, None, Some, MatchOption, OnOk, OnErr, length, take, drop, min};
ghost use Rattle.std.specs.FinMap as map;
ghost use Rattle.fx_io.specs.FileList.{files_of};

use std::alloc::{AllocError, Global};
use std::marker::Model;

/// A name and its content.
#[derive(Drop)]
pub(crate) struct MemFile {
    name: String,
    bytes: Vec<u8>,
}

/// Files, the newest first: of two with one name, the first counts.
#[derive(Drop)]
pub(crate) struct FileList {
    alloc: Global,
    files: Vec<MemFile>,
}

impl Model for FileList {
    ghost use Rattle.fx_io.specs.Shelf.{Files};
    ghost use Rattle.fx_io.specs.Memory.{files_code};
    ghost use Rattle.fx_io.specs.FileList.{files_of};

    ghost Value = { Files };

    ghost coded = { files_code };

    ghost view = { λ s. files_of s.files.items };
}

impl FileList {
    /// No files.
    pub(crate) fn new(alloc: Global) -> FileList
        ensures { result ≡ map.empty }
    {
        FileList {
            alloc,
            files: Vec::new(alloc),
        }
    }

    /// The content of the file of this name.
    pub(crate) fn get(&self, name: &str) -> Option<&[u8]>
        ensures { MatchOption result (map.get self.now name.now ≡ None)
            (λ content. map.get self.now name.now ≡ Some content.now) }
    {
        content_of(&self.files, name)
    }

    /// Adds a file, or replaces the one of this name.
    pub(crate) fn insert(&mut self, name: &str, bytes: &[u8]) -> Result<(), AllocError>
        ensures ok { OnOk result (self.new ≡ map.insert self.old name.now bytes.now) }
        ensures err { OnErr result (self.new ≡ self.old) }
    {
        let name = String::from_str(self.alloc, name)?;
        let bytes = bytes.to_vec(self.alloc)?;
        self.files.insert(0, MemFile { name, bytes })?;
        Ok(())
    }
}

// The first file of this name.
fn content_of<'a>(files: &'a [MemFile], name: &str) -> Option<&'a [u8]>
    ensures { MatchOption result (map.get (files_of files.now) name.now ≡ None)
        (λ content. map.get (files_of files.now) name.now ≡ Some content.now) }
{
    for file in files {
        if name == file.name.as_str() {
            return Some(&file.bytes);
        }
    }
    None
}

/// Copies at most so many bytes of a content from a place on.
pub(crate) fn copy_piece(content: &[u8], from: u64, most: usize, into: &mut [u8]) -> usize
    requires { most ≤ length into.old }
    ensures count { result ≡ min (length (drop from content.now)) most }
    ensures bytes { into.new ≡ take result (drop from content.now) ++ drop result into.old }
{
    if from >= content.len() as u64 {
        return 0;
    }
    let rest = &content[from as usize..];
    let n = rest.len().min(most);
    into[..n].copy_from_slice(&rest[..n]);
    n
}
