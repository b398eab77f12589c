// Placing a file of the disk whole: a new file beside it is written, and renamed over it.
ghost use Rattle.std.specs.Prelude.{OnOk};
ghost use Rattle.std.specs.Io.KnownBytes.{Appends};

use std::alloc::Global;
use std::fs::{File, OpenFile, OpenOptions, Permissions};
use std::io::{ErrorKind, Write};
use std::os::unix::fs::MetadataExt;
use std::rt::Files;
use std::{fs, io};

// How many names are tried for the new file.
const NAMES: u32 = 10_000;

/// What stands at a name.
enum Standing {
    Nothing,
    /// A plain file with no other name.
    Plain(Permissions),
    /// A link, a pipe, a device, a folder, a file of several names, or what nobody can tell.
    Other,
}

fn at_name<R: Files>(rt: &R, name: &str) -> Standing {
    match fs::symlink_metadata(rt, name) {
        Ok(found) if found.is_file() && found.nlink() <= 1 => Standing::Plain(found.permissions()),
        Err(error) if error.kind() == ErrorKind::NotFound => Standing::Nothing,
        _ => Standing::Other,
    }
}

/// Writes all of the bytes: a short write goes on, and one that a signal interrupted is made again.
pub(crate) fn write_whole<W: Write>(file: &mut W, bytes: &[u8]) -> io::Result<()>
    ensures { OnOk result (Appends (W.contents file.old) (W.contents file.new) bytes.now) }
{
    file.write_all(bytes)
}

/// A new file beside another.
#[derive(Drop)]
struct Beside<F> {
    name: String,
    file: F,
}

// Makes a file of a name that was free.
fn open_beside<R: Files>(alloc: Global, rt: &R, name: &str) -> io::Result<Beside<R::File>> {
    for turn in 0..NAMES {
        let name = format!(in alloc; "{name}.part{turn}")?;
        match File::create_new(rt, name.as_str()) {
            Ok(file) => return Ok(Beside { name, file }),
            Err(error) if error.kind() == ErrorKind::AlreadyExists => {}
            Err(error) => return Err(error),
        }
    }
    Err(ErrorKind::AlreadyExists.into())
}

// Fills a new file, so that all of it stands on the disk.
fn fill<F: Write + OpenFile>(
    file: &mut F,
    bytes: &[u8],
    permissions: Option<Permissions>,
) -> io::Result<()>
    ensures { OnOk result (Appends (F.contents file.old) (F.contents file.new) bytes.now) }
{
    write_whole(file, bytes)?;
    if let Some(permissions) = permissions {
        file.set_permissions(permissions)?;
    }
    file.sync_all()
}

// Replaces what stands at a name, or leaves it as it was and no file beside it.
fn replace<R: Files>(
    alloc: Global,
    rt: &R,
    name: &str,
    bytes: &[u8],
    permissions: Option<Permissions>,
) -> io::Result<()> {
    let mut new = open_beside(alloc, rt, name)?;
    let mut done = fill(&mut new.file, bytes, permissions);
    if done.is_ok() {
        done = fs::rename(rt, new.name.as_str(), name);
    }
    if done.is_err() {
        let _ = fs::remove_file(rt, new.name.as_str());
    }
    done
}

// Whether a folder refused a new file or its new name, so that only a file that is there may be written.
fn is_of_the_folder(kind: ErrorKind) -> bool {
    matches!(
        kind,
        ErrorKind::PermissionDenied | ErrorKind::ReadOnlyFilesystem | ErrorKind::InvalidFilename
    )
}

/// Places a file whole, and says whether it did: else nothing was changed, and what stands at the name has to be written
/// in place.
pub(crate) fn place_whole<R: Files>(
    alloc: Global,
    rt: &R,
    name: &str,
    bytes: &[u8],
) -> io::Result<bool> {
    let permissions = match at_name(rt, name) {
        Standing::Nothing => None,
        Standing::Plain(permissions) => {
            // A file that may not be written stays.
            OpenOptions::new().write(true).open(rt, name)?;
            Some(permissions)
        }
        Standing::Other => return Ok(false),
    };
    match replace(alloc, rt, name, bytes, permissions) {
        Ok(()) => Ok(true),
        Err(error) if is_of_the_folder(error.kind()) => Ok(false),
        Err(error) => Err(error),
    }
}
