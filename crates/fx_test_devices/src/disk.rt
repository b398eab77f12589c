//! Real files and standard output: names of every kind, files that change while they are read, and placing whole.
use crate::forms::pass_on;
use fx_io::{DiskShelf, IoFault, Shelf, StdoutSink};
use std::alloc::{AllocError, Global};
use std::fs;
use std::os::unix::fs::{PermissionsExt, symlink};
use std::test::Fail;

// So many bytes, of which no clause says anything.
fn bytes_of(alloc: Global, count: usize) -> Result<Vec<u8>, AllocError> {
    Ok(vec![in alloc; 7u8; count]?)
}

#[test]
fn disk_and_output_are_reached(rt: HostRuntime) -> Result<(), Fail> {
    let mut shelf = DiskShelf::new(rt.alloc(), &rt);
    let mut out = StdoutSink::new(&rt);
    shelf.place("f", b"signal\n")?;
    assert!(rt; matches!(pass_on(&mut shelf, &mut out, "f"), Ok(4)));
    let mut buffer = [0u8; 8];
    assert!(rt; matches!(shelf.read_at("copy", 2, &mut buffer), Ok(2)));
    assert_eq!(rt; &buffer[..2], b"na".as_slice());
    assert!(rt; matches!(shelf.read_at("f", 7, &mut buffer), Ok(0)));
    shelf.place("f", b"")?;
    assert!(rt; matches!(shelf.read_at("f", 0, &mut buffer), Ok(0)));
    // A name that is not there, a folder, and a file whose first bytes nobody can read.
    for name in ["absent", "/", "/proc/self/mem"] {
        assert!(rt; matches!(shelf.read_at(name, 0, &mut buffer), Err(IoFault::Failed)));
    }
    for name in ["/", "absent/f", "f/f"] {
        assert!(rt; matches!(shelf.place(name, b"signal"), Err(IoFault::Failed)));
    }
    fs::remove_file(&rt, "f")?;
    fs::remove_file(&rt, "copy")?;
    Ok(())
}

#[test]
fn long_contents_are_placed_whole(rt: HostRuntime) -> Result<(), Fail> {
    let mut shelf = DiskShelf::new(rt.alloc(), &rt);
    let content = bytes_of(rt.alloc(), 200_000)?;
    let mut buffer = bytes_of(rt.alloc(), 200_001)?;
    shelf.place("long", &content)?;
    assert!(rt; matches!(shelf.read_at("long", 0, &mut buffer), Ok(200_000)));
    assert!(rt; buffer.starts_with(&content));
    fs::remove_file(&rt, "long")?;
    Ok(())
}

#[test]
fn pieces_in_order_are_of_one_file(rt: HostRuntime) -> Result<(), Fail> {
    let mut shelf = DiskShelf::new(rt.alloc(), &rt);
    let mut buffer = [0u8; 3];
    shelf.place("pieces", b"signal")?;
    assert!(rt; matches!(shelf.read_at("pieces", 0, &mut buffer), Ok(3)));
    // The name is another file's now, and then nobody's.
    shelf.place("pieces", b"SIGNAL")?;
    fs::remove_file(&rt, "pieces")?;
    assert!(rt; matches!(shelf.read_at("pieces", 3, &mut buffer), Ok(3)));
    assert_eq!(rt; buffer.as_slice(), b"nal".as_slice());
    assert!(rt; matches!(shelf.read_at("pieces", 6, &mut buffer), Ok(0)));
    // A piece out of order, and a first one, are of the file that has the name.
    assert!(rt;
        matches!(
            shelf.read_at("pieces", 3, &mut buffer),
            Err(IoFault::Failed)
        )
    );
    shelf.place("pieces", b"SIGNAL")?;
    assert!(rt; matches!(shelf.read_at("pieces", 3, &mut buffer), Ok(3)));
    assert_eq!(rt; buffer.as_slice(), b"NAL".as_slice());
    assert!(rt; matches!(shelf.read_at("pieces", 0, &mut buffer), Ok(3)));
    assert_eq!(rt; buffer.as_slice(), b"SIG".as_slice());
    fs::remove_file(&rt, "pieces")?;
    Ok(())
}

#[test]
fn links_and_devices_stay_what_they_are(rt: HostRuntime) -> Result<(), Fail> {
    let mut shelf = DiskShelf::new(rt.alloc(), &rt);
    shelf.place("/dev/null", b"signal")?;
    assert!(rt; !fs::symlink_metadata(&rt, "/dev/null")?.is_file());
    symlink(&rt, "behind", "link")?;
    for content in [b"signal", b"SIGNAL"] {
        shelf.place("link", content)?;
        assert!(rt; fs::symlink_metadata(&rt, "link")?.is_symlink());
        let mut buffer = [0u8; 6];
        assert!(rt; matches!(shelf.read_at("behind", 0, &mut buffer), Ok(6)));
        assert_eq!(rt; buffer.as_slice(), content.as_slice());
    }
    fs::hard_link(&rt, "behind", "other")?;
    shelf.place("other", b"both")?;
    let mut buffer = [0u8; 6];
    assert!(rt; matches!(shelf.read_at("behind", 0, &mut buffer), Ok(4)));
    for name in ["link", "behind", "other"] {
        fs::remove_file(&rt, name)?;
    }
    Ok(())
}

#[test]
fn files_beside_are_left_alone(rt: HostRuntime) -> Result<(), Fail> {
    let mut shelf = DiskShelf::new(rt.alloc(), &rt);
    fs::write(&rt, "beside", "older")?;
    fs::set_permissions(&rt, "beside", fs::Permissions::from_mode(0o640))?;
    fs::write(&rt, "beside.part0", "a user's")?;
    shelf.place("beside", b"signal")?;
    assert_eq!(rt;
        fs::metadata(&rt, "beside")?.permissions().mode() & 0o777,
        0o640
    );
    assert_eq!(rt; fs::metadata(&rt, "beside.part0")?.len(), 8);
    assert!(rt; !fs::exists(&rt, "beside.part1")?);
    fs::remove_file(&rt, "beside")?;
    fs::remove_file(&rt, "beside.part0")?;
    Ok(())
}
