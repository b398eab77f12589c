//! Each call of the shelves and the outputs in memory, once through the traits alone.
ghost use Rattle.std.specs.Prelude.{IsTrue};

use fx_io::{IoFault, MemShelf, MemSink, Shelf, Sink, SureShelf, SureSink};
use std::test::Fail;

/// Reads four bytes of a file from place 1 on, places what was read as `copy`, and puts it.
pub fn pass_on<S: Shelf, K: Sink>(shelf: &mut S, out: &mut K, name: &str) -> Result<usize, IoFault>
    requires { IsTrue ((S.seen shelf.old).readable name.now) }
{
    let mut buffer = [0u8; 4];
    let n = shelf.read_at(name, 1, &mut buffer)?;
    let piece = &buffer[..n];
    shelf.place("copy", piece)?;
    if piece.is_empty() {
        return Ok(0);
    }
    out.put(piece)
}

#[test]
fn memory_reads_places_and_puts(rt: HostRuntime) -> Result<(), Fail> {
    let mut shelf = MemShelf::new(rt.alloc())?;
    let mut out = MemSink::new(rt.alloc())?;
    shelf.add("f", b"older")?;
    shelf.add("f", b"signal")?;
    assert!(rt; matches!(pass_on(&mut shelf, &mut out, "f"), Ok(4)));
    assert_eq!(rt; out.bytes(), b"igna".as_slice());

    let mut buffer = [0u8; 8];
    assert!(rt; matches!(shelf.read_at("copy", 0, &mut buffer), Ok(4)));
    assert_eq!(rt; buffer.as_slice(), b"igna\0\0\0\0".as_slice());
    assert!(rt; matches!(shelf.read_at("f", 6, &mut buffer), Ok(0)));
    assert!(rt;
        matches!(
            shelf.read_at("absent", 0, &mut buffer),
            Err(IoFault::Failed)
        )
    );
    Ok(())
}

#[test]
fn listed_calls_fail(rt: HostRuntime) -> Result<(), Fail> {
    let mut shelf = MemShelf::new(rt.alloc())?;
    let mut out = MemSink::new(rt.alloc())?;
    shelf.add("f", b"signal")?;
    shelf.fail_read(2)?;
    shelf.fail_place(2)?;
    out.fail_put(2)?;
    assert!(rt; matches!(pass_on(&mut shelf, &mut out, "f"), Ok(4)));
    for name in ["f", "copy", "f"] {
        assert!(rt; matches!(pass_on(&mut shelf, &mut out, name), Err(IoFault::Failed)));
    }
    assert_eq!(rt; out.bytes(), b"igna".as_slice());
    Ok(())
}

#[test]
fn pieces_bound_reads_and_writes(rt: HostRuntime) -> Result<(), Fail> {
    let mut shelf = MemShelf::new(rt.alloc())?;
    let mut out = MemSink::new(rt.alloc())?;
    shelf.add("f", b"signal")?;
    shelf.piece(2);
    assert!(rt; matches!(pass_on(&mut shelf, &mut out, "f"), Ok(2)));
    out.piece(1);
    assert!(rt; matches!(pass_on(&mut shelf, &mut out, "f"), Ok(1)));
    out.piece(0);
    assert!(rt; matches!(pass_on(&mut shelf, &mut out, "f"), Ok(0)));
    assert_eq!(rt; out.bytes(), b"igi".as_slice());
    Ok(())
}

#[test]
fn sure_forms_do_each_call(rt: HostRuntime) -> Result<(), Fail> {
    let mut shelf = SureShelf::new(rt.alloc())?;
    let mut out = SureSink::new(rt.alloc())?;
    shelf.add("f", b"signal")?;
    assert!(rt; matches!(pass_on(&mut shelf, &mut out, "f"), Ok(4)));
    assert_eq!(rt; out.bytes(), b"igna".as_slice());
    Ok(())
}
