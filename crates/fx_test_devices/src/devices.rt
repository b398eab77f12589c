//! Devices that fail, and pieces.
use crate::case::{Fault, run_on};
use crate::jobs::{CHECK, JOBS, Job, MAKE};
use fx_tool::Status;
use std::alloc::{AllocError, Global};
use std::test::Fail;

// The number of the first read whose failure ends otherwise than with 8 and no text, among so many; the run makes no
// later one.
fn first_read(
    alloc: Global,
    job: &Job<'_>,
    piece: usize,
    reads: u64,
) -> Result<Option<u64>, AllocError> {
    for call in 1..=reads {
        let faults = [Fault::ReadPiece(piece), Fault::Read(call)];
        if !run_on(alloc, job.words, job.files, &faults)?.is(Status::ReadFault, b"") {
            return Ok(Some(call));
        }
    }
    let faults = [
        Fault::ReadPiece(piece),
        Fault::Read(reads.saturating_add(1)),
    ];
    let ended = run_on(alloc, job.words, job.files, &faults)?;
    Ok(if ended.is(Status::Done, job.text) {
        None
    } else {
        Some(reads.saturating_add(1))
    })
}

// How many reads give the files of a job, each in pieces of one byte and one read more.
fn reads_of_bytes(job: &Job<'_>) -> u64 {
    let mut reads: u64 = 0;
    for (_, bytes) in job.files {
        reads = reads.saturating_add(bytes.len() as u64).saturating_add(1);
    }
    reads
}

#[test]
fn each_failed_read_ends_the_run(rt: HostRuntime) -> Result<(), Fail> {
    for job in &JOBS {
        let whole = (job.files.len() as u64).saturating_mul(2);
        assert_eq!(rt; first_read(rt.alloc(), job, 65_536, whole)?, None);
    }
    let bytes = reads_of_bytes(&CHECK);
    assert_eq!(rt; first_read(rt.alloc(), &CHECK, 1, bytes)?, None);
    Ok(())
}

/// The count of bytes before the first write of one piece whose failure leaves otherwise than 9 and these bytes.
pub fn first_put(alloc: Global, job: &Job<'_>, piece: usize) -> Result<Option<usize>, AllocError> {
    let piece = piece.max(1);
    let mut puts: u64 = 0;
    for before in 0..job.text.len() {
        if before % piece == 0 {
            puts = puts.saturating_add(1);
            let faults = [Fault::PutPiece(piece), Fault::Put(puts)];
            let ended = run_on(alloc, job.words, job.files, &faults)?;
            if !ended.is(Status::WriteFault, &job.text[..before]) {
                return Ok(Some(before));
            }
        }
    }
    let faults = [Fault::PutPiece(piece), Fault::Put(puts.saturating_add(1))];
    let ended = run_on(alloc, job.words, job.files, &faults)?;
    Ok(if ended.is(Status::Done, job.text) {
        None
    } else {
        Some(job.text.len())
    })
}

#[test]
fn each_failed_put_leaves_the_bytes_before(rt: HostRuntime) -> Result<(), Fail> {
    assert_eq!(rt; CHECK.text.len(), 29);
    for job in &JOBS {
        assert_eq!(rt; first_put(rt.alloc(), job, 1)?, None);
    }
    Ok(())
}

#[test]
fn an_output_that_takes_no_byte_has_failed(rt: HostRuntime) -> Result<(), Fail> {
    for job in &JOBS {
        let ended = run_on(rt.alloc(), job.words, job.files, &[Fault::PutPiece(0)])?;
        assert!(rt; ended.is(Status::WriteFault, b""));
    }
    Ok(())
}

#[test]
fn placed_files_stay(rt: HostRuntime) -> Result<(), Fail> {
    let alloc = rt.alloc();
    for job in &JOBS {
        let ended = &mut run_on(alloc, job.words, job.files, &[])?;
        assert!(rt; ended.is(Status::Done, job.text));
        for file in job.placed {
            assert!(rt; ended.holds(alloc, file)?);
        }
    }
    // Where the first placing fails, none stands; where the second does, or the output, the code does.
    for (fault, code, cert) in [
        (Fault::Place(1), false, false),
        (Fault::Place(2), true, false),
        (Fault::Put(1), true, true),
    ] {
        let ended = &mut run_on(alloc, MAKE.words, MAKE.files, &[fault])?;
        assert!(rt; ended.is(Status::WriteFault, b""));
        assert_eq!(rt; ended.holds(alloc, &MAKE.placed[0])?, code);
        assert_eq!(rt; ended.holds(alloc, &MAKE.placed[1])?, cert);
    }
    let faults = [Fault::Place(3)];
    assert!(rt; run_on(alloc, MAKE.words, MAKE.files, &faults)?.is(Status::Done, MAKE.text));
    Ok(())
}
