//! The job of a number, with failing devices.
use crate::case::{Fault, run_on};
use crate::devices::first_put;
use crate::jobs::LARGE;
use fx_tool::Status;
use std::test::Fail;

#[test]
fn a_job_reads_and_places_nothing(rt: HostRuntime) -> Result<(), Fail> {
    let alloc = rt.alloc();
    let unused = [Fault::Read(1), Fault::Place(1), Fault::PutPiece(1)];
    assert!(rt; run_on(alloc, LARGE.words, LARGE.files, &unused)?.is(Status::Done, LARGE.text));
    Ok(())
}

#[test]
fn each_failed_put_of_a_job_leaves_the_bytes_before(rt: HostRuntime) -> Result<(), Fail> {
    let alloc = rt.alloc();
    assert_eq!(rt; first_put(alloc, &LARGE, 32)?, None);
    let none = [Fault::PutPiece(0)];
    assert!(rt; run_on(alloc, LARGE.words, LARGE.files, &none)?.is(Status::WriteFault, b""));
    Ok(())
}
