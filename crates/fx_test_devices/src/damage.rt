//! Files that are cut, and faults of files beside faults of devices.
use crate::case::{Case, Fault, File, first_wrong, run_on};
use crate::jobs::{CHECK, GAIN, HALF, HALF_CERT, HALF_CODE, Job, MAKE, REPORT, SHOW, SIMULATE};
use fx_tool::Status;
use std::alloc::{AllocError, Global};
use std::test::Fail;

// The files of a job, where the one of this name has another content.
fn files_with<'a>(
    alloc: Global,
    job: &Job<'a>,
    name: &str,
    content: &'a [u8],
) -> Result<Vec<File<'a>>, AllocError> {
    let mut files = Vec::new(alloc);
    for (other, bytes) in job.files {
        let held = if *other == name { content } else { *bytes };
        files.push((*other, held))?;
    }
    Ok(files)
}

// What becomes of a file that is cut: the status at some lengths, and that at each other one.
struct Cut<'a> {
    name: &'a str,
    content: &'a [u8],
    taken: &'a [(usize, Status)],
    refused: Status,
}

// A certificate is none.
const CERTIFICATE: Cut<'static> = Cut {
    name: "k",
    content: HALF_CERT,
    taken: &[],
    refused: Status::BadCertificate,
};

// Code is whole without its last line feed.
const CODE: Cut<'static> = Cut {
    name: "c",
    content: HALF_CODE,
    taken: &[(137, Status::Done)],
    refused: Status::BadCode,
};

// A filter is whole without its last line feed; without its last line, its accumulator has 64 bits.
const FILTER: Cut<'static> = Cut {
    name: "f",
    content: HALF,
    taken: &[
        (112, Status::Done),
        (113, Status::Done),
        (129, Status::Done),
    ],
    refused: Status::BadFilter,
};

// The same where code for 32 bits is judged.
const JUDGED_FILTER: Cut<'static> = Cut {
    name: "f",
    content: HALF,
    taken: &[
        (112, Status::Refused),
        (113, Status::Refused),
        (129, Status::Done),
    ],
    refused: Status::BadFilter,
};

impl Cut<'_> {
    // The status that is wanted with so many bytes.
    fn wanted(&self, length: usize) -> Status {
        for (taken, status) in self.taken {
            if *taken == length {
                return *status;
            }
        }
        self.refused
    }

    // The first of the lengths below that of the content at which a job ends otherwise.
    fn first_wrong(&self, alloc: Global, job: &Job<'_>) -> Result<Option<usize>, AllocError> {
        for length in 0..self.content.len() {
            let files = files_with(alloc, job, self.name, &self.content[..length])?;
            if !run_on(alloc, job.words, &files, &[])?.ended(self.wanted(length)) {
                return Ok(Some(length));
            }
        }
        Ok(None)
    }
}

#[test]
fn cut_files_are_refused(rt: HostRuntime) -> Result<(), Fail> {
    let alloc = rt.alloc();
    for job in &[CHECK, REPORT] {
        assert_eq!(rt; CERTIFICATE.first_wrong(alloc, job)?, None);
        assert_eq!(rt; CODE.first_wrong(alloc, job)?, None);
        assert_eq!(rt; JUDGED_FILTER.first_wrong(alloc, job)?, None);
    }
    assert_eq!(rt; CODE.first_wrong(alloc, &SIMULATE)?, None);
    for job in &[MAKE, SHOW, GAIN] {
        assert_eq!(rt; FILTER.first_wrong(alloc, job)?, None);
    }
    Ok(())
}

// A sum of all inputs, whose gain has no end.
const SUM: &[u8] =
    b"form = \"tf\"\nb = [\"1\"]\na = [\"1\", \"-1\"]\naccumulator = 64\nguards = [0]\n\
      fractions = [14]\nlengths = [64]\ninputs = [{ width = 16, bound = 100 }]\n\
      outputs = [{ width = 16, error = \"1\" }]\n";

// Poles on the unit circle.
const CIRCLE: &[u8] = b"form = \"tf\"\nstructure = \"lattice\"\nb = [\"1\"]\na = [\"1\", \"1\"]\n\
      inputs = [{ width = 16, bound = 100 }]\noutputs = [{ width = 16, error = \"1\" }]\n";

#[test]
fn faults_of_files_and_of_devices_meet(rt: HostRuntime) -> Result<(), Fail> {
    let table: [Case<'_>; 7] = [
        Case {
            name: "a filter that is none, and then no file",
            words: CHECK.words,
            files: &[("f", b"x")],
            faults: &[Fault::ReadPiece(1)],
            status: Status::BadFilter,
            text: b"bad filter not toml\n",
        },
        Case {
            name: "a refusal of which five bytes are put",
            words: CHECK.words,
            files: &[("f", HALF), ("c", b"@")],
            faults: &[Fault::PutPiece(5), Fault::Put(2)],
            status: Status::WriteFault,
            text: b"bad c",
        },
        Case {
            name: "no design, and an output that takes nothing",
            words: MAKE.words,
            files: &[("f", SUM)],
            faults: &[Fault::PutPiece(0)],
            status: Status::WriteFault,
            text: b"",
        },
        Case {
            name: "no structure, and a shelf that would place nothing",
            words: MAKE.words,
            files: &[("f", CIRCLE)],
            faults: &[Fault::Place(1)],
            status: Status::Unbuildable,
            text: b"unbuildable not below one 1 18446744073709551616 18446744073709551616\n",
        },
        Case {
            name: "no length serves, and the second write fails",
            words: GAIN.words,
            files: &[("f", SUM)],
            faults: &[Fault::PutPiece(3), Fault::Put(2)],
            status: Status::WriteFault,
            text: b"no ",
        },
        Case {
            name: "samples that are none, in pieces",
            words: SIMULATE.words,
            files: &[("c", HALF_CODE), ("s", b"1,2\n")],
            faults: &[Fault::ReadPiece(3), Fault::PutPiece(1)],
            status: Status::BadSamples,
            text: b"bad samples columns 1 2 1\n",
        },
        Case {
            name: "words that are no command",
            words: &["fixif", "check", "f"],
            files: &[],
            faults: &[Fault::Read(1), Fault::Put(1)],
            status: Status::WriteFault,
            text: b"",
        },
    ];
    assert_eq!(rt; first_wrong(rt.alloc(), &table)?, None);
    Ok(())
}
