//! Certificates with numbers at the ends of their ranges.
use fx_cert::{Cert, write_cert};
use std::test::Fail;

const EDGES: &[u8] =
    b"fixif certificate 1\nlength 4096\nrows 1\nX 2147483647\noutputs 2\nE 79228162514264337593543950335\nE 0\nend\n";

#[test]
fn edges_are_built_copied_and_written(rt: HostRuntime) -> Result<(), Fail> {
    let errors = [79228162514264337593543950335, 0];
    let built = Cert::build(rt.alloc(), 4096, &[2147483647], &errors)?;
    let certificate = built.copy(rt.alloc())?;
    assert_eq!(rt; certificate.length(), 4096);
    assert_eq!(rt; certificate.row_length(0), 4096);
    assert_eq!(rt; certificate.output_length(1), 4096);
    assert_eq!(rt; certificate.x(), [2147483647].as_slice());
    assert_eq!(rt; certificate.e(), errors.as_slice());
    let text = write_cert(rt.alloc(), &certificate)?;
    assert_eq!(rt; text.as_slice(), EDGES);
    Ok(())
}
