// The records of samples, by `csv`.

ghost use Rattle.std.specs.Prelude.{◌≡◌, ◌∷◌, [], true, false, IfOk, IfErr};
ghost use Rattle.csv.specs.Reading.{default_config, error_kind, records, stops_reader, strip_bom};
ghost use Rattle.csv.specs.Records.{fields_of};
ghost use Rattle.fx_sim.specs.Remaining.{Stands, records_left};
ghost use Rattle.fx_sim.specs.declared.fault.SampleFault.TheVariants.{NoMemory};

use crate::fault::SampleFault;
use csv::{ByteRecord, Error, ErrorKind, Reader, ReaderBuilder};
use std::alloc::Global;

// A reader of a text: no header, commas, quotes as by default, no trimming, records of any length.
pub fn text_reader(alloc: Global, text: &[u8]) -> Reader<&[u8]>
    ensures stands { Stands result }
    ensures records { records_left result ≡ records default_config (strip_bom text.now) }
{
    ReaderBuilder::new()
        .has_headers(false)
        .flexible(true)
        .from_reader(alloc, text)
}

// The fault that an error of `csv` stands for: bytes in memory are read, so that only memory is wanted.
fn fault_of(error: &Error) -> SampleFault
    requires { stops_reader (error_kind error.now) ≡ true }
    ensures { result ≡ NoMemory }
{
    match error.kind() {
        ErrorKind::Io(_) | ErrorKind::OutOfMemory => SampleFault::NoMemory,
        _ => unreachable!(),
    }
}

// The next record into `row`, and whether there was one.
pub fn next_record(reader: &mut Reader<&[u8]>, row: &mut ByteRecord) -> Result<bool, SampleFault>
    requires { Stands reader.old }
    ensures stands { IfOk result (λ found. found ≡ true → Stands reader.new) }
    ensures found { IfOk result (λ found. found ≡ true →
        records_left reader.old ≡ fields_of row.new ∷ records_left reader.new) }
    ensures none { IfOk result (λ found. found ≡ false → records_left reader.old ≡ []) }
    ensures memory { IfErr result (λ e. e ≡ NoMemory) }
{
    match reader.read_byte_record(row) {
        Ok(found) => Ok(found),
        Err(error) => Err(fault_of(&error)),
    }
}
