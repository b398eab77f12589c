//! Certificates: how long a block is, the bound of each row and the error of each output, as a text that is read and
//! written exactly.
#![tactic(auto)]

mod cert;
mod fault;
mod limits;
mod lines;
mod numbers;
mod reader;
mod writer;

pub use cert::{Cert, certificates_fit};
pub use fault::CertFault;
pub use limits::{
    GREATEST_ERROR, GREATEST_LENGTH, GREATEST_OUTPUTS, GREATEST_ROWS, GREATEST_TEXT, LEAST_LENGTH,
    limits_are_these,
};
pub use lines::lines_make_their_text;
pub use numbers::numbers_are_read_exactly;
pub use reader::{
    certificate_is_read_exactly, fault_is_the_first, read_cert, text_has_one_certificate,
};
pub use writer::{write_cert, written_certificate_is_read};
