//! The files that commands read.
ghost use Rattle.std.specs.Prelude.{◌≡◌};
ghost use Rattle.fx_words.specs.Operand.{limit_of};

/// The most bytes of a filter, of code or of a certificate.
pub const LONGEST_FILE: usize = 1_048_576;

/// The most bytes of samples.
pub const LONGEST_SAMPLES: usize = 16_777_216;

/// A file that a command reads.
#[derive(Clone, Copy)]
pub enum Operand {
    /// A filter.
    Filter,
    /// A program.
    Code,
    /// A certificate.
    Certificate,
    /// Samples.
    Samples,
}

impl Operand {
    /// The most bytes that the file may have.
    pub fn limit(self) -> usize
        ensures { result ≡ limit_of self }
    {
        match self {
            Operand::Filter | Operand::Code | Operand::Certificate => LONGEST_FILE,
            Operand::Samples => LONGEST_SAMPLES,
        }
    }
}
