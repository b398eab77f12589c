ghost use Rattle.std.specs.Prelude.{◌≡◌};
ghost use Rattle.fx_tool.specs.Status.{number_of};

/// How a run ends.
#[derive(Clone, Copy)]
pub enum Status {
    /// The command's work is done.
    Done,
    /// The three files were read, and an inequality fails.
    Refused,
    /// The words are no command.
    Usage,
    /// The filter's bytes are refused.
    BadFilter,
    /// The code's bytes are refused.
    BadCode,
    /// The certificate's bytes are refused.
    BadCertificate,
    /// The sample bytes are refused.
    BadSamples,
    /// No listed design passes, or no listed length serves.
    NoDesign,
    /// A file is absent, or a read failed.
    ReadFault,
    /// A file could not be placed, or a write failed.
    WriteFault,
    /// A file is longer than its limit.
    TooLong,
    /// The structure cannot be had from the form.
    Unbuildable,
    /// Memory was refused.
    NoMemory,
}

/// The number that the program ends with where the words of its command line cannot be had as texts. No run ends so.
pub const NO_WORDS: u8 = 14;

impl Status {
    /// The number that the program ends with.
    pub fn number(self) -> u8
        ensures { result ≡ number_of self }
    {
        self as u8
    }
}
