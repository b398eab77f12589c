ghost use Rattle.std.specs.Prelude.{◌≡◌};

use fx_block::LengthWhy;
use std::marker::Model;

/// Why a listed length does not serve.
#[derive(Clone, Copy)]
pub struct LengthFail {
    /// The length, in moments.
    pub length: u16,
    /// The first input for whose words the bounds of the rows do not come to rest; 0 where a row meets a range.
    pub input: u8,
    /// What fails.
    pub why: LengthWhy,
}

/// The failure of each listed length, in the order of the lengths.
#[derive(Drop)]
pub struct LengthFails {
    pub(crate) items: Vec<LengthFail>,
}

impl Model for LengthFails {
    ghost use Rattle.std.specs.Prelude.{List};
    ghost use Rattle.fx_gain.specs.declared.fails.LengthFail.{LengthFail as AnyFail};

    ghost Value = { List AnyFail };

    ghost view = { λ f. f.items.items };
}

impl LengthFails {
    /// Them.
    pub fn list(&self) -> &[LengthFail]
        ensures { result.now ≡ self.now }
    {
        &self.items
    }
}

/// Why there are no peaks.
#[derive(Drop)]
pub enum PeakFault {
    /// No listed length serves.
    NoLength(LengthFails),
    /// Want of memory.
    NoMemory,
}
