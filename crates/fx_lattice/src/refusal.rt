ghost use Rattle.std.specs.Prelude.{◌≡◌};
ghost use Rattle.fx_lattice.specs.declared.refusal.Step.TheVariants.{NoMemory};

use fx_nums::Iv;
use std::alloc::AllocError;

/// Why step-down gives no lattice. The first number is the step's, from the order down to 1.
#[derive(Clone, Copy)]
pub enum Step {
    /// The enclosure of this step's reflection coefficient does not lie strictly between -1 and 1.
    NotBelowOne(u8, Iv),
    /// In this step an enclosure does not fit 88 bits, or a divisor may be 0.
    Range(u8),
    /// Memory was refused.
    NoMemory,
}

impl From<AllocError> for Step {
    ghost from_gives = { λ _ e. e ≡ NoMemory };

    fn from(_e: AllocError) -> Step {
        Step::NoMemory
    }
}
