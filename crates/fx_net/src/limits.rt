ghost use Rattle.std.specs.Prelude.{◌≡◌};

/// The most rows of a net.
pub const LARGEST_NET: usize = 64;

/// The greatest class of a row: how many half steps its perturbation may have.
pub const GREATEST_CLASS: u8 = 2;

/// The numbers that the limits of a net are.
pub fn net_limits_are_these()
    ensures rows { LARGEST_NET ≡ 64 }
    ensures class { GREATEST_CLASS ≡ 2 }
{}
