//! Checksums of 64 bits.

ghost use Rattle.std.specs.Prelude.{◌≡◌};
ghost use Rattle.fx_bench.specs.Checksum.{mixed};

/// A checksum, and a number behind it.
#[inline]
pub fn mixed(sum: u64, number: u64) -> u64
    ensures { result ≡ mixed sum number }
{
    sum.wrapping_mul(31).wrapping_add(number)
}
