//! Numbers of so many bits, and what is left of a number in them.

ghost use Rattle.std.specs.Prelude.{
  ◌≡◌,
  ◌+◌,
  ◌-◌,
  ◌^◌,
  ◌<◌,
  ◌≤◌,
  pos,
  neg_ℤ,
  ◌*ℤ◌,
  ◌≤ℤ◌,
  ◌<ℤ◌,
  nat_le,
  unsigned_abs,
};
ghost use Rattle.fx_math.specs.Division.{floor_div};
ghost use Rattle.fx_math.specs.Residue.{wrap};
ghost use Rattle.fx_machine.specs.Prepared.{half_of, is_beyond, is_outside};

use fx_code::LONGEST_SHIFT;

// The low bits of a number, read as signed, and whether they are not the number.
#[derive(Clone, Copy)]
pub struct Reading {
    pub value: i64,
    pub lost: bool,
}

// Half of the numbers of so many bits.
pub fn half_64(bits: u8) -> u64
    requires low { 1 ≤ bits }
    requires high { bits ≤ 63 }
    ensures { result ≡ half_of bits }
{
    1u64 << (bits - 1)
}

// A number raised by a half and wrapped round: below twice the half exactly where so many bits hold it.
pub fn raised(z: i64, half: u64) -> u64
    requires { half ≤ 2 ^ 62 }
    ensures { nat_le (half + half) result ≡ is_beyond half z }
{
    z.cast_unsigned().wrapping_add(half)
}

// Whether a number is not one of those of which so many lie below 0 and as many from 0 on.
fn is_beyond(z: i64, half: u64) -> bool
    requires { half ≤ 2 ^ 62 }
    ensures { result ≡ is_beyond half z }
{
    raised(z, half) >= half + half
}

// A number divided by a power of two, rounded down.
pub fn floored(z: i64, shift: u8) -> i64
    requires { shift ≤ LONGEST_SHIFT }
    ensures { result ≡ floor_div z (2 ^ shift) }
{
    z >> shift
}

// The power of two with this exponent.
fn power_of_two(k: u8) -> i64
    requires { k ≤ LONGEST_SHIFT }
    ensures { result ≡ pos (2 ^ k) }
{
    1i64 << k
}

// A number shifted to the left.
fn shifted_64(z: i64, left: u8) -> i64
    requires left { left ≤ LONGEST_SHIFT }
    requires fits { unsigned_abs (z *ℤ pos (2 ^ left)) < 2 ^ 63 }
    ensures { result ≡ z *ℤ pos (2 ^ left) }
{
    z * power_of_two(left)
}

// A number without its low bits.
fn high_bits_64(z: i64, bits: u8) -> i64
    requires high { bits ≤ 61 }
    requires fits { unsigned_abs z ≤ 2 ^ 62 }
    ensures value { result ≡ floor_div z (2 ^ bits) *ℤ pos (2 ^ bits) }
    ensures bound { unsigned_abs result < 2 ^ 63 }
{
    shifted_64(floored(z, bits), bits)
}

// The low bits of a number, read as signed.
fn wrapped_64(z: i64, bits: u8) -> i64
    requires low { 1 ≤ bits }
    requires high { bits ≤ 61 }
    requires fits { unsigned_abs z ≤ 2 ^ 61 }
    ensures { result ≡ wrap bits z }
{
    z - high_bits_64(z + power_of_two(bits - 1), bits)
}

// Whether a number is not one of so many bits.
pub fn is_outside_128(z: i128, bits: u8) -> bool
    requires low { 1 ≤ bits }
    requires high { bits ≤ 64 }
    ensures { result ≡ is_outside bits z }
{
    let half = 1i128 << (bits - 1);
    z < -half || z >= half
}

// A number divided by a power of two, rounded down.
pub fn quotient(z: i128, bits: u8) -> i128
    requires { bits ≤ 64 }
    ensures { result ≡ floor_div z (2 ^ bits) }
{
    z >> bits
}

// A number shifted to the left.
fn shifted(z: i128, left: u8) -> i128
    requires left { left ≤ 64 }
    requires fits { unsigned_abs (z *ℤ pos (2 ^ left)) < 2 ^ 127 }
    ensures { result ≡ z *ℤ pos (2 ^ left) }
{
    z * (1i128 << left)
}

// A number without its low bits.
fn high_bits(z: i128, bits: u8) -> i128
    requires high { bits ≤ 64 }
    requires fits { unsigned_abs z ≤ 2 ^ 126 + 2 ^ 63 }
    ensures value { result ≡ floor_div z (2 ^ bits) *ℤ pos (2 ^ bits) }
    ensures bound { unsigned_abs result < 2 ^ 127 }
{
    shifted(quotient(z, bits), bits)
}

// Half of the numbers of so many bits.
fn half_128(bits: u8) -> i128
    requires low { 1 ≤ bits }
    requires high { bits ≤ 64 }
    ensures value { result ≡ pos (2 ^ (bits - 1)) }
    ensures bound { unsigned_abs result ≤ 2 ^ 63 }
{
    1i128 << (bits - 1)
}

// The number of so many bits that differs from z by a multiple of 2 to the power of the bits.
fn residue(z: i128, bits: u8) -> i128
    requires low { 1 ≤ bits }
    requires high { bits ≤ 64 }
    requires fits { unsigned_abs z ≤ 2 ^ 126 }
    ensures value { result ≡ wrap bits z }
    ensures below { neg_ℤ (pos (2 ^ 63)) ≤ℤ result }
    ensures above { result <ℤ pos (2 ^ 63) }
{
    z - high_bits(z + half_128(bits), bits)
}

// The low bits of a number, read as signed.
fn wrapped(z: i128, bits: u8) -> i64
    requires low { 1 ≤ bits }
    requires high { bits ≤ 64 }
    requires fits { unsigned_abs z ≤ 2 ^ 126 }
    ensures { result ≡ wrap bits z }
{
    residue(z, bits) as i64
}

// The low bits of a number of 62 bits.
pub fn read_62(z: i64, bits: u8) -> Reading
    requires low { 1 ≤ bits }
    requires high { bits ≤ 61 }
    requires fits { unsigned_abs z ≤ 2 ^ 61 }
    ensures value { result.value ≡ wrap bits z }
    ensures lost { result.lost ≡ is_outside bits z }
{
    let value = wrapped_64(z, bits);
    if value == z {
        return Reading { value, lost: false };
    }
    Reading { value, lost: true }
}

// The low bits of a number of 64 bits.
pub fn read_64(z: i64, half: u64, bits: u8) -> Reading
    requires low { 1 ≤ bits }
    requires high { bits ≤ 63 }
    requires half { half ≡ half_of bits }
    ensures value { result.value ≡ wrap bits z }
    ensures lost { result.lost ≡ is_outside bits z }
{
    if is_beyond(z, half) {
        return Reading {
            value: wrapped(i128::from(z), bits),
            lost: true,
        };
    }
    Reading {
        value: z,
        lost: false,
    }
}

// The low bits of a number of 128 bits.
pub fn read_128(z: i128, bits: u8) -> Reading
    requires low { 1 ≤ bits }
    requires high { bits ≤ 64 }
    requires fits { unsigned_abs z ≤ 2 ^ 126 }
    ensures value { result.value ≡ wrap bits z }
    ensures lost { result.lost ≡ is_outside bits z }
{
    if is_outside_128(z, bits) {
        return Reading {
            value: wrapped(z, bits),
            lost: true,
        };
    }
    Reading {
        value: z as i64,
        lost: false,
    }
}
