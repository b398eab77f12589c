//! Small nets.
ghost use Rattle.std.specs.Prelude.{◌≤◌};

use fx_net::Net;
use fx_nums::{Den, Frac};
use fx_sweep::Target;
use std::alloc::{AllocError, Global};

/// A fraction over a power of ten; 0 where it is out of range.
pub fn over_ten(num: i64, places: u8) -> Frac {
    Frac::new(num, Den::Ten(places)).unwrap_or(Frac::zero())
}

/// A fraction over a power of two; 0 where it is out of range.
pub fn over_two(num: i64, places: u8) -> Frac {
    Frac::new(num, Den::Two(places)).unwrap_or(Frac::zero())
}

/// A recursion of the first order, rounded once, and the same with its own coefficient and not rounded.
pub fn rounded_and_not(alloc: Global, code: Frac, original: Frac) -> Result<Net<2>, AllocError> {
    let mut net: Net<2> = Net::new(alloc)?;
    net.set_old(0, 0, code);
    net.set_in(0, 0, Frac::one());
    net.set_halves(0, 1);
    net.set_old(1, 1, original);
    net.set_in(1, 0, Frac::one());
    Ok(net)
}

/// How far the two are apart.
pub const DIFFERENCE: Target = Target::Pair {
    code: 0,
    original: 1,
    shift: 0,
};

/// Both, and how far they are apart.
pub const BOTH_AND_DIFFERENCE: [Target; 3] = [Target::Row(0), Target::Row(1), DIFFERENCE];

// A chain of the last inputs in rows `first` to `first + 2`, and their mean with the input in the row after them.
fn put_mean(net: &mut Net<8>, first: usize, quarter: Frac)
    requires { first ≤ 4 }
{
    net.set_in(first, 0, Frac::one());
    net.set_old(first + 1, first, Frac::one());
    net.set_old(first + 2, first + 1, Frac::one());
    net.set_in(first + 3, 0, quarter);
    net.set_old(first + 3, first, quarter);
    net.set_old(first + 3, first + 1, quarter);
    net.set_old(first + 3, first + 2, quarter);
}

/// The mean of four inputs, rounded once in row 3, and the same not rounded in row 7.
pub fn means(alloc: Global) -> Result<Net<8>, AllocError> {
    let mut net: Net<8> = Net::new(alloc)?;
    put_mean(&mut net, 0, over_two(1, 2));
    net.set_halves(3, 1);
    put_mean(&mut net, 4, over_two(1, 2));
    Ok(net)
}

/// The first direct form of y(k) = u(k) + y(k-1) / 2 as integer code in rows 0 to 2, and its equation in row 3.
pub fn one_pole(alloc: Global) -> Result<Net<4>, AllocError> {
    let mut net: Net<4> = Net::new(alloc)?;
    net.set_old(0, 1, over_two(1, 1));
    net.set_in(0, 0, over_two(2, 1));
    net.set_halves(0, 1);
    net.set_now(1, 0, Frac::one());
    net.set_now(2, 0, Frac::one());
    net.set_old(3, 3, over_two(1, 1));
    net.set_in(3, 0, Frac::one());
    Ok(net)
}
