ghost use Rattle.std.specs.Prelude.{◌≡◌, ◌^◌, ◌<◌, IfOk, replicate, unsigned_abs};
ghost use Rattle.fx_nums.specs.Arithmetic.{multiple};
ghost use Rattle.fx_nums.specs.Fraction.{den_value, zero_fraction};
ghost use Rattle.fx_nums.specs.Products.{IsRoundedProduct};

use crate::ratio::{Ratio, is_small};
use crate::span::Span;
use fx_nums::{FACTOR_BITS, Frac};
use std::alloc::{AllocError, Global};

/// The ratios of the coefficients of a table, each at the place of its coefficient.
///
/// A ratio is made where its coefficient is first met, and anew where another one is met at its place.
#[derive(Drop)]
pub struct Ratios {
    at: Vec<Ratio>,
}

impl Ratios {
    /// Room for the ratios of so many places, with the ratio of 0 at each. Its error is want of memory.
    pub fn new(alloc: Global, places: usize) -> Result<Ratios, AllocError>
        ensures { IfOk result (λ ratios. ratios.at.items ≡ replicate places zero_fraction) }
    {
        Ok(Ratios {
            at: vec![in alloc; Ratio::new(Frac::zero()); places]?,
        })
    }

    // The ratio of the coefficient at a place, made anew where another one is kept there.
    fn ratio(&mut self, place: usize, coef: Frac) -> Ratio
        ensures { result ≡ coef }
    {
        if place >= self.at.len() {
            return Ratio::new(coef);
        }
        let there = self.at[place];
        if there.fraction() == coef {
            return there;
        }
        let ratio = Ratio::new(coef);
        self.at[place] = ratio;
        ratio
    }

    // The product where its coefficient is not kept, or its number is wide.
    #[inline(never)]
    fn any_multiple(&mut self, place: usize, w: i128, coef: Frac) -> Span
        requires { unsigned_abs w < 2 ^ FACTOR_BITS }
        ensures ends { result ≡ multiple w coef }
        ensures rounded { IsRoundedProduct w coef.num (den_value coef.den) result.lo result.hi }
    {
        self.ratio(place, coef).multiple(w)
    }

    /// The product of `w / 2^64` with the coefficient at a place, rounded outward: what `Iv::multiple` answers. Only
    /// where the coefficient is new at its place, or there is no room for it, does this take a division.
    /// `w` is below 2^`FACTOR_BITS` in magnitude.
    #[inline(always)]
    pub fn multiple(&mut self, place: usize, w: i128, coef: Frac) -> Span
        requires { unsigned_abs w < 2 ^ FACTOR_BITS }
        ensures ends { result ≡ multiple w coef }
        ensures rounded { IsRoundedProduct w coef.num (den_value coef.den) result.lo result.hi }
    {
        if place < self.at.len() && is_small(w) {
            let kept = self.at[place];
            if kept.fraction() == coef {
                return kept.small_multiple(w);
            }
        }
        self.any_multiple(place, w, coef)
    }
}
