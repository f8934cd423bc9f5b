//! Whole numbers four at a time.

use crate::exact::ExactDouble;
use crate::scaled::{Scaled, UNIT};
use std::marker::Model;
use std::simd::prelude::*;

/// Up to this magnitude a double holds each whole number: 2^53.
pub const EXACT_LIMIT: u64 = 1 << 53;

/// 3 * 2^51. From 2^52 to 2^53 a double is whole, and each whole number is one. So a number below
/// 2^51 in magnitude that is added to this is rounded to the nearest whole number, and to the even
/// one of two. With 2^52 the sum with a negative number would keep halves.
pub(crate) const WHOLE: f64 = 6_755_399_441_055_744.0;

/// Four whole numbers, each held exactly in a double, and 0 as +0.
///
/// Contracts see them as those whole numbers.
#[derive(Clone, Copy)]
pub struct Lanes {
    pub(crate) doubles: f64x4,
}

impl Model for Lanes {
    ghost use Rattle.pf_lanes.specs.Lanes.{Lanes};
    ghost use Rattle.pf_lanes.specs.Doubles.{numerators, doubles_of, IsExact};

    ghost Value = { Lanes };

    ghost view = { λ a. numerators 1 a.doubles };

    ghost invariant = { λ a. IsExact 1 a.doubles };

    ghost inverse = { λ v. record { doubles = doubles_of 1 v } };

    ghost inverse_ok = { λ a h i. record { doubles = h.doubles i } };
}

impl Lanes {
    ghost use Rattle.std.specs.Prelude.{◌≡◌, ◌≤◌, ◌<◌, ◌+◌, ◌*◌, ◌^◌, ◌↔◌, ◌≤ℤ◌, pos, neg_ℤ, IsTrue};
    ghost use Rattle.std.specs.Int.{int_min, int_max};
    ghost use Rattle.std.specs.Int.RustNames.{unsigned_abs};
    ghost use Rattle.pf_num.specs.Fx.{sum, difference, product};
    ghost use Rattle.pf_lanes.specs.Lanes.{Lane, number_in, lanes_of, list_of};

    /// Four times 0.
    #[inline]
    pub fn zero() -> Lanes
        ensures { (k : Lane) → number_in k result ≡ pos 0 }
    {
        Lanes {
            doubles: f64x4::splat(0.0),
        }
    }

    /// These four whole numbers.
    #[inline]
    pub fn of(numbers: [i64; 4]) -> Lanes
        requires { (k : Lane) → unsigned_abs (number_in k (lanes_of numbers)) ≤ EXACT_LIMIT }
        ensures { result ≡ lanes_of numbers }
    {
        let [first, second, third, fourth] = numbers;
        let doubles = [first as f64, second as f64, third as f64, fourth as f64];
        Lanes {
            doubles: f64x4::from_array(doubles),
        }
    }

    /// These four whole numbers, which are doubles already.
    #[inline]
    pub fn gather(numbers: [ExactDouble; 4]) -> Lanes
        ensures { result ≡ lanes_of numbers }
    {
        let [first, second, third, fourth] = numbers;
        let doubles = [first.double, second.double, third.double, fourth.double];
        Lanes {
            doubles: f64x4::from_array(doubles),
        }
    }

    /// The four whole numbers.
    #[inline]
    pub fn parts(self) -> [ExactDouble; 4]
        ensures { result ≡ list_of self }
    {
        let [first, second, third, fourth] = self.doubles.to_array();
        [
            ExactDouble { double: first },
            ExactDouble { double: second },
            ExactDouble { double: third },
            ExactDouble { double: fourth },
        ]
    }

    /// The sums.
    #[inline]
    pub fn plus(self, other: Lanes) -> Lanes
        requires { (k : Lane)
            → unsigned_abs (number_in k self) + unsigned_abs (number_in k other) ≤ EXACT_LIMIT }
        ensures value { (k : Lane)
            → number_in k result ≡ sum (number_in k self) (number_in k other) }
        ensures size { (k : Lane) → unsigned_abs (number_in k result)
            ≤ unsigned_abs (number_in k self) + unsigned_abs (number_in k other) }
    {
        Lanes {
            doubles: self.doubles + other.doubles,
        }
    }

    /// The differences.
    #[inline]
    pub fn minus(self, other: Lanes) -> Lanes
        requires { (k : Lane)
            → unsigned_abs (number_in k self) + unsigned_abs (number_in k other) ≤ EXACT_LIMIT }
        ensures value { (k : Lane)
            → number_in k result ≡ difference (number_in k self) (number_in k other) }
        ensures size { (k : Lane) → unsigned_abs (number_in k result)
            ≤ unsigned_abs (number_in k self) + unsigned_abs (number_in k other) }
    {
        Lanes {
            doubles: self.doubles - other.doubles,
        }
    }

    /// The numbers with the other sign: differences from 0, since minus 0 would be -0.
    #[inline]
    pub fn negated(self) -> Lanes
        ensures { (k : Lane) → number_in k result ≡ neg_ℤ (number_in k self) }
    {
        Lanes {
            doubles: f64x4::splat(0.0) - self.doubles,
        }
    }

    /// The lesser of the two numbers of each lane.
    #[inline]
    pub fn least(self, other: Lanes) -> Lanes
        ensures { (k : Lane) → number_in k result ≡ int_min (number_in k self) (number_in k other) }
    {
        let is_less = other.doubles.simd_lt(self.doubles);
        Lanes {
            doubles: is_less.select(other.doubles, self.doubles),
        }
    }

    /// The greater of the two numbers of each lane.
    #[inline]
    pub fn greatest(self, other: Lanes) -> Lanes
        ensures { (k : Lane) → number_in k result ≡ int_max (number_in k self) (number_in k other) }
    {
        let is_less = other.doubles.simd_lt(self.doubles);
        Lanes {
            doubles: is_less.select(self.doubles, other.doubles),
        }
    }

    /// The products with factors in units of 2^-24, rounded to the nearest even, where the exact
    /// product of whole numbers is below 2^53 in magnitude: `product_is_below` tells.
    #[inline]
    pub fn product(self, factors: Scaled) -> Lanes
        requires { (k : Lane)
            → unsigned_abs (number_in k self) * unsigned_abs (number_in k factors) < EXACT_LIMIT }
        ensures value { (k : Lane)
            → number_in k result ≡ product (number_in k self) (number_in k factors) }
        ensures size { (k : Lane) → unsigned_abs (number_in k result) ≤ 2 ^ 29 }
        ensures bound { (k : Lane) → unsigned_abs (number_in k result) * 2 ^ 25
            ≤ unsigned_abs (number_in k self) * unsigned_abs (number_in k factors) * 2 + 2 ^ 24 }
    {
        let whole = f64x4::splat(WHOLE);
        Lanes {
            doubles: (self.doubles * factors.doubles + whole) - whole,
        }
    }

    /// Whether each number is at most this in magnitude.
    #[inline]
    pub fn are_within(self, limit: u64) -> bool
        requires { limit ≤ EXACT_LIMIT }
        ensures { IsTrue result ↔ ((k : Lane) → unsigned_abs (number_in k self) ≤ limit) }
    {
        let limits = Lanes {
            doubles: f64x4::splat(limit as i64 as f64),
        };
        self.are_within_each(limits)
    }

    /// Whether each number is at most the limit of its lane in magnitude.
    #[inline]
    pub fn are_within_each(self, limits: Lanes) -> bool
        ensures { IsTrue result
            ↔ ((k : Lane) → pos (unsigned_abs (number_in k self)) ≤ℤ number_in k limits) }
    {
        let is_above = limits.doubles.simd_lt(self.doubles);
        let is_below = self.doubles.simd_lt(-limits.doubles);
        !(is_above | is_below).any()
    }

    /// Whether each exact product with a factor, as a product of whole numbers, is below this in
    /// magnitude. Numbers and factors may be any, since a product that is too great for a double
    /// is rounded to at least the limit.
    #[inline]
    pub fn product_is_below(self, factors: Scaled, limit: u64) -> bool
        requires { limit ≤ EXACT_LIMIT }
        ensures { IsTrue result ↔ ((k : Lane)
            → unsigned_abs (number_in k self) * unsigned_abs (number_in k factors) < limit) }
    {
        let end = f64x4::splat(limit as i64 as f64 * UNIT);
        let product = self.doubles * factors.doubles;
        (product.simd_lt(end) & (-end).simd_lt(product)).all()
    }
}
