//! Rounded products before 3 * 2^51 is subtracted again.

use crate::lanes::{EXACT_LIMIT, Lanes, WHOLE};
use crate::scaled::Scaled;
use std::marker::Model;
use std::simd::prelude::*;

/// Four rounded products, each held as its sum with 3 * 2^51, to which it was rounded. A sum or a
/// difference with them takes an operation less than with `Lanes`, and starts earlier.
///
/// Contracts see them as the rounded products.
#[derive(Clone, Copy)]
pub struct ShiftedLanes {
    sums: Lanes,
}

impl Model for ShiftedLanes {
    ghost use Rattle.pf_lanes.specs.Lanes.{Lanes};
    ghost use Rattle.pf_lanes.specs.Shifted.{AreShifted, unshifted, shifted};

    ghost Value = { Lanes };

    ghost view = { λ r. unshifted r.sums };

    ghost invariant = { λ r. AreShifted r.sums };

    ghost inverse = { λ v. record { sums = shifted v } };

    ghost inverse_ok = { λ r h i. record { sums = h.sums i } };
}

impl Lanes {
    ghost use Rattle.std.specs.Prelude.{◌≡◌, ◌≤◌, ◌<◌, ◌+◌, ◌*◌, ◌^◌, neg_ℤ};
    ghost use Rattle.std.specs.Int.RustNames.{unsigned_abs};
    ghost use Rattle.pf_num.specs.Fx.{sum, difference, product};
    ghost use Rattle.pf_lanes.specs.Lanes.{Lane, number_in};

    /// The products with factors, as [`Lanes::product`] rounds them.
    #[inline]
    pub fn shifted_product(self, factors: Scaled) -> ShiftedLanes
        requires { (k : Lane)
            → unsigned_abs (number_in k self) * unsigned_abs (number_in k factors) < EXACT_LIMIT }
        ensures value { (k : Lane)
            → number_in k result ≡ product (number_in k self) (number_in k factors) }
        ensures size { (k : Lane) → unsigned_abs (number_in k result) ≤ 2 ^ 29 }
    {
        let sums = self.doubles * factors.doubles + f64x4::splat(WHOLE);
        ShiftedLanes {
            sums: Lanes { doubles: sums },
        }
    }

    /// The products with factors, with the other sign.
    #[inline]
    pub fn shifted_opposite(self, factors: Scaled) -> ShiftedLanes
        requires { (k : Lane)
            → unsigned_abs (number_in k self) * unsigned_abs (number_in k factors) < EXACT_LIMIT }
        ensures value { (k : Lane)
            → number_in k result ≡ neg_ℤ (product (number_in k self) (number_in k factors)) }
        ensures size { (k : Lane) → unsigned_abs (number_in k result) ≤ 2 ^ 29 }
    {
        let sums = f64x4::splat(WHOLE) - self.doubles * factors.doubles;
        ShiftedLanes {
            sums: Lanes { doubles: sums },
        }
    }

    /// The sums with rounded products.
    #[inline]
    pub fn plus_shifted(self, other: ShiftedLanes) -> Lanes
        requires { (k : Lane) → unsigned_abs (number_in k self) ≤ 2 ^ 51 }
        ensures value { (k : Lane)
            → number_in k result ≡ sum (number_in k self) (number_in k other) }
        ensures size { (k : Lane)
            → unsigned_abs (number_in k result) ≤ unsigned_abs (number_in k self) + 2 ^ 29 }
    {
        Lanes {
            doubles: (self.doubles - f64x4::splat(WHOLE)) + other.sums.doubles,
        }
    }

    /// The differences from rounded products.
    #[inline]
    pub fn minus_shifted(self, other: ShiftedLanes) -> Lanes
        requires { (k : Lane) → unsigned_abs (number_in k self) ≤ 2 ^ 51 }
        ensures value { (k : Lane)
            → number_in k result ≡ difference (number_in k self) (number_in k other) }
        ensures size { (k : Lane)
            → unsigned_abs (number_in k result) ≤ unsigned_abs (number_in k self) + 2 ^ 29 }
    {
        Lanes {
            doubles: (self.doubles + f64x4::splat(WHOLE)) - other.sums.doubles,
        }
    }
}

impl ShiftedLanes {
    ghost use Rattle.std.specs.Prelude.{◌≡◌, ◌≤◌, ◌^◌};
    ghost use Rattle.std.specs.Int.RustNames.{unsigned_abs};
    ghost use Rattle.pf_num.specs.Fx.{difference};
    ghost use Rattle.pf_lanes.specs.Lanes.{Lane, number_in};

    /// The differences.
    #[inline]
    pub fn minus(self, other: ShiftedLanes) -> Lanes
        ensures value { (k : Lane)
            → number_in k result ≡ difference (number_in k self) (number_in k other) }
        ensures size { (k : Lane) → unsigned_abs (number_in k result) ≤ 2 ^ 30 }
    {
        Lanes {
            doubles: self.sums.doubles - other.sums.doubles,
        }
    }
}
