//! Factors of products.

use crate::exact::ExactDouble;
use crate::lanes::EXACT_LIMIT;
use std::marker::Model;
use std::simd::prelude::*;

/// 2^-24, the unit of the raw numbers of `pf_num`.
pub(crate) const UNIT: f64 = 5.960_464_477_539_062_5e-8;

/// Four factors of products: whole numbers of units of 2^-24, each held exactly in a double.
///
/// Contracts see them as those whole numbers.
#[derive(Clone, Copy)]
pub struct Scaled {
    pub(crate) doubles: f64x4,
}

impl Model for Scaled {
    ghost use Rattle.pf_lanes.specs.Lanes.{Lanes};
    ghost use Rattle.pf_lanes.specs.Doubles.{numerators, doubles_of, IsExact};

    ghost Value = { Lanes };

    ghost view = { λ a. numerators 16777216 a.doubles };

    ghost invariant = { λ a. IsExact 16777216 a.doubles };

    ghost inverse = { λ v. record { doubles = doubles_of 16777216 v } };

    ghost inverse_ok = { λ a h i. record { doubles = h.doubles i } };
}

impl Scaled {
    ghost use Rattle.std.specs.Prelude.{◌≡◌, ◌≤◌};
    ghost use Rattle.std.specs.Int.RustNames.{unsigned_abs};
    ghost use Rattle.pf_lanes.specs.Lanes.{Lane, number_in, lanes_of};

    /// These four whole numbers of units of 2^-24.
    #[inline]
    pub fn of(numbers: [i64; 4]) -> Scaled
        requires { (k : Lane) → unsigned_abs (number_in k (lanes_of numbers)) ≤ EXACT_LIMIT }
        ensures { result ≡ lanes_of numbers }
    {
        let [first, second, third, fourth] = numbers;
        let doubles = [first as f64, second as f64, third as f64, fourth as f64];
        Scaled {
            doubles: f64x4::from_array(doubles) * f64x4::splat(UNIT),
        }
    }

    /// These four whole numbers of units of 2^-24, which are doubles already.
    #[inline]
    pub fn gather(numbers: [ExactDouble; 4]) -> Scaled
        ensures { result ≡ lanes_of numbers }
    {
        let [first, second, third, fourth] = numbers;
        let wholes = [first.double, second.double, third.double, fourth.double];
        Scaled {
            doubles: f64x4::from_array(wholes) * f64x4::splat(UNIT),
        }
    }
}
