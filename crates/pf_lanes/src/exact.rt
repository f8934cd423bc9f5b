//! One whole number.

use crate::lanes::EXACT_LIMIT;
use std::marker::Model;

/// A whole number, held exactly in a double, and 0 as +0.
///
/// Contracts see it as that whole number.
#[derive(Clone, Copy)]
pub struct ExactDouble {
    pub(crate) double: f64,
}

impl Model for ExactDouble {
    ghost use Rattle.std.specs.Prelude.{ℤ};
    ghost use Rattle.pf_lanes.specs.Doubles.{numerator, double_of, IsWhole};

    ghost Value = { ℤ };

    ghost view = { λ a. numerator 1 a.double };

    ghost invariant = { λ a. IsWhole a.double };

    ghost inverse = { λ v. record { double = double_of 1 v } };

    ghost inverse_ok = { λ a h i. record { double = h.double i } };
}

impl ExactDouble {
    ghost use Rattle.std.specs.Prelude.{◌≡◌, ◌≤◌, pos};
    ghost use Rattle.std.specs.Int.RustNames.{unsigned_abs};

    /// 0.
    #[inline]
    pub fn zero() -> ExactDouble
        ensures { result ≡ pos 0 }
    {
        ExactDouble { double: 0.0 }
    }

    /// This whole number.
    #[inline]
    pub fn of(raw: i64) -> ExactDouble
        requires { unsigned_abs raw ≤ EXACT_LIMIT }
        ensures { result ≡ raw }
    {
        ExactDouble { double: raw as f64 }
    }

    /// The whole number.
    #[inline]
    pub fn raw(self) -> i64
        ensures value { result ≡ self }
        ensures range { unsigned_abs result ≤ EXACT_LIMIT }
    {
        self.double as i64
    }
}
