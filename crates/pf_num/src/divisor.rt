//! Numbers by which others are divided.

use crate::fx::Fx;
use crate::guess::reciprocal_near;
use crate::quotient::rounded_quotient;
use std::marker::Model;

/// A number by which others are divided. It keeps what a guess at their quotients takes, so to
/// divide two numbers by it takes less time than two divisions.
///
/// Contracts see it as the raw number.
#[derive(Debug, Drop)]
pub struct Divisor {
    divisor: Fx,
    reciprocal: f64,
}

impl Model for Divisor {
    ghost use Rattle.std.specs.Prelude.{ℤ};

    ghost Value = { ℤ };

    ghost view = { λ d. d.divisor };
}

impl Divisor {
    ghost use Rattle.std.specs.Prelude.{◌≡◌};
    ghost use Rattle.pf_num.specs.Fx.{quotient};

    /// To divide by this number.
    #[inline(always)]
    pub fn new(divisor: Fx) -> Divisor
        ensures { result ≡ divisor }
    {
        Divisor {
            divisor,
            reciprocal: reciprocal_near(divisor.raw().unsigned_abs()),
        }
    }

    /// The quotient of a number by this one, rounded to the nearest even and saturated. By 0 it is
    /// the greatest number with the sign of the dividend, and 0 where that is 0.
    #[inline(always)]
    pub fn divide(&self, dividend: Fx) -> Fx
        ensures { result ≡ quotient dividend self.now }
    {
        Fx::of_raw(rounded_quotient(dividend.raw(), self.divisor.raw(), self.reciprocal))
    }
}
