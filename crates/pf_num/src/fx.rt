//! Fixed-point numbers.

ghost use Rattle.std.specs.Prelude.{◌≡◌, ◌↔◌, ◌≤◌, ◌+◌, ◌*◌, ◌^◌, ℤ, pos, neg_ℤ, if◌then◌else◌, IsSome, IfSome};
ghost use Rattle.std.specs.Int.{int_min, int_max, is_negative};
ghost use Rattle.std.specs.Int.RustNames.{unsigned_abs};
ghost use Rattle.pf_num.specs.Fx.{IsRaw, max_raw, saturate, sum, difference, product, quotient, root};

use crate::divisor::Divisor;
use crate::quotient::{rounded_product, short_product};
use crate::root::raw_root;
use std::marker::Model;

/// The greatest raw value, 2^55 - 1.
const MAX_RAW: i64 = crate::quotient::MAX_RAW as i64;

/// A fixed-point number: a raw whole number in units of 2^-24, from -(2^55 - 1) to 2^55 - 1.
///
/// Contracts see it as that whole number. No operation wraps or fails: a result out of range
/// saturates.
#[derive(Clone, Copy, Debug, PartialEq, Eq, PartialOrd, Ord)]
pub struct Fx {
    raw: i64,
}

impl Model for Fx {
    ghost Value = { ℤ };

    ghost view = { λ x. x.raw };

    ghost invariant = { λ x. IsRaw x.raw };

    ghost inverse = { λ z. record { raw = z } };
}

/// A whole number saturated at the ends of the range.
#[inline(always)]
#[tactic(auto, unfolding(crate::specs::Fx::saturate))]
fn saturate(n: i64) -> i64
    ensures value { result ≡ saturate n }
    ensures range { IsRaw result }
{
    if n >= -MAX_RAW && n <= MAX_RAW {
        n
    } else {
        nearest_end(n)
    }
}

/// The lower end of the range for a negative number, else the upper one.
#[cold]
#[inline(never)]
fn nearest_end(n: i64) -> i64
    ensures { result ≡ (if is_negative n then neg_ℤ max_raw else max_raw) }
{
    if n < 0 { -MAX_RAW } else { MAX_RAW }
}

impl Fx {
    /// 0.
    pub const ZERO: Fx = Fx { raw: 0 };

    /// 1, which is 2^24 units.
    pub const ONE: Fx = Fx { raw: 1 << 24 };

    /// The greatest number, 2^55 - 1 units. Its negative is the least.
    pub const MAX: Fx = Fx { raw: MAX_RAW };

    /// The length of a tick, 1/64 of a second.
    pub const TICK: Fx = Fx { raw: 1 << 18 };

    /// The number with this raw value, in units of 2^-24, or `None` where that is out of range.
    #[inline]
    pub const fn from_raw(raw: i64) -> Option<Fx>
        ensures range { IsSome result ↔ IsRaw raw }
        ensures value { IfSome result (λ x. x ≡ raw) }
    {
        if raw >= -MAX_RAW && raw <= MAX_RAW {
            Some(Fx { raw })
        } else {
            None
        }
    }

    /// The number with this raw value, which is in range.
    #[inline]
    pub(crate) fn of_raw(raw: i64) -> Fx
        requires { IsRaw raw }
        ensures { result ≡ raw }
    {
        Fx { raw }
    }

    /// The raw value, in units of 2^-24.
    #[inline]
    pub const fn raw(self) -> i64
        ensures value { result ≡ self }
        ensures range { IsRaw result }
    {
        self.raw
    }

    /// The sum, saturated.
    #[inline(always)]
    #[tactic(auto, unfolding(crate::specs::Fx::sum))]
    pub fn add(self, other: Fx) -> Fx
        ensures { result ≡ sum self other }
    {
        Fx {
            raw: saturate(self.raw + other.raw),
        }
    }

    /// The difference, saturated.
    #[inline(always)]
    #[tactic(auto, unfolding(crate::specs::Fx::difference))]
    pub fn sub(self, other: Fx) -> Fx
        ensures { result ≡ difference self other }
    {
        Fx {
            raw: saturate(self.raw - other.raw),
        }
    }

    /// The product, rounded to the nearest even and saturated.
    #[inline(always)]
    pub fn mul(self, other: Fx) -> Fx
        ensures { result ≡ product self other }
    {
        Fx {
            raw: rounded_product(self.raw, other.raw),
        }
    }

    /// The sum of numbers up to 2^53 units, which cannot saturate.
    #[inline(always)]
    #[tactic(auto, unfolding(crate::specs::Fx::sum, crate::specs::Fx::saturate))]
    pub fn unchecked_add(self, other: Fx) -> Fx
        requires left { unsigned_abs self ≤ 2 ^ 53 }
        requires right { unsigned_abs other ≤ 2 ^ 53 }
        ensures value { result ≡ sum self other }
        ensures bound { unsigned_abs result ≤ unsigned_abs self + unsigned_abs other }
    {
        Fx {
            raw: self.raw + other.raw,
        }
    }

    /// The difference of numbers up to 2^53 units, which cannot saturate.
    #[inline(always)]
    #[tactic(auto, unfolding(crate::specs::Fx::difference, crate::specs::Fx::saturate))]
    pub fn unchecked_sub(self, other: Fx) -> Fx
        requires left { unsigned_abs self ≤ 2 ^ 53 }
        requires right { unsigned_abs other ≤ 2 ^ 53 }
        ensures value { result ≡ difference self other }
        ensures bound { unsigned_abs result ≤ unsigned_abs self + unsigned_abs other }
    {
        Fx {
            raw: self.raw - other.raw,
        }
    }

    /// The product, rounded to the nearest even, where the exact raw product is at most 2^62 in
    /// magnitude. It exceeds the exact one by at most half a unit in magnitude.
    #[inline(always)]
    pub fn unchecked_mul(self, other: Fx) -> Fx
        requires { unsigned_abs self * unsigned_abs other ≤ 2 ^ 62 }
        ensures value { result ≡ product self other }
        ensures bound { unsigned_abs result * 2 ^ 25
            ≤ unsigned_abs self * unsigned_abs other * 2 + 2 ^ 24 }
    {
        Fx {
            raw: short_product(self.raw, other.raw),
        }
    }

    /// The quotient, rounded to the nearest even and saturated. By 0 it is the greatest number
    /// with the sign of `self`, and 0 where that is 0.
    #[inline]
    pub fn div(self, other: Fx) -> Fx
        ensures { result ≡ quotient self other }
    {
        Divisor::new(other).divide(self)
    }

    /// The square root, rounded down, and 0 for a negative number.
    #[tactic(auto, unfolding(crate::specs::Fx::root))]
    pub fn root(self) -> Fx
        ensures { result ≡ root self }
    {
        if self.raw < 0 {
            return Fx::ZERO;
        }
        Fx {
            raw: raw_root(self.raw.unsigned_abs()) as i64,
        }
    }

    /// The number with the other sign.
    #[inline]
    pub fn neg(self) -> Fx
        ensures { result ≡ neg_ℤ self }
    {
        Fx { raw: -self.raw }
    }

    /// The absolute value.
    #[inline]
    pub fn abs(self) -> Fx
        ensures { result ≡ pos (unsigned_abs self) }
    {
        Fx {
            raw: self.raw.abs(),
        }
    }

    /// The lesser of two numbers.
    #[inline]
    pub fn min(self, other: Fx) -> Fx
        ensures { result ≡ int_min self other }
    {
        Fx {
            raw: self.raw.min(other.raw),
        }
    }

    /// The greater of two numbers.
    #[inline]
    pub fn max(self, other: Fx) -> Fx
        ensures { result ≡ int_max self other }
    {
        Fx {
            raw: self.raw.max(other.raw),
        }
    }
}
