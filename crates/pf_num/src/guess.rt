//! Guesses by floating-point numbers, whose quotients and roots take less time than those of 64-bit
//! numbers. A guess is checked where it is used, so no result depends on how good it is.

ghost use Rattle.std.specs.Prelude.{◌≤◌, ◌<◌, ◌^◌};

use std::num::{f64_to_bits_with_nan, nearest_i64_to_f64};

/// 2^24, the raw value of the number 1.
const ONE: f64 = 16_777_216.0;

/// 2^52. Floating-point numbers from here up to 2^53 are whole, and their low 52 bits are the
/// number less 2^52.
const WHOLE: f64 = 4_503_599_627_370_496.0;

/// Slightly more than a half: what is added so that rounding to the nearest gives the next whole
/// number above.
const OVER_HALF: f64 = 0.500_000_1;

/// The cap of guesses at roots, whose square fits 64 bits.
const MAX_ROOT: u64 = 0xffff_ffff;

/// The floating-point number nearest to a whole number.
#[inline(always)]
fn nearest_float(n: u64) -> f64
    requires { n < 2 ^ 63 }
{
    if n < (1 << 53) {
        n as i64 as f64
    } else {
        nearest_i64_to_f64(n as i64)
    }
}

/// The whole number nearest to a number that is not below 0, and below 2^52 - 1/2; for others any
/// number.
#[inline(always)]
fn nearest_whole(x: f64) -> u64 {
    f64_to_bits_with_nan(x + WHOLE) & 0xf_ffff_ffff_ffff
}

/// A guess at the whole root of a number below 2^63.
#[inline(always)]
pub fn root_guess(n: u64) -> u64
    requires { n < 2 ^ 63 }
    ensures { result ≤ MAX_ROOT }
{
    let next = nearest_whole(nearest_float(n).sqrt() + OVER_HALF);
    next.saturating_sub(1).min(MAX_ROOT)
}

/// About 2^24 / b: a raw number times this is about its quotient by the raw number `b`.
#[inline(always)]
pub fn reciprocal_near(b: u64) -> f64
    requires { b < 2 ^ 63 }
{
    ONE / nearest_float(b)
}

/// A guess at the whole number nearest to a * 2^24 / b, where `reciprocal` is about 2^24 / b.
#[inline(always)]
pub fn quotient_guess(a: u64, reciprocal: f64) -> u64
    requires { a < 2 ^ 63 }
{
    nearest_whole(nearest_float(a) * reciprocal)
}
