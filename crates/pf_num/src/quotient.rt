//! Rounded products and quotients: in 64 bits for the usual operands, in 128 bits for others.

ghost use Rattle.std.specs.Prelude.{◌≡◌, ◌≢◌, ◌≤◌, ◌<◌, IsTrue, ◌^◌, ◌+◌, ◌*◌, ◌%◌, ◌↔◌, pos, min};
ghost use Rattle.std.specs.Int.RustNames.{unsigned_abs};
ghost use Rattle.pf_num.specs.Round.{carry, nearest, with_sign, near};
ghost use Rattle.pf_num.specs.Fx.{IsRaw, product, quotient};

use crate::guess::quotient_guess;

/// The greatest raw value, 2^55 - 1.
pub(crate) const MAX_RAW: u64 = 36_028_797_018_963_967;

/// What rounding to the nearest even adds to the quotient `n` with this remainder.
#[inline]
fn carry_of(n: u64, remainder: u64, divisor: u64) -> u64
    requires { remainder < divisor }
    ensures value { result ≡ carry n remainder divisor }
    ensures bound { result ≤ 1 }
{
    let rest = divisor - remainder;
    if remainder < rest {
        0
    } else if rest < remainder {
        1
    } else {
        n % 2
    }
}

/// Whether a number is less than half of another.
#[inline(always)]
fn is_below_half(n: u64, whole: u64) -> bool
    ensures { IsTrue result ↔ (2 * n < whole) }
{
    n < whole && n < whole - n
}

/// Whether `n` is known to be the whole number nearest to `p / b`: not at a tie, and not where
/// `n * b` overflows.
#[inline(always)]
#[tactic(auto, using(crate::proofs::Quotients::nearest_within))]
fn is_nearest(n: u64, p: u64, b: u64) -> bool
    ensures { IsTrue result → n ≡ nearest p b }
{
    match n.checked_mul(b) {
        Some(product) => is_below_half(product.abs_diff(p), b),
        None => false,
    }
}

/// The whole number nearest to `a * 2^24 / b`, saturated at `MAX_RAW`: a checked guess, where
/// `reciprocal` is about 2^24 / b.
#[inline(always)]
fn nearest_quotient(a: u64, b: u64, reciprocal: f64) -> u64
    requires some { b ≢ 0 }
    requires few { a < 2 ^ 63 }
    ensures { result ≡ min (nearest (a * 16777216) b) MAX_RAW }
{
    if a < (1 << 39) {
        let guess = quotient_guess(a, reciprocal);
        if is_nearest(guess, a * 16_777_216, b) {
            return guess.min(MAX_RAW);
        }
    }
    long_quotient(a, b)
}

/// `nearest_quotient` by division: in 64 bits where the dividend fits them, else in 128 bits.
#[cold]
#[inline(never)]
#[tactic(auto, unfolding(crate::specs::Round::nearest))]
fn long_quotient(a: u64, b: u64) -> u64
    requires some { b ≢ 0 }
    requires few { a < 2 ^ 63 }
    ensures { result ≡ min (nearest (a * 16777216) b) MAX_RAW }
{
    if a < (1 << 39) {
        let p = a * 16_777_216;
        let n = p / b;
        (n + carry_of(n, p % b, b)).min(MAX_RAW)
    } else {
        nearest_wide(a as u128 * 16_777_216, b)
    }
}

/// The whole number nearest to `p / q`, saturated at `MAX_RAW`. Inlined, so that a division by a
/// power of two becomes a shift.
#[inline]
#[tactic(auto, unfolding(crate::specs::Round::nearest))]
fn nearest_wide(p: u128, q: u64) -> u64
    requires some { q ≢ 0 }
    ensures { result ≡ min (nearest p q) MAX_RAW }
{
    let wide = q as u128;
    let n = p / wide;
    if n > MAX_RAW as u128 {
        return MAX_RAW;
    }
    let n = n as u64;
    (n + carry_of(n, (p % wide) as u64, q)).min(MAX_RAW)
}

/// The last bit in two's complement: 1 for an odd number, else 0.
#[inline]
fn last_bit(n: i64) -> i64
    ensures { result ≡ pos (unsigned_abs n % 2) }
{
    n & 1
}

/// `p / 2^24`, rounded to the nearest even by a shift: 2^23 - 1 is added first, and 1 more where
/// the floor is odd, so that a tie goes to the even number.
#[inline]
fn rounded_shift(p: i64) -> i64
    requires { unsigned_abs p ≤ 2 ^ 62 }
    ensures value { result ≡ near p (pos 16777216) }
    ensures bound { unsigned_abs result ≤ 2 ^ 38 }
{
    (p + 0x7f_ffff + last_bit(p >> 24)) >> 24
}

/// Whether a number has 32 bits, so that the product of two of them is at most 2^62 in magnitude.
#[inline]
fn fits_32_bits(a: i64) -> bool
    ensures { IsTrue result → unsigned_abs a ≤ 2 ^ 31 }
{
    a >= -(1 << 31) && a < 1 << 31
}

/// The product of two raw numbers, rounded to the nearest even, where the exact product is at most
/// 2^62 in magnitude.
#[inline]
pub fn short_product(a: i64, b: i64) -> i64
    requires { unsigned_abs a * unsigned_abs b ≤ 2 ^ 62 }
    ensures value { result ≡ product a b }
    ensures range { IsRaw result }
    ensures bound { unsigned_abs result * 2 ^ 25 ≤ unsigned_abs a * unsigned_abs b * 2 + 2 ^ 24 }
{
    rounded_shift(a * b)
}

/// The product of two raw numbers, rounded to the nearest even and saturated.
#[inline]
pub fn rounded_product(a: i64, b: i64) -> i64
    requires left { IsRaw a }
    requires right { IsRaw b }
    ensures value { result ≡ product a b }
    ensures range { IsRaw result }
{
    if fits_32_bits(a) && fits_32_bits(b) {
        short_product(a, b)
    } else {
        long_product(a, b)
    }
}

/// `rounded_product` where a factor isn't short.
#[cold]
#[inline(never)]
fn long_product(a: i64, b: i64) -> i64
    requires left { IsRaw a }
    requires right { IsRaw b }
    ensures value { result ≡ product a b }
    ensures range { IsRaw result }
{
    match a.checked_mul(b) {
        Some(p) if p.unsigned_abs() <= 1 << 62 => rounded_shift(p),
        _ => wide_product(a, b),
    }
}

/// `rounded_product` in 128 bits, as is needed where the exact product is above 2^62 in magnitude.
#[cold]
#[inline(never)]
fn wide_product(a: i64, b: i64) -> i64
    requires left { IsRaw a }
    requires right { IsRaw b }
    ensures value { result ≡ product a b }
    ensures range { IsRaw result }
{
    let p = a.unsigned_abs() as u128 * b.unsigned_abs() as u128;
    with_sign(nearest_wide(p, 16_777_216), (a < 0) != (b < 0))
}

/// The quotient of two raw numbers, rounded to the nearest even and saturated. By 0 it is the
/// greatest number with the sign of `a`. The result does not depend on `reciprocal`, which is about
/// 2^24 / |b|.
#[inline(always)]
pub fn rounded_quotient(a: i64, b: i64, reciprocal: f64) -> i64
    requires left { IsRaw a }
    requires right { IsRaw b }
    ensures value { result ≡ quotient a b }
    ensures range { IsRaw result }
{
    if b == 0 {
        return a.signum() * MAX_RAW as i64;
    }
    with_sign(
        nearest_quotient(a.unsigned_abs(), b.unsigned_abs(), reciprocal),
        (a < 0) != (b < 0),
    )
}

/// The number of this magnitude and sign.
#[inline(always)]
fn with_sign(magnitude: u64, negative: bool) -> i64
    requires { magnitude ≤ MAX_RAW }
    ensures { result ≡ with_sign negative magnitude }
{
    let magnitude = magnitude as i64;
    if negative { -magnitude } else { magnitude }
}
