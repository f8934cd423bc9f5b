//! Integer square roots: a checked guess, with std's slower root as fallback.

ghost use Rattle.std.specs.Prelude.{◌≡◌, ◌<◌, ◌*◌, ◌^◌, ◌↔◌, IsTrue};
ghost use Rattle.pf_num.specs.Root.{IsRoot, whole_root};

use crate::guess::root_guess;

/// The greatest number whose square is at most `n`.
#[inline]
pub fn whole_root(n: u128) -> u64
    ensures { result ≡ whole_root n }
{
    if n < 1 << 63 {
        short_root(n as u64)
    } else {
        long_root(n)
    }
}

/// `whole_root` of a number below 2^63: a checked guess.
#[inline(always)]
#[tactic(auto, using(crate::proofs::Roots::root_is))]
fn short_root(n: u64) -> u64
    requires { n < 2 ^ 63 }
    ensures { result ≡ whole_root n }
{
    let guess = root_guess(n);
    let square = guess * guess;
    if square <= n && n - square <= 2 * guess {
        guess
    } else {
        long_root(n as u128)
    }
}

/// `whole_root` of any number: a checked guess, and std's slower root where that is wrong.
#[inline(never)]
#[tactic(auto, using(crate::proofs::Roots::root_is))]
fn long_root(n: u128) -> u64
    ensures { result ≡ whole_root n }
{
    let guess = wide_guess(n);
    if is_root(guess, n) {
        return guess;
    }
    let less = guess.saturating_sub(1);
    if is_root(less, n) {
        return less;
    }
    n.isqrt() as u64
}

/// The square root of a raw number, as a raw number, rounded down.
#[inline]
#[tactic(auto, using(crate::proofs::Roots::raw_root_below))]
pub fn raw_root(raw: u64) -> u64
    requires { raw < 2 ^ 55 }
    ensures value { result ≡ whole_root (raw * 16777216) }
    ensures bound { result < 2 ^ 40 }
{
    whole_root(raw as u128 * 16_777_216)
}

/// Whether `root` is the whole root of `n`.
#[inline]
fn is_root(root: u64, n: u128) -> bool
    ensures { IsTrue result ↔ IsRoot n root }
{
    let root = root as u128;
    let square = root * root;
    square <= n && n - square <= 2 * root
}

/// A guess at the root: that of the first 62 or 63 bits, and a step of Newton's method, the mean of
/// a guess and of the quotient by it.
#[inline]
fn wide_guess(n: u128) -> u64 {
    let half = (66 - n.leading_zeros().min(66)) / 2;
    let first = (n >> (2 * half)) & 0x7fff_ffff_ffff_ffff;
    let root = (root_guess(first as u64) << half.min(63)).max(1);
    let quotient = (n / root as u128) & 0xffff_ffff_ffff_ffff;
    root.wrapping_add(quotient as u64) / 2
}
