//! Laws of the definitions of rounding and roots, and the values of the constants. These functions
//! compute nothing: their clauses are the statements.

ghost use Rattle.std.specs.Prelude.{◌≡◌, ◌≢◌, ℕ, ℤ, pos};
ghost use Rattle.pf_num.specs.Fx.{max_raw, one, tick};
ghost use Rattle.pf_num.specs.Root.{IsRoot, whole_root};
ghost use Rattle.pf_num.specs.Round.{IsNear, near};

use crate::fx::Fx;

/// The rounded quotient is the nearest whole number, the even one of two, and nothing else is.
pub fn rounds_to_nearest_even()
    ensures meets { (p q : ℤ) → q ≢ pos 0 → IsNear p q (near p q) }
    ensures unique { (p q n : ℤ) → q ≢ pos 0 → IsNear p q n → near p q ≡ n }
{}

/// The whole root of `n` is the greatest number whose square is at most `n`, and nothing else is.
pub fn roots_are_greatest()
    ensures meets { (n : ℕ) → IsRoot n (whole_root n) }
    ensures unique { (n r : ℕ) → IsRoot n r → whole_root n ≡ r }
{}

/// The constants: 0, 1, the greatest number and the length of a tick.
pub fn named_numbers() -> (Fx, Fx, Fx, Fx)
    ensures { result ≡ (pos 0, one, max_raw, tick) }
{
    (Fx::ZERO, Fx::ONE, Fx::MAX, Fx::TICK)
}
