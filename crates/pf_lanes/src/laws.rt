//! Laws of the definitions, and the value of the limit. These functions compute nothing: their
//! clauses are the statements.

ghost use Rattle.std.specs.Prelude.{◌≡◌, ◌≤◌, ◌<◌, ◌^◌, ◌+◌, ◌*◌, ℕ, ℤ, ◌+ℤ◌, ◌-ℤ◌, ◌*ℤ◌, pos, negsuc, suc, true, false};
ghost use Rattle.std.specs.Float.Ieee.Exact.{HasValue};
ghost use Rattle.std.specs.Int.RustNames.{unsigned_abs};
ghost use Rattle.pf_num.specs.Fx.{one, sum, difference, product};
ghost use Rattle.pf_num.specs.Round.{near};
ghost use Rattle.pf_lanes.specs.Doubles.{double_of};

use crate::lanes::EXACT_LIMIT;

/// Exact sums and differences are those of fixed-point numbers, which do not saturate there.
pub fn sums_are_those_of_numbers()
    ensures sums { (x y : ℤ) → unsigned_abs x + unsigned_abs y ≤ EXACT_LIMIT → sum x y ≡ x +ℤ y }
    ensures differences { (x y : ℤ) → unsigned_abs x + unsigned_abs y ≤ EXACT_LIMIT
        → difference x y ≡ x -ℤ y }
{}

/// Exact products, rounded to the nearest even, are those of fixed-point numbers, which do not
/// saturate there.
pub fn products_are_those_of_numbers()
    ensures { (x c : ℤ) → unsigned_abs x * unsigned_abs c < EXACT_LIMIT
        → product x c ≡ near (x *ℤ c) one }
{}

/// The double of a fraction n / c is exactly that, for a whole number n up to 2^53 in magnitude and
/// a c of 1 or 2^24: it has its sign and its magnitude.
pub fn doubles_are_exact()
    ensures whole { (n : ℕ) → n ≤ 2 ^ 53 → HasValue (double_of 1 (pos n)) false n 1 }
    ensures below { (n : ℕ) → n < 2 ^ 53 → HasValue (double_of 1 (negsuc n)) true (suc n) 1 }
    ensures fixed { (n : ℕ) → n ≤ 2 ^ 53
        → HasValue (double_of 16777216 (pos n)) false n 16777216 }
    ensures fixed_below { (n : ℕ) → n < 2 ^ 53
        → HasValue (double_of 16777216 (negsuc n)) true (suc n) 16777216 }
{}

/// The greatest magnitude of a number in a lane.
pub fn named_limits() -> u64
    ensures { result ≡ 2 ^ 53 }
{
    EXACT_LIMIT
}
