//! Laws of the limits. These functions compute nothing: their clauses are the statements.

ghost use Rattle.std.specs.Prelude.{◌≡◌, ◌-◌, ◌*◌, ◌^◌};

use crate::limits::{
    HALF_ARM, HALF_ARM_SPIN, LANE_DIRECTION_LIMIT, LANE_LIMIT, LANE_SPEED_LIMIT, LEAST_PUSH,
    LONG_ARM, LONG_ARM_SPIN, LONGEST_ARM, LONGEST_ARM_SPIN, MIDDLE_ARM, MIDDLE_ARM_SPIN,
    MIDDLE_PUSH, NUMBER_LIMIT, PRODUCT_LIMIT, QUARTER_ARM, QUARTER_ARM_SPIN, SHORT_ARM,
    SHORT_ARM_SPIN, SMALL_PUSH,
};

/// The limits of a level that is solved in lanes, in raw units of 2^-24.
pub fn named_limits()
    ensures product { PRODUCT_LIMIT ≡ 2 ^ 53 }
    ensures direction { LANE_DIRECTION_LIMIT ≡ 17 * 2 ^ 20 }
    ensures number { NUMBER_LIMIT ≡ 2 ^ 50 }
    ensures speed { LANE_SPEED_LIMIT ≡ 30 * 2 ^ 24 }
    ensures lane { LANE_LIMIT ≡ 2 ^ 28 }
    ensures middle_push { MIDDLE_PUSH ≡ 2 ^ 25 }
    ensures small_push { SMALL_PUSH ≡ 2 ^ 23 }
    ensures least_push { LEAST_PUSH ≡ 2 ^ 21 }
{}

/// How short arms have to be, in raw units of 2^-24, and how great spins may then be.
pub fn limits_of_spins()
    ensures quarter { (QUARTER_ARM ≡ 2 ^ 22 - 1) × (QUARTER_ARM_SPIN ≡ 2 ^ 30) }
    ensures half { (HALF_ARM ≡ 2 ^ 23 - 1) × (HALF_ARM_SPIN ≡ 2 ^ 29) }
    ensures short { (SHORT_ARM ≡ 2 ^ 24 - 1) × (SHORT_ARM_SPIN ≡ 2 ^ 28) }
    ensures middle { (MIDDLE_ARM ≡ 2 ^ 25 - 1) × (MIDDLE_ARM_SPIN ≡ 2 ^ 27) }
    ensures long { (LONG_ARM ≡ 2 ^ 27 - 1) × (LONG_ARM_SPIN ≡ 2 ^ 25) }
    ensures longest { (LONGEST_ARM ≡ 2 ^ 29 - 1) × (LONGEST_ARM_SPIN ≡ 2 ^ 23) }
{}
