//! The limits of a level that is solved in lanes, in raw units of 2^-24. Within them, in magnitude,
//! the sums of a step are exact in doubles, and so are its products, but for those that are tested.

use pf_lanes::EXACT_LIMIT;

/// Exact products of whole numbers are below this: 2^53.
pub const PRODUCT_LIMIT: u64 = EXACT_LIMIT;

/// The greatest component of a normal or a tangent: 17/16. One of a turned box is a few units above
/// 1, by roundings.
pub const LANE_DIRECTION_LIMIT: u64 = (1 << 24) + (1 << 20);

/// The greatest component of a velocity, and the greatest accumulated impulse and bias, before a
/// step: 2^26.
pub const NUMBER_LIMIT: u64 = 1 << 50;

/// The greatest component of a relative velocity: 30 lengths a second.
pub const LANE_SPEED_LIMIT: u64 = 30 << 24;

/// Arms are shorter than a quarter of a length along each axis.
pub const QUARTER_ARM: u64 = (1 << 22) - 1;

/// The greatest spin before a step with arms up to `QUARTER_ARM`: 64 radians a second.
pub const QUARTER_ARM_SPIN: u64 = 1 << 30;

/// Arms are shorter than half a length.
pub const HALF_ARM: u64 = (1 << 23) - 1;

/// The greatest spin with arms up to `HALF_ARM`: 32 radians a second.
pub const HALF_ARM_SPIN: u64 = 1 << 29;

/// Arms are shorter than a length.
pub const SHORT_ARM: u64 = (1 << 24) - 1;

/// The greatest spin with arms up to `SHORT_ARM`: 16 radians a second.
pub const SHORT_ARM_SPIN: u64 = 1 << 28;

/// Arms are shorter than 2 lengths.
pub const MIDDLE_ARM: u64 = (1 << 25) - 1;

/// The greatest spin with arms up to `MIDDLE_ARM`: 8 radians a second.
pub const MIDDLE_ARM_SPIN: u64 = 1 << 27;

/// Arms are shorter than 8 lengths.
pub const LONG_ARM: u64 = (1 << 27) - 1;

/// The greatest spin with arms up to `LONG_ARM`: 2 radians a second.
pub const LONG_ARM_SPIN: u64 = 1 << 25;

/// Arms are shorter than 32 lengths. A row with a longer one is not solved in lanes.
pub const LONGEST_ARM: u64 = (1 << 29) - 1;

/// The greatest spin with arms up to `LONGEST_ARM`: half a radian a second.
pub const LONGEST_ARM_SPIN: u64 = 1 << 23;

/// The greatest limit of the parts of an impulse, and half of the greatest part of any: 16. An
/// impulse along a direction counts twice, since a direction may be a little longer than 1.
pub const LANE_LIMIT: u64 = 1 << 28;

/// The next limit of the parts of an impulse that is not tested: 2, so that impulses up to 1 are
/// not. It is that of a box of 1 by 1 with the mass 1.
pub const MIDDLE_PUSH: u64 = 1 << 25;

/// The limit after `MIDDLE_PUSH`: a half.
pub const SMALL_PUSH: u64 = 1 << 23;

/// The limit after `SMALL_PUSH`: an eighth. Where it is too great each impulse is tested.
pub const LEAST_PUSH: u64 = 1 << 21;
