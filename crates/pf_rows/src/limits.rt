//! The limits of the fast path of warm starting and of rounds, in raw units of 2^-24. Within them,
//! in magnitude, no sum of the fast path saturates, and each of its products fits 64 bits.

/// The greatest component of a normal or a tangent: 2.
pub const DIRECTION_LIMIT: u64 = 1 << 25;

/// The greatest component of an arm: 16 lengths.
pub const ARM_LIMIT: u64 = 1 << 28;

/// The greatest inverse mass: 64.
pub const INVERSE_MASS_LIMIT: u64 = 1 << 30;

/// The greatest inverse inertia: 2,048.
pub const INVERSE_INERTIA_LIMIT: u64 = 1 << 35;

/// The greatest exact product of an inverse inertia and a component of an arm, in units of 2^-48:
/// 256.
pub const TURN_LIMIT: u64 = 1 << 56;

/// The greatest effective mass, bias and coefficient of friction: 128.
pub const CONSTRAINT_LIMIT: u64 = 1 << 31;

/// The greatest x or y of a velocity, and the greatest spin, before a warm start or a round: 32
/// lengths and 32 radians a second.
pub const SPEED_LIMIT: u64 = 1 << 29;

/// The greatest spin between the two steps of a round: 128 radians a second.
pub const SPIN_LIMIT: u64 = 1 << 31;

/// The greatest change of speed that a step aims at: 128 lengths a second.
pub const SPEED_CHANGE_LIMIT: u64 = 1 << 31;

/// The greatest impulse that a step applies, and that warm starting applies along each direction:
/// 4.
pub const STEP_LIMIT: u64 = 1 << 26;

/// The greatest accumulated impulse before a round: 65,536.
pub const ACCUMULATED_LIMIT: u64 = 1 << 40;

/// The greatest accumulated normal impulse after the step of the normal: 128.
pub const NORMAL_LIMIT: u64 = 1 << 31;
