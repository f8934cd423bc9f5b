//! Products of the fast path: each with limits within which it fits 64 bits, and how great it can
//! be.

ghost use Rattle.std.specs.Prelude.{◌≡◌, ◌+◌, ◌*◌, ◌≤◌, ◌^◌};
ghost use Rattle.std.specs.Int.RustNames.{unsigned_abs};
ghost use Rattle.pf_num.specs.Fx.{product};

use pf_num::Fx;
use pf_rows::limits::{
    ARM_LIMIT, CONSTRAINT_LIMIT, DIRECTION_LIMIT, INVERSE_MASS_LIMIT, SPIN_LIMIT, STEP_LIMIT,
};

/// A spin times a component of an arm.
#[inline]
#[tactic(auto, using(crate::proofs::Sizes::times_within))]
pub(crate) fn spin_by_arm(spin: Fx, arm: Fx) -> Fx
    requires spin { unsigned_abs spin ≤ SPIN_LIMIT }
    requires arm { unsigned_abs arm ≤ ARM_LIMIT }
    ensures value { result ≡ product spin arm }
    ensures size { unsigned_abs result ≤ 2 ^ 35 }
{
    spin.unchecked_mul(arm)
}

/// A speed times a component of a direction.
#[inline]
#[tactic(auto, using(crate::proofs::Sizes::times_within))]
pub(crate) fn speed_by_direction(speed: Fx, direction: Fx) -> Fx
    requires speed { unsigned_abs speed ≤ 2 ^ 37 }
    requires direction { unsigned_abs direction ≤ DIRECTION_LIMIT }
    ensures value { result ≡ product speed direction }
    ensures size { unsigned_abs result ≤ 2 ^ 38 }
{
    speed.unchecked_mul(direction)
}

/// A coefficient of a constraint times a speed or an impulse.
#[inline]
#[tactic(auto, using(crate::proofs::Sizes::times_within))]
pub(crate) fn part_by_number(part: Fx, number: Fx) -> Fx
    requires part { unsigned_abs part ≤ CONSTRAINT_LIMIT }
    requires number { unsigned_abs number ≤ 2 ^ 31 }
    ensures value { result ≡ product part number }
    ensures size { unsigned_abs result ≤ 2 ^ 38 }
{
    part.unchecked_mul(number)
}

/// An impulse along a direction, one component of it.
#[inline]
#[tactic(auto, using(crate::proofs::Sizes::times_within))]
pub(crate) fn impulse_by_direction(impulse: Fx, direction: Fx) -> Fx
    requires impulse { unsigned_abs impulse ≤ STEP_LIMIT }
    requires direction { unsigned_abs direction ≤ DIRECTION_LIMIT }
    ensures value { result ≡ product impulse direction }
    ensures size { unsigned_abs result ≤ 2 ^ 27 }
{
    impulse.unchecked_mul(direction)
}

/// How much an impulse changes a component of a velocity.
#[inline]
#[tactic(auto, using(crate::proofs::Sizes::times_within))]
pub(crate) fn mass_by_impulse(inverse_mass: Fx, impulse: Fx) -> Fx
    requires mass { unsigned_abs inverse_mass ≤ INVERSE_MASS_LIMIT }
    requires impulse { unsigned_abs impulse ≤ 2 ^ 28 }
    ensures value { result ≡ product inverse_mass impulse }
    ensures size { unsigned_abs result ≤ 2 ^ 34 }
{
    inverse_mass.unchecked_mul(impulse)
}

/// A component of an arm times a component of an impulse.
#[inline]
#[tactic(auto, using(crate::proofs::Sizes::times_within))]
pub(crate) fn arm_by_impulse(arm: Fx, impulse: Fx) -> Fx
    requires arm { unsigned_abs arm ≤ ARM_LIMIT }
    requires impulse { unsigned_abs impulse ≤ 2 ^ 28 }
    ensures value { result ≡ product arm impulse }
    ensures size { unsigned_abs result ≤ 2 ^ 32 }
    ensures bound { unsigned_abs result * 2 ^ 25
        ≤ unsigned_abs arm * unsigned_abs impulse * 2 + 2 ^ 24 }
{
    arm.unchecked_mul(impulse)
}

/// How much an angular impulse changes a spin.
#[inline]
#[tactic(auto, using(crate::proofs::Sizes::shifted_within))]
pub(crate) fn inertia_by_turn(inverse_inertia: Fx, turn: Fx) -> Fx
    requires { unsigned_abs inverse_inertia * unsigned_abs turn ≤ 2 ^ 62 }
    ensures value { result ≡ product inverse_inertia turn }
    ensures size { unsigned_abs result ≤ 2 ^ 38 }
{
    inverse_inertia.unchecked_mul(turn)
}

/// The square of a component of an arm.
#[inline]
#[tactic(auto, using(crate::proofs::Sizes::times_within))]
pub(crate) fn square_of_arm(arm: Fx) -> Fx
    requires { unsigned_abs arm ≤ ARM_LIMIT }
    ensures value { result ≡ product arm arm }
    ensures size { unsigned_abs result ≤ 2 ^ 32 }
{
    arm.unchecked_mul(arm)
}

/// A component of an arm times a component of a direction.
#[inline]
#[tactic(auto, using(crate::proofs::Sizes::times_within))]
pub(crate) fn arm_by_direction(arm: Fx, direction: Fx) -> Fx
    requires arm { unsigned_abs arm ≤ ARM_LIMIT }
    requires direction { unsigned_abs direction ≤ DIRECTION_LIMIT }
    ensures value { result ≡ product arm direction }
    ensures size { unsigned_abs result ≤ 2 ^ 29 }
{
    arm.unchecked_mul(direction)
}

/// The square of the part of an arm along a direction.
#[inline]
#[tactic(auto, using(crate::proofs::Sizes::times_within))]
pub(crate) fn square_of_part(part: Fx) -> Fx
    requires { unsigned_abs part ≤ 2 ^ 30 }
    ensures value { result ≡ product part part }
    ensures size { unsigned_abs result ≤ 2 ^ 36 }
{
    part.unchecked_mul(part)
}
