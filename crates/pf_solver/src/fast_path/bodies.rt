//! Two bodies at a contact, on the fast path: their relative velocity, and what an impulse does to
//! them.

ghost use Rattle.std.specs.Prelude.{◌≡◌, ◌≤◌, ◌^◌};
ghost use Rattle.std.specs.Int.RustNames.{unsigned_abs};
ghost use Rattle.pf_num.specs.Fx.{product};
ghost use Rattle.pf_rot.specs.Vector.{add, cross, cross_sv, dot, scale};
ghost use Rattle.pf_rows.specs.Small.{IsHeavy, IsShort, IsSmallArm};
ghost use Rattle.pf_solver.specs.Impulse.{after_impulse, first_after, relative_velocity, second_after};
ghost use Rattle.pf_solver.specs.FastPath.{AreNudged, ArePushed, HasSmallArms, IsNudged, IsPushed};

use crate::fast_path::products::{
    arm_by_impulse, impulse_by_direction, inertia_by_turn, mass_by_impulse, speed_by_direction,
    spin_by_arm,
};
use crate::impulse::{ContactState, Motion};
use pf_num::Fx;
use pf_rot::V2;
use pf_rows::limits::{ARM_LIMIT, DIRECTION_LIMIT, STEP_LIMIT};
use pf_rows::{Constraint, InverseMass};

/// The velocity of the point of a body at this arm.
#[inline]
#[tactic(auto, unfolding(pf_rot::specs::Vector::add, pf_rot::specs::Vector::cross_sv))]
fn velocity_at(body: &Motion, arm: V2) -> V2
    requires body { IsPushed body.now }
    requires arm { IsShort ARM_LIMIT arm }
    ensures value { result ≡ add body.now.velocity (cross_sv body.now.spin arm) }
    ensures size { IsShort (2 ^ 36) result }
{
    let spin = body.spin;
    let velocity = body.velocity;
    V2 {
        x: velocity.x.unchecked_add(spin_by_arm(spin, arm.y).neg()),
        y: velocity.y.unchecked_add(spin_by_arm(spin, arm.x)),
    }
}

/// The relative velocity at the contact.
#[inline]
#[tactic(auto, unfolding(crate::specs::Impulse::relative_velocity, pf_rot::specs::Vector::sub))]
pub(crate) fn relative_velocity(constraint: &Constraint, state: &ContactState) -> V2
    requires arms { HasSmallArms constraint.now state.now }
    requires bodies { ArePushed state.now }
    ensures value { result ≡ relative_velocity constraint.now state.now }
    ensures size { IsShort (2 ^ 37) result }
{
    let of_first = velocity_at(&state.first, constraint.first_arm);
    let of_second = velocity_at(&state.second, constraint.second_arm);
    V2 {
        x: of_second.x.unchecked_sub(of_first.x),
        y: of_second.y.unchecked_sub(of_first.y),
    }
}

/// The part of a velocity along a direction.
#[inline]
#[tactic(auto, unfolding(pf_rot::specs::Vector::dot))]
pub(crate) fn speed_along(velocity: V2, direction: V2) -> Fx
    requires velocity { IsShort (2 ^ 37) velocity }
    requires direction { IsShort DIRECTION_LIMIT direction }
    ensures value { result ≡ dot velocity direction }
    ensures size { unsigned_abs result ≤ 2 ^ 39 }
{
    let x = speed_by_direction(velocity.x, direction.x);
    x.unchecked_add(speed_by_direction(velocity.y, direction.y))
}

/// An impulse along a direction.
#[inline]
#[tactic(auto, unfolding(pf_rot::specs::Vector::scale))]
pub(crate) fn impulse_along(impulse: Fx, direction: V2) -> V2
    requires impulse { unsigned_abs impulse ≤ STEP_LIMIT }
    requires direction { IsShort DIRECTION_LIMIT direction }
    ensures value { result ≡ scale impulse direction }
    ensures size { IsShort (2 ^ 27) result }
{
    V2 {
        x: impulse_by_direction(impulse, direction.x),
        y: impulse_by_direction(impulse, direction.y),
    }
}

/// How an impulse at this arm changes the spin of a body.
#[inline]
#[tactic(auto, unfolding(pf_rot::specs::Vector::cross), using(crate::proofs::Sizes::turn_within))]
fn spin_change(mass: &InverseMass, arm: V2, impulse: V2) -> Fx
    requires mass { IsHeavy mass.now }
    requires arm { IsSmallArm mass.now arm }
    requires impulse { IsShort (2 ^ 28) impulse }
    ensures value { result ≡ product mass.now.inverse_inertia (cross arm impulse) }
    ensures size { unsigned_abs result ≤ 2 ^ 38 }
{
    let first = arm_by_impulse(arm.x, impulse.y);
    let second = arm_by_impulse(arm.y, impulse.x);
    inertia_by_turn(mass.inverse_inertia, first.unchecked_sub(second))
}

/// The first body after the reaction to an impulse.
#[inline]
#[tactic(auto, unfolding(crate::specs::Impulse::first_after, pf_rot::specs::Vector::scale, pf_rot::specs::Vector::sub))]
fn first_after(arm: V2, impulse: V2, body: &Motion) -> Motion
    requires arm { IsSmallArm body.now.mass arm }
    requires impulse { IsShort (2 ^ 28) impulse }
    requires body { IsPushed body.now }
    ensures value { result ≡ first_after arm impulse body.now }
    ensures size { IsNudged body.now result }
{
    let mass = body.mass;
    let velocity = body.velocity;
    let spin = body.spin;
    Motion {
        velocity: V2 {
            x: velocity
                .x
                .unchecked_sub(mass_by_impulse(mass.inverse_mass, impulse.x)),
            y: velocity
                .y
                .unchecked_sub(mass_by_impulse(mass.inverse_mass, impulse.y)),
        },
        spin: spin.unchecked_sub(spin_change(&mass, arm, impulse)),
        mass,
    }
}

/// The second body after an impulse.
#[inline]
#[tactic(auto, unfolding(crate::specs::Impulse::second_after, pf_rot::specs::Vector::scale, pf_rot::specs::Vector::add))]
fn second_after(arm: V2, impulse: V2, body: &Motion) -> Motion
    requires arm { IsSmallArm body.now.mass arm }
    requires impulse { IsShort (2 ^ 28) impulse }
    requires body { IsPushed body.now }
    ensures value { result ≡ second_after arm impulse body.now }
    ensures size { IsNudged body.now result }
{
    let mass = body.mass;
    let velocity = body.velocity;
    let spin = body.spin;
    Motion {
        velocity: V2 {
            x: velocity
                .x
                .unchecked_add(mass_by_impulse(mass.inverse_mass, impulse.x)),
            y: velocity
                .y
                .unchecked_add(mass_by_impulse(mass.inverse_mass, impulse.y)),
        },
        spin: spin.unchecked_add(spin_change(&mass, arm, impulse)),
        mass,
    }
}

/// Both bodies after an impulse at the contact point.
#[inline]
#[tactic(auto, unfolding(crate::specs::Impulse::after_impulse))]
pub(crate) fn after_impulse(
    constraint: &Constraint,
    impulse: V2,
    state: &ContactState,
) -> ContactState
    requires arms { HasSmallArms constraint.now state.now }
    requires impulse { IsShort (2 ^ 28) impulse }
    requires bodies { ArePushed state.now }
    ensures value { result ≡ after_impulse constraint.now impulse state.now }
    ensures size { AreNudged state.now result }
{
    ContactState {
        first: first_after(constraint.first_arm, impulse, &state.first),
        second: second_after(constraint.second_arm, impulse, &state.second),
        impulses: state.impulses,
    }
}
