//! The fast path of the pre-step, of warm starting and of rounds: the general path's results
//! without overflow tests of each sum and product. Each function returns `None` where a number is
//! above a limit of `pf_rows::limits`.

ghost use Rattle.std.specs.Prelude.{◌≡◌, IfSome, IsTrue};
ghost use Rattle.pf_rows.specs.Small.{HasShortDirections, HasSmallNumbers, IsHeavy, IsSmallArm};
ghost use Rattle.pf_solver.specs.Constraint.{squared_lever_arm, tangent_of};
ghost use Rattle.pf_solver.specs.Impulse.{after_round, after_warm_start};
ghost use Rattle.pf_solver.specs.Velocities.{static_motion};
ghost use Rattle.pf_solver.specs.FastPath.{HasSmallArms, IsArmFor, IsMassOf, IsSlow, StandsFor};

mod bodies;
mod lever_arm;
mod products;
mod steps;

use crate::fast_path::bodies::{after_impulse, impulse_along};
use crate::fast_path::lever_arm::squared_lever_arms;
use crate::fast_path::steps::{after_friction_step, after_normal_step};
use crate::impulse::{ContactState, Motion};
use pf_num::Fx;
use pf_rot::V2;
use pf_rows::limits::{ACCUMULATED_LIMIT, ARM_LIMIT, DIRECTION_LIMIT, SPEED_LIMIT, STEP_LIMIT};
use pf_rows::{Constraint, InverseMass, Prepared, is_short, is_within};

/// Whether a body is slow enough for the fast path.
#[inline]
fn is_slow_enough(body: &Motion) -> bool
    requires { IsHeavy body.now.mass }
    ensures { IsTrue result → IsSlow body.now }
{
    let spin = body.spin;
    is_short(body.velocity, SPEED_LIMIT) && is_within(spin, SPEED_LIMIT)
}

/// Warm starting by a constraint that is known to be small; `None` where a velocity or an impulse
/// is too great.
#[inline(always)]
#[tactic(auto, unfolding(crate::specs::Impulse::after_warm_start, pf_rot::specs::Vector::add))]
fn after_warm_start(constraint: &Constraint, state: &ContactState) -> Option<ContactState>
    requires directions { HasShortDirections DIRECTION_LIMIT constraint.now }
    requires arms { HasSmallArms constraint.now state.now }
    requires first { IsHeavy state.now.first.mass }
    requires second { IsHeavy state.now.second.mass }
    ensures { IfSome result (λ after. after ≡ after_warm_start constraint.now state.now) }
{
    let impulses = &state.impulses;
    let slow = is_slow_enough(&state.first) && is_slow_enough(&state.second);
    if !slow || !impulses.are_within(STEP_LIMIT) {
        return None;
    }
    let along_normal = impulse_along(impulses.normal, constraint.normal);
    let along_tangent = impulse_along(impulses.tangent, constraint.tangent);
    let impulse = V2 {
        x: along_normal.x.unchecked_add(along_tangent.x),
        y: along_normal.y.unchecked_add(along_tangent.y),
    };
    Some(after_impulse(constraint, impulse, state))
}

/// One contact in one round by a constraint that is known to be small; `None` where a velocity or
/// an impulse is too great.
#[inline(always)]
#[tactic(auto, unfolding(crate::specs::Impulse::after_round))]
fn after_round(constraint: &Constraint, state: &ContactState) -> Option<ContactState>
    requires directions { HasShortDirections DIRECTION_LIMIT constraint.now }
    requires numbers { HasSmallNumbers constraint.now }
    requires arms { HasSmallArms constraint.now state.now }
    requires first { IsHeavy state.now.first.mass }
    requires second { IsHeavy state.now.second.mass }
    ensures { IfSome result (λ after. after ≡ after_round constraint.now state.now) }
{
    let slow = is_slow_enough(&state.first) && is_slow_enough(&state.second);
    if !slow || !state.impulses.are_within(ACCUMULATED_LIMIT) {
        return None;
    }
    let after = after_normal_step(constraint, state)?;
    after_friction_step(constraint, &after)
}

/// Whether a body stands still and no impulse moves it.
#[inline]
fn is_static(body: &Motion) -> bool
    ensures { IsTrue result → body.now ≡ static_motion }
{
    let mass = body.mass;
    let spin = body.spin;
    mass.inverse_mass == Fx::ZERO
        && mass.inverse_inertia == Fx::ZERO
        && body.velocity == V2::ZERO
        && spin == Fx::ZERO
}

/// The arm to calculate with: this one where it is small, zero where the body is static, and else
/// `None`.
#[inline(always)]
#[tactic(auto, using(crate::proofs::Sizes::arm_for_mass, crate::proofs::Sizes::no_arm))]
fn small_arm(own: &InverseMass, arm: V2, is_small: bool, body: &Motion) -> Option<V2>
    requires mass { IsMassOf own.now body.now.mass }
    requires small { IsTrue is_small → IsSmallArm own.now arm }
    ensures arm { IfSome result (λ given. IsArmFor body.now arm given) }
    ensures small { IfSome result (λ given. IsSmallArm body.now.mass given) }
{
    if is_small {
        Some(arm)
    } else if is_static(body) {
        Some(V2::ZERO)
    } else {
        None
    }
}

/// The constraint for the fast path. The arm of a static body has no effect, so one that is too
/// great for the fast path becomes zero. `None` where another number is too great.
#[inline(always)]
#[tactic(auto, using(crate::proofs::Sizes::heavy))]
fn small_constraint(prepared: &Prepared, state: &ContactState) -> Option<Constraint>
    requires first { IsMassOf prepared.now.first_mass state.now.first.mass }
    requires second { IsMassOf prepared.now.second_mass state.now.second.mass }
    ensures { IfSome result (λ c. StandsFor prepared.now.constraint state.now c) }
{
    if !prepared.is_small() {
        return None;
    }
    let own = prepared.constraint();
    let (first, second) = (&state.first, &state.second);
    let is_small = prepared.has_small_first_arm();
    let first_arm = small_arm(&prepared.first_mass(), own.first_arm, is_small, first)?;
    let is_small = prepared.has_small_second_arm();
    let second_arm = small_arm(&prepared.second_mass(), own.second_arm, is_small, second)?;
    Some(Constraint {
        first_arm,
        second_arm,
        ..*own
    })
}

/// How far from the centre an impulse along the normal acts, and one along the tangent, squared, by
/// the fast path, or `None`.
#[inline(always)]
pub fn fast_squared_lever_arms(arm: V2, normal: V2) -> Option<(Fx, Fx)>
    ensures { IfSome result (λ squared. squared
        ≡ (squared_lever_arm arm normal, squared_lever_arm arm (tangent_of normal))) }
{
    if is_short(arm, ARM_LIMIT) && is_short(normal, DIRECTION_LIMIT) {
        Some(squared_lever_arms(arm, normal))
    } else {
        None
    }
}

/// Warm starting by the fast path, or `None`.
#[inline]
#[tactic(auto, using(crate::proofs::StaticArms::warm_start_for))]
pub fn fast_warm_start(prepared: &Prepared, state: &ContactState) -> Option<ContactState>
    requires first { IsMassOf prepared.now.first_mass state.now.first.mass }
    requires second { IsMassOf prepared.now.second_mass state.now.second.mass }
    ensures { IfSome result
        (λ after. after ≡ after_warm_start prepared.now.constraint state.now) }
{
    let constraint = small_constraint(prepared, state)?;
    after_warm_start(&constraint, state)
}

/// One contact in one round by the fast path, or `None`.
#[inline]
#[tactic(auto, using(crate::proofs::StaticArms::round_for))]
pub fn fast_round(prepared: &Prepared, state: &ContactState) -> Option<ContactState>
    requires first { IsMassOf prepared.now.first_mass state.now.first.mass }
    requires second { IsMassOf prepared.now.second_mass state.now.second.mass }
    ensures { IfSome result (λ after. after ≡ after_round prepared.now.constraint state.now) }
{
    let constraint = small_constraint(prepared, state)?;
    after_round(&constraint, state)
}
