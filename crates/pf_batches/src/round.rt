//! One round of contacts side by side: the step of the normal, and that of friction.

ghost use Rattle.std.specs.Prelude.{◌≡◌, ◌≤◌, ◌<◌, ◌^◌, ◌+◌, ◌*◌, ◌≤ℤ◌, pos, IfSome, IsSome};
ghost use Rattle.std.specs.Int.RustNames.{unsigned_abs};
ghost use Rattle.pf_solver.specs.Impulse.{after_friction_step, after_impulse, after_normal_step, after_round, normal_impulse, tangent_impulse};
ghost use Rattle.pf_lanes.specs.Lanes.{Lane, number_in};
ghost use Rattle.pf_bundles.specs.Prepared.{constraint_in, vector_in};
ghost use Rattle.pf_num.specs.Fx.{difference, sum};
ghost use Rattle.pf_rot.specs.Vector.{scale};
ghost use Rattle.pf_rows.specs.Small.{IsShort};
ghost use Rattle.pf_batches.specs.Contact.{state_in};
ghost use Rattle.pf_batches.specs.Limits.{AreGrown, AreShort, IsContactWithin, IsAddition, IsReady, SpinsWithin};

use crate::contact::ContactLanes;
use crate::impulse::{
    after_any_impulse, after_impulse, are_slow, impulse_along, is_ready, relative_velocity,
    speed_along, times, twice,
};
use pf_bundles::limits::{LANE_DIRECTION_LIMIT, LANE_LIMIT, NUMBER_LIMIT, PRODUCT_LIMIT};
use pf_bundles::{PreparedLanes, ScaledVectors};
use pf_lanes::Lanes;

/// What the step adds to the accumulated normal impulses, or `None` where a number is above a
/// limit. A sum that would be below 0 becomes 0: at least the opposite of the old impulse is added.
#[inline(always)]
#[tactic(auto, unfolding(pf_solver::specs::Impulse::normal_impulse), using(crate::proofs::Sums::lacking, crate::proofs::Additions::normal_added, crate::proofs::Additions::normal_total, crate::proofs::Additions::normal_size))]
fn normal_pushes(prepared: &PreparedLanes, state: &ContactLanes) -> Option<Lanes>
    requires ready { (k : Lane)
        → IsReady (constraint_in k prepared.now.constraint) (state_in k prepared.now state.now) }
    requires unknowns { (k : Lane)
        → IsContactWithin NUMBER_LIMIT (state_in k prepared.now state.now) }
    ensures added { IfSome result (λ added. (k : Lane) → number_in k added ≡ difference
        (normal_impulse (constraint_in k prepared.now.constraint)
        (state_in k prepared.now state.now))
        (number_in k state.now.normal)) }
    ensures total { IfSome result
        (λ added. (k : Lane) → sum (number_in k state.now.normal) (number_in k added)
        ≡ normal_impulse (constraint_in k prepared.now.constraint)
        (state_in k prepared.now state.now)) }
    ensures size { IfSome result (λ added. (k : Lane) → IsAddition (number_in k state.now.normal)
        (number_in k added) (unsigned_abs (number_in k state.now.normal) + 2 ^ 29)) }
{
    let velocity = relative_velocity(prepared, state);
    if !are_slow(&velocity) {
        return None;
    }
    let constraint = prepared.constraint();
    let speed = speed_along(&velocity, &constraint.normal);
    let wanted = constraint.bias.minus(speed);
    if !wanted.product_is_below(constraint.normal_mass, PRODUCT_LIMIT) {
        return None;
    }
    let change = times(constraint.normal_mass, wanted);
    Some(state.normal.negated().greatest(change))
}

/// Both bodies of each contact after impulses along these directions, each of them tested; `None`
/// where what they do is not exact, or a spin is then too great.
#[cold]
#[inline(never)]
fn after_great_push(
    prepared: &PreparedLanes,
    direction: &ScaledVectors,
    added: Lanes,
    state: ContactLanes,
) -> Option<ContactLanes>
    requires ready { (k : Lane)
        → IsReady (constraint_in k prepared.now.constraint) (state_in k prepared.now state) }
    requires direction { (k : Lane) → IsShort LANE_DIRECTION_LIMIT (vector_in k direction.now) }
    requires added { (k : Lane) → unsigned_abs (number_in k added) ≤ NUMBER_LIMIT + 2 ^ 51 }
    requires velocities { (k : Lane)
        → AreShort (NUMBER_LIMIT + 2 ^ 30) (state_in k prepared.now state) }
    ensures value { IfSome result (λ after. (k : Lane) → state_in k prepared.now after
        ≡ after_impulse (constraint_in k prepared.now.constraint)
        (scale (number_in k added) (vector_in k direction.now))
        (state_in k prepared.now state)) }
    ensures size { IfSome result (λ after. (k : Lane)
        → AreGrown (2 ^ 29) (state_in k prepared.now state) (state_in k prepared.now after)) }
    ensures ready { IfSome result (λ after. (k : Lane)
        → IsReady (constraint_in k prepared.now.constraint) (state_in k prepared.now after)) }
{
    let size = twice(added);
    if !size.are_within(2 * LANE_LIMIT) {
        return None;
    }
    let impulse = impulse_along(added, direction);
    let after = after_any_impulse(prepared, &impulse, size, &state)?;
    if is_ready(prepared, &after) {
        Some(after)
    } else {
        None
    }
}

/// Both bodies of each contact after impulses along these directions, or `None` where what they do
/// is not exact, or a spin is then too great. Within the limits of the lanes neither can be.
#[inline(always)]
fn after_push(
    prepared: &PreparedLanes,
    direction: &ScaledVectors,
    added: Lanes,
    state: &ContactLanes,
) -> Option<ContactLanes>
    requires ready { (k : Lane)
        → IsReady (constraint_in k prepared.now.constraint) (state_in k prepared.now state.now) }
    requires direction { (k : Lane) → IsShort LANE_DIRECTION_LIMIT (vector_in k direction.now) }
    requires added { (k : Lane) → unsigned_abs (number_in k added) ≤ NUMBER_LIMIT + 2 ^ 51 }
    requires velocities { (k : Lane)
        → AreShort (NUMBER_LIMIT + 2 ^ 30) (state_in k prepared.now state.now) }
    ensures value { IfSome result (λ after. (k : Lane) → state_in k prepared.now after
        ≡ after_impulse (constraint_in k prepared.now.constraint)
        (scale (number_in k added) (vector_in k direction.now))
        (state_in k prepared.now state.now)) }
    ensures size { IfSome result (λ after. (k : Lane)
        → AreGrown (2 ^ 29) (state_in k prepared.now state.now) (state_in k prepared.now after)) }
    ensures ready { IfSome result (λ after. (k : Lane)
        → SpinsWithin (unsigned_abs (number_in k prepared.now.spin_limit))
        (state_in k prepared.now state.now)
        → IsReady (constraint_in k prepared.now.constraint) (state_in k prepared.now after)) }
    ensures some { ((k : Lane) → pos (2 * unsigned_abs (number_in k added))
        ≤ℤ number_in k prepared.now.push_limit) → IsSome result }
{
    if !twice(added).are_within_each(prepared.push_limit()) {
        let after = after_great_push(prepared, direction, added, *state)?;
        return Some(after);
    }
    let impulse = impulse_along(added, direction);
    Some(after_impulse(prepared, &impulse, state))
}

/// The step of the normals, or `None` where a number is above a limit.
#[inline(always)]
#[tactic(auto, unfolding(pf_solver::specs::Impulse::after_normal_step, pf_solver::specs::Impulse::after_impulse))]
fn after_normal_step(prepared: &PreparedLanes, state: &ContactLanes) -> Option<ContactLanes>
    requires ready { (k : Lane)
        → IsReady (constraint_in k prepared.now.constraint) (state_in k prepared.now state.now) }
    requires unknowns { (k : Lane)
        → IsContactWithin NUMBER_LIMIT (state_in k prepared.now state.now) }
    ensures value { IfSome result (λ after. (k : Lane) → state_in k prepared.now after
        ≡ after_normal_step (constraint_in k prepared.now.constraint)
        (state_in k prepared.now state.now)) }
    ensures size { IfSome result (λ after. (k : Lane)
        → AreGrown (2 ^ 29) (state_in k prepared.now state.now) (state_in k prepared.now after)) }
    ensures ready { IfSome result (λ after. (k : Lane)
        → SpinsWithin (unsigned_abs (number_in k prepared.now.spin_limit))
        (state_in k prepared.now state.now)
        → IsReady (constraint_in k prepared.now.constraint) (state_in k prepared.now after)) }
{
    let added = normal_pushes(prepared, state)?;
    let normal = state.normal.plus(added);
    let after = after_push(prepared, &prepared.constraint().normal, added, state)?;
    Some(after.with_normal(normal))
}

/// What the step adds to the accumulated tangent impulses, or `None` where a number is above a
/// limit.
#[inline(always)]
#[tactic(auto, unfolding(pf_solver::specs::Impulse::tangent_impulse, pf_solver::specs::Impulse::friction_limit), using(crate::proofs::Additions::opposite_product, crate::proofs::Additions::tangent_added, crate::proofs::Additions::tangent_total, crate::proofs::Additions::tangent_size))]
fn tangent_pushes(prepared: &PreparedLanes, state: &ContactLanes) -> Option<Lanes>
    requires ready { (k : Lane)
        → IsReady (constraint_in k prepared.now.constraint) (state_in k prepared.now state.now) }
    requires unknowns { (k : Lane)
        → IsContactWithin (NUMBER_LIMIT + 2 ^ 30) (state_in k prepared.now state.now) }
    ensures added { IfSome result (λ added. (k : Lane) → number_in k added ≡ difference
        (tangent_impulse (constraint_in k prepared.now.constraint)
        (state_in k prepared.now state.now)) (number_in k state.now.tangent)) }
    ensures total { IfSome result
        (λ added. (k : Lane) → sum (number_in k state.now.tangent) (number_in k added)
        ≡ tangent_impulse (constraint_in k prepared.now.constraint)
        (state_in k prepared.now state.now)) }
    ensures size { IfSome result (λ added. (k : Lane)
        → IsAddition (number_in k state.now.tangent) (number_in k added) (2 ^ 29)) }
{
    let velocity = relative_velocity(prepared, state);
    if !are_slow(&velocity) {
        return None;
    }
    let constraint = prepared.constraint();
    let speed = speed_along(&velocity, &constraint.tangent);
    let normal = state.normal;
    let is_exact = speed.product_is_below(constraint.tangent_mass, PRODUCT_LIMIT)
        & normal.product_is_below(constraint.friction, PRODUCT_LIMIT);
    if !is_exact {
        return None;
    }
    let limit = times(constraint.friction, normal);
    let change = times(constraint.tangent_mass, speed).negated();
    let least = limit.negated().minus(state.tangent);
    let room = limit.minus(state.tangent);
    Some(least.greatest(room.least(change)))
}

/// The step of friction, or `None` where a number is above a limit.
#[inline(always)]
#[tactic(auto, unfolding(pf_solver::specs::Impulse::after_friction_step, pf_solver::specs::Impulse::after_impulse))]
fn after_friction_step(prepared: &PreparedLanes, state: &ContactLanes) -> Option<ContactLanes>
    requires ready { (k : Lane)
        → IsReady (constraint_in k prepared.now.constraint) (state_in k prepared.now state.now) }
    requires unknowns { (k : Lane)
        → IsContactWithin (NUMBER_LIMIT + 2 ^ 30) (state_in k prepared.now state.now) }
    ensures value { IfSome result (λ after. (k : Lane) → state_in k prepared.now after
        ≡ after_friction_step (constraint_in k prepared.now.constraint)
        (state_in k prepared.now state.now)) }
    ensures size { IfSome result (λ after. (k : Lane)
        → AreGrown (2 ^ 29) (state_in k prepared.now state.now) (state_in k prepared.now after)) }
{
    let added = tangent_pushes(prepared, state)?;
    let tangent = state.tangent.plus(added);
    let after = after_push(prepared, &prepared.constraint().tangent, added, state)?;
    Some(after.with_tangent(tangent))
}

/// Each contact after one round, or `None` where a number is above a limit.
#[inline(always)]
#[tactic(auto, unfolding(pf_solver::specs::Impulse::after_round))]
pub(crate) fn after_round(prepared: &PreparedLanes, state: &ContactLanes) -> Option<ContactLanes>
    requires { (k : Lane) → IsContactWithin NUMBER_LIMIT (state_in k prepared.now state.now) }
    ensures value { IfSome result (λ after. (k : Lane) → state_in k prepared.now after
        ≡ after_round (constraint_in k prepared.now.constraint)
        (state_in k prepared.now state.now)) }
    ensures size { IfSome result (λ after. (k : Lane)
        → AreGrown (2 ^ 30) (state_in k prepared.now state.now) (state_in k prepared.now after)) }
{
    if !is_ready(prepared, state) {
        return None;
    }
    let pushed = after_normal_step(prepared, state)?;
    after_friction_step(prepared, &pushed)
}
