//! The two steps of a round on the fast path: that of the normal, and that of friction.

ghost use Rattle.std.specs.Prelude.{◌≡◌, ◌≤◌, ◌<◌, ◌^◌, IfSome, IsTrue};
ghost use Rattle.std.specs.Int.RustNames.{unsigned_abs};
ghost use Rattle.pf_rows.specs.Small.{HasShortDirections, HasSmallNumbers};
ghost use Rattle.pf_solver.specs.Impulse.{after_friction_step, after_normal_step, friction_limit, normal_impulse, tangent_impulse};
ghost use Rattle.pf_solver.specs.FastPath.{ArePushed, AreSlow, HasSmallArms};

use crate::fast_path::bodies::{after_impulse, impulse_along, relative_velocity, speed_along};
use crate::fast_path::products::part_by_number;
use crate::impulse::ContactState;
use pf_num::Fx;
use pf_rows::limits::{
    ACCUMULATED_LIMIT, DIRECTION_LIMIT, NORMAL_LIMIT, SPEED_CHANGE_LIMIT, SPIN_LIMIT, STEP_LIMIT,
};
use pf_rows::{Constraint, Impulses, is_within};

/// The accumulated normal impulse after the step, or `None`.
#[inline(always)]
#[tactic(auto, unfolding(crate::specs::Impulse::normal_impulse))]
fn normal_impulse(constraint: &Constraint, state: &ContactState) -> Option<Fx>
    requires directions { HasShortDirections DIRECTION_LIMIT constraint.now }
    requires numbers { HasSmallNumbers constraint.now }
    requires arms { HasSmallArms constraint.now state.now }
    requires bodies { AreSlow state.now }
    requires impulse { unsigned_abs state.now.impulses.normal ≤ ACCUMULATED_LIMIT }
    ensures value { IfSome result (λ total. total ≡ normal_impulse constraint.now state.now) }
    ensures size { IfSome result (λ total. unsigned_abs total ≤ NORMAL_LIMIT) }
{
    let speed = speed_along(relative_velocity(constraint, state), constraint.normal);
    let wanted = speed.neg().unchecked_add(constraint.bias);
    if !is_within(wanted, SPEED_CHANGE_LIMIT) {
        return None;
    }
    let change = part_by_number(constraint.normal_mass, wanted);
    let total = Fx::ZERO.max(state.impulses.normal.unchecked_add(change));
    if is_within(total, NORMAL_LIMIT) {
        Some(total)
    } else {
        None
    }
}

/// Whether both bodies spin slowly enough for the next step.
#[inline]
fn spin_slowly(state: &ContactState) -> bool
    ensures { IsTrue result → (unsigned_abs state.now.first.spin ≤ SPIN_LIMIT)
        × (unsigned_abs state.now.second.spin ≤ SPIN_LIMIT) }
{
    let (first, second) = (&state.first, &state.second);
    is_within(first.spin, SPIN_LIMIT) && is_within(second.spin, SPIN_LIMIT)
}

/// The step of the normal, or `None`.
#[inline(always)]
#[tactic(auto, unfolding(crate::specs::Impulse::after_normal_step))]
pub(crate) fn after_normal_step(
    constraint: &Constraint,
    state: &ContactState,
) -> Option<ContactState>
    requires directions { HasShortDirections DIRECTION_LIMIT constraint.now }
    requires numbers { HasSmallNumbers constraint.now }
    requires arms { HasSmallArms constraint.now state.now }
    requires bodies { AreSlow state.now }
    requires impulse { unsigned_abs state.now.impulses.normal ≤ ACCUMULATED_LIMIT }
    ensures value { IfSome result (λ after. after ≡ after_normal_step constraint.now state.now) }
    ensures bodies { IfSome result (λ after. ArePushed after) }
    ensures normal { IfSome result (λ after. unsigned_abs after.impulses.normal ≤ NORMAL_LIMIT) }
    ensures tangent { IfSome result
        (λ after. after.impulses.tangent ≡ state.now.impulses.tangent) }
    ensures arms { IfSome result (λ after. HasSmallArms constraint.now after) }
{
    let normal = normal_impulse(constraint, state)?;
    let added = normal.unchecked_sub(state.impulses.normal);
    if !is_within(added, STEP_LIMIT) {
        return None;
    }
    let impulse = impulse_along(added, constraint.normal);
    let after = after_impulse(constraint, impulse, state);
    if !spin_slowly(&after) {
        return None;
    }
    let impulses = Impulses {
        normal,
        ..state.impulses
    };
    Some(ContactState { impulses, ..after })
}

/// The accumulated tangent impulse after the step, or `None`.
#[inline(always)]
#[tactic(auto, unfolding(crate::specs::Impulse::tangent_impulse, crate::specs::Impulse::friction_limit), using(crate::proofs::Sizes::clamped_within))]
fn tangent_impulse(constraint: &Constraint, state: &ContactState) -> Option<Fx>
    requires directions { HasShortDirections DIRECTION_LIMIT constraint.now }
    requires numbers { HasSmallNumbers constraint.now }
    requires arms { HasSmallArms constraint.now state.now }
    requires bodies { ArePushed state.now }
    requires normal { unsigned_abs state.now.impulses.normal ≤ NORMAL_LIMIT }
    requires tangent { unsigned_abs state.now.impulses.tangent ≤ ACCUMULATED_LIMIT }
    ensures value { IfSome result (λ total. total ≡ tangent_impulse constraint.now state.now) }
    ensures size { IfSome result (λ total. unsigned_abs total ≤ 2 ^ 38) }
{
    let speed = speed_along(relative_velocity(constraint, state), constraint.tangent);
    if !is_within(speed, SPEED_CHANGE_LIMIT) {
        return None;
    }
    let change = part_by_number(constraint.tangent_mass, speed.neg());
    let limit = part_by_number(constraint.friction, state.impulses.normal);
    let total = state.impulses.tangent.unchecked_add(change);
    Some(limit.neg().max(limit.min(total)))
}

/// The step of friction, or `None`.
#[inline(always)]
#[tactic(auto, unfolding(crate::specs::Impulse::after_friction_step))]
pub(crate) fn after_friction_step(
    constraint: &Constraint,
    state: &ContactState,
) -> Option<ContactState>
    requires directions { HasShortDirections DIRECTION_LIMIT constraint.now }
    requires numbers { HasSmallNumbers constraint.now }
    requires arms { HasSmallArms constraint.now state.now }
    requires bodies { ArePushed state.now }
    requires normal { unsigned_abs state.now.impulses.normal ≤ NORMAL_LIMIT }
    requires tangent { unsigned_abs state.now.impulses.tangent ≤ ACCUMULATED_LIMIT }
    ensures { IfSome result (λ after. after ≡ after_friction_step constraint.now state.now) }
{
    let tangent = tangent_impulse(constraint, state)?;
    let added = tangent.unchecked_sub(state.impulses.tangent);
    if !is_within(added, STEP_LIMIT) {
        return None;
    }
    let impulse = impulse_along(added, constraint.tangent);
    let after = after_impulse(constraint, impulse, state);
    let impulses = Impulses {
        tangent,
        ..state.impulses
    };
    Some(ContactState { impulses, ..after })
}
