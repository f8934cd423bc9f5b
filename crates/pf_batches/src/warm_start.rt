//! Warm starting of contacts side by side.

ghost use Rattle.std.specs.Prelude.{◌≡◌, ◌≤◌, ◌*◌, ◌^◌, ◌+◌, IfSome, pos};
ghost use Rattle.std.specs.Int.RustNames.{unsigned_abs};
ghost use Rattle.pf_rot.specs.Vector.{add, scale};
ghost use Rattle.pf_rows.specs.Small.{IsShort};
ghost use Rattle.pf_solver.specs.Impulse.{after_warm_start};
ghost use Rattle.pf_lanes.specs.Lanes.{Lane, number_in};
ghost use Rattle.pf_bundles.specs.Prepared.{constraint_in, vector_in};
ghost use Rattle.pf_batches.specs.Contact.{state_in};
ghost use Rattle.pf_batches.specs.Limits.{AreGrown, IsContactWithin};

use crate::contact::ContactLanes;
use crate::impulse::{after_any_impulse, impulse_along, is_ready, twice};
use pf_bundles::limits::{LANE_DIRECTION_LIMIT, LANE_LIMIT, NUMBER_LIMIT};
use pf_bundles::{ConstraintLanes, PreparedLanes, VectorLanes};
use pf_lanes::Lanes;

/// The magnitudes.
#[inline(always)]
fn magnitudes(numbers: Lanes) -> Lanes
    ensures { (k : Lane) → number_in k result ≡ pos (unsigned_abs (number_in k numbers)) }
{
    numbers.greatest(numbers.negated())
}

/// The sums of two vectors.
#[inline(always)]
#[tactic(auto, unfolding(pf_rot::specs::Vector::add))]
fn sums(first: &VectorLanes, second: &VectorLanes) -> VectorLanes
    requires first { (k : Lane) → IsShort (2 * LANE_LIMIT) (vector_in k first.now) }
    requires second { (k : Lane) → IsShort (2 * LANE_LIMIT) (vector_in k second.now) }
    ensures value { (k : Lane)
        → vector_in k result ≡ add (vector_in k first.now) (vector_in k second.now) }
    ensures x { (k : Lane) → unsigned_abs (number_in k result.x)
        ≤ unsigned_abs (number_in k first.now.x) + unsigned_abs (number_in k second.now.x) }
    ensures y { (k : Lane) → unsigned_abs (number_in k result.y)
        ≤ unsigned_abs (number_in k first.now.y) + unsigned_abs (number_in k second.now.y) }
{
    VectorLanes {
        x: first.x.plus(second.x),
        y: first.y.plus(second.y),
    }
}

/// Twice the sums of the magnitudes of both impulses: neither part of the impulse of a warm start
/// exceeds that.
#[inline(always)]
#[tactic(auto, unfolding(pf_num::specs::Fx::sum, pf_num::specs::Fx::saturate))]
fn sizes(normal: Lanes, tangent: Lanes) -> Lanes
    requires normal { (k : Lane) → unsigned_abs (number_in k normal) ≤ NUMBER_LIMIT }
    requires tangent { (k : Lane) → unsigned_abs (number_in k tangent) ≤ NUMBER_LIMIT }
    ensures { (k : Lane) → unsigned_abs (number_in k result)
        ≡ 2 * (unsigned_abs (number_in k normal) + unsigned_abs (number_in k tangent)) }
{
    twice(magnitudes(normal).plus(magnitudes(tangent)))
}

/// The impulses of the last tick: the sums of those along the normals and those along the tangents.
#[inline(always)]
fn impulses(constraint: &ConstraintLanes, normal: Lanes, tangent: Lanes) -> VectorLanes
    requires normal { (k : Lane) → unsigned_abs (number_in k normal) ≤ LANE_LIMIT }
    requires tangent { (k : Lane) → unsigned_abs (number_in k tangent) ≤ LANE_LIMIT }
    requires along { (k : Lane) → IsShort LANE_DIRECTION_LIMIT (vector_in k constraint.now.normal) }
    requires across { (k : Lane)
        → IsShort LANE_DIRECTION_LIMIT (vector_in k constraint.now.tangent) }
    ensures value { (k : Lane) → vector_in k result
        ≡ add (scale (number_in k normal) (vector_in k constraint.now.normal))
        (scale (number_in k tangent) (vector_in k constraint.now.tangent)) }
    ensures size { (k : Lane) → IsShort
        (2 * (unsigned_abs (number_in k normal) + unsigned_abs (number_in k tangent)))
        (vector_in k result) }
{
    let along_normal = impulse_along(normal, &constraint.normal);
    let along_tangent = impulse_along(tangent, &constraint.tangent);
    sums(&along_normal, &along_tangent)
}

/// Each contact after the impulses of the last tick, or `None` where a number is above a limit.
#[inline(always)]
#[tactic(auto, unfolding(pf_solver::specs::Impulse::after_warm_start))]
pub(crate) fn after_warm_start(
    prepared: &PreparedLanes,
    state: &ContactLanes,
) -> Option<ContactLanes>
    requires { (k : Lane) → IsContactWithin NUMBER_LIMIT (state_in k prepared.now state.now) }
    ensures value { IfSome result (λ after. (k : Lane) → state_in k prepared.now after
        ≡ after_warm_start (constraint_in k prepared.now.constraint)
        (state_in k prepared.now state.now)) }
    ensures size { IfSome result (λ after. (k : Lane)
        → AreGrown (2 ^ 30) (state_in k prepared.now state.now) (state_in k prepared.now after)) }
{
    let (normal, tangent) = (state.normal, state.tangent);
    let size = sizes(normal, tangent);
    if !is_ready(prepared, state) || !size.are_within(2 * LANE_LIMIT) {
        return None;
    }
    let impulse = impulses(prepared.constraint(), normal, tangent);
    after_any_impulse(prepared, &impulse, size, state)
}
