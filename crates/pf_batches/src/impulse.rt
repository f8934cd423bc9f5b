//! Impulses on the bodies of contacts side by side.

ghost use Rattle.std.specs.Prelude.{◌≡◌, ◌≤◌, ◌<◌, ◌^◌, ◌+◌, ◌*◌, ◌↔◌, IfSome, IsTrue};
ghost use Rattle.std.specs.Int.RustNames.{unsigned_abs};
ghost use Rattle.pf_num.specs.Fx.{difference, product, sum};
ghost use Rattle.pf_rot.specs.Vector.{add, cross, dot, scale, sub};
ghost use Rattle.pf_rows.specs.Small.{IsShort};
ghost use Rattle.pf_solver.specs.Impulse.{after_impulse, relative_velocity};
ghost use Rattle.pf_lanes.specs.Lanes.{Lane, number_in};
ghost use Rattle.pf_bundles.specs.Prepared.{constraint_in, mass_in, vector_in};
ghost use Rattle.pf_batches.specs.Contact.{state_in};
ghost use Rattle.pf_batches.specs.Limits.{AreGrown, AreShort, IsImpulseExact, IsExactOn, IsGrown, IsReady, SpinsWithin};
ghost use Rattle.pf_bundles.specs.Limits.{HasShortProducts};

use crate::contact::{ContactLanes, MotionChange, MotionLanes};
use pf_bundles::limits::{
    LANE_DIRECTION_LIMIT, LANE_LIMIT, LANE_SPEED_LIMIT, NUMBER_LIMIT, PRODUCT_LIMIT,
    QUARTER_ARM_SPIN,
};
use pf_bundles::{MassLanes, PreparedLanes, ScaledVectors, VectorLanes};
use pf_lanes::{Lanes, Scaled, ShiftedLanes};

/// Whether the spins are within the limits of the lanes.
#[inline(always)]
fn spins_are_within(prepared: &PreparedLanes, state: &ContactLanes) -> bool
    ensures { IsTrue result ↔ ((k : Lane)
        → SpinsWithin (unsigned_abs (number_in k prepared.now.spin_limit))
        (state_in k prepared.now state.now)) }
{
    let limit = prepared.spin_limit();
    let (first, second) = (&state.first, &state.second);
    first.spin.are_within_each(limit) & second.spin.are_within_each(limit)
}

/// Whether the spins are within the limits of the lanes, so that a step may begin.
#[inline(always)]
pub(crate) fn is_ready(prepared: &PreparedLanes, state: &ContactLanes) -> bool
    ensures ready { IsTrue result → (k : Lane)
        → IsReady (constraint_in k prepared.now.constraint) (state_in k prepared.now state.now) }
    ensures spins { IsTrue result ↔ ((k : Lane)
        → SpinsWithin (unsigned_abs (number_in k prepared.now.spin_limit))
        (state_in k prepared.now state.now)) }
{
    let _limits = prepared.spin_limit(); // within which products with arms are exact
    spins_are_within(prepared, state)
}

/// The differences of products.
#[inline(always)]
fn product_differences(a: Lanes, b: Scaled, c: Lanes, d: Scaled) -> Lanes
    requires first { (k : Lane)
        → unsigned_abs (number_in k a) * unsigned_abs (number_in k b) < PRODUCT_LIMIT }
    requires second { (k : Lane)
        → unsigned_abs (number_in k c) * unsigned_abs (number_in k d) < PRODUCT_LIMIT }
    ensures value { (k : Lane) → number_in k result ≡ difference
        (product (number_in k a) (number_in k b)) (product (number_in k c) (number_in k d)) }
    ensures size { (k : Lane) → unsigned_abs (number_in k result) ≤ 2 ^ 30 }
{
    a.shifted_product(b).minus(c.shifted_product(d))
}

/// The velocities of points of second bodies along an axis, as seen from the points of first
/// bodies: what the bodies' velocities and their spins, times these parts of the arms, make of it.
#[inline(always)]
fn between(velocities: (Lanes, Lanes), turns: Lanes) -> Lanes
    requires first { (k : Lane) → unsigned_abs (number_in k velocities.0) ≤ NUMBER_LIMIT + 2 ^ 30 }
    requires second { (k : Lane)
        → unsigned_abs (number_in k velocities.1) ≤ NUMBER_LIMIT + 2 ^ 30 }
    requires turns { (k : Lane) → unsigned_abs (number_in k turns) ≤ 2 ^ 30 }
    ensures { (k : Lane) → number_in k result ≡ sum
        (difference (number_in k velocities.1) (number_in k velocities.0)) (number_in k turns) }
{
    let (first, second) = velocities;
    second.minus(first).plus(turns)
}

/// The relative velocity at each contact.
#[inline(always)]
#[tactic(auto, unfolding(pf_solver::specs::Impulse::relative_velocity, pf_rot::specs::Vector::sub, pf_rot::specs::Vector::add, pf_rot::specs::Vector::cross_sv))]
pub(crate) fn relative_velocity(prepared: &PreparedLanes, state: &ContactLanes) -> VectorLanes
    requires ready { (k : Lane)
        → IsReady (constraint_in k prepared.now.constraint) (state_in k prepared.now state.now) }
    requires velocities { (k : Lane)
        → AreShort (NUMBER_LIMIT + 2 ^ 30) (state_in k prepared.now state.now) }
    ensures { (k : Lane) → vector_in k result
        ≡ relative_velocity (constraint_in k prepared.now.constraint)
        (state_in k prepared.now state.now) }
{
    let constraint = prepared.constraint();
    let (first_arm, second_arm) = (constraint.first_arm, constraint.second_arm);
    let (first, second) = (&state.first, &state.second);
    let turns_x = product_differences(first.spin, first_arm.y, second.spin, second_arm.y);
    let turns_y = product_differences(second.spin, second_arm.x, first.spin, first_arm.x);
    VectorLanes {
        x: between((first.velocity.x, second.velocity.x), turns_x),
        y: between((first.velocity.y, second.velocity.y), turns_y),
    }
}

/// Whether each relative velocity is slow enough for a product with a direction.
#[inline(always)]
pub(crate) fn are_slow(velocity: &VectorLanes) -> bool
    ensures { IsTrue result → (k : Lane) → IsShort LANE_SPEED_LIMIT (vector_in k velocity.now) }
{
    let (x, y) = (velocity.x, velocity.y);
    x.are_within(LANE_SPEED_LIMIT) & y.are_within(LANE_SPEED_LIMIT)
}

/// The part of each velocity along a direction.
#[inline(always)]
#[tactic(auto, unfolding(pf_rot::specs::Vector::dot), using(crate::proofs::Sizes::times_below, crate::proofs::Sums::less_opposite))]
pub(crate) fn speed_along(velocity: &VectorLanes, direction: &ScaledVectors) -> Lanes
    requires velocity { (k : Lane) → IsShort LANE_SPEED_LIMIT (vector_in k velocity.now) }
    requires direction { (k : Lane) → IsShort LANE_DIRECTION_LIMIT (vector_in k direction.now) }
    ensures value { (k : Lane) → number_in k result
        ≡ dot (vector_in k velocity.now) (vector_in k direction.now) }
    ensures size { (k : Lane) → unsigned_abs (number_in k result) ≤ 2 ^ 30 }
{
    let (x, y) = (velocity.x, velocity.y);
    x.shifted_product(direction.x)
        .minus(y.shifted_opposite(direction.y))
}

/// A component of an impulse along each direction.
#[inline(always)]
#[tactic(auto, using(crate::proofs::Sizes::times_below, crate::proofs::Sizes::doubled))]
fn impulse_by_direction(impulse: Lanes, direction: Scaled) -> Lanes
    requires impulse { (k : Lane) → unsigned_abs (number_in k impulse) ≤ LANE_LIMIT }
    requires direction { (k : Lane) → unsigned_abs (number_in k direction) ≤ LANE_DIRECTION_LIMIT }
    ensures value { (k : Lane) → number_in k result
        ≡ product (number_in k impulse) (number_in k direction) }
    ensures size { (k : Lane)
        → unsigned_abs (number_in k result) ≤ 2 * unsigned_abs (number_in k impulse) }
{
    impulse.product(direction)
}

/// An impulse along each direction.
#[inline(always)]
#[tactic(auto, unfolding(pf_rot::specs::Vector::scale))]
pub(crate) fn impulse_along(impulse: Lanes, direction: &ScaledVectors) -> VectorLanes
    requires impulse { (k : Lane) → unsigned_abs (number_in k impulse) ≤ LANE_LIMIT }
    requires direction { (k : Lane) → IsShort LANE_DIRECTION_LIMIT (vector_in k direction.now) }
    ensures value { (k : Lane) → vector_in k result
        ≡ scale (number_in k impulse) (vector_in k direction.now) }
    ensures size { (k : Lane)
        → IsShort (2 * unsigned_abs (number_in k impulse)) (vector_in k result) }
{
    VectorLanes {
        x: impulse_by_direction(impulse, direction.x),
        y: impulse_by_direction(impulse, direction.y),
    }
}

/// Twice each number: what the parts of an impulse along a direction do not exceed.
#[inline(always)]
#[tactic(auto, unfolding(pf_num::specs::Fx::sum, pf_num::specs::Fx::saturate))]
pub(crate) fn twice(numbers: Lanes) -> Lanes
    requires { (k : Lane) → unsigned_abs (number_in k numbers) ≤ NUMBER_LIMIT + 2 ^ 51 }
    ensures { (k : Lane) → unsigned_abs (number_in k result)
        ≡ 2 * unsigned_abs (number_in k numbers) }
{
    numbers.plus(numbers)
}

/// Factors times numbers.
#[inline(always)]
#[tactic(auto, using(pf_num::proofs::Operations::product_comm))]
pub(crate) fn times(factors: Scaled, numbers: Lanes) -> Lanes
    requires { (k : Lane)
        → unsigned_abs (number_in k numbers) * unsigned_abs (number_in k factors) < PRODUCT_LIMIT }
    ensures value { (k : Lane) → number_in k result
        ≡ product (number_in k factors) (number_in k numbers) }
    ensures size { (k : Lane) → unsigned_abs (number_in k result) ≤ 2 ^ 29 }
{
    numbers.product(factors)
}

/// Factors times numbers, for a sum or a difference.
#[inline(always)]
#[tactic(auto, using(pf_num::proofs::Operations::product_comm))]
fn shifted_times(factors: Scaled, numbers: Lanes) -> ShiftedLanes
    requires { (k : Lane)
        → unsigned_abs (number_in k numbers) * unsigned_abs (number_in k factors) < PRODUCT_LIMIT }
    ensures value { (k : Lane) → number_in k result
        ≡ product (number_in k factors) (number_in k numbers) }
    ensures size { (k : Lane) → unsigned_abs (number_in k result) ≤ 2 ^ 29 }
{
    numbers.shifted_product(factors)
}

/// How impulses at these arms turn bodies.
#[inline(always)]
#[tactic(auto, unfolding(pf_rot::specs::Vector::cross))]
fn turn_of(arm: &ScaledVectors, impulse: &VectorLanes) -> Lanes
    requires x { (k : Lane)
        → HasShortProducts (unsigned_abs (number_in k impulse.now.x)) (vector_in k arm.now) }
    requires y { (k : Lane)
        → HasShortProducts (unsigned_abs (number_in k impulse.now.y)) (vector_in k arm.now) }
    ensures { (k : Lane) → number_in k result
        ≡ cross (vector_in k arm.now) (vector_in k impulse.now) }
{
    let (x, y) = (impulse.x, impulse.y);
    shifted_times(arm.x, y).minus(shifted_times(arm.y, x))
}

/// What impulses change of bodies of these masses, which they turn so.
#[inline(always)]
#[tactic(auto, unfolding(pf_rot::specs::Vector::scale))]
fn changes(mass: &MassLanes, impulse: &VectorLanes, turn: Lanes) -> MotionChange
    requires x { (k : Lane) → unsigned_abs (number_in k impulse.now.x)
        * unsigned_abs (number_in k mass.now.inverse_mass) < PRODUCT_LIMIT }
    requires y { (k : Lane) → unsigned_abs (number_in k impulse.now.y)
        * unsigned_abs (number_in k mass.now.inverse_mass) < PRODUCT_LIMIT }
    requires turn { (k : Lane) → unsigned_abs (number_in k turn)
        * unsigned_abs (number_in k mass.now.inverse_inertia) < PRODUCT_LIMIT }
    ensures velocity { (k : Lane) → vector_in k result.velocity
        ≡ scale (number_in k mass.now.inverse_mass) (vector_in k impulse.now) }
    ensures spin { (k : Lane) → number_in k result.spin
        ≡ product (number_in k mass.now.inverse_inertia) (number_in k turn) }
{
    MotionChange {
        x: shifted_times(mass.inverse_mass, impulse.x),
        y: shifted_times(mass.inverse_mass, impulse.y),
        spin: shifted_times(mass.inverse_inertia, turn),
    }
}

/// Second bodies after such changes.
#[inline(always)]
#[tactic(auto, unfolding(pf_rot::specs::Vector::add))]
fn second_after(body: &MotionLanes, change: MotionChange) -> MotionLanes
    requires velocity { (k : Lane)
        → IsShort (NUMBER_LIMIT + 2 ^ 30) (vector_in k body.now.velocity) }
    requires spin { (k : Lane) → unsigned_abs (number_in k body.now.spin) ≤ 2 * QUARTER_ARM_SPIN }
    ensures velocity { (k : Lane) → vector_in k result.velocity
        ≡ add (vector_in k body.now.velocity) (vector_in k change.velocity) }
    ensures spin { (k : Lane) → number_in k result.spin
        ≡ sum (number_in k body.now.spin) (number_in k change.spin) }
    ensures size { (k : Lane)
        → IsGrown (2 ^ 29) (vector_in k body.now.velocity) (vector_in k result.velocity) }
{
    let velocity = body.velocity;
    let spin = body.spin;
    MotionLanes {
        velocity: VectorLanes {
            x: velocity.x.plus_shifted(change.x),
            y: velocity.y.plus_shifted(change.y),
        },
        spin: spin.plus_shifted(change.spin),
    }
}

/// First bodies after the opposite changes.
#[inline(always)]
#[tactic(auto, unfolding(pf_rot::specs::Vector::sub))]
fn first_after(body: &MotionLanes, change: MotionChange) -> MotionLanes
    requires velocity { (k : Lane)
        → IsShort (NUMBER_LIMIT + 2 ^ 30) (vector_in k body.now.velocity) }
    requires spin { (k : Lane) → unsigned_abs (number_in k body.now.spin) ≤ 2 * QUARTER_ARM_SPIN }
    ensures velocity { (k : Lane) → vector_in k result.velocity
        ≡ sub (vector_in k body.now.velocity) (vector_in k change.velocity) }
    ensures spin { (k : Lane) → number_in k result.spin
        ≡ difference (number_in k body.now.spin) (number_in k change.spin) }
    ensures size { (k : Lane)
        → IsGrown (2 ^ 29) (vector_in k body.now.velocity) (vector_in k result.velocity) }
{
    let velocity = body.velocity;
    let spin = body.spin;
    MotionLanes {
        velocity: VectorLanes {
            x: velocity.x.minus_shifted(change.x),
            y: velocity.y.minus_shifted(change.y),
        },
        spin: spin.minus_shifted(change.spin),
    }
}

/// Whether what these impulses change of bodies of these masses is exact. No part of an impulse
/// exceeds `size`.
#[inline(always)]
#[tactic(auto, using(crate::proofs::Sizes::part_below))]
fn has_exact_changes(
    mass: &MassLanes,
    arm: &ScaledVectors,
    impulse: &VectorLanes,
    size: Lanes,
) -> bool
    requires size { (k : Lane)
        → IsShort (unsigned_abs (number_in k size)) (vector_in k impulse.now) }
    requires arm { (k : Lane)
        → HasShortProducts (unsigned_abs (number_in k size)) (vector_in k arm.now) }
    ensures { IsTrue result → (k : Lane)
        → IsExactOn (mass_in k mass.now) (vector_in k arm.now) (vector_in k impulse.now) }
{
    size.product_is_below(mass.inverse_mass, PRODUCT_LIMIT)
        & turn_of(arm, impulse).product_is_below(mass.inverse_inertia, PRODUCT_LIMIT)
}

/// Whether what these impulses do to both bodies of each contact is exact. No part of an impulse
/// exceeds `size`.
#[inline(always)]
fn is_exact(
    prepared: &PreparedLanes,
    impulse: &VectorLanes,
    size: Lanes,
    state: &ContactLanes,
) -> bool
    requires size { (k : Lane)
        → IsShort (unsigned_abs (number_in k size)) (vector_in k impulse.now) }
    requires first { (k : Lane) → HasShortProducts (unsigned_abs (number_in k size))
        (vector_in k prepared.now.constraint.first_arm) }
    requires second { (k : Lane) → HasShortProducts (unsigned_abs (number_in k size))
        (vector_in k prepared.now.constraint.second_arm) }
    ensures { IsTrue result → (k : Lane) → IsImpulseExact (constraint_in k prepared.now.constraint)
        (state_in k prepared.now state.now) (vector_in k impulse.now) }
{
    let constraint = prepared.constraint();
    let (first_arm, second_arm) = (&constraint.first_arm, &constraint.second_arm);
    let (first_mass, second_mass) = (prepared.first_mass(), prepared.second_mass());
    has_exact_changes(&first_mass, first_arm, impulse, size)
        & has_exact_changes(&second_mass, second_arm, impulse, size)
}

/// Both bodies of each contact after an impulse at the contact point.
#[inline(always)]
#[tactic(auto, unfolding(pf_solver::specs::Impulse::after_impulse, pf_solver::specs::Impulse::first_after, pf_solver::specs::Impulse::second_after))]
pub(crate) fn after_impulse(
    prepared: &PreparedLanes,
    impulse: &VectorLanes,
    state: &ContactLanes,
) -> ContactLanes
    requires ready { (k : Lane)
        → IsReady (constraint_in k prepared.now.constraint) (state_in k prepared.now state.now) }
    requires exact { (k : Lane) → IsImpulseExact (constraint_in k prepared.now.constraint)
        (state_in k prepared.now state.now) (vector_in k impulse.now) }
    requires velocities { (k : Lane)
        → AreShort (NUMBER_LIMIT + 2 ^ 30) (state_in k prepared.now state.now) }
    ensures value { (k : Lane) → state_in k prepared.now result
        ≡ after_impulse (constraint_in k prepared.now.constraint) (vector_in k impulse.now)
        (state_in k prepared.now state.now) }
    ensures size { (k : Lane)
        → AreGrown (2 ^ 29) (state_in k prepared.now state.now) (state_in k prepared.now result) }
{
    let constraint = prepared.constraint();
    let (first_mass, second_mass) = (prepared.first_mass(), prepared.second_mass());
    let first_turn = turn_of(&constraint.first_arm, impulse);
    let second_turn = turn_of(&constraint.second_arm, impulse);
    let of_first = changes(&first_mass, impulse, first_turn);
    let of_second = changes(&second_mass, impulse, second_turn);
    ContactLanes {
        first: first_after(&state.first, of_first),
        second: second_after(&state.second, of_second),
        normal: state.normal,
        tangent: state.tangent,
    }
}

/// Both bodies of each contact after impulses that may be above the limits of the lanes, or `None`
/// where what they do is not exact. No part of an impulse exceeds `size`.
#[inline]
#[tactic(auto, using(crate::proofs::Pushes::exact_products))]
pub(crate) fn after_any_impulse(
    prepared: &PreparedLanes,
    impulse: &VectorLanes,
    size: Lanes,
    state: &ContactLanes,
) -> Option<ContactLanes>
    requires ready { (k : Lane)
        → IsReady (constraint_in k prepared.now.constraint) (state_in k prepared.now state.now) }
    requires size { (k : Lane)
        → IsShort (unsigned_abs (number_in k size)) (vector_in k impulse.now) }
    requires velocities { (k : Lane)
        → AreShort (NUMBER_LIMIT + 2 ^ 30) (state_in k prepared.now state.now) }
    ensures value { IfSome result (λ after. (k : Lane) → state_in k prepared.now after
        ≡ after_impulse (constraint_in k prepared.now.constraint) (vector_in k impulse.now)
        (state_in k prepared.now state.now)) }
    ensures size { IfSome result (λ after. (k : Lane)
        → AreGrown (2 ^ 29) (state_in k prepared.now state.now) (state_in k prepared.now after)) }
{
    let limit = twice(prepared.spin_limit());
    if !size.are_within_each(limit) || !is_exact(prepared, impulse, size, state) {
        return None;
    }
    Some(after_impulse(prepared, impulse, state))
}
