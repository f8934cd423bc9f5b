//! A row as a lane holds it.

ghost use Rattle.std.specs.Prelude.{◌≡◌, ◌+◌, ◌*◌, ◌^◌, ◌<◌, ◌≤◌, ◌↔◌, ℕ, IfSome, IsSome, IsTrue, None};
ghost use Rattle.std.specs.Int.RustNames.{unsigned_abs};
ghost use Rattle.pf_rows.specs.Small.{HasShortArms, IsShort};
ghost use Rattle.pf_bundles.specs.LaneRow.{arm_on, mass_on};
ghost use Rattle.pf_bundles.specs.Limits.{IsPushLimit, IsPushLimitOf, IsSmallConstraint, IsSpinLimit, IsTriedPush, IsTriedSpin, arm_reach};

use crate::exact::{
    ExactConstraint, ExactMass, exact_constraint_of, exact_mass_of, fixed_constraint_of,
    fixed_mass_of, no_constraint, no_mass,
};
use crate::limits::{
    HALF_ARM, HALF_ARM_SPIN, LANE_DIRECTION_LIMIT, LANE_LIMIT, LEAST_PUSH, LONG_ARM, LONG_ARM_SPIN,
    LONGEST_ARM, LONGEST_ARM_SPIN, MIDDLE_ARM, MIDDLE_ARM_SPIN, MIDDLE_PUSH, NUMBER_LIMIT,
    PRODUCT_LIMIT, QUARTER_ARM, QUARTER_ARM_SPIN, SHORT_ARM, SHORT_ARM_SPIN, SMALL_PUSH,
};
use pf_lanes::ExactDouble;
use pf_num::Fx;
use pf_rot::V2;
use pf_rows::{Constraint, InverseMass, Prepared, Row, Side, is_within};
use std::marker::Model;

/// What a lane holds of a row, in whole numbers that are doubles.
#[derive(Clone, Copy)]
pub struct LaneRow {
    pub(crate) first_mass: ExactMass,
    pub(crate) second_mass: ExactMass,
    pub(crate) constraint: ExactConstraint,
    pub(crate) spin_limit: ExactDouble,
    pub(crate) push_limit: ExactDouble,
}

impl Model for LaneRow {
    ghost use Rattle.pf_bundles.specs.LaneRow.{HasItsLimits, LaneRow};

    ghost Value = { LaneRow };

    ghost view = { λ l. record {
      first_mass = l.first_mass;
      second_mass = l.second_mass;
      constraint = l.constraint;
      spin_limit = l.spin_limit;
      push_limit = l.push_limit;
    } };

    ghost invariant = { λ l. HasItsLimits (record {
      first_mass = l.first_mass;
      second_mass = l.second_mass;
      constraint = l.constraint;
      spin_limit = l.spin_limit;
      push_limit = l.push_limit;
    }) };

    ghost inverse = { λ l. record {
      first_mass = l.first_mass;
      second_mass = l.second_mass;
      constraint = l.constraint;
      spin_limit = l.spin_limit;
      push_limit = l.push_limit;
    } };
}

/// Whether directions and bias are within their limits.
#[inline]
fn is_small_constraint(c: &Constraint) -> bool
    ensures { IsTrue result ↔ IsSmallConstraint c.now }
{
    c.has_short_directions(LANE_DIRECTION_LIMIT) && is_within(c.bias, NUMBER_LIMIT)
}

/// The limit of the spins of a constraint, the greatest of six. `None` where an arm is too great
/// for each of them.
#[inline]
#[tactic(auto, using(crate::proofs::Arms::quarter_limit, crate::proofs::Arms::half_limit, crate::proofs::Arms::short_limit, crate::proofs::Arms::middle_limit, crate::proofs::Arms::long_limit, crate::proofs::Arms::longest_limit))]
fn spin_limit_of(c: &Constraint) -> Option<u64>
    ensures exact { IfSome result (λ spin. IsSpinLimit c.now spin) }
    ensures greatest { IfSome result
        (λ spin. (other : ℕ) → IsTriedSpin other → IsSpinLimit c.now other → other ≤ spin) }
    ensures tried { IfSome result (λ spin. IsTriedSpin spin) }
    ensures some { IsSome result ↔ HasShortArms LONGEST_ARM c.now }
{
    if c.has_short_arms(QUARTER_ARM) {
        Some(QUARTER_ARM_SPIN)
    } else if c.has_short_arms(HALF_ARM) {
        Some(HALF_ARM_SPIN)
    } else if c.has_short_arms(SHORT_ARM) {
        Some(SHORT_ARM_SPIN)
    } else if c.has_short_arms(MIDDLE_ARM) {
        Some(MIDDLE_ARM_SPIN)
    } else if c.has_short_arms(LONG_ARM) {
        Some(LONG_ARM_SPIN)
    } else if c.has_short_arms(LONGEST_ARM) {
        Some(LONGEST_ARM_SPIN)
    } else {
        None
    }
}

/// The sum of the magnitudes of both parts of an arm.
#[inline]
fn arm_reach(arm: V2) -> u64
    requires { IsShort LONGEST_ARM arm }
    ensures value { result ≡ arm_reach arm }
    ensures size { result ≤ 2 ^ 30 }
{
    arm.x.raw().unsigned_abs() + arm.y.raw().unsigned_abs()
}

/// Whether the change of a spin by a turn up to this is exact, and at most `spin`. The turn is in
/// units of 2^-48.
#[inline]
fn is_small_turn(inverse_inertia: Fx, turn: u64, spin: u64) -> bool
    requires turn { turn < 2 ^ 63 }
    requires spin { spin ≤ QUARTER_ARM_SPIN }
    ensures { IsTrue result ↔ ((turn * unsigned_abs inverse_inertia < PRODUCT_LIMIT * 2 ^ 24)
        × (turn * unsigned_abs inverse_inertia ≤ spin * 2 ^ 48)) }
{
    let change = turn as u128 * inverse_inertia.raw().unsigned_abs() as u128;
    change < PRODUCT_LIMIT as u128 * (1 << 24) && change <= spin as u128 * (1 << 48)
}

/// Whether what impulses up to `push` do to a body of this mass at this arm is exact, and changes
/// its spin by `spin` at most.
#[inline]
fn is_push_limit_of(mass: &InverseMass, arm: V2, spin: u64, push: u64) -> bool
    requires arm { IsShort LONGEST_ARM arm }
    requires spin { spin ≤ QUARTER_ARM_SPIN }
    requires push { push ≤ LANE_LIMIT }
    ensures { IsTrue result ↔ IsPushLimitOf mass.now arm spin push }
{
    let moment = push * arm_reach(arm);
    let change = push as u128 * mass.inverse_mass.raw().unsigned_abs() as u128;
    moment < PRODUCT_LIMIT
        && change < PRODUCT_LIMIT as u128
        && is_small_turn(mass.inverse_inertia, moment + (1 << 24), spin)
}

/// Whether what impulses up to `push` do to both bodies is exact, and changes their spins by `spin`
/// at most.
#[inline]
fn is_push_limit(
    c: &Constraint,
    first: &InverseMass,
    second: &InverseMass,
    spin: u64,
    push: u64,
) -> bool
    requires arms { HasShortArms LONGEST_ARM c.now }
    requires spin { spin ≤ QUARTER_ARM_SPIN }
    requires push { push ≤ LANE_LIMIT }
    ensures { IsTrue result ↔ IsPushLimit c.now first.now second.now spin push }
{
    is_push_limit_of(first, c.first_arm, spin, push)
        && is_push_limit_of(second, c.second_arm, spin, push)
}

/// The limit of the impulses that are not tested, the greatest of five. The least is 0, with which
/// each impulse is tested; `None` where even that is too great.
#[inline]
fn push_limit_of(
    c: &Constraint,
    first: &InverseMass,
    second: &InverseMass,
    spin: u64,
) -> Option<u64>
    requires arms { HasShortArms LONGEST_ARM c.now }
    requires spin { spin ≤ QUARTER_ARM_SPIN }
    ensures exact { IfSome result (λ push. IsPushLimit c.now first.now second.now spin push) }
    ensures greatest { IfSome result (λ push. (other : ℕ) → IsTriedPush other
        → IsPushLimit c.now first.now second.now spin other → other ≤ push) }
    ensures tried { IfSome result (λ push. IsTriedPush push) }
    ensures none { result ≡ None → (other : ℕ) → IsTriedPush other
        → IsPushLimit c.now first.now second.now spin other → ⊥ }
{
    if is_push_limit(c, first, second, spin, LANE_LIMIT) {
        Some(LANE_LIMIT)
    } else if is_push_limit(c, first, second, spin, MIDDLE_PUSH) {
        Some(MIDDLE_PUSH)
    } else if is_push_limit(c, first, second, spin, SMALL_PUSH) {
        Some(SMALL_PUSH)
    } else if is_push_limit(c, first, second, spin, LEAST_PUSH) {
        Some(LEAST_PUSH)
    } else if is_push_limit(c, first, second, spin, 0) {
        Some(0)
    } else {
        None
    }
}

/// The inverse mass of the body on a side.
#[inline]
fn mass_on(side: Side, mass: InverseMass) -> InverseMass
    ensures { result ≡ mass_on side mass }
{
    match side {
        Side::Static => InverseMass::NONE,
        Side::Dynamic(_) => mass,
    }
}

/// The arm of the body on a side.
#[inline]
fn arm_on(side: Side, arm: V2) -> V2
    ensures { result ≡ arm_on side arm }
{
    match side {
        Side::Static => V2::ZERO,
        Side::Dynamic(_) => arm,
    }
}

impl LaneRow {
    ghost use Rattle.std.specs.Prelude.{◌≡◌, ◌↔◌, IfSome, IsSome};
    ghost use Rattle.std.specs.Int.RustNames.{unsigned_abs};
    ghost use Rattle.pf_bundles.specs.LaneRow.{ContactFits, IsHeldBy, RowFits, no_lane_row};
    ghost use Rattle.pf_bundles.specs.Limits.{AreGreatest};

    /// A lane without a row: nothing moves in it.
    pub fn none() -> LaneRow
        ensures { result ≡ no_lane_row }
    {
        LaneRow {
            first_mass: no_mass(),
            second_mass: no_mass(),
            constraint: no_constraint(),
            spin_limit: ExactDouble::of(QUARTER_ARM_SPIN as i64),
            push_limit: ExactDouble::of(LANE_LIMIT as i64),
        }
    }

    /// A contact in a lane, or `None` where there are no limits for it, or doubles do not hold one
    /// of its numbers.
    #[inline]
    #[tactic(auto, using(crate::proofs::Arms::fitting_arms))]
    fn of_contact(
        first_mass: &InverseMass,
        second_mass: &InverseMass,
        constraint: &Constraint,
    ) -> Option<LaneRow>
        ensures first { IfSome result (λ lane. lane.first_mass ≡ first_mass.now) }
        ensures second { IfSome result (λ lane. lane.second_mass ≡ second_mass.now) }
        ensures constraint { IfSome result (λ lane. lane.constraint ≡ constraint.now) }
        ensures limits { IfSome result (λ lane.
            AreGreatest constraint.now first_mass.now second_mass.now
            (unsigned_abs lane.spin_limit) (unsigned_abs lane.push_limit)) }
        ensures fits { IsSome result ↔ ContactFits first_mass.now second_mass.now constraint.now }
    {
        if !is_small_constraint(constraint) {
            return None;
        }
        let spin = spin_limit_of(constraint)?;
        let push = push_limit_of(constraint, first_mass, second_mass, spin)?;
        Some(LaneRow {
            first_mass: exact_mass_of(*first_mass)?,
            second_mass: exact_mass_of(*second_mass)?,
            constraint: exact_constraint_of(constraint)?,
            spin_limit: ExactDouble::of(spin as i64),
            push_limit: ExactDouble::of(push as i64),
        })
    }

    /// A row in a lane, without the mass and the arm of a static body, or `None` where there are no
    /// limits for it, or doubles do not hold one of its numbers.
    #[inline]
    pub fn of(row: &Row) -> Option<LaneRow>
        ensures held { IfSome result (λ lane. IsHeldBy lane row.now) }
        ensures limits { IfSome result (λ lane.
            AreGreatest lane.constraint lane.first_mass lane.second_mass
            (unsigned_abs lane.spin_limit) (unsigned_abs lane.push_limit)) }
        ensures fits { IsSome result ↔ RowFits row.now }
    {
        let (first, second) = (row.entry.first, row.entry.second);
        let own = row.prepared.constraint();
        let constraint = Constraint {
            first_arm: arm_on(first, own.first_arm),
            second_arm: arm_on(second, own.second_arm),
            ..*own
        };
        let first_mass = mass_on(first, row.prepared.first_mass());
        let second_mass = mass_on(second, row.prepared.second_mass());
        LaneRow::of_contact(&first_mass, &second_mass, &constraint)
    }

    /// What the rounds need of it by scalars, which ask how great its numbers are.
    #[inline]
    pub fn prepared(&self) -> Prepared
        ensures first { result.first_mass ≡ self.now.first_mass }
        ensures second { result.second_mass ≡ self.now.second_mass }
        ensures constraint { result.constraint ≡ self.now.constraint }
    {
        let mut prepared = Prepared::new(
            fixed_mass_of(self.first_mass),
            fixed_mass_of(self.second_mass),
            fixed_constraint_of(&self.constraint),
        );
        prepared.measure();
        prepared
    }
}
