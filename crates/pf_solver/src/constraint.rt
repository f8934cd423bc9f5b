//! The pre-step of a contact: the part of it that stays fixed during the rounds.

ghost use Rattle.std.specs.Prelude.{◌≡◌};
ghost use Rattle.pf_num.specs.Fx.{product};
ghost use Rattle.pf_solver.specs.Constraint.{bias_of, constraint_of, effective_mass, friction_of, squared_lever_arm, mobility, tangent_of};

use crate::fast_path::fast_squared_lever_arms;
use pf_manifold::ContactPoint;
use pf_num::Fx;
use pf_rot::V2;
use pf_rows::{Constraint, InverseMass};
use std::marker::Model;

/// Baumgarte's factor a second, in units of 2^-24: 0.2 times 64 ticks, which is 12.8. Box2D-Lite's
/// `biasFactor` times `inv_dt`.
pub const BIAS_FACTOR: i64 = 214_748_352;
/// 0.01 of a length, Box2D-Lite's `allowedPenetration`, in units of 2^-24: how far bodies overlap
/// before a bias parts them.
pub const SLOP: i64 = 167_772;

/// A body as the pre-step sees it.
#[derive(Clone, Copy)]
pub struct PreStepBody {
    /// The centre.
    pub position: V2,
    /// How easily impulses move it.
    pub mass: InverseMass,
    /// Its coefficient of friction.
    pub friction: Fx,
}

impl Model for PreStepBody {
    ghost use Rattle.pf_solver.specs.Constraint.{PreStepBody};

    ghost Value = { PreStepBody };

    ghost view = { λ a. record { position = a.position; mass = a.mass; friction = a.friction } };

    ghost inverse = { λ a. record {
      position = a.position;
      mass = a.mass;
      friction = a.friction;
    } };
}

/// The tangent: the normal, a quarter turn clockwise.
#[inline]
pub(crate) fn tangent_of(normal: V2) -> V2
    ensures { result ≡ tangent_of normal }
{
    V2 {
        x: normal.y,
        y: normal.x.neg(),
    }
}

/// How far from the centre an impulse along this direction acts, squared.
#[tactic(auto, unfolding(crate::specs::Constraint::squared_lever_arm))]
fn squared_lever_arm(arm: V2, direction: V2) -> Fx
    ensures { result ≡ squared_lever_arm arm direction }
{
    let along = arm.dot(direction);
    Fx::ZERO.max(arm.dot(arm).sub(along.mul(along)))
}

/// The same along the normal and along the tangent, by the general path.
#[cold]
#[inline(never)]
fn general_squared_lever_arms(arm: V2, normal: V2) -> (Fx, Fx)
    ensures { result ≡ (squared_lever_arm arm normal, squared_lever_arm arm (tangent_of normal)) }
{
    (
        squared_lever_arm(arm, normal),
        squared_lever_arm(arm, tangent_of(normal)),
    )
}

/// What the turning of a body adds to the inverses of both effective masses. A body that impulses
/// do not turn adds nothing, whatever its arm.
#[inline(always)]
#[tactic(auto, using(crate::proofs::NoTurning::no_turning))]
fn turning_mobilities(mass: &InverseMass, arm: V2, normal: V2) -> (Fx, Fx)
    ensures normal { result.0
        ≡ product mass.now.inverse_inertia (squared_lever_arm arm normal) }
    ensures tangent { result.1
        ≡ product mass.now.inverse_inertia (squared_lever_arm arm (tangent_of normal)) }
{
    let inverse_inertia = mass.inverse_inertia;
    if inverse_inertia == Fx::ZERO {
        return (Fx::ZERO, Fx::ZERO);
    }
    let (along, across) = match fast_squared_lever_arms(arm, normal) {
        Some(squared) => squared,
        None => general_squared_lever_arms(arm, normal),
    };
    (inverse_inertia.mul(along), inverse_inertia.mul(across))
}

/// The effective masses along the normal and along the tangent: the inverses of Box2D-Lite's
/// `kNormal` and `kTangent`, which say by how much an impulse of 1 changes the relative speed.
#[inline(always)]
#[tactic(auto, unfolding(crate::specs::Constraint::mobility))]
fn effective_masses(
    a: &InverseMass,
    b: &InverseMass,
    first_arm: V2,
    second_arm: V2,
    normal: V2,
) -> (Fx, Fx)
    ensures normal { result.0 ≡ effective_mass a.now b.now first_arm second_arm normal }
    ensures tangent { result.1
        ≡ effective_mass a.now b.now first_arm second_arm (tangent_of normal) }
{
    let (first_along, first_across) = turning_mobilities(a, first_arm, normal);
    let (second_along, second_across) = turning_mobilities(b, second_arm, normal);
    let mass = a.inverse_mass.add(b.inverse_mass);
    (
        Fx::ONE.div(mass.add(first_along.add(second_along))),
        Fx::ONE.div(mass.add(first_across.add(second_across))),
    )
}

/// Baumgarte's bias: the separating speed aimed at, `BIAS_FACTOR` times the overlap beyond the
/// slop, and 0 within it.
#[inline]
#[tactic(auto, unfolding(crate::specs::Constraint::bias_of))]
fn bias_of(separation: Fx) -> Fx
    ensures { result ≡ bias_of separation }
{
    let factor = Fx::from_raw(BIAS_FACTOR).unwrap();
    let slop = Fx::from_raw(SLOP).unwrap();
    factor.mul(Fx::ZERO.min(separation.add(slop))).neg()
}

/// The coefficient of friction of two bodies: the geometric mean of both, as Box2D mixes them.
#[inline]
#[tactic(auto, unfolding(crate::specs::Constraint::friction_of))]
fn friction_of(first: Fx, second: Fx) -> Fx
    ensures { result ≡ friction_of first second }
{
    first.mul(second).root()
}

/// The coefficient of friction of the two bodies that were mixed last. Most bodies of a scene are
/// of few materials, so the root is seldom computed anew.
#[derive(Drop)]
pub struct LastFriction {
    first: Fx,
    second: Fx,
    mixed: Fx,
}

impl Model for LastFriction {
    ghost use Rattle.std.specs.Prelude.{ℤ, ◌≡◌};
    ghost use Rattle.pf_solver.specs.Constraint.{friction_of};

    ghost Value = { ℤ };

    ghost view = { λ last. last.mixed };

    ghost invariant = { λ last. last.mixed ≡ friction_of last.first last.second };
}

impl LastFriction {
    ghost use Rattle.std.specs.Prelude.{◌≡◌};
    ghost use Rattle.pf_solver.specs.Constraint.{friction_of};

    /// That of two bodies without friction.
    pub fn new() -> LastFriction {
        LastFriction {
            first: Fx::ZERO,
            second: Fx::ZERO,
            mixed: friction_of(Fx::ZERO, Fx::ZERO),
        }
    }

    /// The coefficient of friction of two bodies.
    #[inline]
    fn mix(&mut self, first: Fx, second: Fx) -> Fx
        ensures { result ≡ friction_of first second }
    {
        if self.first != first || self.second != second {
            *self = LastFriction {
                first,
                second,
                mixed: friction_of(first, second),
            };
        }
        self.mixed
    }
}

/// The constraint of a contact point of two bodies.
#[tactic(auto, unfolding(crate::specs::Constraint::constraint_of))]
pub fn constraint_of(
    a: &PreStepBody,
    b: &PreStepBody,
    point: &ContactPoint,
    last: &mut LastFriction,
) -> Constraint
    ensures { result ≡ constraint_of a.now b.now point.now }
{
    let normal = point.normal;
    let first_arm = point.position.sub(a.position);
    let second_arm = point.position.sub(b.position);
    let (normal_mass, tangent_mass) = effective_masses(
        &a.mass, &b.mass, first_arm, second_arm, normal,
    );
    Constraint {
        normal,
        tangent: tangent_of(normal),
        first_arm,
        second_arm,
        normal_mass,
        tangent_mass,
        bias: bias_of(point.separation),
        friction: last.mix(a.friction, b.friction),
    }
}
