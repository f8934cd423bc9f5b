//! Impulses at one contact: warm starting, and one round.

ghost use Rattle.std.specs.Prelude.{◌≡◌};
ghost use Rattle.pf_solver.specs.Impulse.{first_after, second_after, after_impulse, relative_velocity, after_warm_start, normal_impulse, friction_limit, tangent_impulse, after_normal_step, after_friction_step, after_round};

use pf_num::Fx;
use pf_rot::{V2, cross_sv};
use pf_rows::{Constraint, Impulses, InverseMass};
use std::marker::Model;

/// What impulses change of a body, and how easily.
#[derive(Clone, Copy)]
pub struct Motion {
    /// The velocity.
    pub velocity: V2,
    /// The angular velocity.
    pub spin: Fx,
    /// How easily impulses change both.
    pub mass: InverseMass,
}

impl Model for Motion {
    ghost use Rattle.pf_solver.specs.Impulse.{Motion};

    ghost Value = { Motion };

    ghost view = { λ m. record { velocity = m.velocity; spin = m.spin; mass = m.mass } };

    ghost inverse = { λ m. record { velocity = m.velocity; spin = m.spin; mass = m.mass } };
}

/// The two bodies of a contact, and the impulses that it has accumulated.
#[derive(Clone, Copy)]
pub struct ContactState {
    /// The first body.
    pub first: Motion,
    /// The second body.
    pub second: Motion,
    /// The accumulated impulses.
    pub impulses: Impulses,
}

impl Model for ContactState {
    ghost use Rattle.pf_solver.specs.Impulse.{ContactState};

    ghost Value = { ContactState };

    ghost view = { λ m. record { first = m.first; second = m.second; impulses = m.impulses } };

    ghost inverse = { λ m. record { first = m.first; second = m.second; impulses = m.impulses } };
}

/// The first body after the reaction to an impulse.
#[inline]
#[tactic(auto, unfolding(crate::specs::Impulse::first_after))]
fn first_after(arm: V2, impulse: V2, body: &Motion) -> Motion
    ensures { result ≡ first_after arm impulse body.now }
{
    let mass = body.mass;
    Motion {
        velocity: body.velocity.sub(impulse.scale(mass.inverse_mass)),
        spin: body.spin.sub(mass.inverse_inertia.mul(arm.cross(impulse))),
        mass,
    }
}

/// The second body after an impulse.
#[inline]
#[tactic(auto, unfolding(crate::specs::Impulse::second_after))]
fn second_after(arm: V2, impulse: V2, body: &Motion) -> Motion
    ensures { result ≡ second_after arm impulse body.now }
{
    let mass = body.mass;
    Motion {
        velocity: body.velocity.add(impulse.scale(mass.inverse_mass)),
        spin: body.spin.add(mass.inverse_inertia.mul(arm.cross(impulse))),
        mass,
    }
}

/// Both bodies after an impulse at the contact point.
#[inline]
#[tactic(auto, unfolding(crate::specs::Impulse::after_impulse))]
fn after_impulse(constraint: &Constraint, impulse: V2, state: &ContactState) -> ContactState
    ensures { result ≡ after_impulse constraint.now impulse state.now }
{
    ContactState {
        first: first_after(constraint.first_arm, impulse, &state.first),
        second: second_after(constraint.second_arm, impulse, &state.second),
        impulses: state.impulses,
    }
}

/// The relative velocity at the contact: of the second body's point, as seen from the first's.
#[inline]
#[tactic(auto, unfolding(crate::specs::Impulse::relative_velocity))]
fn relative_velocity(constraint: &Constraint, state: &ContactState) -> V2
    ensures { result ≡ relative_velocity constraint.now state.now }
{
    let (first, second) = (&state.first, &state.second);
    let of_first = first
        .velocity
        .add(cross_sv(first.spin, constraint.first_arm));
    let of_second = second
        .velocity
        .add(cross_sv(second.spin, constraint.second_arm));
    of_second.sub(of_first)
}

/// Warm starting: the impulses of the last tick are applied again.
#[inline]
#[tactic(auto, unfolding(crate::specs::Impulse::after_warm_start))]
pub fn after_warm_start(constraint: &Constraint, state: &ContactState) -> ContactState
    ensures { result ≡ after_warm_start constraint.now state.now }
{
    let impulses = &state.impulses;
    let along_normal = constraint.normal.scale(impulses.normal);
    let along_tangent = constraint.tangent.scale(impulses.tangent);
    after_impulse(constraint, along_normal.add(along_tangent), state)
}

/// The accumulated normal impulse after which the normal velocity at the contact is the bias; at
/// least 0, since a contact never pulls.
#[inline]
#[tactic(auto, unfolding(crate::specs::Impulse::normal_impulse))]
fn normal_impulse(constraint: &Constraint, state: &ContactState) -> Fx
    ensures { result ≡ normal_impulse constraint.now state.now }
{
    let speed = relative_velocity(constraint, state).dot(constraint.normal);
    let change = constraint.normal_mass.mul(speed.neg().add(constraint.bias));
    Fx::ZERO.max(state.impulses.normal.add(change))
}

/// Coulomb's limit of friction, by the present accumulated normal impulse.
#[inline]
#[tactic(auto, unfolding(crate::specs::Impulse::friction_limit))]
fn friction_limit(constraint: &Constraint, impulses: &Impulses) -> Fx
    ensures { result ≡ friction_limit constraint.now impulses.now }
{
    constraint.friction.mul(impulses.normal)
}

/// The accumulated tangent impulse that stops sliding, within the limit of friction.
#[inline]
#[tactic(auto, unfolding(crate::specs::Impulse::tangent_impulse))]
fn tangent_impulse(constraint: &Constraint, state: &ContactState) -> Fx
    ensures { result ≡ tangent_impulse constraint.now state.now }
{
    let speed = relative_velocity(constraint, state).dot(constraint.tangent);
    let change = constraint.tangent_mass.mul(speed.neg());
    let limit = friction_limit(constraint, &state.impulses);
    let total = state.impulses.tangent.add(change);
    limit.neg().max(limit.min(total))
}

/// The normal impulse is accumulated, and what was added is applied.
#[inline]
#[tactic(auto, unfolding(crate::specs::Impulse::after_normal_step))]
fn after_normal_step(constraint: &Constraint, state: &ContactState) -> ContactState
    ensures { result ≡ after_normal_step constraint.now state.now }
{
    let normal = normal_impulse(constraint, state);
    let added = normal.sub(state.impulses.normal);
    let after = after_impulse(constraint, constraint.normal.scale(added), state);
    let impulses = Impulses {
        normal,
        ..state.impulses
    };
    ContactState { impulses, ..after }
}

/// The same for the tangent impulse.
#[inline]
#[tactic(auto, unfolding(crate::specs::Impulse::after_friction_step))]
fn after_friction_step(constraint: &Constraint, state: &ContactState) -> ContactState
    ensures { result ≡ after_friction_step constraint.now state.now }
{
    let tangent = tangent_impulse(constraint, state);
    let added = tangent.sub(state.impulses.tangent);
    let after = after_impulse(constraint, constraint.tangent.scale(added), state);
    let impulses = Impulses {
        tangent,
        ..state.impulses
    };
    ContactState { impulses, ..after }
}

/// One contact in one round: the normal first, and then friction, by the new velocities.
#[inline]
#[tactic(auto, unfolding(crate::specs::Impulse::after_round))]
pub fn after_round(constraint: &Constraint, state: &ContactState) -> ContactState
    ensures { result ≡ after_round constraint.now state.now }
{
    after_friction_step(constraint, &after_normal_step(constraint, state))
}
