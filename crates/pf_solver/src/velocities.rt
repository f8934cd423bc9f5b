//! The velocity phase over one list of contacts, as Box2D-Lite's `World::Step`.

ghost use Rattle.std.specs.Prelude.{◌≡◌, All, length, IfSome};
ghost use Rattle.pf_rows.specs.Row.{Constraint, IsEntryOf, IsSide};
ghost use Rattle.pf_solver.specs.Impulse.{ContactState, after_round, after_warm_start};
ghost use Rattle.pf_solver.specs.FastPath.{IsMassOf};
ghost use Rattle.pf_solver.specs.Velocities.{bodies_after, bodies_with, with_motion, contact_state, motion_at, pass, passes, row_after, row_with};

use crate::fast_path::{fast_round, fast_warm_start};
use crate::impulse::{ContactState, Motion, after_round, after_warm_start};
use pf_num::Fx;
use pf_rot::V2;
use pf_rows::{Constraint, InverseMass, Prepared, Row, Side};
use pf_shapes::BodyState;

/// How many rounds there are in a tick, Box2D-Lite's `iterations`.
pub const ROUNDS: usize = 10;

/// What a contact does in one pass: a warm start, or one round.
pub trait ContactStep {
    ghost step: { Constraint → ContactState → ContactState };

    /// What the contact does to its bodies and to its accumulated impulses.
    fn after(constraint: &Constraint, state: &ContactState) -> ContactState
        ensures { result ≡ step constraint.now state.now };

    /// The same by a fast path, or `None`.
    fn fast_after(prepared: &Prepared, state: &ContactState) -> Option<ContactState>
        requires first { IsMassOf prepared.now.first_mass state.now.first.mass }
        requires second { IsMassOf prepared.now.second_mass state.now.second.mass }
        ensures { IfSome result (λ after. after ≡ step prepared.now.constraint state.now) };
}

/// Warm starting.
pub struct WarmStart;

impl ContactStep for WarmStart {
    ghost use Rattle.pf_solver.specs.Impulse.{after_warm_start};

    ghost step = { after_warm_start };

    #[inline]
    fn after(constraint: &Constraint, state: &ContactState) -> ContactState {
        after_warm_start(constraint, state)
    }

    #[inline]
    fn fast_after(prepared: &Prepared, state: &ContactState) -> Option<ContactState> {
        fast_warm_start(prepared, state)
    }
}

/// One round.
pub struct Round;

impl ContactStep for Round {
    ghost use Rattle.pf_solver.specs.Impulse.{after_round};

    ghost step = { after_round };

    #[inline]
    fn after(constraint: &Constraint, state: &ContactState) -> ContactState {
        after_round(constraint, state)
    }

    #[inline]
    fn fast_after(prepared: &Prepared, state: &ContactState) -> Option<ContactState> {
        fast_round(prepared, state)
    }
}

/// The motion of the body on a side.
#[inline]
#[tactic(auto, unfolding(crate::specs::Velocities::motion_at))]
fn motion_at(bodies: &[BodyState], mass: InverseMass, side: Side) -> Motion
    requires { IsSide (length bodies.now) side }
    ensures value { result ≡ motion_at bodies.now mass side }
    ensures mass { IsMassOf mass result.mass }
{
    match side {
        Side::Static => Motion {
            velocity: V2::ZERO,
            spin: Fx::ZERO,
            mass: InverseMass::NONE,
        },
        Side::Dynamic(place) => {
            let body = &bodies[place];
            Motion {
                velocity: body.velocity,
                spin: body.spin,
                mass,
            }
        }
    }
}

/// Gives the body on a side this motion.
#[inline]
#[tactic(auto, unfolding(crate::specs::Velocities::with_motion))]
fn set_motion(bodies: &mut [BodyState], side: Side, motion: &Motion)
    requires { IsSide (length bodies.old) side }
    ensures { bodies.new ≡ with_motion bodies.old side motion.now }
{
    if let Side::Dynamic(place) = side {
        let body = &mut bodies[place];
        body.velocity = motion.velocity;
        body.spin = motion.spin;
    }
}

/// The bodies of a row, and its accumulated impulses.
#[inline]
#[tactic(auto, unfolding(crate::specs::Velocities::contact_state))]
fn contact_state(bodies: &[BodyState], row: &Row) -> ContactState
    requires { IsEntryOf (length bodies.now) row.now.entry }
    ensures value { result ≡ contact_state bodies.now row.now }
    ensures first { IsMassOf row.now.first_mass result.first.mass }
    ensures second { IsMassOf row.now.second_mass result.second.mass }
{
    let entry = &row.entry;
    ContactState {
        first: motion_at(bodies, row.prepared.first_mass(), entry.first),
        second: motion_at(bodies, row.prepared.second_mass(), entry.second),
        impulses: entry.impulses,
    }
}

/// Writes the velocities and the accumulated impulses back.
#[inline]
fn store(bodies: &mut [BodyState], row: &mut Row, after: &ContactState)
    requires { IsEntryOf (length bodies.old) row.old.entry }
    ensures bodies { bodies.new ≡ bodies_with after.now bodies.old row.old }
    ensures row { row.new ≡ row_with after.now row.old }
{
    set_motion(bodies, row.entry.first, &after.first);
    set_motion(bodies, row.entry.second, &after.second);
    row.entry.impulses = after.impulses;
}

/// The step of one row by the general path.
#[cold]
#[inline(never)]
#[tactic(auto, unfolding(crate::specs::Velocities::bodies_after, crate::specs::Velocities::row_after))]
fn solve_general_row<L: ContactStep>(bodies: &mut [BodyState], row: &mut Row)
    requires { IsEntryOf (length bodies.old) row.old.entry }
    ensures bodies { bodies.new ≡ bodies_after L.step bodies.old row.old }
    ensures row { row.new ≡ row_after L.step bodies.old row.old }
{
    let after = L::after(row.prepared.constraint(), &contact_state(bodies, row));
    store(bodies, row, &after);
}

/// The step of one row: by the fast path where that has a result.
#[inline(always)]
#[tactic(auto, unfolding(crate::specs::Velocities::bodies_after, crate::specs::Velocities::row_after))]
fn solve_row<L: ContactStep>(bodies: &mut [BodyState], row: &mut Row)
    requires { IsEntryOf (length bodies.old) row.old.entry }
    ensures bodies { bodies.new ≡ bodies_after L.step bodies.old row.old }
    ensures row { row.new ≡ row_after L.step bodies.old row.old }
{
    match L::fast_after(&row.prepared, &contact_state(bodies, row)) {
        Some(after) => store(bodies, row, &after),
        None => solve_general_row::<L>(bodies, row),
    }
}

/// The step of each row, with the velocities that the row before it left.
fn pass<L: ContactStep>(bodies: &mut [BodyState], rows: &mut [Row])
    requires { All (λ r. IsEntryOf (length bodies.old) r.entry) rows.old }
    ensures value { record { bodies = bodies.new; rows = rows.new }
        ≡ pass L.step bodies.old rows.old }
    ensures rows { All (λ r. IsEntryOf (length bodies.new) r.entry) rows.new }
{
    for row in rows.iter_mut() {
        solve_row::<L>(bodies, row);
    }
}

/// Warm starting along the rows.
pub(crate) fn warm_start(bodies: &mut [BodyState], rows: &mut [Row])
    requires { All (λ r. IsEntryOf (length bodies.old) r.entry) rows.old }
    ensures value { record { bodies = bodies.new; rows = rows.new }
        ≡ pass after_warm_start bodies.old rows.old }
    ensures rows { All (λ r. IsEntryOf (length bodies.new) r.entry) rows.new }
{
    pass::<WarmStart>(bodies, rows);
}

/// All rounds.
pub(crate) fn rounds(bodies: &mut [BodyState], rows: &mut [Row])
    requires { All (λ r. IsEntryOf (length bodies.old) r.entry) rows.old }
    ensures { record { bodies = bodies.new; rows = rows.new }
        ≡ passes ROUNDS after_round (record { bodies = bodies.old; rows = rows.old }) }
{
    for _ in 0..ROUNDS {
        pass::<Round>(bodies, rows);
    }
}
