//! The parts of a tick of a list of bodies with the contacts between them: before the rounds, the
//! rounds, and after them; and all phases of bodies that no contact touches.

ghost use Rattle.std.specs.Prelude.{◌≡◌, ◌<◌, All, if◌then◌else◌, length, map};
ghost use Rattle.pf_rows.specs.Row.{IsEntryOf, IsSide};
ghost use Rattle.pf_manifold.specs.Key.{IsRising};
ghost use Rattle.pf_solver.specs.Alone.{lone_bodies_after_tick, lone_body_after_tick};
ghost use Rattle.pf_solver.specs.Beside.{velocities_of};
ghost use Rattle.pf_solver.specs.Bodies.{after_gravity, after_motion, after_timer, each_awake, gravity_per_tick};
ghost use Rattle.pf_solver.specs.Solve.{pre_step_body, mass_of, prepared_batch, prepared_row};
ghost use Rattle.pf_islands.specs.Rows.{IsRowOf};

use crate::bodies::{STILL_TICKS, after_gravity, after_motion, after_timer};
use crate::constraint::{LastFriction, PreStepBody, constraint_of};
use crate::velocities::{rounds, warm_start};
use pf_islands::fall_asleep;
use pf_num::Fx;
use pf_rot::V2;
use pf_rows::{InverseMass, Prepared, Row, Side};
use pf_shapes::{BodyState, Fixture, Scene};

/// How easily impulses move a body of this fixture.
#[inline]
fn mass_of(fixture: &Fixture) -> InverseMass
    ensures { result ≡ mass_of fixture.now }
{
    InverseMass {
        inverse_mass: fixture.inverse_mass(),
        inverse_inertia: fixture.inverse_inertia(),
    }
}

/// The body of a number as the pre-step sees it: a static one at its start, another at its place in
/// the list.
#[tactic(auto, unfolding(crate::specs::Solve::pre_step_body))]
fn pre_step_body(scene: &Scene, bodies: &[BodyState], number: usize, side: Side) -> PreStepBody
    requires number { number < length scene.now.fixtures }
    requires side { IsSide (length bodies.now) side }
    ensures { result ≡ pre_step_body scene.now bodies.now number side }
{
    let fixture = &scene.fixtures()[number];
    let friction = fixture.friction();
    match side {
        Side::Static => {
            let start = &scene.starts()[number];
            PreStepBody {
                position: start.position,
                mass: InverseMass::NONE,
                friction,
            }
        }
        Side::Dynamic(place) => {
            let body = &bodies[place];
            PreStepBody {
                position: body.position,
                mass: mass_of(fixture),
                friction,
            }
        }
    }
}

/// The pre-step of a row.
#[tactic(auto, unfolding(crate::specs::Solve::prepared_row))]
fn prepare(scene: &Scene, bodies: &[BodyState], row: &mut Row, last: &mut LastFriction)
    requires { IsRowOf scene.now (length bodies.now) row.old }
    ensures { row.new ≡ prepared_row scene.now bodies.now row.old }
{
    let entry = row.entry;
    let first = pre_step_body(scene, bodies, usize::from(entry.touch.a), entry.first);
    let second = pre_step_body(scene, bodies, usize::from(entry.touch.b), entry.second);
    let constraint = constraint_of(&first, &second, &entry.touch.point, last);
    row.prepared = Prepared::new(first.mass, second.mass, constraint);
}

/// The pre-step of all rows.
fn prepare_all(scene: &Scene, bodies: &[BodyState], rows: &mut [Row])
    requires { All (IsRowOf scene.now (length bodies.now)) rows.old }
    ensures { rows.new ≡ map (prepared_row scene.now bodies.now) rows.old }
{
    let mut last = LastFriction::new();
    for row in rows.iter_mut() {
        prepare(scene, bodies, row, &mut last);
    }
}

/// Gravity on a body, if it is awake.
#[inline]
#[tactic(auto, unfolding(crate::specs::Bodies::after_gravity))]
fn fall_if_awake(pull: V2, body: &mut BodyState)
    ensures { body.new ≡ (if body.old.awake then after_gravity pull body.old else body.old) }
{
    if body.awake {
        body.velocity = body.velocity.add(pull);
    }
}

/// Gravity on the awake bodies. `pull` is what it adds to a velocity in a tick.
fn fall(pull: V2, bodies: &mut [BodyState])
    ensures { bodies.new ≡ each_awake (after_gravity pull) bodies.old }
{
    for body in bodies.iter_mut() {
        fall_if_awake(pull, body);
    }
}

/// Position and timer of a body, if it is awake.
#[inline]
fn move_if_awake(body: &mut BodyState)
    ensures { body.new
        ≡ (if body.old.awake then after_timer (after_motion body.old) else body.old) }
{
    if body.awake {
        *body = after_timer(after_motion(*body));
    }
}

/// Positions and timers of the awake bodies.
#[inline(never)]
pub(crate) fn move_awake(bodies: &mut [BodyState])
    ensures { bodies.new ≡ each_awake (λ b. after_timer (after_motion b)) bodies.old }
{
    for body in bodies.iter_mut() {
        move_if_awake(body);
    }
}

/// The phases Gravity to Timers of a body that no contact touches, if it is awake. In one
/// expression the body stays in registers.
#[inline(always)]
fn move_lone_body(pull: V2, body: &mut BodyState)
    ensures { body.new ≡ (if body.old.awake
        then after_timer (after_motion (after_gravity pull body.old)) else body.old) }
{
    if body.awake {
        *body = after_timer(after_motion(after_gravity(pull, *body)));
    }
}

/// The phases Gravity to Sleep of a body that no contact touches.
#[inline(always)]
#[tactic(auto, unfolding(crate::specs::Alone::lone_body_after_tick))]
fn solve_lone_body(pull: V2, body: &mut BodyState)
    ensures { body.new ≡ lone_body_after_tick pull body.old }
{
    move_lone_body(pull, body);
    if body.awake && body.timer == STILL_TICKS {
        fall_asleep(body);
    }
}

/// The phases Gravity to Sleep of the bodies of these numbers, which no contact touches, one body
/// after the other: each body is its own group. Takes no memory.
#[inline(never)]
pub fn solve_lone_bodies(scene: &Scene, bodies: &mut [BodyState], numbers: &[usize])
    requires numbers { All (λ number. number < length bodies.old) numbers.now }
    requires order { IsRising 0 numbers.now }
    ensures { bodies.new
        ≡ lone_bodies_after_tick (gravity_per_tick scene.now.gravity) numbers.now bodies.old }
{
    let pull = scene.gravity().scale(Fx::TICK);
    for number in numbers {
        solve_lone_body(pull, &mut bodies[*number]);
    }
}

/// Gravity on the awake bodies, and the pre-step of all rows. All of a row but its entry is
/// computed anew. Takes no memory.
#[inline(never)]
#[tactic(auto, unfolding(crate::specs::Solve::prepared_batch))]
pub(crate) fn prepare_list(scene: &Scene, bodies: &mut [BodyState], rows: &mut [Row])
    requires { All (IsRowOf scene.now (length bodies.old)) rows.old }
    ensures value { record { bodies = bodies.new; rows = rows.new }
        ≡ prepared_batch scene.now bodies.old rows.old }
    ensures rows { All (λ r. IsEntryOf (length bodies.new) r.entry) rows.new }
{
    fall(scene.gravity().scale(Fx::TICK), bodies);
    prepare_all(scene, bodies, rows);
}

/// Finds which numbers of a row are small.
#[inline]
fn measure(row: &mut Row)
    ensures { row.new ≡ row.old }
{
    row.prepared.measure();
}

/// Finds which numbers of each row are small, once for warm starting and all rounds.
fn measure_all(rows: &mut [Row])
    ensures { rows.new ≡ rows.old }
{
    for row in rows.iter_mut() {
        measure(row);
    }
}

/// Velocities of all bodies that rows name, in the order of the rows: warm starting, and the
/// rounds. Takes no memory.
#[inline(never)]
pub(crate) fn solve_list(bodies: &mut [BodyState], rows: &mut [Row])
    requires { All (λ r. IsEntryOf (length bodies.old) r.entry) rows.old }
    ensures { record { bodies = bodies.new; rows = rows.new }
        ≡ velocities_of (record { bodies = bodies.old; rows = rows.old }) }
{
    measure_all(rows);
    warm_start(bodies, rows);
    rounds(bodies, rows);
}
