//! The phase Commands: what players' commands do to bodies.

ghost use Rattle.std.specs.Prelude.{◌≡◌, length};
ghost use Rattle.pf_step.specs.Commands.{after_payload, after_command, after_commands, apply};

use crate::world::World;
use pf_commands::Payload;
use pf_num::Fx;
use pf_rot::V2;
use pf_shapes::{BodyState, Fixture, Scene};

/// Applies one command to a world of the scene. A command for a static body, or for one that the
/// scene lacks, changes nothing. Takes no memory.
#[tactic(auto, unfolding(crate::specs::Commands::apply))]
pub fn apply(world: &mut World, scene: &Scene, payload: Payload)
    ensures value { world.new ≡ apply scene.now world.old payload }
    ensures bodies { length world.new.bodies ≡ length world.old.bodies }
{
    apply_one(scene.fixtures(), &mut world.bodies, &payload);
}

/// One command after the other.
#[inline]
#[tactic(auto, using(crate::proofs::Orders::after_commands_none, crate::proofs::Orders::after_commands_take))]
pub(crate) fn apply_all(fixtures: &[Fixture], bodies: &mut [BodyState], payloads: &[Payload])
    ensures { bodies.new ≡ after_commands fixtures.now bodies.old payloads.now }
{
    for payload in payloads {
        apply_one(fixtures, bodies, payload);
    }
}

/// One command.
#[tactic(auto, unfolding(crate::specs::Commands::after_command))]
fn apply_one(fixtures: &[Fixture], bodies: &mut [BodyState], payload: &Payload)
    ensures { bodies.new ≡ after_command fixtures.now bodies.old payload.now }
{
    let body = usize::from(payload.body());
    if let (Some(fixture), Some(state)) = (fixtures.get(body), bodies.get(body)) {
        if !fixture.is_static() {
            bodies[body] = after_payload(fixture, payload, *state);
        }
    }
}

/// The state of a body after a command for it: it is awake, and its timer begins anew.
#[tactic(auto, unfolding(crate::specs::Commands::after_payload))]
fn after_payload(fixture: &Fixture, payload: &Payload, body: BodyState) -> BodyState
    ensures { result ≡ after_payload fixture.now payload.now body }
{
    let woken = BodyState {
        timer: 0,
        awake: true,
        ..body
    };
    let resting = BodyState {
        velocity: V2::ZERO,
        spin: Fx::ZERO,
        ..woken
    };
    match *payload {
        Payload::Push { x, y, .. } => BodyState {
            velocity: body.velocity.add(V2 { x, y }.scale(fixture.inverse_mass())),
            ..woken
        },
        Payload::Turn { x, .. } => BodyState {
            spin: body.spin.add(fixture.inverse_inertia().mul(x)),
            ..woken
        },
        Payload::Stop { .. } => resting,
        Payload::Place { x, y, .. } => BodyState {
            position: V2 {
                x: x.value(),
                y: y.value(),
            },
            ..resting
        },
    }
}
