//! The state of a body at one tick.

ghost use Rattle.std.specs.Prelude.{◌≡◌};
ghost use Rattle.pf_shapes.specs.Body.{BodyState, start_of};

use crate::fixture::Fixture;
use pf_num::Fx;
use pf_rot::{Rot, V2};
use std::marker::Model;

/// The motion of a body at one tick, as Box2D's `b2Body` keeps it.
#[derive(Clone, Copy, Debug, PartialEq, Eq)]
pub struct BodyState {
    /// The centre, in units of 2^-24 of a length.
    pub position: V2,
    /// The rotation.
    pub rotation: Rot,
    /// The velocity, in lengths a second.
    pub velocity: V2,
    /// The angular velocity, in radians a second.
    pub spin: Fx,
    /// The number of ticks for which the body has been still. At 32 the body falls asleep, and the
    /// timer is 0 again.
    pub timer: u8,
    /// Whether the body is simulated. A static or sleeping body isn't.
    pub awake: bool,
}

impl Model for BodyState {
    ghost Value = { BodyState };

    ghost view = { λ b. record {
      position = b.position;
      rotation = b.rotation;
      velocity = b.velocity;
      spin = b.spin;
      timer = b.timer;
      awake = b.awake;
    } };

    ghost inverse = { λ b. record {
      position = b.position;
      rotation = b.rotation;
      velocity = b.velocity;
      spin = b.spin;
      timer = b.timer;
      awake = b.awake;
    } };
}

impl Default for BodyState {
    ghost use Rattle.std.specs.Prelude.{◌≡◌};
    ghost use Rattle.pf_shapes.specs.Body.{no_state};

    ghost is_default = { λ b. b ≡ no_state };

    /// At rest at the origin, upright, and not awake.
    fn default() -> Self {
        BodyState {
            position: V2::ZERO,
            rotation: Rot::UPRIGHT,
            velocity: V2::ZERO,
            spin: Fx::ZERO,
            timer: 0,
            awake: false,
        }
    }
}

impl BodyState {
    /// The state in which a body of this fixture starts: at rest, and awake unless static.
    pub fn start(fixture: &Fixture, position: V2, rotation: Rot) -> BodyState
        ensures { result ≡ start_of fixture.now position rotation }
    {
        BodyState {
            position,
            rotation,
            velocity: V2::ZERO,
            spin: Fx::ZERO,
            timer: 0,
            awake: !fixture.is_static(),
        }
    }
}
