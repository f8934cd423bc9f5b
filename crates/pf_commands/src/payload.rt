//! What commands do.

use crate::coordinate::Coordinate;
use crate::name::Name;
use pf_num::Fx;

/// What a command does to a body. A turn has no y, and a stop no x and y. Bodies are numbered from
/// 0; impulses and positions are in units of 2^-24.
#[derive(Clone, Copy, Debug, PartialEq, Eq)]
pub enum Payload {
    /// Gives the body an impulse: mass times lengths a second.
    Push {
        body: u16,
        x: Fx,
        y: Fx,
    },
    /// Gives the body an angular impulse: inertia times radians a second.
    Turn {
        body: u16,
        x: Fx,
    },
    /// Stops the body, and its spin.
    Stop {
        body: u16,
    },
    /// Puts the body at a position and wakes it, with velocity and spin 0. Its rotation stays.
    Place {
        body: u16,
        x: Coordinate,
        y: Coordinate,
    },
}

impl Payload {
    ghost use Rattle.std.specs.Prelude.{◌≡◌};
    ghost use Rattle.pf_commands.specs.Payload.{body_of};

    /// The number of the body that the payload moves.
    pub fn body(&self) -> u16
        ensures { result ≡ body_of self.now }
    {
        match self {
            Payload::Push { body, .. }
            | Payload::Turn { body, .. }
            | Payload::Stop { body }
            | Payload::Place { body, .. } => *body,
        }
    }
}

/// A named payload.
#[derive(Clone, Copy, Debug, PartialEq, Eq)]
pub struct Command {
    pub name: Name,
    pub payload: Payload,
}
