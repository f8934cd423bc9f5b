//! Which commands a scene allows.

ghost use Rattle.std.specs.Prelude.{◌≡◌, ◌<◌, ◌^◌, IsOk};
ghost use Rattle.pf_commands.specs.Check.{check};
ghost use Rattle.pf_commands.specs.Payload.{body_of};

use crate::payload::Command;
use pf_shapes::Scene;
use thiserror::Error;

/// Why a scene does not allow a command: the first of these that holds.
#[derive(Clone, Copy, Debug, PartialEq, Eq, Error)]
pub enum CheckFault {
    /// The scene has no body of this number.
    #[error("the scene has no body of this number")]
    UnknownBody,
    /// The body is static.
    #[error("the body is static")]
    StaticBody,
    /// The body belongs to another player, or to nobody.
    #[error("the body belongs to another player, or to nobody")]
    NotOwner,
}

/// Whether the scene allows the command: a player moves the bodies that it owns, and no static one.
/// A command that a scene allows has a frame.
pub fn check(scene: &Scene, command: &Command) -> Result<(), CheckFault>
    ensures value { result ≡ check scene.now command.now.name command.now.payload }
    ensures framable { IsOk result → body_of command.now.payload < 2 ^ 10 }
{
    let body = usize::from(command.payload.body());
    let Some(fixture) = scene.fixtures().get(body) else {
        return Err(CheckFault::UnknownBody);
    };
    if fixture.is_static() {
        return Err(CheckFault::StaticBody);
    }
    if fixture.owner() != Some(command.name.player()) {
        return Err(CheckFault::NotOwner);
    }
    Ok(())
}
