//! A session as a pure list of events.

ghost use Rattle.std.specs.Prelude.{◌≡◌, ◌≤◌, All, IfOk};
ghost use Rattle.pf_events.specs.Session.{IsAmong, new_session, replies_to};

use crate::event::{Event, Reply};
use crate::session::Session;
use pf_shapes::{PLAYERS, Scene};
use std::alloc::{AllocError, Global};

/// The replies to a list of events on so many peers of a scene, one after the other, on one thread.
pub fn run(
    alloc: Global,
    scene: &Scene,
    peers: u8,
    events: &[Event],
) -> Result<Vec<Reply>, AllocError>
    requires peers { peers ≤ PLAYERS }
    requires named { All (IsAmong peers) events.now }
    ensures { IfOk result (λ replies.
        replies.items ≡ replies_to (new_session scene.now peers) events.now) }
{
    let mut session = Session::new(alloc, scene.try_clone()?, peers)?;
    let mut replies = Vec::new(alloc);
    for event in events {
        replies.push(session.answer(alloc, *event)?)?;
    }
    Ok(replies)
}
