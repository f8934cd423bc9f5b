//! The commands of peers: issued and taken.

use crate::context::Context;
use crate::error::ContextError;
use crate::key::Key;
use pf_commands::{FRAME_LEN, Payload, Put};

impl Context {
    ghost use Rattle.std.specs.Prelude.{◌≡◌, ◌↔◌, IsErrOf, None};
    ghost use Rattle.pf_commands.specs.Frame.{decode};
    ghost use Rattle.pf_context.specs.Context.{peer_at};
    ghost use Rattle.pf_context.specs.Errors.{peer_error};
    ghost use Rattle.pf_rollback.specs.Calls.{Issues, TakesFrame};
    ghost use Rattle.pf_context.specs.Calls.{CallsPeer};

    /// Takes the command that a frame encodes to a peer, of any player, for any tick from the
    /// peer's horizon on. Takes memory only where the command's name is new to the peer.
    pub fn take(&mut self, peer: Key, frame: &[u8]) -> Result<Put, ContextError>
        ensures bad_key { IsErrOf result ContextError.BadKey ↔ (peer_at self.old peer ≡ None) }
        ensures call { CallsPeer peer_error self.old self.new peer result
            (TakesFrame (decode frame.now)) }
    {
        let Some(core) = self.peers.get_mut(peer) else {
            return Err(ContextError::BadKey);
        };
        Ok(core.take(frame)?)
    }

    /// Issues a command of a peer's own player at the tick that it has reached, and returns its
    /// frame.
    pub fn issue(&mut self, peer: Key, payload: Payload) -> Result<[u8; FRAME_LEN], ContextError>
        ensures bad_key { IsErrOf result ContextError.BadKey ↔ (peer_at self.old peer ≡ None) }
        ensures call { CallsPeer peer_error self.old self.new peer result (Issues payload) }
    {
        let Some(core) = self.peers.get_mut(peer) else {
            return Err(ContextError::BadKey);
        };
        Ok(core.issue(payload)?)
    }
}
