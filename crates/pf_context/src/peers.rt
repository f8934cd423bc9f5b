//! Peers that are made and freed.

ghost use Rattle.std.specs.Prelude.{◌≡◌};
ghost use Rattle.pf_context.specs.Errors.{table_error};

use crate::context::Context;
use crate::error::ContextError;
use crate::key::Key;
use crate::table::Rejection;
use pf_rollback::{MAX_RING, PeerCore};
use pf_shapes::PLAYERS;
use std::alloc::Global;

/// Why a table did not take a peer, which is dropped.
fn error_of(rejection: Rejection<PeerCore>) -> ContextError
    ensures { result ≡ table_error rejection.error }
{
    ContextError::from(rejection.error)
}

impl Context {
    ghost use Rattle.std.specs.Prelude.{◌≡◌, ◌↔◌, IsErrOf, None, Ok};
    ghost use Rattle.pf_context.specs.Context.{peer_at, scene_at, without_peer};
    ghost use Rattle.pf_context.specs.Calls.{AddsPeer, Frees, core_of};

    /// Makes a peer of a scene, with a copy of it, at tick 0 and without commands, which keeps this
    /// many settled worlds, from 1 to 64. Players count from 0, and there are 8. The scene stays
    /// until it is freed.
    pub fn new_peer(
        &mut self,
        alloc: Global,
        scene: Key,
        player: u8,
        ring: usize,
    ) -> Result<Key, ContextError>
        ensures bad_key { IsErrOf result ContextError.BadKey ↔ (scene_at self.old scene ≡ None) }
        ensures adds { AddsPeer self.old self.new result
            (core_of (scene_at self.old scene) player ring) }
    {
        let Some(scene) = self.scenes.get(scene) else {
            return Err(ContextError::BadKey);
        };
        if player >= PLAYERS {
            return Err(ContextError::BadPlayer);
        }
        if ring == 0 || ring > MAX_RING {
            return Err(ContextError::BadRing);
        }
        let core = PeerCore::new(alloc, scene.try_clone()?, player, ring)?;
        self.add_peer(core)
    }

    /// Adds a peer.
    fn add_peer(&mut self, core: PeerCore) -> Result<Key, ContextError>
        ensures { AddsPeer self.old self.new result (Ok core) }
    {
        match self.peers.insert(core) {
            Ok(key) => Ok(key),
            Err(rejection) => Err(error_of(rejection)),
        }
    }

    /// Frees a peer. From then on its key names nothing. Takes no memory.
    pub fn free_peer(&mut self, peer: Key) -> Result<(), ContextError>
        ensures bad_key { IsErrOf result ContextError.BadKey ↔ (peer_at self.old peer ≡ None) }
        ensures frees { Frees (peer_at self.old peer) (without_peer self.old peer)
            self.old self.new result }
    {
        match self.peers.remove(peer) {
            Some(_) => Ok(()),
            None => Err(ContextError::BadKey),
        }
    }
}
