//! The worlds of peers, written into buffers of a caller.

ghost use Rattle.std.specs.Prelude.{◌≡◌, ◌≢◌, Ok};
ghost use Rattle.pf_context.specs.Worlds.{WritesWorld};

use crate::context::Context;
use crate::error::ContextError;
use crate::key::Key;
use crate::plain::{PlainBody, PlainContact, Sizes, write_bodies, write_contacts};
use pf_step::{Work, World};
use std::alloc::Global;

/// Writes a world to the fronts of two buffers, where both have room, and returns what it needs.
fn write_world(
    world: &World,
    bodies: &mut [PlainBody],
    contacts: &mut [PlainContact],
) -> Result<Sizes, ContextError>
    ensures world { WritesWorld (Ok world.now)
        (record { bodies = bodies.old; contacts = contacts.old })
        (record { bodies = bodies.new; contacts = contacts.new }) result }
    ensures no_memory { result ≢ Err ContextError.OutOfMemory }
{
    let sizes = Sizes {
        bodies: world.bodies().len(),
        contacts: world.contacts().as_slice().len(),
    };
    if sizes.bodies > bodies.len() || sizes.contacts > contacts.len() {
        return Err(ContextError::SmallBuffers(sizes));
    }
    write_bodies(world.bodies(), bodies);
    write_contacts(world.contacts().as_slice(), contacts);
    Ok(sizes)
}

impl Context {
    ghost use Rattle.std.specs.Prelude.{◌≡◌, ◌≢◌, ◌↔◌, IsErrOf, None, Some};
    ghost use Rattle.pf_rollback.specs.Core.{PeerCore};
    ghost use Rattle.pf_rollback.specs.Peer.{IsEmptyBefore};
    ghost use Rattle.pf_context.specs.Context.{peer_at};
    ghost use Rattle.pf_context.specs.Worlds.{ShowsBase, ShowsWorld};

    /// Writes the world of a peer at a tick, from its horizon to the tick that it has reached, to
    /// the fronts of two buffers, and returns how many bodies and contacts it has. Where a buffer
    /// is too small for them, that is the error, and nothing is written. Simulates from the last
    /// kept world that is not after the tick.
    pub fn world(
        &self,
        alloc: Global,
        peer: Key,
        tick: u32,
        bodies: &mut [PlainBody],
        contacts: &mut [PlainContact],
    ) -> Result<Sizes, ContextError>
        ensures bad_key { IsErrOf result ContextError.BadKey ↔ (peer_at self.now peer ≡ None) }
        ensures world { ShowsWorld (peer_at self.now peer) tick
            (record { bodies = bodies.old; contacts = contacts.old })
            (record { bodies = bodies.new; contacts = contacts.new }) result }
        ensures no_memory { (core : PeerCore) → peer_at self.now peer ≡ Some core
            → IsEmptyBefore core.peer tick → result ≢ Err ContextError.OutOfMemory }
    {
        let core = self.core(peer)?;
        let world = core.world_at(alloc, tick, &mut Work::new(alloc))?;
        write_world(&world, bodies, contacts)
    }

    /// Writes the world at the horizon of a peer, as [`Context::world`] does: with the horizon it
    /// is what the peer has sealed. Simulates nothing and takes no memory.
    pub fn base(
        &self,
        peer: Key,
        bodies: &mut [PlainBody],
        contacts: &mut [PlainContact],
    ) -> Result<Sizes, ContextError>
        ensures bad_key { IsErrOf result ContextError.BadKey ↔ (peer_at self.now peer ≡ None) }
        ensures world { ShowsBase (peer_at self.now peer)
            (record { bodies = bodies.old; contacts = contacts.old })
            (record { bodies = bodies.new; contacts = contacts.new }) result }
        ensures no_memory { result ≢ Err ContextError.OutOfMemory }
    {
        let core = self.core(peer)?;
        write_world(core.sealed().base, bodies, contacts)
    }
}
