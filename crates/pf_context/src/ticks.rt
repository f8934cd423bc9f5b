//! The ticks of peers: how far they have come, what is settled, and what is sealed.

use crate::context::Context;
use crate::error::ContextError;
use crate::key::Key;
use pf_cache::Meter;
use std::alloc::Global;

impl Context {
    ghost use Rattle.std.specs.Prelude.{◌≡◌, ◌↔◌, IsErrOf, None};
    ghost use Rattle.pf_rollback.specs.Kept.{settled_tick};
    ghost use Rattle.pf_rollback.specs.Settling.{IsSettle};
    ghost use Rattle.pf_context.specs.Context.{peer_at};
    ghost use Rattle.pf_context.specs.Errors.{memory_error, peer_error, shown};
    ghost use Rattle.pf_rollback.specs.Calls.{Advances, Seals};
    ghost use Rattle.pf_context.specs.Calls.{CallsPeer};

    /// The tick that a peer has reached.
    pub fn reached(&self, peer: Key) -> Result<u32, ContextError>
        ensures { result ≡ shown (λ core. core.peer.reached) (peer_at self.now peer) }
    {
        Ok(self.core(peer)?.reached())
    }

    /// A peer's settled tick: the greatest tick of a world that it keeps.
    pub fn settled(&self, peer: Key) -> Result<u32, ContextError>
        ensures { result ≡ shown (λ core. settled_tick core.kept) (peer_at self.now peer) }
    {
        Ok(self.core(peer)?.settled())
    }

    /// A peer's horizon: the tick before which it keeps neither commands nor worlds.
    pub fn horizon(&self, peer: Key) -> Result<u32, ContextError>
        ensures { result ≡ shown (λ core. core.peer.horizon) (peer_at self.now peer) }
    {
        Ok(self.core(peer)?.horizon())
    }

    /// How much work was done to settle and to seal ticks of a peer.
    pub fn meter(&self, peer: Key) -> Result<Meter, ContextError>
        ensures { result ≡ shown (λ core. core.meter) (peer_at self.now peer) }
    {
        Ok(self.core(peer)?.meter())
    }

    /// A peer goes on by so many ticks of 1/64 s, simulates nothing, and its reached tick is
    /// returned. It refuses to pass the last tick there is. Takes no memory.
    pub fn advance(&mut self, peer: Key, ticks: u32) -> Result<u32, ContextError>
        ensures bad_key { IsErrOf result ContextError.BadKey ↔ (peer_at self.old peer ≡ None) }
        ensures call { CallsPeer peer_error self.old self.new peer result (Advances ticks) }
    {
        let Some(core) = self.peers.get_mut(peer) else {
            return Err(ContextError::BadKey);
        };
        Ok(core.advance(ticks)?)
    }

    /// Settles the ticks of a peer up to the reached one, in their order, on this thread, and
    /// returns the reached tick. After an error the ticks before it stay settled. Takes no memory
    /// where the reached tick is settled.
    pub fn settle(&mut self, alloc: Global, peer: Key) -> Result<u32, ContextError>
        ensures bad_key { IsErrOf result ContextError.BadKey ↔ (peer_at self.old peer ≡ None) }
        ensures call { CallsPeer memory_error self.old self.new peer result IsSettle }
    {
        let Some(core) = self.peers.get_mut(peer) else {
            return Err(ContextError::BadKey);
        };
        Ok(core.settle_alone(alloc)?)
    }

    /// Seals a tick that a peer has reached: it is the peer's new horizon. The commands before it
    /// are dropped with the kept worlds up to it; no world that the peer can still show changes.
    pub fn seal(&mut self, alloc: Global, peer: Key, tick: u32) -> Result<(), ContextError>
        ensures bad_key { IsErrOf result ContextError.BadKey ↔ (peer_at self.old peer ≡ None) }
        ensures call { CallsPeer peer_error self.old self.new peer result (Seals tick) }
    {
        let Some(core) = self.peers.get_mut(peer) else {
            return Err(ContextError::BadKey);
        };
        Ok(core.seal(alloc, tick)?)
    }
}
