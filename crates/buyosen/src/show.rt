//! Worlds of any tick.

ghost use Rattle.std.specs.Prelude.{◌≡◌, ◌≢◌, IfOk};
ghost use Rattle.pf_step.specs.Simulation.{sim};
ghost use Rattle.pf_rollback.specs.Calls.{ReturnsUnchanged};
ghost use Rattle.pf_rollback.specs.Peer.{IsEmptyBefore, world_at};

use pf_rollback::{PeerCore, PeerError};
use pf_step::{Work, World};
use std::alloc::Global;

/// The world that a peer shows at a tick from its horizon to the reached one, as
/// [`PeerCore::world_at`] does, with memory of its own for the work. Simulates from the last kept
/// world that is not after the tick. Returns an error for a later tick, for one before the horizon,
/// and out of memory. Takes no memory where no body and no contact is at the horizon, and no
/// command before the tick.
pub fn world_at(alloc: Global, core: &PeerCore, tick: u32) -> Result<World, PeerError>
    ensures value { ReturnsUnchanged result (world_at core.now.scene core.now.peer tick) }
    ensures from_zero { core.now.peer.horizon ≡ 0 → IfOk result (λ world.
        world ≡ sim core.now.scene core.now.peer.commands tick) }
    ensures no_memory { IsEmptyBefore core.now.peer tick → result ≢ Err PeerError.OutOfMemory }
{
    core.world_at(alloc, tick, &mut Work::new(alloc))
}
