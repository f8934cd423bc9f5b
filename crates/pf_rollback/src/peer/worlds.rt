//! The worlds that a peer shows, and the tick that it seals.

ghost use Rattle.std.specs.Prelude.{◌≡◌, ◌≢◌, ◌≤◌, ◌-◌, ℕ, Ok, Err, IfOk, OnOk, OnErr};
ghost use Rattle.pf_rollback.specs.declared.error.Refusal.{Refusal};
ghost use Rattle.pf_rollback.specs.declared.error.PeerError.TheVariants.{Refused};
ghost use Rattle.pf_step.specs.Simulation.{sim};
ghost use Rattle.pf_rollback.specs.Kept.{nearest_tick};
ghost use Rattle.pf_rollback.specs.Peer.{IsEmptyBefore, seal, world_at};
ghost use Rattle.pf_rollback.specs.Core.{count_after};
ghost use Rattle.pf_rollback.specs.Calls.{ReturnsUnchanged, Seals};

use crate::error::{PeerError, Refusal};
use crate::peer::PeerCore;
use crate::simulate::simulate_from;
use pf_step::{Work, World};
use std::alloc::Global;

impl PeerCore {
    /// The world at a tick from the horizon to the reached one: the simulation, from the world of
    /// the horizon on, of the commands that the peer holds; of a peer that has sealed nothing, the
    /// simulation from tick zero. Simulates from the last kept world that is not after the tick,
    /// and counts the ticks that it simulates in `work`, also those before an error. Returns an
    /// error for a later tick, for one before the horizon, and out of memory. Takes no memory where
    /// no body and no contact is at the horizon, and no command before the tick.
    #[tactic(auto, unfolding(crate::specs::Peer::world_at))]
    pub fn world_at(&self, alloc: Global, tick: u32, work: &mut Work) -> Result<World, PeerError>
        ensures value { ReturnsUnchanged result (world_at self.now.scene self.now.peer tick) }
        ensures from_zero { self.now.peer.horizon ≡ 0 → IfOk result (λ world.
            world ≡ sim self.now.scene self.now.peer.commands tick) }
        ensures counted { let ticks = tick - nearest_tick self.now.kept tick in
            OnOk result (work.new.meter.ticks ≡ count_after work.old.meter.ticks ticks) }
        ensures not_counted { let ticks = tick - nearest_tick self.now.kept tick in
            OnErr result ((some : ℕ) × (some ≤ ticks)
            × (work.new.meter.ticks ≡ count_after work.old.meter.ticks some)) }
        ensures refused { (refusal : Refusal) → result ≡ Err (Refused refusal)
            → work.new ≡ work.old }
        ensures no_memory { IsEmptyBefore self.now.peer tick
            → result ≢ Err PeerError.OutOfMemory }
    {
        if tick > self.reached {
            return Err(PeerError::Refused(Refusal::NotReached(self.reached)));
        }
        let horizon = self.snapshots.horizon();
        if tick < horizon {
            return Err(PeerError::Refused(Refusal::TooOld(horizon)));
        }
        Ok(simulate_from(
            alloc,
            &self.scene,
            &self.commands,
            &self.snapshots,
            tick,
            work,
        )?)
    }

    /// Seals a tick that the peer has reached: it becomes the horizon. The world there stands for
    /// the commands before it, which are dropped with the kept worlds up to it; no world that the
    /// peer can still show changes. Simulates, on one thread, from the last kept world that is not
    /// after the tick, and counts these ticks. Returns an error for a tick above the reached one,
    /// for one before the horizon, and out of memory; a refused call changes nothing, and one that
    /// is out of memory changes only the counts of the meter. At the horizon it changes nothing.
    /// Takes no memory where no body and no contact is at the horizon, and no command before the
    /// tick.
    #[tactic(auto, unfolding(crate::specs::Peer::seal))]
    pub fn seal(&mut self, alloc: Global, tick: u32) -> Result<(), PeerError>
        ensures { Seals tick self.old self.new result }
    {
        if tick > self.reached {
            return Err(PeerError::Refused(Refusal::NotReached(self.reached)));
        }
        let kept = &self.snapshots;
        let horizon = kept.horizon();
        if tick < horizon {
            return Err(PeerError::Refused(Refusal::TooOld(horizon)));
        }
        if tick == horizon {
            return Ok(());
        }
        let work = &mut self.work;
        let result = simulate_from(alloc, &self.scene, &self.commands, kept, tick, work);
        self.work.forget_dirty();
        let world = result?;
        self.commands.drop_before(tick);
        self.snapshots.seal(tick, world);
        Ok(())
    }
}
