//! How a peer advances, and settles the ticks up to the reached one.

ghost use Rattle.std.specs.Prelude.{◌≡◌, ◌<◌, ◌+◌, Err, OnOk, OnErr};
ghost use Rattle.pf_rollback.specs.Kept.{settled_tick};
ghost use Rattle.pf_rollback.specs.Peer.{advance};
ghost use Rattle.pf_rollback.specs.Core.{HasSettled};
ghost use Rattle.pf_rollback.specs.Calls.{Advances};
ghost use Rattle.pf_rollback.specs.Settling.{CallsCrewByTick, IsSettle, islands_at};
ghost use Rattle.pf_step.specs.Stepping.{CallsCrew};

use crate::error::{PeerError, Refusal};
use crate::peer::PeerCore;
use pf_commands::MAX_TICK;
use pf_manifold::{Collider, OneThread, SeveralThreads};
use pf_step::{Crew, StepError};
use std::alloc::{AllocError, Global};
use std::thread::Threads;

impl PeerCore {
    /// Advances by so many ticks of 1/64 s, simulates nothing, and returns the reached tick.
    /// Returns an error, and stays, where that is above [`MAX_TICK`]. Takes no memory.
    #[tactic(auto, unfolding(crate::specs::Peer::advance))]
    pub fn advance(&mut self, ticks: u32) -> Result<u32, PeerError>
        ensures { Advances ticks self.old self.new result }
    {
        match self.reached.checked_add(ticks) {
            Some(reached) if reached <= MAX_TICK => {
                self.reached = reached;
                Ok(reached)
            }
            _ => Err(PeerError::Refused(Refusal::TickLimit)),
        }
    }

    /// Settles the ticks up to the reached one, in their order, each by one step, and returns the
    /// reached tick. The collider computes contact points, and the crew solves islands. After an
    /// error the ticks before it stay settled. The commands and the reached tick stay as they are.
    /// Takes no memory where the reached tick is settled.
    pub fn settle_by<P: Collider, C: Crew>(
        &mut self,
        collider: &P,
        alloc: Global,
        crew: &mut C,
    ) -> Result<u32, StepError>
        requires { P.can_collide collider.now }
        ensures settle { IsSettle self.old self.new result }
        ensures crew { CallsCrewByTick C.is_called C.may_fail self.old self.new
            crew.old crew.new result }
    {
        let last = self.reached();
        let settled = self.settled();
        for tick in settled..last {
            if let Err(error) = self.settle_tick(collider, alloc, tick, crew) {
                return Err(error);
            }
        }
        Ok(last)
    }

    /// Steps the world of the settled tick to that of the next one, and keeps what that changed.
    /// What falls out of the ring lends its memory to the next step. An error leaves the peer as it
    /// was.
    fn settle_tick<P: Collider, C: Crew>(
        &mut self,
        collider: &P,
        alloc: Global,
        tick: u32,
        crew: &mut C,
    ) -> Result<(), StepError>
        requires can { P.can_collide collider.now }
        requires next { tick ≡ settled_tick self.old.kept }
        requires reached { tick < self.old.peer.reached }
        ensures settled { OnOk result (settled_tick self.new.kept ≡ tick + 1) }
        ensures ok { OnOk result (HasSettled 1 self.old self.new) }
        ensures err { OnErr result (HasSettled 0 self.old self.new) }
        ensures crew { CallsCrew C.is_called C.may_fail (islands_at self.old tick)
            crew.old crew.new result }
    {
        self.snapshots.reserve()?;
        let payloads = self.commands.at_tick(alloc, tick)?;
        let work = &mut self.work;
        self.snapshots
            .settle(collider, alloc, &self.scene, &payloads, work, crew)
    }

    /// Settles the ticks up to the reached one, in their order, by steps on one thread, and returns
    /// the reached tick. After an error the ticks before it stay settled. The commands and the
    /// reached tick stay as they are. Takes no memory where the reached tick is settled.
    pub fn settle_alone(&mut self, alloc: Global) -> Result<u32, AllocError>
        ensures { IsSettle self.old self.new result }
    {
        match self.settle_by(&OneThread, alloc, &mut OneThread) {
            Ok(tick) => Ok(tick),
            Err(StepError::OutOfMemory) => Err(AllocError),
            Err(StepError::Crew(_)) => unreachable!(),
        }
    }

    /// As [`PeerCore::settle_alone`], with a crew, which each tick calls as
    /// [`pf_step::step_next`] does. If [`pf_manifold::PAIRS_FOR_THREADS`] pairs or more cannot
    /// reuse kept points, several threads compute the points.
    pub fn settle_with<R: Threads + Sync, C: Crew>(
        &mut self,
        rt: &R,
        alloc: Global,
        crew: &mut C,
    ) -> Result<u32, StepError>
        ensures settle { IsSettle self.old self.new result }
        ensures crew { CallsCrewByTick C.is_called C.may_fail self.old self.new
            crew.old crew.new result }
    {
        self.settle_by(&SeveralThreads { rt }, alloc, crew)
    }
}
