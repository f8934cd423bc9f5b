//! One player's peer: the scene that it plays, the commands that it holds, the tick that it has
//! reached, and the worlds that it keeps.

mod commands;
mod ticks;
mod worlds;

use crate::sealed::Sealed;
use crate::snapshots::Snapshots;
use pf_cache::Meter;
use pf_commands::{CommandMap, MAX_TICK};
use pf_shapes::{PLAYERS, Scene};
use pf_step::{Work, World};
use std::alloc::{AllocError, Global};
use std::marker::Model;

/// The most settled worlds that a peer keeps beside its keyframes.
pub const MAX_RING: usize = 64;

/// One player's peer of a simulation, with the worlds that it keeps to simulate from.
///
/// Contracts see the scene; the abstract peer (its player, its horizon with the world there, its
/// commands, and the tick that it has reached); the ticks of its kept worlds; and the counts of
/// work done. Each kept world is the simulation, from the world of the horizon on, of the commands
/// that the peer holds. Until a tick is sealed the horizon is tick 0, and its world the start
/// world. What `work` knows of dirty bodies and of contacts is true of the settled world.
#[derive(Drop)]
pub struct PeerCore {
    scene: Scene,
    player: u8,
    commands: CommandMap,
    reached: u32,
    snapshots: Snapshots,
    work: Work,
}

impl Model for PeerCore {
    ghost use Rattle.std.specs.Coded.{codes};
    ghost use Rattle.pf_commands.specs.contracts.map.CommandMap.{the_row};
    ghost use Rattle.pf_rollback.specs.Core.{IsPeerCore, PeerCore, peer_of};
    ghost use Rattle.pf_rollback.specs.Snapshots.{settled_world, ticks_of};
    ghost use Rattle.pf_step.specs.Work.{KnowsWorld};

    ghost Value = { PeerCore };

    ghost coded = { Prim.hlevel (codes, the_row.coded) };

    ghost view = { λ core. record {
      scene = core.scene;
      peer = peer_of core.player core.commands core.reached core.snapshots;
      kept = ticks_of core.snapshots;
      meter = core.work.meter;
    } };

    ghost invariant = { λ core. IsPeerCore core.scene
        (peer_of core.player core.commands core.reached core.snapshots) core.snapshots
        × KnowsWorld core.scene (settled_world core.snapshots) core.work };
}

impl PeerCore {
    ghost use Rattle.std.specs.Prelude.{◌≡◌, ◌≤◌, ◌<◌, Ok, IfOk};
    ghost use Rattle.pf_commands.specs.Ticks.{IsFrom};
    ghost use Rattle.pf_step.specs.Simulation.{sim};
    ghost use Rattle.pf_rollback.specs.Kept.{AreRising, settled_tick};
    ghost use Rattle.pf_rollback.specs.Peer.{world_at};
    ghost use Rattle.pf_rollback.specs.Core.{AreAllowed, new_core};

    /// A peer at tick 0 and without commands, which keeps the worlds of at most so many of the last
    /// settled ticks. Players count from 0. Returns an error where it is out of memory.
    pub fn new(alloc: Global, scene: Scene, player: u8, ring: usize) -> Result<PeerCore, AllocError>
        requires player { player < PLAYERS }
        requires ring { (0 < ring) × (ring ≤ MAX_RING) }
        ensures { IfOk result (λ core. core ≡ new_core scene player ring) }
    {
        let start = World::start(alloc, &scene)?;
        let snapshots = Snapshots::new(alloc, start, ring)?;
        Ok(PeerCore {
            scene,
            player,
            commands: CommandMap::new(alloc),
            reached: 0,
            snapshots,
            work: Work::new(alloc),
        })
    }

    /// The scene that the peer plays.
    pub fn scene(&self) -> &Scene
        ensures { result.now ≡ self.now.scene }
    {
        &self.scene
    }

    /// The player whose commands the peer issues.
    pub fn player(&self) -> u8
        ensures value { result ≡ self.now.peer.player }
        ensures range { result < PLAYERS }
    {
        self.player
    }

    /// The commands that the peer holds. The scene allows each of them.
    pub fn commands(&self) -> &CommandMap
        ensures value { result.now ≡ self.now.peer.commands }
        ensures allowed { AreAllowed self.now.scene self.now.peer.commands }
    {
        &self.commands
    }

    /// The tick that the peer has reached.
    pub fn reached(&self) -> u32
        ensures value { result ≡ self.now.peer.reached }
        ensures horizon { self.now.peer.horizon ≤ result }
        ensures range { result ≤ MAX_TICK }
    {
        self.reached
    }

    /// The horizon: the tick before which the peer keeps neither commands nor worlds; at first 0.
    pub fn horizon(&self) -> u32
        ensures value { result ≡ self.now.peer.horizon }
        ensures kept { result ≡ self.now.kept.horizon }
        ensures settled { result ≤ settled_tick self.now.kept }
        ensures reached { result ≤ self.now.peer.reached }
        ensures from { IsFrom result self.now.peer.commands }
    {
        self.snapshots.horizon()
    }

    /// What the peer has sealed, and the commands that it holds.
    pub fn sealed(&self) -> Sealed<'_>
        ensures { (result.horizon ≡ self.now.peer.horizon)
            × (result.base.now ≡ self.now.peer.base)
            × (result.commands.now ≡ self.now.peer.commands) }
    {
        Sealed {
            horizon: self.snapshots.horizon(),
            base: self.snapshots.base(),
            commands: &self.commands,
        }
    }

    /// The settled tick: the greatest tick of a kept world.
    pub fn settled(&self) -> u32
        ensures value { result ≡ settled_tick self.now.kept }
        ensures rising { AreRising self.now.kept }
        ensures reached { result ≤ self.now.peer.reached }
    {
        self.snapshots.settled()
    }

    /// The world of the settled tick, which the peer lends without a copy. Simulates nothing and
    /// takes no memory.
    pub fn settled_world(&self) -> &World
        ensures value { let p = self.now.peer in
            world_at self.now.scene p (settled_tick self.now.kept) ≡ Ok result.now }
        ensures from_zero { let p = self.now.peer in p.horizon ≡ 0
            → result.now ≡ sim self.now.scene p.commands (settled_tick self.now.kept) }
    {
        self.snapshots.latest()
    }

    /// How many ticks were simulated to settle and to seal. Of the count of pairs no clause says
    /// anything.
    pub fn meter(&self) -> Meter
        ensures { result ≡ self.now.meter }
    {
        self.work.meter()
    }
}
