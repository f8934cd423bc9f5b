//! Peers of one scene, which are asked one event after the other.

ghost use Rattle.std.specs.Prelude.{◌≡◌};

use crate::answering::{answer_of_peer, merge_among};
use crate::event::{Event, Reply};
use pf_manifold::{Collider, OneThread};
use pf_rollback::{MAX_RING, PeerCore};
use pf_shapes::{PLAYERS, Scene};
use pf_step::{Crew, StepError};
use std::alloc::{AllocError, Global};
use std::marker::Model;

/// How many settled worlds each peer of a session keeps beside its keyframes.
pub const RING: usize = MAX_RING;

/// The peers of a scene, by their numbers. The player of each is its number.
///
/// Contracts see the scene and the list of the abstract peers.
#[derive(Drop)]
pub struct Session {
    scene: Scene,
    cores: Vec<PeerCore>,
}

impl Model for Session {
    ghost use Rattle.std.specs.Prelude.{map};
    ghost use Rattle.std.specs.Coded.{codes};
    ghost use Rattle.pf_commands.specs.contracts.map.CommandMap.{the_row};
    ghost use Rattle.pf_rollback.specs.Core.{PeerCore};
    ghost use Rattle.pf_events.specs.Session.{AreCores, Session};

    ghost Value = { Session };

    ghost coded = { Prim.hlevel (codes, the_row.coded) };

    ghost view = { λ s. record {
      scene = s.scene;
      peers = map (λ (core : PeerCore). core.peer) s.cores.items;
    } };

    ghost invariant = { λ s. AreCores s.scene s.cores.items };
}

impl Session {
    ghost use Rattle.std.specs.Prelude.{◌≡◌, ◌≤◌, ◌<◌, length, IfOk, IsOk, OnErr};
    ghost use Rattle.pf_events.specs.Crews.{IsCoreAt, UsesCrew};
    ghost use Rattle.pf_events.specs.Laws.{IsAllowedPeer};
    ghost use Rattle.pf_events.specs.Session.{IsAmong, NeedsNoMemory, answer, new_session, other_peer_at, peer_in, event_peer};

    /// So many peers of the scene, at tick 0 and without commands. Takes no memory for none.
    pub fn new(alloc: Global, scene: Scene, peers: u8) -> Result<Session, AllocError>
        requires { peers ≤ PLAYERS }
        ensures value { IfOk result (λ session. session ≡ new_session scene peers) }
        ensures no_memory { peers ≡ 0 → IsOk result }
    {
        let mut cores = Vec::new(alloc);
        for player in 0..peers {
            let copy = scene.try_clone()?;
            cores.push(PeerCore::new(alloc, copy, player, RING)?)?;
        }
        Ok(Session { scene, cores })
    }

    /// The scene of all peers.
    pub fn scene(&self) -> &Scene
        ensures { result.now ≡ self.now.scene }
    {
        &self.scene
    }

    /// The core of a peer, to read. Its commands are in range, and the scene allows each of them.
    pub fn core(&self, peer: u8) -> &PeerCore
        requires { peer < length self.now.peers }
        ensures peer { result.now.peer ≡ peer_in self.now peer }
        ensures scene { result.now.scene ≡ self.now.scene }
        ensures allowed { IsAllowedPeer self.now.scene (peer_in self.now peer) }
    {
        let core = &self.cores[usize::from(peer)];
        // What these calls ensure is that the commands are allowed and in range.
        let _count = core.commands().len();
        let _horizon = core.horizon();
        core
    }

    /// How many peers there are.
    pub fn peer_count(&self) -> u8
        ensures value { result ≡ length self.now.peers }
        ensures range { result ≤ PLAYERS }
    {
        self.cores.len() as u8
    }

    /// The reply to an event, on one thread. An `Err` leaves what all peers hold as it was.
    pub fn answer(&mut self, alloc: Global, event: Event) -> Result<Reply, AllocError>
        requires { IsAmong (length self.old.peers) event }
        ensures reply { IfOk result (λ reply. (reply, self.new) ≡ answer self.old event) }
        ensures no_memory { let s = self.old in
            NeedsNoMemory s.scene (other_peer_at s event) (peer_in s (event_peer event)) event
            → IsOk result }
        ensures err { OnErr result (self.new ≡ self.old) }
    {
        match self.answer_by(&OneThread, alloc, event, &mut OneThread) {
            Ok(reply) => Ok(reply),
            Err(StepError::OutOfMemory) => Err(AllocError),
            Err(StepError::Crew(_)) => unreachable!(),
        }
    }

    /// The reply to an event. For a settle the collider computes contact points and the crew solves
    /// islands; no other event uses them. An `Err` leaves what all peers hold and show as it was.
    /// An error of the crew comes only where a call of it failed, for a settle.
    pub fn answer_by<P: Collider, C: Crew>(
        &mut self,
        collider: &P,
        alloc: Global,
        event: Event,
        crew: &mut C,
    ) -> Result<Reply, StepError>
        requires can { P.can_collide collider.now }
        requires among { IsAmong (length self.old.peers) event }
        ensures reply { IfOk result (λ reply. (reply, self.new) ≡ answer self.old event) }
        ensures no_memory { let s = self.old in
            NeedsNoMemory s.scene (other_peer_at s event) (peer_in s (event_peer event)) event
            → IsOk result }
        ensures err { OnErr result (self.new ≡ self.old) }
        ensures crew { UsesCrew C.is_called C.may_fail (IsCoreAt self.old (event_peer event)) event
            crew.old result crew.new }
    {
        let peer = event.peer();
        let other = event.other_peer();
        if other != peer {
            return Ok(merge_among(&mut self.cores, peer, other)?);
        }
        let core = &mut self.cores[usize::from(peer)];
        answer_of_peer(core, collider, alloc, event, crew)
    }
}
