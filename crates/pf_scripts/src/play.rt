//! How a peer plays a script.

ghost use Rattle.std.specs.Prelude.{◌≡◌, ◌⊎◌, ◌∷◌, [], IfErr, IfOk, None, OnOk, Some};
ghost use Rattle.std.specs.List.{AllZip};
ghost use Rattle.pf_scripts.specs.Peer.{WereHanded};

use crate::error::SessionError;
use crate::peer::Peer;
use crate::taking::take;
use crate::turn::Turn;
use pf_commands::FRAME_LEN;
use pf_links::LinkOut;
use pf_manifold::{Collider, OneThread};
use pf_step::{Crew, CrewError, StepError};
use pf_workers::{Gate, OpenGate, Workers};
use std::alloc::{AllocError, Global};
use std::sync::Wait;
use std::thread::Threads;

/// The most polls of a turn.
pub const MAX_POLLS: usize = 64;

/// Hands a frame to all links.
fn hand_to_all(outputs: &mut [LinkOut], frame: [u8; FRAME_LEN]) -> Result<(), AllocError>
    ensures { OnOk result (AllZip (WereHanded (frame ∷ [])) outputs.old outputs.new) }
{
    for number in 0..outputs.len() {
        outputs[number].hand_in(frame)?;
    }
    Ok(())
}

impl Peer {
    ghost use Rattle.std.specs.Prelude.{◌≡◌, ◌⊎◌, ◌<◌, ◌≤◌, ◌∷◌, [], IfErr, IfOk, IfSome, None, OnOk, Some, false, true};
    ghost use Rattle.pf_pool.specs.declared.pool.TheConstants.{MAX_WORKERS};
    ghost use Rattle.pf_rollback.specs.Kept.{settled_tick};
    ghost use Rattle.pf_step.specs.declared.crew.CrewError.TheVariants.{GateShut, OutOfMemory};
    ghost use Rattle.pf_scripts.specs.Frames.{refusal_of};
    ghost use Rattle.pf_scripts.specs.Peer.{scripted_player, setting_of};
    ghost use Rattle.pf_scripts.specs.Play.{HasMoved, HasPlayed, IsPeerError, IsCrewErrorOfPlay};
    ghost use Rattle.pf_events.specs.Crews.{CanFail};
    ghost use Rattle.pf_scripts.specs.Script.{frame_bytes, frame_fault, frames_in, place_after, script_fault, tick_fault, turn_fault};
    ghost use Rattle.pf_scripts.specs.declared.error.SessionError.TheVariants as errors;

    /// Takes a frame of the peer's own script, and hands it to all others.
    fn take_own(&mut self, place: usize, frame: &[u8]) -> Result<(), SessionError>
        ensures moved { OnOk result (HasMoved (frame.now ∷ []) 0 self.old self.new) }
        ensures no_fault { OnOk result (refusal_of (setting_of self.old) frame.now ≡ None) }
        ensures fault { let p = scripted_player self.old in IfErr result (λ fault.
            IsPeerError (λ error. error ≡ OutOfMemory) p.player fault
            ⊎ (frame_fault (setting_of self.old) p.player place (frame.now ∷ []) ≡ Some fault)) }
    {
        self.in_range();
        let player = self.core.player();
        match take(&mut self.core, frame) {
            Ok(None) => {}
            Ok(Some(refusal)) => return Err(SessionError::Frame(player, place, refusal)),
            Err(_) => return Err(SessionError::Peer(player, CrewError::OutOfMemory)),
        }
        let Ok(frame) = <[u8; FRAME_LEN]>::try_from(frame) else {
            unreachable!()
        };
        match hand_to_all(&mut self.outputs, frame) {
            Ok(()) => Ok(()),
            Err(_) => Err(SessionError::Peer(player, CrewError::OutOfMemory)),
        }
    }

    /// Takes the frames of a turn. `place` is the number of the first one in the script; returns
    /// the number behind the last one.
    fn take_all_own(&mut self, place: usize, frames: &[Vec<u8>]) -> Result<usize, SessionError>
        ensures moved { OnOk result (HasMoved (frame_bytes frames.now) 0 self.old self.new) }
        ensures place { IfOk result (λ after. after ≡ place_after place (frame_bytes frames.now)) }
        ensures no_fault { let p = scripted_player self.old in OnOk result
            (frame_fault (setting_of self.old) p.player place (frame_bytes frames.now) ≡ None) }
        ensures fault { let p = scripted_player self.old in IfErr result (λ fault.
            IsPeerError (λ error. error ≡ OutOfMemory) p.player fault
            ⊎ (frame_fault (setting_of self.old) p.player place (frame_bytes frames.now)
            ≡ Some fault)) }
    {
        self.in_range();
        let mut place = place;
        for number in 0..frames.len() {
            self.take_own(place, &frames[number])?;
            place = place.saturating_add(1);
        }
        Ok(place)
    }

    /// Polls until a poll finds no frame, or [`MAX_POLLS`] times.
    fn poll_all(&mut self) -> Result<(), SessionError>
        ensures moved { OnOk result (HasMoved [] 0 self.old self.new) }
        ensures kept { OnOk result (self.new.kept ≡ None) }
        ensures fault { IfErr result
            (IsPeerError (λ error. error ≡ OutOfMemory) (scripted_player self.old).player) }
    {
        self.in_range();
        let player = self.core.player();
        for _ in 0..MAX_POLLS {
            match self.poll() {
                Ok(polled) if polled.taken == 0 => return Ok(()),
                Ok(_) => {}
                Err(_) => return Err(SessionError::Peer(player, CrewError::OutOfMemory)),
            }
        }
        Ok(())
    }

    /// Goes on by some ticks.
    fn go_on(&mut self, ticks: u32) -> Result<(), SessionError>
        ensures moved { OnOk result (HasMoved [] ticks self.old self.new) }
        ensures kept { self.new.kept ≡ self.old.kept }
        ensures no_fault { let p = scripted_player self.old in
            OnOk result (tick_fault p.player p.reached ticks ≡ None) }
        ensures fault { let p = scripted_player self.old in
            IfErr result (λ fault. tick_fault p.player p.reached ticks ≡ Some fault) }
    {
        let player = self.core.player();
        match self.core.advance(ticks) {
            Ok(_) => Ok(()),
            Err(_) => Err(SessionError::TickLimit(player)),
        }
    }

    /// Settles each tick up to the reached one.
    fn settle<P: Collider, C: Crew>(
        &mut self,
        collider: &P,
        alloc: Global,
        crew: &mut C,
    ) -> Result<(), SessionError>
        requires { P.can_collide collider.now }
        ensures moved { OnOk result (HasMoved [] 0 self.old self.new) }
        ensures kept { self.new.kept ≡ self.old.kept }
        ensures settled { OnOk result
            (settled_tick self.new.core.kept ≡ (scripted_player self.new).reached) }
        ensures fault { IfErr result (IsPeerError
            (λ error. (error ≡ OutOfMemory) ⊎ CanFail C.may_fail error)
            (scripted_player self.old).player) }
    {
        let player = self.core.player();
        match self.core.settle_by(collider, alloc, crew) {
            Ok(_) => Ok(()),
            Err(StepError::OutOfMemory) => {
                Err(SessionError::Peer(player, CrewError::OutOfMemory))
            }
            Err(StepError::Crew(error)) => Err(SessionError::Peer(player, error)),
        }
    }

    /// Plays a turn. `place` is the number of its first frame in the script; returns the number
    /// behind its last one.
    fn play_turn<P: Collider, C: Crew>(
        &mut self,
        collider: &P,
        alloc: Global,
        place: usize,
        turn: &Turn,
        crew: &mut C,
    ) -> Result<usize, SessionError>
        requires { P.can_collide collider.now }
        ensures moved { OnOk result
            (HasMoved (frames_in turn.now) turn.now.ticks self.old self.new) }
        ensures kept { OnOk result (self.new.kept ≡ None) }
        ensures settled { OnOk result
            (settled_tick self.new.core.kept ≡ (scripted_player self.new).reached) }
        ensures place { IfOk result (λ after. after ≡ place_after place (frames_in turn.now)) }
        ensures no_fault { let p = scripted_player self.old in OnOk result
            (turn_fault (setting_of self.old) p.player place p.reached turn.now ≡ None) }
        ensures fault { let p = scripted_player self.old in IfErr result (λ fault.
            IsPeerError (λ error. (error ≡ OutOfMemory) ⊎ CanFail C.may_fail error) p.player fault
            ⊎ (turn_fault (setting_of self.old) p.player place p.reached turn.now ≡ Some fault)) }
    {
        self.in_range();
        let place = self.take_all_own(place, &turn.frames)?;
        self.poll_all()?;
        self.go_on(turn.ticks)?;
        self.settle(collider, alloc, crew)?;
        Ok(place)
    }

    /// Plays a script, with this collider and this crew.
    fn play_by<P: Collider, C: Crew, G: Gate>(
        self,
        collider: &P,
        alloc: Global,
        script: &[Turn],
        crew: &mut C,
        gate: &G,
    ) -> Result<Peer, SessionError>
        requires { P.can_collide collider.now }
        ensures played { IfOk result (HasPlayed script.now self) }
        ensures fault { let p = scripted_player self in IfErr result (λ fault.
            IsPeerError (λ error. ((error ≡ OutOfMemory) ⊎ CanFail C.may_fail error)
            ⊎ ((error ≡ GateShut) × (G.ALWAYS ≡ false))) p.player fault
            ⊎ (script_fault (setting_of self) p.player 0 p.reached script.now ≡ Some fault)) }
    {
        self.in_range();
        let mut peer = self;
        let player = peer.core.player();
        let mut place = 0;
        for number in 0..script.len() {
            if !gate.pass(usize::from(player), number) {
                return Err(SessionError::Peer(player, CrewError::GateShut));
            }
            place = peer.play_turn(collider, alloc, place, &script[number], crew)?;
        }
        Ok(peer)
    }

    /// Plays a script. In each turn the peer passes the gate, with its player as the worker's
    /// number, takes its own frames and hands each to all others, polls until a poll finds no
    /// frame, or [`MAX_POLLS`] times, goes on by some ticks, and settles. With a crew, so many
    /// threads settle the ticks: they are started first, pass an open gate, and are closed at the
    /// end.
    ///
    /// Returns the first fault that it meets, of the script or of the peer; then the peer is gone,
    /// with all that it has taken. It waits for its gate and its crew, and for no other peer.
    /// Frames for which a ring had no room go on when more are handed in; what is left at the end,
    /// the peer's links hold.
    pub fn play<R, G>(
        self,
        rt: R,
        alloc: Global,
        script: &[Turn],
        crew: Option<usize>,
        gate: &G,
    ) -> Result<Peer, SessionError>
    where
        R: Threads + Wait + Copy + Send + 'static,
        G: Gate,
        requires { IfSome crew (λ workers. (0 < workers) × (workers ≤ MAX_WORKERS)) }
        ensures played { IfOk result (HasPlayed script.now self) }
        ensures fault { let p = scripted_player self in IfErr result (λ fault.
            IsPeerError (IsCrewErrorOfPlay G.ALWAYS crew) p.player fault
            ⊎ (script_fault (setting_of self) p.player 0 p.reached script.now ≡ Some fault)) }
    {
        self.play_by_gate(rt, alloc, script, crew, gate, OpenGate)
    }

    /// As [`Peer::play`], with a gate of the crew's own, which lets each worker through: by it a
    /// test sees whether the crew settles the ticks.
    pub fn play_by_gate<R, G, W>(
        self,
        rt: R,
        alloc: Global,
        script: &[Turn],
        crew: Option<usize>,
        gate: &G,
        crew_gate: W,
    ) -> Result<Peer, SessionError>
    where
        R: Threads + Wait + Copy + Send + 'static,
        G: Gate,
        W: Gate + Send + Sync + Drop + 'static,
        requires crew { IfSome crew (λ workers. (0 < workers) × (workers ≤ MAX_WORKERS)) }
        requires open { W.ALWAYS ≡ true }
        ensures played { IfOk result (HasPlayed script.now self) }
        ensures fault { let p = scripted_player self in IfErr result (λ fault.
            IsPeerError (IsCrewErrorOfPlay G.ALWAYS crew) p.player fault
            ⊎ (script_fault (setting_of self) p.player 0 p.reached script.now ≡ Some fault)) }
    {
        let Some(workers) = crew else {
            return self.play_by(&OneThread, alloc, script, &mut OneThread, gate);
        };
        let player = self.core.player();
        let Workers { mut crew, collider } = match Workers::start(rt, alloc, workers, crew_gate) {
            Ok(workers) => workers,
            Err(error) => return Err(SessionError::Peer(player, error)),
        };
        let played = self.play_by(&collider, alloc, script, &mut crew, gate);
        crew.close();
        played
    }
}
