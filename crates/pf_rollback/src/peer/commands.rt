//! How a peer comes to hold commands: it issues its own, takes those of frames, and merges maps.

ghost use Rattle.std.specs.Prelude.{◌≡◌, ◌≤◌, Ok, Err, IsOk, IsSome, IfOk, OnOk, OnErr, Some, None, if◌then◌else◌};
ghost use Rattle.std.specs.FinMap.{get};
ghost use Rattle.pf_commands.specs.Check.{check};
ghost use Rattle.pf_commands.specs.Frame.{decode};
ghost use Rattle.pf_commands.specs.News.{put_outcome, is_change};
ghost use Rattle.pf_commands.specs.declared.payload.Command.{Command};
ghost use Rattle.pf_rollback.specs.Peer.{put, take, next_number, with_command, IsNextNumber, issue, merge_map, merge_sealed};
ghost use Rattle.pf_rollback.specs.Core.{KeepsBefore, news_tick};
ghost use Rattle.pf_rollback.specs.Calls.{Issues, Merges, MergesSealed, Puts, TakesFrame};

use crate::error::{PeerError, Refusal};
use crate::peer::PeerCore;
use crate::sealed::Sealed;
use pf_commands::{
    Command, CommandMap, FRAME_LEN, MAX_TICK, Name, Payload, Put, check, decode, encode,
};
use std::alloc::AllocError;

/// The tick of a command that was put, where it is news: new, or greater than the held one.
fn tick_of_news(put: Put, tick: u32) -> Option<u32>
    ensures { result ≡ (if is_change put then Some tick else None) }
{
    if put.is_change() { Some(tick) } else { None }
}

impl PeerCore {
    /// Puts a command that the scene allows, and that is not before the horizon, into the map, and
    /// drops the worlds that it changes. Out of memory leaves the peer as it was.
    fn hold(&mut self, command: &Command) -> Result<Put, AllocError>
        requires allowed { let c = command.now in check self.old.scene c.name c.payload ≡ Ok tt }
        requires horizon { self.old.peer.horizon ≤ command.now.name.tick }
        ensures outcome { let c = command.now in
            IfOk result (λ put. put ≡ put_outcome (get self.old.peer.commands c.name) c.payload) }
        ensures ok { OnOk result (self.new.peer ≡ with_command self.old.peer command.now) }
        ensures kept { OnOk result (KeepsBefore (news_tick self.old.peer.commands command.now)
            self.old.kept self.new.kept) }
        ensures rest { self.new
            ≡ record self.old { peer = self.new.peer; kept = self.new.kept } }
        ensures err { OnErr result (self.new ≡ self.old) }
        ensures no_memory { IsSome (get self.old.peer.commands command.now.name) → IsOk result }
    {
        let put = self.commands.put(command)?;
        let least = tick_of_news(put, command.name.tick());
        self.snapshots.drop_after_news(least, &mut self.work);
        Ok(put)
    }

    /// Takes a command of any player, for any tick from the horizon on. Returns an error where the
    /// scene does not allow it; where it is for an earlier tick; and out of memory, which is
    /// possible only where its name is new. An error leaves the peer as it was. A command that is
    /// new or greater drops each kept world after its tick.
    #[tactic(auto, unfolding(crate::specs::Peer::put))]
    pub fn put(&mut self, command: &Command) -> Result<Put, PeerError>
        ensures { Puts command.now self.old self.new result }
    {
        if let Err(fault) = check(&self.scene, command) {
            return Err(PeerError::Refused(Refusal::Check(fault)));
        }
        let horizon = self.snapshots.horizon();
        if command.name.tick() < horizon {
            return Err(PeerError::Refused(Refusal::TooOld(horizon)));
        }
        Ok(self.hold(command)?)
    }

    /// Takes the command that a frame of bytes encodes, as [`PeerCore::put`] does. Returns an error
    /// where the bytes encode none.
    pub fn take(&mut self, frame: &[u8]) -> Result<Put, PeerError>
        ensures { TakesFrame (decode frame.now) self.old self.new result }
    {
        match decode(frame) {
            Ok(command) => self.put(&command),
            Err(fault) => Err(PeerError::Refused(Refusal::Frame(fault))),
        }
    }

    /// Merges the commands of a map, and returns how many were new or greater. Returns an error
    /// where the scene does not allow one of them (the error of the first one in the order of
    /// names); where one is for a tick before the horizon; and out of memory, which is possible
    /// only where one is new or greater. An error leaves the peer as it was. Where there are new or
    /// greater ones, each kept world after the least tick of them is dropped.
    #[tactic(auto, unfolding(crate::specs::Peer::merge_map))]
    pub fn merge(&mut self, other: &CommandMap) -> Result<usize, PeerError>
        ensures { Merges other.now self.old self.new result }
    {
        if let Err(fault) = other.check_all(&self.scene) {
            return Err(PeerError::Refused(Refusal::Check(fault)));
        }
        let horizon = self.snapshots.horizon();
        if !other.is_from(horizon) {
            return Err(PeerError::Refused(Refusal::TooOld(horizon)));
        }
        let merged = self.commands.merge(other)?;
        self.snapshots.drop_after_news(merged.least, &mut self.work);
        Ok(merged.count)
    }

    /// Merges the commands that another peer holds. Returns an error first where the horizons
    /// differ, then where the worlds there differ, and then as [`PeerCore::merge`] does. An error
    /// leaves the peer as it was.
    #[tactic(auto, unfolding(crate::specs::Peer::merge_sealed))]
    pub fn merge_sealed(&mut self, other: &Sealed<'_>) -> Result<usize, PeerError>
        ensures { let o = other.now in
            MergesSealed o.horizon o.base.now o.commands.now self.old self.new result }
    {
        let horizon = self.snapshots.horizon();
        if horizon != other.horizon {
            let differ = Refusal::HorizonsDiffer(horizon, other.horizon);
            return Err(PeerError::Refused(differ));
        }
        if self.snapshots.base() != other.base {
            return Err(PeerError::Refused(Refusal::BasesDiffer));
        }
        self.merge(other.commands)
    }

    /// The number of the next command at the reached tick, if there is one left.
    #[tactic(auto, using(crate::proofs::Numbers::first_number, crate::proofs::Numbers::number_after))]
    fn next_number(&self) -> Option<u16>
        ensures { let p = self.now.peer in
            IsNextNumber result (next_number p.commands p.reached p.player) }
    {
        match self.commands.greatest(self.reached, self.player) {
            None => Some(0),
            Some(greatest) => greatest.checked_add(1),
        }
    }

    /// Issues a command of the peer's own player at the reached tick, under the next number, and
    /// returns its frame. Returns an error at the last tick, where no number is left, where the
    /// scene does not allow the command, and out of memory; each leaves the peer as it was.
    #[tactic(auto, unfolding(crate::specs::Peer::issue, crate::specs::Peer::put))]
    pub fn issue(&mut self, payload: Payload) -> Result<[u8; FRAME_LEN], PeerError>
        ensures { Issues payload self.old self.new result }
    {
        if self.reached >= MAX_TICK {
            return Err(PeerError::Refused(Refusal::TickLimit));
        }
        let Some(number) = self.next_number() else {
            return Err(PeerError::Refused(Refusal::NumbersSpent));
        };
        let command = Command {
            name: Name::new(self.reached, self.player, number),
            payload,
        };
        if let Err(fault) = check(&self.scene, &command) {
            return Err(PeerError::Refused(Refusal::Check(fault)));
        }
        self.hold(&command)?;
        Ok(encode(&command))
    }
}
