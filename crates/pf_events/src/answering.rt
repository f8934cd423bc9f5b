//! How one peer answers an event, and a merge with another.

ghost use Rattle.std.specs.Prelude.{◌≡◌, ◌≢◌, ◌<◌, ℕ, Ok, Some, IfOk, OnErr, OnOk, IsErr, IsOk, IsSome, length, slice_get, slice_set};
ghost use Rattle.std.specs.FinMap.{get};
ghost use Rattle.pf_events.specs.Answers.{IsMergeReply, IsReplyOf};
ghost use Rattle.pf_events.specs.Crews.{UsesCrew};
ghost use Rattle.pf_events.specs.Session.{NeedsNoMemory, other_peer_of, peer_answer, event_peer, reply_and_peer, world_reply};
ghost use Rattle.pf_events.specs.declared.event.Event.TheVariants.{Settle};
ghost use Rattle.pf_events.specs.declared.event.Reply.TheVariants.{Advanced, Issued, Sealed, Settled, Took};
ghost use Rattle.pf_commands.specs.declared.payload.Command.{Command};
ghost use Rattle.pf_rollback.specs.Core.{PeerCore};
ghost use Rattle.pf_rollback.specs.Kept.{settled_tick};
ghost use Rattle.pf_rollback.specs.Peer.{IsEmptyBefore, advance, issue, seal, take, world_at};
ghost use Rattle.pf_rollback.specs.Settling.{CallsCrewByTick};

use crate::event::{Event, Reply};
use pf_commands::{Command, FrameFault, Payload};
use pf_manifold::Collider;
use pf_rollback::{PeerCore, PeerError, Refusal};
use pf_step::{Crew, StepError, Work};
use std::alloc::{AllocError, Global};

/// The reply to a call that failed: a refusal is a reply, and out of memory is none.
fn reply_to_error(error: PeerError) -> Result<Reply, AllocError>
    ensures { IsReplyOf error result }
{
    match error {
        PeerError::Refused(refusal) => Ok(Reply::Refused(refusal)),
        PeerError::OutOfMemory => Err(AllocError),
    }
}

/// The reply of a peer to Issue.
fn issue(core: &mut PeerCore, peer: u8, payload: Payload) -> Result<Reply, AllocError>
    ensures reply { let p = core.old.peer in IfOk result (λ reply. (reply, core.new.peer)
        ≡ reply_and_peer (λ frame. Issued peer frame) p (issue core.old.scene p payload)) }
    ensures scene { core.new.scene ≡ core.old.scene }
    ensures refused { IsErr (issue core.old.scene core.old.peer payload) → IsOk result }
    ensures err { OnErr result (core.new ≡ core.old) }
{
    match core.issue(payload) {
        Ok(frame) => Ok(Reply::Issued { peer, frame }),
        Err(error) => reply_to_error(error),
    }
}

/// The reply of a peer to Take, with a command or the reason why the frame encodes none.
fn take(
    core: &mut PeerCore,
    peer: u8,
    decoded: Result<Command, FrameFault>,
) -> Result<Reply, AllocError>
    ensures reply { let p = core.old.peer in IfOk result (λ reply. (reply, core.new.peer)
        ≡ reply_and_peer (λ put. Took peer put) p (take core.old.scene p decoded)) }
    ensures scene { core.new.scene ≡ core.old.scene }
    ensures refused { IsErr (take core.old.scene core.old.peer decoded) → IsOk result }
    ensures held { (c : Command) → decoded ≡ Ok c
        → IsSome (get core.old.peer.commands c.name) → IsOk result }
    ensures err { OnErr result (core.new ≡ core.old) }
{
    let command = match decoded {
        Ok(command) => command,
        Err(fault) => return Ok(Reply::Refused(Refusal::Frame(fault))),
    };
    match core.put(&command) {
        Ok(put) => Ok(Reply::Took { peer, put }),
        Err(error) => reply_to_error(error),
    }
}

/// The reply of a peer to Merge with another one.
fn merge(core: &mut PeerCore, peer: u8, other: &PeerCore) -> Result<Reply, AllocError>
    ensures { IsMergeReply peer other.now.peer core.old core.new result }
{
    match core.merge_sealed(&other.sealed()) {
        Ok(count) => Ok(Reply::Merged { peer, count }),
        Err(error) => reply_to_error(error),
    }
}

/// The reply to a merge of one peer of a list with another of it.
pub(crate) fn merge_among(cores: &mut [PeerCore], peer: u8, other: u8) -> Result<Reply, AllocError>
    requires peer { peer < length cores.old }
    requires other { other < length cores.old }
    requires two { other ≢ peer }
    ensures { (old others : PeerCore) → slice_get cores.old peer ≡ Some old
        → slice_get cores.old other ≡ Some others → (new : PeerCore)
        × (cores.new ≡ slice_set cores.old peer new)
        × IsMergeReply peer others.peer old new result }
{
    let to = usize::from(peer);
    let from = usize::from(other);
    let (low, high) = cores.split_at_mut(to.max(from));
    if to < from {
        merge(&mut low[to], peer, &high[0])
    } else {
        merge(&mut high[0], peer, &low[from])
    }
}

/// The reply of a peer to Advance. Takes no memory.
fn advance(core: &mut PeerCore, peer: u8, ticks: u32) -> Result<Reply, AllocError>
    ensures reply { let p = core.old.peer in IfOk result (λ reply. (reply, core.new.peer)
        ≡ reply_and_peer (λ reached. Advanced peer reached) p (advance p ticks)) }
    ensures scene { core.new.scene ≡ core.old.scene }
    ensures ok { IsOk result }
{
    match core.advance(ticks) {
        Ok(reached) => Ok(Reply::Advanced { peer, reached }),
        Err(error) => reply_to_error(error),
    }
}

/// The reply of a peer to Settle, by a collider and a crew. An `Err` may leave more ticks settled,
/// and no other change.
fn settle<P: Collider, C: Crew>(
    core: &mut PeerCore,
    collider: &P,
    alloc: Global,
    peer: u8,
    crew: &mut C,
) -> Result<Reply, StepError>
    requires { P.can_collide collider.now }
    ensures reply { IfOk result (λ reply. reply ≡ Settled peer core.old.peer.reached) }
    ensures settled { OnOk result (settled_tick core.new.kept ≡ core.old.peer.reached) }
    ensures peer { core.new.peer ≡ core.old.peer }
    ensures scene { core.new.scene ≡ core.old.scene }
    ensures no_memory { core.old.peer.reached ≡ core.old.peer.horizon → IsOk result }
    ensures crew { CallsCrewByTick C.is_called C.may_fail core.old core.new
        crew.old crew.new result }
{
    // Its clauses say that the settled tick is not before the horizon: at the horizon none is
    // missing.
    let _horizon = core.horizon();
    match core.settle_by(collider, alloc, crew) {
        Ok(reached) => Ok(Reply::Settled { peer, reached }),
        Err(error) => Err(error),
    }
}

/// The reply of a peer to Show.
fn show(core: &PeerCore, alloc: Global, peer: u8, tick: u32) -> Result<Reply, AllocError>
    ensures reply { IfOk result (λ reply.
        reply ≡ world_reply peer tick (world_at core.now.scene core.now.peer tick)) }
    ensures refused { IsErr (world_at core.now.scene core.now.peer tick) → IsOk result }
    ensures no_memory { IsEmptyBefore core.now.peer tick → IsOk result }
{
    match core.world_at(alloc, tick, &mut Work::new(alloc)) {
        Ok(world) => Ok(Reply::Shown { peer, tick, world }),
        Err(error) => reply_to_error(error),
    }
}

/// The reply of a peer to Seal.
fn seal(core: &mut PeerCore, alloc: Global, peer: u8, tick: u32) -> Result<Reply, AllocError>
    ensures reply { let p = core.old.peer in IfOk result (λ reply. (reply, core.new.peer)
        ≡ reply_and_peer (λ done. Sealed peer tick) p (seal core.old.scene p tick)) }
    ensures scene { core.new.scene ≡ core.old.scene }
    ensures refused { IsErr (seal core.old.scene core.old.peer tick) → IsOk result }
    ensures again { tick ≡ core.old.peer.horizon → IsOk result }
    ensures no_memory { IsEmptyBefore core.old.peer tick → IsOk result }
    ensures err { OnErr result (core.new.peer ≡ core.old.peer) }
{
    match core.seal(alloc, tick) {
        Ok(()) => Ok(Reply::Sealed { peer, tick }),
        Err(error) => reply_to_error(error),
    }
}

/// The reply of a peer to an event that names no other. Only a settle calls the crew. An `Err`
/// changes neither what the peer holds nor what it shows.
#[tactic(auto, unfolding(crate::specs::Session::peer_answer))]
pub(crate) fn answer_of_peer<P: Collider, C: Crew>(
    core: &mut PeerCore,
    collider: &P,
    alloc: Global,
    event: Event,
    crew: &mut C,
) -> Result<Reply, StepError>
    requires can { P.can_collide collider.now }
    requires one_peer { other_peer_of event ≡ event_peer event }
    ensures reply { let p = core.old.peer in IfOk result (λ reply.
        (reply, core.new.peer) ≡ peer_answer core.old.scene p p event) }
    ensures settled { (peer : ℕ) → event ≡ Settle peer
        → OnOk result (settled_tick core.new.kept ≡ core.old.peer.reached) }
    ensures scene { core.new.scene ≡ core.old.scene }
    ensures no_memory { let p = core.old.peer in
        NeedsNoMemory core.old.scene p p event → IsOk result }
    ensures err { OnErr result (core.new.peer ≡ core.old.peer) }
    ensures crew { UsesCrew C.is_called C.may_fail (λ used. used ≡ core.old) event
        crew.old result crew.new }
{
    match event {
        Event::Issue { peer, payload } => Ok(issue(core, peer, payload)?),
        Event::Take { peer, decoded } => Ok(take(core, peer, decoded)?),
        Event::Merge { peer, .. } => Ok(Reply::Merged { peer, count: 0 }),
        Event::Advance { peer, ticks } => Ok(advance(core, peer, ticks)?),
        Event::Settle { peer } => settle(core, collider, alloc, peer, crew),
        Event::Show { peer, tick } => Ok(show(core, alloc, peer, tick)?),
        Event::Seal { peer, tick } => Ok(seal(core, alloc, peer, tick)?),
    }
}
