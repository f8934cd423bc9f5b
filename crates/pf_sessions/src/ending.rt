//! The end of a session: each peer takes what is left on its links, settles, and shows its world.

ghost use Rattle.std.specs.Prelude.{◌≡◌, All, IfOk, length, map};
ghost use Rattle.std.specs.List.{AllZip};
ghost use Rattle.std.specs.Thread.{IsSync};
ghost use Rattle.pf_links.specs.Link.{AreEnds};
ghost use Rattle.pf_rollback.specs.Peer.{world_of};
ghost use Rattle.pf_sessions.specs.Ending.{AreEnded, AreFinished, HasFinished, ShowsLast, inputs_in, receiver_of};
ghost use Rattle.pf_sessions.specs.Links.{AreLinked, IsDelivered, inputs_of, outputs_of, table_rows};
ghost use Rattle.pf_sessions.specs.Rest.{KeepsHanded};

use crate::rest::take_rest;
use crate::table::transpose;
use pf_links::{LinkIn, LinkOut};
use pf_rollback::{PeerCore, PeerError};
use pf_scripts::Peer;
use pf_step::{Work, World};
use std::alloc::{AllocError, Global};
use std::thread::{Threads, join};

/// A peer's core, and its ends of the links to it. A peer that has played keeps no frame.
#[derive(Drop)]
pub struct Receiver {
    core: PeerCore,
    inputs: Vec<LinkIn>,
}

/// Splits peers into receivers and, for each, the ends of its links to the others.
fn take_apart(
    alloc: Global,
    peers: Vec<Peer>,
) -> Result<(Vec<Receiver>, Vec<Vec<LinkOut>>), AllocError>
    ensures receivers { IfOk result (λ parts. parts.0.items ≡ map receiver_of peers.items) }
    ensures outputs { IfOk result (λ parts. table_rows parts.1.items ≡ outputs_of peers.items) }
{
    let mut peers = peers;
    let mut receivers = Vec::with_capacity(alloc, peers.len())?;
    let mut outputs = Vec::with_capacity(alloc, peers.len())?;
    for _ in 0..peers.len() {
        let (core, row, inputs, _) = peers.remove(0).into_parts();
        receivers.push(Receiver { core, inputs })?;
        outputs.push(row)?;
    }
    Ok((receivers, outputs))
}

/// Lets a receiver take what is left on its links, and settle its ticks.
fn finish(
    alloc: Global,
    receiver: Receiver,
    senders: Vec<LinkOut>,
) -> Result<(Receiver, Vec<LinkOut>), AllocError>
    requires { AllZip AreEnds senders.items receiver.inputs.items }
    ensures finished { IfOk result (λ ends. HasFinished receiver senders.items ends.0) }
    ensures links { IfOk result (λ ends. AllZip IsDelivered ends.1.items ends.0.inputs.items) }
    ensures handed { IfOk result (λ ends. AllZip KeepsHanded senders.items ends.1.items) }
{
    let (mut receiver, mut senders) = (receiver, senders);
    take_rest(&mut receiver.core, &mut senders, &mut receiver.inputs)?;
    receiver.core.settle_alone(alloc)?;
    Ok((receiver, senders))
}

/// Lets each receiver finish with its row of the senders' ends, each in a thread of its own where
/// one can be started.
fn finish_all<R: Threads + Sync>(
    rt: &R,
    alloc: Global,
    receivers: Vec<Receiver>,
    senders: Vec<Vec<LinkOut>>,
) -> Result<(Vec<Receiver>, Vec<Vec<LinkOut>>), AllocError>
    requires { AllZip (AllZip AreEnds) (table_rows senders.items) (inputs_in receivers.items) }
    ensures { IfOk result (λ ends.
        AreFinished receivers.items (table_rows senders.items)
        ends.0.items (table_rows ends.1.items)) }
{
    let (mut receivers, mut senders) = (receivers, senders);
    if receivers.is_empty() {
        return Ok((receivers, senders));
    }
    let receiver = receivers.remove(0);
    let row = senders.remove(0);
    let (finished, others) = join(
        rt,
        move || -> Result<(Receiver, Vec<LinkOut>), AllocError>
            requires { AllZip AreEnds row.items receiver.inputs.items }
            ensures finished { IfOk result (λ ends. HasFinished receiver row.items ends.0) }
            ensures links { IfOk result (λ ends.
                AllZip IsDelivered ends.1.items ends.0.inputs.items) }
            ensures handed { IfOk result (λ ends. AllZip KeepsHanded row.items ends.1.items) }
        { finish(alloc, receiver, row) },
        move || -> Result<(Vec<Receiver>, Vec<Vec<LinkOut>>), AllocError>
            requires sync { IsSync R.row }
            requires ends { AllZip (AllZip AreEnds) (table_rows senders.items)
                (inputs_in receivers.items) }
            ensures { IfOk result (λ ends. AreFinished receivers.items
                (table_rows senders.items) ends.0.items (table_rows ends.1.items)) }
        { finish_all(rt, alloc, receivers, senders) },
    );
    let (receiver, row) = finished?;
    let (mut receivers, mut senders) = others?;
    receivers.insert(0, receiver)?;
    senders.insert(0, row)?;
    Ok((receivers, senders))
}

/// The world of a peer at the tick that it has reached.
#[tactic(auto, using(crate::proofs::Worlds::last_shown, crate::proofs::Worlds::last_not_refused))]
fn last_world(alloc: Global, core: &PeerCore) -> Result<World, AllocError>
    ensures { let c = core.now in
        IfOk result (λ world. world ≡ world_of c.scene c.peer c.peer.reached) }
{
    match core.world_at(alloc, core.reached(), &mut Work::new(alloc)) {
        Ok(world) => Ok(world),
        Err(PeerError::OutOfMemory) => Err(AllocError),
        Err(PeerError::Refused(_)) => unreachable!(),
    }
}

/// The peers with their ends of links again, each with its world.
fn show_all(
    alloc: Global,
    receivers: Vec<Receiver>,
    outputs: Vec<Vec<LinkOut>>,
) -> Result<Vec<(Peer, World)>, AllocError>
    requires { length outputs.items ≡ length receivers.items }
    ensures receivers { IfOk result (λ ended.
        map (λ e. receiver_of e.0) ended.items ≡ receivers.items) }
    ensures outputs { IfOk result (λ ended.
        outputs_of (map (λ e. e.0) ended.items) ≡ table_rows outputs.items) }
    ensures shown { IfOk result (λ ended. All ShowsLast ended.items) }
{
    let mut receivers = receivers;
    let mut outputs = outputs;
    let mut ended = Vec::with_capacity(alloc, receivers.len())?;
    for _ in 0..receivers.len() {
        let Receiver { core, inputs } = receivers.remove(0);
        let world = last_world(alloc, &core)?;
        ended.push((Peer::new(core, outputs.remove(0), inputs), world))?;
    }
    Ok(ended)
}

/// Ends a session of peers that have played: what is left on each link is taken, first from its
/// ring and then from its backlog; each peer settles once more, side by side with the others, and
/// shows its world.
pub fn end_session<R: Threads + Sync>(
    rt: &R,
    alloc: Global,
    peers: Vec<Peer>,
) -> Result<Vec<(Peer, World)>, AllocError>
    requires { AreLinked AreEnds (outputs_of peers.items) (inputs_of peers.items) }
    ensures { IfOk result (λ ended. AreEnded peers.items ended.items) }
{
    let (receivers, outputs) = take_apart(alloc, peers)?;
    let senders = transpose(alloc, outputs)?;
    let (receivers, senders) = finish_all(rt, alloc, receivers, senders)?;
    let outputs = transpose(alloc, senders)?;
    show_all(alloc, receivers, outputs)
}
