//! The calls on peers.

ghost use Rattle.std.specs.Prelude.{ℕ, ◌≡◌, ◌<◌, ◌≤◌, Err, OnOk, Some};
ghost use Rattle.pf_rollback.specs.Core.{HasSettled, count_after, missing_count};
ghost use Rattle.pf_rollback.specs.Settling.{IsSettle};
ghost use Rattle.pf_step.specs.declared.crew.CrewError.{CrewError};
ghost use Rattle.pf_step.specs.declared.crew.StepError.TheVariants.{Crew, OutOfMemory};
ghost use Rattle.runs_peers.specs.Failure.{failure_at};

use crate::crew::BackwardCrew;
use crate::print::{refused, world_text};
use anyhow::{Context, Result, bail};
use pf_commands::{Payload, Put};
use pf_rollback::{MAX_RING, PeerCore};
use pf_shapes::{PLAYERS, Scene};
use pf_step::{CrewError, StepError, Work};
use std::alloc::{AllocError, Global};
use std::thread::Threads;

/// Adds the peer of a player.
fn add(
    alloc: Global,
    scene: &Scene,
    peers: &mut Vec<PeerCore>,
    player: u8,
    ring: usize,
) -> Result<(), AllocError>
    requires player { player < PLAYERS }
    requires ring { (0 < ring) × (ring ≤ MAX_RING) }
{
    let peer = PeerCore::new(alloc, scene.try_clone()?, player, ring)?;
    peers.push(peer)?;
    Ok(())
}

/// Makes the next peer, which has this number.
pub fn new(
    alloc: Global,
    scene: &Scene,
    peers: &mut Vec<PeerCore>,
    number: usize,
    player: u8,
    ring: usize,
) -> Result<String> {
    if number != peers.len() || player >= PLAYERS || ring == 0 || ring > MAX_RING {
        bail!("no such peer");
    }
    add(alloc, scene, peers, player, ring)?;
    Ok(format!(in alloc; "new {player} {ring}")?)
}

pub fn advance(alloc: Global, peer: &mut PeerCore, ticks: u32) -> Result<String> {
    match peer.advance(ticks) {
        Ok(reached) => Ok(format!(in alloc; "advance {reached}")?),
        Err(fault) => refused(alloc, fault),
    }
}

pub fn issue(alloc: Global, peer: &mut PeerCore, payload: Payload) -> Result<String> {
    match peer.issue(payload) {
        Ok(frame) => {
            let digits = hex::encode(alloc, frame.as_slice())?;
            Ok(format!(in alloc; "issue {digits}")?)
        }
        Err(fault) => refused(alloc, fault),
    }
}

/// The name of how a command was put.
fn put_name(put: Put) -> &'static str {
    match put {
        Put::New => "new",
        Put::Same => "same",
        Put::Greater => "greater",
        Put::Lesser => "lesser",
    }
}

pub fn take(alloc: Global, peer: &mut PeerCore, frame: &[u8]) -> Result<String> {
    match peer.take(frame) {
        Ok(put) => {
            let name = put_name(put);
            Ok(format!(in alloc; "take {name}")?)
        }
        Err(fault) => refused(alloc, fault),
    }
}

/// Merges the commands of one peer into another, or into itself.
pub fn merge(alloc: Global, peers: &mut [PeerCore], number: usize, other: usize) -> Result<String> {
    let commands = peers
        .get(other)
        .context("no other peer")?
        .commands()
        .try_clone()?;
    let peer = peers.get_mut(number).context("no such peer")?;
    match peer.merge(&commands) {
        Ok(count) => Ok(format!(in alloc; "merge {count}")?),
        Err(fault) => refused(alloc, fault),
    }
}

/// Merges what another peer holds, with its horizon and its world there.
fn merge_other(alloc: Global, peer: &mut PeerCore, other: &PeerCore) -> Result<String> {
    match peer.merge_sealed(&other.sealed()) {
        Ok(count) => Ok(format!(in alloc; "merge {count}")?),
        Err(fault) => refused(alloc, fault),
    }
}

/// The same of two of these peers.
pub fn merge_sealed(
    alloc: Global,
    peers: &mut [PeerCore],
    number: usize,
    other: usize,
) -> Result<String> {
    let later = number.max(other);
    if number == other || later >= peers.len() {
        bail!("no two peers");
    }
    let (low, high) = peers.split_at_mut(later);
    if number < other {
        merge_other(alloc, &mut low[number], &high[0])
    } else {
        merge_other(alloc, &mut high[0], &low[other])
    }
}

/// Seals a tick.
pub fn seal(alloc: Global, peer: &mut PeerCore, tick: u32) -> Result<String> {
    match peer.seal(alloc, tick) {
        Ok(()) => Ok(format!(in alloc; "seal {tick}")?),
        Err(fault) => refused(alloc, fault),
    }
}

/// Settles with a crew that counts its calls: one for each tick. An error of the crew is that of
/// the call that it was told to fail in. Where memory is out, each tick that was settled has its
/// call.
fn settle_counted<R: Threads + Sync>(
    rt: &R,
    alloc: Global,
    peer: &mut PeerCore,
    crew: &mut BackwardCrew,
) -> Result<u32, StepError>
    ensures settle { IsSettle peer.old peer.new result }
    ensures counted { OnOk result
        (crew.new.calls ≡ count_after crew.old.calls (missing_count peer.old)) }
    ensures failed { (error : CrewError) → result ≡ Err (Crew error)
        → failure_at crew.old.failure crew.new.calls ≡ Some error }
    ensures out_of_memory { result ≡ Err OutOfMemory
        → (more : ℕ) × HasSettled more peer.old peer.new
        × (crew.new.calls ≡ count_after crew.old.calls more) }
{
    peer.settle_with(rt, alloc, crew)
}

/// Settles with a crew. The line ends with how often the crew was called, and with what it was
/// last given: how many islands, of how many bodies and contacts, and the least body.
pub fn settle_with<R: Threads + Sync>(
    rt: &R,
    alloc: Global,
    peer: &mut PeerCore,
    failure: Option<(u64, CrewError)>,
) -> Result<String> {
    let mut crew = BackwardCrew::new(failure);
    let outcome = settle_counted(rt, alloc, peer, &mut crew);
    let (calls, seen) = (crew.calls, crew.seen);
    match outcome {
        Ok(reached) => {
            let (islands, bodies, contacts) = (seen.islands, seen.bodies, seen.contacts);
            let least = seen.least;
            Ok(format!(in alloc;
                "crew {reached} calls {calls} {islands} {bodies} {contacts} {least:?}"
            )?)
        }
        Err(StepError::Crew(error)) => Ok(format!(in alloc; "crew {error:?} calls {calls}")?),
        Err(StepError::OutOfMemory) => bail!("out of memory"),
    }
}

/// Shows the world at a tick.
pub fn world(alloc: Global, peer: &PeerCore, tick: u32) -> Result<String> {
    let mut work = Work::new(alloc);
    match peer.world_at(alloc, tick, &mut work) {
        Ok(world) => world_text(alloc, peer.scene(), &world, work.meter().ticks),
        Err(fault) => refused(alloc, fault),
    }
}

/// Shows the latest settled world, for which nothing is simulated.
pub fn latest(alloc: Global, peer: &PeerCore) -> Result<String> {
    world_text(alloc, peer.scene(), peer.settled_world(), 0)
}

/// Whether two peers show the same world at a tick.
fn is_same_at(alloc: Global, peer: &PeerCore, other: &PeerCore, tick: u32) -> Result<bool> {
    let mut work = Work::new(alloc);
    let ours = peer.world_at(alloc, tick, &mut work)?;
    let theirs = other.world_at(alloc, tick, &mut work)?;
    Ok(ours == theirs)
}

/// At how many ticks from a first to a last one two peers show the same world.
pub fn same(
    alloc: Global,
    peer: &PeerCore,
    other: &PeerCore,
    first: u32,
    last: u32,
) -> Result<String> {
    let mut count = 0u32;
    for tick in first..=last {
        if is_same_at(alloc, peer, other, tick)? {
            count = count.saturating_add(1);
        }
    }
    Ok(format!(in alloc; "same {count}")?)
}

/// Settles on one thread.
pub fn settle(alloc: Global, peer: &mut PeerCore) -> Result<String> {
    let reached = peer.settle_alone(alloc)?;
    Ok(format!(in alloc; "settle {reached}")?)
}
