//! The texts of answers.

use crate::bodies::push_bodies;
use anyhow::{Result, bail};
use pf_cache::Contact;
use pf_rollback::{PeerCore, PeerError, Refusal};
use pf_shapes::Scene;
use pf_step::World;
use std::alloc::Global;

/// The name of a refusal, with the ticks that it tells.
fn refusal_name(alloc: Global, refusal: Refusal) -> Result<String> {
    Ok(match refusal {
        Refusal::Frame(fault) => format!(in alloc; "{fault:?}")?,
        Refusal::Check(fault) => format!(in alloc; "{fault:?}")?,
        Refusal::NotReached(reached) => format!(in alloc; "NotReached {reached}")?,
        Refusal::TooOld(horizon) => format!(in alloc; "TooOld {horizon}")?,
        Refusal::HorizonsDiffer(own, other) => format!(in alloc; "HorizonsDiffer {own} {other}")?,
        other => format!(in alloc; "{other:?}")?,
    })
}

/// The text of a fault of a peer, unless memory ran out.
pub fn refused(alloc: Global, fault: PeerError) -> Result<String> {
    match fault {
        PeerError::Refused(refusal) => {
            let name = refusal_name(alloc, refusal)?;
            Ok(format!(in alloc; "refused {name}")?)
        }
        PeerError::OutOfMemory => bail!("out of memory"),
    }
}

/// The line of a peer: its player, its scene's bodies, its commands, its ticks and its counts.
pub fn state_text(alloc: Global, number: usize, peer: &PeerCore) -> Result<String> {
    let (player, bodies, commands) = (peer.player(), peer.scene().len(), peer.commands().len());
    let (reached, settled) = (peer.reached(), peer.settled());
    let meter = peer.meter();
    let (ticks, collides) = (meter.ticks, meter.collides);
    Ok(format!(in alloc;
        "state {number} {player} {bodies} {commands} {reached} {settled} {ticks} {collides}"
    )?)
}

/// The sums of what contacts have accumulated.
fn sums(contacts: &[Contact]) -> (i64, i64) {
    let mut normal = 0i64;
    let mut tangent = 0i64;
    for contact in contacts {
        normal = normal.saturating_add(contact.impulses.normal.raw());
        tangent = tangent.saturating_add(contact.impulses.tangent.raw());
    }
    (normal, tangent)
}

/// The lines of a world for which so many ticks were simulated: its bodies that move, and how many
/// contacts it has, with the sums of their impulses.
pub fn world_text(alloc: Global, scene: &Scene, world: &World, ticks: u64) -> Result<String> {
    let mut text = format!(in alloc; "world {ticks}\n")?;
    push_bodies(&mut text, scene.fixtures(), world.bodies())?;
    let contacts = world.contacts().as_slice();
    let (count, (normal, tangent)) = (contacts.len(), sums(contacts));
    let line = format!(in alloc; "contacts {count} {normal} {tangent}")?;
    text.push_str(&line)?;
    Ok(text)
}
