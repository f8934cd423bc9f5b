//! Two peers that play in threads, without what a session does afterwards.

use crate::gates::{SessionGate, gate_of};
use crate::script::Scripts;
use crate::threads::Handle;
use anyhow::{Result, bail};
use pf_scripts::{Peer, SessionError, Turn};
use pf_sessions::linked_peers;
use pf_shapes::Scene;
use std::alloc::Global;
use std::thread;
use tests_gates::TrialGate;

/// How many commands a peer holds that has played, and how many ticks it has simulated.
fn counts_of(played: Result<Peer, SessionError>) -> Result<(usize, u64)> {
    match played {
        Ok(peer) => Ok((peer.core().commands().len(), peer.core().meter().ticks)),
        Err(fault) => bail!("a fault: {fault:?}"),
    }
}

/// Lets two linked peers play in threads.
fn play_by<R: Handle>(
    rt: &R,
    alloc: Global,
    first: Peer,
    second: Peer,
    scripts: (&[Turn], &[Turn]),
    gate: &TrialGate<false>,
) -> (Result<Peer, SessionError>, Result<Peer, SessionError>) {
    let (one, two) = scripts;
    thread::join(
        rt,
        move || first.play(*rt, alloc, one, None, gate),
        move || second.play(*rt, alloc, two, None, gate),
    )
}

/// The two peers of a scene, linked with each other.
fn two_peers(alloc: Global, scene: &Scene) -> Result<(Peer, Peer)> {
    let mut peers = linked_peers(alloc, scene, 2)?;
    match (peers.pop(), peers.pop()) {
        (Some(second), Some(first)) => Ok((first, second)),
        _ => bail!("no peers"),
    }
}

/// Lets peers 0 and 1 play, and prints for each how many commands it holds and how many ticks it
/// has simulated.
pub fn play_two<R: Handle>(
    rt: &R,
    alloc: Global,
    scene: &Scene,
    scripts: &Scripts,
    words: &[&str],
) -> Result<String> {
    let [one, two, ..] = scripts.as_slice() else {
        bail!("two scripts are needed");
    };
    let SessionGate::Ruled(noted) = gate_of(alloc, words, 2)? else {
        bail!("a gate with a rule is needed");
    };
    let (first, second) = two_peers(alloc, scene)?;
    let played = play_by(rt, alloc, first, second, (one, two), &noted.gate);
    let (commands, ticks) = counts_of(played.0)?;
    let (others_commands, others_ticks) = counts_of(played.1)?;
    Ok(format!(in alloc; "two {commands}/{ticks} {others_commands}/{others_ticks}\n")?)
}
