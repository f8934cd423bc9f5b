//! Peers that play their scripts in threads of their own.

ghost use Rattle.std.specs.Prelude.{◌≡◌, ◌<◌, ◌≤◌, IfErr, IfOk, IfSome, length};
ghost use Rattle.pf_pool.specs.declared.pool.TheConstants.{MAX_WORKERS};
ghost use Rattle.pf_sessions.specs.Playing.{AllPlayed, IsPlayOutcome, IsPlayersError};
ghost use Rattle.pf_sessions.specs.Session.{turns_of};

use pf_scripts::{Peer, SessionError, Turn};
use pf_workers::Gate;
use std::alloc::Global;
use std::marker::PhantomData;
use std::snapshot::Snapshot;
use std::sync::Wait;
use std::thread;
use std::thread::{Promise, Scope, Threads};

/// What the thread of a peer promises of its result: the peer after its script, or its fault.
#[derive(Drop)]
struct PlayPromise<G> {
    script: Snapshot<Vec<Turn>>,
    peer: Snapshot<Peer>,
    crew: Option<usize>,
    gate: PhantomData<G>,
}

impl<G: Gate> Promise<Result<Peer, SessionError>> for PlayPromise<G> {
    ghost kept_by = { λ p r.
        IsPlayOutcome G.ALWAYS p.crew p.script.value.items p.peer.value r };
}

/// [`Peer::play`], with its outcome by cases, as a thread promises it: a call for the proof alone.
fn play_script<R, G>(
    rt: &R,
    alloc: Global,
    peer: Peer,
    script: &[Turn],
    crew: Option<usize>,
    gate: &G,
) -> Result<Peer, SessionError>
where
    R: Threads + Wait + Copy + Send + Sync + 'static,
    G: Gate + Sync,
    requires { IfSome crew (λ workers. (0 < workers) × (workers ≤ MAX_WORKERS)) }
    ensures outcome { IsPlayOutcome G.ALWAYS crew script.now peer result }
{
    peer.play(*rt, alloc, script, crew, gate)
}

/// Starts a thread for each peer, the last one first, and joins them. Each peer plays its script in
/// its own. Returns an error where a thread could not be started or memory is out, or the fault of
/// a peer where no lesser script has one.
fn play_in_threads<'s, 'e: 's, R, G>(
    rt: &'e R,
    alloc: Global,
    scope: &'s Scope<'s, &'e ()>,
    scripts: &'e [Vec<Turn>],
    crew: Option<usize>,
    gate: &'e G,
    peers: Vec<Peer>,
) -> Result<Vec<Peer>, SessionError>
where
    R: Threads + Wait + Copy + Send + Sync + 'static,
    G: Gate + Sync,
    requires crew { IfSome crew (λ workers. (0 < workers) × (workers ≤ MAX_WORKERS)) }
    requires peers { length peers.items ≡ length scripts.now }
    ensures played { IfOk result (λ played.
        AllPlayed (turns_of scripts.now) peers.items played.items) }
    ensures fault { IfErr result
        (IsPlayersError G.ALWAYS crew (turns_of scripts.now) peers.items) }
{
    let mut peers = peers;
    let Some((script, others)) = scripts.split_last() else {
        return Ok(peers);
    };
    let Some(peer) = peers.pop() else {
        unreachable!()
    };
    let promise = PlayPromise::<G> {
        script: Snapshot::of(script),
        peer: Snapshot::of(&peer),
        crew,
        gate: PhantomData,
    };
    let started = scope.spawn_with(
        promise,
        move || -> Result<Peer, SessionError>
            requires { IfSome crew (λ workers. (0 < workers) × (workers ≤ MAX_WORKERS)) }
        { play_script(rt, alloc, peer, script, crew, gate) },
    );
    let Ok(thread) = started else {
        return Err(SessionError::NoThread);
    };
    let lesser = play_in_threads(rt, alloc, scope, others, crew, gate, peers);
    let played = thread.join(rt);
    let mut all = lesser?;
    let last = played?;
    match all.push(last) {
        Ok(()) => Ok(all),
        Err(_) => Err(SessionError::OutOfMemory),
    }
}

/// Lets each peer play its script in a thread of its own, and joins the threads. Returns an error
/// where a thread could not be started or memory is out, or the fault of a peer where no lesser
/// script has one.
pub fn play_all<R, G>(
    rt: &R,
    alloc: Global,
    scripts: &[Vec<Turn>],
    crew: Option<usize>,
    gate: &G,
    peers: Vec<Peer>,
) -> Result<Vec<Peer>, SessionError>
where
    R: Threads + Wait + Copy + Send + Sync + 'static,
    G: Gate + Sync,
    requires crew { IfSome crew (λ workers. (0 < workers) × (workers ≤ MAX_WORKERS)) }
    requires peers { length peers.items ≡ length scripts.now }
    ensures played { IfOk result (λ played.
        AllPlayed (turns_of scripts.now) peers.items played.items) }
    ensures fault { IfErr result
        (IsPlayersError G.ALWAYS crew (turns_of scripts.now) peers.items) }
{
    thread::scope(
        thread::scope_env(),
        rt,
        |scope| -> Result<Vec<Peer>, SessionError>
            requires crew { IfSome crew (λ workers. (0 < workers) × (workers ≤ MAX_WORKERS)) }
            requires peers { length peers.items ≡ length scripts.now }
            ensures played { IfOk result (λ played.
                AllPlayed (turns_of scripts.entry.now) peers.items played.items) }
            ensures fault { IfErr result
                (IsPlayersError G.ALWAYS crew (turns_of scripts.entry.now) peers.items) }
        { play_in_threads(rt, alloc, scope, scripts, crew, gate, peers) },
    )
}
