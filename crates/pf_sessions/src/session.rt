//! A session of peers in threads.

ghost use Rattle.std.specs.Prelude.{◌≡◌, ◌<◌, ◌≤◌, All, IfErr, IfOk, IfSome, None, OnOk, length, map};
ghost use Rattle.std.specs.List.{AllZip};
ghost use Rattle.pf_pool.specs.declared.pool.TheConstants.{MAX_WORKERS};
ghost use Rattle.pf_shapes.specs.declared.fixture.TheConstants.{PLAYERS};
ghost use Rattle.pf_sessions.specs.Links.{AreLinked, IsDelivered, inputs_of, outputs_of};
ghost use Rattle.pf_sessions.specs.Session.{HasEnded, HasSent, IsSessionError, session_fault, session_results, shown_by, turns_of};

use crate::ending::end_session;
use crate::links::linked_peers;
use crate::playing::play_all;
use pf_scripts::{Peer, SessionError, Turn};
use pf_shapes::Scene;
use pf_step::World;
use pf_workers::Gate;
use std::alloc::Global;
use std::sync::Wait;
use std::thread::Threads;

/// Plays a session. Each script has a peer, whose player is the script's number, and a thread in
/// which the peer plays it by [`Peer::play`], and passes the gate in each turn. `crew` is how many
/// workers settle each peer's ticks while it plays; with none its own thread does. When all have
/// played, each peer takes what is left on its links, and settles on one thread, side by side with
/// the others.
///
/// Returns each peer with its world at the tick that it has reached. Under every schedule all peers
/// hold the commands of all scripts. The ends of a peer's links stand in the order of the other
/// peers' numbers.
///
/// Returns a fault of a peer, where no lesser peer's script has one; `NoThread` where a thread
/// could not be started; and `OutOfMemory` where the caller is out of memory. It waits for all
/// threads that it has started.
pub fn run_session<R, G>(
    rt: &R,
    alloc: Global,
    scene: &Scene,
    scripts: &[Vec<Turn>],
    crew: Option<usize>,
    gate: &G,
) -> Result<Vec<(Peer, World)>, SessionError>
where
    R: Threads + Wait + Copy + Send + Sync + 'static,
    G: Gate + Sync,
    requires peers { length scripts.now ≤ PLAYERS }
    requires crew { IfSome crew (λ workers. (0 < workers) × (workers ≤ MAX_WORKERS)) }
    ensures no_fault { OnOk result (session_fault scene.now 0 (turns_of scripts.now) ≡ None) }
    ensures results { IfOk result (λ all.
        map shown_by all.items ≡ session_results scene.now (turns_of scripts.now)) }
    ensures ended { IfOk result (λ all. All (λ e. HasEnded scene.now e.0) all.items) }
    ensures sent { IfOk result (λ all.
        AllZip HasSent (turns_of scripts.now) (map (λ e. e.0) all.items)) }
    ensures links { IfOk result (λ all. let peers = map (λ e. e.0) all.items in
        AreLinked IsDelivered (outputs_of peers) (inputs_of peers)) }
    ensures fault { IfErr result
        (IsSessionError G.ALWAYS crew scene.now (turns_of scripts.now)) }
{
    let peers = linked_peers(alloc, scene, scripts.len())?;
    let played = play_all(rt, alloc, scripts, crew, gate, peers)?;
    Ok(end_session(rt, alloc, played)?)
}
