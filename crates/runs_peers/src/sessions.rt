//! Sessions, and what each peer is at the end.

ghost use Rattle.std.specs.Prelude.{◌<◌, ◌≤◌, IfOk, IfSome, length};
ghost use Rattle.pf_pool.specs.declared.pool.TheConstants.{MAX_WORKERS};
ghost use Rattle.pf_shapes.specs.declared.fixture.TheConstants.{PLAYERS};

use crate::bodies::push_bodies;
use crate::gates::{NotedGate, SessionGate, gate_of};
use crate::script::Scripts;
use crate::threads::Handle;
use crate::two::play_two;
use anyhow::{Context, Result, bail};
use pf_scripts::{Peer, SessionError, Turn};
use pf_sessions::run_session;
use pf_shapes::{PLAYERS, Scene};
use pf_step::World;
use pf_text::push_line;
use pf_workers::{Gate, MAX_WORKERS, OpenGate};
use std::alloc::Global;

/// Adds the lines of a peer and its world.
fn push_peer(text: &mut String, scene: &Scene, peer: &Peer, world: &World) -> Result<()> {
    let core = peer.core();
    let numbers = [
        i64::from(core.player()),
        i64::from(core.reached()),
        i64::from(core.settled()),
        core.commands().len() as i64,
    ];
    push_line(text, "peer", &numbers)?;
    push_bodies(text, scene.fixtures(), world.bodies())?;
    Ok(())
}

/// The lines of all peers.
fn peers_text(alloc: Global, scene: &Scene, ended: &[(Peer, World)]) -> Result<String> {
    let mut text = String::from_str(alloc, "session\n")?;
    for (peer, world) in ended {
        push_peer(&mut text, scene, peer, world)?;
    }
    Ok(text)
}

/// The line of a session that failed.
fn fault_text(alloc: Global, fault: SessionError) -> Result<String> {
    match fault {
        SessionError::OutOfMemory => bail!("out of memory"),
        _ => Ok(format!(in alloc; "session {fault:?}\n")?),
    }
}

/// Plays a session with this gate, and prints what its peers are at the end.
fn play_by<R: Handle, G: Gate + Sync>(
    rt: &R,
    alloc: Global,
    scene: &Scene,
    scripts: &[Vec<Turn>],
    crew: Option<usize>,
    gate: &G,
) -> Result<String>
    requires scripts { length scripts.now ≤ PLAYERS }
    requires crew { IfSome crew (λ workers. (0 < workers) × (workers ≤ MAX_WORKERS)) }
{
    match run_session(rt, alloc, scene, scripts, crew, gate) {
        Ok(ended) => peers_text(alloc, scene, &ended),
        Err(fault) => fault_text(alloc, fault),
    }
}

/// The size of a crew that a word spells.
fn crew_of(word: Option<&str>) -> Result<Option<usize>>
    ensures { IfOk result (λ crew.
        IfSome crew (λ workers. (0 < workers) × (workers ≤ MAX_WORKERS))) }
{
    let Some(word) = word else {
        return Ok(None);
    };
    let workers = word.parse::<usize>().context("reading a number")?;
    if workers == 0 || workers > MAX_WORKERS {
        bail!("no such number of workers");
    }
    Ok(Some(workers))
}

/// Plays a session with a gate that keeps a book, and prints the book as well.
fn play_noted<R: Handle, const IS_OPEN: bool>(
    rt: &R,
    alloc: Global,
    scene: &Scene,
    scripts: &[Vec<Turn>],
    crew: Option<usize>,
    noted: &NotedGate<IS_OPEN>,
) -> Result<String>
    requires scripts { length scripts.now ≤ PLAYERS }
    requires crew { IfSome crew (λ workers. (0 < workers) × (workers ≤ MAX_WORKERS)) }
{
    let mut text = play_by(rt, alloc, scene, scripts, crew, &noted.gate)?;
    let book = noted.book.text(alloc)?;
    text.push_str("gate")?;
    text.push_str(&book)?;
    text.push('\n')?;
    Ok(text)
}

/// Plays a session, and prints it.
fn play<R: Handle>(
    rt: &R,
    alloc: Global,
    scene: &Scene,
    scripts: &Scripts,
    crew: Option<&str>,
    words: &[&str],
) -> Result<String> {
    let scripts = scripts.as_slice();
    if scripts.len() > usize::from(PLAYERS) {
        bail!("too many peers");
    }
    let crew = crew_of(crew)?;
    match gate_of(alloc, words, scripts.len())? {
        SessionGate::Open => play_by(rt, alloc, scene, scripts, crew, &OpenGate),
        SessionGate::Ruled(noted) => play_noted(rt, alloc, scene, scripts, crew, &noted),
        SessionGate::Noting(noted) => play_noted(rt, alloc, scene, scripts, crew, &noted),
    }
}

/// The text of what a line of a session prints; none if these are the words of another line.
pub fn answer<R: Handle>(
    rt: &R,
    alloc: Global,
    scene: &Scene,
    scripts: &mut Scripts,
    words: &[&str],
) -> Result<Option<String>> {
    let text = match words {
        ["turn", peer, ticks, frames @ ..] => {
            scripts.add(alloc, peer, ticks, frames)?;
            String::new(alloc)
        }
        ["session", gate @ ..] => play(rt, alloc, scene, scripts, None, gate)?,
        ["session-crews", workers, gate @ ..] => {
            play(rt, alloc, scene, scripts, Some(*workers), gate)?
        }
        ["two", gate @ ..] => play_two(rt, alloc, scene, scripts, gate)?,
        _ => return Ok(None),
    };
    Ok(Some(text))
}
