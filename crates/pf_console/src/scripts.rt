//! The scripts of a session's text, and their session.

ghost use Rattle.std.specs.Prelude.{◌≡◌, ◌<◌, ◌≤◌, ◌++◌, IfErr, IfOk, IfSome, None, OnOk, length, map};
ghost use Rattle.std.specs.List.{flat_map};
ghost use Rattle.std.specs.String.{string_bytes};
ghost use Rattle.pf_pool.specs.declared.pool.TheConstants.{MAX_WORKERS};
ghost use Rattle.pf_sessions.specs.Session.{shown_by};
ghost use Rattle.pf_console.specs.Blocks.{fault_of, result_block};
ghost use Rattle.pf_console.specs.Scripts.{blocks_of, take_error_of_line, scripts_refusal, session_play, with_turn};
ghost use Rattle.pf_console.specs.SessionText.{EndsBy};
ghost use Rattle.pf_console.specs.Turns.{said, said_by};

use crate::error::ProgramError;
use crate::phase::Play;
use crate::print::push_block;
use crate::turns::turn;
use pf_rollback::Refusal;
use pf_scripts::{Peer, SessionError, Turn};
use pf_sessions::run_session;
use pf_shapes::{Fixture, Scene, SceneFault};
use pf_step::{CrewError, World};
use pf_text::{LineError, TakeError};
use pf_workers::OpenGate;
use std::alloc::{AllocError, Global};
use std::marker::Model;
use std::sync::Wait;
use std::thread::Threads;

/// A scene, and the scripts of its peers by their numbers.
///
/// Contracts see what each turn says.
#[derive(Drop)]
pub struct Scripts {
    scene: Scene,
    scripts: Vec<Vec<Turn>>,
}

impl Model for Scripts {
    ghost use Rattle.std.specs.Prelude.{◌<◌, ◌≤◌, length};
    ghost use Rattle.pf_shapes.specs.declared.fixture.TheConstants.{PLAYERS};
    ghost use Rattle.pf_console.specs.Scripts.{Scripts};
    ghost use Rattle.pf_console.specs.Turns.{said};

    ghost Value = { Scripts };

    ghost view = { λ s. record {
      scene = s.scene;
      scripts = said s.scripts.items;
    } };

    ghost invariant = { λ s. (0 < length s.scripts.items) × (length s.scripts.items ≤ PLAYERS) };
}

/// Why a line was not taken.
fn take_error_of_line(error: LineError) -> TakeError<SceneFault>
    ensures { result ≡ take_error_of_line error }
{
    match error {
        LineError::Memory => TakeError::Memory,
        LineError::Fault(fault) => TakeError::Fault(SceneFault::from(fault)),
    }
}

/// Adds a turn to the script of a peer.
#[tactic(auto, using(crate::proofs::ScriptTurns::said_more))]
fn add_turn(scripts: &mut Vec<Vec<Turn>>, peer: u8, turn: Turn) -> Result<(), AllocError>
    requires { peer < length scripts.old.items }
    ensures added { OnOk result
        (said scripts.new.items ≡ with_turn (said scripts.old.items) (peer, said_by turn)) }
    ensures long { OnOk result (length scripts.new.items ≡ length scripts.old.items) }
{
    scripts[usize::from(peer)].push(turn)?;
    Ok(())
}

impl Play<()> for Scripts {
    ghost play = { session_play };

    fn begin(alloc: Global, scene: Scene, peers: u8) -> Result<Scripts, AllocError> {
        let mut scripts = Vec::new(alloc);
        for _ in 0..peers {
            scripts.push(Vec::new(alloc))?;
        }
        Ok(Scripts { scene, scripts })
    }

    fn take_line(
        self,
        alloc: Global,
        _lent: &mut (),
        fields: &[&[u8]],
    ) -> Result<(String, Scripts), TakeError<SceneFault>> {
        let Scripts { scene, mut scripts } = self;
        let (peer, turn) = turn(alloc, scripts.len() as u8, fields).map_err(take_error_of_line)?;
        add_turn(&mut scripts, peer, turn)?;
        Ok((String::new(alloc), Scripts { scene, scripts }))
    }
}

/// What a fault of a session is for the program.
fn fault_of(fault: SessionError) -> ProgramError
    ensures { result ≡ fault_of fault }
{
    match fault {
        SessionError::Frame(_, _, refusal) => ProgramError::Session(refusal),
        SessionError::TickLimit(_) => ProgramError::Session(Refusal::TickLimit),
        SessionError::Peer(_, CrewError::OutOfMemory) | SessionError::OutOfMemory => {
            ProgramError::Memory
        }
        SessionError::Peer(_, error) => ProgramError::Crew(error),
        SessionError::NoThread => ProgramError::Crew(CrewError::NoThread),
    }
}

/// Adds the block of each peer.
fn push_blocks(
    text: &mut String,
    fixtures: &[Fixture],
    results: &[(Peer, World)],
) -> Result<(), AllocError>
    ensures { OnOk result (string_bytes text.new ≡ string_bytes text.old
        ++ flat_map (result_block fixtures.now) (map shown_by results.now)) }
{
    for (peer, world) in results {
        push_block(
            text,
            fixtures,
            peer.core().player(),
            peer.core().reached(),
            world,
        )?;
    }
    Ok(())
}

impl Scripts {
    /// Plays the session, each peer in a thread, and returns the block of each peer.
    pub fn play<T: Threads + Wait + Copy + Send + Sync + 'static>(
        &self,
        rt: &T,
        alloc: Global,
        crew: Option<usize>,
    ) -> Result<String, ProgramError>
        requires { IfSome crew (λ workers. (0 < workers) × (workers ≤ MAX_WORKERS)) }
        ensures blocks { IfOk result (λ text. string_bytes text ≡ blocks_of self.now) }
        ensures taken { OnOk result (scripts_refusal self.now.scene self.now.scripts ≡ None) }
        ensures fault { IfErr result (EndsBy crew self.now) }
    {
        let results = match run_session(rt, alloc, &self.scene, &self.scripts, crew, &OpenGate) {
            Ok(results) => results,
            Err(fault) => return Err(fault_of(fault)),
        };
        let mut text = String::new(alloc);
        push_blocks(&mut text, self.scene.fixtures(), &results)?;
        Ok(text)
    }
}
