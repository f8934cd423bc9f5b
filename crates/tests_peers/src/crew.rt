//! How often the workers of a crew are asked, in a run and where a peer plays a script.

use pf_program::program_by_gate;
use pf_scripts::Turn;
use pf_sessions::linked_peers;
use pf_shapes::Scene;
use pf_text::{Bytes, Collected};
use pf_workers::OpenGate;
use std::alloc::{AllocError, Global};
use std::process::ExitCode;
use std::sync::{Arc, Wait};
use std::test::Fail;
use std::thread::Threads;
use tests_gates::{Book, Rule, TrialGate};

/// A circle on a floor, with these events.
fn events_on_a_floor(alloc: Global, events: &str) -> Result<String, AllocError> {
    let mut text = String::from_str(
        alloc,
        "gravity 0 -167772160\nbox - 0 8388608 167772160 16777216 0 -16777216 16777216 0\n\
         circle 0 16777216 8388608 16777216 0 16777216\nend\npeers 1\n",
    )?;
    text.push_str(events)?;
    Ok(text)
}

/// What a run with a crew of two notes at a gate that counts.
fn noted<T: Threads + Wait + Copy + Send + Sync + 'static>(
    rt: T,
    alloc: Global,
    events: &str,
) -> Result<String, Fail> {
    let text = events_on_a_floor(alloc, events)?;
    let words = Ok(Vec::from_slice(alloc, &["pf_play", "run", "--crew", "2"])?);
    let book = Arc::new(alloc, Book::new(alloc, 2)?)?;
    let gate = TrialGate::<true>::new(Rule::Counted, Arc::try_clone(&book)?);
    let mut reader = Bytes::new(text.as_bytes());
    let mut output = Collected::new(alloc);
    let mut errors = Collected::new(alloc);
    let status = program_by_gate(
        rt,
        alloc,
        gate,
        words,
        &mut reader,
        &mut output,
        &mut errors,
    );
    if status != ExitCode::SUCCESS {
        return Err(Fail::from("no memory, or no thread"));
    }
    Ok(book.text(alloc)?)
}

#[test]
fn a_settle_calls_the_crew_for_each_tick(rt: HostRuntime) -> Result<(), Fail> {
    let noted = noted(rt, rt.alloc(), "advance 0 3\nsettle 0\nshow 0 3\n")?;
    assert!(rt; noted.as_str() == " shut 0 passes 3/3 3/3");
    Ok(())
}

#[test]
fn other_lines_do_not_call_the_crew(rt: HostRuntime) -> Result<(), Fail> {
    let noted = noted(rt, rt.alloc(), "advance 0 3\nshow 0 3\n")?;
    assert!(rt; noted.as_str() == " shut 0 passes 0/0 0/0");
    Ok(())
}

/// A circle that falls.
const FALLING: &[u8] = b"gravity 0 -167772160\ncircle 0 16777216 0 16777216 0 0\nend\n";

/// What a crew of two notes, at a gate that counts, while its peer plays a turn of three ticks.
fn noted_in_a_turn<T: Threads + Wait + Copy + Send + 'static>(
    rt: T,
    alloc: Global,
) -> Result<String, Fail> {
    let scene = Scene::read(alloc, FALLING)?;
    let Some(peer) = linked_peers(alloc, &scene, 1)?.pop() else {
        return Err(Fail::from("no peer"));
    };
    let turn = Turn {
        frames: Vec::new(alloc),
        ticks: 3,
    };
    let book = Arc::new(alloc, Book::new(alloc, 2)?)?;
    let gate = TrialGate::<true>::new(Rule::Counted, Arc::try_clone(&book)?);
    let _played = peer.play_by_gate(rt, alloc, &[turn], Some(2), &OpenGate, gate)?;
    Ok(book.text(alloc)?)
}

#[test]
fn a_peer_plays_with_its_crew(rt: HostRuntime) -> Result<(), Fail> {
    let noted = noted_in_a_turn(rt, rt.alloc())?;
    assert!(rt; noted.as_str() == " shut 0 passes 3/3 3/3");
    Ok(())
}
