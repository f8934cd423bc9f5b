//! A crew that starts its workers in each solve, and borrows its gate.

use pf_rollback::{MAX_RING, PeerCore};
use pf_shapes::Scene;
use pf_step::{CrewError, StepError};
use pf_workers::{Gate, ScopedCrew};
use std::alloc::Global;
use std::sync::{Arc, Wait};
use std::test::Fail;
use std::thread::Threads;
use tests_gates::{Book, Rule, TrialGate};

/// A circle that falls.
const SCENE: &[u8] = b"gravity 0 -167772160\ncircle 0 16777216 0 16777216 0 0\nend\n";

/// The tick of a settle, or that a gate was shut. Another error, as without memory, ends the test.
fn settled(answer: Result<u32, StepError>) -> Result<Result<u32, CrewError>, Fail> {
    match answer {
        Ok(tick) => Ok(Ok(tick)),
        Err(StepError::Crew(CrewError::GateShut)) => Ok(Err(CrewError::GateShut)),
        Err(error) => Err(Fail::from(error)),
    }
}

/// What a peer at tick 10 answers to two settles by a crew of two with this gate.
fn settle_twice<'r, R: Threads + Wait + Sync>(
    rt: &'r R,
    alloc: Global,
    gate: &'r (dyn Gate + Sync),
) -> Result<[Result<u32, CrewError>; 2], Fail> {
    let mut crew = ScopedCrew::new(rt, alloc, 2, gate);
    let mut peer = PeerCore::new(alloc, Scene::read(alloc, SCENE)?, 0, MAX_RING)?;
    peer.advance(10)?;
    let first = settled(peer.settle_with(rt, alloc, &mut crew))?;
    let second = settled(peer.settle_with(rt, alloc, &mut crew))?;
    Ok([first, second])
}

#[test]
fn workers_meet_at_a_borrowed_gate(rt: HostRuntime) -> Result<(), Fail> {
    let book = Arc::new(rt.alloc(), Book::new(rt.alloc(), 2)?)?;
    let gate = TrialGate::<false>::new(Rule::Meeting, Arc::try_clone(&book)?);
    let answers = settle_twice(&rt, rt.alloc(), &gate)?;
    assert!(rt; answers == [Ok(10), Ok(10)]);
    assert!(rt; book.text(rt.alloc())?.as_str() == " shut 0 passes 10/10 10/10");
    Ok(())
}

#[test]
fn a_borrowed_gate_may_be_shut(rt: HostRuntime) -> Result<(), Fail> {
    let rule = Rule::Shut { worker: 1, turn: 0 };
    let book = Arc::new(rt.alloc(), Book::new(rt.alloc(), 2)?)?;
    let gate = TrialGate::<false>::new(rule, Arc::try_clone(&book)?);
    let answers = settle_twice(&rt, rt.alloc(), &gate)?;
    assert!(rt; answers == [Err(CrewError::GateShut), Ok(10)]);
    assert!(rt; book.text(rt.alloc())?.as_str() == " shut 1 passes 11/11 11/11");
    Ok(())
}
