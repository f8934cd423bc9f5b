//! A session as a list of events. Late commands, merges, limits and commands that are refused
//! stand in the stored runs of `runs_texts` and `runs_peers`.

ghost use Rattle.std.specs.Prelude.{◌≡◌};
ghost use Rattle.pf_events.specs.Session.{other_peer_of, event_peer};

use pf_commands::Payload;
use pf_peers::{Event, Reply, Session, run};
use pf_shapes::Scene;
use pf_step::Work;
use std::alloc::Global;
use std::test::Fail;

/// A circle of player 0.
const SCENE: &[u8] = b"gravity 0 0\ncircle 0 16777216 0 16777216 0 0\nend\n";

/// Peer 0 has issued a command and settled tick 4, which it seals at last; peer 1 has merged the
/// command at tick 0.
fn are_the_replies(replies: &[Reply]) -> bool {
    matches!(
        replies,
        [
            Reply::Advanced {
                peer: 0,
                reached: 4
            },
            Reply::Issued { peer: 0, .. },
            Reply::Settled {
                peer: 0,
                reached: 4
            },
            Reply::Merged { peer: 1, count: 1 },
            Reply::Sealed { peer: 0, tick: 4 },
        ]
    )
}

#[test]
fn events_have_replies(rt: HostRuntime) -> Result<(), Fail> {
    let scene = Scene::read(rt.alloc(), SCENE)?;
    let events = [
        Event::Advance { peer: 0, ticks: 4 },
        Event::Issue {
            peer: 0,
            payload: Payload::Stop { body: 0 },
        },
        Event::Settle { peer: 0 },
        Event::Merge { peer: 1, other: 0 },
        Event::Seal { peer: 0, tick: 4 },
    ];
    let replies = run(rt.alloc(), &scene, 2, &events)?;
    assert!(rt; are_the_replies(replies.as_slice()));
    Ok(())
}

/// Has a session answer an event on its first peer.
fn answer_first(session: &mut Session, alloc: Global, event: Event) -> Result<(), Fail>
    requires peer { event_peer event ≡ 0 }
    requires other { other_peer_of event ≡ 0 }
{
    if session.peer_count() == 0 {
        return Err(Fail::from("no peer"));
    }
    let _reply = session.answer(alloc, event)?;
    Ok(())
}

/// The settled tick of the first peer of a session.
fn settled_of_first(session: &Session) -> u32 {
    if session.peer_count() == 0 {
        return 0;
    }
    session.core(0).settled()
}

/// How many ticks are simulated for the world of the first peer at a tick.
fn ticks_for_world(session: &Session, alloc: Global, tick: u32) -> Result<u64, Fail> {
    if session.peer_count() == 0 {
        return Err(Fail::from("no peer"));
    }
    let mut work = Work::new(alloc);
    session.core(0).world_at(alloc, tick, &mut work)?;
    Ok(work.meter().ticks)
}

/// Settles tick 4, and returns how many ticks are then simulated for the world at tick 2.
fn ticks_after_settle(session: &mut Session, alloc: Global) -> Result<u64, Fail> {
    answer_first(session, alloc, Event::Advance { peer: 0, ticks: 4 })?;
    answer_first(session, alloc, Event::Settle { peer: 0 })?;
    ticks_for_world(session, alloc, 2)
}

#[test]
fn a_settle_keeps_worlds(rt: HostRuntime) -> Result<(), Fail> {
    let scene = Scene::read(rt.alloc(), SCENE)?;
    let mut session = Session::new(rt.alloc(), scene, 1)?;
    let ticks = ticks_after_settle(&mut session, rt.alloc())?;
    assert!(rt; ticks == 0 && settled_of_first(&session) == 4);
    Ok(())
}
