//! The session that the events of a run are played on.

ghost use Rattle.std.specs.Prelude.{Ok, length};
ghost use Rattle.pf_text.specs.Driver.{KeepsLent, Produces};
ghost use Rattle.pf_events.specs.Session.{IsAmong};
ghost use Rattle.pf_console.specs.Run.{after_event, is_settle, run_play};

use crate::grammar::event;
use crate::phase::Play;
use crate::print::reply_text;
use crate::settler::Settler;
use pf_events::{Event, Session};
use pf_manifold::Collider;
use pf_shapes::{Scene, SceneFault};
use pf_step::Crew;
use pf_text::TakeError;
use std::alloc::{AllocError, Global};

/// The reply to an event, and the session after it.
fn after_known_event<P: Collider, C: Crew>(
    alloc: Global,
    settler: &mut Settler<P, C>,
    session: Session,
    event: Event,
) -> Result<(String, Session), TakeError<SceneFault>>
    requires { IsAmong (length session.peers) event }
    ensures reply { Produces result (after_event session (Ok event)) }
    ensures kept { KeepsLent result (is_settle (Ok event)) settler.old settler.new }
{
    let mut session = session;
    let reply = settler.answer(alloc, &mut session, event)?;
    let text = reply_text(alloc, session.scene().fixtures(), &reply)?;
    Ok((text, session))
}

impl<P: Collider, C: Crew> Play<Settler<'_, P, C>> for Session {
    ghost play = { run_play };

    fn begin(alloc: Global, scene: Scene, peers: u8) -> Result<Session, AllocError> {
        Session::new(alloc, scene, peers)
    }

    fn take_line(
        self,
        alloc: Global,
        settler: &mut Settler<'_, P, C>,
        fields: &[&[u8]],
    ) -> Result<(String, Session), TakeError<SceneFault>> {
        match event(self.peer_count(), fields) {
            Ok(event) => after_known_event(alloc, settler, self, event),
            Err(fault) => Err(TakeError::Fault(SceneFault::from(fault))),
        }
    }
}
