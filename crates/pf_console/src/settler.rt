//! Who settles the peers of a text.

ghost use Rattle.std.specs.Prelude.{◌≡◌, ◌≢◌, ℕ, None, length, IfOk, IfSome, OnErr, OnOk};
ghost use Rattle.pf_events.specs.Crews.{CanFail};
ghost use Rattle.pf_events.specs.Session.{IsAmong, answer};
ghost use Rattle.pf_events.specs.declared.event.Event.TheVariants.{Settle};
ghost use Rattle.pf_console.specs.Crews.{error_of_missing_reply};

use crate::error::ProgramError;
use pf_events::{Event, Reply, Session};
use pf_manifold::Collider;
use pf_step::{Crew, CrewError, StepError};
use std::alloc::{AllocError, Global};
use std::marker::Model;

/// A collider and a crew, which are lent to each line of a text. Where the crew fails, its error is
/// remembered here, since the driver's only error for a valid line is out of memory.
///
/// Contracts see that error, if there is one.
#[derive(Drop)]
pub struct Settler<'a, P: Collider, C: Crew> {
    collider: &'a P,
    crew: &'a mut C,
    failed: Option<CrewError>,
}

impl<'a, P: Collider, C: Crew> Model for Settler<'a, P, C> {
    ghost use Rattle.std.specs.Prelude.{Option, IfSome};
    ghost use Rattle.pf_step.specs.declared.crew.CrewError.{CrewError};
    ghost use Rattle.pf_events.specs.Crews.{CanFail};

    ghost Value = { Option CrewError };

    ghost view = { λ s. s.failed };

    ghost invariant = { λ s. P.can_collide s.collider.now × IfSome s.failed (CanFail C.may_fail) };
}

impl<'a, P: Collider, C: Crew> Settler<'a, P, C> {
    /// A collider and a crew that has not failed.
    pub fn new(collider: &'a P, crew: &'a mut C) -> Settler<'a, P, C>
        requires { P.can_collide collider.now }
        ensures { result ≡ None }
    {
        Settler {
            collider,
            crew,
            failed: None,
        }
    }

    /// The reply of a session to an event. Where the crew fails, which only a settle can do, its
    /// error is remembered, and the call is out of memory. An `Err` leaves what all peers hold and
    /// show as it was.
    pub fn answer(
        &mut self,
        alloc: Global,
        session: &mut Session,
        event: Event,
    ) -> Result<Reply, AllocError>
        requires { IsAmong (length session.old.peers) event }
        ensures reply { IfOk result (λ reply. (reply, session.new) ≡ answer session.old event) }
        ensures err { OnErr result (session.new ≡ session.old) }
        ensures ok { OnOk result (self.new ≡ self.old) }
        ensures other { ((peer : ℕ) → event ≢ Settle peer) → self.new ≡ self.old }
    {
        match session.answer_by(self.collider, alloc, event, self.crew) {
            Ok(reply) => Ok(reply),
            Err(StepError::OutOfMemory) => Err(AllocError),
            Err(StepError::Crew(error)) => {
                self.failed = Some(error);
                Err(AllocError)
            }
        }
    }

    /// Why a valid line had no reply: the crew's error, or out of memory if it has not failed. An
    /// error of the crew is one with which a call of it may fail.
    pub fn fault(&self) -> ProgramError
        ensures value { result ≡ error_of_missing_reply self.now }
        ensures failed { IfSome self.now (CanFail C.may_fail) }
    {
        match self.failed {
            Some(error) => ProgramError::Crew(error),
            None => ProgramError::Memory,
        }
    }
}
