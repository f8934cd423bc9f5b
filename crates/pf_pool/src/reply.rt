//! The channel over which the workers of a pool answer. Its rule: each answer is what its worker
//! makes of the part that it was dealt in a run.

ghost use Rattle.std.specs.Prelude.{◌≡◌, IfSome, Some};
ghost use Rattle.crossbeam_channel.specs.Claims.{IsSeatAt, view};
ghost use Rattle.crossbeam_channel.specs.Ends.{sends_on};
ghost use Rattle.pf_pool.specs.Reply.{IsDoneOf, IsReply};
ghost use Rattle.pf_pool.specs.declared.reply.Dealt.{Dealt};
ghost use Rattle.pf_pool.specs.declared.reply.Known.{Known};

use crate::error::PoolError;
use crate::task::Task;
use crossbeam_channel::protocol::{Free, Lesson, Outcome, Protocol, Split};
use crossbeam_channel::{Pass, RuledReceiver, RuledSender, bounded_with};
use std::alloc::{AllocError, Global};
use std::hint;
use std::marker::{Model, PhantomData};
use std::snapshot::Snapshot;
use std::sync::Wait;

/// The parts of the workers in a run, as contracts see them. It has no bytes.
#[derive(Drop)]
pub(crate) struct Dealt<P> {
    pub(crate) parts: Snapshot<Vec<Option<P>>>,
}

/// What the worker of a number made of its part in a run.
#[derive(Drop)]
pub(crate) struct Answer<P> {
    pub(crate) run: usize,
    pub(crate) worker: usize,
    pub(crate) done: P,
}

/// What goes through the channel.
#[derive(Drop)]
pub(crate) enum Message<P> {
    /// What is dealt in the next run. The caller sends it before all jobs, so that whoever answers
    /// knows it.
    Dealt(Dealt<P>),
    /// What a worker answers.
    Answer(Answer<P>),
}

/// What one who holds a pass knows: the number of a run, what was dealt in it, and whether it is
/// the caller, who deals. Only contracts see it.
pub(crate) struct Known<P> {
    pub(crate) deals: bool,
    pub(crate) run: usize,
    pub(crate) dealt: Option<Dealt<P>>,
}

/// The rule of the channel.
pub(crate) struct Replies<T> {
    task: PhantomData<T>,
}

impl<T: Task> Protocol<Message<T::Part>, Known<T::Part>> for Replies<T> {
    ghost use Rattle.pf_pool.specs.Reply.{AreReplies, known_first};

    ghost holds = { AreReplies T.is_done };

    ghost first = { known_first };
}

/// The caller, who sends what is dealt in the next run, knows it.
struct Deals;

impl<P> Outcome<Message<P>, Known<P>> for Deals {
    ghost use Rattle.std.specs.Prelude.{◌≡◌};
    ghost use Rattle.pf_pool.specs.Reply.{known_after};

    ghost then = { λ before message after. after ≡ known_after before message };
}

impl<P> Lesson<Message<P>, Known<P>> for Deals {
    ghost use Rattle.std.specs.Prelude.{⊤};

    ghost fact = { λ view messages. ⊤ };
}

/// The caller, who receives an answer, knows that its worker made it of its part.
struct Takes<T> {
    task: PhantomData<T>,
}

impl<T: Task> Outcome<Message<T::Part>, Known<T::Part>> for Takes<T> {
    ghost use Rattle.std.specs.Prelude.{◌≡◌, true};
    ghost use Rattle.pf_pool.specs.Reply.{IsReply};

    ghost then = { λ before message after. (after ≡ before)
        × (before.deals ≡ true → IsReply T.is_done before message) };
}

impl<T: Task> Lesson<Message<T::Part>, Known<T::Part>> for Takes<T> {
    ghost use Rattle.std.specs.Prelude.{⊤};

    ghost fact = { λ view messages. ⊤ };
}

/// What the caller knows, a worker knows, too. It does not deal.
struct Shares;

impl<P> Split<Known<P>> for Shares {
    ghost use Rattle.std.specs.Prelude.{false};

    ghost left = { λ view. view };

    ghost right = { λ view. record view { deals = false } };
}

/// How often a thread looks for a message before it sleeps. Messages often come within
/// microseconds, and to wake a thread takes about fifty.
pub(crate) const LOOKS: u32 = 2_000;

/// The end of a worker, over which it answers in one run.
#[derive(Drop)]
pub(crate) struct Replier<T: Task> {
    sender: RuledSender<Message<T::Part>, Known<T::Part>, Replies<T>>,
    pass: Pass<Message<T::Part>, Known<T::Part>>,
    run: usize,
    ghost seat: { IsSeatAt (sends_on sender) pass },
    ghost counted: { (view pass).run ≡ run },
}

impl<T: Task> Replier<T> {
    ghost use Rattle.std.specs.Prelude.{◌≡◌, Some};
    ghost use Rattle.pf_pool.specs.Known.{known_to};
    ghost use Rattle.pf_pool.specs.Reply.{IsDoneOf};
    ghost use Rattle.pf_pool.specs.declared.reply.Dealt.{Dealt};

    /// Sends the answer of a worker. Does nothing where the caller waits no more.
    pub(crate) fn send<R: Wait>(self, rt: &R, worker: usize, done: T::Part)
        requires { (d : Dealt T.Part) → known_to self ≡ Some d
            → IsDoneOf T.is_done d worker done }
    {
        let Replier {
            sender,
            mut pass,
            run,
        } = self;
        let answer = Answer { run, worker, done };
        let _ = sender.send_as::<Free, R>(rt, &mut pass, Message::Answer(answer));
    }
}

/// The worker of a message and the part that it did, if that is an answer in the run of a number.
fn answer_in<T: Task>(message: Message<T::Part>, run: usize) -> Option<(usize, T::Part)>
    ensures { (known : Known T.Part) → known.run ≡ run → IsReply T.is_done known message
        → IfSome result (λ answer. (d : Dealt T.Part) → known.dealt ≡ Some d
        → IsDoneOf T.is_done d answer.0 answer.1) }
{
    match message {
        Message::Answer(answer) if answer.run == run => Some((answer.worker, answer.done)),
        _ => None,
    }
}

/// The end of the caller: it tells what is dealt in a run, and the answers arrive over it.
///
/// Contracts see what was dealt in the current run.
#[derive(Drop)]
pub(crate) struct Collector<T: Task> {
    sender: RuledSender<Message<T::Part>, Known<T::Part>, Replies<T>>,
    receiver: RuledReceiver<Message<T::Part>, Known<T::Part>, Replies<T>>,
    pass: Pass<Message<T::Part>, Known<T::Part>>,
    run: usize,
}

impl<T: Task> Model for Collector<T> {
    ghost use Rattle.std.specs.Prelude.{◌≡◌, Option, true};
    ghost use Rattle.crossbeam_channel.specs.Claims as claims;
    ghost use Rattle.crossbeam_channel.specs.Ends.{receives_on, sends_on};
    ghost use Rattle.pf_pool.specs.declared.reply.Dealt.{Dealt};

    ghost Value = { Option (Dealt T.Part) };

    ghost view = { λ c. (claims.view c.pass).dealt };

    ghost invariant = { λ c. claims.IsSeatAt (sends_on c.sender) c.pass
        × (receives_on c.receiver ≡ sends_on c.sender)
        × ((claims.view c.pass).deals ≡ true) × ((claims.view c.pass).run ≡ c.run) };
}

impl<T: Task> Collector<T> {
    ghost use Rattle.std.specs.Prelude.{◌≡◌, ◌+◌, ◌^◌, ◌<◌, IfErr, IfOk, IfSome, None, Some};
    ghost use Rattle.pf_pool.specs.Known.{known_to};
    ghost use Rattle.pf_pool.specs.Reply.{IsDoneOf};
    ghost use Rattle.pf_pool.specs.declared.error.PoolError.TheVariants.{WorkerLost};
    ghost use Rattle.pf_pool.specs.declared.reply.Dealt.{Dealt};

    /// A channel over which nothing was dealt. Takes memory for the answers of so many workers.
    pub(crate) fn open(alloc: Global, workers: usize) -> Result<Collector<T>, AllocError>
        requires { workers + 1 < 2 ^ 64 }
        ensures { IfOk result (λ collector. collector ≡ None) }
    {
        let (sender, receiver, pass) = bounded_with::<
            Message<T::Part>,
            Known<T::Part>,
            Replies<T>,
            Global,
        >(alloc, workers + 1)?;
        Ok(Collector {
            sender,
            receiver,
            pass,
            run: 0,
        })
    }

    /// Begins the next run, in which these parts are dealt. Returns an error where there is no next
    /// number.
    pub(crate) fn deal<R: Wait>(
        self,
        rt: &R,
        dealt: Dealt<T::Part>,
    ) -> Result<Collector<T>, PoolError>
        ensures dealt { IfOk result (λ collector. collector ≡ Some dealt) }
        ensures failed { IfErr result (λ error. error ≡ WorkerLost) }
    {
        let mut collector = self;
        // What a run has left in which nobody was asked.
        let _ = collector.look(rt);
        let run = collector.run.checked_add(1).ok_or(PoolError::WorkerLost)?;
        let message = Message::Dealt(dealt);
        match collector
            .sender
            .send_as::<Deals, R>(rt, &mut collector.pass, message)
        {
            Ok(()) => {
                collector.run = run;
                Ok(collector)
            }
            Err(_) => Err(PoolError::WorkerLost),
        }
    }

    /// The end of a worker in the current run.
    pub(crate) fn replier(&mut self) -> Result<Replier<T>, AllocError>
        ensures knows { IfOk result (λ replier. known_to replier ≡ self.old) }
        ensures same { self.new ≡ self.old }
    {
        let sender = self.sender.try_clone()?;
        let pass = sender.another::<Shares>(&mut self.pass);
        Ok(Replier {
            sender,
            pass,
            run: self.run,
        })
    }

    /// Takes the next message, if it has arrived.
    fn look<R: Wait>(&mut self, rt: &R) -> Option<(usize, T::Part)>
        ensures done { IfSome result (λ answer. (d : Dealt T.Part) → self.old ≡ Some d
            → IsDoneOf T.is_done d answer.0 answer.1) }
        ensures same { self.new ≡ self.old }
    {
        match self.receiver.try_recv_as::<Takes<T>, R>(rt, &mut self.pass) {
            Ok(message) => answer_in::<T>(message, self.run),
            Err(_) => None,
        }
    }

    /// Sleeps until the next message arrives.
    fn sleep<R: Wait>(&mut self, rt: &R) -> Option<(usize, T::Part)>
        ensures done { IfSome result (λ answer. (d : Dealt T.Part) → self.old ≡ Some d
            → IsDoneOf T.is_done d answer.0 answer.1) }
        ensures same { self.new ≡ self.old }
    {
        match self.receiver.recv_as::<Takes<T>, R>(rt, &mut self.pass) {
            Ok(message) => answer_in::<T>(message, self.run),
            Err(_) => None,
        }
    }

    /// Waits for the next message. Returns the worker and what it did, if it is an answer in the
    /// current run.
    pub(crate) fn receive<R: Wait>(&mut self, rt: &R) -> Option<(usize, T::Part)>
        ensures done { IfSome result (λ answer. (d : Dealt T.Part) → self.old ≡ Some d
            → IsDoneOf T.is_done d answer.0 answer.1) }
        ensures same { self.new ≡ self.old }
    {
        for _ in 0..LOOKS {
            if let Some(answer) = self.look(rt) {
                return Some(answer);
            }
            hint::spin_loop();
        }
        self.sleep(rt)
    }
}
