//! The workers of a pool, and their threads.

ghost use Rattle.std.specs.Prelude.{◌≡◌, IfErr, IfOk, replicate, true};
ghost use Rattle.pf_pool.specs.Known.{known_to};
ghost use Rattle.pf_pool.specs.Pool.{IsStartError};
ghost use Rattle.pf_pool.specs.Reply.{WasDealt};
ghost use Rattle.pf_pool.specs.declared.error.PoolError.TheVariants.{NoThread};

use crate::error::PoolError;
use crate::reply::{LOOKS, Replier};
use crate::task::Task;
use crossbeam_channel::{Receiver, Sender, TryRecvError};
use std::alloc::{AllocError, Global};
use std::marker::Model;
use std::sync::{Arc, Wait};
use std::thread::{JoinHandle, Threads};
use std::{hint, thread};

/// What a worker is asked in a turn: to do its part, and to answer over its end of the channel.
#[derive(Drop)]
pub(crate) struct Job<T: Task> {
    turn: usize,
    worker: usize,
    part: T::Part,
    replier: Replier<T>,
    ghost dealt: { WasDealt (known_to replier) worker part },
}

impl<T: Task> Job<T> {
    ghost use Rattle.std.specs.Prelude.{◌≡◌};
    ghost use Rattle.pf_pool.specs.Known.{known_to};
    ghost use Rattle.pf_pool.specs.Reply.{WasDealt};

    /// The job of a worker.
    pub(crate) fn new(turn: usize, worker: usize, part: T::Part, replier: Replier<T>) -> Job<T>
        requires { WasDealt (known_to replier) worker part }
    {
        Job {
            turn,
            worker,
            part,
            replier,
        }
    }

    /// Does the job, and answers.
    pub(crate) fn answer<R: Wait>(self, rt: &R, task: &T) {
        let Job {
            turn,
            worker,
            part,
            replier,
        } = self;
        let done = task.run(worker, turn, part);
        replier.send(rt, worker, done);
    }
}

/// Why a worker was not asked.
#[derive(Drop)]
pub(crate) enum AskError<T: Task> {
    /// There was no memory for the end of the channel over which it is to answer.
    OutOfMemory,
    /// It was dismissed, or its thread has ended: this job was not sent.
    Lost(Job<T>),
}

/// Without memory no worker is lost: a job, which is lost with one, was not made yet.
impl<T: Task> From<AskError<T>> for PoolError {
    ghost use Rattle.std.specs.Prelude.{◌≡◌};
    ghost use Rattle.pf_pool.specs.Asking.{error_of_ask};

    ghost from_gives = { λ error result. result ≡ error_of_ask error };

    fn from(error: AskError<T>) -> PoolError {
        match error {
            AskError::OutOfMemory => PoolError::OutOfMemory,
            AskError::Lost(_) => PoolError::WorkerLost,
        }
    }
}

/// Where a worker takes its jobs from.
trait Jobs<T: Task> {
    /// Waits for the next job. Returns none when there will be no more.
    fn next<R: Wait>(&self, rt: &R) -> Option<Job<T>>;
}

impl<T: Task> Jobs<T> for Receiver<Option<Job<T>>, Global> {
    fn next<R: Wait>(&self, rt: &R) -> Option<Job<T>> {
        for _ in 0..LOOKS {
            match self.try_recv(rt) {
                Ok(job) => return job,
                Err(TryRecvError::Empty) => hint::spin_loop(),
                Err(TryRecvError::Disconnected) => return None,
            }
        }
        self.recv(rt).ok()?
    }
}

/// What a worker thread does until there are no more jobs.
fn serve<R: Wait, T: Task, J: Jobs<T>>(rt: &R, task: &T, jobs: &J) {
    for _ in rt.forever() {
        let Some(job) = jobs.next(rt) else {
            return;
        };
        job.answer(rt, task);
    }
}

/// Starts the thread of a worker.
fn start_thread<R, T, J>(rt: &R, task: Arc<T, Global>, jobs: J) -> Result<JoinHandle<()>, PoolError>
where
    R: Threads + Wait + Copy + Send + 'static,
    T: Task + Send + Sync + Drop + 'static,
    J: Jobs<T> + Send + Drop + 'static,
    ensures { IfErr result (λ error. error ≡ NoThread) }
{
    let own = *rt;
    match thread::spawn(rt, move || serve(&own, &*task, &jobs)) {
        Ok(thread) => Ok(thread),
        Err(_) => Err(PoolError::NoThread),
    }
}

/// A worker: the sender of its jobs; a receiver that takes back those that it has not begun, unless
/// somebody watches; and its thread, if this pool started it. One that was dismissed has none of
/// these.
///
/// Contracts see whether it was not dismissed.
#[derive(Drop)]
pub(crate) struct Worker<T: Task> {
    jobs: Option<Sender<Option<Job<T>>, Global>>,
    back: Option<Receiver<Option<Job<T>>, Global>>,
    thread: Option<JoinHandle<()>>,
}

impl<T: Task> Model for Worker<T> {
    ghost use Rattle.std.specs.Prelude.{Bool, is_some};

    ghost Value = { Bool };

    ghost view = { λ w. is_some w.jobs };
}

impl<T: Task> Worker<T> {
    ghost use Rattle.std.specs.Prelude.{◌≡◌, IfErr, IfOk, IsErr, OnOk, false, true};
    ghost use Rattle.pf_pool.specs.Pool.{IsStartError};

    /// Starts a worker. After an error its thread ends by itself, if it was started.
    fn start<R>(rt: &R, alloc: Global, task: &Arc<T, Global>) -> Result<Worker<T>, PoolError>
    where
        R: Threads + Wait + Copy + Send + 'static,
        T: Send + Sync + Drop + 'static,
        T::Part: 'static,
        ensures there { IfOk result (λ worker. worker ≡ true) }
        ensures failed { IfErr result IsStartError }
    {
        let (jobs, received) = crossbeam_channel::bounded(alloc, 1)?;
        let back = if task.is_watched() {
            None
        } else {
            Some(received.clone()?)
        };
        let thread = start_thread(rt, Arc::try_clone(task)?, received)?;
        Ok(Worker {
            jobs: Some(jobs),
            back,
            thread: Some(thread),
        })
    }

    /// Whether it was not dismissed.
    pub(crate) fn is_there(&self) -> bool
        ensures { result ≡ self.now }
    {
        self.jobs.is_some()
    }

    /// The same worker for another pool, which does not join its thread.
    pub(crate) fn another(&self) -> Result<Worker<T>, AllocError>
        ensures { IfOk result (λ other. other ≡ self.now) }
    {
        let jobs = match &self.jobs {
            Some(jobs) => Some(jobs.clone()?),
            None => None,
        };
        let back = match &self.back {
            Some(back) => Some(back.clone()?),
            None => None,
        };
        Ok(Worker {
            jobs,
            back,
            thread: None,
        })
    }

    /// Sends a job, which takes no memory. Returns it if the worker was dismissed, or if its thread
    /// has ended.
    pub(crate) fn ask<R: Wait>(&self, rt: &R, job: Job<T>) -> Result<(), Job<T>>
        ensures there { OnOk result (self.now ≡ true) }
        ensures gone { self.now ≡ false → IsErr result }
        ensures back { IfErr result (λ unsent. unsent ≡ job) }
    {
        let Some(jobs) = &self.jobs else {
            return Err(job);
        };
        match jobs.send(rt, Some(job)) {
            Ok(()) => Ok(()),
            Err(error) => match error.into_inner() {
                Some(job) => Err(job),
                None => unreachable!(),
            },
        }
    }

    /// Takes a job back that the worker has not begun, if there is one. A message that ends the
    /// worker, which another pool of the same workers has sent, is left for it.
    pub(crate) fn take_back<R: Wait>(&self, rt: &R) -> Option<Job<T>> {
        let message = self.back.as_ref()?.try_recv(rt).ok()?;
        if message.is_none() {
            self.end(rt);
        }
        message
    }

    /// Sends the message that ends its thread.
    fn end<R: Wait>(&self, rt: &R) {
        if let Some(jobs) = &self.jobs {
            let _ = jobs.send(rt, None);
        }
    }

    /// Tells its thread to end. Joins it, if it was this pool that started it.
    pub(crate) fn dismiss<R: Threads + Wait>(&mut self, rt: &R)
        ensures { self.new ≡ false }
    {
        self.back = None;
        self.end(rt);
        self.jobs = None;
        if let Some(thread) = self.thread.take() {
            thread.join(rt);
        }
    }
}

/// The same workers for another pool, which does not join their threads.
pub(crate) fn others<T: Task>(
    alloc: Global,
    workers: &[Worker<T>],
) -> Result<Vec<Worker<T>>, AllocError>
    ensures { IfOk result (λ others. others.items ≡ workers.now) }
{
    let mut others = Vec::with_capacity(alloc, workers.len())?;
    for worker in workers {
        others.push(worker.another()?)?;
    }
    Ok(others)
}

/// Starts so many workers. After an error those that were started end by themselves.
pub(crate) fn start<R, T>(
    rt: &R,
    alloc: Global,
    count: usize,
    task: &Arc<T, Global>,
) -> Result<Vec<Worker<T>>, PoolError>
where
    R: Threads + Wait + Copy + Send + 'static,
    T: Task + Send + Sync + Drop + 'static,
    T::Part: 'static,
    ensures there { IfOk result (λ workers. workers.items ≡ replicate count true) }
    ensures failed { IfErr result IsStartError }
{
    let mut workers = Vec::with_capacity(alloc, count)?;
    for _made in 0..count {
        workers.push(Worker::start(rt, alloc, task)?)?;
    }
    Ok(workers)
}
