//! A pool of standing threads.

ghost use Rattle.std.specs.Prelude.{◌<◌, ◌≤◌};

use crate::error::PoolError;
use crate::reply::{Collector, Dealt};
use crate::slots::{accept, have_answered};
use crate::task::Task;
use crate::worker::{AskError, Job, Worker, others, start};
use std::alloc::{AllocError, Global};
use std::cell::Cell;
use std::marker::Model;
use std::snapshot::Snapshot;
use std::sync::{Arc, Wait};
use std::thread::{Threads, available_parallelism};

/// The most workers that a pool may have.
pub const MAX_WORKERS: usize = 16;

/// Workers, each with a thread of its own, that are started once. In a run each worker is sent one
/// message, with its part, and sends one answer, with the part when it is done. Where nobody
/// watches, the caller does the first part itself, and then those that no worker has begun: so it
/// never waits for a worker that has not come.
///
/// Contracts see which workers this pool has not dismissed.
#[derive(Drop)]
pub struct Pool<R, T: Task> {
    rt: R,
    alloc: Global,
    task: Arc<T, Global>,
    workers: Vec<Worker<T>>,
    part_count: usize,
    /// The channel of the last run, for the next one.
    collector: Cell<Option<Collector<T>>>,
}

impl<R, T: Task> Model for Pool<R, T> {
    ghost use Rattle.std.specs.Prelude.{◌<◌, ◌≤◌, Bool, List, length};
    ghost use Rattle.pf_pool.specs.declared.pool.TheConstants.{MAX_WORKERS};

    ghost Value = { List Bool };

    ghost view = { λ p. p.workers.items };

    ghost invariant = { λ p. let n = length p.workers.items in
        (n ≤ MAX_WORKERS) × (0 < p.part_count) × (p.part_count ≤ n) };
}

/// Into how many parts work is best cut, for so many workers: where nobody watches, not into more
/// than there are processors, since some parts would then only wait for others, but into two.
fn best_part_count<R: Threads, T: Task>(rt: &R, workers: usize, task: &T) -> usize
    requires { 0 < workers }
    ensures some { 0 < result }
    ensures most { result ≤ workers }
{
    if task.is_watched() {
        return workers;
    }
    match available_parallelism(rt) {
        Ok(processors) => workers.min(processors.get().max(2)),
        Err(_) => workers,
    }
}

impl<R: Wait, T: Task> Pool<R, T> {
    ghost use Rattle.std.specs.Prelude.{◌≡◌, ℕ, ◌+◌, ◌<◌, ◌≤◌, All, Err, IfErr, IfOk, IsFalse, IsSome, IsTrue, None, OnOk, Some, false, length, replicate, slice_index_or, slice_set, true};
    ghost use Rattle.pf_pool.specs.Pool.{AreDone, ArePartlyDone, HasAllWorkers, IsRunError, IsStartError};
    ghost use Rattle.pf_pool.specs.Reply.{WasDealt, WereDealt};
    ghost use Rattle.pf_pool.specs.Slots.{AreAnswers, AreAway, HaveAnswered};
    ghost use Rattle.pf_pool.specs.declared.error.PoolError.TheVariants.{WorkerLost};
    ghost use Rattle.pf_pool.specs.declared.reply.Dealt.{Dealt};

    /// Starts so many workers. Returns an error where it is out of memory or a thread could not be
    /// started; the workers that were started end by themselves.
    pub fn new(rt: R, alloc: Global, workers: usize, task: T) -> Result<Pool<R, T>, PoolError>
    where
        R: Threads + Copy + Send + 'static,
        T: Send + Sync + Drop + 'static,
        T::Part: 'static,
        requires { (0 < workers) × (workers ≤ MAX_WORKERS) }
        ensures pool { IfOk result (λ pool. pool ≡ replicate workers true) }
        ensures failed { IfErr result IsStartError }
    {
        let part_count = best_part_count(&rt, workers, &task);
        let task = Arc::new(alloc, task)?;
        let workers = start(&rt, alloc, workers, &task)?;
        Ok(Pool {
            rt,
            alloc,
            task,
            workers,
            part_count,
            collector: Cell::new(None),
        })
    }

    /// What its workers do.
    pub fn task(&self) -> &T {
        &*self.task
    }

    /// How many workers were started.
    pub fn size(&self) -> usize
        ensures value { result ≡ length self.now }
        ensures some { 0 < result }
    {
        self.workers.len()
    }

    /// Into how many parts work is best cut: into one for each worker, or, where nobody watches,
    /// for each processor, if there are fewer, but into two.
    pub fn part_count(&self) -> usize
        ensures some { 0 < result }
        ensures most { result ≤ length self.now }
    {
        self.part_count
    }

    /// Whether this pool has dismissed none of its workers.
    pub fn has_all_workers(&self) -> bool
        ensures all { IsTrue result → HasAllWorkers self.now }
        ensures lost { IsFalse result → HasAllWorkers self.now → ⊥ }
    {
        for number in 0..self.workers.len() {
            if !self.workers[number].is_there() {
                return false;
            }
        }
        true
    }

    /// A pool of the same workers, which does not join them. Once this pool has dismissed one, or
    /// was closed, the other does those parts itself where nobody watches, also in a run that has
    /// begun, and else fails. Only this pool may dismiss workers: after the other has ended one, a
    /// run of this one may wait for ever.
    pub fn another(&self) -> Result<Pool<R, T>, AllocError>
    where
        R: Copy,
        ensures { IfOk result (λ other. other ≡ self.now) }
    {
        let workers = others(self.alloc, &self.workers)?;
        Ok(Pool {
            rt: self.rt,
            alloc: self.alloc,
            task: Arc::try_clone(&self.task)?,
            workers,
            part_count: self.part_count,
            collector: Cell::new(None),
        })
    }

    /// Tells all workers to end, and joins them. It may wait.
    pub fn close(self)
    where
        R: Threads + Copy,
        T: Drop,
    {
        let mut workers = self.workers;
        for worker in workers.iter_mut() {
            worker.dismiss(&self.rt);
        }
    }

    /// Tells a worker to end, and joins it. Does nothing if that was done before. From then on no
    /// work succeeds. It may wait.
    pub fn dismiss(&mut self, worker: usize)
    where
        R: Threads,
        requires { worker < length self.old }
        ensures { self.new ≡ slice_set self.old worker false }
    {
        self.workers[worker].dismiss(&self.rt);
    }

    /// The channel of a run in which these parts are dealt: that of the last run, if it is there.
    fn deal(&self, parts: &Vec<Option<T::Part>>) -> Result<Collector<T>, PoolError>
        ensures dealt { IfOk result (λ collector. (d : Dealt T.Part) × (collector ≡ Some d)
            × (d.parts.value.items ≡ parts.now.items)) }
        ensures failed { IfErr result IsRunError }
    {
        let collector = match self.collector.take() {
            Some(collector) => collector,
            None => Collector::open(self.alloc, self.workers.len())?,
        };
        let dealt = Dealt {
            parts: Snapshot::of(parts),
        };
        collector.deal(&self.rt, dealt)
    }

    /// Asks a worker to do its part. The part is put into `own` in place of that, if the caller is
    /// to do it.
    fn ask_one(
        &self,
        turn: usize,
        worker: usize,
        part: T::Part,
        collector: &mut Collector<T>,
        own: &mut Option<Job<T>>,
    ) -> Result<(), AskError<T>>
        requires within { worker < length self.now }
        requires dealt { WasDealt collector.old worker part }
        ensures same { collector.new ≡ collector.old }
    {
        let Ok(replier) = collector.replier() else {
            return Err(AskError::OutOfMemory);
        };
        let job = Job::new(turn, worker, part, replier);
        if worker == 0 && !self.task.is_watched() {
            *own = Some(job);
            return Ok(());
        }
        match self.workers[worker].ask(&self.rt, job) {
            Ok(()) => Ok(()),
            Err(job) => Err(AskError::Lost(job)),
        }
    }

    /// Asks one worker after the other to do its part, from the last to the first, up to the first
    /// error. Returns the least number of those that were asked, or how many parts there are if
    /// none was. The first part is put into `own` in place of that, if the caller may do it.
    fn ask_each(
        &self,
        turn: usize,
        slots: &mut [Option<T::Part>],
        collector: &mut Collector<T>,
        own: &mut Option<Job<T>>,
    ) -> (usize, Result<(), AskError<T>>)
        requires dealt { WereDealt collector.old slots.old }
        requires count { length slots.old ≤ length self.now }
        requires some { All IsSome slots.old }
        ensures same { collector.new ≡ collector.old }
        ensures asked { result.0 ≤ length slots.old }
        ensures count { length slots.new ≡ length slots.old }
        ensures away { AreAway result.0 slots.new }
        ensures kept { (w : ℕ) → w + 1 < result.0
            → slice_index_or slots.new w None ≡ slice_index_or slots.old w None }
        ensures all { OnOk result.1 (result.0 ≡ 0) }
    {
        let mut least = slots.len();
        while least > 0 {
            let worker = least - 1;
            let Some(part) = slots[worker].take() else {
                unreachable!()
            };
            let asked = self.ask_one(turn, worker, part, collector, own);
            if let Err(error) = asked {
                return (least, Err(error));
            }
            least = worker;
        }
        (0, Ok(()))
    }

    /// Does the job of the caller, if it has one, and those that the workers from `least` on have
    /// not begun.
    fn help(&self, own: Option<Job<T>>, least: usize) {
        if let Some(job) = own {
            job.answer(&self.rt, &*self.task);
        }
        for worker in least..self.workers.len() {
            if let Some(job) = self.workers[worker].take_back(&self.rt) {
                job.answer(&self.rt, &*self.task);
            }
        }
    }

    /// Waits until all workers from `least` on have answered.
    fn collect(&self, collector: &mut Collector<T>, least: usize, slots: &mut [Option<T::Part>])
        requires { least ≤ length slots.old }
        ensures same { collector.new ≡ collector.old }
        ensures count { length slots.new ≡ length slots.old }
        ensures kept { (w : ℕ) → IsSome (slice_index_or slots.old w None)
            → slice_index_or slots.new w None ≡ slice_index_or slots.old w None }
        ensures done { (d : Dealt T.Part) → collector.old ≡ Some d
            → AreAnswers T.is_done d least slots.old → AreAnswers T.is_done d least slots.new }
        ensures all { HaveAnswered least slots.new }
    {
        for _ in self.rt.forever() {
            if have_answered(slots, least) {
                return;
            }
            if let Some((worker, done)) = collector.receive(&self.rt) {
                accept::<T>(worker, done, slots);
            }
        }
        unreachable!()
    }

    /// Has all parts done that can be asked for, and waits until those who were asked have
    /// answered. Returns the least number of those.
    fn have_done(
        &self,
        turn: usize,
        slots: &mut [Option<T::Part>],
        collector: &mut Collector<T>,
    ) -> (usize, Result<(), AskError<T>>)
        requires dealt { WereDealt collector.old slots.old }
        requires count { length slots.old ≤ length self.now }
        requires some { All IsSome slots.old }
        ensures count { length slots.new ≡ length slots.old }
        ensures done { (d : Dealt T.Part) → collector.old ≡ Some d
            → AreAnswers T.is_done d result.0 slots.new }
        ensures all { HaveAnswered result.0 slots.new }
        ensures kept { (w : ℕ) → w + 1 < result.0
            → slice_index_or slots.new w None ≡ slice_index_or slots.old w None }
        ensures asked { OnOk result.1 (result.0 ≡ 0) }
    {
        let mut own = None;
        let (least, asked) = self.ask_each(turn, slots, collector, &mut own);
        self.help(own, least);
        self.collect(collector, least, slots);
        (least, asked)
    }

    /// Has each part done, and waits for all of them: at place k stands then what worker k makes of
    /// the part that stood there, and workers without a place are not asked.
    /// Where nobody watches, the caller does the first part, and those that no worker has begun.
    /// Returns an error where it is out of memory or a worker is lost, once all workers that were
    /// asked have answered; the place of one that was not may then be empty. It takes no memory but
    /// in the first run. It may wait.
    pub fn run(&self, turn: usize, parts: &mut Vec<Option<T::Part>>) -> Result<(), PoolError>
        requires all { All IsSome parts.old.items }
        requires count { length parts.old.items ≤ length self.now }
        ensures done { OnOk result (AreDone T.is_done parts.old.items parts.new.items) }
        ensures left { ArePartlyDone T.is_done parts.old.items parts.new.items }
        ensures there { OnOk result (HasAllWorkers self.now) }
        ensures gone { (HasAllWorkers self.now → ⊥)
            → (result ≡ Err WorkerLost) × (parts.new ≡ parts.old) }
        ensures failed { IfErr result IsRunError }
    {
        if !self.has_all_workers() {
            return Err(PoolError::WorkerLost);
        }
        let mut collector = self.deal(parts)?;
        let (_, done) = self.have_done(turn, parts, &mut collector);
        self.collector.set(Some(collector));
        done?;
        Ok(())
    }
}
