//! Crews of threads.

ghost use Rattle.std.specs.Prelude.{◌≡◌, ◌<◌, ◌≤◌, length};
ghost use Rattle.pf_pool.specs.declared.pool.TheConstants.{MAX_WORKERS};

use crate::plan::{GateKind, Life, Plan};
use anyhow::{Result, bail};
use pf_islands::Island;
use pf_rollback::PeerCore;
use pf_shapes::Scene;
use pf_step::{Crew, CrewError, StepError};
use pf_workers::{Gate, MAX_WORKERS, OpenGate, ScopedCrew, StandingCollider, StandingCrew};
use std::alloc::{AllocError, Global};
use std::mem;
use std::sync::{Arc, Wait};
use std::thread::Threads;
use tests_gates::{Book, TrialGate};

/// What starts threads, and waits for them.
pub trait Handle: Threads + Wait + Sync + Copy + Send + 'static {}

impl<R: Threads + Wait + Sync + Copy + Send + 'static> Handle for R {}

/// A crew that starts its workers in each solve, with a gate of its own that keeps a book:
/// [`ScopedCrew`] is a crew only with the open gate, or with one that it borrows.
#[derive(Debug, Drop)]
pub struct Scoped<'r, R, const IS_OPEN: bool> {
    crew: ScopedCrew<'r, R, TrialGate<IS_OPEN>>,
}

impl<'r, R: Threads + Wait, const IS_OPEN: bool> Crew for Scoped<'r, R, IS_OPEN> {
    fn solve(&mut self, scene: &Scene, islands: Vec<Island>) -> Result<Vec<Island>, CrewError> {
        self.crew.solve(scene, islands)
    }
}

/// A crew whose workers are started once, and how many it has.
#[derive(Drop)]
struct Counted<R, G: Gate> {
    crew: StandingCrew<R, G>,
    workers: usize,
    ghost counted: { length crew.workers ≡ workers },
}

impl<R: Wait, G: Gate> Crew for Counted<R, G> {
    fn solve(&mut self, scene: &Scene, islands: Vec<Island>) -> Result<Vec<Island>, CrewError> {
        self.crew.solve(scene, islands)
    }
}

/// Such a crew, and a collider whose workers are the crew's.
#[derive(Drop)]
pub struct Standing<R, G: Gate> {
    crew: Counted<R, G>,
    collider: StandingCollider<R, G>,
}

impl<R: Handle, G: Gate + Send + Sync + Drop + 'static> Standing<R, G> {
    fn new(rt: &R, alloc: Global, workers: usize, gate: G) -> Result<Standing<R, G>, CrewError>
        requires { (0 < workers) × (workers ≤ MAX_WORKERS) }
    {
        let crew = StandingCrew::new(*rt, alloc, workers, gate)?;
        let collider = crew.collider()?;
        let crew = Counted { crew, workers };
        Ok(Standing { crew, collider })
    }

    /// Settles a peer.
    fn settle(&mut self, alloc: Global, peer: &mut PeerCore) -> Result<u32, StepError> {
        peer.settle_by(&self.collider, alloc, &mut self.crew)
    }

    /// Ends a worker, if there is one of this number.
    fn dismiss(&mut self, worker: usize) {
        if worker < self.crew.workers {
            self.crew.crew.dismiss(worker);
        }
    }

    fn close(self) {
        let Counted { crew, workers: _ } = self.crew;
        crew.close();
    }
}

/// A crew of threads, by when it starts its workers and by the type of its gate.
#[derive(Drop)]
enum Kind<'r, R> {
    Scoped(ScopedCrew<'r, R, OpenGate>),
    ScopedTrial(Scoped<'r, R, false>),
    ScopedNoting(Scoped<'r, R, true>),
    Standing(Standing<R, OpenGate>),
    StandingTrial(Standing<R, TrialGate<false>>),
    StandingNoting(Standing<R, TrialGate<true>>),
}

impl<'r, R: Handle> Kind<'r, R> {
    /// A crew that starts its workers in each solve.
    fn scoped(rt: &'r R, alloc: Global, plan: Plan, book: Arc<Book, Global>) -> Kind<'r, R> {
        let workers = plan.workers;
        match plan.gate {
            GateKind::Open => Kind::Scoped(ScopedCrew::new(rt, alloc, workers, OpenGate)),
            GateKind::Ruled(rule) => {
                let gate = TrialGate::new(rule, book);
                Kind::ScopedTrial(Scoped {
                    crew: ScopedCrew::new(rt, alloc, workers, gate),
                })
            }
            GateKind::Noting(rule) => {
                let gate = TrialGate::new(rule, book);
                Kind::ScopedNoting(Scoped {
                    crew: ScopedCrew::new(rt, alloc, workers, gate),
                })
            }
        }
    }

    /// A crew that starts its workers now.
    fn standing(
        rt: &'r R,
        alloc: Global,
        plan: Plan,
        book: Arc<Book, Global>,
    ) -> Result<Kind<'r, R>, CrewError> {
        let workers = plan.workers;
        Ok(match plan.gate {
            GateKind::Open => Kind::Standing(Standing::new(rt, alloc, workers, OpenGate)?),
            GateKind::Ruled(rule) => {
                let gate = TrialGate::new(rule, book);
                Kind::StandingTrial(Standing::new(rt, alloc, workers, gate)?)
            }
            GateKind::Noting(rule) => {
                let gate = TrialGate::new(rule, book);
                Kind::StandingNoting(Standing::new(rt, alloc, workers, gate)?)
            }
        })
    }
}

/// A crew of threads, and the book that its gate keeps, unless that is the open gate.
#[derive(Drop)]
pub struct ThreadCrew<'r, R> {
    kind: Kind<'r, R>,
    book: Arc<Book, Global>,
}

impl<'r, R: Handle> ThreadCrew<'r, R> {
    pub fn new(rt: &'r R, alloc: Global, plan: Plan) -> Result<ThreadCrew<'r, R>, CrewError> {
        let book = Book::new(alloc, plan.workers)?;
        let book = Arc::new(alloc, book)?;
        let own = Arc::try_clone(&book)?;
        let kind = match plan.life {
            Life::Scoped => Kind::scoped(rt, alloc, plan, own),
            Life::Standing => Kind::standing(rt, alloc, plan, own)?,
        };
        Ok(ThreadCrew { kind, book })
    }

    /// Settles a peer with this crew.
    fn settle(&mut self, rt: &R, alloc: Global, peer: &mut PeerCore) -> Result<u32, StepError> {
        match &mut self.kind {
            Kind::Scoped(crew) => peer.settle_with(rt, alloc, crew),
            Kind::ScopedTrial(crew) => peer.settle_with(rt, alloc, crew),
            Kind::ScopedNoting(crew) => peer.settle_with(rt, alloc, crew),
            Kind::Standing(crew) => crew.settle(alloc, peer),
            Kind::StandingTrial(crew) => crew.settle(alloc, peer),
            Kind::StandingNoting(crew) => crew.settle(alloc, peer),
        }
    }

    /// Ends a worker of a crew that started it once.
    fn dismiss(&mut self, worker: usize) {
        match &mut self.kind {
            Kind::Standing(crew) => crew.dismiss(worker),
            Kind::StandingTrial(crew) => crew.dismiss(worker),
            Kind::StandingNoting(crew) => crew.dismiss(worker),
            _ => (),
        }
    }

    /// Ends the workers that were started once.
    fn close(self) {
        let ThreadCrew { kind, book: _ } = self;
        match kind {
            Kind::Standing(crew) => crew.close(),
            Kind::StandingTrial(crew) => crew.close(),
            Kind::StandingNoting(crew) => crew.close(),
            _ => (),
        }
    }

    /// What the gate has noted.
    fn noted(&self, alloc: Global) -> Result<String, AllocError> {
        match &self.kind {
            Kind::Scoped(_) | Kind::Standing(_) => Ok(String::new(alloc)),
            _ => self.book.text(alloc),
        }
    }
}

/// Puts a crew in the place of the one that a peer has.
fn replace<'r, R: Handle>(crew: &mut Option<ThreadCrew<'r, R>>, made: Option<ThreadCrew<'r, R>>) {
    if let Some(old) = mem::replace(crew, made) {
        old.close();
    }
}

/// Makes the crew of a peer, in place of the one that it has.
pub fn make<'r, R: Handle>(
    rt: &'r R,
    alloc: Global,
    crew: &mut Option<ThreadCrew<'r, R>>,
    plan: Plan,
) -> Result<String> {
    let workers = plan.workers;
    match ThreadCrew::new(rt, alloc, plan) {
        Ok(made) => {
            replace(crew, Some(made));
            Ok(format!(in alloc; "crews {workers}")?)
        }
        Err(error) => {
            replace(crew, None);
            Ok(format!(in alloc; "crews {error:?}")?)
        }
    }
}

/// Settles a peer with its crew. The line ends with what the gate has noted.
pub fn settle<'r, R: Handle>(
    rt: &'r R,
    alloc: Global,
    peer: &mut PeerCore,
    crew: &mut Option<ThreadCrew<'r, R>>,
) -> Result<String> {
    let Some(crew) = crew else {
        return Ok(format!(in alloc; "threads none")?);
    };
    let outcome = crew.settle(rt, alloc, peer);
    let noted = crew.noted(alloc)?;
    match outcome {
        Ok(reached) => Ok(format!(in alloc; "threads {reached}{noted}")?),
        Err(StepError::Crew(error)) => Ok(format!(in alloc; "threads {error:?}{noted}")?),
        Err(StepError::OutOfMemory) => bail!("out of memory"),
    }
}

/// Ends a worker of a peer's crew.
pub fn dismiss<'r, R: Handle>(
    alloc: Global,
    crew: &mut Option<ThreadCrew<'r, R>>,
    worker: usize,
) -> Result<String> {
    if let Some(crew) = crew {
        crew.dismiss(worker);
    }
    Ok(format!(in alloc; "dismiss {worker}")?)
}

/// Ends a peer's crew.
pub fn close<'r, R: Handle>(alloc: Global, crew: &mut Option<ThreadCrew<'r, R>>) -> Result<String> {
    if let Some(crew) = crew.take() {
        crew.close();
    }
    Ok(format!(in alloc; "close")?)
}
