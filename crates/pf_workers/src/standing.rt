//! A crew whose workers are started once.

ghost use Rattle.std.specs.Prelude.{◌≡◌};
ghost use Rattle.pf_workers.specs.Crew.{crew_error};

use crate::MAX_WORKERS;
use crate::colliding::StandingCollider;
use crate::gate::Gate;
use crate::scene::SharedScene;
use crate::solving::{hand_out, take_in};
use crate::stack::{IslandStack, contact_counts, deal, empty_stacks, gather};
use crate::work::{Part, Work};
use pf_islands::Island;
use pf_pool::{Pool, PoolError};
use pf_shapes::Scene;
use pf_step::{Crew, CrewError, solve_all};
use std::alloc::{AllocError, Global};
use std::marker::Model;
use std::mem;
use std::sync::Wait;
use std::thread::Threads;

/// From this many contacts beside the greatest island on, islands are dealt to the workers.
const CONTACTS_FOR_THREADS: usize = 64;

/// Whether threads do not pay: solving all but the greatest island takes no longer than waking the
/// workers.
fn is_little(islands: &[Island]) -> bool {
    let (all, greatest) = contact_counts(islands);
    all.saturating_sub(greatest) < CONTACTS_FOR_THREADS
}

/// The error of a crew whose pool failed.
fn crew_error(error: PoolError) -> CrewError
    ensures { result ≡ crew_error error }
{
    match error {
        PoolError::OutOfMemory => CrewError::OutOfMemory,
        PoolError::NoThread => CrewError::NoThread,
        PoolError::WorkerLost => CrewError::CrewLost,
    }
}

/// A crew that starts its workers once. In a solve each is sent one message, with its islands and
/// the scene, which all share, and sends one answer, with its islands after a tick. Where nobody
/// watches the gate, the caller does the first job, and then those that no worker has begun; there
/// are then no more jobs than islands, and no more than processors, or two.
///
/// Contracts see which workers there still are, the turn of the next solve, and whether the crew is
/// lost.
#[derive(Drop)]
pub struct StandingCrew<R, G: Gate> {
    alloc: Global,
    pool: Pool<R, Work<G>>,
    scene: SharedScene,
    /// The memory for the stacks of the next solve, and for their way to the workers and back.
    stacks: Vec<IslandStack>,
    parts: Vec<Option<Part>>,
    turn: usize,
    lost: bool,
}

impl<R, G: Gate> Model for StandingCrew<R, G> {
    ghost use Rattle.std.specs.Prelude.{◌≡◌, ◌<◌, ◌≤◌, [], All, length};
    ghost use Rattle.pf_workers.specs.Crew.{StandingCrew};
    ghost use Rattle.pf_pool.specs.declared.pool.TheConstants.{MAX_WORKERS};

    ghost Value = { StandingCrew };

    ghost view = { λ c. record { workers = c.pool; turn = c.turn; lost = c.lost } };

    ghost invariant = { λ c. (0 < length c.pool) × (length c.pool ≤ MAX_WORKERS)
        × All (λ stack. stack ≡ []) c.stacks.items };
}

impl<R: Wait, G: Gate> StandingCrew<R, G> {
    ghost use Rattle.std.specs.Prelude.{◌≡◌, ◌<◌, ◌≤◌, [], All, IfErr, IfOk, IsTrue, OnOk, false, length, map, slice_set, true};
    ghost use Rattle.pf_islands.specs.Split.{IsIslandOf};
    ghost use Rattle.pf_solver.specs.Alone.{island_after_tick};
    ghost use Rattle.pf_workers.specs.Crew.{CrewHasAllWorkers, IsStandingError, IsStartFailure, new_crew};

    /// A crew of so many workers, which pass the gate in each solve. Returns an error where it is
    /// out of memory or a thread could not be started; the workers that were started end by
    /// themselves.
    pub fn new(
        rt: R,
        alloc: Global,
        workers: usize,
        gate: G,
    ) -> Result<StandingCrew<R, G>, CrewError>
    where
        R: Threads + Copy + Send + 'static,
        G: Send + Sync + Drop + 'static,
        requires { (0 < workers) × (workers ≤ MAX_WORKERS) }
        ensures crew { IfOk result (λ crew. crew ≡ new_crew workers) }
        ensures failed { IfErr result IsStartFailure }
    {
        match Pool::new(rt, alloc, workers, Work { alloc, gate }) {
            Ok(pool) => Ok(StandingCrew {
                alloc,
                pool,
                scene: SharedScene::new(),
                stacks: Vec::new(alloc),
                parts: Vec::new(alloc),
                turn: 0,
                lost: false,
            }),
            Err(error) => Err(crew_error(error)),
        }
    }

    /// A collider whose workers are those of this crew.
    pub fn collider(&self) -> Result<StandingCollider<R, G>, AllocError>
    where
        R: Copy,
        ensures { IfOk result (λ collider. collider ≡ self.now.workers) }
    {
        Ok(StandingCollider::new(self.alloc, self.pool.another()?))
    }

    /// Tells all workers to end, and joins them. A collider of theirs then computes itself. It may
    /// wait.
    pub fn close(self)
    where
        R: Threads + Copy,
        G: Drop,
    {
        self.pool.close();
    }

    /// Ends a worker, and joins it. Does nothing if that was done before. From then on no solve
    /// succeeds. It may wait.
    pub fn dismiss(&mut self, worker: usize)
    where
        R: Threads,
        requires { worker < length self.old.workers }
        ensures { self.new ≡ record self.old { workers = slice_set self.old.workers worker false } }
    {
        self.pool.dismiss(worker);
    }

    /// Passes the gate for each worker from this one on, and returns whether it was open for all.
    fn pass_from(&self, least: usize, turn: usize) -> bool
        ensures { G.ALWAYS ≡ true → IsTrue result }
    {
        let gate = &self.pool.task().gate;
        let mut is_open = true;
        for number in least..self.pool.size() {
            is_open = gate.pass(number, turn) && is_open;
        }
        is_open
    }

    /// Passes the gate for each worker, and solves the islands on the thread of the caller.
    fn solve_here(
        &self,
        scene: &Scene,
        islands: Vec<Island>,
        turn: usize,
    ) -> Result<Vec<Island>, CrewError>
        requires { All (IsIslandOf scene.now) islands.items }
        ensures solved { IfOk result
            (λ solved. solved.items ≡ map (island_after_tick scene.now) islands.items) }
        ensures failed { IfErr result (IsStandingError G.ALWAYS) }
    {
        if !self.pass_from(0, turn) {
            return Err(CrewError::GateShut);
        }
        let mut islands = islands;
        solve_all(scene, &mut islands);
        Ok(islands)
    }

    /// Lets the workers solve their stacks.
    fn run(
        &mut self,
        scene: &Scene,
        turn: usize,
        stacks: &mut [IslandStack],
    ) -> Result<(), CrewError>
        requires count { length stacks.old ≤ length self.old.workers }
        requires islands { All (All (IsIslandOf scene.now)) stacks.old }
        ensures solved { OnOk result
            (stacks.new ≡ map (map (island_after_tick scene.now)) stacks.old) }
        ensures same { self.new ≡ self.old }
        ensures failed { IfErr result (IsStandingError G.ALWAYS) }
    {
        let shared = self.scene.shared(self.alloc, scene)?;
        hand_out(self.alloc, &shared, stacks, &mut self.parts)?;
        match self.pool.run(turn, &mut self.parts) {
            Ok(()) => take_in::<G>(&mut self.parts, stacks),
            Err(error) => Err(crew_error(error)),
        }
    }

    /// How many stacks pay for so many islands.
    fn stack_count(&self, islands: usize) -> usize
        ensures some { 0 < result }
        ensures most { result ≤ length self.now.workers }
    {
        let most = self.pool.part_count();
        if self.pool.task().gate.is_watched() {
            return most;
        }
        most.min(islands.max(1))
    }

    /// So many stacks without islands, in the memory of the last ones.
    fn take_stacks(&mut self, count: usize) -> Result<Vec<IslandStack>, AllocError>
        ensures count { IfOk result (λ stacks. length stacks.items ≡ count) }
        ensures empty { IfOk result (λ stacks. All (λ stack. stack ≡ []) stacks.items) }
        ensures same { self.new ≡ self.old }
    {
        let stacks = mem::replace(&mut self.stacks, Vec::new(self.alloc));
        if stacks.len() == count {
            return Ok(stacks);
        }
        empty_stacks(self.alloc, count)
    }

    /// Solves each island by the workers, in a turn that was counted. Passes the gate for those
    /// that have no part.
    fn solve_by_workers(
        &mut self,
        scene: &Scene,
        islands: Vec<Island>,
        turn: usize,
    ) -> Result<Vec<Island>, CrewError>
        requires { All (IsIslandOf scene.now) islands.items }
        ensures solved { IfOk result
            (λ solved. solved.items ≡ map (island_after_tick scene.now) islands.items) }
        ensures same { self.new ≡ self.old }
        ensures failed { IfErr result (IsStandingError G.ALWAYS) }
    {
        let stack_count = self.stack_count(islands.len());
        if !self.pass_from(stack_count, turn) {
            return Err(CrewError::GateShut);
        }
        let mut islands = islands;
        let count = islands.len();
        let empty = self.take_stacks(stack_count)?;
        let mut stacks = deal(&mut islands, empty)?;
        self.run(scene, turn, &mut stacks)?;
        self.stacks = gather(stacks, count, &mut islands)?;
        Ok(islands)
    }

    /// Solves each island, in a turn that was counted.
    fn solve_in_turn(
        &mut self,
        scene: &Scene,
        islands: Vec<Island>,
        turn: usize,
    ) -> Result<Vec<Island>, CrewError>
        requires { All (IsIslandOf scene.now) islands.items }
        ensures solved { IfOk result
            (λ solved. solved.items ≡ map (island_after_tick scene.now) islands.items) }
        ensures same { self.new ≡ self.old }
        ensures there { OnOk result (CrewHasAllWorkers self.old) }
        ensures failed { IfErr result (IsStandingError G.ALWAYS) }
    {
        if !self.pool.has_all_workers() {
            return Err(CrewError::CrewLost);
        }
        if is_little(&islands) && !self.pool.task().gate.is_watched() {
            return self.solve_here(scene, islands, turn);
        }
        self.solve_by_workers(scene, islands, turn)
    }
}

impl<R: Wait, G: Gate> Crew for StandingCrew<R, G> {
    ghost use Rattle.std.specs.Prelude.{◌≡◌, false};
    ghost use Rattle.pf_workers.specs.Crew.{CrewHasAllWorkers, FailsStanding, next_turn};

    ghost is_called = { λ before islands after.
        (before.lost ≡ false) × CrewHasAllWorkers before
        × (after ≡ record before { turn = next_turn before.turn }) };

    ghost may_fail = { λ before islands error after. FailsStanding G.ALWAYS before error after };

    fn solve(&mut self, scene: &Scene, islands: Vec<Island>) -> Result<Vec<Island>, CrewError> {
        if self.lost {
            return Err(CrewError::CrewLost);
        }
        let turn = self.turn;
        self.turn = turn.saturating_add(1);
        let result = self.solve_in_turn(scene, islands, turn);
        if let Err(CrewError::CrewLost) = result {
            self.lost = true;
        }
        result
    }
}
