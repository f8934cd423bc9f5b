//! A crew that starts its workers anew for each tick, in a scope.

ghost use Rattle.std.specs.Prelude.{◌≡◌, All, IfErr, OnOk, map};
ghost use Rattle.pf_islands.specs.Split.{IsIslandOf};
ghost use Rattle.pf_solver.specs.Alone.{island_after_tick};
ghost use Rattle.pf_workers.specs.Crew.{IsScopedError};

use crate::MAX_WORKERS;
use crate::gate::{Gate, OpenGate};
use crate::stack::{IslandStack, deal, empty_stacks, gather};
use crate::work::solve;
use pf_islands::Island;
use pf_shapes::Scene;
use pf_step::{Crew, CrewError};
use std::alloc::{AllocError, Global};
use std::marker::{Model, PhantomData};
use std::snapshot::Snapshot;
use std::sync::Wait;
use std::thread::{Promise, Scope, Threads};
use std::{mem, thread};

/// What a worker returns: its islands after a tick of this scene, unless the gate is shut.
#[derive(Drop)]
struct WorkerPromise<G> {
    scene: Snapshot<Scene>,
    stack: Snapshot<IslandStack>,
    gate: PhantomData<G>,
}

impl<G: Gate> Promise<Result<IslandStack, CrewError>> for WorkerPromise<G> {
    ghost use Rattle.pf_workers.specs.Solving.{IsSolved};

    ghost kept_by = { λ p r. IsSolved G.ALWAYS p.scene.value p.stack.value r };
}

/// Starts a worker for each stack, from the last to the first, and joins those that it started.
/// Each stack then holds its islands after a tick. Returns an error where a thread could not be
/// started, and else that of the least worker that failed.
fn run_workers<'s, 'e: 's, R: Threads, G: Gate + Sync>(
    rt: &R,
    alloc: Global,
    scope: &'s Scope<'s, &'e ()>,
    scene: &'e Scene,
    gate: &'e G,
    turn: usize,
    stacks: &mut [IslandStack],
) -> Result<(), CrewError>
    requires { All (All (IsIslandOf scene.now)) stacks.old }
    ensures solved { OnOk result
        (stacks.new ≡ map (map (island_after_tick scene.now)) stacks.old) }
    ensures failed { IfErr result (IsScopedError G.ALWAYS) }
{
    let Some((stack, others)) = stacks.split_last_mut() else {
        return Ok(());
    };
    let worker = others.len();
    let given = mem::replace(stack, IslandStack::new(alloc));
    let promise = WorkerPromise::<G> {
        scene: Snapshot::of(scene),
        stack: Snapshot::of(&given),
        gate: PhantomData,
    };
    let started = scope.spawn_with(promise, move || solve(scene, gate, worker, turn, given));
    let Ok(thread) = started else {
        return Err(CrewError::NoThread);
    };
    let lesser = run_workers(rt, alloc, scope, scene, gate, turn, others);
    let done = thread.join(rt);
    lesser?;
    *stack = done?;
    Ok(())
}

/// A crew that starts its workers in each solve, and joins them. They borrow the scene, and their
/// islands are moved into them and back.
///
/// Contracts see how many workers there are, and the turn of the next solve.
#[derive(Debug, Drop)]
pub struct ScopedCrew<'r, R, G> {
    rt: &'r R,
    alloc: Global,
    workers: usize,
    gate: G,
    turn: usize,
}

impl<'r, R, G> Model for ScopedCrew<'r, R, G> {
    ghost use Rattle.std.specs.Prelude.{◌<◌, ◌≤◌};
    ghost use Rattle.pf_workers.specs.Crew.{ScopedCrew};
    ghost use Rattle.pf_pool.specs.declared.pool.TheConstants.{MAX_WORKERS};

    ghost Value = { ScopedCrew };

    ghost view = { λ c. record { workers = c.workers; turn = c.turn } };

    ghost invariant = { λ c. (0 < c.workers) × (c.workers ≤ MAX_WORKERS) };
}

impl<'r, R: Threads + Wait, G: Gate + Sync> ScopedCrew<'r, R, G> {
    ghost use Rattle.std.specs.Prelude.{◌≡◌, ◌<◌, ◌≤◌, All, IfErr, IfOk, OnOk, map};
    ghost use Rattle.pf_islands.specs.Split.{IsIslandOf};
    ghost use Rattle.pf_solver.specs.Alone.{island_after_tick};
    ghost use Rattle.pf_workers.specs.Crew.{IsScopedError, next_turn};

    /// A crew of so many workers, each of which passes the gate in each solve. Takes no memory.
    pub fn new(rt: &'r R, alloc: Global, workers: usize, gate: G) -> ScopedCrew<'r, R, G>
        requires { (0 < workers) × (workers ≤ MAX_WORKERS) }
        ensures { result ≡ record { workers = workers; turn = 0 } }
    {
        ScopedCrew {
            rt,
            alloc,
            workers,
            gate,
            turn: 0,
        }
    }

    /// Lets the workers solve their stacks in a scope of their own.
    fn run(
        &self,
        scene: &Scene,
        turn: usize,
        stacks: Vec<IslandStack>,
    ) -> Result<Vec<IslandStack>, CrewError>
        requires { All (All (IsIslandOf scene.now)) stacks.items }
        ensures solved { IfOk result
            (λ solved. solved.items ≡ map (map (island_after_tick scene.now)) stacks.items) }
        ensures failed { IfErr result (IsScopedError G.ALWAYS) }
    {
        let rt = self.rt;
        let alloc = self.alloc;
        let gate = &self.gate;
        thread::scope(
            thread::scope_env(),
            rt,
            |scope| -> Result<Vec<IslandStack>, CrewError>
                requires { All (All (IsIslandOf scene.now)) stacks.items }
                ensures solved { IfOk result
                    (λ solved. solved.items
                    ≡ map (map (island_after_tick scene.entry.now)) stacks.items) }
                ensures failed { IfErr result (IsScopedError G.ALWAYS) }
            {
                let mut stacks = stacks;
                run_workers(rt, alloc, scope, scene, gate, turn, &mut stacks)?;
                Ok(stacks)
            },
        )
    }

    /// Solves each island alone: answer k is island k after a tick of 1/64 s. Island k is solved by
    /// worker k mod n. Returns an error where it is out of memory, where a thread could not be
    /// started, and where the gate was shut for a worker. The islands are gone after an error. The
    /// crew can solve again. It may wait.
    pub fn solve(&mut self, scene: &Scene, islands: Vec<Island>) -> Result<Vec<Island>, CrewError>
        requires { All (IsIslandOf scene.now) islands.items }
        ensures solved { IfOk result
            (λ solved. solved.items ≡ map (island_after_tick scene.now) islands.items) }
        ensures turn { self.new ≡ record self.old { turn = next_turn self.old.turn } }
        ensures failed { IfErr result (IsScopedError G.ALWAYS) }
    {
        let turn = self.turn;
        self.turn = turn.saturating_add(1);
        let mut islands = islands;
        let count = islands.len();
        let empty = empty_stacks(self.alloc, self.workers)?;
        let stacks = deal(&mut islands, empty)?;
        let solved = self.run(scene, turn, stacks)?;
        let _empty = gather(solved, count, &mut islands)?;
        Ok(islands)
    }
}

impl<'r, R: Threads + Wait> Crew for ScopedCrew<'r, R, OpenGate> {
    ghost use Rattle.std.specs.Prelude.{◌≡◌, true};
    ghost use Rattle.pf_workers.specs.Crew.{IsScopedError, next_turn};

    ghost is_called = { λ before islands after.
        after ≡ record before { turn = next_turn before.turn } };

    ghost may_fail = { λ before islands error after.
        (after ≡ record before { turn = next_turn before.turn }) × IsScopedError true error };

    fn solve(&mut self, scene: &Scene, islands: Vec<Island>) -> Result<Vec<Island>, CrewError> {
        ScopedCrew::solve(self, scene, islands)
    }
}

/// A crew that borrows its gate, of any type. To contracts it may fail by a shut gate, even where
/// that one lets everybody through.
impl<'r, R: Threads + Wait> Crew for ScopedCrew<'r, R, &'r (dyn Gate + Sync)> {
    ghost use Rattle.std.specs.Prelude.{◌≡◌, false};
    ghost use Rattle.pf_workers.specs.Crew.{IsScopedError, next_turn};

    ghost is_called = { λ before islands after.
        after ≡ record before { turn = next_turn before.turn } };

    ghost may_fail = { λ before islands error after.
        (after ≡ record before { turn = next_turn before.turn }) × IsScopedError false error };

    fn solve(&mut self, scene: &Scene, islands: Vec<Island>) -> Result<Vec<Island>, CrewError> {
        ScopedCrew::solve(self, scene, islands)
    }
}
