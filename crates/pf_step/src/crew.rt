//! Who solves the islands of a tick.

ghost use Rattle.std.specs.Prelude.{◌≡◌, All, IfErr, IfOk, List, OnOk, map};
ghost use Rattle.pf_islands.specs.declared.splitting.LoneBodies.TheVariants.{AreListed};
ghost use Rattle.pf_islands.specs.Lone.{made_islands};
ghost use Rattle.pf_islands.specs.Split.{IsIslandOf, Island};
ghost use Rattle.pf_solver.specs.Alone.{island_after_tick};
ghost use Rattle.pf_step.specs.Crew.{IgnoresIslands};

use pf_batches::solve_islands;
use pf_islands::{Island, LoneBodies};
use pf_manifold::OneThread;
use pf_shapes::Scene;
use std::alloc::{AllocError, AllocFailed};
use thiserror::Error;

/// Why a crew did not solve the islands of a tick.
#[derive(Clone, Copy, Debug, PartialEq, Eq, Error)]
pub enum CrewError {
    /// There was no memory for its work.
    #[error("out of memory")]
    OutOfMemory,
    /// A thread could not be started.
    #[error("a thread could not be started")]
    NoThread,
    /// The gate of a worker was shut.
    #[error("a gate is shut")]
    GateShut,
    /// A worker ended while the crew was in use. The crew can't be used any more.
    #[error("a worker is lost")]
    CrewLost,
}

/// Why a step was not made.
#[derive(Clone, Copy, Debug, PartialEq, Eq, Error)]
pub enum StepError {
    /// There was no memory for contact points, contacts, islands, or what the step changes.
    #[error("out of memory")]
    OutOfMemory,
    /// The crew could not solve the islands.
    #[error("the crew failed: {0}")]
    Crew(CrewError),
}

/// Solves the islands of a tick, in whatever order and with whatever threads.
pub trait Crew {
    ghost use Rattle.std.specs.Prelude.{◌≡◌, ⊤, List, All, IfErr, IfOk, OnOk, map};
    ghost use Rattle.pf_islands.specs.Split.{Island, IsIslandOf};
    ghost use Rattle.pf_solver.specs.Alone.{island_after_tick};
    ghost use Rattle.pf_islands.specs.declared.splitting.LoneBodies.TheVariants.{AreListed};
    ghost use Rattle.pf_step.specs.Crew.{IgnoresIslands};
    ghost use Rattle.pf_step.specs.declared.crew.CrewError.{CrewError};

    /// What a call that solved these islands does to the crew itself. By default it says nothing.
    ghost is_called: { Self → List Island → Self → Type 0 } = { λ _ _ _. ⊤ };

    /// With which errors a call that was to solve these islands may fail, and what it then does to
    /// the crew itself. By default it says nothing.
    ghost may_fail: { Self → List Island → CrewError → Self → Type 0 } = { λ _ _ _ _. ⊤ };

    /// Solves each island alone: answer k is island k after a tick of 1/64 s. The islands are gone
    /// after an error.
    fn solve(&mut self, scene: &Scene, islands: Vec<Island>) -> Result<Vec<Island>, CrewError>
        requires { All (IsIslandOf scene.now) islands.items }
        ensures solved { IfOk result
            (λ solved. solved.items ≡ map (island_after_tick scene.now) islands.items) }
        ensures called { OnOk result (is_called self.old islands.items self.new) }
        ensures failed { IfErr result (λ error. may_fail self.old islands.items error self.new) };

    /// Whether the step may advance bodies that nothing touches by itself. Then the crew is called
    /// with the islands that have contacts, and not at all where there are none. By default it may
    /// not: each lone body is an island.
    fn lone_bodies(&self) -> LoneBodies
        ensures { result ≡ AreListed → IgnoresIslands is_called may_fail self.now }
    {
        LoneBodies::AreIslands
    }
}

/// Solves each island as if it were alone. Their rounds are calculated together, four contacts at a
/// time, where that pays and there is memory for it; the result does not depend on that, and the
/// call cannot fail.
pub fn solve_all(scene: &Scene, islands: &mut [Island])
    requires { All (IsIslandOf scene.now) islands.old }
    ensures { islands.new ≡ map (island_after_tick scene.now) islands.old }
{
    solve_islands(scene, islands);
}

/// The thread of the caller solves the islands, and cannot fail.
impl Crew for OneThread {
    ghost may_fail = { λ _ _ _ _. ⊥ };

    fn solve(&mut self, scene: &Scene, islands: Vec<Island>) -> Result<Vec<Island>, CrewError> {
        let mut islands = islands;
        solve_all(scene, &mut islands);
        Ok(islands)
    }

    fn lone_bodies(&self) -> LoneBodies {
        LoneBodies::AreListed
    }
}

/// Has the islands of a tick solved by a call of the crew, or without one where there are none and
/// the crew allows that. `lone` says whether islands of lone bodies were left out.
pub(crate) fn solve_by<C: Crew>(
    crew: &mut C,
    scene: &Scene,
    islands: Vec<Island>,
    lone: LoneBodies,
) -> Result<Vec<Island>, CrewError>
    requires fit { All (IsIslandOf scene.now) islands.items }
    requires ignores { lone ≡ AreListed → IgnoresIslands C.is_called C.may_fail crew.old }
    ensures solved { IfOk result
        (λ solved. solved.items ≡ map (island_after_tick scene.now) islands.items) }
    ensures called { (all : List Island) → islands.items ≡ made_islands lone all
        → OnOk result (C.is_called crew.old all crew.new) }
    ensures failed { (all : List Island) → islands.items ≡ made_islands lone all
        → IfErr result (λ error. C.may_fail crew.old all error crew.new) }
{
    if islands.is_empty() && lone == LoneBodies::AreListed {
        return Ok(islands);
    }
    crew.solve(scene, islands)
}

impl From<AllocError> for StepError {
    ghost use Rattle.std.specs.Prelude.{◌≡◌};
    ghost use Rattle.pf_step.specs.declared.crew.StepError.TheVariants.{OutOfMemory};

    ghost from_gives = { λ error result. result ≡ OutOfMemory };

    fn from(_: AllocError) -> StepError {
        StepError::OutOfMemory
    }
}

impl From<AllocError> for CrewError {
    ghost use Rattle.std.specs.Prelude.{◌≡◌};
    ghost use Rattle.pf_step.specs.declared.crew.CrewError.TheVariants.{OutOfMemory};

    ghost from_gives = { λ error result. result ≡ OutOfMemory };

    fn from(_: AllocError) -> CrewError {
        CrewError::OutOfMemory
    }
}

impl<T: Drop> From<AllocFailed<T>> for CrewError {
    ghost use Rattle.std.specs.Prelude.{◌≡◌};
    ghost use Rattle.pf_step.specs.declared.crew.CrewError.TheVariants.{OutOfMemory};

    ghost from_gives = { λ error result. result ≡ OutOfMemory };

    fn from(_: AllocFailed<T>) -> CrewError {
        CrewError::OutOfMemory
    }
}

impl From<CrewError> for StepError {
    ghost use Rattle.std.specs.Prelude.{◌≡◌};
    ghost use Rattle.pf_step.specs.declared.crew.StepError.TheVariants.{Crew};

    ghost from_gives = { λ error result. result ≡ Crew error };

    fn from(error: CrewError) -> StepError {
        StepError::Crew(error)
    }
}
