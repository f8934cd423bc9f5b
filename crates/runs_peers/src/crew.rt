//! A crew that solves the islands from the last to the first, counts its calls, and may fail.

ghost use Rattle.std.specs.Prelude.{◌≡◌, All, map};
ghost use Rattle.pf_islands.specs.Split.{IsIslandOf};
ghost use Rattle.pf_solver.specs.Alone.{island_after_tick};
ghost use Rattle.runs_peers.specs.Failure.{failure_at};

use pf_islands::Island;
use pf_shapes::Scene;
use pf_solver::solve_island;
use pf_step::{Crew, CrewError};

/// What a crew was last given.
#[derive(Clone, Copy, Debug)]
pub struct Seen {
    pub islands: usize,
    pub bodies: usize,
    pub contacts: usize,
    /// The number of the least body, of none where there are no islands.
    pub least: Option<usize>,
}

impl Seen {
    const NOTHING: Seen = Seen {
        islands: 0,
        bodies: 0,
        contacts: 0,
        least: None,
    };

    fn of(islands: &[Island]) -> Seen {
        let mut seen = Seen::NOTHING;
        for island in islands {
            seen.islands = seen.islands.saturating_add(1);
            seen.bodies = seen.bodies.saturating_add(island.numbers.len());
            seen.contacts = seen.contacts.saturating_add(island.rows.len());
        }
        if let Some(island) = islands.first() {
            seen.least = island.numbers.as_slice().first().copied();
        }
        seen
    }
}

/// Solves the islands from the last to the first, and counts its calls.
#[derive(Drop)]
pub struct BackwardCrew {
    pub calls: u64,
    pub seen: Seen,
    /// The call that fails, from 1, and its error.
    failure: Option<(u64, CrewError)>,
}

impl BackwardCrew {
    pub fn new(failure: Option<(u64, CrewError)>) -> BackwardCrew {
        BackwardCrew {
            calls: 0,
            seen: Seen::NOTHING,
            failure,
        }
    }

    /// The error of the call that was counted last, if that is the call to fail in.
    fn failure_of_call(&self) -> Option<CrewError>
        ensures { result ≡ failure_at self.now.failure self.now.calls }
    {
        match self.failure {
            Some((call, error)) => {
                if call == self.calls {
                    Some(error)
                } else {
                    None
                }
            }
            None => None,
        }
    }
}

/// Solves each island, the last one first.
fn solve_backward(scene: &Scene, islands: &mut [Island])
    requires { All (IsIslandOf scene.now) islands.old }
    ensures { islands.new ≡ map (island_after_tick scene.now) islands.old }
{
    for done in 0..islands.len() {
        let place = islands.len() - 1 - done;
        let island = &mut islands[place];
        solve_island(scene, island);
    }
}

impl Crew for BackwardCrew {
    ghost use Rattle.std.specs.Prelude.{◌≡◌, None, Some};
    ghost use Rattle.pf_cache.specs.Meter.{saturating_sum};
    ghost use Rattle.runs_peers.specs.Failure.{failure_at};

    ghost is_called = { λ before islands after.
        (after.calls ≡ saturating_sum before.calls 1) × (after.failure ≡ before.failure)
        × (failure_at before.failure after.calls ≡ None) };

    ghost may_fail = { λ before islands error after.
        (after.calls ≡ saturating_sum before.calls 1)
        × (failure_at before.failure after.calls ≡ Some error) };

    fn solve(&mut self, scene: &Scene, islands: Vec<Island>) -> Result<Vec<Island>, CrewError> {
        let mut islands = islands;
        self.calls = self.calls.saturating_add(1);
        self.seen = Seen::of(&islands);
        match self.failure_of_call() {
            Some(error) => Err(error),
            None => {
                solve_backward(scene, &mut islands);
                Ok(islands)
            }
        }
    }
}
