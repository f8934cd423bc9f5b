//! Standing workers that solve islands and compute contact points.

use crate::colliding::StandingCollider;
use crate::gate::Gate;
use crate::standing::StandingCrew;
use pf_step::CrewError;
use std::alloc::Global;
use std::sync::Wait;
use std::thread::Threads;

/// A crew, and a collider with the same workers. The crew ends them.
#[derive(Drop)]
pub struct Workers<R, G: Gate> {
    pub crew: StandingCrew<R, G>,
    pub collider: StandingCollider<R, G>,
}

impl<R: Wait, G: Gate> Workers<R, G> {
    ghost use Rattle.std.specs.Prelude.{◌≡◌, ◌<◌, ◌≤◌, IfErr, IfOk};
    ghost use Rattle.pf_pool.specs.declared.pool.TheConstants.{MAX_WORKERS};
    ghost use Rattle.pf_workers.specs.Crew.{IsStartFailure, new_crew};

    /// Starts so many workers, which pass the gate in each solve. Returns an error where it is out
    /// of memory or a thread could not be started; the workers that were started end by themselves.
    pub fn start(rt: R, alloc: Global, workers: usize, gate: G) -> Result<Workers<R, G>, CrewError>
    where
        R: Threads + Copy + Send + 'static,
        G: Send + Sync + Drop + 'static,
        requires { (0 < workers) × (workers ≤ MAX_WORKERS) }
        ensures crew { IfOk result (λ made. made.crew ≡ new_crew workers) }
        ensures collider { IfOk result (λ made. made.collider ≡ (new_crew workers).workers) }
        ensures failed { IfErr result IsStartFailure }
    {
        let crew = StandingCrew::new(rt, alloc, workers, gate)?;
        let collider = crew.collider()?;
        Ok(Workers { crew, collider })
    }
}
