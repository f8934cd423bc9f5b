//! What the workers of a pool do: they solve islands, and compute contact points.

ghost use Rattle.std.specs.Prelude.{All};
ghost use Rattle.pf_islands.specs.Split.{IsIslandOf};
ghost use Rattle.pf_workers.specs.Solving.{IsSolved};

use crate::colliding::Chunk;
use crate::gate::Gate;
use crate::solving::Share;
use crate::stack::IslandStack;
use pf_manifold::Touch;
use pf_pool::Task;
use pf_shapes::Scene;
use pf_step::CrewError;
use std::alloc::{AllocError, Global};

/// Passes the gate, and solves the islands of a worker.
pub(crate) fn solve<G: Gate>(
    scene: &Scene,
    gate: &G,
    worker: usize,
    turn: usize,
    stack: IslandStack,
) -> Result<IslandStack, CrewError>
    requires { All (IsIslandOf scene.now) stack }
    ensures { IsSolved G.ALWAYS scene.now stack result }
{
    if !gate.pass(worker, turn) {
        return Err(CrewError::GateShut);
    }
    let mut stack = stack;
    stack.solve(scene);
    Ok(stack)
}

/// What a worker is asked to do, and what it comes back as.
#[derive(Drop)]
pub(crate) enum Part {
    /// Islands that are to be solved.
    Islands(Share),
    /// The islands after a tick, or that the gate was shut.
    Solved(Result<IslandStack, CrewError>),
    /// Pairs whose contact points are to be computed.
    Pairs(Chunk),
    /// The contact points, or out of memory.
    Found(Result<Vec<Touch>, AllocError>),
}

/// The work of a crew with this gate.
#[derive(Drop)]
pub(crate) struct Work<G: Gate> {
    pub(crate) alloc: Global,
    pub(crate) gate: G,
}

impl<G: Gate> Task for Work<G> {
    ghost use Rattle.pf_workers.specs.Work.{IsDone};

    type Part = Part;

    ghost is_done = { IsDone G.ALWAYS };

    fn run(&self, worker: usize, turn: usize, part: Part) -> Part {
        match part {
            Part::Islands(share) => Part::Solved(share.solve(&self.gate, worker, turn)),
            Part::Pairs(chunk) => Part::Found(chunk.collide(self.alloc)),
            done => done,
        }
    }

    fn is_watched(&self) -> bool {
        self.gate.is_watched()
    }
}
