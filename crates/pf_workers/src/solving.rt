//! The islands of the workers of a standing crew.

ghost use Rattle.std.specs.Prelude.{◌≡◌, All, IfErr, Ok, OnOk, Some, false, length, map};
ghost use Rattle.std.specs.Arc.{arc_value};
ghost use Rattle.pf_islands.specs.Split.{IsIslandOf};
ghost use Rattle.pf_workers.specs.Solving.{share_of};
ghost use Rattle.pf_step.specs.declared.crew.CrewError.TheVariants.{GateShut};
ghost use Rattle.pf_workers.specs.Work.{AreIslandsDone};
ghost use Rattle.pf_workers.specs.declared.work.Part.TheVariants.{Islands, Solved};

use crate::gate::Gate;
use crate::stack::IslandStack;
use crate::work::{Part, solve};
use pf_shapes::Scene;
use pf_step::CrewError;
use std::alloc::{AllocError, Global};
use std::marker::Model;
use std::mem;
use std::sync::Arc;

/// The scene of a solve, which all workers share, and the islands of one of them.
#[derive(Drop)]
pub(crate) struct Share {
    scene: Arc<Scene, Global>,
    stack: IslandStack,
}

impl Model for Share {
    ghost use Rattle.std.specs.Prelude.{All};
    ghost use Rattle.std.specs.Arc.{arc_value};
    ghost use Rattle.pf_islands.specs.Split.{IsIslandOf};
    ghost use Rattle.pf_workers.specs.Solving.{Share};

    ghost Value = { Share };

    ghost view = { λ s. record { scene = arc_value s.scene; islands = s.stack } };

    ghost invariant = { λ s. All (IsIslandOf (arc_value s.scene)) s.stack };
}

impl Share {
    ghost use Rattle.pf_workers.specs.Solving.{IsSolved};

    /// Passes the gate, and solves the islands.
    pub(crate) fn solve<G: Gate>(
        self,
        gate: &G,
        worker: usize,
        turn: usize,
    ) -> Result<IslandStack, CrewError>
        ensures { IsSolved G.ALWAYS self.scene self.islands result }
    {
        let Share { scene, stack } = self;
        solve(&scene, gate, worker, turn, stack)
    }
}

/// Makes a part of each stack, with the scene.
pub(crate) fn hand_out(
    alloc: Global,
    scene: &Arc<Scene, Global>,
    stacks: &mut [IslandStack],
    parts: &mut Vec<Option<Part>>,
) -> Result<(), AllocError>
    requires { All (All (IsIslandOf (arc_value scene.now))) stacks.old }
    ensures parts { OnOk result (parts.new.items
        ≡ map (λ stack. Some (Islands (share_of (arc_value scene.now) stack))) stacks.old) }
    ensures count { length stacks.new ≡ length stacks.old }
{
    parts.clear();
    for number in 0..stacks.len() {
        let stack = mem::replace(&mut stacks[number], IslandStack::new(alloc));
        let scene = Arc::try_clone(scene)?;
        parts.push(Some(Part::Islands(Share { scene, stack })))?;
    }
    Ok(())
}

/// Takes the solved stacks out of the parts, or returns the error of the least worker that has one.
pub(crate) fn take_in<G: Gate>(
    parts: &mut [Option<Part>],
    stacks: &mut [IslandStack],
) -> Result<(), CrewError>
    requires count { length parts.old ≡ length stacks.old }
    requires done { All (AreIslandsDone G.ALWAYS) parts.old }
    ensures stacks { OnOk result (map (λ stack. Some (Solved (Ok stack))) stacks.new ≡ parts.old) }
    ensures count { length stacks.new ≡ length stacks.old }
    ensures failed { IfErr result (λ error. (error ≡ GateShut) × (G.ALWAYS ≡ false)) }
{
    for number in 0..stacks.len() {
        match parts[number].take() {
            Some(Part::Solved(stack)) => stacks[number] = stack?,
            _ => unreachable!(),
        }
    }
    Ok(())
}
