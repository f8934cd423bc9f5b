//! The islands of the workers: dealt in turn, island k to worker k mod n.

ghost use Rattle.std.specs.Prelude.{◌≡◌, ◌<◌, ◌++◌, [], All, IfOk, List, OnOk, length};
ghost use Rattle.pf_islands.specs.Split.{Island};
ghost use Rattle.pf_workers.specs.Dealing.{AreShares};

use pf_islands::Island;
use pf_shapes::Scene;
use pf_step::solve_all;
use std::alloc::{AllocError, Global};
use std::marker::Model;

/// The islands of a worker: its first island is on top.
#[derive(Debug, Drop)]
pub(crate) struct IslandStack {
    islands: Vec<Island>,
}

impl Model for IslandStack {
    ghost use Rattle.std.specs.Prelude.{List};
    ghost use Rattle.pf_islands.specs.Split.{Island};

    ghost Value = { List Island };

    ghost view = { λ s. s.islands.items };
}

impl IslandStack {
    ghost use Rattle.std.specs.Prelude.{◌≡◌, ◌+◌, ◌<◌, ◌++◌, ◌∷◌, [], All, IfOk, IfSome, IsNone, OnOk, length, map};
    ghost use Rattle.pf_islands.specs.Split.{IsIslandOf};
    ghost use Rattle.pf_solver.specs.Alone.{island_after_tick};

    /// Without islands. Takes no memory.
    pub(crate) fn new(alloc: Global) -> IslandStack
        ensures { result ≡ [] }
    {
        IslandStack {
            islands: Vec::new(alloc),
        }
    }

    /// Puts an island on top. An error loses it.
    fn push(&mut self, island: Island) -> Result<(), AllocError>
        ensures { OnOk result (self.new ≡ self.old ++ island ∷ []) }
    {
        self.islands.push(island)?;
        Ok(())
    }

    /// Takes the first island, which is on top.
    fn pop(&mut self) -> Option<Island>
        ensures some { IfSome result (λ island. self.old ≡ self.new ++ island ∷ []) }
        ensures none { IsNone result → self.old ≡ [] }
    {
        self.islands.pop()
    }

    /// Solves each island. Cannot fail: where there is no memory to solve them together, each is
    /// solved by itself.
    pub(crate) fn solve(&mut self, scene: &Scene)
        requires { All (IsIslandOf scene.now) self.old }
        ensures { self.new ≡ map (island_after_tick scene.now) self.old }
    {
        solve_all(scene, &mut self.islands);
    }
}

/// How many contacts these islands have, and how many the greatest of them has. They saturate.
pub(crate) fn contact_counts(islands: &[Island]) -> (usize, usize) {
    let (mut all, mut greatest) = (0usize, 0);
    for island in islands {
        let count = island.rows.len();
        all = count.saturating_add(all);
        greatest = count.max(greatest);
    }
    (all, greatest)
}

/// So many stacks without islands.
pub(crate) fn empty_stacks(alloc: Global, count: usize) -> Result<Vec<IslandStack>, AllocError>
    ensures count { IfOk result (λ stacks. length stacks.items ≡ count) }
    ensures empty { IfOk result (λ stacks. All (λ stack. stack ≡ []) stacks.items) }
{
    let mut stacks = Vec::with_capacity(alloc, count)?;
    for _made in 0..count {
        stacks.push(IslandStack::new(alloc))?;
    }
    Ok(stacks)
}

/// Deals islands to the workers, whose stacks are empty.
pub(crate) fn deal(
    islands: &mut Vec<Island>,
    stacks: Vec<IslandStack>,
) -> Result<Vec<IslandStack>, AllocError>
    requires some { 0 < length stacks.items }
    requires empty { All (λ stack. stack ≡ []) stacks.items }
    ensures shares { IfOk result (λ dealt. AreShares islands.old.items dealt.items) }
    ensures count { IfOk result (λ dealt. length dealt.items ≡ length stacks.items) }
    ensures rest { OnOk result (islands.new.items ≡ []) }
{
    let mut stacks = stacks;
    while let Some(island) = islands.pop() {
        let worker = islands.len() % stacks.len();
        stacks[worker].push(island)?;
    }
    Ok(stacks)
}

/// Puts so many islands of the workers behind those of a list, in the order in which they were
/// dealt. Returns the stacks, which are empty then.
pub(crate) fn gather(
    stacks: Vec<IslandStack>,
    count: usize,
    islands: &mut Vec<Island>,
) -> Result<Vec<IslandStack>, AllocError>
    requires { 0 < length stacks.items }
    ensures gathered { (all : List Island) → AreShares all stacks.items → length all ≡ count
        → OnOk result (islands.new.items ≡ islands.old.items ++ all) }
    ensures count { IfOk result (λ rest. length rest.items ≡ length stacks.items) }
    ensures empty { (all : List Island) → AreShares all stacks.items → length all ≡ count
        → IfOk result (λ rest. All (λ stack. stack ≡ []) rest.items) }
{
    let mut stacks = stacks;
    for number in 0..count {
        let worker = number % stacks.len();
        match stacks[worker].pop() {
            Some(island) => islands.push(island)?,
            None => return Ok(stacks),
        }
    }
    Ok(stacks)
}
