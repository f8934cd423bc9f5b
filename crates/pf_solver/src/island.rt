//! Islands, each solved alone.

ghost use Rattle.std.specs.Prelude.{◌≡◌, All, length};
ghost use Rattle.pf_islands.specs.Split.{IsIslandOf};
ghost use Rattle.pf_rows.specs.Row.{IsEntryOf};
ghost use Rattle.pf_solver.specs.Alone.{island_after_rounds, island_after_tick, island_at_end, prepared_island};

use crate::bodies::STILL_TICKS;
use crate::solve::{move_awake, prepare_list, solve_list};
use pf_islands::{Island, sleep_if_still};
use pf_shapes::Scene;

/// The phases of an island before its rounds: Gravity, and the pre-step of its rows. Takes no
/// memory.
#[inline]
pub fn prepare_island(scene: &Scene, island: &mut Island)
    requires { IsIslandOf scene.now island.old }
    ensures value { island.new ≡ prepared_island scene.now island.old }
    ensures rows { All (λ r. IsEntryOf (length island.new.bodies) r.entry) island.new.rows }
{
    prepare_list(scene, island.bodies.as_mut_slice(), &mut island.rows);
}

/// The rounds of an island, row by row. Takes no memory.
#[inline]
pub fn solve_rounds(island: &mut Island)
    requires { All (λ r. IsEntryOf (length island.old.bodies) r.entry) island.old.rows }
    ensures { island.new ≡ island_after_rounds island.old }
{
    solve_list(island.bodies.as_mut_slice(), &mut island.rows);
}

/// The phases of an island after its rounds: Positions, Timers and Sleep. Takes no memory.
#[inline]
#[tactic(auto, unfolding(crate::specs::Alone::island_at_end))]
pub fn finish_island(island: &mut Island)
    ensures { island.new ≡ island_at_end island.old }
{
    move_awake(island.bodies.as_mut_slice());
    sleep_if_still(island.bodies.as_mut_slice(), STILL_TICKS);
}

/// Takes an island through a tick of 1/64 s, with nothing but the scene beside it: the phases
/// Gravity to Sleep, as Box2D 2.x's `b2Island::Solve`. Takes no memory.
#[inline]
#[tactic(auto, using(crate::proofs::Tick::tick_in_parts))]
pub fn solve_island(scene: &Scene, island: &mut Island)
    requires { IsIslandOf scene.now island.old }
    ensures { island.new ≡ island_after_tick scene.now island.old }
{
    prepare_island(scene, island);
    solve_rounds(island);
    finish_island(island);
}

/// What can be taken through a tick by itself, by value.
pub trait Solve {
    ghost use Rattle.std.specs.Prelude.{◌≡◌};
    ghost use Rattle.pf_shapes.specs.Scene.{Scene};

    /// Whether it is of this scene.
    ghost is_of: { Scene → Self → Type 0 };

    /// What it is after a tick of its own.
    ghost after_tick: { Scene → Self → Self };

    /// Takes it through a tick of 1/64 s, with nothing but the scene beside it. Takes no memory.
    fn solve(self, scene: &Scene) -> Self
        requires { is_of scene.now self }
        ensures { result ≡ after_tick scene.now self };
}

/// As [`solve_island`], which does so in place.
impl Solve for Island {
    ghost is_of = { IsIslandOf };

    ghost after_tick = { island_after_tick };

    fn solve(self, scene: &Scene) -> Island {
        let mut island = self;
        solve_island(scene, &mut island);
        island
    }
}
