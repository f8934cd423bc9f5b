//! Islands solved together, against each of them alone: ticks of the same world by two crews.

mod checks;
mod numbers;
mod rows;
mod steps;

ghost use Rattle.std.specs.Prelude.{◌≡◌, All, IfOk, length, map};
ghost use Rattle.pf_islands.specs.Split.{IsIslandOf};
ghost use Rattle.pf_solver.specs.Alone.{island_after_tick};

use pf_batches::{laws, solve_islands};
use pf_commands::Payload;
use pf_islands::Island;
use pf_manifold::OneThread;
use pf_num::Fx;
use pf_shapes::Scene;
use pf_solver::solve_island;
use pf_step::{Crew, CrewError, StepError, Work, World, step_by};
use std::alloc::Global;
use std::test::Fail;

/// A floor, and on it three stacks of two boxes.
const STACKS: &[u8] = b"gravity 0 -167772160\n\
box - 0 8388608 1677721600 16777216 0 -16777216 1 0\n\
box - 16777216 8388608 8388608 8388608 0 8304722 1 0\n\
box - 16777216 8388608 8388608 8388608 1677721 24998052 1 0\n\
box - 33554432 8388608 8388608 8388608 67108864 8304722 1 0\n\
box - 16777216 8388608 8388608 8388608 67108864 24998052 1 0\n\
box - 16777216 1677721 8388608 8388608 134217728 8304722 1 0\n\
box - 8388608 8388608 8388608 8388608 132540006 24998052 1 0\nend\n";

/// A floor, and on it a pyramid of fifteen boxes: its last levels have few rows.
const PYRAMID: &[u8] = b"gravity 0 -167772160\n\
box - 0 8388608 1677721600 16777216 0 -16777216 1 0\n\
box - 16777216 8388608 8388608 8388608 -33554432 8304721 1 0\n\
box - 16777216 8388608 8388608 8388608 -16777216 8304721 1 0\n\
box - 16777216 8388608 8388608 8388608 0 8304721 1 0\n\
box - 16777216 8388608 8388608 8388608 16777216 8304721 1 0\n\
box - 16777216 8388608 8388608 8388608 33554432 8304721 1 0\n\
box - 16777216 8388608 8388608 8388608 -25165824 24914165 1 0\n\
box - 16777216 8388608 8388608 8388608 -8388608 24914165 1 0\n\
box - 16777216 8388608 8388608 8388608 8388608 24914165 1 0\n\
box - 16777216 8388608 8388608 8388608 25165824 24914165 1 0\n\
box - 16777216 8388608 8388608 8388608 -16777216 41523609 1 0\n\
box - 16777216 8388608 8388608 8388608 0 41523609 1 0\n\
box - 16777216 8388608 8388608 8388608 16777216 41523609 1 0\n\
box - 16777216 8388608 8388608 8388608 -8388608 58133053 1 0\n\
box - 16777216 8388608 8388608 8388608 8388608 58133053 1 0\n\
box - 16777216 8388608 8388608 8388608 0 74742497 1 0\nend\n";

/// A circle on a floor.
const CIRCLE: &[u8] = b"gravity 0 -167772160\n\
box - 0 8388608 1677721600 16777216 0 -16777216 1 0\n\
circle - 16777216 8388608 8388608 0 8304722\nend\n";

/// Solves islands together, and notes whether it did so in lanes, and with rounds that overlap.
#[derive(Drop)]
struct Together {
    in_lanes: bool,
    overlap: bool,
}

/// Whether the first island has the velocity that was calculated for it in lanes.
fn are_from_lanes(islands: &[Island]) -> bool {
    let Some(island) = islands.first() else {
        return false;
    };
    let Some(numbers) = &island.workspace.unknowns else {
        return false;
    };
    match (numbers.velocities().first(), island.bodies.first()) {
        (Some(whole), Some(body)) => {
            whole.velocity() == body.velocity && whole.spin() == body.spin
        }
        _ => false,
    }
}

/// Whether levels across two rounds were loaded.
fn have_overlap(islands: &[Island]) -> bool {
    match islands.first() {
        Some(island) => !island.workspace.overlap_bundles.is_empty(),
        None => false,
    }
}

impl Crew for Together {
    fn solve(&mut self, scene: &Scene, islands: Vec<Island>) -> Result<Vec<Island>, CrewError> {
        let mut islands = islands;
        solve_islands(scene, &mut islands);
        self.in_lanes = are_from_lanes(&islands);
        self.overlap = have_overlap(&islands);
        Ok(islands)
    }
}

/// Solves one island after the other.
#[derive(Drop)]
struct Alone;

/// Each island after its tick.
fn solve_each(scene: &Scene, islands: &mut [Island])
    requires { All (IsIslandOf scene.now) islands.old }
    ensures { islands.new ≡ map (island_after_tick scene.now) islands.old }
{
    for island in islands.iter_mut() {
        solve_island(scene, island);
    }
}

impl Crew for Alone {
    fn solve(&mut self, scene: &Scene, islands: Vec<Island>) -> Result<Vec<Island>, CrewError> {
        let mut islands = islands;
        solve_each(scene, &mut islands);
        Ok(islands)
    }
}

/// The world some ticks after the start of a scene. The commands are those of the first tick.
fn world_after<C: Crew>(
    alloc: Global,
    scene: &Scene,
    payloads: &[Payload],
    ticks: u32,
    crew: &mut C,
) -> Result<World, StepError>
    ensures { IfOk result (λ world. length world.bodies ≡ length scene.now.fixtures) }
{
    let mut work = Work::new(alloc);
    let mut payloads = payloads;
    let mut world = World::start(alloc, scene)?;
    for _ in 0..ticks {
        let changes = step_by(
            &OneThread, alloc, scene, &mut world, payloads, &mut work, crew,
        )?;
        changes.lend(&mut work);
        payloads = &[];
    }
    Ok(world)
}

/// Whether both crews make the same world of a scene; and, where islands are solved together,
/// whether the rounds of its last tick were in lanes, and whether rounds of a tick overlapped.
pub(crate) fn compare(
    alloc: Global,
    text: &[u8],
    payloads: &[Payload],
    ticks: u32,
) -> Result<[bool; 3], Fail> {
    let scene = Scene::read(alloc, text)?;
    let mut together = Together {
        in_lanes: false,
        overlap: false,
    };
    let one = world_after(alloc, &scene, payloads, ticks, &mut together)?;
    let other = world_after(alloc, &scene, payloads, ticks, &mut Alone)?;
    Ok([one == other, together.in_lanes, together.overlap])
}

#[test]
fn stacks_are_solved_in_lanes(rt: HostRuntime) -> Result<(), Fail> {
    for ticks in 1..5 {
        let found = compare(rt.alloc(), STACKS, &[], ticks)?;
        assert!(rt; found == [true, true, false], "after {ticks} ticks");
    }
    Ok(())
}

#[test]
fn rounds_of_a_pyramid_overlap(rt: HostRuntime) -> Result<(), Fail> {
    for ticks in 2..5 {
        let found = compare(rt.alloc(), PYRAMID, &[], ticks)?;
        assert!(rt; found == [true, true, true], "after {ticks} ticks");
    }
    Ok(())
}

#[test]
fn laws_are_called(_rt: HostRuntime) {
    laws::unknowns_are_solved_as_the_batch();
    laws::named_limits();
}

/// So many lengths a second times a mass of 1.
fn impulse(speed: i32) -> Fx {
    Fx::from_raw(i64::from(speed) * 16_777_216).unwrap_or(Fx::ZERO)
}

#[test]
fn fast_bodies_are_solved_by_scalars(rt: HostRuntime) -> Result<(), Fail> {
    // The first body has a mass of 1, and the third one of 2. A row with a speed of 100 lengths a
    // second is solved by scalars, beside others in lanes. With 2^26 no island is, and with almost
    // 2^25 downwards the rounds in lanes end early.
    for (body, x, y, in_lanes) in [
        (1, 100, 0, true),
        (1, 67_108_864, 0, false),
        (3, 0, -67_108_000, false),
    ] {
        let push = Payload::Push {
            body,
            x: impulse(x),
            y: impulse(y),
        };
        let found = compare(rt.alloc(), STACKS, &[push], 1)?;
        assert!(rt; found == [true, in_lanes, false], "a push by {x} {y}");
    }
    Ok(())
}

#[test]
fn one_contact_is_solved_alone(rt: HostRuntime) -> Result<(), Fail> {
    let found = compare(rt.alloc(), CIRCLE, &[], 3)?;
    assert!(rt; found == [true, false, false]);
    Ok(())
}
