//! Steps of copies of worlds, and an island that is split and solved by itself. Many ticks, and
//! steps that are undone by rollbacks, stand in the stored runs of `runs_texts` and `runs_peers`.

ghost use Rattle.std.specs.Prelude.{◌≡◌, length};

use crate::scenes::scene_of;
use pf_cache::Manifolds;
use pf_islands::{Island, LoneBodies, split};
use pf_manifold::OneThread;
use pf_shapes::Scene;
use pf_solver::Solve;
use pf_step::{StepError, Work, World, step_alone, step_with};
use std::alloc::{AllocError, Global};
use std::test::Fail;
use std::thread::Threads;

/// A circle that falls.
const FALLING: &[u8] = b"gravity 0 -167772160\ncircle 0 16777216 0 16777216 0 0\nend\n";

/// How high the first body of an island stands, and how fast it rises.
fn motion_of(island: &Island) -> [i64; 2] {
    match island.bodies.as_slice().first() {
        Some(body) => [body.position.y.raw(), body.velocity.y.raw()],
        None => [0, 0],
    }
}

/// The same of the only body of a scene, after a tick of its island.
fn motion_after_tick(alloc: Global, scene: &Scene) -> Result<[i64; 2], AllocError> {
    let none = Manifolds::new(alloc);
    let lone = LoneBodies::AreIslands;
    let parts = split(
        alloc,
        Vec::new(alloc),
        scene,
        scene.starts(),
        &none,
        &[],
        lone,
    )?;
    let mut islands = parts.islands;
    match islands.pop() {
        Some(island) => Ok(motion_of(&island.solve(scene))),
        None => Ok([0, 0]),
    }
}

#[test]
fn a_lone_body_is_an_island(rt: HostRuntime) -> Result<(), Fail> {
    let scene = scene_of(rt.alloc(), FALLING)?;
    let motion = motion_after_tick(rt.alloc(), &scene)?;
    assert!(rt; motion == [-40_960, -2_621_440]);
    Ok(())
}

/// Whether steps with and without a crew make the same other world of one, and count alike.
fn are_steps_alike<R: Threads + Sync>(
    rt: &R,
    alloc: Global,
    scene: &Scene,
    world: &World,
) -> Result<bool, StepError>
    requires { length world.now.bodies ≡ length scene.now.fixtures }
{
    let mut work = Work::new(alloc);
    let alone = step_alone(alloc, scene, world, &[], &mut work)?;
    let with = step_with(rt, alloc, scene, world, &[], &mut work, &mut OneThread)?;
    Ok(alone == with && &alone != world && work.meter().ticks == 2)
}

#[test]
fn steps_of_copies_are_alike(rt: HostRuntime) -> Result<(), Fail> {
    let scene = scene_of(rt.alloc(), FALLING)?;
    let world = World::start(rt.alloc(), &scene)?;
    let are_alike = are_steps_alike(&rt, rt.alloc(), &scene, &world)?;
    assert!(rt; are_alike);
    Ok(())
}
