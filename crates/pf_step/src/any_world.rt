//! Steps of any world, not only of the one that the last step left: in place, of a copy, and on
//! one thread.

ghost use Rattle.std.specs.Prelude.{◌≡◌, ◌≢◌, [], Err, length, false, IfErr, IfOk, IsOk, OnErr, OnOk};
ghost use Rattle.pf_cache.specs.Manifolds.{no_manifolds};
ghost use Rattle.pf_step.specs.declared.crew.StepError.TheVariants.{OutOfMemory};
ghost use Rattle.pf_step.specs.Activity.{islands_of_tick};
ghost use Rattle.pf_step.specs.Stepping.{CallsCrew, IsStep, IsStepOfCopy};

use crate::changes::Changes;
use crate::crew::{Crew, StepError};
use crate::step::step_next;
use crate::work::Work;
use crate::world::World;
use pf_commands::Payload;
use pf_manifold::{Collider, OneThread, SeveralThreads};
use pf_shapes::Scene;
use std::alloc::{AllocError, Global};
use std::thread::Threads;

/// [`step_next`] of any world: what `work` knows of dirty bodies is forgotten first, so that all
/// bodies, and the keys of all contacts, are compared.
pub fn step_by<P: Collider, C: Crew>(
    collider: &P,
    alloc: Global,
    scene: &Scene,
    world: &mut World,
    payloads: &[Payload],
    work: &mut Work,
    crew: &mut C,
) -> Result<Changes, StepError>
    requires can { P.can_collide collider.now }
    requires world { length world.old.bodies ≡ length scene.now.fixtures }
    ensures step { IsStep scene.now world.old payloads.now work.old work.new world.new result }
    ensures crew { let islands = islands_of_tick scene.now world.old payloads.now in
        CallsCrew C.is_called C.may_fail islands crew.old crew.new result }
    ensures no_memory { world.old.bodies ≡ [] → result ≢ Err OutOfMemory }
{
    work.forget_dirty();
    step_next(collider, alloc, scene, world, payloads, work, crew)
}

/// A copy of a world. Out of memory, no contact points are kept any more, as after a step that
/// failed.
fn copy_or_forget(alloc: Global, world: &World, work: &mut Work) -> Result<World, StepError>
    ensures copy { IfOk result (λ copy. copy ≡ world.now) }
    ensures kept { OnOk result (work.new ≡ work.old) }
    ensures forgotten { OnErr result
        (work.new ≡ record work.old { manifolds = no_manifolds; is_known = false }) }
    ensures failed { IfErr result (λ error. error ≡ OutOfMemory) }
{
    match world.try_clone() {
        Ok(copy) => Ok(copy),
        Err(_) => {
            let _none_kept = work.take_manifolds(alloc);
            Err(StepError::OutOfMemory)
        }
    }
}

/// [`step_by`] of a copy of the world, which is returned.
fn step_copy<P: Collider, C: Crew>(
    collider: &P,
    alloc: Global,
    scene: &Scene,
    world: &World,
    payloads: &[Payload],
    work: &mut Work,
    crew: &mut C,
) -> Result<World, StepError>
    requires can { P.can_collide collider.now }
    requires world { length world.now.bodies ≡ length scene.now.fixtures }
    ensures step { IsStepOfCopy scene.now world.now payloads.now work.old work.new result }
    ensures crew { let islands = islands_of_tick scene.now world.now payloads.now in
        CallsCrew C.is_called C.may_fail islands crew.old crew.new result }
{
    let mut next = copy_or_forget(alloc, world, work)?;
    match step_by(collider, alloc, scene, &mut next, payloads, work, crew) {
        Ok(changes) => {
            changes.lend(work);
            Ok(next)
        }
        Err(error) => Err(error),
    }
}

/// The world one tick of 1/64 s after a world, with the payloads of the tick's commands in order of
/// player, then number, on one thread. Counts in `work` the tick and the pairs that cannot reuse
/// kept points, and leaves the points there. An error, which is out of memory, counts nothing, and
/// then no points are kept.
///
/// [`step_next`] changes the world in place, and returns what undoes that.
pub fn step_alone(
    alloc: Global,
    scene: &Scene,
    world: &World,
    payloads: &[Payload],
    work: &mut Work,
) -> Result<World, StepError>
    requires { length world.now.bodies ≡ length scene.now.fixtures }
    ensures step { IsStepOfCopy scene.now world.now payloads.now work.old work.new result }
    ensures failed { IfErr result (λ error. error ≡ OutOfMemory) }
{
    let mut alone = OneThread;
    step_copy(&OneThread, alloc, scene, world, payloads, work, &mut alone)
}

/// As [`step_alone`], with a crew, which is called as by [`step_next`]. If
/// [`pf_manifold::PAIRS_FOR_THREADS`] pairs or more cannot reuse kept points, several threads
/// compute the points.
pub fn step_with<R: Threads + Sync, C: Crew>(
    rt: &R,
    alloc: Global,
    scene: &Scene,
    world: &World,
    payloads: &[Payload],
    work: &mut Work,
    crew: &mut C,
) -> Result<World, StepError>
    requires { length world.now.bodies ≡ length scene.now.fixtures }
    ensures step { IsStepOfCopy scene.now world.now payloads.now work.old work.new result }
    ensures crew { let islands = islands_of_tick scene.now world.now payloads.now in
        CallsCrew C.is_called C.may_fail islands crew.old crew.new result }
{
    step_copy(
        &SeveralThreads { rt },
        alloc,
        scene,
        world,
        payloads,
        work,
        crew,
    )
}

/// [`step_by`] on one thread, without a runtime. Bodies that nothing touches are in no islands.
pub fn step_on_one_thread(
    alloc: Global,
    scene: &Scene,
    world: &mut World,
    payloads: &[Payload],
    work: &mut Work,
) -> Result<Changes, AllocError>
    requires { length world.old.bodies ≡ length scene.now.fixtures }
    ensures step { IsStep scene.now world.old payloads.now work.old work.new world.new result }
    ensures no_memory { world.old.bodies ≡ [] → IsOk result }
{
    match step_by(
        &OneThread,
        alloc,
        scene,
        world,
        payloads,
        work,
        &mut OneThread,
    ) {
        Ok(changes) => Ok(changes),
        Err(StepError::OutOfMemory) => Err(AllocError),
        Err(StepError::Crew(_)) => unreachable!(),
    }
}
