//! A tick: from a world to the world one tick later. Its definition is `specs/Step.antt`.
//! [`step_next`] does the phase Commands, and undoes a tick that fails. `finish_tick` does the
//! phases after it: Points (`points.rt`), Activity (`activity.rt`), and Gravity to Sleep, of
//! islands by the crew (`crew.rt`) and of lone bodies where they stand.

ghost use Rattle.std.specs.Prelude.{◌≡◌, ◌≢◌, ◌<◌, [], Err, All, length, map, IfOk, IsTrue, OnOk};
ghost use Rattle.pf_manifold.specs.Key.{key_of};
ghost use Rattle.pf_cache.specs.ContactsChange.{no_contacts_change};
ghost use Rattle.pf_cache.specs.Manifolds.{kept_touches};
ghost use Rattle.pf_cache.specs.PlacedBodies.{HaveStayed, bodies_of};
ghost use Rattle.pf_islands.specs.Flags.{ListsAwake};
ghost use Rattle.pf_step.specs.declared.crew.StepError.TheVariants.{OutOfMemory};
ghost use Rattle.pf_step.specs.Activity.{islands_of_bodies, islands_of_tick};
ghost use Rattle.pf_step.specs.Changes.{numbers_of};
ghost use Rattle.pf_step.specs.Work.{KnowsWorld};
ghost use Rattle.pf_step.specs.Stepping.{CallsCrew, FinishesTick, IsStep};
ghost use Rattle.pf_step.specs.Step.{collisions_of_bodies, touches_of_scene};

use crate::activity::split_and_note;
use crate::changes::Changes;
use crate::commands::apply_all;
use crate::crew::{Crew, StepError, solve_by};
use crate::points::find_collisions;
use crate::work::Work;
use crate::world::World;
use pf_cache::{Collisions, Manifolds};
use pf_commands::Payload;
use pf_islands::join_back;
use pf_manifold::Collider;
use pf_shapes::Scene;
use pf_solver::solve_lone_bodies;
use std::alloc::Global;

/// Whether fewer than half of the bodies, rounded down, may have moved; a body may be counted
/// twice. Where there are more, making all contacts anew takes less time than noting those that
/// change.
fn few_may_have_moved(dirty: usize, bodies: usize) -> bool {
    dirty < bodies / 2
}

/// Makes of a world the one that is one tick of 1/64 s later, with the payloads of the tick's
/// commands in order of player, then number, and returns what changed. The world has one state for
/// each body of the scene. The collider computes contact points where they are many. The crew is
/// called at most once, with the islands of the tick; if [`Crew::lone_bodies`] allows it, without
/// those of lone bodies, and not at all where none is left. The step counts in `work` the tick and
/// the pairs that cannot reuse kept points, and leaves the points there, with the bodies that may
/// have moved since. An error leaves the world as it was; then no points are kept, and nothing is
/// counted. Takes no memory of its own where there are no bodies.
///
/// The world has to be the one that the last step with `work` left, unless `work` knows nothing of
/// dirty bodies. Only bodies that may have moved or have a command are compared with how they
/// stood. Where it is known how the keys of the points changed since the last ones, contacts whose
/// keys stayed are not looked up. [`step_by`](crate::step_by) has no such condition.
pub fn step_next<P: Collider, C: Crew>(
    collider: &P,
    alloc: Global,
    scene: &Scene,
    world: &mut World,
    payloads: &[Payload],
    work: &mut Work,
    crew: &mut C,
) -> Result<Changes, StepError>
    requires can { P.can_collide collider.now }
    requires world { length world.old.bodies ≡ length scene.now.fixtures }
    requires follows { KnowsWorld scene.now world.old work.old }
    ensures step { IsStep scene.now world.old payloads.now work.old work.new world.new result }
    ensures crew { let islands = islands_of_tick scene.now world.old payloads.now in
        CallsCrew C.is_called C.may_fail islands crew.old crew.new result }
    ensures no_memory { world.old.bodies ≡ [] → result ≢ Err OutOfMemory }
{
    let (kept, is_known) = work.take_manifolds(alloc);
    let mut changes = work.take_changes(alloc);
    // Commands
    changes.note_commanded(&world.bodies, payloads)?;
    let count = world.bodies.as_slice().len();
    work.list_dirty(is_known, count, changes.bodies())?;
    apply_all(scene.fixtures(), &mut world.bodies, payloads);
    // Points to Sleep
    let finished = finish_tick(
        collider,
        alloc,
        scene,
        world,
        kept,
        is_known,
        work,
        crew,
        &mut changes,
    );
    match finished {
        Ok(collisions) => {
            work.end_tick(collisions);
            Ok(changes)
        }
        Err(error) => {
            world.undo(changes);
            Err(error)
        }
    }
}

/// The phases of a tick after Commands, on the world that Commands left. `kept` are the contact
/// points of the last tick; with `is_known` the contacts have their keys, in the same order. Makes
/// the islands of the tick, has them solved by one call of the crew, and puts them back. If the
/// crew allows it, lone bodies are in no island and go from Gravity to Sleep where they stand;
/// then, without islands, the crew is not called. Notes what changes, and lists the noted bodies as
/// those that may have moved. Returns what the narrow phase found. After an error the contacts may
/// have changed, and what changed is noted. Takes no memory of its own where there are no bodies.
fn finish_tick<P: Collider, C: Crew>(
    collider: &P,
    alloc: Global,
    scene: &Scene,
    world: &mut World,
    kept: Manifolds,
    is_known: bool,
    work: &mut Work,
    crew: &mut C,
    changes: &mut Changes,
) -> Result<Collisions, StepError>
    requires can { P.can_collide collider.now }
    requires bodies { length world.old.bodies ≡ length scene.now.fixtures }
    requires known { IsTrue is_known → map (λ c. c.key) world.old.contacts
        ≡ map key_of (kept_touches kept) }
    requires dirty { All (λ number. number < length world.old.bodies) work.old.dirty
        × HaveStayed work.old.dirty (bodies_of kept) scene.now.fixtures world.old.bodies
        × ListsAwake work.old.dirty world.old.bodies }
    requires contacts { changes.old.contacts ≡ no_contacts_change }
    ensures found { IfOk result
        (λ found. found ≡ collisions_of_bodies scene.now.fixtures world.old.bodies kept) }
    ensures touches { IfOk result (λ found. kept_touches found.manifolds
        ≡ touches_of_scene scene.now world.old.bodies) }
    ensures tick { FinishesTick scene.now world.old changes.old.bodies world.new changes.new
        result }
    ensures crew { let islands = islands_of_bodies scene.now world.old.contacts world.old.bodies
        in CallsCrew C.is_called C.may_fail islands crew.old crew.new result }
    ensures awake { OnOk result (ListsAwake (numbers_of changes.new.bodies) world.new.bodies) }
    ensures dirty { OnOk result (work.new.dirty ≡ numbers_of changes.new.bodies) }
    ensures work { work.new ≡ record work.old { dirty = work.new.dirty } }
    ensures no_memory { world.old.bodies ≡ [] → changes.old.bodies ≡ []
        → result ≢ Err OutOfMemory }
{
    // Points
    let may_stay = few_may_have_moved(work.dirty().len(), scene.fixtures().len());
    let found = find_collisions(collider, alloc, scene, &world.bodies, kept, work.dirty())?;
    let manifolds = &found.collisions.manifolds;
    let key_splices = &found.key_splices;
    changes.update_contacts(
        alloc,
        &mut world.contacts,
        manifolds,
        key_splices,
        is_known,
        may_stay,
    )?;
    // Activity
    let lone = crew.lone_bodies();
    let parts = split_and_note(alloc, scene, world, manifolds, work, changes, lone)?;
    // Before the crew is called: a step that is out of memory must not have called it.
    work.set_dirty(changes.bodies())?;
    // Gravity to Sleep
    let solved = solve_by(crew, scene, parts.islands, lone)?;
    solve_lone_bodies(scene, &mut world.bodies, &parts.lone_numbers);
    join_back(&solved, &mut world.bodies, &mut world.contacts);
    work.keep_islands(solved);
    Ok(found.collisions)
}
