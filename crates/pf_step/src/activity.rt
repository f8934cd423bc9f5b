//! The phase Activity: the islands of a tick, and what is noted before they change.

ghost use Rattle.std.specs.Prelude.{◌≡◌, ◌<◌, ◌++◌, [], All, IfOk, IsOk, OnOk, length, map};
ghost use Rattle.pf_manifold.specs.Key.{AreTouches, key_of};
ghost use Rattle.pf_manifold.specs.Touches.{IsTouchOf};
ghost use Rattle.pf_cache.specs.ContactsChange.{contacts_before};
ghost use Rattle.pf_cache.specs.Manifolds.{kept_touches};
ghost use Rattle.pf_islands.specs.Flags.{ListsAwake};
ghost use Rattle.pf_islands.specs.Lone.{lone_numbers, made_islands};
ghost use Rattle.pf_islands.specs.Splitting.{AreParts};
ghost use Rattle.pf_step.specs.Activity.{islands_with};
ghost use Rattle.pf_step.specs.Changes.{bodies_before, changes_of, changes_of_islands, MayChange};
ghost use Rattle.pf_step.specs.Step.{touches_of_scene};

use crate::changes::Changes;
use crate::work::Work;
use crate::world::World;
use pf_cache::Manifolds;
use pf_islands::{LoneBodies, Parts, wake_and_split};
use pf_shapes::Scene;
use std::alloc::{AllocError, Global};

/// The islands of a tick in the world after its phases Commands and Points, whose contacts are
/// already those of the tick, and the awake bodies that are in none. Awake bodies are looked for
/// among those that may have moved, which `work` lists; it also has spare memory for the islands.
/// Notes all these bodies, and the impulses of the islands. After an error some of them may be
/// noted.
#[tactic(auto, using(crate::proofs::Restored::islands_beside))]
pub(crate) fn split_and_note(
    alloc: Global,
    scene: &Scene,
    world: &World,
    manifolds: &Manifolds,
    work: &mut Work,
    changes: &mut Changes,
    lone: LoneBodies,
) -> Result<Parts, AllocError>
    requires bodies { length world.now.bodies ≡ length scene.now.fixtures }
    requires points { kept_touches manifolds.now ≡ touches_of_scene scene.now world.now.bodies }
    requires touches { All (IsTouchOf (length world.now.bodies)) (kept_touches manifolds.now) }
    requires order { AreTouches (touches_of_scene scene.now world.now.bodies) }
    requires keys { map (λ c. c.key) world.now.contacts
        ≡ map key_of (touches_of_scene scene.now world.now.bodies) }
    requires awake { All (λ number. number < length world.now.bodies) work.old.dirty
        × ListsAwake work.old.dirty world.now.bodies }
    ensures parts { IfOk result (AreParts scene.now (length world.now.bodies) lone
        (islands_with scene.now world.now.contacts world.now.bodies)) }
    ensures noted { OnOk result (
        let islands = islands_with scene.now world.now.contacts world.now.bodies in
        changes.new.bodies ≡ changes.old.bodies
        ++ changes_of_islands world.now.bodies (made_islands lone islands)
        ++ changes_of world.now.bodies (lone_numbers lone islands)) }
    ensures impulses { OnOk result
        (All (λ i. MayChange changes.new.contacts i.rows)
        (made_islands lone (islands_with scene.now world.now.contacts world.now.bodies))) }
    ensures same { bodies_before changes.new.bodies world.now.bodies
        ≡ bodies_before changes.old.bodies world.now.bodies }
    ensures same_contacts { contacts_before changes.new.contacts world.now.contacts
        ≡ contacts_before changes.old.contacts world.now.contacts }
    ensures work { work.new ≡ work.old }
    ensures no_memory { world.now.bodies ≡ [] → changes.old.bodies ≡ [] → IsOk result }
{
    let spare = work.take_islands(alloc);
    let parts = wake_and_split(
        alloc,
        spare,
        scene,
        &world.bodies,
        manifolds,
        world.contacts.as_slice(),
        work.dirty(),
        lone,
    )?;
    changes.note_islands(&world.bodies, &parts.islands)?;
    changes.note_bodies(&world.bodies, &parts.lone_numbers)?;
    changes.note_impulses(&world.contacts, &parts.islands)?;
    Ok(parts)
}
