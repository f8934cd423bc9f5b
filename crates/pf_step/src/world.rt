//! Worlds: the state of all bodies of a scene at one tick, and their contacts.

ghost use Rattle.std.specs.Prelude.{◌≡◌, [], IfOk, IsOk};

use crate::changes::{Changes, undo_bodies};
use pf_cache::Contacts;
use pf_shapes::{BodyState, Scene};
use std::alloc::{AllocError, Global};
use std::marker::Model;

/// The state of each body of a scene at one tick, static bodies among them, in order of their
/// numbers; and the contacts of the last tick with their accumulated impulses.
#[derive(Debug, Drop)]
pub struct World {
    pub(crate) bodies: Vec<BodyState>,
    pub(crate) contacts: Contacts,
}

impl Model for World {
    ghost use Rattle.pf_step.specs.World.{World};

    ghost Value = { World };

    ghost view = { λ w. record { bodies = w.bodies.items; contacts = w.contacts } };
}

/// A copy of bodies. Takes no memory where there are none.
pub(crate) fn copy_of(alloc: Global, bodies: &[BodyState]) -> Result<Vec<BodyState>, AllocError>
    ensures items { IfOk result (λ copy. copy.items ≡ bodies.now) }
    ensures no_memory { bodies.now ≡ [] → IsOk result }
{
    if bodies.is_empty() {
        return Ok(Vec::new(alloc));
    }
    Vec::from_slice(alloc, bodies)
}

impl World {
    ghost use Rattle.std.specs.Prelude.{◌≡◌, [], length, IfOk, IsOk, IsTrue, OnErr, OnOk};
    ghost use Rattle.pf_step.specs.Changes.{world_before};
    ghost use Rattle.pf_step.specs.World.{start_world, same_world};

    /// The world at tick 0: each body at its start, and no contacts. Takes no memory where the
    /// scene has no bodies.
    #[tactic(auto, unfolding(crate::specs::World::start_world))]
    pub fn start(alloc: Global, scene: &Scene) -> Result<World, AllocError>
        ensures value { IfOk result (λ world. world ≡ start_world scene.now) }
        ensures bodies { IfOk result (λ world. length world.bodies ≡ length scene.now.fixtures) }
        ensures no_memory { scene.now.starts ≡ [] → IsOk result }
    {
        let bodies = copy_of(alloc, scene.starts())?;
        let contacts = Contacts::new(alloc);
        Ok(World { bodies, contacts })
    }

    /// The bodies in order of their numbers, static ones among them.
    pub fn bodies(&self) -> &[BodyState]
        ensures { result.now ≡ self.now.bodies }
    {
        self.bodies.as_slice()
    }

    /// The contacts of the last tick, in the order of their keys.
    pub fn contacts(&self) -> &Contacts
        ensures { result.now ≡ self.now.contacts }
    {
        &self.contacts
    }

    /// Undoes a step: this is the world after it, and `changes` are what it returned. In the same
    /// way [`step_next`](crate::step_next) undoes what a step has changed before it fails. Changes
    /// of another step are undone all the same, and leave a world that no simulation may have: each
    /// noted body that this world has gets its noted state, and contacts are undone as
    /// [`pf_cache::Contacts::undo`] says. Takes time for what changed and for the contacts, and no
    /// memory.
    #[tactic(auto, unfolding(crate::specs::Changes::world_before))]
    pub fn undo(&mut self, changes: Changes)
        ensures { self.new ≡ world_before changes self.old }
    {
        let (bodies, contacts) = changes.into_parts();
        undo_bodies(&mut self.bodies, &bodies);
        self.contacts.undo(contacts);
    }

    /// Undoes a step as [`World::undo`] does, and leaves the changes as they are. May take memory
    /// for contacts. Out of memory changes nothing.
    #[tactic(auto, unfolding(crate::specs::Changes::world_before))]
    pub fn undo_copied(&mut self, changes: &Changes) -> Result<(), AllocError>
        ensures value { OnOk result (self.new ≡ world_before changes.now self.old) }
        ensures err { OnErr result (self.new ≡ self.old) }
        ensures no_memory { (world_before changes.now self.old).contacts ≡ [] → IsOk result }
        ensures no_memory_in_place { IsTrue changes.now.contacts.in_place → IsOk result }
    {
        self.contacts.undo_copied(changes.contacts())?;
        undo_bodies(&mut self.bodies, changes.bodies());
        Ok(())
    }

    /// A copy. Takes time and memory for all bodies and contacts, and no memory where there are
    /// none.
    pub fn try_clone(&self) -> Result<World, AllocError>
        ensures value { IfOk result (λ copy. copy ≡ self.now) }
        ensures no_memory { self.now.bodies ≡ [] → self.now.contacts ≡ [] → IsOk result }
    {
        let bodies = copy_of(*self.bodies.allocator(), self.bodies.as_slice())?;
        let contacts = self.contacts.try_clone()?;
        Ok(World { bodies, contacts })
    }

    /// Whether the bodies and the contacts are equal, part by part.
    fn is_same(&self, other: &World) -> bool
        ensures { result ≡ same_world self.now other.now }
    {
        self.bodies.as_slice() == other.bodies.as_slice() && self.contacts == other.contacts
    }
}

impl PartialEq for World {
    ghost use Rattle.std.specs.Prelude.{◌≡◌, ◌↔◌, IsTrue};
    ghost use Rattle.std.specs.Cmp.{partial_equiv_from_equiv};
    ghost use Rattle.pf_step.specs.World.{same_world};
    ghost use Rattle.pf_step.specs.WorldLaws.{worlds_equivalent};

    ghost eq = { same_world };

    ghost laws = { partial_equiv_from_equiv worlds_equivalent };

    /// Whether the worlds are equal, bit for bit.
    fn eq(&self, other: &World) -> bool
        ensures value { result ≡ same_world self.now other.now }
        ensures equal { IsTrue result ↔ (self.now ≡ other.now) }
    {
        self.is_same(other)
    }
}

impl Eq for World {
    ghost use Rattle.pf_step.specs.WorldLaws.{worlds_equivalent};

    ghost laws = { worlds_equivalent };
}
