//! What steps of one simulation share.

ghost use Rattle.std.specs.Prelude.{◌≡◌, ◌++◌, [], IsOk, OnOk};
ghost use Rattle.std.specs.List.{range_with_len};
ghost use Rattle.pf_step.specs.Changes.{numbers_of};

use crate::changes::{BodyChange, Changes};
use pf_cache::{Collisions, Manifolds, Meter};
use pf_islands::Island;
use std::alloc::{AllocError, Global};
use std::marker::Model;
use std::mem;

/// What one step of a simulation leaves to the next beside the world: how much work was done, the
/// contact points of the last tick, which bodies may have moved since these were kept, and spare
/// memory of changes and islands that are gone.
///
/// Contracts do not see the spare memory, since it changes no result.
#[derive(Debug, Drop)]
pub struct Work {
    meter: Meter,
    manifolds: Manifolds,
    /// The bodies that may have moved since the contact points were kept, if that is known: among
    /// them all that are awake.
    dirty: Vec<usize>,
    /// Whether it is known which bodies may have moved, and that the contacts of the world have the
    /// keys of the kept points.
    is_known: bool,
    /// The memory for what the next step changes.
    pub(crate) spare_changes: Changes,
    /// The memory for the islands of the next tick.
    spare_islands: Vec<Island>,
}

impl Model for Work {
    ghost use Rattle.pf_step.specs.Work.{Work};

    ghost Value = { Work };

    ghost view = { λ w. record {
      meter = w.meter;
      manifolds = w.manifolds;
      dirty = w.dirty.items;
      is_known = w.is_known;
    } };
}

/// Adds the bodies of these changes to a list. After an error some of them may be added.
fn add_numbers(numbers: &mut Vec<usize>, changes: &[BodyChange]) -> Result<(), AllocError>
    ensures added { OnOk result
        (numbers.new.items ≡ numbers.old.items ++ numbers_of changes.now) }
    ensures no_memory { changes.now ≡ [] → IsOk result }
{
    for change in changes {
        numbers.push(change.number)?;
    }
    Ok(())
}

/// Adds so many bodies, from the first one on. After an error some of them may be added.
fn add_all(numbers: &mut Vec<usize>, count: usize) -> Result<(), AllocError>
    ensures added { OnOk result
        (numbers.new.items ≡ numbers.old.items ++ range_with_len 0 count) }
    ensures no_memory { count ≡ 0 → IsOk result }
{
    for number in 0..count {
        numbers.push(number)?;
    }
    Ok(())
}

impl Work {
    ghost use Rattle.std.specs.Prelude.{◌≡◌, false, [], IsOk, OnOk};
    ghost use Rattle.pf_cache.specs.Manifolds.{no_manifolds};
    ghost use Rattle.pf_step.specs.Changes.{no_changes, numbers_of};
    ghost use Rattle.pf_step.specs.Work.{dirty_bodies, no_work, work_after_tick};

    /// With nothing counted and nothing kept. Takes no memory.
    pub fn new(alloc: Global) -> Work
        ensures { result ≡ no_work }
    {
        Work {
            meter: Meter::NONE,
            manifolds: Manifolds::new(alloc),
            dirty: Vec::new(alloc),
            is_known: false,
            spare_changes: Changes::new(alloc),
            spare_islands: Vec::new(alloc),
        }
    }

    /// How much work was done.
    pub fn meter(&self) -> Meter
        ensures { result ≡ self.now.meter }
    {
        self.meter
    }

    /// The contact points of the last tick; none before the first, and none after a step that
    /// failed.
    pub fn manifolds(&self) -> &Manifolds
        ensures { result.now ≡ self.now.manifolds }
    {
        &self.manifolds
    }

    /// Forgets which bodies may have moved, so that the next step compares all bodies, and the keys
    /// of all contacts. Needed before a [`step_next`](crate::step_next) of another world than the
    /// last step left. Takes no memory.
    pub fn forget_dirty(&mut self)
        ensures { self.new ≡ record self.old { is_known = false } }
    {
        self.is_known = false;
    }

    /// Takes the contact points of the last tick, so that the next tick can reuse them and their
    /// memory. None are kept from then on, and nothing is known of dirty bodies. Also returns
    /// whether it was known which may have moved, and that the contacts have the keys of the
    /// points. Takes no memory.
    pub(crate) fn take_manifolds(&mut self, alloc: Global) -> (Manifolds, bool)
        ensures taken { (result.0 ≡ self.old.manifolds) × (result.1 ≡ self.old.is_known) }
        ensures rest { self.new ≡ record self.old { manifolds = no_manifolds; is_known = false } }
    {
        let is_known = mem::replace(&mut self.is_known, false);
        let manifolds = mem::replace(&mut self.manifolds, Manifolds::new(alloc));
        (manifolds, is_known)
    }

    /// Lists the bodies that may have moved after commands: those listed before and the commanded
    /// ones; where the former are not known, all of so many. After an error some of them may be
    /// listed.
    pub(crate) fn list_dirty(
        &mut self,
        is_known: bool,
        count: usize,
        commanded: &[BodyChange],
    ) -> Result<(), AllocError>
        ensures listed { OnOk result (self.new.dirty
            ≡ dirty_bodies is_known self.old.dirty count (numbers_of commanded.now)) }
        ensures rest { self.new ≡ record self.old { dirty = self.new.dirty } }
        ensures no_memory { count ≡ 0 → commanded.now ≡ [] → IsOk result }
    {
        if is_known {
            return add_numbers(&mut self.dirty, commanded);
        }
        self.dirty.clear();
        add_all(&mut self.dirty, count)
    }

    /// The bodies that may have moved.
    pub(crate) fn dirty(&self) -> &[usize]
        ensures { result.now ≡ self.now.dirty }
    {
        self.dirty.as_slice()
    }

    /// Lists the bodies of these changes, and no others, as those that may have moved. After an
    /// error some of them may be listed.
    pub(crate) fn set_dirty(&mut self, changes: &[BodyChange]) -> Result<(), AllocError>
        ensures listed { OnOk result (self.new.dirty ≡ numbers_of changes.now) }
        ensures rest { self.new ≡ record self.old { dirty = self.new.dirty } }
        ensures no_memory { changes.now ≡ [] → IsOk result }
    {
        self.dirty.clear();
        add_numbers(&mut self.dirty, changes)
    }

    /// Keeps the memory of these islands for those of the next tick.
    pub(crate) fn keep_islands(&mut self, islands: Vec<Island>)
        ensures { self.new ≡ self.old }
    {
        self.spare_islands = islands;
    }

    /// No changes, in the memory that is kept for them. Takes no new memory.
    pub(crate) fn take_changes(&mut self, alloc: Global) -> Changes
        ensures changes { result ≡ no_changes }
        ensures work { self.new ≡ self.old }
    {
        let mut changes = mem::replace(&mut self.spare_changes, Changes::new(alloc));
        changes.clear();
        changes
    }

    /// The islands of an earlier tick, if they are kept: only their memory is of use. Takes no new
    /// memory.
    pub(crate) fn take_islands(&mut self, alloc: Global) -> Vec<Island>
        ensures { self.new ≡ self.old }
    {
        mem::replace(&mut self.spare_islands, Vec::new(alloc))
    }

    /// Counts a tick and its pairs that could not reuse kept points, and keeps the contact points
    /// of its pairs. The bodies that are listed are all that may have moved since.
    pub(crate) fn end_tick(&mut self, found: Collisions)
        ensures { self.new ≡ work_after_tick found self.old.dirty self.old }
    {
        self.meter.count_tick();
        self.meter.count_collides(found.computed as u64);
        self.manifolds = found.manifolds;
        self.is_known = true;
    }
}
