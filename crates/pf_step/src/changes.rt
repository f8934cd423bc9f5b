//! What a step changes in a world, so that it can be undone.

ghost use Rattle.std.specs.Prelude.{◌≡◌, ◌≢◌, ◌≤◌, ◌+◌, ◌-◌, ◌^◌, ◌++◌, [], IsOk, OnErr, OnOk, length, min, slice_set, sum_by, vec_capacity, vec_len};
ghost use Rattle.pf_step.specs.Changes.{bodies_before, change_of, changes_of};

use crate::work::Work;
use pf_cache::{Contacts, ContactsChange, KeySplices, Manifolds};
use pf_commands::Payload;
use pf_islands::Island;
use pf_shapes::BodyState;
use std::alloc::{AllocError, Global};
use std::marker::Model;

/// A body that a step changed, and its state before.
#[derive(Clone, Copy, Debug)]
pub(crate) struct BodyChange {
    pub number: usize,
    before: BodyState,
}

impl Model for BodyChange {
    ghost use Rattle.pf_step.specs.Changes.{BodyChange};

    ghost Value = { BodyChange };

    ghost view = { λ c. record { number = c.number; before = c.before } };

    ghost inverse = { λ c. record { number = c.number; before = c.before } };
}

/// What a step changed in a world: the states that its bodies had, of those that the step may have
/// changed, and what it changed of the contacts. With it [`World::undo`](crate::World::undo)
/// restores the world before the step. Where most bodies sleep it has few bodies, and few contacts
/// in most ticks; no clause says how few.
#[derive(Debug, Drop)]
pub struct Changes {
    bodies: Vec<BodyChange>,
    contacts: ContactsChange,
}

impl Model for Changes {
    ghost use Rattle.pf_step.specs.Changes.{Changes};

    ghost Value = { Changes };

    ghost view = { λ c. record { bodies = c.bodies.items; contacts = c.contacts } };
}

/// Notes a body as it is, if there is one with this number.
#[inline]
fn note(
    changes: &mut Vec<BodyChange>,
    bodies: &[BodyState],
    number: usize,
) -> Result<(), AllocError>
    ensures ok { OnOk result
        (changes.new.items ≡ changes.old.items ++ change_of bodies.now number) }
    ensures err { OnErr result (changes.new.items ≡ changes.old.items) }
    ensures no_memory { bodies.now ≡ [] → IsOk result }
{
    if let Some(body) = bodies.get(number) {
        changes.push(BodyChange {
            number,
            before: *body,
        })?;
    }
    Ok(())
}

/// How many bodies these islands have, or the greatest `usize` where they have more.
fn body_count(islands: &[Island]) -> usize
    ensures { result ≡ min (sum_by (λ i. length i.numbers) islands.now) (2 ^ 64 - 1) }
{
    let mut count = 0usize;
    for island in islands {
        count = count.saturating_add(island.numbers.len());
    }
    count
}

/// Makes room for `count` more changes, so that the list is not copied while it grows. Takes no
/// memory where there are no bodies.
fn make_room(
    changes: &mut Vec<BodyChange>,
    bodies: &[BodyState],
    count: usize,
) -> Result<(), AllocError>
    ensures same { changes.new.items ≡ changes.old.items }
    ensures room { OnOk result (bodies.now ≢ []
        → vec_len changes.new + count ≤ vec_capacity changes.new) }
    ensures no_memory { bodies.now ≡ [] → IsOk result }
{
    if bodies.is_empty() {
        return Ok(());
    }
    changes.reserve(count)
}

/// Notes these bodies as they are. After an error some of them may be noted.
fn note_all(
    changes: &mut Vec<BodyChange>,
    bodies: &[BodyState],
    numbers: &[usize],
) -> Result<(), AllocError>
    ensures noted { OnOk result
        (changes.new.items ≡ changes.old.items ++ changes_of bodies.now numbers.now) }
    ensures same { bodies_before changes.new.items bodies.now
        ≡ bodies_before changes.old.items bodies.now }
    ensures no_memory { bodies.now ≡ [] → IsOk result }
{
    for number in numbers {
        note(changes, bodies, *number)?;
    }
    Ok(())
}

/// Gives a body the state that it had before a change, if there is one with its number.
#[inline]
fn undo_body(bodies: &mut [BodyState], change: &BodyChange)
    ensures { bodies.new ≡ slice_set bodies.old change.now.number change.now.before }
{
    if change.number < bodies.len() {
        bodies[change.number] = change.before;
    }
}

/// Undoes changes of bodies, the last one first.
pub(crate) fn undo_bodies(bodies: &mut [BodyState], changes: &[BodyChange])
    ensures { bodies.new ≡ bodies_before changes.now bodies.old }
{
    for change in changes.iter().rev() {
        undo_body(bodies, change);
    }
}

impl Changes {
    ghost use Rattle.std.specs.Prelude.{◌≡◌, ◌++◌, [], All, IfSome, IsOk, IsTrue, OnErr, OnOk, false, map};
    ghost use Rattle.pf_manifold.specs.Key.{AreTouches, key_of};
    ghost use Rattle.pf_cache.specs.Contact.{next_contacts};
    ghost use Rattle.pf_cache.specs.ContactRows.{AreRowsAt};
    ghost use Rattle.pf_cache.specs.ContactsChange.{contacts_before};
    ghost use Rattle.pf_cache.specs.KeySplices.{AreSplicesBetween};
    ghost use Rattle.pf_cache.specs.Manifolds.{kept_touches};
    ghost use Rattle.pf_step.specs.Changes.{bodies_before, changes_by_commands, changes_of, changes_of_islands, no_changes, MayChange};

    /// Nothing changed. Takes no memory.
    pub(crate) fn new(alloc: Global) -> Changes
        ensures { result ≡ no_changes }
    {
        Changes {
            bodies: Vec::new(alloc),
            contacts: ContactsChange::new(alloc),
        }
    }

    /// The changes of bodies in their order.
    pub(crate) fn bodies(&self) -> &[BodyChange]
        ensures { result.now ≡ self.now.bodies }
    {
        self.bodies.as_slice()
    }

    /// Forgets what changed, and keeps the memory.
    pub(crate) fn clear(&mut self)
        ensures { self.new ≡ no_changes }
    {
        self.bodies.clear();
        self.contacts.clear();
    }

    /// Notes the bodies that commands are for; it is called before the commands are applied. After
    /// an error some of them may be noted.
    pub(crate) fn note_commanded(
        &mut self,
        bodies: &[BodyState],
        payloads: &[Payload],
    ) -> Result<(), AllocError>
        ensures noted { OnOk result (self.new.bodies
            ≡ self.old.bodies ++ changes_by_commands bodies.now payloads.now) }
        ensures contacts { self.new.contacts ≡ self.old.contacts }
        ensures no_memory { bodies.now ≡ [] → IsOk result }
    {
        for payload in payloads {
            note(&mut self.bodies, bodies, usize::from(payload.body()))?;
        }
        Ok(())
    }

    /// Notes the bodies of islands. After an error some of them may be noted.
    pub(crate) fn note_islands(
        &mut self,
        bodies: &[BodyState],
        islands: &[Island],
    ) -> Result<(), AllocError>
        ensures noted { OnOk result (self.new.bodies
            ≡ self.old.bodies ++ changes_of_islands bodies.now islands.now) }
        ensures contacts { self.new.contacts ≡ self.old.contacts }
        ensures same { bodies_before self.new.bodies bodies.now
            ≡ bodies_before self.old.bodies bodies.now }
        ensures no_memory { bodies.now ≡ [] → IsOk result }
    {
        make_room(&mut self.bodies, bodies, body_count(islands))?;
        for island in islands {
            note_all(&mut self.bodies, bodies, island.numbers.as_slice())?;
        }
        Ok(())
    }

    /// Notes the bodies of these numbers. After an error some of them may be noted.
    pub(crate) fn note_bodies(
        &mut self,
        bodies: &[BodyState],
        numbers: &[usize],
    ) -> Result<(), AllocError>
        ensures noted { OnOk result
            (self.new.bodies ≡ self.old.bodies ++ changes_of bodies.now numbers.now) }
        ensures contacts { self.new.contacts ≡ self.old.contacts }
        ensures same { bodies_before self.new.bodies bodies.now
            ≡ bodies_before self.old.bodies bodies.now }
        ensures no_memory { bodies.now ≡ [] → IsOk result }
    {
        make_room(&mut self.bodies, bodies, numbers.len())?;
        note_all(&mut self.bodies, bodies, numbers)
    }

    /// Replaces the contacts of the last tick by those of the points of `manifolds`, and keeps what
    /// that changes. `key_splices` say how the keys of the points changed since the last tick, if
    /// that is known; with `is_known` the contacts have the keys that these points had then, in the
    /// same order. With `may_stay`, contacts whose keys all stay may stay in place (no clause says
    /// that they do). After an error the contacts are as they were, and undoing leaves them so.
    pub(crate) fn update_contacts(
        &mut self,
        alloc: Global,
        contacts: &mut Contacts,
        manifolds: &Manifolds,
        key_splices: &Option<KeySplices>,
        is_known: bool,
        may_stay: bool,
    ) -> Result<(), AllocError>
        requires order { AreTouches (kept_touches manifolds.now) }
        requires known { IsTrue is_known → IfSome key_splices.now
            (λ splices. AreSplicesBetween splices (map (λ c. c.key) contacts.old)
            (map key_of (kept_touches manifolds.now))) }
        ensures value { OnOk result
            (contacts.new ≡ next_contacts contacts.old (kept_touches manifolds.now)) }
        ensures before { contacts_before self.new.contacts contacts.new ≡ contacts.old }
        ensures anew { OnOk result (may_stay ≡ false → self.new.contacts.in_place ≡ false) }
        ensures unchanged { OnErr result (contacts.new ≡ contacts.old) }
        ensures bodies { self.new.bodies ≡ self.old.bodies }
        ensures no_memory { kept_touches manifolds.now ≡ [] → IsOk result }
    {
        match key_splices {
            Some(splices) if is_known => contacts.splice(splices, may_stay, &mut self.contacts),
            _ => {
                self.contacts.clear();
                let keys = manifolds.keys(alloc)?;
                contacts.set_keys(&keys, &mut self.contacts)
            }
        }
    }

    /// Notes the impulses of the contacts of islands, so that they may change. After an error some
    /// of them may be noted.
    pub(crate) fn note_impulses(
        &mut self,
        contacts: &Contacts,
        islands: &[Island],
    ) -> Result<(), AllocError>
        requires { All (λ i. AreRowsAt contacts.now i.rows) islands.now }
        ensures noted { OnOk result
            (All (λ i. MayChange self.new.contacts i.rows) islands.now) }
        ensures same { contacts_before self.new.contacts contacts.now
            ≡ contacts_before self.old.contacts contacts.now }
        ensures bodies { self.new.bodies ≡ self.old.bodies }
        ensures no_memory { islands.now ≡ [] → IsOk result }
        ensures no_memory_anew { self.old.contacts.in_place ≡ false → IsOk result }
    {
        for island in islands {
            contacts.note(&island.rows, &mut self.contacts)?;
        }
        Ok(())
    }

    /// The changes of bodies, and that of the contacts.
    pub(crate) fn into_parts(self) -> (Vec<BodyChange>, ContactsChange)
        ensures { (result.0.items ≡ self.bodies) × (result.1 ≡ self.contacts) }
    {
        (self.bodies, self.contacts)
    }

    /// The change of the contacts.
    pub(crate) fn contacts(&self) -> &ContactsChange
        ensures { result.now ≡ self.now.contacts }
    {
        &self.contacts
    }

    /// Lends its memory to the next step that is made with `work`. What contracts see of the work
    /// stays as it is.
    pub fn lend(self, work: &mut Work)
        ensures { work.new ≡ work.old }
    {
        work.spare_changes = self;
    }
}
