//! The contacts of a world, in the order of their keys.

ghost use Rattle.std.specs.Prelude.{◌≡◌, ◌+◌, ◌<◌, ◌++◌, ℕ, [], All, IfOk, IsOk, OnOk, map, take};
ghost use Rattle.pf_manifold.specs.Key.{key_of, rank};
ghost use Rattle.pf_cache.specs.Contact.{AreContacts, AreKeys, contacts_of_keys};
ghost use Rattle.pf_cache.specs.ContactRows.{AreRowsAt, IsRowAt, with_rows};
ghost use Rattle.pf_cache.specs.ContactsChange.{contact_of_row};
ghost use Rattle.pf_cache.specs.KeySplices.{keys_after, spanned_count};

use crate::contact::Contact;
use crate::contacts_change::{ContactsChange, NotedContact, restore_all};
use crate::key_splices::{KeySplice, KeySplices};
use crate::next_contacts::{add_all, add_spliced, dropped_count};
use pf_manifold::{Key, Touch};
use pf_rows::Row;
use std::alloc::{AllocError, Global};
use std::marker::Model;
use std::mem;

/// What is kept of the contacts of a world from tick to tick: the accumulated impulses of each, in
/// the order of their keys, each key once.
#[derive(Debug, Drop)]
pub struct Contacts {
    list: Vec<Contact>,
}

impl Model for Contacts {
    ghost use Rattle.std.specs.Prelude.{List};
    ghost use Rattle.pf_cache.specs.Contact.{Contact, AreContacts};

    ghost Value = { List Contact };

    ghost view = { λ c. c.list.items };

    ghost invariant = { λ c. AreContacts c.list.items };
}

/// The keys of these points. Takes no memory where there are none.
fn keys_of_points(alloc: Global, touches: &[Touch]) -> Result<Vec<Key>, AllocError>
    ensures value { IfOk result (λ keys. keys.items ≡ map key_of touches.now) }
    ensures no_memory { touches.now ≡ [] → IsOk result }
{
    let mut keys = Vec::with_capacity(alloc, touches.len())?;
    for touch in touches {
        keys.push_reserved(Key::of(touch));
    }
    Ok(keys)
}

/// Notes the contacts of rows, and after an error those of the first rows.
fn note_rows(
    contacts: &[Contact],
    noted: &mut Vec<NotedContact>,
    rows: &[Row],
) -> Result<(), AllocError>
    requires { All (IsRowAt contacts.now) rows.now }
    ensures all { OnOk result (noted.new.items
        ≡ noted.old.items ++ map (contact_of_row contacts.now) rows.now) }
    ensures first { (count : ℕ) × (noted.new.items
        ≡ noted.old.items ++ map (contact_of_row contacts.now) (take count rows.now)) }
    ensures no_memory { rows.now ≡ [] → IsOk result }
{
    for row in rows {
        let place = row.entry.place;
        noted.push(NotedContact {
            contact: contacts[place],
            place,
        })?;
    }
    Ok(())
}

/// Gives the contact at the place of each row the accumulated impulses of the row.
#[inline(never)]
fn store_at(contacts: &mut [Contact], rows: &[Row])
    requires contacts { AreContacts contacts.old }
    requires rows { AreRowsAt contacts.old rows.now }
    ensures value { contacts.new ≡ with_rows contacts.old rows.now }
    ensures contacts { AreContacts contacts.new }
{
    for row in rows {
        let entry = &row.entry;
        let contact = &mut contacts[entry.place];
        contact.impulses = entry.impulses;
    }
}

impl Contacts {
    ghost use Rattle.std.specs.Prelude.{◌≡◌, ◌≤◌, ℕ, [], All, IfOk, IsOk, IsTrue, OnErr, OnOk, false, length, map, sum_by, true};
    ghost use Rattle.pf_manifold.specs.Key.{AreTouches, key_of, rank};
    ghost use Rattle.pf_cache.specs.Contact.{AreKeys, contacts_of_keys, next_contacts};
    ghost use Rattle.pf_cache.specs.ContactRows.{AreRowsAt, with_rows};
    ghost use Rattle.pf_cache.specs.ContactsChange.{contacts_before, may_change, no_contacts_change};
    ghost use Rattle.pf_cache.specs.KeySplices.{AreSplicesOf, spliced_keys, keys_after, spanned_count};
    ghost use Rattle.pf_cache.specs.Same.{same_contacts};

    /// No contacts. Takes no memory.
    pub fn new(alloc: Global) -> Contacts
        ensures { result ≡ [] }
    {
        Contacts {
            list: Vec::new(alloc),
        }
    }

    /// The contacts in the order of their keys.
    pub fn as_slice(&self) -> &[Contact]
        ensures value { result.now ≡ self.now }
        ensures contacts { AreContacts self.now }
    {
        self.list.as_slice()
    }

    /// As [`Contacts::set_keys`], with the keys of these points, which are in the order of their
    /// keys. All contacts are made anew, with `may_stay` too.
    pub fn update(
        &mut self,
        touches: &[Touch],
        may_stay: bool,
        change: &mut ContactsChange,
    ) -> Result<(), AllocError>
        requires { AreTouches touches.now }
        ensures value { OnOk result (self.new ≡ next_contacts self.old touches.now) }
        ensures before { contacts_before change.new self.new ≡ self.old }
        ensures anew { OnOk result (may_stay ≡ false → change.new.in_place ≡ false) }
        ensures unchanged { OnErr result (self.new ≡ self.old) }
        ensures no_change { OnErr result (change.new ≡ no_contacts_change) }
        ensures no_memory { touches.now ≡ [] → IsOk result }
    {
        change.clear();
        let keys = keys_of_points(*self.list.allocator(), touches)?;
        self.set_keys(&keys, change)
    }

    /// Replaces the contacts by those of these keys, which are in their order, each once, as
    /// Box2D-Lite's `Arbiter::Update`: a key of the contacts before keeps its impulses, a new key
    /// has none, and a contact whose key is not there is dropped. All contacts are made anew, and
    /// `change`, which then undoes this, has those before. An error leaves the contacts as they
    /// are, and no change in `change`.
    pub fn set_keys(&mut self, keys: &[Key], change: &mut ContactsChange) -> Result<(), AllocError>
        requires { AreKeys keys.now }
        ensures value { OnOk result (self.new ≡ contacts_of_keys self.old keys.now) }
        ensures before { contacts_before change.new self.new ≡ self.old }
        ensures anew { OnOk result (change.new.in_place ≡ false) }
        ensures unchanged { OnErr result (self.new ≡ self.old) }
        ensures no_change { OnErr result (change.new ≡ no_contacts_change) }
        ensures no_memory { keys.now ≡ [] → IsOk result }
    {
        let all = [KeySplice {
            kept: 0,
            dropped: self.list.len(),
            added: keys.len(),
        }];
        self.make_anew(&all, keys, change)
    }

    /// Replaces the contacts by those of their keys after these splices, which are in their order,
    /// each once, as [`Contacts::set_keys`] does. `change` then undoes this.
    ///
    /// With `may_stay`, and without splices, the contacts stay in place (no clause says that they
    /// do), and impulses that change have to be noted. Otherwise all contacts are made anew, and
    /// `change` has those before: where the impulses of most contacts change, to note them one by
    /// one takes longer than to copy all. An error leaves the contacts as they are, and no change
    /// in `change`.
    pub fn splice(
        &mut self,
        splices: &KeySplices,
        may_stay: bool,
        change: &mut ContactsChange,
    ) -> Result<(), AllocError>
        requires splices { AreSplicesOf splices.now (length self.old) }
        requires keys { AreKeys (spliced_keys splices.now (map (λ c. c.key) self.old)) }
        ensures value { OnOk result (self.new
            ≡ contacts_of_keys self.old (spliced_keys splices.now (map (λ c. c.key) self.old))) }
        ensures before { contacts_before change.new self.new ≡ self.old }
        ensures anew { OnOk result (may_stay ≡ false → change.new.in_place ≡ false) }
        ensures unchanged { OnErr result (self.new ≡ self.old) }
        ensures no_change { OnErr result (change.new ≡ no_contacts_change) }
        ensures no_memory { spliced_keys splices.now (map (λ c. c.key) self.old) ≡ []
            → IsOk result }
    {
        if may_stay && splices.splices.is_empty() {
            change.clear();
            return Ok(());
        }
        self.make_anew(&splices.splices, &splices.added, change)
    }

    /// Makes all contacts anew, of the keys after these splices, which add these keys. `change` has
    /// the contacts before. An error leaves the contacts as they are, and no change in `change`.
    #[inline(never)]
    fn make_anew(
        &mut self,
        splices: &[KeySplice],
        added: &[Key],
        change: &mut ContactsChange,
    ) -> Result<(), AllocError>
        requires within { spanned_count splices.now ≤ length self.old }
        requires added { sum_by (λ e. e.added) splices.now ≡ length added.now }
        requires keys { AreKeys (keys_after splices.now added.now (map (λ c. c.key) self.old)) }
        ensures value { OnOk result (self.new ≡ contacts_of_keys self.old
            (keys_after splices.now added.now (map (λ c. c.key) self.old))) }
        ensures before { contacts_before change.new self.new ≡ self.old }
        ensures anew { OnOk result (change.new.in_place ≡ false) }
        ensures unchanged { OnErr result (self.new ≡ self.old) }
        ensures no_change { OnErr result (change.new ≡ no_contacts_change) }
        ensures no_memory { keys_after splices.now added.now (map (λ c. c.key) self.old) ≡ []
            → IsOk result }
    {
        change.clear();
        let old_count = self.list.len();
        let count = old_count - dropped_count(splices, old_count) + added.len();
        change.before.reserve(count)?;
        change.in_place = false;
        mem::swap(&mut self.list, &mut change.before);
        add_spliced(&mut self.list, &change.before, splices, added);
        Ok(())
    }

    /// Notes in `change` the impulses of the contacts at the places of these rows, so that they may
    /// change. After an error those of some rows may be noted. Where all contacts were made anew
    /// there is nothing to note.
    pub fn note(&self, rows: &[Row], change: &mut ContactsChange) -> Result<(), AllocError>
        requires { AreRowsAt self.now rows.now }
        ensures noted { OnOk result
            (All (λ r. may_change change.new (rank (key_of r.entry.touch)) ≡ true) rows.now) }
        ensures others { (n : ℕ) → may_change change.old n ≡ true
            → may_change change.new n ≡ true }
        ensures same { contacts_before change.new self.now ≡ contacts_before change.old self.now }
        ensures no_memory { rows.now ≡ [] → IsOk result }
        ensures in_place { change.new.in_place ≡ change.old.in_place }
        ensures no_memory_anew { change.old.in_place ≡ false → IsOk result }
    {
        if !change.in_place {
            return Ok(());
        }
        note_rows(&self.list, &mut change.noted, rows)
    }

    /// Undoes what `change` holds. Takes time for the contacts that are noted, and no memory. If
    /// `change` is of other contacts, those that are noted get their noted impulses, or all become
    /// those of `change`.
    pub fn undo(&mut self, change: ContactsChange)
        ensures { self.new ≡ contacts_before change self.old }
    {
        if change.in_place {
            restore_all(&mut self.list, &change.noted);
        } else {
            self.list = change.before;
        }
    }

    /// Undoes what `change` holds as [`Contacts::undo`] does, and leaves the change as it is. Out
    /// of memory changes nothing.
    pub fn undo_copied(&mut self, change: &ContactsChange) -> Result<(), AllocError>
        ensures value { OnOk result (self.new ≡ contacts_before change.now self.old) }
        ensures unchanged { OnErr result (self.new ≡ self.old) }
        ensures no_memory { contacts_before change.now self.old ≡ [] → IsOk result }
        ensures no_memory_in_place { IsTrue change.now.in_place → IsOk result }
    {
        if change.in_place {
            restore_all(&mut self.list, &change.noted);
            return Ok(());
        }
        self.list.reserve(change.before.len())?;
        self.list.clear();
        add_all(&mut self.list, &change.before);
        Ok(())
    }

    /// Keeps the accumulated impulses of these rows, as Box2D's `b2ContactSolver::StoreImpulses`:
    /// the contact at the place of each row gets those of the row, the others keep their own. Takes
    /// no memory.
    pub fn store_impulses(&mut self, rows: &[Row])
        requires { AreRowsAt self.old rows.now }
        ensures { self.new ≡ with_rows self.old rows.now }
    {
        store_at(&mut self.list, rows);
    }

    /// A copy. Takes no memory where there are no contacts.
    pub fn try_clone(&self) -> Result<Contacts, AllocError>
        ensures value { IfOk result (λ copy. copy ≡ self.now) }
        ensures no_memory { self.now ≡ [] → IsOk result }
    {
        let alloc = *self.list.allocator();
        if self.list.is_empty() {
            return Ok(Contacts::new(alloc));
        }
        let list = Vec::from_slice(alloc, self.list.as_slice())?;
        Ok(Contacts { list })
    }

    /// Whether the contacts are equal, part by part.
    fn is_same(&self, other: &Contacts) -> bool
        ensures { result ≡ same_contacts self.now other.now }
    {
        self.list.as_slice() == other.list.as_slice()
    }
}

impl PartialEq for Contacts {
    ghost use Rattle.std.specs.Prelude.{◌≡◌, ◌↔◌, IsTrue};
    ghost use Rattle.std.specs.Cmp.{partial_equiv_from_equiv};
    ghost use Rattle.pf_cache.specs.Same.{same_contacts};
    ghost use Rattle.pf_cache.specs.SameLaws.{lists_equivalent};

    ghost eq = { same_contacts };

    ghost laws = { partial_equiv_from_equiv lists_equivalent };

    /// Whether the contacts are equal, bit for bit.
    fn eq(&self, other: &Contacts) -> bool
        ensures value { result ≡ same_contacts self.now other.now }
        ensures equal { IsTrue result ↔ (self.now ≡ other.now) }
    {
        self.is_same(other)
    }
}

impl Eq for Contacts {
    ghost use Rattle.pf_cache.specs.SameLaws.{lists_equivalent};

    ghost laws = { lists_equivalent };
}
