//! What a tick changes in the contacts of a world.

ghost use Rattle.std.specs.Prelude.{◌≡◌, ◌≢◌, ◌<◌, ◌∷◌, [], All, IfSome, None, length, slice_index_or};
ghost use Rattle.pf_manifold.specs.Key.{IsKey, rank};
ghost use Rattle.pf_cache.specs.Contact.{AreContacts, no_contact};
ghost use Rattle.pf_cache.specs.ContactsChange.{with_noted};

use crate::contact::Contact;
use std::alloc::Global;
use std::marker::Model;

/// A contact as it was before its impulses changed.
#[derive(Debug, Drop)]
pub(crate) struct NotedContact {
    pub contact: Contact,
    /// Where it is looked for first.
    pub place: usize,
}

impl Model for NotedContact {
    ghost use Rattle.pf_cache.specs.Contact.{Contact};

    ghost Value = { Contact };

    ghost view = { λ n. n.contact };
}

/// What a tick changed in the contacts of a world, with which
/// [`Contacts::undo`](crate::Contacts::undo) restores the contacts before: the impulses that some
/// of them had, if all stayed in place; else all contacts before. Where most bodies sleep, few
/// impulses change in most ticks; no clause says how few.
#[derive(Debug, Drop)]
pub struct ContactsChange {
    /// Whether the contacts stayed in place, each with its key.
    pub(crate) in_place: bool,
    /// Some of the contacts before, if they stayed in place.
    pub(crate) noted: Vec<NotedContact>,
    /// All contacts before, if they were made anew.
    pub(crate) before: Vec<Contact>,
}

impl Model for ContactsChange {
    ghost use Rattle.std.specs.Prelude.{All};
    ghost use Rattle.pf_manifold.specs.Key.{IsKey};
    ghost use Rattle.pf_cache.specs.Contact.{AreContacts};
    ghost use Rattle.pf_cache.specs.ContactsChange.{ContactsChange};

    ghost Value = { ContactsChange };

    ghost view = { λ c. record {
      in_place = c.in_place;
      noted = c.noted.items;
      before = c.before.items;
    } };

    ghost invariant = { λ c. All (λ n. IsKey n.key) c.noted.items × AreContacts c.before.items };
}

impl ContactsChange {
    ghost use Rattle.std.specs.Prelude.{◌≡◌};
    ghost use Rattle.pf_cache.specs.ContactsChange.{no_contacts_change};

    /// No change. Takes no memory.
    pub fn new(alloc: Global) -> ContactsChange
        ensures { result ≡ no_contacts_change }
    {
        ContactsChange {
            in_place: true,
            noted: Vec::new(alloc),
            before: Vec::new(alloc),
        }
    }

    /// Makes it no change, and keeps its memory.
    pub fn clear(&mut self)
        ensures { self.new ≡ no_contacts_change }
    {
        self.in_place = true;
        self.noted.clear();
        self.before.clear();
    }
}

/// The place of the contact of this rank, if there is one. It is looked for at `hint` first.
fn place_of(contacts: &[Contact], hint: usize, wanted: usize) -> Option<usize>
    requires { AreContacts contacts.now }
    ensures found { IfSome result (λ place. (place < length contacts.now)
        × (rank (slice_index_or contacts.now place no_contact).key ≡ wanted)) }
    ensures none { result ≡ None → All (λ c. rank c.key ≢ wanted) contacts.now }
{
    if hint < contacts.len() && contacts[hint].rank() == wanted {
        return Some(hint);
    }
    for (place, contact) in contacts.iter().enumerate() {
        if contact.rank() == wanted {
            return Some(place);
        }
    }
    None
}

/// Gives the contact of a noted one its noted impulses, if there is such a contact.
fn restore(contacts: &mut [Contact], noted: &NotedContact)
    requires contacts { AreContacts contacts.old }
    requires key { IsKey noted.now.key }
    ensures value { contacts.new ≡ with_noted contacts.old (noted.now ∷ []) }
    ensures contacts { AreContacts contacts.new }
{
    let before = noted.contact;
    if let Some(place) = place_of(contacts, noted.place, before.rank()) {
        let contact = &mut contacts[place];
        contact.impulses = before.impulses;
    }
}

/// Gives each contact that is noted its noted impulses.
pub(crate) fn restore_all(contacts: &mut [Contact], noted: &[NotedContact])
    requires contacts { AreContacts contacts.old }
    requires keys { All (λ n. IsKey n.key) noted.now }
    ensures value { contacts.new ≡ with_noted contacts.old noted.now }
    ensures contacts { AreContacts contacts.new }
{
    for contact in noted.iter().rev() {
        restore(contacts, contact);
    }
}
