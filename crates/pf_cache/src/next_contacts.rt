//! The contacts of new keys, made of those that were there: a key that stays keeps its impulses.

ghost use Rattle.std.specs.Prelude.{◌≡◌, ◌+◌, ◌≤◌, ◌<◌, ◌++◌, ℕ, All, drop, length, map, sum_by, vec_capacity, vec_len};
ghost use Rattle.pf_manifold.specs.Key.{IsKey, rank};
ghost use Rattle.pf_cache.specs.Contact.{AreContacts, AreKeys, contacts_of_keys, impulses_at};
ghost use Rattle.pf_cache.specs.KeySplices.{keys_after, spanned_count};

use crate::contact::Contact;
use crate::key_splices::KeySplice;
use pf_manifold::Key;
use pf_rows::Impulses;

/// The first place from `start` on whose contact has a rank of at least `least`, or the end.
/// Look-ups of such ranks from there find what they find from `start`.
#[tactic(auto, using(crate::proofs::Places::passed, crate::proofs::RankedLists::all_reached, crate::proofs::RankedLists::none_left))]
fn first_from(contacts: &[Contact], start: usize, least: usize) -> usize
    requires start { start ≤ length contacts.now }
    requires contacts { AreContacts contacts.now }
    ensures within { result ≤ length contacts.now }
    ensures same { (n : ℕ) → least ≤ n
        → impulses_at n (drop result contacts.now) ≡ impulses_at n (drop start contacts.now) }
    ensures reached { All (λ c. least ≤ rank c.key) (drop result contacts.now) }
{
    let mut place = start;
    while place < contacts.len() {
        if contacts[place].rank() >= least {
            return place;
        }
        place += 1;
    }
    place
}

/// The accumulated impulses of the contact of this key from `start` on, or none; and a place from
/// which look-ups of higher ranks find what they find from `start`.
#[tactic(auto, using(crate::proofs::Places::found_here, crate::proofs::Places::found_other, crate::proofs::Places::found_nowhere, crate::proofs::Places::passed))]
#[inline(never)]
fn impulses_of(contacts: &[Contact], start: usize, key: &Key) -> (Impulses, usize)
    requires start { start ≤ length contacts.now }
    requires contacts { AreContacts contacts.now }
    requires key { IsKey key.now }
    ensures impulses { result.0 ≡ impulses_at (rank key.now) (drop start contacts.now) }
    ensures within { result.1 ≤ length contacts.now }
    ensures later { (n : ℕ) → rank key.now < n
        → impulses_at n (drop result.1 contacts.now) ≡ impulses_at n (drop start contacts.now) }
{
    let wanted = key.rank();
    let place = first_from(contacts, start, wanted);
    if place >= contacts.len() {
        return (Impulses::NONE, place);
    }
    let contact = contacts[place];
    if contact.rank() == wanted {
        (contact.impulses, place + 1)
    } else {
        (Impulses::NONE, place)
    }
}

/// Adds these contacts. There is room for them.
pub(crate) fn add_all(list: &mut Vec<Contact>, contacts: &[Contact])
    requires { vec_len list.old + length contacts.now ≤ vec_capacity list.old }
    ensures items { list.new.items ≡ list.old.items ++ contacts.now }
    ensures len { vec_len list.new ≡ vec_len list.old + length contacts.now }
    ensures capacity { vec_capacity list.old ≤ vec_capacity list.new }
{
    match list.extend_from_slice(contacts) {
        Ok(()) => {}
        Err(_) => unreachable!(),
    }
}

/// Adds contacts of these keys, with the impulses that old contacts of the same keys have. There is
/// room for them.
fn add_next(list: &mut Vec<Contact>, old: &[Contact], keys: &[Key])
    requires old { AreContacts old.now }
    requires keys { AreKeys keys.now }
    requires room { vec_len list.old + length keys.now ≤ vec_capacity list.old }
    ensures items { list.new.items ≡ list.old.items ++ contacts_of_keys old.now keys.now }
    ensures len { vec_len list.new ≡ vec_len list.old + length keys.now }
    ensures capacity { vec_capacity list.old ≤ vec_capacity list.new }
{
    let mut place = 0;
    for key in keys {
        let (impulses, after) = impulses_of(old, place, key);
        place = after;
        list.push_reserved(Contact {
            key: *key,
            impulses,
        });
    }
}

/// How many keys these splices drop, of a list of `count` keys.
pub(crate) fn dropped_count(splices: &[KeySplice], count: usize) -> usize
    requires { spanned_count splices.now ≤ count }
    ensures { result ≡ sum_by (λ e. e.dropped) splices.now }
{
    let mut dropped = 0;
    for splice in splices {
        dropped += splice.dropped;
    }
    dropped
}

/// Adds contacts of these keys, with the impulses of dropped contacts of the same keys, then the
/// kept contacts. There is room for them.
fn add_run(list: &mut Vec<Contact>, dropped: &[Contact], keys: &[Key], kept: &[Contact])
    requires dropped { AreContacts dropped.now }
    requires keys { AreKeys keys.now }
    requires room { vec_len list.old + (length keys.now + length kept.now)
        ≤ vec_capacity list.old }
    ensures items { list.new.items
        ≡ list.old.items ++ (contacts_of_keys dropped.now keys.now ++ kept.now) }
    ensures len { vec_len list.new ≡ vec_len list.old + (length keys.now + length kept.now) }
    ensures capacity { vec_capacity list.old ≤ vec_capacity list.new }
{
    add_next(list, dropped, keys);
    add_all(list, kept);
}

/// Adds the contacts of the keys after splices. There is room for them. Splices with no key that stays
/// between them count as one: a key that one of them drops may be added by the other, and keeps its
/// impulses.
pub(crate) fn add_spliced(
    list: &mut Vec<Contact>,
    old: &[Contact],
    splices: &[KeySplice],
    added: &[Key],
)
    requires old { AreContacts old.now }
    requires within { spanned_count splices.now ≤ length old.now }
    requires added { sum_by (λ e. e.added) splices.now ≡ length added.now }
    requires keys { AreKeys (keys_after splices.now added.now (map (λ c. c.key) old.now)) }
    requires room { vec_len list.old
        + length (keys_after splices.now added.now (map (λ c. c.key) old.now))
        ≤ vec_capacity list.old }
    ensures { list.new.items ≡ list.old.items
        ++ contacts_of_keys old.now (keys_after splices.now added.now (map (λ c. c.key) old.now)) }
{
    // Old contacts from `from` to `end` are dropped, and keys from `done` to `last` come between.
    let mut from = 0;
    let mut end = 0;
    let mut done = 0;
    let mut last = 0;
    for splice in splices {
        let next = end + splice.kept;
        if splice.kept > 0 {
            add_run(list, &old[from..end], &added[done..last], &old[end..next]);
            from = next;
            done = last;
        }
        end = next + splice.dropped;
        last += splice.added;
    }
    add_run(list, &old[from..end], &added[done..], &old[end..]);
}
