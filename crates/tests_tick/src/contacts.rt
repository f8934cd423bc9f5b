//! Contacts from tick to tick, by hand. Contacts that are undone stand in the stored run of
//! `runs_peers`.

ghost use Rattle.std.specs.Prelude.{IfOk};
ghost use Rattle.pf_manifold.specs.Key.{AreTouches};

use crate::pairs_of_scenes::found;
use crate::scenes::scene_of;
use pf_cache::{Contact, Contacts, ContactsChange, KeySplices, Meter};
use pf_manifold::Touch;
use pf_rows::Impulses;
use std::alloc::Global;
use std::test::Fail;

/// A static box, and two boxes that stand on it.
const BOTH_STAND: &[u8] = b"gravity 0 0
box - 0 0 17179869184 16777216 0 -16777216 16777216 0
box - 16777216 0 16777216 16777216 -67108864 16777216 16777216 0
box - 16777216 0 16777216 16777216 67108864 16777216 16777216 0
end
";

/// The same with the first of the two in the air.
const ONE_STANDS: &[u8] = b"gravity 0 0
box - 0 0 17179869184 16777216 0 -16777216 16777216 0
box - 16777216 0 16777216 16777216 -67108864 67108864 16777216 0
box - 16777216 0 16777216 16777216 67108864 16777216 16777216 0
end
";

/// The contact points of a scene's bodies at their starts.
fn touches_of(alloc: Global, text: &[u8]) -> Result<Vec<Touch>, Fail>
    ensures { IfOk result (λ touches. AreTouches touches.items) }
{
    let scene = scene_of(alloc, text)?;
    let (_, touches) = found(alloc, &scene)?;
    Ok(touches)
}

/// Makes of contacts those of a scene's bodies at their starts, and notes what that changed.
fn update(
    alloc: Global,
    contacts: &mut Contacts,
    change: &mut ContactsChange,
    text: &[u8],
) -> Result<(), Fail> {
    let touches = touches_of(alloc, text)?;
    contacts.update(&touches, false, change)?;
    Ok(())
}

/// Whether a list is that of the two contacts of the box that still stands, which are new.
fn are_of_one_box(contacts: &[Contact]) -> bool {
    let keys = contacts
        .iter()
        .map(|c| (c.key.a, c.key.b, c.key.feature))
        .eq([(0, 2, 28), (0, 2, 29)]);
    keys && contacts.iter().all(|c| c.impulses == Impulses::NONE)
}

/// Whether a list is that of the four contacts of both boxes, which are new.
fn are_of_both_boxes(contacts: &[Contact]) -> bool {
    let keys = contacts
        .iter()
        .map(|c| (c.key.a, c.key.b, c.key.feature))
        .eq([(0, 1, 28), (0, 1, 29), (0, 2, 28), (0, 2, 29)]);
    keys && contacts.iter().all(|c| c.impulses == Impulses::NONE)
}

/// Whether contacts are those of the points, which the two boxes have, and then one of them, and
/// then both again.
fn are_of_the_points(
    alloc: Global,
    contacts: &mut Contacts,
    change: &mut ContactsChange,
) -> Result<bool, Fail> {
    update(alloc, contacts, change, BOTH_STAND)?;
    let first = are_of_both_boxes(contacts.as_slice());
    update(alloc, contacts, change, ONE_STANDS)?;
    let fewer = are_of_one_box(contacts.as_slice());
    update(alloc, contacts, change, BOTH_STAND)?;
    Ok(first && fewer && are_of_both_boxes(contacts.as_slice()))
}

#[test]
fn contacts_are_those_of_the_points(rt: HostRuntime) -> Result<(), Fail> {
    let mut contacts = Contacts::new(rt.alloc());
    let mut change = ContactsChange::new(rt.alloc());
    let are_so = are_of_the_points(rt.alloc(), &mut contacts, &mut change)?;
    assert!(rt; are_so);
    Ok(())
}

/// Whether the contacts of both boxes stay as they are where no key changes.
fn stay_unspliced(
    alloc: Global,
    contacts: &mut Contacts,
    may_stay: bool,
    change: &mut ContactsChange,
) -> Result<bool, Fail> {
    let before = are_of_both_boxes(contacts.as_slice());
    contacts.splice(&KeySplices::new(alloc), may_stay, change)?;
    Ok(before && are_of_both_boxes(contacts.as_slice()))
}

/// Whether contacts stay as they are where no key changes, and are restored of their copy after
/// they became those of fewer points.
fn are_kept(
    alloc: Global,
    contacts: &mut Contacts,
    change: &mut ContactsChange,
) -> Result<bool, Fail> {
    update(alloc, contacts, change, BOTH_STAND)?;
    let in_place = stay_unspliced(alloc, contacts, true, change)?;
    let copied = stay_unspliced(alloc, contacts, false, change)?;
    let mut later = ContactsChange::new(alloc);
    update(alloc, contacts, &mut later, ONE_STANDS)?;
    contacts.undo_copied(change)?;
    Ok(in_place && copied && are_of_both_boxes(contacts.as_slice()))
}

#[test]
fn contacts_are_kept_as_they_are(rt: HostRuntime) -> Result<(), Fail> {
    let mut contacts = Contacts::new(rt.alloc());
    let mut change = ContactsChange::new(rt.alloc());
    let are_kept = are_kept(rt.alloc(), &mut contacts, &mut change)?;
    assert!(rt; are_kept);
    Ok(())
}

/// Whether a meter counts ticks and pairs, and stays at its greatest count.
fn counts(meter: &mut Meter) -> bool {
    meter.count_tick();
    meter.count_collides(3);
    let is_counted = meter.ticks == 1 && meter.collides == 3;
    meter.count_tick();
    meter.count_collides(u64::MAX - 1);
    is_counted && meter.ticks == 2 && meter.collides == u64::MAX
}

#[test]
fn counts_stay_at_their_greatest(rt: HostRuntime) {
    assert!(rt; counts(&mut Meter { ..Meter::NONE }));
}
