//! What the slots hold: the keys of their contact points, and the points of flagged bodies.

ghost use Rattle.std.specs.Prelude.{◌≡◌, [], All, IfOk, IsOk, length, map};
ghost use Rattle.std.specs.List.{flat_map};
ghost use Rattle.pf_shapes.specs.Pair.{IsPairOf};
ghost use Rattle.pf_manifold.specs.Key.{key_of};
ghost use Rattle.pf_manifold.specs.Touches.{IsTouchOf};
ghost use Rattle.pf_cache.specs.Live.{AreLive, AreWatched, HasOwnTouches};
ghost use Rattle.pf_cache.specs.Points.{flagged_points};
ghost use Rattle.pf_cache.specs.Slots.{HasFewTouches, slot_touches};

use crate::live::Live;
use crate::slot::Slot;
use pf_manifold::{Key, Touch};
use pf_shapes::MAX_BODIES;
use std::alloc::{AllocError, Global};

/// The keys of the contact points of all slots. Takes no memory where there are none.
#[inline(never)]
pub(crate) fn keys_of(alloc: Global, slots: &[Slot]) -> Result<Vec<Key>, AllocError>
    requires { All (λ s. IsPairOf MAX_BODIES s.pair) slots.now }
    ensures value { IfOk result
        (λ keys. keys.items ≡ map key_of (flat_map slot_touches slots.now)) }
    ensures no_memory { flat_map slot_touches slots.now ≡ [] → IsOk result }
{
    let mut keys = Vec::new(alloc);
    for slot in slots {
        slot.push_keys(&mut keys)?;
    }
    Ok(keys)
}

/// The contact points of all slots that have a body whose flag is set, each with its place among
/// all. Takes no memory where there are no contact points.
#[inline(never)]
pub(crate) fn flagged_points_of(
    alloc: Global,
    slots: &[Slot],
    flags: &[bool],
) -> Result<Vec<(usize, Touch)>, AllocError>
    requires pairs { All (λ s. IsPairOf MAX_BODIES s.pair) slots.now }
    requires flags { All (IsTouchOf (length flags.now)) (flat_map slot_touches slots.now) }
    ensures value { IfOk result (λ points. points.items
        ≡ flagged_points flags.now (flat_map slot_touches slots.now)) }
    ensures no_memory { flat_map slot_touches slots.now ≡ [] → IsOk result }
{
    let mut points = Vec::new(alloc);
    let mut place = 0;
    for slot in slots {
        let count = slot.count();
        slot.push_flagged(&mut points, place, flags)?;
        place += count;
    }
    Ok(points)
}

/// As [`flagged_points_of`], where all bodies whose flags are set are watched: only live slots are
/// looked at.
#[inline(never)]
pub(crate) fn flagged_points_of_live(
    alloc: Global,
    slots: &[Slot],
    live: &Live,
    flags: &[bool],
) -> Result<Vec<(usize, Touch)>, AllocError>
    requires pairs { All (λ s. IsPairOf MAX_BODIES s.pair) slots.now }
    requires flags { All (IsTouchOf (length flags.now)) (flat_map slot_touches slots.now) }
    requires live { AreLive live.now.watched.items live.now.places.items slots.now }
    requires watched { AreWatched live.now.watched.items flags.now }
    requires own { All HasOwnTouches slots.now }
    requires few { All HasFewTouches slots.now }
    ensures value { IfOk result (λ points. points.items
        ≡ flagged_points flags.now (flat_map slot_touches slots.now)) }
    ensures no_memory { flat_map slot_touches slots.now ≡ [] → IsOk result }
{
    let mut points = Vec::new(alloc);
    let mut end = 0;
    for live_place in &live.places {
        let slot = &slots[live_place.place];
        let place = end + live_place.skipped;
        end = place + slot.count();
        slot.push_flagged(&mut points, place, flags)?;
    }
    Ok(points)
}
