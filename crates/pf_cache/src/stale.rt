//! The slots that a tick has to bring up to date, and how it does that.

ghost use Rattle.std.specs.Prelude.{◌≡◌, ◌≤◌, ◌+◌, ◌∷◌, ◌++◌, [], All, IfOk, IfSome, List, OnOk, drop, if◌then◌else◌, length, map};
ghost use Rattle.std.specs.List.{flat_map, prefix_len};
ghost use Rattle.pf_shapes.specs.Pair.{IsAscending, IsPairOf, Pair};
ghost use Rattle.pf_broad.specs.Pairs.{pair_may_touch};
ghost use Rattle.pf_manifold.specs.Key.{key_of};
ghost use Rattle.pf_manifold.specs.Manifold.{points_of};
ghost use Rattle.pf_manifold.specs.Touches.{touch_of};
ghost use Rattle.pf_cache.specs.KeySplices.{AreSplicesBetween};
ghost use Rattle.pf_cache.specs.Live.{AreLive};
ghost use Rattle.pf_cache.specs.Manifolds.{points_of_pair};
ghost use Rattle.pf_cache.specs.Slots.{AreStale, HasFewTouches, IsFreshUnlessLive, is_of_pair, manifold_touches, refreshed_slot, slot_of, slot_touches};
ghost use Rattle.pf_cache.specs.Stale.{AreNextPoints};

use crate::kept_shape::{KeptShape, manifold_of_pair};
use crate::key_splices::KeySplices;
use crate::live::Live;
use crate::slot::{Slot, SlotPlace, pair_may_touch};
use pf_manifold::{Manifold, Touch};
use pf_shapes::{Bounds, MAX_BODIES, Pair};
use std::alloc::{AllocError, Global};

/// The slots that are not up to date.
#[derive(Drop)]
pub(crate) struct Stale {
    /// For each body whether it is unmoved.
    pub unmoved: Vec<bool>,
    /// The places of these slots, in the order of all slots.
    pub places: Vec<SlotPlace>,
    /// The pairs of those whose contact points have to be computed: their bounds overlap.
    pub pairs: Vec<Pair>,
}

/// Adds a pair to a list, if its bounds overlap.
#[inline]
fn push_if(overlap: bool, pairs: &mut Vec<Pair>, pair: &Pair) -> Result<(), AllocError>
    ensures { OnOk result
        (pairs.new.items ≡ pairs.old.items ++ (if overlap then pair.now ∷ [] else [])) }
{
    if overlap {
        pairs.push(*pair)?;
    }
    Ok(())
}

/// The slots that are not up to date. Only live slots are looked at.
#[inline(never)]
pub(crate) fn stale_slots(
    alloc: Global,
    slots: &[Slot],
    live: &Live,
    unmoved: Vec<bool>,
    bounds: &[Bounds],
) -> Result<Stale, AllocError>
    requires pairs { All (λ s. IsPairOf (length bounds.now) s.pair) slots.now }
    requires live { AreLive live.now.watched.items live.now.places.items slots.now }
    requires others { All (IsFreshUnlessLive bounds.now unmoved.items live.now.watched.items)
        slots.now }
    requires touches { All HasFewTouches slots.now }
    ensures unmoved { IfOk result (λ stale. stale.unmoved.items ≡ unmoved.items) }
    ensures stale { IfOk result (λ stale.
        AreStale bounds.now unmoved.items stale.places.items stale.pairs.items slots.now) }
{
    let mut places = Vec::with_capacity(alloc, live.places.len())?;
    let mut pairs = Vec::with_capacity(alloc, live.places.len())?;
    let mut skipped = 0;
    for live_place in &live.places {
        let place = live_place.place;
        let slot = &slots[place];
        let pair = slot.pair();
        let overlap = pair_may_touch(bounds, pair);
        skipped += live_place.skipped;
        if slot.is_stale(overlap, &unmoved) {
            push_if(overlap, &mut pairs, pair)?;
            places.push(SlotPlace { place, skipped })?;
            skipped = 0;
        } else {
            skipped += slot.count();
        }
    }
    Ok(Stale {
        unmoved,
        places,
        pairs,
    })
}

/// Whether a contact point is of this pair.
#[inline]
fn is_of_pair(touch: &Touch, pair: &Pair) -> bool
    ensures { result ≡ is_of_pair pair.now touch.now }
{
    touch.a as usize == pair.a && touch.b as usize == pair.b
}

/// How many points from `start` on, one after the other, are of this pair.
fn count_of_pair(touches: &[Touch], start: usize, pair: &Pair) -> usize
    requires { start ≤ length touches.now }
    ensures within { start + result ≤ length touches.now }
    ensures count { result ≡ prefix_len (is_of_pair pair.now) (drop start touches.now) }
{
    let mut end = start;
    while end < touches.len() {
        if !is_of_pair(&touches[end], pair) {
            return end - start;
        }
        end += 1;
    }
    end - start
}

/// The manifold of these contact points of a pair. No clause of a collider says that a pair has at
/// most two of them, so those of a pair with more would be computed here.
#[inline]
fn manifold_of(touches: &[Touch], pair: &Pair, shapes: &[KeptShape]) -> Manifold
    requires few { length shapes.now ≤ MAX_BODIES }
    requires pair { IsPairOf (length shapes.now) pair.now }
    requires touches { touches.now ≡ points_of_pair shapes.now pair.now }
    ensures { map (touch_of pair.now) (points_of result) ≡ touches.now }
{
    match touches {
        [] => Manifold::Apart,
        [touch] => Manifold::One(touch.point),
        [touch, last] => Manifold::Two(touch.point, last.point),
        _ => manifold_of_pair(shapes, pair),
    }
}

/// The contact points of a pair, as its bodies stand, or none where its bounds are apart. If a
/// collider computed points, those of the pair stand at `start` in what it `collided`. Returns also
/// where those of the next pair stand.
#[inline]
fn points_at(
    pair: &Pair,
    collided: &Option<Vec<Touch>>,
    start: usize,
    bounds: &[Bounds],
    shapes: &[KeptShape],
) -> (Option<Manifold>, usize)
    requires few { length shapes.now ≤ MAX_BODIES }
    requires bodies { length bounds.now ≡ length shapes.now }
    requires pair { IsPairOf (length shapes.now) pair.now }
    requires next { IfSome collided.now (λ touches. (later : List Pair)
        × IsAscending (pair.now ∷ later)
        × AreNextPoints shapes.now touches.items start
        (if pair_may_touch bounds.now pair.now then pair.now ∷ later else later)) }
    ensures points { manifold_touches pair.now result.0
        ≡ (slot_of bounds.now shapes.now pair.now).touches }
    ensures next { IfSome collided.now (λ touches. (later : List Pair)
        → IsAscending (pair.now ∷ later)
        → AreNextPoints shapes.now touches.items start
        (if pair_may_touch bounds.now pair.now then pair.now ∷ later else later)
        → AreNextPoints shapes.now touches.items result.1 later) }
{
    if !pair_may_touch(bounds, pair) {
        return (None, start);
    }
    match collided {
        None => (Some(manifold_of_pair(shapes, pair)), start),
        Some(touches) => {
            let end = start + count_of_pair(touches, start, pair);
            (Some(manifold_of(&touches[start..end], pair, shapes)), end)
        }
    }
}

/// Brings stale slots up to date: those whose bounds overlap get the contact points of their pairs,
/// the others have none. If a collider computed the points, they stand in `collided`. Returns how
/// the keys of all contact points change.
#[inline(never)]
pub(crate) fn refresh_slots(
    alloc: Global,
    slots: &mut [Slot],
    stale: &Stale,
    collided: &Option<Vec<Touch>>,
    bounds: &[Bounds],
    shapes: &[KeptShape],
) -> Result<KeySplices, AllocError>
    requires few { length shapes.now ≤ MAX_BODIES }
    requires bodies { length bounds.now ≡ length shapes.now }
    requires pairs { All (λ s. IsPairOf (length shapes.now) s.pair) slots.old }
    requires touches { All HasFewTouches slots.old }
    requires ascending { IsAscending (map (λ s. s.pair) slots.old) }
    requires stale { AreStale bounds.now stale.now.unmoved.items stale.now.places.items
        stale.now.pairs.items slots.old }
    requires collided { IfSome collided.now (λ touches. touches.items
        ≡ flat_map (points_of_pair shapes.now) stale.now.pairs.items) }
    ensures slots { IfOk result (λ _. slots.new
        ≡ map (refreshed_slot bounds.now stale.now.unmoved.items shapes.now) slots.old) }
    ensures splices { IfOk result (λ splices. AreSplicesBetween splices
        (map key_of (flat_map slot_touches slots.old))
        (map key_of (flat_map slot_touches slots.new))) }
{
    let mut splices = KeySplices::new(alloc);
    let mut kept = 0;
    let mut start = 0;
    for place in &stale.places {
        let slot = &mut slots[place.place];
        let (points, end) = points_at(slot.pair(), collided, start, bounds, shapes);
        start = end;
        kept = slot.replace(points, kept + place.skipped, &mut splices)?;
    }
    Ok(splices)
}
