//! A pair of bodies whose enlarged bounds overlap, with its contact points.

ghost use Rattle.std.specs.Prelude.{◌≡◌, ◌↔◌, ◌≤◌, ◌<◌, ◌+◌, ◌++◌, ◌^◌, IsTrue, OnOk, length, map};
ghost use Rattle.std.specs.List.{enumerate_from};
ghost use Rattle.pf_shapes.specs.Pair.{IsPairOf};
ghost use Rattle.pf_shapes.specs.declared.scene.TheConstants.{MAX_BODIES};
ghost use Rattle.pf_broad.specs.Pairs.{pair_may_touch};
ghost use Rattle.pf_manifold.specs.Key.{key_of};
ghost use Rattle.pf_manifold.specs.Touches.{touch_of};
ghost use Rattle.pf_cache.specs.Slots.{points_or_none};

use crate::kept_shape::are_unmoved;
use crate::key_splices::{KeySplice, KeySplices};
use pf_broad::may_touch;
use pf_manifold::{ContactPoint, Key, Manifold, Touch, touch_of};
use pf_shapes::{Bounds, MAX_BODIES, Pair};
use std::alloc::AllocError;
use std::marker::Model;

/// A pair of bodies whose enlarged bounds overlap, with its contact points, as a `b2Contact` of
/// Box2D 2.x.
#[derive(Debug, Drop)]
pub(crate) struct Slot {
    pair: Pair,
    /// The contact points; none are kept where the bounds were apart.
    points: Option<Manifold>,
}

/// A slot's place among all slots.
#[derive(Clone, Copy, Debug)]
pub(crate) struct SlotPlace {
    /// Its place.
    pub place: usize,
    /// How many contact points stand before its own, from those of the slot that is listed before
    /// it on.
    pub skipped: usize,
}

impl Model for Slot {
    ghost use Rattle.pf_cache.specs.Slots.{Slot, manifold_touches};

    ghost Value = { Slot };

    ghost view = { λ s. record { pair = s.pair; touches = manifold_touches s.pair s.points } };
}

/// Whether the bodies of a pair may touch: they are not both static, and their bounds overlap.
#[inline]
pub(crate) fn pair_may_touch(bounds: &[Bounds], pair: &Pair) -> bool
    requires { IsPairOf (length bounds.now) pair.now }
    ensures { result ≡ pair_may_touch bounds.now pair.now }
{
    may_touch(&bounds[pair.a], &bounds[pair.b])
}

/// Whether two contact points have the same feature.
#[inline]
fn has_same_feature(point: &ContactPoint, other: &ContactPoint) -> bool
    ensures { IsTrue result ↔ (point.now.feature ≡ other.now.feature) }
{
    point.feature == other.feature
}

/// Whether contact points are as many as these, with the same features in the same order.
#[inline]
fn have_same_features(points: &Option<Manifold>, others: &Option<Manifold>) -> bool
    ensures { IsTrue result ↔ (map (λ p. p.feature) (points_or_none points.now)
        ≡ map (λ p. p.feature) (points_or_none others.now)) }
{
    match (points, others) {
        (None | Some(Manifold::Apart), None | Some(Manifold::Apart)) => true,
        (Some(Manifold::One(first)), Some(Manifold::One(point))) => has_same_feature(first, point),
        (Some(Manifold::Two(first, second)), Some(Manifold::Two(point, last))) => {
            has_same_feature(first, point) && has_same_feature(second, last)
        }
        _ => false,
    }
}

/// How many contact points there are.
#[inline]
fn count_of(points: &Option<Manifold>) -> usize
    ensures count { result ≡ length (points_or_none points.now) }
    ensures few { result ≤ 2 }
{
    match points {
        None | Some(Manifold::Apart) => 0,
        Some(Manifold::One(_)) => 1,
        Some(Manifold::Two(_, _)) => 2,
    }
}

/// Adds the contact points of a pair to a list, each with its place among all: `place` is that of
/// the first.
#[inline]
fn push_placed(
    list: &mut Vec<(usize, Touch)>,
    place: usize,
    pair: &Pair,
    points: &Option<Manifold>,
) -> Result<(), AllocError>
    requires pair { IsPairOf MAX_BODIES pair.now }
    requires number { place + length (points_or_none points.now) < 2 ^ 64 }
    ensures { OnOk result (list.new.items ≡ list.old.items
        ++ enumerate_from place (map (touch_of pair.now) (points_or_none points.now))) }
{
    match points {
        None | Some(Manifold::Apart) => {}
        Some(Manifold::One(first)) => list.push((place, touch_of(pair, *first)))?,
        Some(Manifold::Two(first, second)) => {
            list.push((place, touch_of(pair, *first)))?;
            list.push((place + 1, touch_of(pair, *second)))?;
        }
    }
    Ok(())
}

/// The key of a contact point of a pair.
#[inline]
fn key_of(pair: &Pair, point: &ContactPoint) -> Key
    requires { IsPairOf MAX_BODIES pair.now }
    ensures { result ≡ key_of (touch_of pair.now point.now) }
{
    Key {
        a: pair.a as u16,
        b: pair.b as u16,
        feature: point.feature,
    }
}

impl Slot {
    ghost use Rattle.std.specs.Prelude.{◌≡◌, ◌≤◌, ◌<◌, ◌++◌, ◌+◌, ◌∷◌, ◌^◌, ◌==◌, ◌&&◌, All, IfOk, IsOk, List, None, OnOk, [], filter, if◌then◌else◌, length, map};
    ghost use Rattle.std.specs.List.{enumerate_from};
    ghost use Rattle.pf_shapes.specs.Pair.{IsPairOf};
    ghost use Rattle.pf_shapes.specs.declared.scene.TheConstants.{MAX_BODIES};
    ghost use Rattle.pf_manifold.specs.Key.{Key, key_of};
    ghost use Rattle.pf_manifold.specs.Touches.{IsTouchOf, touch_of};
    ghost use Rattle.pf_cache.specs.Points.{is_flagged};
    ghost use Rattle.pf_cache.specs.KeySplices.{AreSplicesUpTo};
    ghost use Rattle.pf_cache.specs.Slots.{Slot, is_stale_if, manifold_touches, slot_touches};

    /// The slot of a pair, without contact points.
    #[inline]
    pub(crate) fn empty(pair: Pair) -> Slot
        ensures { result ≡ record { pair = pair; touches = None } }
    {
        Slot { pair, points: None }
    }

    /// A copy.
    #[inline]
    pub(crate) fn copied(&self) -> Slot
        ensures { result ≡ self.now }
    {
        Slot {
            pair: self.pair,
            points: self.points,
        }
    }

    /// Whether it is the slot of this pair.
    #[inline]
    pub(crate) fn is_of(&self, pair: &Pair) -> bool
        ensures { result ≡ (self.now.pair.a == pair.now.a) && (self.now.pair.b == pair.now.b) }
    {
        (self.pair.a == pair.a) & (self.pair.b == pair.b)
    }

    /// The pair.
    #[inline]
    pub(crate) fn pair(&self) -> &Pair
        ensures { result.now ≡ self.now.pair }
    {
        &self.pair
    }

    /// How many contact points there are.
    #[inline]
    pub(crate) fn count(&self) -> usize
        ensures count { result ≡ length (slot_touches self.now) }
        ensures few { result ≤ 2 }
    {
        count_of(&self.points)
    }

    /// Whether the slot has to be brought up to date: where its bounds overlap, if they did not
    /// before or a body has moved; where they do not, if it still has contact points.
    #[inline]
    pub(crate) fn is_stale(&self, overlap: bool, unmoved: &[bool]) -> bool
        ensures { result ≡ is_stale_if overlap unmoved.now self.now }
    {
        if overlap {
            return self.points.is_none() || !are_unmoved(unmoved, &self.pair);
        }
        self.points.is_some()
    }

    /// Gives the slot these contact points, and notes in `splices` how the keys change: `kept` keys
    /// stay between the last splice and those of the slot. Returns how many stay after the last splice
    /// then. After an error the slot and `splices` may have changed.
    #[inline]
    pub(crate) fn replace(
        &mut self,
        points: Option<Manifold>,
        kept: usize,
        splices: &mut KeySplices,
    ) -> Result<usize, AllocError>
        requires pair { IsPairOf MAX_BODIES self.old.pair }
        requires room { kept + length (slot_touches self.old) < 2 ^ 64 }
        ensures slot { OnOk result
            (self.new ≡ record self.old { touches = manifold_touches self.old.pair points }) }
        ensures splices { IfOk result (λ rest. (before after : List Key)
            → AreSplicesUpTo splices.old kept before after
            → AreSplicesUpTo splices.new rest
            (before ++ map key_of (slot_touches self.old))
            (after ++ map key_of (slot_touches self.new))) }
    {
        let same_keys = have_same_features(&self.points, &points);
        let dropped = self.count();
        self.points = points;
        let added = self.count();
        if same_keys {
            return Ok(kept + dropped);
        }
        splices.splices.push(KeySplice {
            kept,
            dropped,
            added,
        })?;
        self.push_keys(&mut splices.added)?;
        Ok(0)
    }

    /// Adds the keys of the contact points to a list. After an error some of them may have been
    /// added.
    #[inline]
    pub(crate) fn push_keys(&self, keys: &mut Vec<Key>) -> Result<(), AllocError>
        requires { IsPairOf MAX_BODIES self.now.pair }
        ensures added { OnOk result
            (keys.new.items ≡ keys.old.items ++ map key_of (slot_touches self.now)) }
        ensures no_memory { slot_touches self.now ≡ [] → IsOk result }
    {
        match &self.points {
            None | Some(Manifold::Apart) => {}
            Some(Manifold::One(first)) => keys.push(key_of(&self.pair, first))?,
            Some(Manifold::Two(first, second)) => {
                keys.push(key_of(&self.pair, first))?;
                keys.push(key_of(&self.pair, second))?;
            }
        }
        Ok(())
    }

    /// Adds the contact points to a list, each with its place among all, if one of the bodies has
    /// its flag set: `place` is that of the first. After an error some of them may have been added.
    #[inline(always)]
    pub(crate) fn push_flagged(
        &self,
        points: &mut Vec<(usize, Touch)>,
        place: usize,
        flags: &[bool],
    ) -> Result<(), AllocError>
        requires pair { IsPairOf MAX_BODIES self.now.pair }
        requires number { place + length (slot_touches self.now) < 2 ^ 64 }
        requires flags { All (IsTouchOf (length flags.now)) (slot_touches self.now) }
        ensures added { OnOk result (points.new.items ≡ points.old.items
            ++ filter (λ m. is_flagged flags.now m.1)
            (enumerate_from place (slot_touches self.now))) }
        ensures no_memory { slot_touches self.now ≡ [] → IsOk result }
    {
        let pair = &self.pair;
        if self.count() == 0 || !(flags[pair.a] | flags[pair.b]) {
            return Ok(());
        }
        push_placed(points, place, pair, &self.points)
    }
}
