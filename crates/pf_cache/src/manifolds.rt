//! Contact points that are kept from tick to tick.

ghost use Rattle.std.specs.Prelude.{◌≡◌, ◌≤◌, All, IfOk, IfSome, IsTrue, count_by, length, map};
ghost use Rattle.std.specs.List.{flat_map};
ghost use Rattle.pf_shapes.specs.Pair.{IsAscending, IsPairOf};
ghost use Rattle.pf_manifold.specs.Touches.{touches};
ghost use Rattle.pf_manifold.specs.Key.{IsRising, key_of};
ghost use Rattle.pf_cache.specs.KeySplices.{AreSplicesBetween};
ghost use Rattle.pf_cache.specs.Live.{AreLive};
ghost use Rattle.pf_cache.specs.Manifolds.{placed_shapes};
ghost use Rattle.pf_cache.specs.Slots.{HasFewTouches, IsFreshUnlessLive, HasSoundPoints, carried_slot, needs_points, pair_rank, slot_of, slot_touches};

use crate::carrying::{Carried, carried_slots};
use crate::key_splices::KeySplices;
use crate::live::{Live, are_watched, live_of};
use crate::placed_bodies::PlacedBodies;
use crate::slot::Slot;
use crate::slots::{flagged_points_of, flagged_points_of_live, keys_of};
use crate::stale::{refresh_slots, stale_slots};
use pf_broad::BroadPhase;
use pf_manifold::{Collider, Key, Touch};
use pf_shapes::{BodyState, MAX_BODIES, Pair, Scene};
use std::alloc::{AllocError, Global};
use std::marker::Model;

/// The contact points of pairs of bodies as the bodies stood in the last narrow phase, as a
/// `b2Contact` of Box2D 2.x keeps its manifold. They are sound for every scene and world, since
/// they are kept with the shapes, positions and rotations that they were computed from.
///
/// With them stands the broad phase, whose candidates have a slot each. Contracts see only the
/// pairs whose bounds overlap.
#[derive(Debug, Drop)]
pub struct Manifolds {
    placed: PlacedBodies,
    broad_phase: BroadPhase,
    slots: Vec<Slot>,
    live: Live,
}

impl Model for Manifolds {
    ghost use Rattle.pf_cache.specs.Manifolds.{Manifolds};
    ghost use Rattle.pf_cache.specs.Live.{AreLive};
    ghost use Rattle.pf_cache.specs.Slots.{AreSlots, overlapping};

    ghost Value = { Manifolds };

    ghost view = { λ m. record {
      shapes = m.placed.shapes;
      bounds = m.placed.bounds;
      pairs = overlapping m.slots.items;
    } };

    ghost invariant = { λ m. AreSlots m.broad_phase m.placed.bounds m.placed.shapes m.slots.items
        × AreLive m.live.watched.items m.live.places.items m.slots.items };
}

/// What the narrow phase of a tick found.
#[derive(Debug, Drop)]
pub struct Collisions {
    /// The contact points of the tick's pairs.
    pub manifolds: Manifolds,
    /// How many pairs could not reuse kept points.
    pub computed: usize,
}

impl Model for Collisions {
    ghost use Rattle.pf_cache.specs.Manifolds.{Collisions};

    ghost Value = { Collisions };

    ghost view = { λ n. record { manifolds = n.manifolds; computed = n.computed } };
}

/// What an update of kept contact points found.
#[derive(Debug, Drop)]
pub struct FoundCollisions {
    /// What the narrow phase of the tick found.
    pub collisions: Collisions,
    /// How the keys of the contact points changed since they were kept, if that is known.
    pub key_splices: Option<KeySplices>,
}

/// These contact points, with how many pairs could not reuse kept points, and how the keys changed.
#[inline]
fn found(manifolds: Manifolds, computed: usize, key_splices: Option<KeySplices>) -> FoundCollisions
    ensures manifolds { result.collisions.manifolds ≡ manifolds }
    ensures computed { result.collisions.computed ≡ computed }
    ensures key_splices { result.key_splices ≡ key_splices }
{
    FoundCollisions {
        collisions: Collisions {
            manifolds,
            computed,
        },
        key_splices,
    }
}

/// What the update of the slots of a tick found.
#[derive(Drop)]
struct Refreshed {
    /// How many pairs had their contact points computed.
    computed: usize,
    /// How the keys of the contact points changed.
    key_splices: KeySplices,
}

/// The contact points of these pairs by the collider, where they are many.
fn collided<C: Collider>(
    collider: &C,
    alloc: Global,
    scene: &Scene,
    bodies: &[BodyState],
    pairs: &[Pair],
) -> Result<Option<Vec<Touch>>, AllocError>
    requires can { C.can_collide collider.now }
    requires bodies { length bodies.now ≡ length scene.now.fixtures }
    requires pairs { All (IsPairOf (length bodies.now)) pairs.now }
    ensures { IfOk result (λ collided. IfSome collided
        (λ points. points.items ≡ touches scene.now.fixtures bodies.now pairs.now)) }
{
    if pairs.len() < C::MANY {
        return Ok(None);
    }
    Ok(Some(collider.collide(alloc, scene, bodies, pairs)?))
}

/// Brings slots up to date: those whose bounds overlap get the contact points of their pairs.
/// Points are computed where the bounds did not overlap before or a body moved. Only live slots are
/// looked at, and which ones are live does not change.
fn update_slots<C: Collider>(
    collider: &C,
    alloc: Global,
    scene: &Scene,
    bodies: &[BodyState],
    slots: &mut [Slot],
    live: &Live,
    unmoved: Vec<bool>,
    placed: &PlacedBodies,
) -> Result<Refreshed, AllocError>
    requires can { C.can_collide collider.now }
    requires bodies { length bodies.now ≡ length scene.now.fixtures }
    requires shapes { placed.now.shapes ≡ placed_shapes scene.now.fixtures bodies.now }
    requires bounds { length placed.now.bounds ≡ length bodies.now }
    requires few { length bodies.now ≤ MAX_BODIES }
    requires ascending { IsAscending (map (λ s. s.pair) slots.old) }
    requires pairs { All (λ s. IsPairOf (length placed.now.bounds) s.pair) slots.old }
    requires live { AreLive live.now.watched.items live.now.places.items slots.old }
    requires others { All (IsFreshUnlessLive placed.now.bounds unmoved.items live.now.watched.items)
        slots.old }
    requires kept { All (HasSoundPoints placed.now.shapes unmoved.items) slots.old }
    requires touches { All HasFewTouches slots.old }
    ensures slots { IfOk result (λ _. slots.new
        ≡ map (slot_of placed.now.bounds placed.now.shapes) (map (λ s. s.pair) slots.old)) }
    ensures live { IfOk result
        (λ _. AreLive live.now.watched.items live.now.places.items slots.new) }
    ensures computed { IfOk result (λ refreshed. refreshed.computed
        ≡ count_by (needs_points placed.now.bounds unmoved.items) slots.old) }
    ensures key_splices { IfOk result (λ refreshed. AreSplicesBetween refreshed.key_splices
        (map key_of (flat_map slot_touches slots.old))
        (map key_of (flat_map slot_touches slots.new))) }
{
    let bounds = placed.bounds();
    let stale = stale_slots(alloc, slots, live, unmoved, bounds)?;
    let pairs = stale.pairs.as_slice();
    let collided = collided(collider, alloc, scene, bodies, pairs)?;
    let key_splices = refresh_slots(alloc, slots, &stale, &collided, bounds, placed.shapes())?;
    Ok(Refreshed {
        computed: pairs.len(),
        key_splices,
    })
}

/// The slots of the candidates: those that are kept, where the candidates are the same.
fn slots_of(
    alloc: Global,
    kept: Vec<Slot>,
    same: bool,
    candidates: &[Pair],
) -> Result<Carried, AllocError>
    requires rising { IsRising 0 (map (λ s. pair_rank s.pair) kept.items) }
    requires bodies { All (λ s. IsPairOf MAX_BODIES s.pair) kept.items }
    requires ascending { IsAscending candidates.now }
    requires pairs { All (IsPairOf MAX_BODIES) candidates.now }
    requires same { IsTrue same → map (carried_slot kept.items) candidates.now ≡ kept.items }
    ensures slots { IfOk result
        (λ carried. carried.slots.items ≡ map (carried_slot kept.items) candidates.now) }
    ensures all { IfOk result (λ carried. IsTrue carried.has_all
        → flat_map slot_touches carried.slots.items ≡ flat_map slot_touches kept.items) }
{
    if same {
        return Ok(Carried {
            slots: kept,
            has_all: true,
        });
    }
    carried_slots(alloc, &kept, candidates)
}

impl Manifolds {
    ghost use Rattle.std.specs.Prelude.{◌≡◌, ◌<◌, [], length, map, All, IfOk, IfSome, IsOk};
    ghost use Rattle.pf_broad.specs.Pairs.{all_bounds, pairs};
    ghost use Rattle.pf_manifold.specs.Key.{key_of};
    ghost use Rattle.pf_manifold.specs.Touches.{IsTouchOf};
    ghost use Rattle.pf_cache.specs.Contact.{AreKeys};
    ghost use Rattle.pf_cache.specs.KeySplices.{AreSplicesBetween};
    ghost use Rattle.pf_cache.specs.PlacedBodies.{HaveStayed, bodies_of};
    ghost use Rattle.pf_cache.specs.Manifolds.{computed_count, kept_touches, manifolds_of, no_manifolds, placed_shapes};
    ghost use Rattle.pf_cache.specs.Points.{flagged_points};

    /// Nothing kept. Takes no memory.
    pub fn new(alloc: Global) -> Manifolds
        ensures { result ≡ no_manifolds }
    {
        Manifolds {
            placed: PlacedBodies::new(alloc),
            broad_phase: BroadPhase::new(alloc),
            slots: Vec::new(alloc),
            live: Live::new(alloc),
        }
    }

    /// The keys of the contact points, in their order. Takes no memory where there are none.
    pub fn keys(&self, alloc: Global) -> Result<Vec<Key>, AllocError>
        ensures value { IfOk result (λ keys. keys.items ≡ map key_of (kept_touches self.now)) }
        ensures order { AreKeys (map key_of (kept_touches self.now)) }
        ensures no_memory { kept_touches self.now ≡ [] → IsOk result }
    {
        keys_of(alloc, &self.slots)
    }

    /// The contact points with a body whose flag is set, each with its place among all. Takes no
    /// memory where there are no contact points.
    pub fn points_of(
        &self,
        alloc: Global,
        flags: &[bool],
    ) -> Result<Vec<(usize, Touch)>, AllocError>
        requires { All (IsTouchOf (length flags.now)) (kept_touches self.now) }
        ensures points { IfOk result
            (λ points. points.items ≡ flagged_points flags.now (kept_touches self.now)) }
        ensures no_memory { kept_touches self.now ≡ [] → IsOk result }
    {
        let slots = self.slots.as_slice();
        if are_watched(&self.live.watched, flags) {
            return flagged_points_of_live(alloc, slots, &self.live, flags);
        }
        flagged_points_of(alloc, slots, flags)
    }

    /// The contact points of all pairs of bodies, at most one of them static, whose bounds overlap.
    /// The points of a pair that is kept are reused if both bodies still have the shape, position
    /// and rotation that they had. The other pairs cannot reuse kept points: theirs are computed,
    /// and these pairs are counted. The collider computes them if they are many. Where as many
    /// bodies are kept, only those of `dirty` are compared with how they stood: all others must
    /// stand as they did, and if `dirty` is empty, what is kept is returned as it is. An error
    /// drops what is kept. Takes no memory where there are no bodies.
    ///
    /// No clause says that `key_splices` are known wherever they could be.
    pub fn update<C: Collider>(
        self,
        collider: &C,
        alloc: Global,
        scene: &Scene,
        bodies: &[BodyState],
        dirty: &[usize],
    ) -> Result<FoundCollisions, AllocError>
        requires can { C.can_collide collider.now }
        requires bodies { length bodies.now ≡ length scene.now.fixtures }
        requires dirty { All (λ number. number < length bodies.now) dirty.now }
        requires others { HaveStayed dirty.now (bodies_of self) scene.now.fixtures bodies.now }
        ensures manifolds { IfOk result (λ found. found.collisions.manifolds
            ≡ manifolds_of scene.now.fixtures bodies.now
            (pairs (all_bounds scene.now.fixtures bodies.now))) }
        ensures computed { IfOk result (λ found. found.collisions.computed
            ≡ computed_count self (placed_shapes scene.now.fixtures bodies.now)
            (pairs (all_bounds scene.now.fixtures bodies.now))) }
        ensures key_splices { IfOk result (λ found. IfSome found.key_splices
            (λ splices. AreSplicesBetween splices (map key_of (kept_touches self))
            (map key_of (kept_touches found.collisions.manifolds)))) }
        ensures no_memory { bodies.now ≡ [] → IsOk result }
    {
        if bodies.is_empty() {
            return Ok(found(Manifolds::new(alloc), 0, None));
        }
        if dirty.is_empty() && self.placed.shapes().len() == bodies.len() {
            return Ok(found(self, 0, Some(KeySplices::new(alloc))));
        }
        let before = self.placed.shapes().len();
        let (placed, unmoved) = self.placed.update(alloc, scene, bodies, dirty)?;
        let mut broad_phase = self.broad_phase;
        let same = broad_phase.update(alloc, placed.bounds(), bodies, dirty)?;
        let carried = slots_of(alloc, self.slots, same, broad_phase.candidates())?;
        let Carried { mut slots, has_all } = carried;
        let live = live_of(alloc, self.live, same, &slots, before, bodies.len(), dirty)?;
        let refreshed = update_slots(
            collider, alloc, scene, bodies, &mut slots, &live, unmoved, &placed,
        )?;
        let manifolds = Manifolds {
            placed,
            broad_phase,
            slots,
            live,
        };
        let Refreshed {
            computed,
            key_splices,
        } = refreshed;
        let key_splices = if has_all { Some(key_splices) } else { None };
        Ok(found(manifolds, computed, key_splices))
    }
}
