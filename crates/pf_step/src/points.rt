//! The phase Points: the contact points of a tick. Its contacts follow in
//! [`Changes::update_contacts`](crate::Changes).

ghost use Rattle.std.specs.Prelude.{◌≡◌, ◌<◌, [], All, length, map, IfOk, IfSome, IsOk};
ghost use Rattle.pf_manifold.specs.Key.{key_of};
ghost use Rattle.pf_manifold.specs.Touches.{IsTouchOf};
ghost use Rattle.pf_cache.specs.KeySplices.{AreSplicesBetween};
ghost use Rattle.pf_cache.specs.Manifolds.{kept_touches};
ghost use Rattle.pf_cache.specs.PlacedBodies.{HaveStayed, bodies_of};
ghost use Rattle.pf_step.specs.Step.{collisions_of_bodies, touches_of_scene};

use pf_cache::{FoundCollisions, Manifolds};
use pf_manifold::Collider;
use pf_shapes::{BodyState, Scene};
use std::alloc::{AllocError, Global};

/// The contact points of the bodies of a scene as they stand; kept ones are reused. Only bodies of
/// `dirty` may have moved since these were kept. Also finds how the keys of the points changed
/// since then, if that is known.
#[tactic(auto, using(pf_cache::proofs::Unmoved::kept_points, pf_manifold::proofs::KeyOrder::touches_of_bodies))]
pub(crate) fn find_collisions<P: Collider>(
    collider: &P,
    alloc: Global,
    scene: &Scene,
    bodies: &[BodyState],
    kept: Manifolds,
    dirty: &[usize],
) -> Result<FoundCollisions, AllocError>
    requires can { P.can_collide collider.now }
    requires bodies { length bodies.now ≡ length scene.now.fixtures }
    requires dirty { All (λ number. number < length bodies.now) dirty.now }
    requires others { HaveStayed dirty.now (bodies_of kept) scene.now.fixtures bodies.now }
    ensures value { IfOk result
        (λ found. found.collisions ≡ collisions_of_bodies scene.now.fixtures bodies.now kept) }
    ensures touches { IfOk result (λ found. kept_touches found.collisions.manifolds
        ≡ touches_of_scene scene.now bodies.now) }
    ensures bodies { IfOk result (λ found. All (IsTouchOf (length bodies.now))
        (kept_touches found.collisions.manifolds)) }
    ensures key_splices { IfOk result (λ found. IfSome found.key_splices
        (λ splices. AreSplicesBetween splices (map key_of (kept_touches kept))
        (map key_of (kept_touches found.collisions.manifolds)))) }
    ensures no_memory { bodies.now ≡ [] → IsOk result }
{
    kept.update(collider, alloc, scene, bodies, dirty)
}
