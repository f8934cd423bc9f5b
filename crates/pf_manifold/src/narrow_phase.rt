//! Contact points of two bodies, by their shapes, as Box2D 2.x's `b2Contact::Evaluate`.

ghost use Rattle.std.specs.Prelude.{◌≡◌};
ghost use Rattle.pf_manifold.specs.Manifold.{points_of};
ghost use Rattle.pf_manifold.specs.Collide.{box_at, mirror_image, collide};

use crate::box_circle::collide_box_circle;
use crate::boxes::collide_boxes;
use crate::circles::collide_circles;
use crate::contact_point::ContactPoint;
use crate::manifold::{Manifold, at_most_one};
use crate::placed_shape::{OrientedBox, PlacedShape};
use pf_num::Fx;
use pf_rot::V2;
use pf_shapes::Shape;

/// A box of these half extents at the body's position and rotation.
#[inline]
#[tactic(auto, unfolding(crate::specs::Collide::box_at))]
fn box_at(hx: Fx, hy: Fx, body: &PlacedShape) -> OrientedBox
    ensures { result ≡ box_at hx hy body.now }
{
    OrientedBox {
        half: V2 { x: hx, y: hy },
        position: body.position,
        rotation: body.rotation,
    }
}

/// The contact point with the opposite normal.
#[inline]
#[tactic(auto, unfolding(crate::specs::Collide::mirror_image))]
fn mirror_image(point: ContactPoint) -> ContactPoint
    ensures { result ≡ mirror_image point }
{
    ContactPoint {
        normal: point.normal.neg(),
        ..point
    }
}

/// The contact points of two bodies: up to two, in ascending order of features, with normals from
/// `a` to `b`. It is defined for all positions, rotations and sizes, and takes no memory.
#[tactic(auto, unfolding(crate::specs::Collide::collide, crate::specs::Collide::collide_shapes))]
pub fn collide(a: &PlacedShape, b: &PlacedShape) -> Manifold
    ensures { points_of result ≡ collide a.now b.now }
{
    match (a.shape, b.shape) {
        (Shape::Circle { r: ra }, Shape::Circle { r: rb }) => {
            at_most_one(collide_circles(a.position, *ra, b.position, *rb))
        }
        (Shape::Box { hx, hy }, Shape::Circle { r }) => {
            at_most_one(collide_box_circle(&box_at(*hx, *hy, a), b.position, *r))
        }
        (Shape::Circle { r }, Shape::Box { hx, hy }) => {
            let point = collide_box_circle(&box_at(*hx, *hy, b), a.position, *r);
            at_most_one(point.map(mirror_image))
        }
        (Shape::Box { hx, hy }, Shape::Box { hx: kx, hy: ky }) => {
            collide_boxes(&box_at(*hx, *hy, a), &box_at(*kx, *ky, b))
        }
    }
}
