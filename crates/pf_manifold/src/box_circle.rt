//! A box and a circle, as Box2D 2.x's `b2CollidePolygonAndCircle`.

ghost use Rattle.std.specs.Prelude.{◌≡◌, ◌<◌};
ghost use Rattle.pf_manifold.specs.BoxCircle.{clamp, closest_point, region_of, region_number, region_feature, outside_contact, face_distance, closer_face, closest_face, inside_point, contact_at, world_contact, collide_box_circle};

use crate::circles::normalize;
use crate::contact_point::ContactPoint;
use crate::face::Face;
use crate::placed_shape::OrientedBox;
use pf_num::Fx;
use pf_rot::V2;

/// The Voronoi region of a coordinate: below, within or above a closed range.
#[derive(Clone, Copy)]
pub enum Region {
    Below,
    Within,
    Above,
}

/// `z` clamped to the range from `-h` to `h`.
#[inline]
#[tactic(auto, unfolding(crate::specs::BoxCircle::clamp))]
fn clamp(h: Fx, z: Fx) -> Fx
    ensures { result ≡ clamp h z }
{
    h.neg().max(h.min(z))
}

/// The point of a box closest to `d`, both in the box's own axes.
#[inline]
#[tactic(auto, unfolding(crate::specs::BoxCircle::closest_point))]
fn closest_point(half: V2, d: V2) -> V2
    ensures { result ≡ closest_point half d }
{
    V2 {
        x: clamp(half.x, d.x),
        y: clamp(half.y, d.y),
    }
}

/// The region of `z`: below `-h`, above `h`, or within.
#[inline]
#[tactic(auto, unfolding(crate::specs::BoxCircle::region_of))]
fn region_of(h: Fx, z: Fx) -> Region
    ensures { result ≡ region_of h z }
{
    if z < h.neg() {
        Region::Below
    } else if z > h {
        Region::Above
    } else {
        Region::Within
    }
}

/// 0 to 2.
#[inline]
fn region_number(region: Region) -> u32
    ensures value { result ≡ region_number region }
    ensures bound { result < 3 }
{
    match region {
        Region::Below => 0,
        Region::Within => 1,
        Region::Above => 2,
    }
}

/// The feature of a circle with its centre `d` outside the box: 128 to 136 but 132, by the regions
/// on both axes.
#[inline]
#[tactic(auto, unfolding(crate::specs::BoxCircle::region_feature))]
fn region_feature(half: V2, d: V2) -> u32
    ensures { result ≡ region_feature half d }
{
    let x = region_number(region_of(half.x, d.x));
    let y = region_number(region_of(half.y, d.y));
    128 + 3 * x + y
}

/// The contact point at `closest`, in the box's own axes, if its distance from the circle's centre
/// `d` is at most the radius. `e` is the vector from `closest` to `d`.
#[inline]
#[tactic(auto, unfolding(crate::specs::BoxCircle::outside_contact, crate::specs::BoxCircle::outside_point))]
fn outside_contact(half: V2, r: Fx, d: V2, closest: V2, e: V2) -> Option<ContactPoint>
    ensures { result ≡ outside_contact half r d closest e }
{
    let length = e.length();
    if length > r {
        return None;
    }
    Some(ContactPoint {
        feature: region_feature(half, d),
        position: closest,
        normal: normalize(e, length),
        separation: length.sub(r),
    })
}

/// The distance of `d` from a face, from inside the box.
#[inline]
#[tactic(auto, unfolding(crate::specs::BoxCircle::face_distance))]
fn face_distance(half: V2, d: V2, face: Face) -> Fx
    ensures { result ≡ face_distance half d face }
{
    match face {
        Face::Right => half.x.sub(d.x),
        Face::Top => half.y.sub(d.y),
        Face::Left => half.x.add(d.x),
        Face::Bottom => half.y.add(d.y),
    }
}

/// `face` where it is closer to `d` than `best`, else `best`.
#[inline]
#[tactic(auto, unfolding(crate::specs::BoxCircle::closer_face))]
fn closer_face(half: V2, d: V2, best: Face, face: Face) -> Face
    ensures { result ≡ closer_face half d best face }
{
    if face_distance(half, d, face) < face_distance(half, d, best) {
        face
    } else {
        best
    }
}

/// The face closest to `d`, the first in the order right, top, left, bottom.
#[inline]
#[tactic(auto, unfolding(crate::specs::BoxCircle::closest_face))]
fn closest_face(half: V2, d: V2) -> Face
    ensures { result ≡ closest_face half d }
{
    let best = closer_face(half, d, Face::Right, Face::Top);
    let best = closer_face(half, d, best, Face::Left);
    closer_face(half, d, best, Face::Bottom)
}

/// The contact point on this face, next to the circle's centre `d`, in the box's own axes. Its
/// feature is 140 to 143.
#[inline]
#[tactic(auto, unfolding(crate::specs::BoxCircle::inside_point))]
fn inside_point(half: V2, r: Fx, d: V2, face: Face) -> ContactPoint
    ensures { result ≡ inside_point half r d face }
{
    let front = face.front_extent(half);
    ContactPoint {
        feature: 140 + face.number(),
        position: face.from_parts(front, face.side_part(d)),
        normal: face.outward_normal(),
        separation: face_distance(half, d, face).neg().sub(r),
    }
}

/// The contact point in the box's own axes. `closest` is the point of the box closest to the
/// circle's centre `d`.
#[inline]
#[tactic(auto, unfolding(crate::specs::BoxCircle::contact_at))]
fn contact_at(half: V2, r: Fx, d: V2, closest: V2) -> Option<ContactPoint>
    ensures { result ≡ contact_at half r d closest }
{
    if d.x == closest.x && d.y == closest.y {
        Some(inside_point(half, r, d, closest_face(half, d)))
    } else {
        outside_contact(half, r, d, closest, d.sub(closest))
    }
}

/// A contact point in the box's own axes, transformed to the world.
#[inline]
#[tactic(auto, unfolding(crate::specs::BoxCircle::world_contact))]
fn world_contact(at: &OrientedBox, point: ContactPoint) -> ContactPoint
    ensures { result ≡ world_contact at.now point }
{
    ContactPoint {
        position: at.to_world(point.position),
        normal: at.rotation.rotate(point.normal),
        ..point
    }
}

/// The contact point of a box and a circle with this centre and radius, if they touch, with the
/// normal from the box to the circle.
#[tactic(auto, unfolding(crate::specs::BoxCircle::collide_box_circle))]
pub fn collide_box_circle(at: &OrientedBox, centre: V2, r: Fx) -> Option<ContactPoint>
    ensures { result ≡ collide_box_circle at.now centre r }
{
    let d = at.to_box(centre);
    let point = contact_at(at.half, r, d, closest_point(at.half, d))?;
    Some(world_contact(at, point))
}
