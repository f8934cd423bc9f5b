//! Two boxes, as Box2D-Lite's Collide.cpp.

ghost use Rattle.std.specs.Prelude.{◌≡◌, ◌<◌};
ghost use Rattle.pf_manifold.specs.Manifold.{points_of};
ghost use Rattle.pf_manifold.specs.Boxes.{face_normal, reference_normal, vertex_feature, vertex_point, vertex_contact, ascending_points, edge_points, reference_points, points_along, collide_boxes, first_face_number};

use crate::clip::clip;
use crate::contact_point::ContactPoint;
use crate::face::Face;
use crate::incident::{ClipVertex, Mark, incident_edge, incident_segment, mark_number};
use crate::manifold::{Manifold, at_most_one};
use crate::placed_shape::OrientedBox;
use crate::reference::{Owner, Reference, reference_of};
use crate::separation::{Frames, Separations, best_axis, frames_of, has_gap, separations_of};
use pf_num::Fx;
use pf_rot::{Rot, V2};

/// The outward normal of a face of a box turned by `q`, in the world.
#[inline]
#[tactic(auto, unfolding(crate::specs::Boxes::face_normal))]
fn face_normal(face: Face, q: Rot) -> V2
    ensures { result ≡ face_normal face q }
{
    let (c, s) = (q.c, q.s);
    match face {
        Face::Right => V2 { x: c, y: s },
        Face::Top => V2 { x: s.neg(), y: c },
        Face::Left => V2 {
            x: c.neg(),
            y: s.neg(),
        },
        Face::Bottom => V2 { x: s, y: c.neg() },
    }
}

/// The normal from `a` to `b`: the outward normal of the reference face, negated where that is a
/// face of `b`.
#[inline]
#[tactic(auto, unfolding(crate::specs::Boxes::reference_normal))]
fn reference_normal(r: &Reference) -> V2
    ensures { result ≡ reference_normal r.now }
{
    let at = r.at;
    let normal = face_normal(r.face, at.rotation);
    match r.owner {
        Owner::BoxA => normal,
        Owner::BoxB => normal.neg(),
    }
}

/// The number of the first face of this box: 0 for `a`, 4 for `b`.
#[inline]
fn first_face_number(owner: Owner) -> u32
    ensures value { result ≡ first_face_number owner }
    ensures bound { result < 5 }
{
    match owner {
        Owner::BoxA => 0,
        Owner::BoxB => 4,
    }
}

/// The feature of a vertex, as Box2D-Lite's `FeaturePair`: 0 to 127, by the reference face, the
/// incident edge and the mark.
#[inline]
#[tactic(auto, unfolding(crate::specs::Boxes::vertex_feature))]
fn vertex_feature(r: &Reference, edge: Face, mark: Mark) -> u32
    ensures { result ≡ vertex_feature r.now edge mark }
{
    let face = first_face_number(r.owner) + r.face.number();
    16 * face + 4 * edge.number() + mark_number(mark)
}

/// The contact point of a vertex, moved to the reference face.
#[inline]
#[tactic(auto, unfolding(crate::specs::Boxes::vertex_point))]
fn vertex_point(r: &Reference, edge: Face, v: ClipVertex, separation: Fx) -> ContactPoint
    ensures { result ≡ vertex_point r.now edge v separation }
{
    let at = r.at;
    let front = r.face.front_extent(at.half);
    ContactPoint {
        feature: vertex_feature(r, edge, v.mark),
        position: at.to_world(r.face.from_parts(front, v.side)),
        normal: reference_normal(r),
        separation,
    }
}

/// The contact point of a vertex, if that isn't in front of the reference face.
#[inline]
#[tactic(auto, unfolding(crate::specs::Boxes::vertex_contact))]
fn vertex_contact(r: &Reference, edge: Face, v: ClipVertex) -> Option<ContactPoint>
    ensures { result ≡ vertex_contact r.now edge v }
{
    let at = r.at;
    let separation = v.front.sub(r.face.front_extent(at.half));
    if separation > Fx::ZERO {
        return None;
    }
    Some(vertex_point(r, edge, v, separation))
}

/// The manifold of these points, in ascending order of their features.
#[inline]
#[tactic(auto, unfolding(crate::specs::Boxes::ascending_points))]
fn ascending_points(first: Option<ContactPoint>, second: Option<ContactPoint>) -> Manifold
    ensures { points_of result ≡ ascending_points first second }
{
    match (first, second) {
        (Some(p), Some(q)) => {
            if q.feature < p.feature {
                Manifold::Two(q, p)
            } else {
                Manifold::Two(p, q)
            }
        }
        (None, point) | (point, None) => at_most_one(point),
    }
}

/// The contact points of this edge of the incident box.
#[inline]
#[tactic(auto, unfolding(crate::specs::Boxes::edge_points))]
fn edge_points(r: &Reference, edge: Face) -> Manifold
    ensures { points_of result ≡ edge_points r.now edge }
{
    let at = r.at;
    match clip(incident_segment(r, edge), r.face.side_part(at.half)) {
        None => Manifold::Apart,
        Some(s) => {
            let first = vertex_contact(r, edge, s.first);
            ascending_points(first, vertex_contact(r, edge, s.second))
        }
    }
}

/// The contact points of the incident edge.
#[inline]
#[tactic(auto, unfolding(crate::specs::Boxes::reference_points))]
fn reference_points(r: &Reference) -> Manifold
    ensures { points_of result ≡ reference_points r.now }
{
    edge_points(r, incident_edge(r))
}

/// The contact points of boxes with these frames and separations.
#[inline]
#[tactic(auto, unfolding(crate::specs::Boxes::points_along))]
fn points_along(a: &OrientedBox, b: &OrientedBox, frames: &Frames, s: &Separations) -> Manifold
    ensures { points_of result ≡ points_along a.now b.now frames.now s.now }
{
    if has_gap(s) {
        return Manifold::Apart;
    }
    let axis = best_axis(s, a.half, b.half);
    reference_points(&reference_of(a, b, frames, axis))
}

/// The contact points of two boxes.
#[tactic(auto, unfolding(crate::specs::Boxes::collide_boxes))]
pub fn collide_boxes(a: &OrientedBox, b: &OrientedBox) -> Manifold
    ensures { points_of result ≡ collide_boxes a.now b.now }
{
    let frames = frames_of(a, b);
    let separations = separations_of(a.half, b.half, &frames);
    points_along(a, b, &frames, &separations)
}
