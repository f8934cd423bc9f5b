//! The incident edge, as Box2D-Lite's `ComputeIncidentEdge`.

ghost use Rattle.std.specs.Prelude.{◌≡◌, ◌<◌};
ghost use Rattle.pf_manifold.specs.Incident.{ClipVertex, Segment, inward_normal, edge_along, incident_edge, first_corner, second_corner, mark_number, vertex_of, corner_vertex, incident_segment};

use crate::face::Face;
use crate::reference::Reference;
use pf_num::Fx;
use pf_rot::{Rot, V2};
use std::marker::Model;

/// The origin of a vertex, for its feature: an end of the incident edge, or a crossing with a side
/// of the reference face.
#[derive(Clone, Copy)]
pub enum Mark {
    First,
    Second,
    CutLow,
    CutHigh,
}

/// A vertex of the incident edge in the coordinates of the reference face, as Box2D's
/// `b2ClipVertex`.
#[derive(Clone, Copy)]
pub struct ClipVertex {
    /// The coordinate along the reference normal, from the reference box's centre, in units of
    /// 2^-24 of a length.
    pub front: Fx,
    /// The coordinate along the reference face.
    pub side: Fx,
    /// The origin.
    pub mark: Mark,
}

impl Model for ClipVertex {
    ghost Value = { ClipVertex };

    ghost view = { λ v. record { front = v.front; side = v.side; mark = v.mark } };

    ghost inverse = { λ v. record { front = v.front; side = v.side; mark = v.mark } };
}

/// A part of the incident edge.
#[derive(Clone, Copy)]
pub struct Segment {
    pub first: ClipVertex,
    pub second: ClipVertex,
}

impl Model for Segment {
    ghost Value = { Segment };

    ghost view = { λ s. record { first = s.first; second = s.second } };

    ghost inverse = { λ s. record { first = s.first; second = s.second } };
}

/// 0 to 3.
#[inline]
pub fn mark_number(mark: Mark) -> u32
    ensures value { result ≡ mark_number mark }
    ensures bound { result < 4 }
{
    match mark {
        Mark::First => 0,
        Mark::Second => 1,
        Mark::CutLow => 2,
        Mark::CutHigh => 3,
    }
}

/// The inward normal of the reference face in the axes of the incident box, of the relative
/// rotation `q`.
#[inline]
#[tactic(auto, unfolding(crate::specs::Incident::inward_normal))]
fn inward_normal(face: Face, q: Rot) -> V2
    ensures { result ≡ inward_normal face q }
{
    let (c, s) = (q.c, q.s);
    match face {
        Face::Right => V2 { x: c.neg(), y: s },
        Face::Top => V2 {
            x: s.neg(),
            y: c.neg(),
        },
        Face::Left => V2 { x: c, y: s.neg() },
        Face::Bottom => V2 { x: s, y: c },
    }
}

/// The edge whose outward normal is closest to the direction `n`: right or left only where `n` is
/// longer along x than along y.
#[inline]
#[tactic(auto, unfolding(crate::specs::Incident::edge_along))]
fn edge_along(n: V2) -> Face
    ensures { result ≡ edge_along n }
{
    if n.x.abs() > n.y.abs() {
        if n.x > Fx::ZERO {
            Face::Right
        } else {
            Face::Left
        }
    } else if n.y > Fx::ZERO {
        Face::Top
    } else {
        Face::Bottom
    }
}

/// The incident edge: the one whose outward normal is most against the reference normal.
#[inline]
#[tactic(auto, unfolding(crate::specs::Incident::incident_edge))]
pub fn incident_edge(r: &Reference) -> Face
    ensures { result ≡ incident_edge r.now }
{
    edge_along(inward_normal(r.face, r.relative))
}

/// The first end of an edge, counterclockwise, in the axes of its box of these half extents.
#[inline]
fn first_corner(edge: Face, half: V2) -> V2
    ensures { result ≡ first_corner edge half }
{
    let (x, y) = (half.x, half.y);
    match edge {
        Face::Right => V2 { x, y: y.neg() },
        Face::Top => V2 { x, y },
        Face::Left => V2 { x: x.neg(), y },
        Face::Bottom => V2 {
            x: x.neg(),
            y: y.neg(),
        },
    }
}

/// The second end of an edge.
#[inline]
fn second_corner(edge: Face, half: V2) -> V2
    ensures { result ≡ second_corner edge half }
{
    let (x, y) = (half.x, half.y);
    match edge {
        Face::Right => V2 { x, y },
        Face::Top => V2 { x: x.neg(), y },
        Face::Left => V2 {
            x: x.neg(),
            y: y.neg(),
        },
        Face::Bottom => V2 { x, y: y.neg() },
    }
}

/// A position in the reference box's axes, as a vertex.
#[inline]
#[tactic(auto, unfolding(crate::specs::Incident::vertex_of))]
fn vertex_of(face: Face, mark: Mark, v: V2) -> ClipVertex
    ensures { result ≡ vertex_of face mark v }
{
    ClipVertex {
        front: face.front_part(v),
        side: face.side_part(v),
        mark,
    }
}

/// A corner of the incident box, as a vertex.
#[inline]
#[tactic(auto, unfolding(crate::specs::Incident::corner_vertex))]
fn corner_vertex(r: &Reference, mark: Mark, corner: V2) -> ClipVertex
    ensures { result ≡ corner_vertex r.now mark corner }
{
    vertex_of(r.face, mark, r.offset.add(r.relative.rotate(corner)))
}

/// This edge of the incident box.
#[inline]
#[tactic(auto, unfolding(crate::specs::Incident::incident_segment))]
pub fn incident_segment(r: &Reference, edge: Face) -> Segment
    ensures { result ≡ incident_segment r.now edge }
{
    Segment {
        first: corner_vertex(r, Mark::First, first_corner(edge, r.incident)),
        second: corner_vertex(r, Mark::Second, second_corner(edge, r.incident)),
    }
}
