//! The reference box and its reference face, as Box2D's `b2CollidePolygons`.

ghost use Rattle.std.specs.Prelude.{◌≡◌};
ghost use Rattle.pf_manifold.specs.Reference.{Reference, face_towards, reference_a, reference_b, reference_of};

use crate::face::Face;
use crate::placed_shape::OrientedBox;
use crate::separation::{Axis, Frames};
use pf_num::Fx;
use pf_rot::{Rot, V2};
use std::marker::Model;

/// Which of the two boxes is the reference box.
#[derive(Clone, Copy)]
pub enum Owner {
    BoxA,
    BoxB,
}

/// The reference box, a face of which has the best axis as its normal, and the other, incident box
/// in its axes.
#[derive(Drop)]
pub struct Reference<'a> {
    /// Which of the two boxes it is.
    pub owner: Owner,
    /// The box.
    pub at: &'a OrientedBox,
    /// The reference face: its face towards the incident box.
    pub face: Face,
    /// The half extents of the incident box.
    pub incident: V2,
    /// The offset of the incident box's centre, in the reference box's axes.
    pub offset: V2,
    /// The rotation of the incident box in them.
    pub relative: Rot,
}

impl<'a> Model for Reference<'a> {
    ghost Value = { Reference };

    ghost view = { λ r. record {
      owner = r.owner;
      box = r.at.now;
      face = r.face;
      incident = r.incident;
      offset = r.offset;
      relative = r.relative;
    } };
}

/// The face on this axis towards the other box, whose centre is at this offset.
#[inline]
#[tactic(auto, unfolding(crate::specs::Reference::face_towards))]
fn face_towards(axis: Axis, offset: V2) -> Face
    ensures { result ≡ face_towards axis offset }
{
    match axis {
        Axis::AX | Axis::BX => {
            if offset.x > Fx::ZERO {
                Face::Right
            } else {
                Face::Left
            }
        }
        Axis::AY | Axis::BY => {
            if offset.y > Fx::ZERO {
                Face::Top
            } else {
                Face::Bottom
            }
        }
    }
}

/// The box `a` as the reference box.
#[inline]
#[tactic(auto, unfolding(crate::specs::Reference::reference_a))]
fn reference_a<'a>(
    a: &'a OrientedBox,
    b: &'a OrientedBox,
    frames: &Frames,
    axis: Axis,
) -> Reference<'a>
    ensures { result ≡ reference_a a.now b.now frames.now axis }
{
    Reference {
        owner: Owner::BoxA,
        at: a,
        face: face_towards(axis, frames.in_a),
        incident: b.half,
        offset: frames.in_a,
        relative: frames.relative,
    }
}

/// The box `b` as the reference box: the offset and the sine of the relative rotation change their
/// signs.
#[inline]
#[tactic(auto, unfolding(crate::specs::Reference::reference_b))]
fn reference_b<'a>(
    a: &'a OrientedBox,
    b: &'a OrientedBox,
    frames: &Frames,
    axis: Axis,
) -> Reference<'a>
    ensures { result ≡ reference_b a.now b.now frames.now axis }
{
    let offset = frames.in_b.neg();
    Reference {
        owner: Owner::BoxB,
        at: b,
        face: face_towards(axis, offset),
        incident: a.half,
        offset,
        relative: Rot {
            c: frames.relative.c,
            s: frames.relative.s.neg(),
        },
    }
}

/// The reference box: `a` where the axis is one of its own.
#[inline]
#[tactic(auto, unfolding(crate::specs::Reference::reference_of))]
pub fn reference_of<'a>(
    a: &'a OrientedBox,
    b: &'a OrientedBox,
    frames: &Frames,
    axis: Axis,
) -> Reference<'a>
    ensures { result ≡ reference_of a.now b.now frames.now axis }
{
    match axis {
        Axis::AX | Axis::AY => reference_a(a, b, frames, axis),
        Axis::BX | Axis::BY => reference_b(a, b, frames, axis),
    }
}
