//! Separating axes of two boxes, as Box2D-Lite's Collide.cpp.

ghost use Rattle.std.specs.Prelude.{◌≡◌};
ghost use Rattle.pf_manifold.specs.Separation.{Frames, Separations, Candidate, relative_rotation, frames_at_offset, frames_of, magnitudes, reaches, face_separations, separations_of, has_gap, threshold, better_candidate, best_axis};

use crate::placed_shape::OrientedBox;
use pf_num::Fx;
use pf_rot::{Rot, V2};
use pf_shapes::reach;
use std::marker::Model;

/// The candidates for a separating axis: the face normals of `a` and of `b`.
#[derive(Clone, Copy)]
pub enum Axis {
    AX,
    AY,
    BX,
    BY,
}

/// The offset between two boxes in the axes of each, and their relative rotation.
#[derive(Drop)]
pub struct Frames {
    /// The offset from the centre of `a` to that of `b`, in the axes of `a`.
    pub in_a: V2,
    /// The same offset, in the axes of `b`.
    pub in_b: V2,
    /// The rotation of `b` in the axes of `a`.
    pub relative: Rot,
}

impl Model for Frames {
    ghost Value = { Frames };

    ghost view = { λ f. record { in_a = f.in_a; in_b = f.in_b; relative = f.relative } };
}

/// The separations of two boxes along the axes of each, below 0 where they overlap.
#[derive(Drop)]
pub struct Separations {
    pub a: V2,
    pub b: V2,
}

impl Model for Separations {
    ghost Value = { Separations };

    ghost view = { λ s. record { a = s.a; b = s.b } };
}

/// An axis and the separation along it.
#[derive(Clone, Copy)]
pub struct Candidate {
    pub axis: Axis,
    pub separation: Fx,
}

impl Model for Candidate {
    ghost Value = { Candidate };

    ghost view = { λ c. record { axis = c.axis; separation = c.separation } };

    ghost inverse = { λ c. record { axis = c.axis; separation = c.separation } };
}

/// 0.95, Box2D-Lite's `relativeTol`: the factor of the best separation that another one has to
/// exceed.
const RELATIVE_TOLERANCE: i64 = 15_938_355;
/// 0.01, Box2D-Lite's `absoluteTol`: the factor of the box's half extent that is added to it.
const ABSOLUTE_TOLERANCE: i64 = 167_772;

/// The rotation `b` in the axes of the rotation `a`.
#[inline]
#[tactic(auto, unfolding(crate::specs::Separation::relative_rotation))]
fn relative_rotation(a: Rot, b: Rot) -> Rot
    ensures { result ≡ relative_rotation a b }
{
    Rot {
        c: a.c.mul(b.c).add(a.s.mul(b.s)),
        s: a.c.mul(b.s).sub(a.s.mul(b.c)),
    }
}

/// The frames of boxes of the rotations `a` and `b` whose centres differ by this offset.
#[inline]
#[tactic(auto, unfolding(crate::specs::Separation::frames_at_offset))]
fn frames_at_offset(a: Rot, b: Rot, offset: V2) -> Frames
    ensures { result ≡ frames_at_offset a b offset }
{
    Frames {
        in_a: a.unrotate(offset),
        in_b: b.unrotate(offset),
        relative: relative_rotation(a, b),
    }
}

/// The frames of two boxes.
#[inline]
#[tactic(auto, unfolding(crate::specs::Separation::frames_of))]
pub fn frames_of(a: &OrientedBox, b: &OrientedBox) -> Frames
    ensures { result ≡ frames_of a.now b.now }
{
    frames_at_offset(a.rotation, b.rotation, b.position.sub(a.position))
}

/// The absolute values of the parts.
#[inline]
#[tactic(auto, unfolding(crate::specs::Separation::magnitudes))]
fn magnitudes(v: V2) -> V2
    ensures { result ≡ magnitudes v }
{
    V2 {
        x: v.x.abs(),
        y: v.y.abs(),
    }
}

/// The extents along the axes of a box of these half extents, turned by `q`.
#[inline]
#[tactic(auto, unfolding(crate::specs::Separation::reaches))]
fn reaches(q: Rot, half: V2) -> V2
    ensures { result ≡ reaches q half }
{
    V2 {
        x: reach(q.c, half.x, q.s, half.y),
        y: reach(q.s, half.x, q.c, half.y),
    }
}

/// The separations along the axes of a box from the other box, of the rotation `q` and at this
/// offset.
#[inline]
#[tactic(auto, unfolding(crate::specs::Separation::face_separations))]
fn face_separations(half: V2, offset: V2, q: Rot, other: V2) -> V2
    ensures { result ≡ face_separations half offset q other }
{
    magnitudes(offset).sub(half).sub(reaches(q, other))
}

/// The separations of boxes of half extents `a` and `b`.
#[inline]
#[tactic(auto, unfolding(crate::specs::Separation::separations_of))]
pub fn separations_of(a: V2, b: V2, frames: &Frames) -> Separations
    ensures { result ≡ separations_of a b frames.now }
{
    Separations {
        a: face_separations(a, frames.in_a, frames.relative, b),
        b: face_separations(b, frames.in_b, frames.relative, a),
    }
}

/// Whether there is a separating axis.
#[inline]
#[tactic(auto, unfolding(crate::specs::Separation::has_gap))]
pub fn has_gap(s: &Separations) -> bool
    ensures { result ≡ has_gap s.now }
{
    s.a.x > Fx::ZERO || s.a.y > Fx::ZERO || s.b.x > Fx::ZERO || s.b.y > Fx::ZERO
}

/// The separation that another axis has to exceed to replace the best one: `h` is its box's half
/// extent.
#[inline]
#[tactic(auto, unfolding(crate::specs::Separation::threshold))]
fn threshold(best: Fx, h: Fx) -> Fx
    ensures { result ≡ threshold best h }
{
    let relative = Fx::from_raw(RELATIVE_TOLERANCE).unwrap();
    let absolute = Fx::from_raw(ABSOLUTE_TOLERANCE).unwrap();
    relative.mul(best).add(absolute.mul(h))
}

/// The new candidate where it exceeds the threshold, else the best one so far.
#[inline]
#[tactic(auto, unfolding(crate::specs::Separation::better_candidate))]
fn better_candidate(best: Candidate, new: Candidate, h: Fx) -> Candidate
    ensures { result ≡ better_candidate best new h }
{
    if new.separation > threshold(best.separation, h) {
        new
    } else {
        best
    }
}

/// The best axis of boxes of the half extents `a` and `b`: the first of greatest separation, up to
/// the tolerances.
#[inline]
#[tactic(auto, unfolding(crate::specs::Separation::best_axis))]
pub fn best_axis(s: &Separations, a: V2, b: V2) -> Axis
    ensures { result ≡ best_axis s.now a b }
{
    let candidate = |axis, separation| Candidate { axis, separation };
    let best = candidate(Axis::AX, s.a.x);
    let best = better_candidate(best, candidate(Axis::AY, s.a.y), a.y);
    let best = better_candidate(best, candidate(Axis::BX, s.b.x), b.x);
    better_candidate(best, candidate(Axis::BY, s.b.y), b.y).axis
}
