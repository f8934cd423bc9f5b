//! The shape of a body as it stood.

ghost use Rattle.std.specs.Prelude.{◌≡◌, ◌≤◌, IfOk, false, get_or, length, map};
ghost use Rattle.pf_shapes.specs.Pair.{IsPairOf};
ghost use Rattle.pf_shapes.specs.declared.scene.TheConstants.{MAX_BODIES};
ghost use Rattle.pf_manifold.specs.Manifold.{points_of};
ghost use Rattle.pf_manifold.specs.Touches.{touch_of};
ghost use Rattle.pf_cache.specs.Manifolds.{placed_shapes, points_of_pair};
ghost use Rattle.pf_cache.specs.Slots.{are_unmoved, unmoved_flags};

use pf_manifold::{Manifold, PlacedShape, collide};
use pf_rot::{Rot, V2};
use pf_shapes::{BodyState, Fixture, Pair, Shape};
use std::alloc::{AllocError, Global};
use std::marker::Model;

/// The shape of a body at the position and rotation that the body had.
#[derive(Debug, Drop)]
pub struct KeptShape {
    shape: Shape,
    position: V2,
    rotation: Rot,
}

impl Model for KeptShape {
    ghost use Rattle.pf_manifold.specs.PlacedShape.{PlacedShape};

    ghost Value = { PlacedShape };

    ghost view = { λ k. record { shape = k.shape; position = k.position; rotation = k.rotation } };
}

/// A copy of a shape.
#[inline]
fn copy_of(shape: &Shape) -> Shape
    ensures { result ≡ shape.now }
{
    match shape {
        Shape::Circle { r } => Shape::Circle { r: *r },
        Shape::Box { hx, hy } => Shape::Box { hx: *hx, hy: *hy },
    }
}

impl KeptShape {
    ghost use Rattle.std.specs.Prelude.{◌≡◌};
    ghost use Rattle.pf_cache.specs.Manifolds.{shape_of_body, same_placed_shape};

    /// The shape of a body as it stands.
    #[inline]
    pub fn of(fixture: &Fixture, body: &BodyState) -> KeptShape
        ensures { result ≡ shape_of_body fixture.now body.now }
    {
        KeptShape {
            shape: copy_of(fixture.shape()),
            position: body.position,
            rotation: body.rotation,
        }
    }

    /// The same shape, for the narrow phase.
    #[inline]
    pub fn placed(&self) -> PlacedShape<'_>
        ensures { result ≡ self.now }
    {
        PlacedShape {
            shape: &self.shape,
            position: self.position,
            rotation: self.rotation,
        }
    }

    /// Whether it is the shape of a body as it stands.
    #[inline]
    #[tactic(auto, unfolding(crate::specs::Manifolds::same_placed_shape))]
    pub fn is_of(&self, fixture: &Fixture, body: &BodyState) -> bool
        ensures { result ≡ same_placed_shape self.now (shape_of_body fixture.now body.now) }
    {
        self.shape == *fixture.shape()
            && self.position == body.position
            && self.rotation == body.rotation
    }

    /// Whether both are the same shape at the same position and rotation.
    #[inline]
    #[tactic(auto, unfolding(crate::specs::Manifolds::same_placed_shape))]
    fn is_same(&self, other: &KeptShape) -> bool
        ensures { result ≡ same_placed_shape self.now other.now }
    {
        self.shape == other.shape
            && self.position == other.position
            && self.rotation == other.rotation
    }
}

/// The contact points of a pair, as its bodies stand.
#[inline]
pub fn manifold_of_pair(shapes: &[KeptShape], pair: &Pair) -> Manifold
    requires few { length shapes.now ≤ MAX_BODIES }
    requires pair { IsPairOf (length shapes.now) pair.now }
    ensures { map (touch_of pair.now) (points_of result) ≡ points_of_pair shapes.now pair.now }
{
    let a = &shapes[pair.a];
    let b = &shapes[pair.b];
    collide(&a.placed(), &b.placed())
}

/// The shapes of all bodies as they stand.
#[inline(never)]
pub fn placed_shapes(
    alloc: Global,
    fixtures: &[Fixture],
    bodies: &[BodyState],
) -> Result<Vec<KeptShape>, AllocError>
    ensures { IfOk result (λ shapes. shapes.items ≡ placed_shapes fixtures.now bodies.now) }
{
    fixtures
        .iter()
        .zip(bodies)
        .map(|(fixture, body)| KeptShape::of(fixture, body))
        .collect(alloc)
}

/// For each number in both lists, whether the body is unmoved.
#[inline(never)]
pub fn unmoved_flags(
    alloc: Global,
    old: &[KeptShape],
    shapes: &[KeptShape],
) -> Result<Vec<bool>, AllocError>
    ensures { IfOk result (λ flags. flags.items ≡ unmoved_flags old.now shapes.now) }
{
    old.iter()
        .zip(shapes)
        .map(|(before, shape)| before.is_same(shape))
        .collect(alloc)
}

/// Whether the body with this number is unmoved; one beyond the list is not.
#[inline]
fn is_unmoved(unmoved: &[bool], number: usize) -> bool
    ensures { result ≡ get_or unmoved.now number false }
{
    number < unmoved.len() && unmoved[number]
}

/// Whether both bodies of a pair are unmoved.
#[inline]
pub fn are_unmoved(unmoved: &[bool], pair: &Pair) -> bool
    ensures { result ≡ are_unmoved unmoved.now pair.now }
{
    is_unmoved(unmoved, pair.a) && is_unmoved(unmoved, pair.b)
}
