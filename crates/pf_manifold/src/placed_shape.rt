//! Shapes with their positions and rotations, as Box2D's `b2Shape` with a `b2Transform`.

ghost use Rattle.std.specs.Prelude.{◌≡◌};
ghost use Rattle.pf_manifold.specs.PlacedShape.{PlacedShape, OrientedBox, to_box, to_world};

use pf_rot::{Rot, V2};
use pf_shapes::Shape;
use std::marker::Model;

/// A shape at a position and rotation.
#[derive(Debug, Drop)]
pub struct PlacedShape<'a> {
    /// The shape.
    pub shape: &'a Shape,
    /// The position of its centre, in units of 2^-24 of a length.
    pub position: V2,
    /// The rotation.
    pub rotation: Rot,
}

impl<'a> Model for PlacedShape<'a> {
    ghost Value = { PlacedShape };

    ghost view = { λ p.
        record { shape = p.shape.now; position = p.position; rotation = p.rotation } };
}

/// A box at a position and rotation.
#[derive(Drop)]
pub struct OrientedBox {
    /// The half extents, in units of 2^-24 of a length.
    pub half: V2,
    /// The position of its centre.
    pub position: V2,
    /// The rotation.
    pub rotation: Rot,
}

impl Model for OrientedBox {
    ghost Value = { OrientedBox };

    ghost view = { λ b. record { half = b.half; position = b.position; rotation = b.rotation } };
}

impl OrientedBox {
    ghost use Rattle.std.specs.Prelude.{◌≡◌};
    ghost use Rattle.pf_manifold.specs.PlacedShape.{to_box, to_world};

    /// A position of the world in the box's own axes, relative to its centre.
    #[inline]
    #[tactic(auto, unfolding(crate::specs::PlacedShape::to_box))]
    pub fn to_box(&self, position: V2) -> V2
        ensures { result ≡ to_box self.now position }
    {
        self.rotation.unrotate(position.sub(self.position))
    }

    /// A position in the box's own axes, in the world.
    #[inline]
    #[tactic(auto, unfolding(crate::specs::PlacedShape::to_world))]
    pub fn to_world(&self, position: V2) -> V2
        ensures { result ≡ to_world self.now position }
    {
        self.position.add(self.rotation.rotate(position))
    }
}
