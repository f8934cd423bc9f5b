//! Bounds of bodies, as Box2D's `b2AABB`.

ghost use Rattle.std.specs.Prelude.{◌≡◌};
ghost use Rattle.pf_shapes.specs.Bounds.{Bounds, overlaps, ranges_overlap};
ghost use Rattle.pf_shapes.specs.Reach.{reach, widen};

use crate::body::BodyState;
use crate::fixture::{Fixture, Shape};
use pf_num::Fx;
use pf_rot::{Rot, V2};
use std::marker::Model;

/// An axis-aligned rectangle that contains a body's shape, with what else the broad phase needs of
/// the body. Positions are in units of 2^-24.
#[derive(Clone, Copy, Debug)]
pub struct Bounds {
    /// The lower bound on both axes.
    pub low: V2,
    /// The upper bound on both axes.
    pub high: V2,
    /// Whether the body is static.
    pub is_static: bool,
}

impl Model for Bounds {
    ghost Value = { Bounds };

    ghost view = { λ b. record { low = b.low; high = b.high; is_static = b.is_static } };

    ghost inverse = { λ b. record { low = b.low; high = b.high; is_static = b.is_static } };
}

/// The extent of a box of these half extents along an axis, from its centre, where its sides have
/// these cosines with that axis. All are in units of 2^-24.
#[inline]
#[tactic(auto, unfolding(crate::specs::Reach::reach))]
pub fn reach(cosine_x: Fx, hx: Fx, cosine_y: Fx, hy: Fx) -> Fx
    ensures { result ≡ reach cosine_x hx cosine_y hy }
{
    cosine_x.abs().mul(hx).add(cosine_y.abs().mul(hy))
}

/// One raw unit more.
#[tactic(auto, unfolding(crate::specs::Reach::widen))]
fn widen(x: Fx) -> Fx
    ensures { result ≡ widen x }
{
    x.add(Fx::from_raw(1).unwrap())
}

impl Shape {
    ghost use Rattle.std.specs.Prelude.{◌≡◌};
    ghost use Rattle.pf_shapes.specs.Fixture.{HasSize};
    ghost use Rattle.pf_shapes.specs.Reach.{IsPositive};
    ghost use Rattle.pf_shapes.specs.Bounds.{IsOrdered, extent, shape_bounds};

    /// The extent along each axis of the shape, turned by `rotation`, from its centre, and one raw
    /// unit more.
    #[tactic(auto, unfolding(crate::specs::Bounds::extent))]
    fn extent(&self, rotation: Rot) -> V2
        ensures value { result ≡ extent self.now rotation }
        ensures positive { HasSize self.now → IsPositive result }
    {
        match self {
            Shape::Circle { r } => V2 {
                x: widen(*r),
                y: widen(*r),
            },
            Shape::Box { hx, hy } => V2 {
                x: widen(reach(rotation.c, *hx, rotation.s, *hy)),
                y: widen(reach(rotation.s, *hx, rotation.c, *hy)),
            },
        }
    }

    /// The bounds of a body of this shape at this position and rotation, one raw unit wider each
    /// way than the shape, which covers the rounding. For the sizes of fixtures no lower bound is
    /// above the upper bound, at saturation too.
    #[tactic(auto, unfolding(crate::specs::Bounds::shape_bounds))]
    pub fn bounds(&self, position: V2, rotation: Rot, is_static: bool) -> Bounds
        ensures value { result ≡ shape_bounds self.now position rotation is_static }
        ensures ordered { HasSize self.now → IsOrdered result }
    {
        let extent = self.extent(rotation);
        Bounds {
            low: position.sub(extent),
            high: position.add(extent),
            is_static,
        }
    }
}

impl Fixture {
    ghost use Rattle.std.specs.Prelude.{◌≡◌};
    ghost use Rattle.pf_shapes.specs.Bounds.{IsOrdered, fixture_bounds};

    /// The bounds of a body of this fixture in this state.
    #[tactic(auto, unfolding(crate::specs::Bounds::fixture_bounds))]
    pub fn bounds(&self, body: &BodyState) -> Bounds
        ensures value { result ≡ fixture_bounds self.now body.now }
        ensures ordered { IsOrdered result }
    {
        self.shape()
            .bounds(body.position, body.rotation, self.is_static())
    }
}

impl Bounds {
    /// Whether the bounds have a point in common, as `b2TestOverlap`: on both axes each lower bound
    /// is at most the other's upper bound.
    #[tactic(auto, unfolding(crate::specs::Bounds::overlaps))]
    pub fn overlaps(&self, other: &Bounds) -> bool
        ensures { result ≡ overlaps self.now other.now }
    {
        ranges_overlap(self.low.x, self.high.x, other.low.x, other.high.x)
            && ranges_overlap(self.low.y, self.high.y, other.low.y, other.high.y)
    }
}

/// Whether two closed ranges on one axis have a point in common.
fn ranges_overlap(low: Fx, high: Fx, other_low: Fx, other_high: Fx) -> bool
    ensures { result ≡ ranges_overlap low high other_low other_high }
{
    low <= other_high && other_low <= high
}
