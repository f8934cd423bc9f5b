//! The manifold of two bodies, as Box2D 2.x's `b2Manifold`.

ghost use Rattle.std.specs.Prelude.{◌≡◌, length};
ghost use Rattle.pf_manifold.specs.Manifold.{points_of, at_most_one};

use crate::contact_point::ContactPoint;

/// The contact points of two bodies, in ascending order of their features.
#[derive(Clone, Copy, Debug, PartialEq, Eq)]
pub enum Manifold {
    /// The bodies don't touch.
    Apart,
    /// They touch at one point.
    One(ContactPoint),
    /// They touch at two points, that of the lesser feature first.
    Two(ContactPoint, ContactPoint),
}

impl Manifold {
    /// How many contact points there are.
    #[inline]
    pub fn count(&self) -> usize
        ensures { result ≡ length (points_of self.now) }
    {
        match self {
            Manifold::Apart => 0,
            Manifold::One(_) => 1,
            Manifold::Two(_, _) => 2,
        }
    }
}

/// The manifold of no point, or of one.
#[inline]
pub fn at_most_one(point: Option<ContactPoint>) -> Manifold
    ensures { points_of result ≡ at_most_one point }
{
    match point {
        None => Manifold::Apart,
        Some(p) => Manifold::One(p),
    }
}
