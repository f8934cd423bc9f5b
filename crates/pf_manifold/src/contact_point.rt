//! Contact points, as Box2D-Lite's `Contact`.

ghost use Rattle.pf_manifold.specs.ContactPoint.{ContactPoint};

use pf_num::Fx;
use pf_rot::V2;
use std::marker::Model;

/// A point where two bodies touch. Its numbers are in units of 2^-24.
#[derive(Clone, Copy, Debug, PartialEq, Eq)]
pub struct ContactPoint {
    /// The feature that makes the point, as Box2D-Lite's `FeaturePair`: the same number at the next
    /// tick is the same point.
    pub feature: u32,
    /// The position.
    pub position: V2,
    /// The normal from the first body to the second. Its length is 1 up to rounding, and up to 1.42
    /// for centres that are a few raw units apart.
    pub normal: V2,
    /// The distance of the bodies along the normal, below 0 where they overlap.
    pub separation: Fx,
}

impl Model for ContactPoint {
    ghost Value = { ContactPoint };

    ghost view = { λ p. record {
      feature = p.feature;
      position = p.position;
      normal = p.normal;
      separation = p.separation;
    } };

    ghost inverse = { λ p. record {
      feature = p.feature;
      position = p.position;
      normal = p.normal;
      separation = p.separation;
    } };
}
