//! Vectors side by side.

use pf_lanes::{Lanes, Scaled};
use std::marker::Model;

/// Vectors side by side.
#[derive(Clone, Copy)]
pub struct VectorLanes {
    /// Their x.
    pub x: Lanes,
    /// Their y.
    pub y: Lanes,
}

impl Model for VectorLanes {
    ghost use Rattle.pf_bundles.specs.Prepared.{VectorLanes};

    ghost Value = { VectorLanes };

    ghost view = { λ v. record { x = v.x; y = v.y } };

    ghost inverse = { λ v. record { x = v.x; y = v.y } };
}

/// Vectors side by side that are factors of products.
#[derive(Clone, Copy)]
pub struct ScaledVectors {
    /// Their x.
    pub x: Scaled,
    /// Their y.
    pub y: Scaled,
}

impl Model for ScaledVectors {
    ghost use Rattle.pf_bundles.specs.Prepared.{VectorLanes};

    ghost Value = { VectorLanes };

    ghost view = { λ v. record { x = v.x; y = v.y } };

    ghost inverse = { λ v. record { x = v.x; y = v.y } };
}
