//! What stays fixed of rows side by side during the rounds.

ghost use Rattle.std.specs.Prelude.{◌≡◌};
ghost use Rattle.pf_lanes.specs.Lanes.{First, Fourth, Second, Third};
ghost use Rattle.pf_bundles.specs.Prepared.{constraint_in, mass_in, vector_in};

use crate::exact::{ExactConstraint, ExactMass, ExactVector};
use crate::lane_row::LaneRow;
use crate::vectors::ScaledVectors;
use pf_lanes::{Lanes, Scaled};
use pf_rows::{Constraint, InverseMass};
use std::marker::Model;

/// Inverse masses side by side.
pub type MassLanes = InverseMass<Scaled>;

/// Constraints side by side.
pub type ConstraintLanes = Constraint<ScaledVectors, Scaled, Lanes>;

/// What stays fixed of contacts during the rounds. In each lane spins and impulses up to its limits
/// have exact products.
#[derive(Clone, Copy)]
pub struct PreparedLanes {
    first_mass: MassLanes,
    second_mass: MassLanes,
    constraint: ConstraintLanes,
    spin_limit: Lanes,
    push_limit: Lanes,
}

impl Model for PreparedLanes {
    ghost use Rattle.pf_lanes.specs.Lanes.{Lane};
    ghost use Rattle.pf_bundles.specs.LaneRow.{HasItsLimits, lane_row_in};
    ghost use Rattle.pf_bundles.specs.Prepared.{PreparedLanes};

    ghost Value = { PreparedLanes };

    ghost view = { λ p. record {
      first_mass = p.first_mass;
      second_mass = p.second_mass;
      constraint = p.constraint;
      spin_limit = p.spin_limit;
      push_limit = p.push_limit;
    } };

    ghost invariant = { λ p. (k : Lane) → HasItsLimits (lane_row_in k (record {
      first_mass = p.first_mass;
      second_mass = p.second_mass;
      constraint = p.constraint;
      spin_limit = p.spin_limit;
      push_limit = p.push_limit;
    })) };

    ghost inverse = { λ p. record {
      first_mass = p.first_mass;
      second_mass = p.second_mass;
      constraint = p.constraint;
      spin_limit = p.spin_limit;
      push_limit = p.push_limit;
    } };
}

impl PreparedLanes {
    ghost use Rattle.std.specs.Prelude.{◌≡◌};
    ghost use Rattle.pf_lanes.specs.Lanes.{Lane};
    ghost use Rattle.pf_bundles.specs.LaneRow.{HasItsLimits, lane_row_in};

    /// The inverse masses of the first bodies.
    #[inline]
    pub fn first_mass(&self) -> MassLanes
        ensures { result ≡ self.now.first_mass }
    {
        self.first_mass
    }

    /// The inverse masses of the second bodies.
    #[inline]
    pub fn second_mass(&self) -> MassLanes
        ensures { result ≡ self.now.second_mass }
    {
        self.second_mass
    }

    /// The constraints.
    #[inline]
    pub fn constraint(&self) -> &ConstraintLanes
        ensures { result.now ≡ self.now.constraint }
    {
        &self.constraint
    }

    /// The limit of the spins of each lane.
    #[inline]
    pub fn spin_limit(&self) -> Lanes
        ensures value { result ≡ self.now.spin_limit }
        ensures limits { (k : Lane) → HasItsLimits (lane_row_in k self.now) }
    {
        self.spin_limit
    }

    /// The limit of the impulses of a step of each lane.
    #[inline]
    pub fn push_limit(&self) -> Lanes
        ensures value { result ≡ self.now.push_limit }
        ensures limits { (k : Lane) → HasItsLimits (lane_row_in k self.now) }
    {
        self.push_limit
    }
}

/// Vectors, one in each lane.
#[inline]
fn vectors(
    first: ExactVector,
    second: ExactVector,
    third: ExactVector,
    fourth: ExactVector,
) -> ScaledVectors
    ensures first { vector_in First result ≡ first }
    ensures second { vector_in Second result ≡ second }
    ensures third { vector_in Third result ≡ third }
    ensures fourth { vector_in Fourth result ≡ fourth }
{
    ScaledVectors {
        x: Scaled::gather([first.x, second.x, third.x, fourth.x]),
        y: Scaled::gather([first.y, second.y, third.y, fourth.y]),
    }
}

/// Inverse masses, one in each lane.
#[inline]
fn masses(first: ExactMass, second: ExactMass, third: ExactMass, fourth: ExactMass) -> MassLanes
    ensures first { mass_in First result ≡ first }
    ensures second { mass_in Second result ≡ second }
    ensures third { mass_in Third result ≡ third }
    ensures fourth { mass_in Fourth result ≡ fourth }
{
    InverseMass {
        inverse_mass: Scaled::gather([
            first.inverse_mass,
            second.inverse_mass,
            third.inverse_mass,
            fourth.inverse_mass,
        ]),
        inverse_inertia: Scaled::gather([
            first.inverse_inertia,
            second.inverse_inertia,
            third.inverse_inertia,
            fourth.inverse_inertia,
        ]),
    }
}

/// Constraints, one in each lane.
#[inline]
fn constraints(
    first: &ExactConstraint,
    second: &ExactConstraint,
    third: &ExactConstraint,
    fourth: &ExactConstraint,
) -> ConstraintLanes
    ensures first { constraint_in First result ≡ first.now }
    ensures second { constraint_in Second result ≡ second.now }
    ensures third { constraint_in Third result ≡ third.now }
    ensures fourth { constraint_in Fourth result ≡ fourth.now }
{
    let (a, b, c, d) = (*first, *second, *third, *fourth);
    Constraint {
        normal: vectors(a.normal, b.normal, c.normal, d.normal),
        tangent: vectors(a.tangent, b.tangent, c.tangent, d.tangent),
        first_arm: vectors(a.first_arm, b.first_arm, c.first_arm, d.first_arm),
        second_arm: vectors(a.second_arm, b.second_arm, c.second_arm, d.second_arm),
        normal_mass: Scaled::gather([a.normal_mass, b.normal_mass, c.normal_mass, d.normal_mass]),
        tangent_mass: Scaled::gather([
            a.tangent_mass,
            b.tangent_mass,
            c.tangent_mass,
            d.tangent_mass,
        ]),
        bias: Lanes::gather([a.bias, b.bias, c.bias, d.bias]),
        friction: Scaled::gather([a.friction, b.friction, c.friction, d.friction]),
    }
}

impl PreparedLanes {
    ghost use Rattle.std.specs.Prelude.{◌≡◌};
    ghost use Rattle.pf_lanes.specs.Lanes.{Lane};
    ghost use Rattle.pf_bundles.specs.LaneRow.{lane_row_in, row_in};

    /// Four rows, one in each lane.
    pub fn of(first: &LaneRow, second: &LaneRow, third: &LaneRow, fourth: &LaneRow) -> PreparedLanes
        ensures { (k : Lane) → lane_row_in k result
            ≡ row_in k first.now second.now third.now fourth.now }
    {
        let (a, b, c, d) = (first, second, third, fourth);
        PreparedLanes {
            first_mass: masses(a.first_mass, b.first_mass, c.first_mass, d.first_mass),
            second_mass: masses(a.second_mass, b.second_mass, c.second_mass, d.second_mass),
            constraint: constraints(&a.constraint, &b.constraint, &c.constraint, &d.constraint),
            spin_limit: Lanes::gather([a.spin_limit, b.spin_limit, c.spin_limit, d.spin_limit]),
            push_limit: Lanes::gather([a.push_limit, b.push_limit, c.push_limit, d.push_limit]),
        }
    }
}
