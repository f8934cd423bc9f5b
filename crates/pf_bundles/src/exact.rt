//! Vectors, inverse masses and constraints in whole numbers that are doubles.

ghost use Rattle.std.specs.Prelude.{◌≡◌, ◌≤◌, ◌↔◌, IfSome, IsSome};
ghost use Rattle.std.specs.Int.RustNames.{unsigned_abs};
ghost use Rattle.pf_rows.specs.Row.{no_constraint, no_mass};
ghost use Rattle.pf_rows.specs.Small.{HasShortArms};
ghost use Rattle.pf_bundles.specs.LaneRow.{ConstraintFits, MassFits};
ghost use Rattle.pf_bundles.specs.Limits.{IsSmallConstraint};

use crate::limits::LONGEST_ARM;
use pf_lanes::{EXACT_LIMIT, ExactDouble};
use pf_num::Fx;
use pf_rot::V2;
use pf_rows::{Constraint, InverseMass, is_within};
use std::marker::Model;

/// A number as a double, or `None` where a double does not hold it.
#[inline]
pub(crate) fn exact_of(x: Fx) -> Option<ExactDouble>
    ensures value { IfSome result (λ whole. whole ≡ x) }
    ensures fits { IsSome result ↔ (unsigned_abs x ≤ EXACT_LIMIT) }
{
    if is_within(x, EXACT_LIMIT) {
        Some(ExactDouble::of(x.raw()))
    } else {
        None
    }
}

/// A number in range as a fixed-point number.
#[inline]
pub(crate) fn number_of(whole: ExactDouble) -> Fx
    ensures { result ≡ whole }
{
    Fx::from_raw(whole.raw()).unwrap()
}

/// A vector.
#[derive(Clone, Copy)]
pub struct ExactVector {
    /// Its x.
    pub x: ExactDouble,
    /// Its y.
    pub y: ExactDouble,
}

impl Model for ExactVector {
    ghost use Rattle.pf_rot.specs.Vector.{V2};

    ghost Value = { V2 };

    ghost view = { λ v. record { x = v.x; y = v.y } };

    ghost inverse = { λ v. record { x = v.x; y = v.y } };
}

impl ExactVector {
    ghost use Rattle.std.specs.Prelude.{◌≡◌};
    ghost use Rattle.pf_rot.specs.Vector.{zero_vector};
    ghost use Rattle.pf_rows.specs.Small.{IsShort};

    /// The vector (0, 0).
    #[inline]
    pub fn zero() -> ExactVector
        ensures { result ≡ zero_vector }
    {
        ExactVector {
            x: ExactDouble::zero(),
            y: ExactDouble::zero(),
        }
    }

    /// This vector.
    #[inline]
    pub fn new(vector: V2) -> ExactVector
        requires { IsShort EXACT_LIMIT vector }
        ensures { result ≡ vector }
    {
        ExactVector {
            x: ExactDouble::of(vector.x.raw()),
            y: ExactDouble::of(vector.y.raw()),
        }
    }

    /// The vector.
    #[inline]
    pub fn vector(self) -> V2
        ensures { result ≡ self }
    {
        V2 {
            x: number_of(self.x),
            y: number_of(self.y),
        }
    }
}

/// An inverse mass in whole numbers that are doubles.
pub type ExactMass = InverseMass<ExactDouble>;

/// A constraint in whole numbers that are doubles.
pub type ExactConstraint = Constraint<ExactVector, ExactDouble>;

/// The inverse mass of a static body.
#[inline]
pub(crate) fn no_mass() -> ExactMass
    ensures { result ≡ no_mass }
{
    InverseMass {
        inverse_mass: ExactDouble::zero(),
        inverse_inertia: ExactDouble::zero(),
    }
}

/// An inverse mass in doubles, or `None` where they do not hold it.
#[inline]
pub(crate) fn exact_mass_of(mass: InverseMass) -> Option<ExactMass>
    ensures value { IfSome result (λ whole. whole ≡ mass) }
    ensures fits { IsSome result ↔ MassFits mass }
{
    Some(InverseMass {
        inverse_mass: exact_of(mass.inverse_mass)?,
        inverse_inertia: exact_of(mass.inverse_inertia)?,
    })
}

/// An inverse mass in fixed-point numbers.
#[inline]
pub(crate) fn fixed_mass_of(whole: ExactMass) -> InverseMass
    ensures { result ≡ whole }
{
    InverseMass {
        inverse_mass: number_of(whole.inverse_mass),
        inverse_inertia: number_of(whole.inverse_inertia),
    }
}

/// The constraint of no row.
pub(crate) fn no_constraint() -> ExactConstraint
    ensures { result ≡ no_constraint }
{
    let zero = ExactDouble::zero();
    Constraint {
        normal: ExactVector::zero(),
        tangent: ExactVector::zero(),
        first_arm: ExactVector::zero(),
        second_arm: ExactVector::zero(),
        normal_mass: zero,
        tangent_mass: zero,
        bias: zero,
        friction: zero,
    }
}

/// A constraint in doubles, or `None` where they do not hold an effective mass or the friction.
#[inline]
pub(crate) fn exact_constraint_of(c: &Constraint) -> Option<ExactConstraint>
    requires small { IsSmallConstraint c.now }
    requires arms { HasShortArms LONGEST_ARM c.now }
    ensures value { IfSome result (λ whole. whole ≡ c.now) }
    ensures fits { IsSome result ↔ ConstraintFits c.now }
{
    Some(Constraint {
        normal: ExactVector::new(c.normal),
        tangent: ExactVector::new(c.tangent),
        first_arm: ExactVector::new(c.first_arm),
        second_arm: ExactVector::new(c.second_arm),
        normal_mass: exact_of(c.normal_mass)?,
        tangent_mass: exact_of(c.tangent_mass)?,
        bias: ExactDouble::of(c.bias.raw()),
        friction: exact_of(c.friction)?,
    })
}

/// A constraint in fixed-point numbers.
#[inline]
pub(crate) fn fixed_constraint_of(whole: &ExactConstraint) -> Constraint
    ensures { result ≡ whole.now }
{
    Constraint {
        normal: whole.normal.vector(),
        tangent: whole.tangent.vector(),
        first_arm: whole.first_arm.vector(),
        second_arm: whole.second_arm.vector(),
        normal_mass: number_of(whole.normal_mass),
        tangent_mass: number_of(whole.tangent_mass),
        bias: number_of(whole.bias),
        friction: number_of(whole.friction),
    }
}
