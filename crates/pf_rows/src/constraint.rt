//! What a pre-step leaves to the rounds, as Box2D-Lite's `Arbiter::PreStep`.

ghost use Rattle.std.specs.Prelude.{◌≡◌, ◌*◌, ◌≤◌, ◌↔◌, IsTrue};
ghost use Rattle.std.specs.Int.RustNames.{unsigned_abs};
ghost use Rattle.pf_rows.specs.Small.{HasSmallNumbers, IsHeavy, IsSmallArm};

use crate::limits::{
    ARM_LIMIT, CONSTRAINT_LIMIT, DIRECTION_LIMIT, INVERSE_INERTIA_LIMIT, INVERSE_MASS_LIMIT,
    TURN_LIMIT,
};
use crate::small::{is_short, is_within};
use pf_num::Fx;
use pf_rot::V2;
use std::marker::Model;

/// How easily impulses move a body, as Box2D-Lite's `invMass` and `invI`. In units of 2^-24.
///
/// `N` is a number in fixed point or in a double, or those of several bodies side by side.
#[derive(Clone, Copy, Debug)]
pub struct InverseMass<N = Fx> {
    /// 1 / mass.
    pub inverse_mass: N,
    /// 1 / inertia.
    pub inverse_inertia: N,
}

impl InverseMass {
    /// That of a static body.
    pub const NONE: InverseMass = InverseMass {
        inverse_mass: Fx::ZERO,
        inverse_inertia: Fx::ZERO,
    };
}

/// The part of a contact that stays fixed during the rounds, which Box2D-Lite's `Arbiter::PreStep`
/// leaves in a `Contact`. In units of 2^-24.
///
/// `V` is a vector and `N` a number: in fixed point, in doubles, or of several contacts side by
/// side. `B` is the type of the bias, which may be another, since it is added and never multiplied.
#[derive(Clone, Copy, Debug)]
pub struct Constraint<V = V2, N = Fx, B = N> {
    /// The normal, from the first body to the second.
    pub normal: V,
    /// The normal, a quarter turn clockwise.
    pub tangent: V,
    /// From the centre of the first body to the contact point.
    pub first_arm: V,
    /// From the centre of the second body to the contact point.
    pub second_arm: V,
    /// The effective mass along the normal.
    pub normal_mass: N,
    /// The effective mass along the tangent.
    pub tangent_mass: N,
    /// The separating speed aimed at where bodies overlap.
    pub bias: B,
    /// The coefficient of friction.
    pub friction: N,
}

impl Constraint {
    ghost use Rattle.std.specs.Prelude.{◌↔◌, IsTrue};
    ghost use Rattle.pf_rows.specs.Small.{HasShortArms, HasShortDirections};

    /// That of a row before its pre-step.
    pub const NONE: Constraint = Constraint {
        normal: V2::ZERO,
        tangent: V2::ZERO,
        first_arm: V2::ZERO,
        second_arm: V2::ZERO,
        normal_mass: Fx::ZERO,
        tangent_mass: Fx::ZERO,
        bias: Fx::ZERO,
        friction: Fx::ZERO,
    };

    /// Whether the normal and the tangent are at most this along each axis.
    #[inline]
    pub fn has_short_directions(&self, limit: u64) -> bool
        ensures { IsTrue result ↔ HasShortDirections limit self.now }
    {
        is_short(self.normal, limit) && is_short(self.tangent, limit)
    }

    /// Whether both arms are at most this along each axis.
    #[inline]
    pub fn has_short_arms(&self, limit: u64) -> bool
        ensures { IsTrue result ↔ HasShortArms limit self.now }
    {
        is_short(self.first_arm, limit) && is_short(self.second_arm, limit)
    }
}

/// Which numbers of a row are small enough for the fast path.
#[derive(Clone, Copy, Debug)]
struct Sizes {
    /// Whether all but the arms are.
    is_small: bool,
    /// Whether all but the second arm are.
    has_small_first_arm: bool,
    /// Whether all but the first arm are.
    has_small_second_arm: bool,
}

impl Model for Sizes {
    ghost use Rattle.pf_rows.specs.Small.{Sizes};

    ghost Value = { Sizes };

    ghost view = { λ s. record {
      is_small = s.is_small;
      has_small_first_arm = s.has_small_first_arm;
      has_small_second_arm = s.has_small_second_arm;
    } };

    ghost inverse = { λ s. record {
      is_small = s.is_small;
      has_small_first_arm = s.has_small_first_arm;
      has_small_second_arm = s.has_small_second_arm;
    } };
}

/// What the rounds need of a contact beside its impulses: the inverse masses of its bodies, and its
/// constraint.
#[derive(Debug, Drop)]
pub struct Prepared {
    first_mass: InverseMass,
    second_mass: InverseMass,
    constraint: Constraint,
    /// Found by `measure`.
    sizes: Option<Sizes>,
}

impl Model for Prepared {
    ghost use Rattle.std.specs.Prelude.{IfSome};
    ghost use Rattle.pf_rows.specs.Row.{Prepared};
    ghost use Rattle.pf_rows.specs.Small.{AreSizesOf};

    ghost Value = { Prepared };

    ghost view = { λ p. record {
      first_mass = p.first_mass;
      second_mass = p.second_mass;
      constraint = p.constraint;
    } };

    ghost invariant = { λ p. IfSome p.sizes (AreSizesOf (record {
      first_mass = p.first_mass;
      second_mass = p.second_mass;
      constraint = p.constraint;
    })) };
}

/// Whether a body of this mass is heavy enough for the fast path.
#[inline]
fn is_heavy(mass: &InverseMass) -> bool
    ensures { IsTrue result ↔ IsHeavy mass.now }
{
    is_within(mass.inverse_mass, INVERSE_MASS_LIMIT)
        && is_within(mass.inverse_inertia, INVERSE_INERTIA_LIMIT)
}

/// Whether the exact product of an inverse inertia and a part of an arm is small.
#[inline]
fn turns_slowly(inverse_inertia: Fx, part: Fx) -> bool
    requires inertia { unsigned_abs inverse_inertia ≤ INVERSE_INERTIA_LIMIT }
    requires part { unsigned_abs part ≤ ARM_LIMIT }
    ensures { IsTrue result ↔ (unsigned_abs inverse_inertia * unsigned_abs part ≤ TURN_LIMIT) }
{
    inverse_inertia.raw().unsigned_abs() * part.raw().unsigned_abs() <= TURN_LIMIT
}

/// Whether an arm is short, and impulses at it turn a body of this mass slowly.
#[inline]
fn is_small_arm(mass: &InverseMass, arm: V2) -> bool
    requires { IsHeavy mass.now }
    ensures { IsTrue result ↔ IsSmallArm mass.now arm }
{
    is_short(arm, ARM_LIMIT)
        && turns_slowly(mass.inverse_inertia, arm.x)
        && turns_slowly(mass.inverse_inertia, arm.y)
}

/// Whether the numbers of a constraint are small.
#[inline]
fn has_small_numbers(c: &Constraint) -> bool
    ensures { IsTrue result ↔ HasSmallNumbers c.now }
{
    is_within(c.normal_mass, CONSTRAINT_LIMIT)
        && is_within(c.tangent_mass, CONSTRAINT_LIMIT)
        && is_within(c.bias, CONSTRAINT_LIMIT)
        && is_within(c.friction, CONSTRAINT_LIMIT)
}

impl Sizes {
    ghost use Rattle.pf_rows.specs.Row.{Prepared};
    ghost use Rattle.pf_rows.specs.Small.{AreSizesOf};

    /// Of bodies of these masses, and this constraint.
    fn of(first_mass: &InverseMass, second_mass: &InverseMass, constraint: &Constraint) -> Sizes
        ensures { let prepared : Prepared = record {
          first_mass = first_mass.now;
          second_mass = second_mass.now;
          constraint = constraint.now;
        } in AreSizesOf prepared result }
    {
        let is_small = is_heavy(first_mass)
            && is_heavy(second_mass)
            && constraint.has_short_directions(DIRECTION_LIMIT)
            && has_small_numbers(constraint);
        Sizes {
            is_small,
            has_small_first_arm: is_small && is_small_arm(first_mass, constraint.first_arm),
            has_small_second_arm: is_small && is_small_arm(second_mass, constraint.second_arm),
        }
    }
}

impl Prepared {
    ghost use Rattle.std.specs.Prelude.{◌≡◌, ◌↔◌, IsTrue};
    ghost use Rattle.pf_rows.specs.Small.{AreSizesOf, HasSmallFirstArm, HasSmallSecondArm, IsSmall};

    /// Of bodies of these masses, and this constraint. Which of its numbers are small is not found
    /// yet, since lanes do not ask for it.
    #[inline]
    pub fn new(
        first_mass: InverseMass,
        second_mass: InverseMass,
        constraint: Constraint,
    ) -> Prepared
        ensures { result ≡ record {
          first_mass = first_mass;
          second_mass = second_mass;
          constraint = constraint;
        } }
    {
        Prepared {
            first_mass,
            second_mass,
            constraint,
            sizes: None,
        }
    }

    /// Finds which of its numbers are small, and keeps that, so that no round has to find it. No
    /// clause says that it is kept: it changes no result, only time.
    #[inline]
    pub fn measure(&mut self)
        ensures { self.new ≡ self.old }
    {
        self.sizes = Some(Sizes::of(&self.first_mass, &self.second_mass, &self.constraint));
    }

    /// Which of its numbers are small.
    #[cold]
    #[inline(never)]
    fn find_sizes(&self) -> Sizes
        ensures { AreSizesOf self.now result }
    {
        Sizes::of(&self.first_mass, &self.second_mass, &self.constraint)
    }

    /// Which of its numbers are small: as `measure` found it, or found now.
    #[inline]
    fn sizes(&self) -> Sizes
        ensures { AreSizesOf self.now result }
    {
        match self.sizes {
            Some(sizes) => sizes,
            None => self.find_sizes(),
        }
    }

    /// How easily impulses move the first body.
    #[inline]
    pub fn first_mass(&self) -> InverseMass
        ensures { result ≡ self.now.first_mass }
    {
        self.first_mass
    }

    /// How easily impulses move the second body.
    #[inline]
    pub fn second_mass(&self) -> InverseMass
        ensures { result ≡ self.now.second_mass }
    {
        self.second_mass
    }

    /// What the impulses depend on.
    #[inline]
    pub fn constraint(&self) -> &Constraint
        ensures { result.now ≡ self.now.constraint }
    {
        &self.constraint
    }

    /// Whether all of it but the arms is small.
    #[inline]
    pub fn is_small(&self) -> bool
        ensures { IsTrue result ↔ IsSmall self.now }
    {
        self.sizes().is_small
    }

    /// Whether all of it but the second arm is small.
    #[inline]
    pub fn has_small_first_arm(&self) -> bool
        ensures { IsTrue result ↔ HasSmallFirstArm self.now }
    {
        self.sizes().has_small_first_arm
    }

    /// Whether all of it but the first arm is small.
    #[inline]
    pub fn has_small_second_arm(&self) -> bool
        ensures { IsTrue result ↔ HasSmallSecondArm self.now }
    {
        self.sizes().has_small_second_arm
    }
}
