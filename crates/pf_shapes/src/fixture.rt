//! Shapes, and fixtures with their masses.

ghost use Rattle.std.specs.Prelude.{◌≡◌, pos, if◌then◌else◌};
ghost use Rattle.pf_num.specs.Fx.{one, quotient};
ghost use Rattle.pf_shapes.specs.Fixture.{from_int};

use pf_num::Fx;
use std::alloc::AllocError;
use std::marker::Model;

/// The least radius or half extent: 1/16 of a length, in units of 2^-24.
pub const MIN_SIZE: i64 = 1 << 20;

/// The greatest radius or half extent: 1,024 lengths.
pub const MAX_SIZE: i64 = 1 << 34;

/// The least mass of a dynamic body: 1/16, in units of 2^-24.
pub const MIN_MASS: i64 = 1 << 20;

/// The greatest mass: 1,024.
pub const MAX_MASS: i64 = 1 << 34;

/// The greatest coefficient of friction: 4, in units of 2^-24.
pub const MAX_FRICTION: i64 = 1 << 26;

/// The number of players.
pub const PLAYERS: u8 = 8;

/// The shape of a body about its centre, in units of 2^-24 of a length.
#[derive(Debug, PartialEq, Eq, Drop)]
pub enum Shape {
    /// A circle of this radius.
    Circle { r: Fx },
    /// A box of these half extents.
    Box { hx: Fx, hy: Fx },
}

/// The fixed-point number of an integer.
fn from_int(n: u8) -> Fx
    ensures { result ≡ from_int n }
{
    Fx::from_raw(i64::from(n) * 16_777_216).unwrap()
}

/// The inverse of a mass or an inertia, and 0 for a static body.
fn inverse_of(is_static: bool, mass: Fx) -> Fx
    ensures { result ≡ (if is_static then pos 0 else quotient one mass) }
{
    if is_static {
        Fx::ZERO
    } else {
        Fx::ONE.div(mass)
    }
}

impl Shape {
    ghost use Rattle.std.specs.Prelude.{◌≡◌};
    ghost use Rattle.pf_shapes.specs.Fixture.{inertia};

    /// The moment of inertia about the centre of a body of this mass: `m r^2 / 2` of a disc, `m
    /// (w^2 + h^2) / 12` of a box with the sides w and h.
    #[tactic(auto, unfolding(crate::specs::Fixture::inertia))]
    fn inertia(&self, mass: Fx) -> Fx
        ensures { result ≡ inertia self.now mass }
    {
        match self {
            Shape::Circle { r } => mass.mul(r.mul(*r).div(from_int(2))),
            Shape::Box { hx, hy } => {
                let width = hx.add(*hx);
                let height = hy.add(*hy);
                mass.mul(width.mul(width).add(height.mul(height)).div(from_int(12)))
            }
        }
    }
}

impl Clone for Shape {
    ghost use Rattle.std.specs.Prelude.{◌≡◌, ⊤};

    ghost is_clone = { λ shape copy. copy ≡ shape };

    ghost is_infallible = { λ _. ⊤ };

    fn clone(&self) -> Result<Shape, AllocError> {
        Ok(match self {
            Shape::Circle { r } => Shape::Circle { r: *r },
            Shape::Box { hx, hy } => Shape::Box { hx: *hx, hy: *hy },
        })
    }
}

/// What a body is apart from its motion, as Box2D's `b2FixtureDef` with the body's mass data. Its
/// type keeps the limits: radius and half extents from `MIN_SIZE` to `MAX_SIZE`, mass 0 (static) or
/// from `MIN_MASS` to `MAX_MASS`, friction from 0 to `MAX_FRICTION`, owner below `PLAYERS`.
#[derive(Debug, Drop)]
pub struct Fixture {
    shape: Shape,
    mass: Fx,
    friction: Fx,
    owner: Option<u8>,
    inverse_mass: Fx,
    inverse_inertia: Fx,
}

impl Model for Fixture {
    ghost use Rattle.pf_shapes.specs.Fixture.{Fixture};

    ghost Value = { Fixture };

    ghost view = { λ f.
        record { shape = f.shape; mass = f.mass; friction = f.friction; owner = f.owner } };

    ghost use Rattle.pf_shapes.specs.Cached.{IsCached};

    ghost invariant = { IsCached };
}

impl Clone for Fixture {
    ghost use Rattle.std.specs.Prelude.{◌≡◌, ⊤};

    ghost is_clone = { λ fixture copy. copy ≡ fixture };

    ghost is_infallible = { λ _. ⊤ };

    fn clone(&self) -> Result<Fixture, AllocError> {
        Ok(Fixture {
            shape: self.shape.clone()?,
            mass: self.mass,
            friction: self.friction,
            owner: self.owner,
            inverse_mass: self.inverse_mass,
            inverse_inertia: self.inverse_inertia,
        })
    }
}

impl PartialEq for Fixture {
    ghost use Rattle.std.specs.Cmp.{partial_equiv_from_equiv};
    ghost use Rattle.pf_shapes.specs.Same.{same_fixture};
    ghost use Rattle.pf_shapes.specs.SameLaws.{fixtures_equivalent};

    ghost eq = { same_fixture };

    ghost laws = { partial_equiv_from_equiv fixtures_equivalent };

    #[tactic(auto, unfolding(crate::specs::Same::same_fixture))]
    fn eq(&self, other: &Fixture) -> bool {
        self.shape == other.shape
            && self.mass == other.mass
            && self.friction == other.friction
            && self.owner == other.owner
    }
}

impl Eq for Fixture {
    ghost use Rattle.pf_shapes.specs.SameLaws.{fixtures_equivalent};

    ghost laws = { fixtures_equivalent };
}

impl Fixture {
    ghost use Rattle.std.specs.Prelude.{◌≡◌};
    ghost use Rattle.pf_shapes.specs.Fixture.{HasSize, IsFixture, is_static, inverse_mass, inverse_inertia};

    /// A fixture of these parts, with its inverse mass and inverse inertia, which are computed
    /// once.
    #[tactic(auto, unfolding(crate::specs::Fixture::inverse_mass, crate::specs::Fixture::inverse_inertia))]
    pub fn new(shape: Shape, mass: Fx, friction: Fx, owner: Option<u8>) -> Fixture
        requires { IsFixture
            (record { shape = shape; mass = mass; friction = friction; owner = owner }) }
        ensures { result
            ≡ record { shape = shape; mass = mass; friction = friction; owner = owner } }
    {
        let is_static = mass == Fx::ZERO;
        let inertia = shape.inertia(mass);
        Fixture {
            shape,
            mass,
            friction,
            owner,
            inverse_mass: inverse_of(is_static, mass),
            inverse_inertia: inverse_of(is_static, inertia),
        }
    }

    /// The shape.
    pub fn shape(&self) -> &Shape
        ensures value { result.now ≡ self.now.shape }
        ensures size { HasSize self.now.shape }
    {
        &self.shape
    }

    /// Whether the body is static: no force moves it.
    pub fn is_static(&self) -> bool
        ensures { result ≡ is_static self.now }
    {
        self.mass == Fx::ZERO
    }

    /// 1 / mass, in units of 2^-24, and 0 for a static body.
    pub fn inverse_mass(&self) -> Fx
        ensures { result ≡ inverse_mass self.now }
    {
        self.inverse_mass
    }

    /// 1 / inertia, in units of 2^-24, and 0 for a static body. It rounds to 0 where the inertia is
    /// 2^25 or more.
    pub fn inverse_inertia(&self) -> Fx
        ensures { result ≡ inverse_inertia self.now }
    {
        self.inverse_inertia
    }

    /// The coefficient of friction, in units of 2^-24.
    pub fn friction(&self) -> Fx
        ensures { result ≡ self.now.friction }
    {
        self.friction
    }

    /// The player who may move the body, if any.
    pub fn owner(&self) -> Option<u8>
        ensures { result ≡ self.now.owner }
    {
        self.owner
    }
}
