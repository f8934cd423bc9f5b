//! Parts of a scene from numbers of a text or of a call, checked from left to right. A number is
//! `None` where a field of a text encodes none.

ghost use Rattle.std.specs.Prelude.{◌≡◌, pos, neg_ℤ, ◌≤ℤ◌, IfOk};
ghost use Rattle.pf_num.specs.Fx.{IsRaw};
ghost use Rattle.pf_rot.specs.Laws.{IsAtMostOne};
ghost use Rattle.pf_shapes.specs.Fixture.{HasSize, IsMass, IsOwner, IsWithin};
ghost use Rattle.pf_shapes.specs.Scene.{IsGravity, IsPosition, IsTransform};
ghost use Rattle.pf_shapes.specs.Numbers.{checked_box, checked_circle, checked_fixture, checked_mass, checked_number, checked_rotation, checked_vector, turned_transform, upright_transform};

use crate::fault::SceneFault;
use crate::fixture::{Fixture, MAX_FRICTION, MAX_MASS, MAX_SIZE, MIN_MASS, MIN_SIZE, Shape};
use crate::scene::{MAX_GRAVITY, MAX_POSITION};
use pf_num::Fx;
use pf_rot::{Rot, V2};

/// The greatest part of a direction: 1, in units of 2^-24.
pub const MAX_DIRECTION: i64 = 1 << 24;

/// The number, where it is from `low` to `high`: one that is out of that range is the error
/// `outside`.
fn checked_number(
    outside: SceneFault,
    low: i64,
    high: i64,
    number: Option<i64>,
) -> Result<Fx, SceneFault>
    requires low { IsRaw low }
    requires high { IsRaw high }
    ensures value { result ≡ checked_number outside low high number }
    ensures range { IfOk result (IsWithin low high) }
{
    match number {
        None => Err(SceneFault::BadNumber),
        Some(raw) if low <= raw && raw <= high => Ok(Fx::from_raw(raw).unwrap()),
        Some(_) => Err(outside),
    }
}

/// The vector, where no part is above `limit` in magnitude.
#[tactic(auto, unfolding(crate::specs::Numbers::checked_vector))]
fn checked_vector(limit: i64, x: Option<i64>, y: Option<i64>) -> Result<V2, SceneFault>
    requires positive { pos 0 ≤ℤ limit }
    requires raw { IsRaw limit }
    ensures value { result ≡ checked_vector limit x y }
    ensures x { IfOk result (λ v. IsWithin (neg_ℤ limit) limit v.x) }
    ensures y { IfOk result (λ v. IsWithin (neg_ℤ limit) limit v.y) }
{
    let x = checked_number(SceneFault::BadNumber, -limit, limit, x)?;
    let y = checked_number(SceneFault::BadNumber, -limit, limit, y)?;
    Ok(V2 { x, y })
}

/// The gravity of a scene.
pub fn gravity(x: Option<i64>, y: Option<i64>) -> Result<V2, SceneFault>
    ensures value { result ≡ checked_vector MAX_GRAVITY x y }
    ensures range { IfOk result IsGravity }
{
    checked_vector(MAX_GRAVITY, x, y)
}

/// The position of a start.
fn position(x: Option<i64>, y: Option<i64>) -> Result<V2, SceneFault>
    ensures value { result ≡ checked_vector MAX_POSITION x y }
    ensures range { IfOk result IsPosition }
{
    checked_vector(MAX_POSITION, x, y)
}

/// The rotation of a start: the direction (c, s), its cosine and sine up to length.
#[tactic(auto, using(pf_rot::proofs::Directions::unit_at_most_one), unfolding(crate::specs::Numbers::checked_rotation))]
fn rotation(c: Option<i64>, s: Option<i64>) -> Result<Rot, SceneFault>
    ensures value { result ≡ checked_rotation c s }
    ensures range { IfOk result IsAtMostOne }
{
    let direction = checked_vector(MAX_DIRECTION, c, s)?;
    Ok(Rot::unit(direction.x, direction.y))
}

/// Where a body starts that stands upright.
#[tactic(auto, unfolding(crate::specs::Numbers::upright_transform))]
pub fn upright(x: Option<i64>, y: Option<i64>) -> Result<(V2, Rot), SceneFault>
    ensures value { result ≡ upright_transform x y }
    ensures range { IfOk result IsTransform }
{
    Ok((position(x, y)?, Rot::UPRIGHT))
}

/// Where a body starts that is turned into the direction (c, s), its cosine and sine up to length.
#[tactic(auto, unfolding(crate::specs::Numbers::turned_transform))]
pub fn turned(
    x: Option<i64>,
    y: Option<i64>,
    c: Option<i64>,
    s: Option<i64>,
) -> Result<(V2, Rot), SceneFault>
    ensures value { result ≡ turned_transform x y c s }
    ensures range { IfOk result IsTransform }
{
    let position = position(x, y)?;
    let rotation = rotation(c, s)?;
    Ok((position, rotation))
}

/// The mass of a body: 0 of a static one.
#[tactic(auto, unfolding(crate::specs::Numbers::checked_mass))]
fn mass(number: Option<i64>) -> Result<Fx, SceneFault>
    ensures value { result ≡ checked_mass number }
    ensures range { IfOk result IsMass }
{
    match number {
        Some(0) => Ok(Fx::ZERO),
        number => checked_number(SceneFault::BadMass, MIN_MASS, MAX_MASS, number),
    }
}

/// The circle of a radius.
#[tactic(auto, unfolding(crate::specs::Numbers::checked_circle))]
fn circle_shape(r: Option<i64>) -> Result<Shape, SceneFault>
    ensures value { result ≡ checked_circle r }
    ensures range { IfOk result HasSize }
{
    let r = checked_number(SceneFault::BadSize, MIN_SIZE, MAX_SIZE, r)?;
    Ok(Shape::Circle { r })
}

/// The box of two half extents.
#[tactic(auto, unfolding(crate::specs::Numbers::checked_box))]
fn box_shape(hx: Option<i64>, hy: Option<i64>) -> Result<Shape, SceneFault>
    ensures value { result ≡ checked_box hx hy }
    ensures range { IfOk result HasSize }
{
    let hx = checked_number(SceneFault::BadSize, MIN_SIZE, MAX_SIZE, hx)?;
    let hy = checked_number(SceneFault::BadSize, MIN_SIZE, MAX_SIZE, hy)?;
    Ok(Shape::Box { hx, hy })
}

/// The fixture of a shape.
#[tactic(auto, unfolding(crate::specs::Numbers::checked_fixture))]
fn fixture(
    owner: Result<Option<u8>, SceneFault>,
    mass_number: Option<i64>,
    friction: Option<i64>,
    shape: Result<Shape, SceneFault>,
) -> Result<Fixture, SceneFault>
    requires owner { IfOk owner IsOwner }
    requires shape { IfOk shape HasSize }
    ensures { result ≡ checked_fixture owner mass_number friction shape }
{
    let owner = owner?;
    let mass = mass(mass_number)?;
    let friction = checked_number(SceneFault::BadNumber, 0, MAX_FRICTION, friction)?;
    let shape = shape?;
    Ok(Fixture::new(shape, mass, friction, owner))
}

/// The fixture of a circle. Checked in this order: owner, mass, friction, radius; the first error
/// is returned.
pub fn circle(
    owner: Result<Option<u8>, SceneFault>,
    mass: Option<i64>,
    friction: Option<i64>,
    r: Option<i64>,
) -> Result<Fixture, SceneFault>
    requires { IfOk owner IsOwner }
    ensures { result ≡ checked_fixture owner mass friction (checked_circle r) }
{
    fixture(owner, mass, friction, circle_shape(r))
}

/// The fixture of a box. Checked in this order: owner, mass, friction, half extents; the first
/// error is returned.
pub fn box_of(
    owner: Result<Option<u8>, SceneFault>,
    mass: Option<i64>,
    friction: Option<i64>,
    hx: Option<i64>,
    hy: Option<i64>,
) -> Result<Fixture, SceneFault>
    requires { IfOk owner IsOwner }
    ensures { result ≡ checked_fixture owner mass friction (checked_box hx hy) }
{
    fixture(owner, mass, friction, box_shape(hx, hy))
}
