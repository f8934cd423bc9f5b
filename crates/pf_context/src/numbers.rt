//! Numbers from outside, as the scenes and the commands that they make. Each is tested.

ghost use Rattle.std.specs.Prelude.{◌≡◌, IfOk};
ghost use Rattle.pf_shapes.specs.Fixture.{IsOwner};
ghost use Rattle.pf_shapes.specs.Scene.{IsGravity, IsTransform};
ghost use Rattle.pf_context.specs.Numbers.{box_of, checked_owner, circle_of, checked_coordinate, checked_fixed, scene_gravity, place_payload, push_payload, turn_payload, turned_at, upright_at};

use crate::error::ContextError;
use pf_commands::{Coordinate, Payload};
use pf_num::Fx;
use pf_rot::{Rot, V2};
use pf_shapes::{Fixture, PLAYERS, SceneFault, numbers};

/// A vector from outside, in units of 2^-24: a position or an impulse, or a direction, whose x is
/// the cosine.
#[derive(Clone, Copy, Debug, PartialEq, Eq)]
#[repr(C)]
pub struct RawV2 {
    pub x: i64,
    pub y: i64,
}

/// What a body is beside its shape, from outside.
#[derive(Clone, Copy, Debug, PartialEq, Eq)]
pub struct Material {
    /// The player who may move the body, below 8, if any.
    pub owner: Option<u8>,
    /// The mass, in units of 2^-24: 0 of a static body, or from 2^20 to 2^34.
    pub mass: i64,
    /// The coefficient of friction, in units of 2^-24, from 0 to 2^26.
    pub friction: i64,
}

/// The gravity of a scene.
pub(crate) fn gravity(raw: RawV2) -> Result<V2, SceneFault>
    ensures value { result ≡ scene_gravity raw }
    ensures range { IfOk result IsGravity }
{
    numbers::gravity(Some(raw.x), Some(raw.y))
}

/// Where a body starts that stands upright.
pub(crate) fn upright(place: RawV2) -> Result<(V2, Rot), SceneFault>
    ensures value { result ≡ upright_at place }
    ensures range { IfOk result IsTransform }
{
    numbers::upright(Some(place.x), Some(place.y))
}

/// Where a body starts that is turned into a direction.
pub(crate) fn turned(place: RawV2, direction: RawV2) -> Result<(V2, Rot), SceneFault>
    ensures value { result ≡ turned_at place direction }
    ensures range { IfOk result IsTransform }
{
    numbers::turned(
        Some(place.x),
        Some(place.y),
        Some(direction.x),
        Some(direction.y),
    )
}

/// The owner of a body.
#[tactic(auto, unfolding(crate::specs::Numbers::checked_owner))]
fn owner(owner: Option<u8>) -> Result<Option<u8>, SceneFault>
    ensures value { result ≡ checked_owner owner }
    ensures range { IfOk result IsOwner }
{
    match owner {
        Some(player) if player >= PLAYERS => Err(SceneFault::BadNumber),
        _ => Ok(owner),
    }
}

/// The fixture of a circle.
pub(crate) fn circle(material: Material, r: i64) -> Result<Fixture, SceneFault>
    ensures { result ≡ circle_of material r }
{
    let owner = owner(material.owner);
    numbers::circle(owner, Some(material.mass), Some(material.friction), Some(r))
}

/// The fixture of a box.
pub(crate) fn box_of(material: Material, half: RawV2) -> Result<Fixture, SceneFault>
    ensures { result ≡ box_of material half }
{
    let owner = owner(material.owner);
    numbers::box_of(
        owner,
        Some(material.mass),
        Some(material.friction),
        Some(half.x),
        Some(half.y),
    )
}

/// A number of a command.
#[tactic(auto, unfolding(crate::specs::Numbers::checked_fixed))]
fn fixed(raw: i64) -> Result<Fx, ContextError>
    ensures { result ≡ checked_fixed raw }
{
    Fx::from_raw(raw).ok_or(ContextError::BadNumber)
}

/// A part of a position to which a command moves a body.
#[tactic(auto, unfolding(crate::specs::Numbers::checked_coordinate, crate::specs::Numbers::checked_fixed))]
fn coordinate(raw: i64) -> Result<Coordinate, ContextError>
    ensures { result ≡ checked_coordinate raw }
{
    match Coordinate::new(fixed(raw)?) {
        Some(coordinate) => Ok(coordinate),
        None => Err(ContextError::BadNumber),
    }
}

/// A push: an impulse, mass times lengths a second. Returns `BadNumber` where a part is above 2^55
/// - 1 in magnitude.
#[tactic(auto, unfolding(crate::specs::Numbers::push_payload))]
pub fn push(body: u16, impulse: RawV2) -> Result<Payload, ContextError>
    ensures { result ≡ push_payload body impulse }
{
    let x = fixed(impulse.x)?;
    let y = fixed(impulse.y)?;
    Ok(Payload::Push { body, x, y })
}

/// A turn: an angular impulse, inertia times radians a second. Returns `BadNumber` where it is
/// above 2^55 - 1 in magnitude.
#[tactic(auto, unfolding(crate::specs::Numbers::turn_payload))]
pub fn turn(body: u16, impulse: i64) -> Result<Payload, ContextError>
    ensures { result ≡ turn_payload body impulse }
{
    let x = fixed(impulse)?;
    Ok(Payload::Turn { body, x })
}

/// A place: the position to which the body is moved. Returns `BadNumber` where a part is above 2^44
/// in magnitude.
#[tactic(auto, unfolding(crate::specs::Numbers::place_payload))]
pub fn place(body: u16, position: RawV2) -> Result<Payload, ContextError>
    ensures { result ≡ place_payload body position }
{
    let x = coordinate(position.x)?;
    let y = coordinate(position.y)?;
    Ok(Payload::Place { body, x, y })
}
