//! The lines of a scene.

ghost use Rattle.std.specs.Prelude.{◌≡◌, IfOk, map};
ghost use Rattle.pf_shapes.specs.Numbers.{checked_body};
ghost use Rattle.pf_shapes.specs.Fixture.{IsOwner};
ghost use Rattle.pf_shapes.specs.Scene.{IsGravity, IsTransform};
ghost use Rattle.pf_shapes.specs.SceneText.{body_parts, box_parts, circle_parts, gravity_of, owner_of};

use crate::fault::SceneFault;
use crate::fixture::{Fixture, PLAYERS};
use crate::numbers::{box_of, circle, gravity, turned, upright};
use crate::words::BodyWord;
use pf_rot::{Rot, V2};
use pf_text::{ParsedNumber, number, whole};

/// The player that owns a body, or `-` for nobody.
fn read_owner(field: &[u8]) -> Result<Option<u8>, SceneFault>
    ensures value { result ≡ owner_of field.now }
    ensures range { IfOk result IsOwner }
{
    if field == b"-".as_slice() {
        return Ok(None);
    }
    match number(field, 0, i64::from(PLAYERS) - 1) {
        ParsedNumber::InRange(player) => Ok(Some(player as u8)),
        _ => Err(SceneFault::BadNumber),
    }
}

/// `gravity GX GY`.
pub fn read_gravity(x: &[u8], y: &[u8]) -> Result<V2, SceneFault>
    ensures value { result ≡ gravity_of x.now y.now }
    ensures range { IfOk result IsGravity }
{
    gravity(whole(x), whole(y))
}

/// A body's fixture and where it starts, from the fields behind its word.
pub fn read_body(word: BodyWord, arguments: &[&[u8]]) -> Result<(Fixture, (V2, Rot)), SceneFault>
    ensures value { result ≡ body_parts word (map (λ field. field.now) arguments.now) }
    ensures range { IfOk result (λ body. IsTransform body.1) }
{
    match word {
        BodyWord::Circle => read_circle(arguments),
        BodyWord::Box => read_box(arguments),
    }
}

/// `circle OWNER MASS FRICTION R X Y`.
#[tactic(auto, unfolding(crate::specs::SceneText::circle_parts))]
fn read_circle(arguments: &[&[u8]]) -> Result<(Fixture, (V2, Rot)), SceneFault>
    ensures value { result ≡ circle_parts (map (λ field. field.now) arguments.now) }
    ensures range { IfOk result (λ body. IsTransform body.1) }
{
    match arguments {
        [owner, mass, friction, r, x, y] => {
            checked_body(
                circle(read_owner(owner), whole(mass), whole(friction), whole(r)),
                upright(whole(x), whole(y)),
            )
        }
        _ => Err(SceneFault::BadLine),
    }
}

/// `box OWNER MASS FRICTION HX HY X Y C S`.
#[tactic(auto, unfolding(crate::specs::SceneText::box_parts))]
fn read_box(arguments: &[&[u8]]) -> Result<(Fixture, (V2, Rot)), SceneFault>
    ensures value { result ≡ box_parts (map (λ field. field.now) arguments.now) }
    ensures range { IfOk result (λ body. IsTransform body.1) }
{
    match arguments {
        [owner, mass, friction, hx, hy, x, y, c, s] => {
            checked_body(
                box_of(
                    read_owner(owner),
                    whole(mass),
                    whole(friction),
                    whole(hx),
                    whole(hy),
                ),
                turned(whole(x), whole(y), whole(c), whole(s)),
            )
        }
        _ => Err(SceneFault::BadLine),
    }
}

/// A body's fixture and where it starts.
#[tactic(auto, unfolding(crate::specs::Numbers::checked_body))]
fn checked_body(
    fixture: Result<Fixture, SceneFault>,
    transform: Result<(V2, Rot), SceneFault>,
) -> Result<(Fixture, (V2, Rot)), SceneFault>
    requires { IfOk transform IsTransform }
    ensures value { result ≡ checked_body fixture transform }
    ensures range { IfOk result (λ body. IsTransform body.1) }
{
    let fixture = fixture?;
    let transform = transform?;
    Ok((fixture, transform))
}
