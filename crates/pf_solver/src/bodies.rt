//! What one body goes through in a tick apart from its contacts.

ghost use Rattle.std.specs.Prelude.{◌≡◌};
ghost use Rattle.pf_solver.specs.Bodies.{after_gravity, after_motion, after_timer, is_slow, is_still};

use pf_num::Fx;
use pf_rot::V2;
use pf_shapes::BodyState;

/// The speed up to which a body is still: 1/64 of a length a second, in units of 2^-24.
pub const STILL_SPEED: u128 = 262_144;
/// The spin up to which a body is still: 1/32 of a radian a second, in units of 2^-24.
pub const STILL_SPIN: u64 = 524_288;
/// For how many ticks a body is still before it goes to sleep: half a second.
pub const STILL_TICKS: u8 = 32;

/// The phase Gravity. `pull` is what gravity adds to a velocity in a tick.
#[inline(always)]
#[tactic(auto, unfolding(crate::specs::Bodies::after_gravity))]
pub fn after_gravity(pull: V2, body: BodyState) -> BodyState
    ensures { result ≡ after_gravity pull body }
{
    BodyState {
        velocity: body.velocity.add(pull),
        ..body
    }
}

/// The phase Positions: semi-implicit Euler, by the new velocity and spin.
#[inline(always)]
#[tactic(auto, unfolding(crate::specs::Bodies::after_motion))]
pub fn after_motion(body: BodyState) -> BodyState
    ensures { result ≡ after_motion body }
{
    BodyState {
        position: body.position.add(body.velocity.scale(Fx::TICK)),
        rotation: body.rotation.turn(body.spin),
        ..body
    }
}

/// The phase Timers.
#[inline(always)]
#[tactic(auto, unfolding(crate::specs::Bodies::after_timer))]
pub fn after_timer(body: BodyState) -> BodyState
    ensures { result ≡ after_timer body }
{
    let timer = if !is_still(body) {
        0
    } else if body.timer < STILL_TICKS {
        body.timer + 1
    } else {
        STILL_TICKS
    };
    BodyState { timer, ..body }
}

/// Whether a body is slow enough to be still, by exact squares.
#[inline(always)]
#[tactic(auto, unfolding(crate::specs::Bodies::is_still))]
fn is_still(body: BodyState) -> bool
    ensures { result ≡ is_still body }
{
    let spin = body.spin;
    is_slow(body.velocity) && spin.raw().unsigned_abs() <= STILL_SPIN
}

/// Whether a velocity is at most `STILL_SPEED`.
#[inline(always)]
fn is_slow(velocity: V2) -> bool
    ensures { result ≡ is_slow velocity }
{
    let x = u128::from(velocity.x.raw().unsigned_abs());
    let y = u128::from(velocity.y.raw().unsigned_abs());
    x * x + y * y <= STILL_SPEED * STILL_SPEED
}
