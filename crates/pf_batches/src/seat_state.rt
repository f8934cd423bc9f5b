//! The unknowns of one row in doubles, and in fixed-point numbers.

ghost use Rattle.std.specs.Prelude.{◌≡◌, ◌≤◌, IfSome};
ghost use Rattle.pf_batches.specs.Contact.{IsSeatWithin, state_of};
ghost use Rattle.pf_batches.specs.Unknowns.{seat_state_from};

use pf_bundles::{ExactImpulses, ExactVelocity, SeatState};
use pf_lanes::EXACT_LIMIT;
use pf_rows::InverseMass;
use pf_solver::{ContactState, Motion};

/// The motion of a body of this velocity and this mass.
#[inline]
fn motion_of(velocity: &ExactVelocity, mass: InverseMass) -> Motion
    ensures { result ≡ record {
      velocity = velocity.now.velocity;
      spin = velocity.now.spin;
      mass = mass;
    } }
{
    Motion {
        velocity: velocity.velocity(),
        spin: velocity.spin(),
        mass,
    }
}

/// The contact of these unknowns, of bodies of these masses.
pub(crate) fn contact_of(
    state: &SeatState,
    first_mass: InverseMass,
    second_mass: InverseMass,
) -> ContactState
    ensures { result ≡ state_of first_mass second_mass state.now }
{
    ContactState {
        first: motion_of(&state.first, first_mass),
        second: motion_of(&state.second, second_mass),
        impulses: state.impulses.impulses(),
    }
}

/// The unknowns of a contact, or `None` where a velocity or an impulse is above `limit`, or doubles
/// do not hold a spin.
pub(crate) fn seat_state_of(state: &ContactState, limit: u64) -> Option<SeatState>
    requires { limit ≤ EXACT_LIMIT }
    ensures value { IfSome result (λ seat. seat ≡ seat_state_from state.now) }
    ensures size { IfSome result (λ seat. IsSeatWithin limit seat) }
{
    let (first, second) = (&state.first, &state.second);
    Some(SeatState {
        first: ExactVelocity::of(first.velocity, first.spin, limit)?,
        second: ExactVelocity::of(second.velocity, second.spin, limit)?,
        impulses: ExactImpulses::of(&state.impulses, limit)?,
    })
}
