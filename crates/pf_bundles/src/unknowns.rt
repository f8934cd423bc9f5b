//! The unknowns of the rounds, as doubles: velocities of bodies, and accumulated impulses.

ghost use Rattle.std.specs.Prelude.{◌≡◌, ◌<◌, ◌≤◌, ◌↔◌, All, IfSome, IsSome, length};
ghost use Rattle.std.specs.Int.RustNames.{unsigned_abs};
ghost use Rattle.pf_bundles.specs.Seats.{AreFirst, HasSeatIn, HaveFirst, IsSeatIn, unknowns_behind_first, unknowns_with_lane, unknowns_with_lanes, taken_seats};

use crate::exact::{ExactVector, exact_of, number_of};
use crate::seat::LaneSeat;
use pf_lanes::{EXACT_LIMIT, ExactDouble};
use pf_num::Fx;
use pf_rot::V2;
use pf_rows::{Impulses, is_within};
use std::alloc::{AllocError, Global};
use std::marker::Model;

/// A number as a double, or `None` where it is above this in magnitude.
#[inline]
fn exact_within(x: Fx, limit: u64) -> Option<ExactDouble>
    requires { limit ≤ EXACT_LIMIT }
    ensures value { IfSome result (λ whole. whole ≡ x) }
    ensures size { IfSome result (λ whole. unsigned_abs whole ≤ limit) }
    ensures fits { IsSome result ↔ (unsigned_abs x ≤ limit) }
{
    if is_within(x, limit) {
        exact_of(x)
    } else {
        None
    }
}

/// The velocity and the angular velocity of a body, in whole numbers that are doubles.
#[derive(Clone, Copy)]
pub struct ExactVelocity {
    /// The velocity.
    pub velocity: ExactVector,
    /// The angular velocity.
    pub spin: ExactDouble,
}

impl Model for ExactVelocity {
    ghost use Rattle.pf_bundles.specs.Unknowns.{Velocity};

    ghost Value = { Velocity };

    ghost view = { λ v. record { velocity = v.velocity; spin = v.spin } };

    ghost inverse = { λ v. record { velocity = v.velocity; spin = v.spin } };
}

impl ExactVelocity {
    ghost use Rattle.std.specs.Prelude.{◌≡◌, ◌≤◌, ◌↔◌, IfSome, IsSome};
    ghost use Rattle.std.specs.Int.RustNames.{unsigned_abs};
    ghost use Rattle.pf_rows.specs.Small.{IsShort};
    ghost use Rattle.pf_bundles.specs.Unknowns.{Velocity, no_velocity};

    /// That of a static body.
    #[inline]
    pub fn none() -> ExactVelocity
        ensures { result ≡ no_velocity }
    {
        ExactVelocity {
            velocity: ExactVector::zero(),
            spin: ExactDouble::zero(),
        }
    }

    /// A body's velocity and angular velocity. `None` where the velocity is above `limit` along an
    /// axis, or where doubles do not hold the angular velocity.
    #[inline]
    pub fn of(velocity: V2, spin: Fx, limit: u64) -> Option<ExactVelocity>
        requires { limit ≤ EXACT_LIMIT }
        ensures value { IfSome result (λ whole.
            whole ≡ record { velocity = velocity; spin = spin }) }
        ensures size { IfSome result (λ whole. IsShort limit whole.velocity) }
        ensures fits { IsSome result
            ↔ (IsShort limit velocity × (unsigned_abs spin ≤ EXACT_LIMIT)) }
    {
        let velocity = ExactVector {
            x: exact_within(velocity.x, limit)?,
            y: exact_within(velocity.y, limit)?,
        };
        let spin = exact_of(spin)?;
        Some(ExactVelocity { velocity, spin })
    }

    /// The velocity.
    #[inline]
    pub fn velocity(&self) -> V2
        ensures { result ≡ self.now.velocity }
    {
        self.velocity.vector()
    }

    /// The angular velocity.
    #[inline]
    pub fn spin(&self) -> Fx
        ensures { result ≡ self.now.spin }
    {
        number_of(self.spin)
    }
}

/// The accumulated impulses of a row, in whole numbers that are doubles.
#[derive(Clone, Copy)]
pub struct ExactImpulses {
    /// Along the normal.
    pub normal: ExactDouble,
    /// Along the tangent.
    pub tangent: ExactDouble,
}

impl Model for ExactImpulses {
    ghost use Rattle.pf_rows.specs.Impulses.{Impulses};

    ghost Value = { Impulses };

    ghost view = { λ p. record { normal = p.normal; tangent = p.tangent } };

    ghost inverse = { λ p. record { normal = p.normal; tangent = p.tangent } };
}

impl ExactImpulses {
    ghost use Rattle.std.specs.Prelude.{◌≡◌, ◌≤◌, ◌↔◌, IfSome, IsSome};
    ghost use Rattle.pf_rows.specs.Impulses.{no_impulses};
    ghost use Rattle.pf_rows.specs.Small.{AreWithin};

    /// Those of no row.
    #[inline]
    pub fn none() -> ExactImpulses
        ensures { result ≡ no_impulses }
    {
        ExactImpulses {
            normal: ExactDouble::zero(),
            tangent: ExactDouble::zero(),
        }
    }

    /// These impulses, or `None` where one is above `limit`.
    #[inline]
    pub fn of(impulses: &Impulses, limit: u64) -> Option<ExactImpulses>
        requires { limit ≤ EXACT_LIMIT }
        ensures value { IfSome result (λ whole. whole ≡ impulses.now) }
        ensures size { IfSome result (λ whole. AreWithin limit whole) }
        ensures fits { IsSome result ↔ AreWithin limit impulses.now }
    {
        let normal = exact_within(impulses.normal, limit)?;
        let tangent = exact_within(impulses.tangent, limit)?;
        Some(ExactImpulses { normal, tangent })
    }

    /// The impulses.
    #[inline]
    pub fn impulses(&self) -> Impulses
        ensures { result ≡ self.now }
    {
        Impulses {
            normal: number_of(self.normal),
            tangent: number_of(self.tangent),
        }
    }
}

/// The unknowns of one row: of its bodies, and its accumulated impulses.
#[derive(Clone, Copy)]
pub struct SeatState {
    /// The first body.
    pub first: ExactVelocity,
    /// The second body.
    pub second: ExactVelocity,
    /// The accumulated impulses.
    pub impulses: ExactImpulses,
}

impl Model for SeatState {
    ghost use Rattle.pf_bundles.specs.Seats.{SeatState};

    ghost Value = { SeatState };

    ghost view = { λ s. record { first = s.first; second = s.second; impulses = s.impulses } };

    ghost inverse = { λ s. record { first = s.first; second = s.second; impulses = s.impulses } };
}

/// The velocities of all bodies, and the accumulated impulses of all rows.
///
/// In front of both stand zeros. Static bodies and lanes without a row have them, so that lanes are
/// read and stored without a branch.
#[derive(Drop)]
pub struct Unknowns {
    velocities: Vec<ExactVelocity>,
    impulses: Vec<ExactImpulses>,
}

impl Model for Unknowns {
    ghost use Rattle.pf_bundles.specs.Unknowns.{Unknowns};
    ghost use Rattle.pf_bundles.specs.Seats.{HaveFirst, unknowns_behind_first};

    ghost Value = { Unknowns };

    ghost view = { λ n. unknowns_behind_first n.velocities.items n.impulses.items };

    ghost invariant = { λ n. HaveFirst n.velocities.items n.impulses.items };
}

/// Stores the unknowns of a lane's row: of the first body, and then of the second.
#[inline(always)]
#[tactic(auto, using(crate::proofs::Seats::velocity_stored, crate::proofs::Seats::impulses_stored))]
fn store_lane(
    velocities: &mut [ExactVelocity],
    impulses: &mut [ExactImpulses],
    seat: &LaneSeat,
    state: &SeatState,
)
    requires velocities { 0 < length velocities.old }
    requires impulses { 0 < length impulses.old }
    requires seat { HasSeatIn (unknowns_behind_first velocities.old impulses.old) seat.now }
    ensures value { unknowns_behind_first velocities.new impulses.new ≡ unknowns_with_lane seat.now
        state.now (unknowns_behind_first velocities.old impulses.old) }
    ensures velocities { length velocities.new ≡ length velocities.old }
    ensures impulses { length impulses.new ≡ length impulses.old }
{
    velocities[seat.first] = state.first;
    velocities[seat.second] = state.second;
    impulses[seat.row] = state.impulses;
}

/// Stores the unknowns of four lanes, one after the other.
#[inline(always)]
#[tactic(auto, using(crate::proofs::Seats::has_seat, crate::proofs::Seats::seat_kept))]
fn store_lanes(
    velocities: &mut [ExactVelocity],
    impulses: &mut [ExactImpulses],
    seats: &[LaneSeat; 4],
    states: &[SeatState; 4],
)
    requires velocities { 0 < length velocities.old }
    requires impulses { 0 < length impulses.old }
    requires first { AreFirst seats.now }
    requires seats { All (IsSeatIn (unknowns_behind_first velocities.old impulses.old))
        (taken_seats seats.now) }
    ensures value { unknowns_behind_first velocities.new impulses.new ≡ unknowns_with_lanes seats.now
        states.now (unknowns_behind_first velocities.old impulses.old) }
    ensures velocities { length velocities.new ≡ length velocities.old }
    ensures impulses { length impulses.new ≡ length impulses.old }
{
    let [first, second, third, fourth] = seats;
    let [a, b, c, d] = states;
    store_lane(velocities, impulses, first, a);
    store_lane(velocities, impulses, second, b);
    store_lane(velocities, impulses, third, c);
    store_lane(velocities, impulses, fourth, d);
}

/// Puts zeros at the first place.
#[inline(always)]
#[tactic(auto, using(crate::proofs::Seats::first_cleared, crate::proofs::Seats::rest_kept))]
fn clear_first(velocities: &mut [ExactVelocity], impulses: &mut [ExactImpulses])
    requires velocities { 0 < length velocities.old }
    requires impulses { 0 < length impulses.old }
    ensures first { HaveFirst velocities.new impulses.new }
    ensures rest { unknowns_behind_first velocities.new impulses.new
        ≡ unknowns_behind_first velocities.old impulses.old }
    ensures velocities { length velocities.new ≡ length velocities.old }
    ensures impulses { length impulses.new ≡ length impulses.old }
{
    velocities[0] = ExactVelocity::none();
    impulses[0] = ExactImpulses::none();
}

impl Unknowns {
    ghost use Rattle.std.specs.Prelude.{◌≡◌, ◌++◌, ◌∷◌, [], All, IfOk, OnErr, OnOk};
    ghost use Rattle.pf_bundles.specs.Unknowns.{no_unknowns};
    ghost use Rattle.pf_bundles.specs.Seats.{AreAsMany, AreFirst, HasSeatIn, IsSeatIn, unknowns_with_lanes, seat_state_or, taken_seats};

    /// Those of no bodies and no rows.
    pub fn new(alloc: Global) -> Result<Unknowns, AllocError>
        ensures { IfOk result (λ unknowns. unknowns ≡ no_unknowns) }
    {
        let mut velocities = Vec::new(alloc);
        velocities.push(ExactVelocity::none())?;
        let mut impulses = Vec::new(alloc);
        impulses.push(ExactImpulses::none())?;
        Ok(Unknowns {
            velocities,
            impulses,
        })
    }

    /// Removes all of them.
    pub fn clear(&mut self)
        ensures { self.new ≡ no_unknowns }
    {
        self.velocities.truncate(1);
        self.impulses.truncate(1);
    }

    /// Adds the velocity of one more body. Out of memory they stay as they were.
    #[inline]
    pub fn push_velocity(&mut self, velocity: ExactVelocity) -> Result<(), AllocError>
        ensures ok { OnOk result (self.new
            ≡ record self.old { velocities = self.old.velocities ++ velocity ∷ [] }) }
        ensures err { OnErr result (self.new ≡ self.old) }
    {
        Ok(self.velocities.push(velocity)?)
    }

    /// Adds the accumulated impulses of one more row. Out of memory they stay as they were.
    #[inline]
    pub fn push_impulses(&mut self, impulses: ExactImpulses) -> Result<(), AllocError>
        ensures ok { OnOk result (self.new
            ≡ record self.old { impulses = self.old.impulses ++ impulses ∷ [] }) }
        ensures err { OnErr result (self.new ≡ self.old) }
    {
        Ok(self.impulses.push(impulses)?)
    }

    /// One for each body.
    #[inline]
    pub fn velocities(&self) -> &[ExactVelocity]
        ensures { result.now ≡ self.now.velocities }
    {
        &self.velocities[1..]
    }

    /// One for each row.
    #[inline]
    pub fn impulses(&self) -> &[ExactImpulses]
        ensures { result.now ≡ self.now.impulses }
    {
        &self.impulses[1..]
    }

    /// The velocity of the first body of a lane.
    #[inline(always)]
    #[tactic(auto, using(crate::proofs::Seats::velocity_read))]
    pub fn first_of(&self, seat: &LaneSeat) -> &ExactVelocity
        requires { HasSeatIn self.now seat.now }
        ensures { result.now ≡ (seat_state_or self.now seat.now).first }
    {
        &self.velocities[seat.first]
    }

    /// The velocity of the second body of a lane.
    #[inline(always)]
    #[tactic(auto, using(crate::proofs::Seats::velocity_read))]
    pub fn second_of(&self, seat: &LaneSeat) -> &ExactVelocity
        requires { HasSeatIn self.now seat.now }
        ensures { result.now ≡ (seat_state_or self.now seat.now).second }
    {
        &self.velocities[seat.second]
    }

    /// The accumulated impulses of a lane.
    #[inline(always)]
    pub fn impulses_of(&self, seat: &LaneSeat) -> &ExactImpulses
        requires { HasSeatIn self.now seat.now }
        ensures { result.now ≡ (seat_state_or self.now seat.now).impulses }
    {
        &self.impulses[seat.row]
    }

    /// The unknowns of a lane.
    #[inline(always)]
    pub fn read(&self, seat: &LaneSeat) -> SeatState
        requires { HasSeatIn self.now seat.now }
        ensures { result ≡ seat_state_or self.now seat.now }
    {
        SeatState {
            first: *self.first_of(seat),
            second: *self.second_of(seat),
            impulses: *self.impulses_of(seat),
        }
    }

    /// Stores the unknowns of four lanes, one after the other.
    #[inline(always)]
    pub fn store(&mut self, seats: &[LaneSeat; 4], states: &[SeatState; 4])
        requires first { AreFirst seats.now }
        requires seats { All (IsSeatIn self.old) (taken_seats seats.now) }
        ensures value { self.new ≡ unknowns_with_lanes seats.now states.now self.old }
        ensures many { AreAsMany self.old self.new }
    {
        let velocities = self.velocities.as_mut_slice();
        let impulses = self.impulses.as_mut_slice();
        store_lanes(velocities, impulses, seats, states);
        clear_first(velocities, impulses);
    }
}
