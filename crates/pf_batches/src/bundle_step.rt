//! What a bundle does in one pass: in lanes, or row by row where a number is above a limit.

ghost use Rattle.std.specs.Prelude.{◌≡◌, ℕ, ◌≤◌, ◌<◌, ◌+◌, All, IfSome, IsTrue, List, Some, length, slice_get, slice_index_or};
ghost use Rattle.pf_solver.specs.Velocities.{Batch};
ghost use Rattle.pf_rows.specs.Row.{Constraint};
ghost use Rattle.pf_lanes.specs.Lanes.{Lane};
ghost use Rattle.pf_bundles.specs.Bundle.{Seat, lane_number};
ghost use Rattle.pf_bundles.specs.LaneRow.{lane_row_in, no_lane_row};
ghost use Rattle.pf_bundles.specs.Prepared.{constraint_in};
ghost use Rattle.pf_solver.specs.FastPath.{IsArmFor};
ghost use Rattle.pf_solver.specs.Impulse.{ContactState};
ghost use Rattle.pf_batches.specs.Contact.{IsSeatWithin, seat_state_in, state_in};
ghost use Rattle.pf_batches.specs.Limits.{AreGrown, IsContactWithin};
ghost use Rattle.pf_batches.specs.Unknowns.{AreAllWithin, AreUnknownsOf, AreSeatsOf, HoldEach, HoldsSeatRow, lane_result, unknowns_at_once};
ghost use Rattle.pf_bundles.specs.Seats.{AreAsMany, AreFirst, HasSeatIn, IsSeatIn, lane_seat, seat_state_at, seat_state_or, taken_seats};

use crate::contact::{ContactLanes, accumulated, motions};
use crate::round::after_round;
use crate::seat_state::{contact_of, seat_state_of};
use crate::warm_start::after_warm_start;
use pf_bundles::limits::NUMBER_LIMIT;
use pf_bundles::{Bundle, LaneRow, LaneSeat, PreparedLanes, SeatState, Unknowns};
use pf_lanes::EXACT_LIMIT;
use pf_solver::{ContactState, ContactStep, Round, WarmStart};

/// How much greater a step in lanes can make a velocity along an axis, or an accumulated impulse,
/// in raw units of 2^-24.
pub const GROWTH: u64 = 1 << 30;

/// What contacts side by side do in one pass: a warm start, or one round.
pub(crate) trait LaneStep: ContactStep {
    ghost use Rattle.std.specs.Prelude.{◌≡◌, IfSome};
    ghost use Rattle.pf_rot.specs.Vector.{V2};
    ghost use Rattle.pf_rows.specs.Row.{Constraint};
    ghost use Rattle.pf_lanes.specs.Lanes.{Lane};
    ghost use Rattle.pf_bundles.specs.Prepared.{constraint_in};
    ghost use Rattle.pf_solver.specs.FastPath.{IsArmFor};
    ghost use Rattle.pf_solver.specs.Impulse.{ContactState};
    ghost use Rattle.pf_batches.specs.Contact.{state_in};
    ghost use Rattle.pf_batches.specs.Limits.{AreGrown, IsContactWithin};

    /// Each contact after the step, or `None` where a number is above a limit.
    fn after_lanes(prepared: &PreparedLanes, state: &ContactLanes) -> Option<ContactLanes>
        requires { (k : Lane) → IsContactWithin NUMBER_LIMIT (state_in k prepared.now state.now) }
        ensures value { IfSome result (λ after. (k : Lane) → state_in k prepared.now after
            ≡ Self.step (constraint_in k prepared.now.constraint)
            (state_in k prepared.now state.now)) }
        ensures size { IfSome result (λ after. (k : Lane) → AreGrown GROWTH
            (state_in k prepared.now state.now) (state_in k prepared.now after)) };

    /// The arm of a body that stands still and that no impulse moves does not matter.
    ghost static_arms: { (own : Constraint) (first second : V2) (m : ContactState)
        → IsArmFor m.first own.first_arm first → IsArmFor m.second own.second_arm second
        → Self.step (record own { first_arm = first; second_arm = second }) m
        ≡ Self.step own m };
}

impl LaneStep for WarmStart {
    ghost use Rattle.pf_solver.proofs.StaticArms.{warm_start_same};

    ghost static_arms = { λ own first second m a b. warm_start_same own first second m a b };

    #[inline(always)]
    fn after_lanes(prepared: &PreparedLanes, state: &ContactLanes) -> Option<ContactLanes> {
        after_warm_start(prepared, state)
    }
}

impl LaneStep for Round {
    ghost use Rattle.pf_solver.proofs.StaticArms.{round_same};

    ghost static_arms = { λ own first second m a b. round_same own first second m a b };

    #[inline(always)]
    fn after_lanes(prepared: &PreparedLanes, state: &ContactLanes) -> Option<ContactLanes> {
        after_round(prepared, state)
    }
}

/// The contacts of lanes with these seats. Their unknowns are lent, not copied: each is loaded by
/// itself, as it was stored.
#[inline(always)]
#[tactic(auto, using(pf_bundles::proofs::Seats::has_seat))]
fn read(unknowns: &Unknowns, seats: &[LaneSeat; 4]) -> ContactLanes
    requires first { AreFirst seats.now }
    requires seats { All (IsSeatIn unknowns.now) (taken_seats seats.now) }
    ensures { (k : Lane) → seat_state_in k result
        ≡ seat_state_or unknowns.now (lane_seat k seats.now) }
{
    let [a, b, c, d] = seats;
    let first = motions(
        unknowns.first_of(a),
        unknowns.first_of(b),
        unknowns.first_of(c),
        unknowns.first_of(d),
    );
    let second = motions(
        unknowns.second_of(a),
        unknowns.second_of(b),
        unknowns.second_of(c),
        unknowns.second_of(d),
    );
    let (normal, tangent) = accumulated(
        unknowns.impulses_of(a),
        unknowns.impulses_of(b),
        unknowns.impulses_of(c),
        unknowns.impulses_of(d),
    );
    ContactLanes {
        first,
        second,
        normal,
        tangent,
    }
}

/// The unknowns of a row after the step, by scalars; `None` where one is above `limit`, or doubles
/// do not hold a spin.
fn exact_state<L: ContactStep>(row: &LaneRow, state: &SeatState, limit: u64) -> Option<SeatState>
    requires { limit ≤ EXACT_LIMIT }
    ensures value { IfSome result (λ after. after ≡ lane_result L.step row.now state.now) }
    ensures size { IfSome result (λ after. IsSeatWithin limit after) }
{
    let prepared = row.prepared();
    let before = contact_of(state, prepared.first_mass(), prepared.second_mass());
    let after = match L::fast_after(&prepared, &before) {
        Some(after) => after,
        None => L::after(prepared.constraint(), &before),
    };
    seat_state_of(&after, limit)
}

/// The unknowns of a lane after the step, by scalars; zeros where the lane has no row. `None` as in
/// [`exact_state`].
fn exact_lane<L: ContactStep>(
    rows: &[LaneRow],
    seat: &LaneSeat,
    unknowns: &Unknowns,
    limit: u64,
) -> Option<SeatState>
    requires limit { limit ≤ EXACT_LIMIT }
    requires seat { HasSeatIn unknowns.now seat.now }
    requires row { IfSome seat.now (λ own. own.place < length rows.now) }
    ensures value { IfSome result (λ after. (own : Seat) → seat.now ≡ Some own
        → after ≡ lane_result L.step (slice_index_or rows.now own.place no_lane_row)
        (seat_state_at unknowns.now own)) }
    ensures size { IfSome result (λ after. IsSeatWithin limit after) }
{
    let state = unknowns.read(seat);
    match seat.place() {
        Some(place) => exact_state::<L>(&rows[place], &state, limit),
        None => Some(state),
    }
}

/// The contacts of a bundle after the step, each by scalars; `None` where a number of one is above
/// `limit`, or doubles do not hold a spin.
#[cold]
#[inline(never)]
#[tactic(auto, using(pf_bundles::proofs::Seats::has_seat))]
fn after_exact<L: ContactStep>(
    rows: &[LaneRow],
    seats: &[LaneSeat; 4],
    unknowns: &Unknowns,
    limit: u64,
) -> Option<ContactLanes>
    requires limit { limit ≤ EXACT_LIMIT }
    requires first { AreFirst seats.now }
    requires seats { All (IsSeatIn unknowns.now) (taken_seats seats.now) }
    requires rows { All (λ seat. seat.place < length rows.now) (taken_seats seats.now) }
    ensures value { IfSome result (λ after. (k : Lane) (seat : Seat)
        → lane_seat k seats.now ≡ Some seat → seat_state_in k after
        ≡ lane_result L.step (slice_index_or rows.now seat.place no_lane_row)
        (seat_state_at unknowns.now seat)) }
    ensures size { IfSome result
        (λ after. (k : Lane) → IsSeatWithin limit (seat_state_in k after)) }
{
    let [a, b, c, d] = seats;
    let first = exact_lane::<L>(rows, a, unknowns, limit)?;
    let second = exact_lane::<L>(rows, b, unknowns, limit)?;
    let third = exact_lane::<L>(rows, c, unknowns, limit)?;
    let fourth = exact_lane::<L>(rows, d, unknowns, limit)?;
    Some(ContactLanes::of(&first, &second, &third, &fourth))
}

/// The contacts of a bundle after the step, in lanes; `None` where a number is above a limit.
#[inline(always)]
fn after_fast<L: LaneStep>(
    prepared: &PreparedLanes,
    seats: &[LaneSeat; 4],
    unknowns: &Unknowns,
    limit: u64,
) -> Option<ContactLanes>
    requires limit { limit ≤ NUMBER_LIMIT }
    requires first { AreFirst seats.now }
    requires seats { All (IsSeatIn unknowns.now) (taken_seats seats.now) }
    requires within { AreAllWithin limit unknowns.now }
    ensures value { IfSome result (λ after. (k : Lane) (seat : Seat)
        → lane_seat k seats.now ≡ Some seat → seat_state_in k after
        ≡ lane_result L.step (lane_row_in k prepared.now) (seat_state_at unknowns.now seat)) }
    ensures size { IfSome result (λ after. (k : Lane)
        → IsSeatWithin (limit + GROWTH) (seat_state_in k after)) }
{
    let state = read(unknowns, seats);
    L::after_lanes(prepared, &state)
}

/// The contacts of a bundle after the step: in lanes, or else each by scalars; `None` where a
/// number is then above `limit` by more than [`GROWTH`], or doubles do not hold a spin.
#[inline(always)]
fn after_step<L: LaneStep>(
    bundle: &Bundle,
    rows: &[LaneRow],
    unknowns: &Unknowns,
    limit: u64,
) -> Option<ContactLanes>
    requires limit { limit ≤ NUMBER_LIMIT }
    requires seats { All (IsSeatIn unknowns.now) bundle.now.seats }
    requires rows { All (λ seat. seat.place < length rows.now) bundle.now.seats }
    requires held { (k : Lane) → HoldsSeatRow rows.now bundle.now.seats bundle.now.prepared k }
    requires within { AreAllWithin limit unknowns.now }
    ensures value { IfSome result (λ after. (k : Lane) (seat : Seat)
        → slice_get bundle.now.seats (lane_number k) ≡ Some seat → seat_state_in k after
        ≡ lane_result L.step (slice_index_or rows.now seat.place no_lane_row)
        (seat_state_at unknowns.now seat)) }
    ensures size { IfSome result (λ after. (k : Lane)
        → IsSeatWithin (limit + GROWTH) (seat_state_in k after)) }
{
    let seats = bundle.seats();
    match after_fast::<L>(bundle.prepared(), seats, unknowns, limit) {
        Some(after) => Some(after),
        None => after_exact::<L>(rows, seats, unknowns, limit + GROWTH),
    }
}

/// The step of the rows of a bundle, all of them by the unknowns as they were before; `false` where
/// a number is then above `limit` by more than [`GROWTH`], or doubles do not hold a spin.
#[inline(always)]
pub(crate) fn solve_bundle<L: LaneStep>(
    bundle: &Bundle,
    rows: &[LaneRow],
    unknowns: &mut Unknowns,
    limit: u64,
) -> bool
    requires limit { limit ≤ NUMBER_LIMIT }
    requires seats { All (IsSeatIn unknowns.old) bundle.now.seats }
    requires rows { All (λ seat. seat.place < length rows.now) bundle.now.seats }
    requires held { (k : Lane) → HoldsSeatRow rows.now bundle.now.seats bundle.now.prepared k }
    requires within { AreAllWithin limit unknowns.old }
    ensures value { IsTrue result → (b : Batch) (level : List ℕ) → AreUnknownsOf b unknowns.old
        → AreSeatsOf b.rows level bundle.now.seats → HoldEach rows.now b.rows
        → unknowns.new ≡ unknowns_at_once level L.step b.rows unknowns.old }
    ensures within { IsTrue result → AreAllWithin (limit + GROWTH) unknowns.new }
    ensures many { AreAsMany unknowns.old unknowns.new }
{
    match after_step::<L>(bundle, rows, unknowns, limit) {
        Some(after) => {
            unknowns.store(bundle.seats(), &after.states());
            true
        }
        None => false,
    }
}
