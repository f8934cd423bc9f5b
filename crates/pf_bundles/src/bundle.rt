//! The rows of a level, each in a lane of its own.

ghost use Rattle.std.specs.Prelude.{◌≡◌, ◌<◌, ◌≤◌, ◌-◌, ◌^◌, All, IfOk, length, slice_get};
ghost use Rattle.pf_levels.specs.declared.level.TheConstants.{WIDTH};
ghost use Rattle.pf_levels.specs.Levels.{ArePairsOf};
ghost use Rattle.pf_bundles.specs.Bundle.{AreBundlesOf, IsBundleOf, lane_row_or};
ghost use Rattle.pf_bundles.specs.Seats.{AreFirst, seat_or, taken_seats};

use crate::lane_row::LaneRow;
use crate::prepared::PreparedLanes;
use crate::seat::LaneSeat;
use pf_levels::{Level, RowPair, WIDTH};
use std::alloc::AllocError;
use std::marker::Model;

/// The rows of a level: what stays fixed of them during the rounds, and the seat of each lane.
///
/// Contracts see the seats of the lanes that have a row, which are the first ones.
#[derive(Drop)]
pub struct Bundle {
    prepared: PreparedLanes,
    seats: [LaneSeat; 4],
}

impl Model for Bundle {
    ghost use Rattle.pf_bundles.specs.Bundle.{Bundle};
    ghost use Rattle.pf_bundles.specs.Seats.{AreLaneSeats, taken_seats};

    ghost Value = { Bundle };

    ghost view = { λ b. record { prepared = b.prepared; seats = taken_seats b.seats } };

    ghost invariant = { λ b. AreLaneSeats b.seats };
}

/// The row of a level that a lane holds; a lane without one holds no row.
#[inline]
fn lane_row(rows: &[LaneRow], places: &[usize], lane: usize) -> LaneRow
    requires { All (λ p. p < length rows.now) places.now }
    ensures { result ≡ lane_row_or rows.now (slice_get places.now lane) }
{
    match places.get(lane) {
        Some(place) => rows[*place],
        None => LaneRow::none(),
    }
}

/// The seat of a lane, by the row of a level that it holds.
#[inline]
fn seat_of(places: &[usize], pairs: &[RowPair], lane: usize) -> LaneSeat
    requires pairs { ArePairsOf (2 ^ 64 - 1) pairs.now }
    requires places { All (λ p. p < length pairs.now) places.now }
    ensures { result ≡ seat_or pairs.now (slice_get places.now lane) }
{
    match places.get(lane) {
        Some(place) => LaneSeat::of(*place, &pairs[*place]),
        None => LaneSeat::none(),
    }
}

impl Bundle {
    /// The rows at the places of a level.
    pub fn of(places: &[usize], pairs: &[RowPair], rows: &[LaneRow]) -> Bundle
        requires fits { length places.now ≤ WIDTH }
        requires sides { ArePairsOf (2 ^ 64 - 1) pairs.now }
        requires pairs { All (λ p. p < length pairs.now) places.now }
        requires rows { All (λ p. p < length rows.now) places.now }
        ensures { IsBundleOf pairs.now rows.now places.now result }
    {
        Bundle {
            prepared: PreparedLanes::of(
                &lane_row(rows, places, 0),
                &lane_row(rows, places, 1),
                &lane_row(rows, places, 2),
                &lane_row(rows, places, 3),
            ),
            seats: [
                seat_of(places, pairs, 0),
                seat_of(places, pairs, 1),
                seat_of(places, pairs, 2),
                seat_of(places, pairs, 3),
            ],
        }
    }

    /// What stays fixed of the rows during the rounds.
    #[inline]
    pub fn prepared(&self) -> &PreparedLanes
        ensures { result.now ≡ self.now.prepared }
    {
        &self.prepared
    }

    /// The seats of the lanes.
    #[inline]
    pub fn seats(&self) -> &[LaneSeat; 4]
        ensures seats { taken_seats result.now ≡ self.now.seats }
        ensures first { AreFirst result.now }
        ensures fits { length self.now.seats ≤ WIDTH }
    {
        &self.seats
    }
}

/// Puts the bundle of each level into a list, in place of what it held. Out of memory what it holds
/// is of no use.
pub fn load_bundles(
    bundles: &mut Vec<Bundle>,
    levels: &[Level],
    pairs: &[RowPair],
    rows: &[LaneRow],
) -> Result<(), AllocError>
    requires sides { ArePairsOf (2 ^ 64 - 1) pairs.now }
    requires pairs { All (All (λ p. p < length pairs.now)) levels.now }
    requires rows { All (All (λ p. p < length rows.now)) levels.now }
    ensures { IfOk result (λ done.
        AreBundlesOf pairs.now rows.now levels.now bundles.new.items) }
{
    bundles.clear();
    for level in levels {
        bundles.push(Bundle::of(level.places(), pairs, rows))?;
    }
    Ok(())
}
