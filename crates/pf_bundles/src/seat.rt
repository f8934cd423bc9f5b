//! Where the unknowns of rows stand among those of all bodies and rows.

ghost use Rattle.std.specs.Prelude.{◌≡◌, ◌-◌, ◌^◌};
ghost use Rattle.pf_rows.specs.Row.{IsSide};
ghost use Rattle.pf_bundles.specs.Seats.{side_index};

use pf_levels::RowPair;
use pf_rows::Side;
use std::marker::Model;

/// Where the unknowns of a lane's row stand among [`crate::Unknowns`]. The first place there is that
/// of static bodies, and of lanes without a row.
///
/// Contracts see the sides of its bodies and its place among the rows, if it has a row.
#[derive(Clone, Copy, Debug)]
pub struct LaneSeat {
    pub(crate) row: usize,
    pub(crate) first: usize,
    pub(crate) second: usize,
}

impl Model for LaneSeat {
    ghost use Rattle.std.specs.Prelude.{Option};
    ghost use Rattle.pf_bundles.specs.Bundle.{Seat};
    ghost use Rattle.pf_bundles.specs.Seats.{AreIndices, first_index, row_index, seat_with, second_index};

    ghost Value = { Option Seat };

    ghost view = { λ s. seat_with s.row s.first s.second };

    ghost invariant = { λ s. AreIndices s.row s.first s.second };

    ghost inverse = { λ v. record {
      row = row_index v;
      first = first_index v;
      second = second_index v;
    } };

    ghost inverse_ok = { λ s h i. record {
      row = h.row i;
      first = h.first i;
      second = h.second i;
    } };
}

/// The index of the velocity of the body on a side.
#[inline]
fn side_index(side: Side) -> usize
    requires { IsSide (2 ^ 64 - 1) side }
    ensures { result ≡ side_index side }
{
    match side {
        Side::Static => 0,
        Side::Dynamic(place) => place + 1,
    }
}

impl LaneSeat {
    ghost use Rattle.std.specs.Prelude.{◌≡◌, ◌<◌, ◌-◌, ◌^◌, None, Some};
    ghost use Rattle.pf_rows.specs.Row.{IsSide};
    ghost use Rattle.pf_bundles.specs.Bundle.{Seat};

    /// That of a lane without a row.
    #[inline]
    pub fn none() -> LaneSeat
        ensures { result ≡ None }
    {
        LaneSeat {
            row: 0,
            first: 0,
            second: 0,
        }
    }

    /// That of the row at this place, of bodies on these sides.
    #[inline]
    pub fn of(place: usize, pair: &RowPair) -> LaneSeat
        requires place { place < 2 ^ 64 - 1 }
        requires first { IsSide (2 ^ 64 - 1) pair.now.first }
        requires second { IsSide (2 ^ 64 - 1) pair.now.second }
        ensures { result ≡ Some (record {
          place = place;
          first = pair.now.first;
          second = pair.now.second;
        }) }
    {
        LaneSeat {
            row: place + 1,
            first: side_index(pair.first),
            second: side_index(pair.second),
        }
    }

    /// The place of its row, if it has one.
    #[inline]
    pub fn place(&self) -> Option<usize>
        ensures none { self.now ≡ None → result ≡ None }
        ensures some { (seat : Seat) → self.now ≡ Some seat → result ≡ Some seat.place }
    {
        self.row.checked_sub(1)
    }
}
