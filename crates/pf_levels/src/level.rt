//! One level.

ghost use Rattle.std.specs.Prelude.{◌≡◌, ◌==◌, ◌≤◌, ◌<◌, ◌++◌, [], ◌∷◌, length};

use arrayvec::ArrayVec;
use std::marker::Model;

/// How many rows a level has room for.
pub const WIDTH: usize = 4;

/// The places of the rows of a level.
///
/// Contracts see the list of places.
#[derive(Debug, Drop)]
pub struct Level {
    places: ArrayVec<usize, WIDTH>,
}

impl Model for Level {
    ghost use Rattle.std.specs.Prelude.{List, ℕ};

    ghost Value = { List ℕ };

    ghost view = { λ l. l.places.items };

    ghost inverse = { λ items. record { places = record { items = items } } };
}

impl Level {
    /// A level without rows.
    pub(crate) fn new() -> Level
        ensures { result ≡ [] }
    {
        Level {
            places: ArrayVec::new(),
        }
    }

    /// Whether there is no room.
    pub(crate) fn is_full(&self) -> bool
        ensures value { result ≡ (length self.now == WIDTH) }
        ensures fits { length self.now ≤ WIDTH }
    {
        self.places.is_full()
    }

    /// Puts in the row at a place.
    pub(crate) fn push(&mut self, place: usize)
        requires { length self.old < WIDTH }
        ensures { self.new ≡ self.old ++ place ∷ [] }
    {
        self.places.push(place);
    }

    /// The places, in the order of the rows.
    pub fn places(&self) -> &[usize]
        ensures places { result.now ≡ self.now }
        ensures fits { length result.now ≤ WIDTH }
    {
        self.places.as_slice()
    }
}
