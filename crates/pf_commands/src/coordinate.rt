//! The x or y of a position to which a command moves a body.

ghost use Rattle.std.specs.Prelude.{◌≡◌, ◌↔◌, ℤ, IsSome, IfSome};
ghost use Rattle.pf_commands.specs.Coordinate.{IsCoordinate};

use pf_num::Fx;
use pf_shapes::MAX_POSITION;
use std::marker::Model;

/// The x or y of a position, in units of 2^-24: from `-MAX_POSITION` to `MAX_POSITION`, as those of
/// a body's start are.
///
/// Contracts see it as that whole number.
#[derive(Clone, Copy, Debug, PartialEq, Eq)]
pub struct Coordinate {
    value: Fx,
}

impl Model for Coordinate {
    ghost Value = { ℤ };

    ghost view = { λ c. c.value };

    ghost invariant = { λ c. IsCoordinate c.value };

    ghost inverse = { λ z. record { value = z } };
}

impl Coordinate {
    /// The coordinate of this value, or `None` where that is out of range.
    pub fn new(value: Fx) -> Option<Coordinate>
        ensures range { IsSome result ↔ IsCoordinate value }
        ensures value { IfSome result (λ coordinate. coordinate ≡ value) }
    {
        let raw = value.raw();
        if raw >= -MAX_POSITION && raw <= MAX_POSITION {
            Some(Coordinate { value })
        } else {
            None
        }
    }

    /// The value, a fixed-point number.
    #[inline]
    pub fn value(self) -> Fx
        ensures value { result ≡ self }
        ensures range { IsCoordinate self }
    {
        self.value
    }
}
