//! Pairs of bodies.

use std::marker::Model;

/// Two bodies of a scene by their numbers.
#[derive(Clone, Copy, Debug, PartialEq, Eq)]
pub struct Pair {
    /// The lesser number.
    pub a: usize,
    /// The greater number.
    pub b: usize,
}

impl Model for Pair {
    ghost use Rattle.pf_shapes.specs.Pair.{Pair};

    ghost Value = { Pair };

    ghost view = { λ p. record { a = p.a; b = p.b } };

    ghost inverse = { λ p. record { a = p.a; b = p.b } };
}

impl Pair {
    ghost use Rattle.std.specs.Prelude.{◌≡◌};
    ghost use Rattle.pf_shapes.specs.Pair.{is_before};

    /// Whether it is before another pair: by the first body, and of two pairs with the same first
    /// body by the second.
    #[inline]
    pub fn is_before(&self, other: &Pair) -> bool
        ensures { result ≡ is_before self.now other.now }
    {
        (self.a < other.a) | ((self.a == other.a) & (self.b < other.b))
    }
}
