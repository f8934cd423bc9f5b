//! Plane vectors, with the products of Box2D-Lite's MathUtils.

ghost use Rattle.std.specs.Prelude.{◌≡◌};
ghost use Rattle.pf_rot.specs.Vector.{V2, add, sub, neg, scale, length_of, dot, cross, cross_sv};

use pf_num::{Fx, whole_root};
use std::marker::Model;

/// A vector, a position or a velocity of the plane. Contracts see its two parts as raw numbers, in
/// units of 2^-24. Each operation rounds and saturates as those on [`Fx`] do.
#[derive(Clone, Copy, Debug, PartialEq, Eq)]
pub struct V2 {
    pub x: Fx,
    pub y: Fx,
}

impl Model for V2 {
    ghost Value = { V2 };

    ghost view = { λ v. record { x = v.x; y = v.y } };

    ghost inverse = { λ v. record { x = v.x; y = v.y } };
}

impl V2 {
    /// The vector (0, 0).
    pub const ZERO: V2 = V2 {
        x: Fx::ZERO,
        y: Fx::ZERO,
    };

    /// The sum, part by part.
    #[inline]
    #[tactic(auto, unfolding(crate::specs::Vector::add))]
    pub fn add(self, other: V2) -> V2
        ensures { result ≡ add self other }
    {
        V2 {
            x: self.x.add(other.x),
            y: self.y.add(other.y),
        }
    }

    /// The difference, part by part.
    #[inline]
    #[tactic(auto, unfolding(crate::specs::Vector::sub))]
    pub fn sub(self, other: V2) -> V2
        ensures { result ≡ sub self other }
    {
        V2 {
            x: self.x.sub(other.x),
            y: self.y.sub(other.y),
        }
    }

    /// The negative.
    #[inline]
    #[tactic(auto, unfolding(crate::specs::Vector::neg))]
    pub fn neg(self) -> V2
        ensures { result ≡ neg self }
    {
        V2 {
            x: self.x.neg(),
            y: self.y.neg(),
        }
    }

    /// The multiple of the vector by a number, each part's product rounded.
    #[inline]
    #[tactic(auto, unfolding(crate::specs::Vector::scale))]
    pub fn scale(self, by: Fx) -> V2
        ensures { result ≡ scale by self }
    {
        V2 {
            x: by.mul(self.x),
            y: by.mul(self.y),
        }
    }

    /// The dot product.
    #[inline]
    #[tactic(auto, unfolding(crate::specs::Vector::dot))]
    pub fn dot(self, other: V2) -> Fx
        ensures { result ≡ dot self other }
    {
        self.x.mul(other.x).add(self.y.mul(other.y))
    }

    /// The length: the square root of the exact sum of squares, rounded down and saturated.
    #[inline]
    #[tactic(auto, unfolding(crate::specs::Vector::length_of, pf_num::specs::Fx::saturate))]
    pub fn length(self) -> Fx
        ensures { result ≡ length_of self }
    {
        let x = u128::from(self.x.raw().unsigned_abs());
        let y = u128::from(self.y.raw().unsigned_abs());
        let greatest = Fx::MAX.raw().unsigned_abs();
        let length = whole_root(x * x + y * y).min(greatest);
        Fx::from_raw(length as i64).unwrap()
    }

    /// The cross product of two vectors, a number.
    #[inline]
    #[tactic(auto, unfolding(crate::specs::Vector::cross))]
    pub fn cross(self, other: V2) -> Fx
        ensures { result ≡ cross self other }
    {
        self.x.mul(other.y).sub(self.y.mul(other.x))
    }
}

/// The cross product of a number and a vector, as Box2D-Lite's `Cross(float, Vec2)`: the velocity
/// of the point at `r` of a body of the angular velocity `w`.
#[inline]
#[tactic(auto, unfolding(crate::specs::Vector::cross_sv))]
pub fn cross_sv(w: Fx, r: V2) -> V2
    ensures { result ≡ cross_sv w r }
{
    V2 {
        x: w.mul(r.y).neg(),
        y: w.mul(r.x),
    }
}
