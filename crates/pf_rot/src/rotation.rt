//! Rotations by cosine and sine, as Box2D's `b2Rot`.

ghost use Rattle.std.specs.Prelude.{◌≡◌};
ghost use Rattle.pf_rot.specs.Rotation.{Rot, unit, turn, rotate, unrotate};

use crate::vector::V2;
use pf_num::{Divisor, Fx};
use std::marker::Model;

/// A rotation: the cosine `c` and the sine `s` of its angle, in units of 2^-24. `unit` and `turn`
/// keep (c, s) near the unit circle, except for directions that are only a few raw units long.
#[derive(Clone, Copy, Debug, PartialEq, Eq)]
pub struct Rot {
    pub c: Fx,
    pub s: Fx,
}

impl Model for Rot {
    ghost Value = { Rot };

    ghost view = { λ q. record { c = q.c; s = q.s } };

    ghost inverse = { λ q. record { c = q.c; s = q.s } };
}

impl Rot {
    /// The identity: the rotation by 0.
    pub const UPRIGHT: Rot = Rot {
        c: Fx::ONE,
        s: Fx::ZERO,
    };

    /// The rotation in the direction (c, s): each part divided by the length, and upright where
    /// that is 0.
    #[inline]
    #[tactic(auto, unfolding(crate::specs::Rotation::unit))]
    pub fn unit(c: Fx, s: Fx) -> Rot
        ensures { result ≡ unit c s }
    {
        let length = V2 { x: c, y: s }.length();
        if length == Fx::ZERO {
            return Rot::UPRIGHT;
        }
        let divisor = Divisor::new(length);
        Rot {
            c: divisor.divide(c),
            s: divisor.divide(s),
        }
    }

    /// The rotation after a tick (1/64 s) at this angular velocity, in radians a second. It stays
    /// as it is, bit for bit, where the angle rounds to 0.
    #[inline]
    #[tactic(auto, unfolding(crate::specs::Rotation::turn))]
    pub fn turn(self, spin: Fx) -> Rot
        ensures { result ≡ turn self spin }
    {
        let angle = Fx::TICK.mul(spin);
        if angle == Fx::ZERO {
            return self;
        }
        Rot::unit(self.c.sub(angle.mul(self.s)), self.s.add(angle.mul(self.c)))
    }

    /// The vector turned by this rotation, from a body's own axes to the world's, as Box2D's
    /// `b2Mul`.
    #[inline]
    #[tactic(auto, unfolding(crate::specs::Rotation::rotate))]
    pub fn rotate(self, v: V2) -> V2
        ensures { result ≡ rotate self v }
    {
        V2 {
            x: self.c.mul(v.x).sub(self.s.mul(v.y)),
            y: self.s.mul(v.x).add(self.c.mul(v.y)),
        }
    }

    /// The vector turned back by this rotation, from the world's axes to a body's own, as `b2MulT`.
    #[inline]
    #[tactic(auto, unfolding(crate::specs::Rotation::unrotate))]
    pub fn unrotate(self, v: V2) -> V2
        ensures { result ≡ unrotate self v }
    {
        V2 {
            x: self.c.mul(v.x).add(self.s.mul(v.y)),
            y: self.c.mul(v.y).sub(self.s.mul(v.x)),
        }
    }
}
