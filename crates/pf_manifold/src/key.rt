//! Keys of contacts.

ghost use Rattle.std.specs.Prelude.{◌≡◌};
ghost use Rattle.pf_manifold.specs.Key.{IsKey, key_of, rank};

use crate::touch::Touch;
use std::marker::Model;

/// The key of a contact: its bodies, and the feature that makes its point, as Box2D-Lite's
/// `ArbiterKey` and `FeaturePair`. The same key at the next tick is the same contact.
#[derive(Clone, Copy, Debug, PartialEq, Eq)]
pub struct Key {
    /// The number of the first body, which is the lesser.
    pub a: u16,
    /// The number of the second body, which is the greater.
    pub b: u16,
    /// The feature of the contact point.
    pub feature: u32,
}

impl Model for Key {
    ghost use Rattle.pf_manifold.specs.Key.{Key};

    ghost Value = { Key };

    ghost view = { λ k. record { a = k.a; b = k.b; feature = k.feature } };

    ghost inverse = { λ k. record { a = k.a; b = k.b; feature = k.feature } };
}

impl Key {
    /// The key of a contact point.
    #[inline]
    pub fn of(touch: &Touch) -> Key
        ensures { result ≡ key_of touch.now }
    {
        Key {
            a: touch.a,
            b: touch.b,
            feature: touch.point.feature,
        }
    }

    /// Keys are in the order of their ranks: by the first body, then the second, then the feature.
    #[inline]
    pub fn rank(&self) -> usize
        requires { IsKey self.now }
        ensures { result ≡ rank self.now }
    {
        self.a as usize * (1 << 24) + (self.b as usize * (1 << 8) + self.feature as usize)
    }
}
