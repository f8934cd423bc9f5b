//! How the keys of contact points change from one tick to the next.

use pf_manifold::Key;
use std::alloc::Global;
use std::marker::Model;

/// A splice of a list of keys, after the splices before it: `kept` keys stay, and in place of the next
/// `dropped` keys come `added` keys.
#[derive(Clone, Copy, Debug)]
pub(crate) struct KeySplice {
    pub kept: usize,
    pub dropped: usize,
    pub added: usize,
}

/// The splices of a list of keys, in its order; keys after the last splice stay. The keys that they add
/// stand one after the other.
#[derive(Debug, Drop)]
pub struct KeySplices {
    pub(crate) splices: Vec<KeySplice>,
    pub(crate) added: Vec<Key>,
}

impl Model for KeySplices {
    ghost use Rattle.pf_cache.specs.KeySplices.{KeySplices};

    ghost Value = { KeySplices };

    ghost view = { λ e. record { splices = e.splices.items; added = e.added.items } };
}

impl KeySplices {
    ghost use Rattle.std.specs.Prelude.{◌≡◌};
    ghost use Rattle.pf_cache.specs.KeySplices.{no_splices};

    /// No splice. Takes no memory.
    pub fn new(alloc: Global) -> KeySplices
        ensures { result ≡ no_splices }
    {
        KeySplices {
            splices: Vec::new(alloc),
            added: Vec::new(alloc),
        }
    }
}
