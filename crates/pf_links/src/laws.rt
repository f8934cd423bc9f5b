//! Laws of links. These functions compute nothing: their clauses are the statements.

ghost use Rattle.std.specs.Prelude.{◌≡◌};

use crate::pair::MAX_CAPACITY;

/// The ring of a link has room for at most 64 frames.
pub fn named_limits()
    ensures { MAX_CAPACITY ≡ 64 }
{}
