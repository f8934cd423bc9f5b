//! Laws of scripts. These functions compute nothing: their clauses are the statements.

ghost use Rattle.std.specs.Prelude.{◌≡◌};

use crate::play::MAX_POLLS;

/// The most polls of a turn are 64.
pub fn named_limits()
    ensures { MAX_POLLS ≡ 64 }
{}
