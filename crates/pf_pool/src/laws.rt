//! Laws of pools. These functions compute nothing: their clauses are the statements.

ghost use Rattle.std.specs.Prelude.{◌≡◌};

use crate::pool::MAX_WORKERS;

/// A pool has at most 16 workers.
pub fn named_limits()
    ensures { MAX_WORKERS ≡ 16 }
{}
