//! Laws of levels. These functions compute nothing: their clauses are the statements.

ghost use Rattle.std.specs.Prelude.{◌≡◌};

use crate::level::WIDTH;

/// A level has room for four rows.
pub fn named_limits()
    ensures { WIDTH ≡ 4 }
{}
