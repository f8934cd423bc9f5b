//! Rows: contacts as the solver takes them, with the constraint that a pre-step makes of each, and
//! whether its numbers are small enough for the fast path, whose limits all stand here.
#![tactic(auto)]

mod constraint;
mod impulses;
pub mod laws;
pub mod limits;
mod row;
mod small;

pub use constraint::{Constraint, InverseMass, Prepared};
pub use impulses::Impulses;
pub use row::{Entry, Row, Side};
pub use small::{is_short, is_within};
