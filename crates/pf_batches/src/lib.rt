//! Islands solved together, as one batch: level by level, the rows of a level four at a time in
//! lanes (Box2D 3's wide constraints, Bepu's bundles). The result is, bit for bit, that of solving
//! one row after the other.
#![tactic(auto)]

mod batch;
mod bundle_step;
mod contact;
mod impulse;
mod islands;
pub mod laws;
mod passes;
mod round;
mod seat_state;
mod warm_start;

pub use batch::{START_LIMIT, solve_islands};
pub use bundle_step::GROWTH;
