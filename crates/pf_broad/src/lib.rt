//! The broad phase: the pairs of a scene's bodies that may touch, since their bounds overlap; and
//! candidates that are kept from tick to tick, the pairs of bodies whose enlarged bounds overlap.
#![tactic(auto)]

mod all_pairs;
mod bodies;
mod broad_phase;
mod candidates;
mod cell;
mod cells;
mod enlarged;
mod grid;
mod hasher;
pub mod laws;
mod partners;

pub use all_pairs::pairs;
pub use bodies::all_bounds;
pub use broad_phase::BroadPhase;
pub use cell::{CELL_SIDE, Cell, MAX_CELLS};
pub use grid::Grid;
pub use partners::may_touch;
