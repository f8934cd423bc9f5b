//! Levels of rows: no two rows of a level have a dynamic body in common, so that they may be solved
//! at once; and of two rows of one body the one that comes first is in the level that comes first,
//! so that each body meets its rows in their order (level scheduling of Gauss-Seidel).
#![tactic(auto)]

pub mod laws;
mod level;
mod levels;
mod links;
mod listing;
mod overlap;
mod pair;

pub use level::{Level, WIDTH};
pub use levels::Levels;
pub use overlap::Overlap;
pub use pair::RowPair;
