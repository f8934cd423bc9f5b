//! Fixed-point numbers four at a time: whole numbers, each held exactly in a double of a vector of
//! four, calculated lane by lane with the bits of `pf_num`.
#![tactic(auto)]

mod exact;
mod lanes;
pub mod laws;
mod scaled;
mod shifted;

pub use exact::ExactDouble;
pub use lanes::{EXACT_LIMIT, Lanes};
pub use scaled::Scaled;
pub use shifted::ShiftedLanes;
