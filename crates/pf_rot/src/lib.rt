//! Plane vectors and rotations over fixed-point numbers.
#![tactic(auto)]

pub mod laws;
mod rotation;
mod vector;

pub use rotation::Rot;
pub use vector::{V2, cross_sv};
