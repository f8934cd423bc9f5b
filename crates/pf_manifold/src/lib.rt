//! The narrow phase: contact points of circles and boxes, by their shapes, positions and rotations.
#![tactic(auto)]

mod box_circle;
mod boxes;
mod circles;
mod clip;
mod contact_point;
mod face;
mod incident;
mod key;
pub mod laws;
mod manifold;
mod narrow_phase;
mod parallel;
mod placed_shape;
mod reference;
mod separation;
mod touch;

pub use contact_point::ContactPoint;
pub use key::Key;
pub use manifold::Manifold;
pub use narrow_phase::collide;
pub use parallel::{Collider, OneThread, PAIRS_FOR_THREADS, SeveralThreads, collide_all};
pub use placed_shape::PlacedShape;
pub use touch::{Touch, collide_list, push_points, touch_of};
