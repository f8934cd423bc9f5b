//! Crews of threads: workers that compute the contact points of a tick, and solve its islands, side
//! by side.
#![tactic(auto)]

mod colliding;
mod gate;
mod scene;
mod scoped;
mod solving;
mod stack;
mod standing;
mod work;
mod workers;

pub use colliding::StandingCollider;
pub use gate::{Gate, OpenGate};
pub use pf_pool::MAX_WORKERS;
pub use scoped::ScopedCrew;
pub use standing::StandingCrew;
pub use workers::Workers;
