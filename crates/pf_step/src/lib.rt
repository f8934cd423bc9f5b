//! One tick: from the world of a scene to the next world.
//!
//! The phases of a tick are those of Box2D-Lite's `World::Step`; groups of bodies wake and sleep as
//! those of Box2D 2.x.
#![tactic(auto)]

mod activity;
mod any_world;
mod changes;
mod commands;
mod crew;
pub mod laws;
mod points;
mod step;
mod work;
mod world;

pub use any_world::{step_alone, step_by, step_on_one_thread, step_with};
pub use changes::Changes;
pub use commands::apply;
pub use crew::{Crew, CrewError, StepError, solve_all};
pub use step::step_next;
pub use work::Work;
pub use world::World;
