//! The solver: sequential impulses with accumulated clamps and warm starting, as Box2D-Lite's
//! `Arbiter` and `World::Step` (Catto, GDC 2006).
#![tactic(auto)]

mod bodies;
mod constraint;
mod fast_path;
mod impulse;
mod island;
pub mod laws;
mod solve;
mod velocities;

pub use bodies::{STILL_SPEED, STILL_SPIN, STILL_TICKS, after_gravity, after_motion, after_timer};
pub use constraint::{BIAS_FACTOR, SLOP};
pub use impulse::{ContactState, Motion};
pub use island::{Solve, finish_island, prepare_island, solve_island, solve_rounds};
pub use solve::solve_lone_bodies;
pub use velocities::{ContactStep, ROUNDS, Round, WarmStart};
