//! Fixtures with their masses, states and bounds of bodies, scenes and their texts.
#![tactic(auto)]

mod body;
mod bounds;
mod fault;
mod fixture;
pub mod laws;
pub mod numbers;
mod pair;
mod read;
mod reader;
mod scene;
mod scene_text;
mod words;

pub use body::BodyState;
pub use bounds::{Bounds, reach};
pub use fault::SceneFault;
pub use fixture::{Fixture, MAX_FRICTION, MAX_MASS, MAX_SIZE, MIN_MASS, MIN_SIZE, PLAYERS, Shape};
pub use numbers::MAX_DIRECTION;
pub use pair::Pair;
pub use read::ReadError;
pub use reader::{Progress, SceneReader};
pub use scene::{MAX_BODIES, MAX_GRAVITY, MAX_POSITION, Scene};
