//! A deterministic 2D physics core for rollback netcode: the crate that a game names.
//!
//! A [`Scene`] has circles and boxes. Each player's machine has a [`PeerCore`] of it, the *peer*.
//! The peer goes on tick by tick, issues the commands of its player, and hands each as a frame of
//! [`FRAME_LEN`] bytes to the network of the game. It takes the frames of the others whenever they
//! come, settles, and lends the latest world, whose bodies the game draws. The crate `two_players` is
//! a whole game. Numbers are fixed-point: an [`Fx`] is a whole number of units of 2^-24. A tick is
//! 1/64 s.
//!
//! - **Scenes**: [`Scene::read`] from a text, or [`Scene::new`] and [`Scene::push`] by calls.
//! - **Commands**: a [`Payload`] is what a player does to a body. [`PeerCore::issue`] gives it a
//!   [`Name`], and [`encode`] and [`decode`] make and read its frame. A [`CommandMap`] holds
//!   commands; merging maps is associative, commutative and idempotent.
//! - **Peers**: [`PeerCore::take`], [`PeerCore::merge`] and [`PeerCore::merge_sealed`] take
//!   commands of others; [`PeerCore::advance`] goes on; [`PeerCore::settle_alone`] and
//!   [`PeerCore::settle_with`] simulate what is missing; [`PeerCore::seal`] forgets what lies
//!   before a tick. What each returns, and what an error leaves, stands beside it.
//! - **Worlds**: [`PeerCore::settled_world`] lends the latest one, and [`world_at`] makes that of
//!   any tick from the horizon to the reached one.
//! - **Crews**: a [`StandingCrew`] or a [`ScopedCrew`] solves the islands of a tick by several
//!   threads. Worlds do not depend on it.
#![tactic(auto)]

mod error;
mod show;

pub use error::Error;
pub use pf_cache::{Contact, Contacts, Meter};
pub use pf_commands::{
    CheckFault, Command, CommandMap, Coordinate, FRAME_LEN, FrameFault, MAX_TICK, NUMBERS, Name,
    Payload, Put, check, decode, encode,
};
pub use pf_islands::{Island, LoneBodies};
pub use pf_manifold::Key;
pub use pf_num::Fx;
pub use pf_rollback::{KEYFRAME_INTERVAL, MAX_RING, PeerCore, PeerError, Refusal, Sealed};
pub use pf_rot::{Rot, V2};
pub use pf_rows::Impulses;
pub use pf_shapes::{
    BodyState, Fixture, MAX_BODIES, MAX_FRICTION, MAX_GRAVITY, MAX_MASS, MAX_POSITION, MAX_SIZE,
    MIN_MASS, MIN_SIZE, PLAYERS, ReadError, Scene, SceneFault, Shape,
};
pub use pf_step::{Crew, CrewError, StepError, World};
pub use pf_workers::{
    Gate, MAX_WORKERS, OpenGate, ScopedCrew, StandingCollider, StandingCrew, Workers,
};
pub use show::world_at;
