//! A pool of standing threads: workers that are started once, and do a piece of work in parts
//! whenever they are asked.
#![tactic(auto)]

mod error;
pub mod laws;
mod pool;
mod reply;
mod slots;
mod task;
mod worker;

pub use error::PoolError;
pub use pool::{MAX_WORKERS, Pool};
pub use task::Task;
