//! Scenes and peers under keys, for callers that no proof reaches, as a C program. A key names a
//! scene or a peer until that is freed, and nothing ever after. A call with a key that names
//! nothing is an error and changes nothing; nor does any call change what another key names. A key
//! that was made up, or that another context gave out, names nothing, or what has this very key
//! here.
//!
//! All that comes from outside is tested: no call here requires anything of its caller.
#![tactic(auto)]

mod commands;
mod context;
mod error;
mod frames;
mod key;
pub mod laws;
mod merging;
pub mod numbers;
mod peers;
mod plain;
mod scenes;
mod table;
mod ticks;
mod worlds;

pub use context::Context;
pub use error::ContextError;
pub use key::Key;
pub use numbers::{Material, RawV2};
pub use plain::{PlainBody, PlainContact, Sizes};
pub use table::{Rejection, Table, TableError};
