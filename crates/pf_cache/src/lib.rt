//! What is kept from tick to tick: the accumulated impulses of each contact, by its key; the bodies
//! as they stood; a slot for each candidate pair of the broad phase, with its contact points; and
//! the meter of the work done.
#![tactic(auto)]

mod carrying;
mod contact;
mod contacts;
mod contacts_change;
mod kept_shape;
mod key_splices;
pub mod laws;
mod live;
mod manifolds;
mod meter;
mod next_contacts;
mod placed_bodies;
mod slot;
mod slots;
mod stale;

pub use contact::Contact;
pub use contacts::Contacts;
pub use contacts_change::ContactsChange;
pub use key_splices::KeySplices;
pub use manifolds::{Collisions, FoundCollisions, Manifolds};
pub use meter::Meter;
