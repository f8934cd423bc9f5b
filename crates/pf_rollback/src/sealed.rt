//! What a peer has sealed, for other peers of its scene.

use pf_commands::CommandMap;
use pf_step::World;

/// What a peer has sealed, and what it holds: all that another peer of the scene needs to merge its
/// commands. It borrows all three from the peer.
#[derive(Clone, Copy)]
pub struct Sealed<'a> {
    /// The tick before which all is sealed.
    pub horizon: u32,
    /// The world of the horizon.
    pub base: &'a World,
    /// The commands of the horizon and later.
    pub commands: &'a CommandMap,
}
