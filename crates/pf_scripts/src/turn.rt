//! What a peer does in a turn.

/// A turn of a script: the peer takes these frames and hands each to all others, takes what has
/// come over its links, and goes on by this many ticks of 1/64 s. The frames may be any bytes.
#[derive(Debug, Drop)]
pub struct Turn {
    pub frames: Vec<Vec<u8>>,
    pub ticks: u32,
}
