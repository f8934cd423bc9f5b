//! The two ends of a link.

use crate::input::LinkIn;
use crate::output::LinkOut;
use rtrb::RingBuffer;
use std::alloc::{AllocError, Global};

/// The most frames that the ring of a link may have room for. More wait in the backlog.
pub const MAX_CAPACITY: usize = 64;

/// A link from one peer to another.
pub struct Link;

impl Link {
    ghost use Rattle.std.specs.Prelude.{◌≡◌, ◌<◌, ◌≤◌, [], IfOk};
    ghost use Rattle.pf_links.specs.Link.{AreEnds, backlog_of, capacity_of, got, handed};

    /// The two ends of a link, whose ring has room for this many frames. Each end may move to a
    /// thread of its own. Returns an error where it is out of memory.
    pub fn pair(alloc: Global, capacity: usize) -> Result<(LinkOut, LinkIn), AllocError>
        requires { (0 < capacity) × (capacity ≤ MAX_CAPACITY) }
        ensures ends { IfOk result (λ ends. AreEnds ends.0 ends.1) }
        ensures handed { IfOk result (λ ends. handed ends.0 ≡ []) }
        ensures backlog { IfOk result (λ ends. backlog_of ends.0 ≡ []) }
        ensures got { IfOk result (λ ends. got ends.1 ≡ []) }
        ensures capacity { IfOk result (λ ends. capacity_of ends.0 ≡ capacity) }
    {
        let (producer, consumer) = RingBuffer::new(alloc, capacity)?;
        Ok((LinkOut::new(alloc, producer), LinkIn::new(consumer)))
    }
}
