//! The end of a link into which frames are handed.

ghost use Rattle.std.specs.Prelude.{◌+◌, ◌<◌, ◌≤◌, length};
ghost use Rattle.rtrb.specs.Ring.{known_free, producer_capacity, sent};

use pf_commands::FRAME_LEN;
use rtrb::Producer;
use std::alloc::{AllocFailed, Global};
use std::collections::VecDeque;

/// The sender's end: the ring, and the frames for which it had no room yet, the backlog. Frames go
/// through the ring in the order in which they were handed in; those of the backlog, when more are
/// handed in, or by [`LinkOut::flush`]. What is in the backlog is lost with the end.
#[derive(Drop)]
pub struct LinkOut {
    pub(crate) ring: Producer<[u8; FRAME_LEN], Global>,
    backlog: VecDeque<[u8; FRAME_LEN], Global>,
    // Each slot of the ring was used, or is known to be free.
    ghost room: { producer_capacity ring ≤ known_free ring + length (sent ring) },
    // There is a backlog only since the ring was full.
    ghost was_full: { 0 < length backlog.items → producer_capacity ring ≤ length (sent ring) },
}

impl LinkOut {
    ghost use Rattle.std.specs.Prelude.{◌≡◌, ◌+◌, ◌<◌, ◌≤◌, [], ◌∷◌, ◌++◌, IfErr, IsOk, OnOk, length, slice_get};
    ghost use Rattle.rtrb.specs.Ring.{known_free, producer_capacity, sent};
    ghost use Rattle.pf_links.specs.Link.{SameOut, backlog_of, capacity_of, handed, room_of};

    /// The sender's end of a ring on which nothing was pushed.
    pub(crate) fn new(alloc: Global, ring: Producer<[u8; FRAME_LEN], Global>) -> LinkOut
        requires { (sent ring ≡ []) × (known_free ring ≡ producer_capacity ring) }
        ensures { (result.ring ≡ ring) × (backlog_of result ≡ []) }
    {
        LinkOut {
            ring,
            backlog: VecDeque::new(alloc),
        }
    }

    /// Pushes the frames of the backlog, from the first on, while the ring has room. Takes no
    /// memory, and waits for nobody.
    pub fn flush(&mut self)
        ensures handed { handed self.new ≡ handed self.old }
        ensures full { 0 < length (backlog_of self.new) → room_of self.new ≡ 0 }
        ensures same { SameOut self.old self.new }
    {
        while let Some(frame) = self.backlog.front() {
            let frame = *frame;
            if self.ring.push(frame).is_err() {
                return;
            }
            self.backlog.pop_front();
        }
    }

    /// Hands in a frame, behind all that were handed in before. First the backlog is flushed. The
    /// frame joins the backlog if some of it is left, or if the ring has no room. Only that takes
    /// memory; out of memory, the frame comes back. Waits for nobody.
    pub fn hand_in(&mut self, frame: [u8; FRAME_LEN]) -> Result<(), AllocFailed<[u8; FRAME_LEN]>>
        ensures ok { OnOk result (handed self.new ≡ handed self.old ++ frame ∷ []) }
        ensures err { IfErr result
            (λ back. (back.value ≡ frame) × (handed self.new ≡ handed self.old)) }
        ensures full { OnOk result (0 < length (backlog_of self.new) → room_of self.new ≡ 0) }
        ensures no_memory { length (handed self.old) < capacity_of self.old → IsOk result }
        ensures same { SameOut self.old self.new }
    {
        self.flush();
        if self.backlog.is_empty() && self.ring.push(frame).is_ok() {
            return Ok(());
        }
        self.backlog.push_back(frame)
    }

    /// Frame `index` of the backlog, counted from 0. It stays there.
    pub fn waiting(&self, index: usize) -> Option<[u8; FRAME_LEN]>
        ensures { result ≡ slice_get (backlog_of self.now) index }
    {
        Some(*self.backlog.get(index)?)
    }

    /// How many frames there are in the backlog: none, as long as no more were handed in, all in
    /// all, than the ring has room for.
    pub fn waiting_count(&self) -> usize
        ensures value { result ≡ length (backlog_of self.now) }
        ensures none { length (handed self.now) ≤ capacity_of self.now → result ≡ 0 }
    {
        self.backlog.len()
    }
}
