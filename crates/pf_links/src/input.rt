//! The end of a link from which frames are taken.

use crate::output::LinkOut;
use pf_commands::FRAME_LEN;
use rtrb::Consumer;
use std::alloc::Global;

/// The receiver's end.
#[derive(Drop)]
pub struct LinkIn {
    ring: Consumer<[u8; FRAME_LEN], Global>,
}

impl LinkIn {
    ghost use Rattle.std.specs.Prelude.{◌≡◌, ◌↔◌, ◌<◌, ◌∷◌, [], ◌++◌, IfNone, IfSome, IsNone, IsSome, length};
    ghost use Rattle.pf_links.specs.Link.{AreEnds, LeavesFrames, SameIn, backlog_of, got, handed, known, pushed_frames};

    /// The receiver's end of a ring.
    pub(crate) fn new(ring: Consumer<[u8; FRAME_LEN], Global>) -> LinkIn
        ensures { result.ring ≡ ring }
    {
        LinkIn { ring }
    }

    /// Takes the next frame of the ring, if there is one. Waits for nobody.
    pub fn look(&mut self) -> Option<[u8; FRAME_LEN]>
        ensures some { IfSome result (λ frame. got self.new ≡ got self.old ++ frame ∷ []) }
        ensures none { IfNone result (got self.new ≡ got self.old) }
        ensures known { 0 < length (known self.old) → IsSome result }
        ensures same { SameIn self.old self.new }
    {
        self.ring.pop().ok()
    }

    /// How many frames are in the ring. For whoever has both ends of the link. The next look finds
    /// one, if there is one.
    pub fn ready(&mut self, from: &mut LinkOut) -> usize
        requires { AreEnds from.old self.old }
        ensures value { result ≡ length (known self.new) }
        ensures rest { pushed_frames from.new ≡ got self.new ++ known self.new }
        ensures got { got self.new ≡ got self.old }
        ensures frames { LeavesFrames from.old from.new }
        ensures ends { AreEnds from.new self.new }
        ensures same { SameIn self.old self.new }
    {
        self.ring.slots_beside(&mut from.ring)
    }

    /// Takes the next frame of the ring. For whoever has both ends of the link. Returns none
    /// exactly where the ring is empty. Waits for nobody.
    pub fn bring(&mut self, from: &mut LinkOut) -> Option<[u8; FRAME_LEN]>
        requires { AreEnds from.old self.old }
        ensures some { IfSome result (λ frame. got self.new ≡ got self.old ++ frame ∷ []) }
        ensures none { IfNone result (got self.new ≡ got self.old) }
        ensures end { IsNone result
            ↔ (handed from.old ≡ got self.old ++ backlog_of from.old) }
        ensures rest { pushed_frames from.new ≡ got self.new ++ known self.new }
        ensures frames { LeavesFrames from.old from.new }
        ensures ends { AreEnds from.new self.new }
        ensures same { SameIn self.old self.new }
    {
        if self.ready(from) == 0 {
            return None;
        }
        Some(self.ring.pop_known())
    }
}
