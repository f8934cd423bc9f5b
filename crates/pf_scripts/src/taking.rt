//! Taking a frame.

ghost use Rattle.std.specs.Prelude.{◌≡◌, ◌∷◌, [], All, IfOk, IsOk, None, Ok, OnErr, OnOk, length};
ghost use Rattle.pf_commands.specs.declared.frame.TheConstants.{FRAME_LEN};
ghost use Rattle.pf_commands.specs.Frame.{decode};
ghost use Rattle.pf_commands.specs.Merge.{IsCommand};
ghost use Rattle.pf_rollback.specs.Calls.{IsHeld};
ghost use Rattle.pf_scripts.specs.Frames.{commands_in, core_setting, refusal_of, with_frames};

use pf_rollback::{PeerCore, PeerError, Refusal};
use std::alloc::AllocError;

/// Takes a frame. Returns why it was refused, if it was. Only a frame that is not refused, and whose
/// command's name is not held, can be out of memory, which leaves the peer as it was.
pub fn take(core: &mut PeerCore, frame: &[u8]) -> Result<Option<Refusal>, AllocError>
    ensures refusal { IfOk result
        (λ refusal. refusal ≡ refusal_of (core_setting core.old) frame.now) }
    ensures long { result ≡ Ok None → length frame.now ≡ FRAME_LEN }
    ensures peer { OnOk result
        (core.new.peer ≡ with_frames (core_setting core.old) core.old.peer (frame.now ∷ [])) }
    ensures setting { core_setting core.new ≡ core_setting core.old }
    ensures base { core.new.peer.base ≡ core.old.peer.base }
    ensures ranges { All IsCommand (commands_in (core_setting core.old) (frame.now ∷ [])) }
    ensures memory { OnErr result (refusal_of (core_setting core.old) frame.now ≡ None) }
    ensures held { IsHeld core.old.peer.commands (decode frame.now) → IsOk result }
    ensures err { OnErr result (core.new ≡ core.old) }
{
    match core.take(frame) {
        Ok(_) => Ok(None),
        Err(PeerError::Refused(refusal)) => Ok(Some(refusal)),
        Err(PeerError::OutOfMemory) => Err(AllocError),
    }
}
