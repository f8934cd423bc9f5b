//! A peer with its links to the others.

ghost use Rattle.std.specs.Prelude.{All};
ghost use Rattle.std.specs.Option.{option_to_list};
ghost use Rattle.pf_commands.specs.Merge.{IsCommand};
ghost use Rattle.pf_scripts.specs.Frames.{commands_in, core_setting};

use crate::taking::take;
use pf_commands::FRAME_LEN;
use pf_links::{LinkIn, LinkOut};
use pf_rollback::PeerCore;
use std::alloc::AllocError;

/// A peer with the ends of its links to other peers of the same scene. It waits for none of them.
/// It takes frames of any player, its own script's too: what a player may do, the scene says.
/// Frames for ticks before the core's horizon are refused.
#[derive(Drop)]
pub struct Peer {
    pub(crate) core: PeerCore,
    pub(crate) outputs: Vec<LinkOut>,
    pub(crate) inputs: Vec<LinkIn>,
    /// A frame that has come, and for which there was no memory.
    pub(crate) kept: Option<[u8; FRAME_LEN]>,
    ghost ranges: { All IsCommand (commands_in (core_setting core) (option_to_list kept)) },
}

/// What a poll found: how many frames the peer has taken, and how many of these it refused.
#[derive(Clone, Copy, Debug, PartialEq, Eq)]
pub struct Polled {
    pub taken: usize,
    pub refused: usize,
}

impl Peer {
    ghost use Rattle.std.specs.Prelude.{◌≡◌, ◌+◌, ◌<◌, ◌^◌, ◌∷◌, [], All, List, None, Some, IfOk, OnErr, OnOk};
    ghost use Rattle.pf_commands.specs.Frame.{decode};
    ghost use Rattle.pf_commands.specs.Merge.{IsCommand};
    ghost use Rattle.pf_rollback.specs.Calls.{IsHeld};
    ghost use Rattle.pf_links.specs.Link.{Frame};
    ghost use Rattle.std.specs.List.{AllZip};
    ghost use Rattle.pf_scripts.specs.Frames.{AreCounts, commands_in, refusal_of, refused_count, with_frames};
    ghost use Rattle.pf_scripts.specs.Peer.{HasLooked, HasPolled, KeepsFrame, scripted_player, setting_of};

    /// A peer with its links.
    pub fn new(core: PeerCore, outputs: Vec<LinkOut>, inputs: Vec<LinkIn>) -> Peer
        ensures { (result.core ≡ core) × (result.outputs ≡ outputs) × (result.inputs ≡ inputs)
            × (result.kept ≡ None) }
    {
        Peer {
            core,
            outputs,
            inputs,
            kept: None,
        }
    }

    /// The core, to read.
    pub fn core(&self) -> &PeerCore
        ensures { result.now ≡ self.now.core }
    {
        &self.core
    }

    /// Takes a frame that has come. Out of memory, the peer keeps it.
    fn take_or_keep(
        &mut self,
        frame: [u8; FRAME_LEN],
        polled: &mut Polled,
    ) -> Result<(), AllocError>
        requires { (polled.old.taken < 2 ^ 63) × (polled.old.refused < 2 ^ 63) }
        ensures peer { OnOk result (scripted_player self.new
            ≡ with_frames (setting_of self.old) (scripted_player self.old) (frame ∷ [])) }
        ensures setting { setting_of self.new ≡ setting_of self.old }
        ensures ranges { All IsCommand (commands_in (setting_of self.old) (frame ∷ [])) }
        ensures kept { OnOk result (self.new.kept ≡ None) }
        ensures taken { OnOk result (polled.new.taken ≡ polled.old.taken + 1) }
        ensures refused { let refused = refused_count (setting_of self.old) (frame ∷ []) in
            OnOk result (polled.new.refused ≡ polled.old.refused + refused) }
        ensures memory { OnErr result (refusal_of (setting_of self.old) frame ≡ None) }
        ensures held { OnErr result
            (¬ IsHeld (scripted_player self.old).commands (decode frame)) }
        ensures err { OnErr result (self.new.core ≡ self.old.core) }
        ensures again { OnErr result (self.new.kept ≡ Some frame) }
        ensures inputs { self.new.inputs ≡ self.old.inputs }
        ensures outputs { self.new.outputs ≡ self.old.outputs }
    {
        match take(&mut self.core, &frame) {
            Ok(refusal) => {
                self.kept = None;
                polled.taken += 1;
                polled.refused += usize::from(refusal.is_some());
                Ok(())
            }
            Err(error) => {
                self.kept = Some(frame);
                Err(error)
            }
        }
    }

    /// Takes the frame that the peer keeps, if there is one, and then from each link the next frame
    /// that has come. A frame that is refused is counted, and dropped. A command that is held
    /// already takes no memory. Out of memory, the frames before stay taken, and the frame that
    /// found no memory is kept for the next poll. Waits for nobody.
    pub fn poll(&mut self) -> Result<Polled, AllocError>
        ensures polled { (frames : List Frame) × HasPolled self.old self.new frames
            × IfOk result (AreCounts (setting_of self.old) frames) }
        ensures looked { OnOk result
            (AllZip HasLooked self.old.inputs.items self.new.inputs.items) }
        ensures ok { OnOk result (self.new.kept ≡ None) }
        ensures err { OnErr result (KeepsFrame self.new) }
    {
        let links = self.inputs.len();
        let mut polled = Polled {
            taken: 0,
            refused: 0,
        };
        if let Some(frame) = self.kept {
            self.take_or_keep(frame, &mut polled)?;
        }
        for number in 0..links {
            if let Some(frame) = self.inputs[number].look() {
                self.take_or_keep(frame, &mut polled)?;
            }
        }
        Ok(polled)
    }

    /// All that the peer holds: its core, the ends of its links, and the frame that it keeps, if
    /// there is one. A peer made of the other three does not keep that.
    pub fn into_parts(self) -> (PeerCore, Vec<LinkOut>, Vec<LinkIn>, Option<[u8; FRAME_LEN]>)
        ensures { (result.0 ≡ self.core) × (result.1 ≡ self.outputs) × (result.2 ≡ self.inputs)
            × (result.3 ≡ self.kept) }
    {
        let Peer {
            core,
            outputs,
            inputs,
            kept,
        } = self;
        (core, outputs, inputs, kept)
    }
}
