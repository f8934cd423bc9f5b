//! The frames of the commands that a peer holds, written into a buffer of a caller.

ghost use Rattle.std.specs.Prelude.{◌≡◌, ◌≤◌, ◌++◌, Ok, drop, length, map};
ghost use Rattle.std.specs.FinMap.{entries};
ghost use Rattle.pf_commands.specs.Check.{check};
ghost use Rattle.pf_commands.specs.Frame.{encoding};
ghost use Rattle.pf_rollback.specs.Core.{AreAllowed};
ghost use Rattle.pf_context.specs.Frames.{command_frame, later_commands};

use crate::context::Context;
use crate::error::ContextError;
use crate::key::Key;
use pf_commands::{Command, CommandMap, FRAME_LEN, check, encode};
use pf_shapes::Scene;

/// The frame of a command that the scene allows.
fn frame(scene: &Scene, command: &Command) -> [u8; FRAME_LEN]
    requires { check scene.now command.now.name command.now.payload ≡ Ok tt }
    ensures { result ≡ encoding command.now }
{
    // What this ensures is that an allowed command has a frame.
    let _allowed = check(scene, command);
    encode(command)
}

/// How many commands of a map are for this tick or a later one.
fn count_from(commands: &CommandMap, tick: u32) -> usize
    ensures { result ≡ length (later_commands tick (entries commands.now)) }
{
    let _total = commands.len();
    let mut count = 0;
    for (name, _) in commands.iter() {
        if tick <= name.tick() {
            count += 1;
        }
    }
    count
}

/// Writes the frames of the commands for this tick or a later one to the front of a buffer.
fn write_frames(scene: &Scene, commands: &CommandMap, tick: u32, frames: &mut [[u8; FRAME_LEN]])
    requires allowed { AreAllowed scene.now commands.now }
    requires room { length (later_commands tick (entries commands.now)) ≤ length frames.old }
    ensures { let later = later_commands tick (entries commands.now) in
        frames.new ≡ map command_frame later ++ drop (length later) frames.old }
{
    let mut place = 0;
    for (name, payload) in commands.iter() {
        if name.tick() >= tick {
            let command = Command {
                name: *name,
                payload: *payload,
            };
            frames[place] = frame(scene, &command);
            place += 1;
        }
    }
}

impl Context {
    ghost use Rattle.std.specs.Prelude.{◌≡◌, ◌↔◌, IsErrOf, None};
    ghost use Rattle.pf_context.specs.Context.{peer_at};
    ghost use Rattle.pf_context.specs.Frames.{ShowsFrames};

    /// Writes the frames of the commands that a peer holds, for this tick and later ones, in the
    /// order of their names (by tick, player and number), to the front of a buffer, and returns how
    /// many they are. Where the buffer is too small for them, that is the error, and nothing is
    /// written. Takes time for all commands of the peer, and no memory.
    pub fn frames(
        &self,
        peer: Key,
        tick: u32,
        frames: &mut [[u8; FRAME_LEN]],
    ) -> Result<usize, ContextError>
        ensures bad_key { IsErrOf result ContextError.BadKey ↔ (peer_at self.now peer ≡ None) }
        ensures frames { ShowsFrames (peer_at self.now peer) tick frames.old frames.new result }
    {
        let core = self.core(peer)?;
        let commands = core.commands();
        let count = count_from(commands, tick);
        if count > frames.len() {
            return Err(ContextError::SmallBuffer(count));
        }
        write_frames(core.scene(), commands, tick, frames);
        Ok(count)
    }
}
