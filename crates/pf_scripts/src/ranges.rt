//! What only proofs need: functions that compute nothing, and whose clauses say what the types of a
//! peer's parts ensure.

use crate::peer::Peer;

impl Peer {
    ghost use Rattle.std.specs.Prelude.{All};
    ghost use Rattle.pf_commands.specs.Merge.{IsCommand, IsCommandMap};
    ghost use Rattle.pf_scripts.specs.Frames.{commands_in};
    ghost use Rattle.pf_scripts.specs.Peer.{commands_of, kept_of, scripted_player, setting_of};

    /// The commands of the core, and those that have come, are in their ranges.
    pub(crate) fn in_range(&self)
        ensures core { IsCommandMap (scripted_player self.now).commands }
        ensures all { IsCommandMap (commands_of self.now) }
        ensures kept { All IsCommand (commands_in (setting_of self.now) (kept_of self.now)) }
    {
        let _count = self.core.commands().len();
    }
}
