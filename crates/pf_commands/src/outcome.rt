//! What putting a command into a map does, and what merging another map into it does.

ghost use Rattle.std.specs.Prelude.{◌≡◌, Some};
ghost use Rattle.pf_commands.specs.News.{put_outcome};

use crate::payload::Payload;
use crate::weight::weight_parts;
use std::cmp::Ordering;

/// What putting a command into a map did.
#[derive(Clone, Copy, Debug, PartialEq, Eq)]
pub enum Put {
    /// Its name was new.
    New,
    /// The map held the same command.
    Same,
    /// The new payload is of greater weight, and replaces the old one.
    Greater,
    /// The new payload is of lesser weight: the old one stays.
    Lesser,
}

impl Put {
    ghost use Rattle.std.specs.Prelude.{◌≡◌};
    ghost use Rattle.pf_commands.specs.News.{is_change};

    /// Whether the map has changed.
    pub fn is_change(self) -> bool
        ensures { result ≡ is_change self }
    {
        matches!(self, Put::New | Put::Greater)
    }
}

/// What merging a map into another did.
#[derive(Clone, Copy, Debug, PartialEq, Eq)]
pub struct Merged {
    /// How many names were new, or have a payload of greater weight now.
    pub count: usize,
    /// The least tick of these names, if there are any.
    pub least: Option<u32>,
}

/// The outcome of putting a payload under a name that has one already.
pub(crate) fn compared(held: &Payload, payload: &Payload) -> Put
    ensures { result ≡ put_outcome (Some held.now) payload.now }
{
    match weight_parts(held).cmp(&weight_parts(payload)) {
        Ordering::Less => Put::Greater,
        Ordering::Equal => Put::Same,
        Ordering::Greater => Put::Lesser,
    }
}
