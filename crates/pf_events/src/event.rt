//! What is asked of peers, and what they reply.

use pf_commands::{Command, FRAME_LEN, FrameFault, Payload, Put};
use pf_rollback::Refusal;
use pf_step::World;

/// One call on one peer.
#[derive(Clone, Copy, Debug, PartialEq, Eq)]
pub enum Event {
    /// Issue a command of the peer's own player.
    Issue {
        peer: u8,
        payload: Payload,
    },
    /// Take a frame: the command that it encodes, or why it encodes none.
    Take {
        peer: u8,
        decoded: Result<Command, FrameFault>,
    },
    /// Merge the commands that another peer holds. Refused unless both have one horizon and one
    /// world there.
    Merge {
        peer: u8,
        other: u8,
    },
    /// Go on by so many ticks of 1/64 s.
    Advance {
        peer: u8,
        ticks: u32,
    },
    /// Simulate each tick up to the reached one, and keep worlds from which other ones are
    /// simulated.
    Settle {
        peer: u8,
    },
    /// Show the world at this tick.
    Show {
        peer: u8,
        tick: u32,
    },
    /// Make this tick the horizon, and forget what came before it.
    Seal {
        peer: u8,
        tick: u32,
    },
}

impl Event {
    ghost use Rattle.std.specs.Prelude.{◌≡◌};
    ghost use Rattle.pf_events.specs.Session.{other_peer_of, event_peer};

    /// The number of the peer.
    pub fn peer(&self) -> u8
        ensures { result ≡ event_peer self.now }
    {
        match self {
            Event::Issue { peer, .. }
            | Event::Take { peer, .. }
            | Event::Merge { peer, .. }
            | Event::Advance { peer, .. }
            | Event::Settle { peer }
            | Event::Show { peer, .. }
            | Event::Seal { peer, .. } => *peer,
        }
    }

    /// The number of the peer whose commands are merged; for other events the number of their own
    /// peer.
    pub fn other_peer(&self) -> u8
        ensures { result ≡ other_peer_of self.now }
    {
        match self {
            Event::Merge { other, .. } => *other,
            _ => self.peer(),
        }
    }
}

/// The reply to an event.
#[derive(Debug, Drop)]
pub enum Reply {
    /// The peer has issued a command: this is its frame.
    Issued { peer: u8, frame: [u8; FRAME_LEN] },
    /// The peer holds the command, or a greater one of its name.
    Took { peer: u8, put: Put },
    /// The peer holds the other's commands, of which so many were new or greater.
    Merged { peer: u8, count: usize },
    /// The peer has reached this tick.
    Advanced { peer: u8, reached: u32 },
    /// Each tick up to this one, the reached tick, is settled.
    Settled { peer: u8, reached: u32 },
    /// The world at this tick.
    Shown { peer: u8, tick: u32, world: World },
    /// This tick is the horizon.
    Sealed { peer: u8, tick: u32 },
    /// The event was refused and changed nothing.
    Refused(Refusal),
}
