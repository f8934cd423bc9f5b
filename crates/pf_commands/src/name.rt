//! The names of commands.

ghost use Rattle.std.specs.Prelude.{◌≡◌, ◌<◌};

use pf_shapes::PLAYERS;
use std::marker::Model;

/// The last tick that a peer can reach. Commands are for ticks below it.
pub const MAX_TICK: u32 = 1_048_576;

/// How many commands a player can give at one tick. They are numbered from 0.
pub const NUMBERS: u32 = 65_536;

/// The name of a command. Names are ordered by tick, then player, then number.
#[derive(Clone, Copy, Debug, PartialEq, Eq, PartialOrd, Ord)]
pub struct Name {
    tick: u32,
    player: u8,
    number: u16,
}

impl Model for Name {
    ghost use Rattle.pf_commands.specs.Name.{Name, IsName};

    ghost Value = { Name };

    ghost view = { λ n. record { tick = n.tick; player = n.player; number = n.number } };

    ghost invariant = { λ n.
        IsName (record { tick = n.tick; player = n.player; number = n.number }) };

    ghost inverse = { λ n. record { tick = n.tick; player = n.player; number = n.number } };
}

impl Name {
    ghost use Rattle.std.specs.Prelude.{◌≡◌, ◌<◌};
    ghost use Rattle.pf_commands.specs.Name.{Name, IsName};

    /// The name of a command.
    #[inline]
    pub fn new(tick: u32, player: u8, number: u16) -> Name
        requires tick { tick < MAX_TICK }
        requires player { player < PLAYERS }
        ensures { result ≡ record { tick = tick; player = player; number = number } }
    {
        Name {
            tick,
            player,
            number,
        }
    }

    /// The tick that the command is for: it moves its body on the way from this tick to the next.
    #[inline]
    pub fn tick(self) -> u32
        ensures value { result ≡ self.tick }
        ensures range { IsName self }
    {
        self.tick
    }

    /// The player who gives the command.
    #[inline]
    pub fn player(self) -> u8
        ensures value { result ≡ self.player }
        ensures range { IsName self }
    {
        self.player
    }

    /// The number of the command among those of its player at its tick.
    #[inline]
    pub fn number(self) -> u16
        ensures value { result ≡ self.number }
        ensures range { IsName self }
    {
        self.number
    }
}
