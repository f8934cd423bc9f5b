//! Commands as 27 bytes on the wire.

ghost use Rattle.std.specs.Prelude.{◌≡◌, ◌<◌, ◌^◌, ◌&&◌, length, IfOk, Ok, Some, None, if◌then◌else◌};
ghost use Rattle.pf_commands.specs.declared.payload.Command.{Command};
ghost use Rattle.pf_commands.specs.declared.payload.Payload.TheVariants.{Place};
ghost use Rattle.pf_commands.specs.Name.{IsName};
ghost use Rattle.pf_commands.specs.Payload.{IsPayload, body_of};
ghost use Rattle.pf_commands.specs.Frame.{Encodes, encoding, decode, version_of};
ghost use Rattle.pf_commands.specs.Coordinate.{is_coordinate};

use crate::coordinate::Coordinate;
use crate::fault::FrameFault;
use crate::name::{MAX_TICK, Name};
use crate::payload::{Command, Payload};
use crate::weight::{PLACE, PUSH, STOP, TURN, weight_parts};
use byteorder::{BigEndian, ByteOrder};
use pf_num::Fx;
use pf_shapes::PLAYERS;
use std::marker::Model;

/// The length of a frame, in bytes.
pub const FRAME_LEN: usize = 27;

/// The first byte of the frame of a push, a turn or a stop.
const FIRST_VERSION: u8 = 1;

/// The first byte of the frame of a place.
const PLACE_VERSION: u8 = 2;

/// Frames name bodies below this.
const BODIES: u16 = 1 << 10;

/// The fields of a frame, x and y in two's complement.
#[derive(Clone, Copy)]
struct Fields {
    version: u8,
    tick: u32,
    player: u8,
    number: u16,
    kind: u8,
    body: u16,
    x: u64,
    y: u64,
}

impl Model for Fields {
    ghost use Rattle.pf_commands.specs.Frame.{Fields};

    ghost Value = { Fields };

    ghost view = { λ f. record {
      version = f.version;
      tick = f.tick;
      player = f.player;
      number = f.number;
      kind = f.kind;
      body = f.body;
      x = f.x;
      y = f.y;
    } };

    ghost inverse = { λ f. record {
      version = f.version;
      tick = f.tick;
      player = f.player;
      number = f.number;
      kind = f.kind;
      body = f.body;
      x = f.x;
      y = f.y;
    } };
}

impl Fields {
    ghost use Rattle.std.specs.Prelude.{◌≡◌, ◌&&◌, length, Some, None, if◌then◌else◌};
    ghost use Rattle.pf_commands.specs.Frame.{frame_fields, fields_in, bytes_in, is_version, has_kind, is_canonical, is_component, payload_in, command_of};

    /// The fields of 27 bytes.
    #[tactic(auto, unfolding(crate::specs::Frame::frame_fields))]
    fn of_bytes(bytes: &[u8]) -> Fields
        requires { length bytes.now ≡ FRAME_LEN }
        ensures { result ≡ frame_fields bytes.now }
    {
        Fields {
            version: bytes[0],
            tick: BigEndian::read_u32(&bytes[1..]),
            player: bytes[5],
            number: BigEndian::read_u16(&bytes[6..]),
            kind: bytes[8],
            body: BigEndian::read_u16(&bytes[9..]),
            x: BigEndian::read_u64(&bytes[11..]),
            y: BigEndian::read_u64(&bytes[19..]),
        }
    }

    /// The fields of a command's frame.
    #[tactic(auto, unfolding(crate::specs::Frame::fields_in))]
    fn of_command(command: &Command) -> Fields
        ensures value { result ≡ fields_in command.now }
        ensures name { IsName command.now.name }
        ensures payload { IsPayload command.now.payload }
    {
        let (kind, body, x, y) = weight_parts(&command.payload);
        Fields {
            version: version_of(&command.payload),
            tick: command.name.tick(),
            player: command.name.player(),
            number: command.name.number(),
            kind,
            body,
            x,
            y,
        }
    }

    /// The fields as 27 bytes.
    #[tactic(auto, unfolding(crate::specs::Frame::bytes_in))]
    fn bytes(self) -> [u8; FRAME_LEN]
        ensures { result ≡ bytes_in self }
    {
        let mut frame = [0; FRAME_LEN];
        frame[0] = self.version;
        BigEndian::write_u32(&mut frame[1..], self.tick);
        frame[5] = self.player;
        BigEndian::write_u16(&mut frame[6..], self.number);
        frame[8] = self.kind;
        BigEndian::write_u16(&mut frame[9..], self.body);
        BigEndian::write_u64(&mut frame[11..], self.x);
        BigEndian::write_u64(&mut frame[19..], self.y);
        frame
    }

    /// Whether this is a version that frames have: 1 or 2.
    fn is_version(self) -> bool
        ensures { result ≡ is_version self.version }
    {
        self.version == FIRST_VERSION || self.version == PLACE_VERSION
    }

    /// Whether a frame of this version may have this kind.
    fn has_kind(self) -> bool
        ensures { result ≡ has_kind self.version self.kind }
    {
        if self.version == FIRST_VERSION {
            self.kind < PLACE
        } else {
            self.kind == PLACE
        }
    }

    /// Whether x and y are 0 where the kind has none.
    fn is_canonical(self) -> bool
        ensures { result ≡ is_canonical self.kind self.x self.y }
    {
        match self.kind {
            PUSH => true,
            TURN => self.y == 0,
            STOP => self.x == 0 && self.y == 0,
            _ => true,
        }
    }

    /// The payload, if x and y are in the range of the kind.
    fn payload(self) -> Option<Payload>
        ensures { result ≡ (if is_component self.kind self.x && is_component self.kind self.y
            then Some (payload_in self) else None) }
    {
        let x = Fx::from_raw(self.x.cast_signed())?;
        let y = Fx::from_raw(self.y.cast_signed())?;
        match self.kind {
            PUSH => Some(Payload::Push {
                body: self.body,
                x,
                y,
            }),
            TURN => Some(Payload::Turn { body: self.body, x }),
            STOP => Some(Payload::Stop { body: self.body }),
            _ => place(self.body, x, y),
        }
    }

    /// The command of the fields, or the first cause why they have none.
    #[tactic(auto, unfolding(crate::specs::Frame::command_of, crate::specs::Frame::command_in, crate::specs::Frame::is_in_range))]
    fn command(self) -> Result<Command, FrameFault>
        ensures { result ≡ command_of self }
    {
        if !self.is_version() {
            return Err(FrameFault::BadVersion);
        }
        if !self.has_kind() {
            return Err(FrameFault::BadKind);
        }
        if !self.is_canonical() {
            return Err(FrameFault::NotCanonical);
        }
        if self.tick >= MAX_TICK || self.player >= PLAYERS || self.body >= BODIES {
            return Err(FrameFault::OutOfRange);
        }
        match self.payload() {
            Some(payload) => Ok(Command {
                name: Name::new(self.tick, self.player, self.number),
                payload,
            }),
            None => Err(FrameFault::OutOfRange),
        }
    }
}

/// The version of a payload's frame.
fn version_of(payload: &Payload) -> u8
    ensures { result ≡ version_of payload.now }
{
    match payload {
        Payload::Push { .. } | Payload::Turn { .. } | Payload::Stop { .. } => FIRST_VERSION,
        Payload::Place { .. } => PLACE_VERSION,
    }
}

/// A place at x and y, if they are coordinates.
fn place(body: u16, x: Fx, y: Fx) -> Option<Payload>
    ensures { result ≡
        (if is_coordinate x && is_coordinate y then Some (Place body x y) else None) }
{
    Some(Payload::Place {
        body,
        x: Coordinate::new(x)?,
        y: Coordinate::new(y)?,
    })
}

/// The command that bytes encode, or the first cause why they encode none.
#[tactic(auto, unfolding(crate::specs::Frame::decode))]
fn decoded(bytes: &[u8]) -> Result<Command, FrameFault>
    ensures { result ≡ decode bytes.now }
{
    if bytes.len() < FRAME_LEN {
        return Err(FrameFault::Short);
    }
    if bytes.len() > FRAME_LEN {
        return Err(FrameFault::Long);
    }
    Fields::of_bytes(bytes).command()
}

/// The command that bytes encode. Takes no memory.
pub fn decode(bytes: &[u8]) -> Result<Command, FrameFault>
    // The bytes encode the command that is returned.
    ensures found { IfOk result (Encodes bytes.now) }

    // A command that they encode is returned.
    ensures only { (c : Command) → Encodes bytes.now c → result ≡ Ok c }

    // Which error it is: the first that holds of the six, in the order of `FrameFault`.
    ensures exact { result ≡ decode bytes.now }
{
    decoded(bytes)
}

/// The frame of a command whose body is below 1,024. Other commands have none.
pub fn encode(command: &Command) -> [u8; FRAME_LEN]
    requires { body_of command.now.payload < 2 ^ 10 }
    ensures encoded { Encodes result command.now }
    ensures value { result ≡ encoding command.now }
{
    Fields::of_command(command).bytes()
}
