//! The fields of the lines of events: words, numbers of peers and bodies, ticks, impulses,
//! positions.

ghost use Rattle.std.specs.Prelude.{◌≡◌, ◌<◌, IfOk};
ghost use Rattle.pf_console.specs.Grammar.{peer_number, tick_of, body_number, real_of, impulse_of, coordinate_field, position_of, event_word, named_kind};

use pf_commands::Coordinate;
use pf_num::Fx;
use pf_rot::V2;
use pf_shapes::MAX_POSITION;
use pf_text::{LineFault, ParsedNumber, number};

/// The first field of an event's line.
#[derive(Clone, Copy, Debug, PartialEq, Eq)]
pub enum EventWord {
    Issue,
    Take,
    Merge,
    Advance,
    Settle,
    Show,
    Seal,
}

/// What a command does, in the third field of its line.
#[derive(Clone, Copy, Debug, PartialEq, Eq)]
pub enum Kind {
    Push,
    Turn,
    Stop,
    Place,
}

/// The word that a field is, if it is one.
pub(crate) fn word(field: &[u8]) -> Option<EventWord>
    ensures { result ≡ event_word field.now }
{
    if field == b"issue".as_slice() {
        Some(EventWord::Issue)
    } else if field == b"take".as_slice() {
        Some(EventWord::Take)
    } else if field == b"merge".as_slice() {
        Some(EventWord::Merge)
    } else if field == b"advance".as_slice() {
        Some(EventWord::Advance)
    } else if field == b"settle".as_slice() {
        Some(EventWord::Settle)
    } else if field == b"show".as_slice() {
        Some(EventWord::Show)
    } else if field == b"seal".as_slice() {
        Some(EventWord::Seal)
    } else {
        None
    }
}

/// The kind that a field is, if it is one.
pub(crate) fn kind_in(field: &[u8]) -> Option<Kind>
    ensures { result ≡ named_kind field.now }
{
    if field == b"push".as_slice() {
        Some(Kind::Push)
    } else if field == b"turn".as_slice() {
        Some(Kind::Turn)
    } else if field == b"stop".as_slice() {
        Some(Kind::Stop)
    } else if field == b"place".as_slice() {
        Some(Kind::Place)
    } else {
        None
    }
}

/// The number of a peer, below `peers`.
pub(crate) fn peer(peers: u8, field: &[u8]) -> Result<u8, LineFault>
    ensures value { result ≡ peer_number peers field.now }
    ensures range { IfOk result (λ peer. peer < peers) }
{
    match number(field, 0, i64::from(peers) - 1) {
        ParsedNumber::InRange(peer) => Ok(peer as u8),
        _ => Err(LineFault::BadNumber),
    }
}

/// A tick, or a count of ticks.
pub(crate) fn tick(field: &[u8]) -> Result<u32, LineFault>
    ensures { result ≡ tick_of field.now }
{
    match number(field, 0, 0xffff_ffff) {
        ParsedNumber::InRange(tick) => Ok(tick as u32),
        _ => Err(LineFault::BadNumber),
    }
}

/// The number of a body.
pub(crate) fn body(field: &[u8]) -> Result<u16, LineFault>
    ensures { result ≡ body_number field.now }
{
    match number(field, 0, 0xffff) {
        ParsedNumber::InRange(body) => Ok(body as u16),
        _ => Err(LineFault::BadNumber),
    }
}

/// A fixed-point number, in units of 2^-24.
pub(crate) fn real(field: &[u8]) -> Result<Fx, LineFault>
    ensures { result ≡ real_of field.now }
{
    match number(field, Fx::MAX.neg().raw(), Fx::MAX.raw()) {
        ParsedNumber::InRange(raw) => Fx::from_raw(raw).ok_or(LineFault::BadNumber),
        _ => Err(LineFault::BadNumber),
    }
}

/// An impulse, in units of 2^-24.
pub(crate) fn impulse(x: &[u8], y: &[u8]) -> Result<V2, LineFault>
    ensures { result ≡ impulse_of x.now y.now }
{
    Ok(V2 {
        x: real(x)?,
        y: real(y)?,
    })
}

/// A coordinate of a position, in units of 2^-24.
fn coordinate(field: &[u8]) -> Result<Coordinate, LineFault>
    ensures { result ≡ coordinate_field field.now }
{
    let ParsedNumber::InRange(raw) = number(field, -MAX_POSITION, MAX_POSITION) else {
        return Err(LineFault::BadNumber);
    };
    match Fx::from_raw(raw) {
        Some(value) => Coordinate::new(value).ok_or(LineFault::BadNumber),
        None => Err(LineFault::BadNumber),
    }
}

/// A position.
pub(crate) fn position(x: &[u8], y: &[u8]) -> Result<(Coordinate, Coordinate), LineFault>
    ensures { result ≡ position_of x.now y.now }
{
    Ok((coordinate(x)?, coordinate(y)?))
}
