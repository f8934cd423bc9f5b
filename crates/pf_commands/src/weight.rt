//! The weight of payloads, by which one of two under a name stays.

ghost use Rattle.std.specs.Prelude.{◌≡◌};
ghost use Rattle.std.specs.Int.{w64, cast_unsigned};
ghost use Rattle.pf_commands.specs.Merge.{IsCommand};
ghost use Rattle.pf_commands.specs.Payload.{IsPayload, kind_of, body_of, x_of, y_of};

use crate::payload::{Command, Payload};

/// The kind of a push.
pub(crate) const PUSH: u8 = 0;

/// The kind of a turn, which has no y.
pub(crate) const TURN: u8 = 1;

/// The kind of a stop, which has neither x nor y.
pub(crate) const STOP: u8 = 2;

/// The kind of a place, whose x and y are coordinates.
pub(crate) const PLACE: u8 = 3;

/// The parts of a payload's weight, the highest first: kind, body, x and y in two's complement.
/// Payloads are compared by weight as these are.
pub(crate) fn weight_parts(payload: &Payload) -> (u8, u16, u64, u64)
    ensures value { let p = payload.now in
        result ≡ (kind_of p, body_of p, cast_unsigned w64 (x_of p), cast_unsigned w64 (y_of p)) }
    ensures range { IsPayload payload.now }
{
    let body = payload.body();
    match *payload {
        Payload::Push { x, y, .. } => (
            PUSH,
            body,
            x.raw().cast_unsigned(),
            y.raw().cast_unsigned(),
        ),
        Payload::Turn { x, .. } => (TURN, body, x.raw().cast_unsigned(), 0),
        Payload::Stop { .. } => (STOP, body, 0, 0),
        Payload::Place { x, y, .. } => (
            PLACE,
            body,
            x.value().raw().cast_unsigned(),
            y.value().raw().cast_unsigned(),
        ),
    }
}

/// Does nothing at run time. It reads a command's numbers, so that the prover knows that they are
/// in the ranges of their types, which a `BTreeMap` of them does not say.
pub(crate) fn read_ranges(command: &Command)
    ensures { IsCommand command.now }
{
    let _tick = command.name.tick();
    let _places = weight_parts(&command.payload);
}
