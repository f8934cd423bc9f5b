//! The lines of turns.

ghost use Rattle.std.specs.Prelude.{◌≡◌, ◌<◌, All, IfOk, IsOk, Ok, is_ok, map};
ghost use Rattle.std.specs.List.{list_all};
ghost use Rattle.pf_text.specs.Fault.{Returns};
ghost use Rattle.pf_scripts.specs.Script.{frame_bytes as frames_in_memory};
ghost use Rattle.pf_console.specs.Digits.{bytes_of};
ghost use Rattle.pf_console.specs.Turns.{turn_frames, said_by, turn_of};

use crate::digits::{are_bytes, bytes};
use crate::fields::{peer, tick};
use pf_scripts::Turn;
use pf_text::{LineError, LineFault};
use std::alloc::{AllocError, Global};

/// Whether each field has the digits of bytes.
fn are_frames(fields: &[&[u8]]) -> bool
    ensures { result ≡ list_all (λ field. is_ok (bytes_of field.now)) fields.now }
{
    fields.iter().all(|field| are_bytes(field))
}

/// The bytes of each field.
fn decoded(alloc: Global, fields: &[&[u8]]) -> Result<Vec<Vec<u8>>, AllocError>
    requires { All (λ field. IsOk (bytes_of field.now)) fields.now }
    ensures { IfOk result (λ frames.
        turn_frames (map (λ field. field.now) fields.now) ≡ Ok (frames_in_memory frames.items)) }
{
    let mut frames = Vec::new(alloc);
    for field in fields {
        frames.push(bytes(alloc, field)?)?;
    }
    Ok(frames)
}

/// The frames of a turn. Memory runs out only where all fields have the digits of bytes.
#[tactic(auto, using(crate::proofs::TurnFields::each_is_ok, crate::proofs::TurnFields::bad_fields, crate::proofs::TurnFields::good_fields))]
fn frames(alloc: Global, fields: &[&[u8]]) -> Result<Vec<Vec<u8>>, LineError>
    ensures { Returns (λ frames. frames_in_memory frames.items) result
        (turn_frames (map (λ field. field.now) fields.now)) }
{
    if !are_frames(fields) {
        return Err(LineError::Fault(LineFault::BadNumber));
    }
    Ok(decoded(alloc, fields)?)
}

/// `turn P K HEX HEX ..`: a turn of one of so many peers. Memory runs out only at a valid line.
#[tactic(auto, unfolding(crate::specs::Turns::turn_of))]
pub fn turn(alloc: Global, peers: u8, fields: &[&[u8]]) -> Result<(u8, Turn), LineError>
    ensures value { Returns (λ added. (added.0, said_by added.1)) result
        (turn_of peers (map (λ field. field.now) fields.now)) }
    ensures range { IfOk result (λ added. added.0 < peers) }
{
    let [word, of, ticks, digits @ ..] = fields else {
        return Err(LineError::Fault(LineFault::BadLine));
    };
    if *word != b"turn".as_slice() {
        return Err(LineError::Fault(LineFault::BadLine));
    }
    let peer = peer(peers, of)?;
    let ticks = tick(ticks)?;
    let frames = frames(alloc, digits)?;
    Ok((peer, Turn { frames, ticks }))
}
