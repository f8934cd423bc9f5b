//! Operations on numbers, vectors and rotations, and frames.

use anyhow::{Context, Result, bail};
use pf_commands::{Command, Payload, decode, encode};
use pf_num::{Fx, whole_root};
use pf_rot::{Rot, V2, cross_sv};
use std::alloc::Global;

/// The number that a word encodes.
fn number(word: &str) -> Result<Fx> {
    let raw = word.parse::<i64>().context("reading a number")?;
    Fx::from_raw(raw).context("a number is out of range")
}

/// The first four numbers that words encode, with 0 for each that is not there.
fn numbers_of(words: &[&str]) -> Result<[Fx; 4]> {
    let mut numbers = [Fx::ZERO; 4];
    for (place, word) in numbers.iter_mut().zip(words) {
        *place = number(word)?;
    }
    Ok(numbers)
}

/// The number that an operation on two numbers returns.
fn number_result(operation: &str, a: Fx, b: Fx) -> Option<Fx> {
    Some(match operation {
        "add" => a.add(b),
        "sub" => a.sub(b),
        "mul" => a.mul(b),
        "div" => a.div(b),
        "min" => a.min(b),
        "max" => a.max(b),
        "neg" => a.neg(),
        "abs" => a.abs(),
        "root" => a.root(),
        _ => return None,
    })
}

/// The number that an operation on two vectors returns.
fn measure(operation: &str, a: V2, b: V2) -> Option<Fx> {
    Some(match operation {
        "length" => a.length(),
        "dot" => a.dot(b),
        "cross" => a.cross(b),
        _ => return None,
    })
}

/// The vector that an operation on two vectors returns.
fn vector_result(operation: &str, a: V2, b: V2) -> Option<V2> {
    Some(match operation {
        "plus" => a.add(b),
        "minus" => a.sub(b),
        "opposite" => a.neg(),
        _ => return None,
    })
}

/// The vector that an operation on a number and a vector returns.
fn product(operation: &str, k: Fx, vector: V2) -> Option<V2> {
    Some(match operation {
        "scale" => vector.scale(k),
        "cross_sv" => cross_sv(k, vector),
        _ => return None,
    })
}

/// The vector that an operation on a rotation and a vector returns.
fn turned_vector(operation: &str, rotation: Rot, vector: V2) -> Option<V2> {
    Some(match operation {
        "rotate" => rotation.rotate(vector),
        "unrotate" => rotation.unrotate(vector),
        _ => return None,
    })
}

/// The rotation that an operation on a direction and an angular velocity returns.
fn rotation_result(operation: &str, direction: V2, spin: Fx) -> Option<Rot> {
    let (c, s) = (direction.x, direction.y);
    Some(match operation {
        "unit" => Rot::unit(c, s),
        "turn" => Rot { c, s }.turn(spin),
        _ => return None,
    })
}

/// The two numbers that an operation on these numbers returns.
fn pair_result(operation: &str, numbers: [Fx; 4]) -> Option<(i64, i64)> {
    let [a, b, c, d] = numbers;
    let (first, middle) = (V2 { x: a, y: b }, V2 { x: b, y: c });
    let second = V2 { x: c, y: d };
    if let Some(rotation) = rotation_result(operation, first, c) {
        return Some((rotation.c.raw(), rotation.s.raw()));
    }
    let vector = vector_result(operation, first, second)
        .or(product(operation, a, middle))
        .or(turned_vector(operation, Rot { c: a, s: b }, second))?;
    Some((vector.x.raw(), vector.y.raw()))
}

/// The output for an operation on numbers.
fn arithmetic(alloc: Global, operation: &str, numbers: [Fx; 4]) -> Result<String> {
    let [a, b, c, d] = numbers;
    let (first, second) = (V2 { x: a, y: b }, V2 { x: c, y: d });
    if let Some(number) = number_result(operation, a, b).or(measure(operation, first, second)) {
        return Ok(number.raw().to_string(alloc)?);
    }
    let (x, y) = pair_result(operation, numbers).context("no such line")?;
    Ok(format!(in alloc; "{x} {y}")?)
}

/// The text of a payload, as in a scene's events.
fn payload_text(alloc: Global, payload: &Payload) -> Result<String> {
    Ok(match payload {
        Payload::Push { body, x, y } => {
            let x = x.raw();
            let y = y.raw();
            format!(in alloc; "push {body} {x} {y}")?
        }
        Payload::Turn { body, x } => {
            let x = x.raw();
            format!(in alloc; "turn {body} {x}")?
        }
        Payload::Stop { body } => format!(in alloc; "stop {body}")?,
        Payload::Place { body, x, y } => {
            let x = x.value().raw();
            let y = y.value().raw();
            format!(in alloc; "place {body} {x} {y}")?
        }
    })
}

/// The text of a command.
fn command_text(alloc: Global, command: &Command) -> Result<String> {
    let name = command.name;
    let tick = name.tick();
    let player = name.player();
    let number = name.number();
    let payload = payload_text(alloc, &command.payload)?;
    Ok(format!(in alloc; "tick {tick} player {player} number {number} {payload}")?)
}

/// The bytes that digits encode.
fn bytes_of(alloc: Global, digits: &str) -> Result<Vec<u8>> {
    match digits {
        "-" => Ok(Vec::new(alloc)),
        digits => hex::decode(alloc, digits).context("reading digits"),
    }
}

/// The text of the command that a frame encodes, or the name of its error.
fn frame_text(alloc: Global, frame: &[u8]) -> Result<String> {
    match decode(frame) {
        Ok(command) => command_text(alloc, &command),
        Err(fault) => Ok(format!(in alloc; "{fault:?}")?),
    }
}

/// The digits of the frame that encodes what this one does, or the name of its error.
fn frame_again(alloc: Global, frame: &[u8]) -> Result<String> {
    match decode(frame) {
        Ok(command) => Ok(hex::encode(alloc, encode(&command).as_slice())?),
        Err(fault) => Ok(format!(in alloc; "{fault:?}")?),
    }
}

/// The output for an operation, or for a frame.
pub fn output_of(alloc: Global, line: &str) -> Result<String> {
    let words: Vec<&str> = line.split_whitespace().collect(alloc)?;
    match words.as_slice() {
        ["frame", digits] => frame_text(alloc, &bytes_of(alloc, digits)?),
        ["encode", digits] => frame_again(alloc, &bytes_of(alloc, digits)?),
        ["whole", number] => {
            let whole = number.parse::<u128>().context("reading a number")?;
            Ok(whole_root(whole).to_string(alloc)?)
        }
        [operation, numbers @ ..] => { arithmetic(alloc, operation, numbers_of(numbers)?) }
        [] => bail!("no such line"),
    }
}
