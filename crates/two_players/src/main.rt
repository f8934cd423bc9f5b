//! A game of two players, on one machine. The frame of player 0's push comes 20 ticks late to
//! player 1, whose peer then simulates again and draws the same bodies.
#![tactic(auto)]

use buyosen::{Error, Fx, Payload, PeerCore, Scene, World, world_at};
use std::alloc::{AllocError, Global};
use std::io;

/// A circle of each player, the second 4 lengths to the right of the first, and no gravity.
const SCENE: &[u8] = b"gravity 0 0\n\
    circle 0 16777216 8388608 16777216 0 0\n\
    circle 1 16777216 8388608 16777216 67108864 0\n\
    end\n";

/// How many settled worlds each peer keeps.
const RING: usize = 16;

/// The width of a drawing, in columns of a quarter of a length.
const COLUMNS: i64 = 40;

/// A drawing of the bodies of a world, each by its number, in the column of its x.
fn draw(alloc: Global, who: &str, world: &World) -> Result<String, AllocError> {
    let mut picture = format!(in alloc; "{who} |")?;
    for column in 0..COLUMNS {
        let mut dot = '.';
        for (number, body) in world.bodies().iter().enumerate() {
            if body.position.x.raw().div_euclid(1 << 22) == column {
                dot = if number == 0 { '0' } else { '1' };
            }
        }
        picture.push(dot)?;
    }
    picture.push_str("|\n")?;
    Ok(picture)
}

/// What both players see.
fn play(alloc: Global) -> Result<String, Error> {
    let scene = Scene::read(alloc, SCENE)?;
    let mut ours = PeerCore::new(alloc, scene.try_clone()?, 0, RING)?;
    let mut theirs = PeerCore::new(alloc, scene, 1, RING)?;
    let push = Payload::Push {
        body: 0,
        x: Fx::from_raw(100_663_296).unwrap(),
        y: Fx::ZERO,
    };

    let frame = ours.issue(push)?;
    ours.advance(20)?;
    ours.settle_alone(alloc)?;
    let mut text = draw(alloc, "player 0      ", ours.settled_world())?;

    theirs.advance(20)?;
    theirs.settle_alone(alloc)?;
    text.push_str(&draw(alloc, "player 1      ", theirs.settled_world())?)?;

    theirs.take(&frame)?;
    theirs.settle_alone(alloc)?;
    text.push_str(&draw(alloc, "player 1 later", theirs.settled_world())?)?;

    let replay = world_at(alloc, &theirs, 10)?;
    text.push_str(&draw(alloc, "tick 10       ", &replay)?)?;
    Ok(text)
}

fn main(rt: HostRuntime) -> io::Result<()> {
    match play(rt.alloc()) {
        Ok(text) => print!(rt; "{text}"),
        Err(error) => eprintln!(rt; "{error}"),
    }
}
