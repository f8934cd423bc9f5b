//! Maps of a few commands by hand and of thousands. Frames stand in the stored run of
//! `runs_geometry`, which of two payloads stays in that of `runs_peers`, and which commands a scene
//! allows in that of `runs_texts`.

ghost use Rattle.std.specs.Prelude.{◌<◌};

use crate::scenes::scene_of;
use pf_commands::{CheckFault, Command, CommandMap, MAX_TICK, Merged, Name, Payload};
use pf_num::Fx;
use pf_shapes::{PLAYERS, Scene};
use std::alloc::{AllocError, Global};
use std::test::Fail;

/// Circles: one of player 0, a static one of player 1, and one of nobody.
const SCENE: &[u8] = b"gravity 0 0\n\
    circle 0 16777216 0 16777216 0 0\n\
    circle 1 0 0 16777216 0 0\n\
    circle - 16777216 0 16777216 0 0\nend\n";

/// A command of the tick, the player and the number.
fn command(tick: u32, player: u8, number: u16, payload: Payload) -> Command
    requires tick { tick < MAX_TICK }
    requires player { player < PLAYERS }
{
    Command {
        name: Name::new(tick, player, number),
        payload,
    }
}

/// A push of the body 3 by x units and 0.
fn push(x: i64) -> Payload {
    Payload::Push {
        body: 3,
        x: Fx::from_raw(x).unwrap_or(Fx::ZERO),
        y: Fx::ZERO,
    }
}

/// Puts commands into a map.
fn put_all(map: &mut CommandMap, commands: &[Command]) -> Result<(), AllocError> {
    for command in commands {
        map.put(command)?;
    }
    Ok(())
}

/// What a map holds under a name.
fn held(map: &CommandMap, tick: u32, player: u8, number: u16) -> Option<Payload>
    requires tick { tick < MAX_TICK }
    requires player { player < PLAYERS }
{
    map.get(Name::new(tick, player, number))
}

/// Whether the payloads are these.
fn are(payloads: &[Payload], expected: &[Payload]) -> bool {
    payloads == expected
}

/// Whether the commands of a tick are in order of players and then numbers.
fn are_in_order(alloc: Global, map: &mut CommandMap) -> Result<bool, AllocError> {
    let commands = [
        command(4, 7, 65_535, push(0)),
        command(5, 1, 0, push(1)),
        command(5, 0, 9, push(2)),
        command(5, 1, 3, push(3)),
        command(6, 0, 0, push(4)),
    ];
    put_all(map, &commands)?;
    let payloads = map.at_tick(alloc, 5)?;
    let greatest = [map.greatest(5, 1), map.greatest(5, 2)];
    Ok(are(&payloads, &[push(2), push(1), push(3)]) && greatest == [Some(3), None])
}

#[test]
fn a_tick_is_in_order_of_players_then_numbers(rt: HostRuntime) -> Result<(), Fail> {
    let mut map = CommandMap::new(rt.alloc());
    let are_so = are_in_order(rt.alloc(), &mut map)?;
    assert!(rt; are_so);
    Ok(())
}

/// Whether what a first merge of these commands changed, and a second one, is right.
fn are_merged_once(first: &Merged, second: &Merged, map: &CommandMap) -> bool {
    first.count == 2
        && first.least == Some(8)
        && second.count == 0
        && second.least.is_none()
        && map.len() == 3
        && held(map, 2, 0, 0) == Some(push(8))
        && held(map, 9, 0, 0) == Some(push(-1))
}

/// Whether three commands are merged once into two: one has a lesser payload, one is new, and one
/// has a greater payload.
fn are_merged(map: &mut CommandMap, other: &mut CommandMap) -> Result<bool, AllocError> {
    let held = [command(9, 0, 0, push(1)), command(2, 0, 0, push(8))];
    let others = [
        command(2, 0, 0, push(7)),
        command(8, 0, 0, push(1)),
        command(9, 0, 0, push(-1)),
    ];
    put_all(map, &held)?;
    put_all(other, &others)?;
    let first = map.merge(other)?;
    let second = map.merge(other)?;
    Ok(are_merged_once(&first, &second, map))
}

#[test]
fn greater_payloads_are_merged_once(rt: HostRuntime) -> Result<(), Fail> {
    let mut map = CommandMap::new(rt.alloc());
    let mut other = CommandMap::new(rt.alloc());
    let are_merged = are_merged(&mut map, &mut other)?;
    assert!(rt; are_merged);
    Ok(())
}

/// Whether a map is that of three commands of the ticks 4 to 6 without the first.
fn is_from_five(map: &CommandMap) -> bool {
    map.len() == 2
        && map.is_from(5)
        && !map.is_from(6)
        && held(map, 5, 0, 0) == Some(push(2))
        && held(map, 6, 0, 0) == Some(push(3))
}

/// Whether commands before tick 5 are dropped, and then all.
fn are_dropped(map: &mut CommandMap) -> Result<bool, AllocError> {
    let commands = [
        command(4, 7, 0, push(1)),
        command(5, 0, 0, push(2)),
        command(6, 0, 0, push(3)),
    ];
    put_all(map, &commands)?;
    let is_whole = map.is_from(4) && !map.is_from(5);
    map.drop_before(5);
    let is_from_five = is_from_five(map);
    map.drop_before(u32::MAX);
    Ok(is_whole && is_from_five && map.is_empty() && map.is_from(u32::MAX))
}

#[test]
fn commands_before_a_tick_are_dropped(rt: HostRuntime) -> Result<(), Fail> {
    let mut map = CommandMap::new(rt.alloc());
    let are_dropped = are_dropped(&mut map)?;
    assert!(rt; are_dropped);
    Ok(())
}

/// Puts 3,000 commands of this number into a map: one of player 0 at each of the last 2,999 ticks,
/// and one of player 1 at the last.
fn put_many(map: &mut CommandMap, number: u16) -> Result<(), AllocError> {
    for tick in 1_045_577..MAX_TICK {
        map.put(&command(tick, 0, number, push(i64::from(tick))))?;
    }
    map.put(&command(MAX_TICK - 1, 1, number, push(1)))?;
    Ok(())
}

/// Whether a copy holds the 3,000 commands of a map.
fn is_copy(map: &CommandMap, copy: &CommandMap) -> bool {
    map.len() == 3000
        && copy.iter().eq(map.iter())
        && map
            .iter()
            .all(|(name, payload)| copy.get(*name) == Some(*payload))
}

/// Whether a map has thousands of commands, and so has its copy.
fn are_held(alloc: Global, map: &mut CommandMap) -> Result<bool, AllocError> {
    put_many(map, 0)?;
    let payloads = map.at_tick(alloc, MAX_TICK - 1)?;
    let copy = map.try_clone()?;
    Ok(is_copy(map, &copy) && are(&payloads, &[push(1_048_575), push(1)]))
}

#[test]
fn maps_may_have_thousands_of_commands(rt: HostRuntime) -> Result<(), Fail> {
    let mut map = CommandMap::new(rt.alloc());
    let are_held = are_held(rt.alloc(), &mut map)?;
    assert!(rt; are_held);
    Ok(())
}

/// Whether thousands of commands are merged into as many.
fn are_added(map: &mut CommandMap, other: &mut CommandMap) -> Result<bool, AllocError> {
    put_many(map, 0)?;
    put_many(other, 1)?;
    let merged = map.merge(other)?;
    Ok(merged.count == 3000 && merged.least == Some(1_045_577) && map.len() == 6000)
}

#[test]
fn thousands_of_commands_are_merged(rt: HostRuntime) -> Result<(), Fail> {
    let mut map = CommandMap::new(rt.alloc());
    let mut other = CommandMap::new(rt.alloc());
    let are_added = are_added(&mut map, &mut other)?;
    assert!(rt; are_added);
    Ok(())
}

/// Whether `check_all` accepts a map whose commands the scene allows, and rejects another whose
/// first command it does not allow.
fn are_checked(
    scene: &Scene,
    map: &mut CommandMap,
    other: &mut CommandMap,
) -> Result<bool, AllocError> {
    let allowed = [command(3, 0, 0, Payload::Stop { body: 0 })];
    let others = [
        command(5, 0, 0, Payload::Stop { body: 9 }),
        command(4, 1, 0, Payload::Stop { body: 1 }),
    ];
    put_all(map, &allowed)?;
    put_all(other, &others)?;
    let is_allowed = map.check_all(scene).is_ok() && !map.is_empty();
    Ok(is_allowed && other.check_all(scene) == Err(CheckFault::StaticBody))
}

#[test]
fn the_first_command_that_is_not_allowed_is_named(rt: HostRuntime) -> Result<(), Fail> {
    let scene = scene_of(rt.alloc(), SCENE)?;
    let mut map = CommandMap::new(rt.alloc());
    let mut other = CommandMap::new(rt.alloc());
    let are_checked = are_checked(&scene, &mut map, &mut other)?;
    assert!(rt; are_checked);
    Ok(())
}
