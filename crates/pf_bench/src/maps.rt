//! Tasks on command maps and frames that are measured.

ghost use Rattle.std.specs.Prelude.{◌≡◌, ◌<◌, ◌^◌};
ghost use Rattle.pf_commands.specs.Payload.{body_of};

use pf_commands::{Command, CommandMap, FRAME_LEN, Name, Payload, decode, encode};
use std::alloc::{AllocError, Global};

/// A task that is repeated.
#[derive(Clone, Copy, Debug, PartialEq, Eq)]
pub enum Task {
    /// An empty map is filled with all commands.
    Put,
    /// The payload of a command is looked up.
    Get,
    /// The greatest number of a tick and player is looked up.
    Greatest,
    /// The eight payloads of a tick are listed.
    AtTick,
    /// A map of eight commands is merged in, of which none is new.
    MergeKnown,
    /// A map of eight greater payloads is merged in.
    MergeGreater,
    /// The map is copied.
    Copy,
    /// A frame is decoded.
    Decode,
}

impl Task {
    ghost use Rattle.std.specs.Prelude.{◌≡◌, IfSome};
    ghost use Rattle.pf_bench.specs.declared.maps.Task.{Task};
    ghost use Rattle.pf_bench.specs.Tasks.{map_word};

    /// The task of this word.
    pub fn parse(word: &str) -> Option<Task>
        ensures known { (task : Task) → word.now ≡ map_word task → result ≡ Some task }
        ensures value { IfSome result (λ task. word.now ≡ map_word task) }
    {
        match word {
            "put" => Some(Task::Put),
            "get" => Some(Task::Get),
            "greatest" => Some(Task::Greatest),
            "at-tick" => Some(Task::AtTick),
            "merge-known" => Some(Task::MergeKnown),
            "merge-greater" => Some(Task::MergeGreater),
            "copy" => Some(Task::Copy),
            "decode" => Some(Task::Decode),
            _ => None,
        }
    }
}

/// The command of index i, with this body. Each tick has eight, one of each player, and ticks of
/// neighbouring indices are far apart.
fn command(i: u64, body: u16) -> Command
    ensures { body_of result.payload ≡ body }
{
    let tick = i / 8 % 131_072 * 40_503 % 131_072;
    Command {
        name: Name::new(tick as u32, (i % 8) as u8, 0),
        payload: Payload::Stop { body },
    }
}

/// The command of index i that the map contains.
fn stored_command(i: u64) -> Command
    ensures { body_of result.payload < 2 ^ 10 }
{
    command(i, (i % 1024) as u16)
}

/// The command of the i-th query, one of `size` commands.
fn queried_command(i: u64, size: u64) -> Command
    requires { 0 < size }
{
    stored_command((i % size).wrapping_mul(7919) % size)
}

/// The map of so many commands.
fn map_of(alloc: Global, size: u64) -> Result<CommandMap, AllocError> {
    let mut map = CommandMap::new(alloc);
    for i in 0..size {
        map.put(&stored_command(i))?;
    }
    Ok(map)
}

/// The map of the names of the first eight commands, all with this body.
fn eight_commands(alloc: Global, body: u16) -> Result<CommandMap, AllocError> {
    let mut map = CommandMap::new(alloc);
    for i in 0..8 {
        map.put(&command(i, body))?;
    }
    Ok(map)
}

fn puts(alloc: Global, count: u64, size: u64) -> Result<u64, AllocError> {
    let mut sum: u64 = 0;
    for _ in 0..count {
        sum = sum.wrapping_add(map_of(alloc, size)?.len() as u64);
    }
    Ok(sum)
}

fn gets(map: &CommandMap, count: u64, size: u64) -> u64
    requires { 0 < size }
{
    let mut sum: u64 = 0;
    for i in 0..count {
        let payload = map.get(queried_command(i, size).name);
        sum = sum.wrapping_add(payload.map_or(0, |payload| u64::from(payload.body())));
    }
    sum
}

fn greatest_numbers(map: &CommandMap, count: u64, size: u64) -> u64
    requires { 0 < size }
{
    let mut sum: u64 = 0;
    for i in 0..count {
        let name = queried_command(i, size).name;
        let greatest = map.greatest(name.tick(), name.player());
        sum = sum.wrapping_add(greatest.map_or(0, |number| u64::from(number) + 1));
    }
    sum
}

fn lists(alloc: Global, map: &CommandMap, count: u64, size: u64) -> Result<u64, AllocError>
    requires { 0 < size }
{
    let mut sum: u64 = 0;
    for i in 0..count {
        let payloads = map.at_tick(alloc, queried_command(i, size).name.tick())?;
        sum = sum.wrapping_add(payloads.len() as u64);
    }
    Ok(sum)
}

fn merges_of_known(alloc: Global, map: CommandMap, count: u64) -> Result<u64, AllocError> {
    let mut map = map;
    let known = eight_commands(alloc, 0)?;
    let mut sum: u64 = 0;
    for _ in 0..count {
        sum = sum.wrapping_add(map.merge(&known)?.count as u64);
    }
    Ok(sum)
}

fn merges_of_greater(alloc: Global, map: CommandMap, count: u64) -> Result<u64, AllocError> {
    let mut map = map;
    let mut sum: u64 = 0;
    for i in 0..count {
        let greater = eight_commands(alloc, 1024 + (i % 60_000) as u16)?;
        sum = sum.wrapping_add(map.merge(&greater)?.count as u64);
    }
    Ok(sum)
}

fn copies(map: &CommandMap, count: u64) -> Result<u64, AllocError> {
    let mut sum: u64 = 0;
    for _ in 0..count {
        sum = sum.wrapping_add(map.try_clone()?.len() as u64);
    }
    Ok(sum)
}

/// The frames of so many commands.
fn frames(alloc: Global, size: u64) -> Result<Vec<[u8; FRAME_LEN]>, AllocError> {
    let mut frames = Vec::new(alloc);
    for i in 0..size {
        frames.push(encode(&stored_command(i)))?;
    }
    Ok(frames)
}

/// The tick of the command that a frame encodes, or 0 where it encodes none.
fn tick_in(frame: &[u8]) -> u64 {
    match decode(frame) {
        Ok(command) => u64::from(command.name.tick()),
        Err(_) => 0,
    }
}

fn decodes(frames: &[[u8; FRAME_LEN]], count: u64) -> u64 {
    let mut sum: u64 = 0;
    for i in 0..count {
        let frame = frames.get((i % 1024) as usize);
        sum = sum.wrapping_add(frame.map_or(0, |frame| tick_in(frame)));
    }
    sum
}

/// Repeats the task with a map of so many commands, and sums the results in 64 bits.
pub fn sum(alloc: Global, task: Task, count: u64, size: u64) -> Result<u64, AllocError>
    requires { 0 < size }
{
    let map = map_of(alloc, size)?;
    match task {
        Task::Put => puts(alloc, count, size),
        Task::Get => Ok(gets(&map, count, size)),
        Task::Greatest => Ok(greatest_numbers(&map, count, size)),
        Task::AtTick => lists(alloc, &map, count, size),
        Task::MergeKnown => merges_of_known(alloc, map, count),
        Task::MergeGreater => merges_of_greater(alloc, map, count),
        Task::Copy => copies(&map, count),
        Task::Decode => Ok(decodes(&frames(alloc, size)?, count)),
    }
}
