//! Maps of commands: from names to payloads, in the order of names.

ghost use Rattle.std.specs.Prelude.{◌≡◌};
ghost use Rattle.pf_commands.specs.News.{lesser_number};

use crate::checking::{CheckFault, check};
use crate::name::{MAX_TICK, Name};
use crate::outcome::{Merged, Put, compared};
use crate::payload::{Command, Payload};
use crate::weight::read_ranges;
use pf_shapes::{PLAYERS, Scene};
use std::alloc::{AllocError, Global};
use std::collections::BTreeMap;
use std::collections::btree_map::Iter;
use std::marker::Model;

/// Commands by their names. Of two payloads of one name the one of greater weight stays, so a map
/// depends on which commands were put into it, and neither on their order nor on how often.
///
/// Contracts see it as a finite map.
#[derive(Drop)]
pub struct CommandMap {
    commands: BTreeMap<Name, Payload>,
}

impl Model for CommandMap {
    ghost use Rattle.std.specs.FinMap as map;
    ghost use Rattle.pf_commands.specs.Merge.{CommandMap, IsCommandMap, name_code};
    ghost use Rattle.pf_commands.specs.contracts.payload.Payload.{the_row};

    ghost Value = { CommandMap };

    ghost coded = { map.code name_code the_row.coded };

    ghost view = { λ m. map.from_entries m.commands.entries };

    ghost invariant = { λ m. IsCommandMap (map.from_entries m.commands.entries) };
}

impl CommandMap {
    ghost use Rattle.pf_commands.specs.Check.{check_all};
    ghost use Rattle.std.specs.Prelude.{◌≡◌, ◌≤◌, ◌<◌, ◌^◌, ◌↔◌, ℕ, None, [], length, IfOk, IfSome, IfNone, IsOk, IsSome, IsTrue, OnOk, OnErr};
    ghost use Rattle.std.specs.FinMap as map;
    ghost use Rattle.pf_commands.specs.Merge.{IsCommandMap, IsCommand, merge, singleton, payloads_at, name_at};
    ghost use Rattle.pf_commands.specs.News.{put_outcome, news, least_tick, IsNewsOf};
    ghost use Rattle.pf_commands.specs.Ticks.{commands_from, is_from};

    /// The map of no commands. Takes no memory.
    pub fn new(alloc: Global) -> CommandMap
        ensures { result ≡ map.empty }
    {
        CommandMap {
            commands: BTreeMap::new(alloc),
        }
    }

    /// How many names the map has.
    pub fn len(&self) -> usize
        ensures value { result ≡ map.len self.now }
        ensures small { result < 2 ^ 63 }
        ensures range { IsCommandMap self.now }
    {
        self.commands.len()
    }

    /// Whether the map has no names.
    pub fn is_empty(&self) -> bool
        ensures { IsTrue result ↔ (map.len self.now ≡ 0) }
    {
        self.len() == 0
    }

    /// The commands in order of their names.
    pub fn iter(&self) -> Iter<'_, Name, Payload>
        ensures entries { result ≡ map.entries self.now }
        ensures range { IsCommandMap self.now }
    {
        self.commands.iter()
    }

    /// The payload that the map holds under the name. Takes logarithmic time.
    pub fn get(&self, name: Name) -> Option<Payload>
        ensures { result ≡ map.get self.now name }
    {
        self.commands.get(&name).copied()
    }

    /// Puts the command into the map: under its name the payload of greater weight stays. Takes
    /// logarithmic time, and memory only for a new name. Out of memory leaves the map as it was.
    pub fn put(&mut self, command: &Command) -> Result<Put, AllocError>
        ensures outcome { let c = command.now in
            IfOk result (λ put. put ≡ put_outcome (map.get self.old c.name) c.payload) }
        ensures ok { let c = command.now in
            OnOk result (self.new ≡ merge self.old (singleton c.name c.payload)) }
        ensures err { OnErr result (self.new ≡ self.old) }
        ensures held { IsSome (map.get self.old command.now.name) → IsOk result }
        ensures range { IsCommand command.now }
    {
        let Some(held) = self.write(command)? else {
            return Ok(Put::New);
        };
        let put = compared(&held, &command.payload);
        if !put.is_change() {
            self.write(&command_of(&command.name, &held))?;
        }
        Ok(put)
    }

    /// The outcome of putting the command.
    fn outcome(&self, command: &Command) -> Put
        ensures { result ≡ put_outcome (map.get self.now command.now.name) command.now.payload }
    {
        match self.get(command.name) {
            None => Put::New,
            Some(held) => compared(&held, &command.payload),
        }
    }

    /// Writes the command's payload under its name, and returns the payload that was there.
    fn write(&mut self, command: &Command) -> Result<Option<Payload>, AllocError>
        ensures value { IfOk result (λ held. held ≡ map.get self.old command.now.name) }
        ensures ok { let c = command.now in
            OnOk result (self.new ≡ map.insert self.old c.name c.payload) }
        ensures err { OnErr result (self.new ≡ self.old) }
        ensures held { IsSome (map.get self.old command.now.name) → IsOk result }
        ensures range { IsCommand command.now }
    {
        read_ranges(command);
        Ok(self.commands.insert(command.name, command.payload)?)
    }

    /// The payloads of the tick, in order of player, then number. Takes logarithmic time, and then
    /// time and memory only for these payloads, so none for a tick that has none.
    pub fn at_tick(&self, alloc: Global, tick: u32) -> Result<Vec<Payload>, AllocError>
        ensures items { IfOk result (λ payloads. payloads.items ≡ payloads_at self.now tick) }
        ensures no_memory { payloads_at self.now tick ≡ [] → IsOk result }
    {
        let commands = &self.commands;
        if tick >= MAX_TICK {
            return Ok(Vec::new(alloc));
        }
        let first = Name::new(tick, 0, 0);
        let last = Name::new(tick, PLAYERS - 1, u16::MAX);
        let mut payloads = Vec::new(alloc);
        for (_, payload) in commands.range(first..=last) {
            payloads.push(*payload)?;
        }
        Ok(payloads)
    }

    /// The greatest number that the map holds at the tick for the player. Takes logarithmic time.
    pub fn greatest(&self, tick: u32, player: u8) -> Option<u16>
        ensures held { IfSome result (λ number.
            IsSome (map.get self.now (name_at tick player number))) }
        ensures most { IfSome result (λ number. (other : ℕ)
            → IsSome (map.get self.now (name_at tick player other)) → other ≤ number) }
        ensures none { IfNone result ((number : ℕ)
            → map.get self.now (name_at tick player number) ≡ None) }
    {
        let commands = &self.commands;
        if tick >= MAX_TICK || player >= PLAYERS {
            return None;
        }
        let first = Name::new(tick, player, 0);
        let last = Name::new(tick, player, u16::MAX);
        let (name, _) = commands.range(first..=last).next_back()?;
        Some(name.number())
    }

    /// A map of the same commands. Takes time and memory for all of them.
    pub fn try_clone(&self) -> Result<CommandMap, AllocError>
        ensures { IfOk result (λ copy. copy ≡ self.now) }
    {
        let commands = self.commands.clone()?;
        Ok(CommandMap { commands })
    }

    /// Merges the other map into this one: under each name of either the payload of greater weight
    /// stays. Where nothing is new or greater this takes no memory and changes nothing; else it
    /// takes time and memory for all commands of this map. Out of memory leaves the map as it was.
    pub fn merge(&mut self, other: &CommandMap) -> Result<Merged, AllocError>
        ensures ok { OnOk result (self.new ≡ merge self.old other.now) }
        ensures count { IfOk result (λ merged. merged.count ≡ length (news self.old other.now)) }
        ensures least { IfOk result (λ merged.
            merged.least ≡ least_tick (news self.old other.now)) }
        ensures err { OnErr result (self.new ≡ self.old) }
        ensures same { news self.old other.now ≡ [] → self.new ≡ self.old }
        ensures no_memory { news self.old other.now ≡ [] → IsOk result }
    {
        let merged = self.news(other);
        if merged.count > 0 {
            let mut all = self.try_clone()?;
            all.put_all(other)?;
            *self = all;
        }
        Ok(merged)
    }

    /// The outcome of merging the other map. Takes logarithmic time for each of its commands, and
    /// no memory.
    fn news(&self, other: &CommandMap) -> Merged
        ensures { IsNewsOf self.now (map.entries other.now) result.count result.least }
    {
        let mut count = 0;
        let mut least = None;
        for (name, payload) in other.commands.iter() {
            let command = command_of(name, payload);
            if self.outcome(&command).is_change() {
                count += 1;
                least = Some(earlier(least, name.tick()));
            }
        }
        Merged { count, least }
    }

    /// Puts each command of the other map into this one.
    fn put_all(&mut self, other: &CommandMap) -> Result<(), AllocError>
        ensures { OnOk result (self.new ≡ merge self.old other.now) }
    {
        for (name, payload) in other.commands.iter() {
            let command = command_of(name, payload);
            self.put(&command)?;
        }
        Ok(())
    }

    /// Drops the commands of the ticks before this one. Takes time for all commands of the map, and
    /// no memory.
    pub fn drop_before(&mut self, tick: u32)
        ensures { self.new ≡ commands_from tick self.old }
    {
        self.commands.retain(|name, _| name.tick() >= tick);
    }

    /// Whether no command of the map is for a tick before this one. Takes logarithmic time, and no
    /// memory.
    pub fn is_from(&self, tick: u32) -> bool
        ensures { result ≡ is_from tick self.now }
    {
        match self.iter().next() {
            None => true,
            Some((first, _)) => first.tick() >= tick,
        }
    }

    /// Whether the scene allows each command: the error of the first one, in order of their names,
    /// that it does not allow. Takes no memory.
    pub fn check_all(&self, scene: &Scene) -> Result<(), CheckFault>
        ensures { result ≡ check_all scene.now (map.entries self.now) }
    {
        let held = &self.commands;
        for (name, payload) in held.iter() {
            let command = command_of(name, payload);
            if let Err(fault) = check(scene, &command) {
                return Err(fault);
            }
        }
        Ok(())
    }
}

/// The command of an entry.
#[inline]
fn command_of(name: &Name, payload: &Payload) -> Command
    ensures { result ≡ record { name = name.now; payload = payload.now } }
{
    Command {
        name: *name,
        payload: *payload,
    }
}

/// The lesser of two ticks, of which the first may be missing.
fn earlier(least: Option<u32>, tick: u32) -> u32
    ensures { result ≡ lesser_number tick least }
{
    match least {
        None => tick,
        Some(least) => tick.min(least),
    }
}
