//! Snapshots: the worlds that a peer keeps, to simulate from where commands come late.

ghost use Rattle.std.specs.Prelude.{◌≡◌, ◌≤◌, ◌<◌, ◌-◌, ◌%◌, ◌==◌, [], ◌∷◌, ◌++◌, if◌then◌else◌, None, Some, IfOk, OnErr, OnOk, drop, length, nat_le, take, vec_len, vec_capacity};
ghost use Rattle.circular_buffer.specs.Buffer.{buffer};
ghost use Rattle.pf_rollback.specs.Snapshots.{last_world, taken_world, world_before_all, other_keyframes};

use circular_buffer::HeapCircularBuffer;
use pf_commands::Payload;
use pf_manifold::Collider;
use pf_shapes::Scene;
use pf_step::{Changes, Crew, StepError, Work, World, step_next};
use std::alloc::{AllocError, Global};
use std::marker::Model;

/// A keyframe is the world of a settled tick after the horizon that is a multiple of this. It is
/// kept until news of an earlier tick come, or that tick or a later one is sealed.
pub const KEYFRAME_INTERVAL: u32 = 256;

/// The world of the horizon; the settled world; in a ring, what each of the last settled ticks
/// changed, so that they can be undone; and a keyframe at each multiple of [`KEYFRAME_INTERVAL`]
/// after the horizon up to the settled tick.
///
/// Contracts see each world where it stands, and recent ones as undoing makes them; `ticks_of` and
/// `IsKept` say at which ticks they are kept.
#[derive(Drop)]
pub(crate) struct Snapshots {
    /// The tick before which no world is kept.
    horizon: u32,
    /// The world of the horizon: at first the start world.
    base: World,
    keyframes: Vec<World>,
    /// The world of the settled tick; None where that is the base or the last keyframe.
    latest: Option<World>,
    /// What each of the last settled ticks changed; the last is that of the settled tick.
    recent: HeapCircularBuffer<Changes>,
    settled: u32,
}

impl Model for Snapshots {
    ghost use Rattle.std.specs.Prelude.{◌-◌, vec_len, vec_capacity};
    ghost use Rattle.pf_rollback.specs.Snapshots.{IsSnapshots, Snapshots, last_world, worlds_after};

    ghost Value = { Snapshots };

    ghost view = { λ s. record {
      horizon = s.horizon;
      base = s.base;
      keyframes = s.keyframes.items;
      latest = s.latest;
      recent = worlds_after s.recent.items (last_world s.base s.keyframes.items s.latest);
      settled = s.settled;
      ring = s.recent.capacity;
      room = vec_capacity s.keyframes - vec_len s.keyframes;
    } };

    ghost invariant = { λ s. IsSnapshots (record {
      horizon = s.horizon;
      base = s.base;
      keyframes = s.keyframes.items;
      latest = s.latest;
      recent = worlds_after s.recent.items (last_world s.base s.keyframes.items s.latest);
      settled = s.settled;
      ring = s.recent.capacity;
      room = vec_capacity s.keyframes - vec_len s.keyframes;
    }) };
}

/// The world of the settled tick, which leaves its place, if it has one of its own; else a copy.
fn owned_latest(
    latest: &mut Option<World>,
    keyframes: &[World],
    base: &World,
) -> Result<World, AllocError>
    ensures value { IfOk result (λ world. world ≡ last_world base.now keyframes.now latest.old) }
    ensures ok { OnOk result (latest.new ≡ None) }
    ensures err { OnErr result (latest.new ≡ latest.old) }
{
    match latest.take() {
        Some(world) => Ok(world),
        None => keyframes.last().unwrap_or(base).try_clone(),
    }
}

/// Puts the world of a tick in its place: among the keyframes, if it is one; else apart. Takes no
/// memory.
fn place(keyframes: &mut Vec<World>, latest: &mut Option<World>, tick: u32, world: World)
    requires { vec_len keyframes.old < vec_capacity keyframes.old }
    ensures keyframes { keyframes.new.items ≡ (if tick % KEYFRAME_INTERVAL == 0
        then keyframes.old.items ++ world ∷ [] else keyframes.old.items) }
    ensures latest { latest.new ≡ (if tick % KEYFRAME_INTERVAL == 0 then None else Some world) }
{
    if tick % KEYFRAME_INTERVAL == 0 {
        keyframes.push_reserved(world);
        *latest = None;
    } else {
        *latest = Some(world);
    }
}

/// Lends the memory of changes, if there are any, to the next step with `work`.
fn lend(changes: Option<Changes>, work: &mut Work)
    ensures { work.new ≡ work.old }
{
    if let Some(changes) = changes {
        changes.lend(work);
    }
}

/// Takes the world of the settled tick out of its place: where it does not stand apart, out of the
/// keyframes.
fn take_latest(latest: &mut Option<World>, keyframes: &mut Vec<World>) -> Option<World>
    ensures value { result ≡ taken_world keyframes.old.items latest.old }
    ensures latest { latest.new ≡ None }
    ensures keyframes { keyframes.new.items ≡ other_keyframes keyframes.old.items latest.old }
{
    match latest.take() {
        Some(world) => Some(world),
        None => keyframes.pop(),
    }
}

/// Undoes the last changes in the world that they made. Takes no memory.
fn undo_last(recent: &mut HeapCircularBuffer<Changes>, count: usize, world: &mut World)
    requires { count ≤ length recent.old.items }
    ensures world { let left = length recent.old.items - count in
        world.new ≡ world_before_all (drop left recent.old.items) world.old }
    ensures recent { let left = length recent.old.items - count in
        recent.new ≡ buffer (take left recent.old.items) recent.old.capacity }
{
    for _ in 0..count {
        if let Some(changes) = recent.pop_back() {
            world.undo(changes);
        }
    }
}

/// Puts the world of a tick in its place, where its keyframe stands already, if it has one.
fn put_back(latest: &mut Option<World>, tick: u32, world: World)
    ensures { latest.new ≡ (if tick % KEYFRAME_INTERVAL == 0 then None else Some world) }
{
    if tick % KEYFRAME_INTERVAL == 0 {
        *latest = None;
    } else {
        *latest = Some(world);
    }
}

/// Drops the world of the settled tick that stands apart, if the settled tick is sealed.
fn drop_sealed(latest: &mut Option<World>, settled: u32, tick: u32)
    ensures { latest.new ≡ (if nat_le settled tick then None else latest.old) }
{
    if settled <= tick {
        *latest = None;
    }
}

impl Snapshots {
    ghost use Rattle.std.specs.Prelude.{◌≡◌, ◌≤◌, ◌<◌, ◌+◌, ◌-◌, ◌%◌, ◌⊎◌, ℕ, [], length, max, IfOk, IfSome, IsOk, OnErr, OnOk};
    ghost use Rattle.pf_commands.specs.declared.name.TheConstants.{MAX_TICK};
    ghost use Rattle.pf_step.specs.Activity.{islands_of_tick};
    ghost use Rattle.pf_step.specs.Step.{collisions_of_tick, step};
    ghost use Rattle.pf_step.specs.Stepping.{CallsCrew};
    ghost use Rattle.pf_shapes.specs.Scene.{Scene};
    ghost use Rattle.pf_step.specs.Work.{KnowsWorld, work_after_tick};
    ghost use Rattle.pf_step.specs.World.{World};
    ghost use Rattle.pf_rollback.specs.Kept.{AreRising, no_ticks, settled_tick, nearest_tick, ticks_after_news, ticks_after_seal, ticks_after_settling, ticks_up_to};
    ghost use Rattle.pf_rollback.specs.Snapshots.{ticks_of, settled_world, AreEmpty, IsKept, IsRecent};

    /// Only the start world, with a ring of so many places.
    pub(crate) fn new(alloc: Global, start: World, ring: usize) -> Result<Snapshots, AllocError>
        requires { 0 < ring }
        ensures ticks { IfOk result (λ s. ticks_of s ≡ no_ticks ring) }
        ensures base { IfOk result (λ s. (s.horizon ≡ 0) × (s.base ≡ start)) }
        ensures worlds { IfOk result (λ s. (tick : ℕ) (world : World)
            → IsKept s tick world → (tick ≡ 0) × (world ≡ start)) }
    {
        let recent = HeapCircularBuffer::with_capacity(alloc, ring)?;
        Ok(Snapshots {
            horizon: 0,
            base: start,
            keyframes: Vec::new(alloc),
            latest: None,
            recent,
            settled: 0,
        })
    }

    /// The greatest tick of a kept world.
    pub(crate) fn settled(&self) -> u32
        ensures value { result ≡ settled_tick (ticks_of self.now) }
        ensures rising { AreRising (ticks_of self.now) }
        ensures range { result ≤ MAX_TICK }
    {
        self.settled
    }

    /// The tick before which no world is kept.
    pub(crate) fn horizon(&self) -> u32
        ensures value { result ≡ self.now.horizon }
        ensures ticks { (ticks_of self.now).horizon ≡ self.now.horizon }
        ensures settled { result ≤ settled_tick (ticks_of self.now) }
        ensures sealed { ticks_after_seal result (ticks_of self.now) ≡ ticks_of self.now }
    {
        self.horizon
    }

    /// The world of the horizon.
    pub(crate) fn base(&self) -> &World
        ensures { result.now ≡ self.now.base }
    {
        &self.base
    }

    /// Makes room for one keyframe more. Out of memory changes nothing that is kept.
    pub(crate) fn reserve(&mut self) -> Result<(), AllocError>
        ensures room { OnOk result (0 < self.new.room) }
        ensures kept { self.new ≡ record self.old { room = self.new.room } }
    {
        self.keyframes.reserve(1)
    }

    /// Settles the tick after the settled one: steps its world in place, with the payloads of its
    /// commands, and keeps what that changed. What falls out of a full ring lends its memory to the
    /// next step with `work`. What `work` knows of dirty bodies is true of the settled world before
    /// and after. An error leaves all as it was.
    pub(crate) fn settle<P: Collider, C: Crew>(
        &mut self,
        collider: &P,
        alloc: Global,
        scene: &Scene,
        payloads: &[Payload],
        work: &mut Work,
        crew: &mut C,
    ) -> Result<(), StepError>
        requires can { P.can_collide collider.now }
        requires room { 0 < self.old.room }
        requires limit { settled_tick (ticks_of self.old) < MAX_TICK }
        requires world { (world : World) → IsKept self.old (settled_tick (ticks_of self.old)) world
            → length world.bodies ≡ length scene.now.fixtures }
        requires follows { KnowsWorld scene.now (settled_world self.old) work.old }
        ensures latest { let tick = settled_tick (ticks_of self.old) in
            IsKept self.old tick (settled_world self.old) }
        ensures ticks { OnOk result (ticks_of self.new
            ≡ ticks_after_settling (ticks_of self.old) (settled_tick (ticks_of self.old) + 1)) }
        ensures settled { OnOk result (settled_tick (ticks_of self.new)
            ≡ settled_tick (ticks_of self.old) + 1) }
        ensures base { (self.new.horizon ≡ self.old.horizon) × (self.new.base ≡ self.old.base) }
        ensures worlds { let next = step scene.now (settled_world self.old) payloads.now in
            OnOk result ((tick : ℕ) (w : World) → IsKept self.new tick w → IsKept self.old tick w
            ⊎ ((tick ≡ settled_tick (ticks_of self.old) + 1) × (w ≡ next))) }
        ensures err { OnErr result (self.new ≡ self.old) }
        ensures counted { let world = settled_world self.old in
            let found = collisions_of_tick scene.now world payloads.now work.old.manifolds in
            OnOk result (work.new ≡ work_after_tick found work.new.dirty work.old) }
        ensures not_counted { OnErr result (work.new.meter ≡ work.old.meter) }
        ensures follows { KnowsWorld scene.now (settled_world self.new) work.new }
        ensures crew { let world = settled_world self.old in
            let islands = islands_of_tick scene.now world payloads.now in
            CallsCrew C.is_called C.may_fail islands crew.old crew.new result }
    {
        let apart = self.latest.is_some();
        let mut world = owned_latest(&mut self.latest, &self.keyframes, &self.base)?;
        match step_next(collider, alloc, scene, &mut world, payloads, work, crew) {
            Ok(changes) => {
                lend(self.recent.push_back(changes), work);
                self.settled += 1;
                place(&mut self.keyframes, &mut self.latest, self.settled, world);
                Ok(())
            }
            Err(error) => {
                self.latest = apart.then_some(world);
                Err(error)
            }
        }
    }

    /// Drops each world after the least tick of news, if there are any, which is not before the
    /// horizon. What `work` knows of dirty bodies stays true of the settled world. Takes no memory.
    pub(crate) fn drop_after_news(&mut self, least: Option<u32>, work: &mut Work)
        requires { IfSome least (λ tick. self.old.horizon ≤ tick) }
        ensures base { (self.new.horizon ≡ self.old.horizon) × (self.new.base ≡ self.old.base) }
        ensures ticks { ticks_of self.new ≡ ticks_after_news least (ticks_of self.old) }
        ensures worlds { (t : ℕ) (world : World) → IsKept self.new t world
            → IsKept self.old t world × IfSome least (λ tick. t ≤ tick) }
        ensures lower { settled_tick (ticks_of self.new) ≤ settled_tick (ticks_of self.old) }
        ensures near { IfSome least (λ tick. tick ≤ settled_tick (ticks_of self.old)
            → tick < settled_tick (ticks_of self.new) + KEYFRAME_INTERVAL) }
        ensures meter { work.new.meter ≡ work.old.meter }
        ensures follows { (s : Scene) → KnowsWorld s (settled_world self.old) work.old
            → KnowsWorld s (settled_world self.new) work.new }
    {
        if let Some(tick) = least {
            self.drop_after(tick, work);
        }
    }

    /// Drops each world after a tick that is not before the horizon. If the settled world is one of
    /// them, `work` forgets which bodies may have moved. Takes no memory.
    fn drop_after(&mut self, tick: u32, work: &mut Work)
        requires { self.old.horizon ≤ tick }
        ensures base { (self.new.horizon ≡ self.old.horizon) × (self.new.base ≡ self.old.base) }
        ensures ticks { ticks_of self.new ≡ ticks_up_to tick (ticks_of self.old) }
        ensures worlds { (t : ℕ) (world : World) → IsKept self.new t world
            → IsKept self.old t world × (t ≤ tick) }
        ensures lower { settled_tick (ticks_of self.new) ≤ settled_tick (ticks_of self.old) }
        ensures near { tick ≤ settled_tick (ticks_of self.old)
            → tick < settled_tick (ticks_of self.new) + KEYFRAME_INTERVAL }
        ensures meter { work.new.meter ≡ work.old.meter }
        ensures follows { (s : Scene) → KnowsWorld s (settled_world self.old) work.old
            → KnowsWorld s (settled_world self.new) work.new }
    {
        if self.settled <= tick {
            return;
        }
        work.forget_dirty();
        let Some(mut world) = take_latest(&mut self.latest, &mut self.keyframes) else {
            unreachable!();
        };
        let later = (self.settled - tick) as usize;
        let keyframe = tick / KEYFRAME_INTERVAL;
        self.keyframes
            .truncate((keyframe - self.horizon / KEYFRAME_INTERVAL) as usize);
        if later < self.recent.len() {
            undo_last(&mut self.recent, later, &mut world);
            self.settled = tick;
            put_back(&mut self.latest, tick, world);
        } else {
            self.recent.clear();
            self.settled = self.horizon.max(keyframe * KEYFRAME_INTERVAL);
        }
    }

    /// Makes a tick the horizon, with this world. Each world up to it is dropped. Takes no memory.
    pub(crate) fn seal(&mut self, tick: u32, world: World)
        requires horizon { self.old.horizon ≤ tick }
        requires limit { tick ≤ MAX_TICK }
        ensures ticks { ticks_of self.new ≡ ticks_after_seal tick (ticks_of self.old) }
        ensures base { (self.new.horizon ≡ tick) × (self.new.base ≡ world) }
        ensures settled { settled_tick (ticks_of self.new)
            ≡ max tick (settled_tick (ticks_of self.old)) }
        ensures worlds { (t : ℕ) (w : World) → IsKept self.new t w
            → (IsKept self.old t w × (tick < t)) ⊎ ((t ≡ tick) × (w ≡ world)) }
    {
        let last = tick.min(self.settled);
        let gone = last / KEYFRAME_INTERVAL - self.horizon / KEYFRAME_INTERVAL;
        self.keyframes.drain(..gone as usize);
        self.recent.truncate_front((self.settled - last) as usize);
        drop_sealed(&mut self.latest, self.settled, tick);
        self.settled = self.settled.max(tick);
        self.horizon = tick;
        self.base = world;
    }

    /// A copy of the world of a recent tick: of the settled one, without what the ticks after it
    /// changed.
    fn recent_at(&self, tick: u32) -> Result<World, AllocError>
        requires low { tick ≤ self.now.settled }
        requires recent { self.now.settled - tick < length self.now.recent }
        ensures value { IfOk result (λ world. IsRecent self.now tick world) }
        ensures no_memory { AreEmpty self.now → IsOk result }
    {
        let mut world = self.latest().try_clone()?;
        let later = (self.settled - tick) as usize;
        for place in 0..later {
            if let Some(changes) = self.recent.nth_back(place) {
                world.undo_copied(changes)?;
            }
        }
        Ok(world)
    }

    /// A copy of the last kept world that is not after a tick, and its tick. Takes no memory where
    /// no kept world has a body or a contact.
    pub(crate) fn nearest(&self, tick: u32) -> Result<(u32, World), AllocError>
        requires { self.now.horizon ≤ tick }
        ensures low { IfOk result (λ found. self.now.horizon ≤ found.0) }
        ensures tick { IfOk result (λ found. found.0 ≡ nearest_tick (ticks_of self.now) tick) }
        ensures before { IfOk result (λ found. found.0 ≤ tick) }
        ensures kept { IfOk result (λ found. IsKept self.now found.0 found.1) }
        ensures no_memory { AreEmpty self.now → IsOk result }
    {
        let last = tick.min(self.settled);
        if ((self.settled - last) as usize) < self.recent.len() {
            return Ok((last, self.recent_at(last)?));
        }
        let keyframe = last / KEYFRAME_INTERVAL;
        let count = (keyframe - self.horizon / KEYFRAME_INTERVAL) as usize;
        if count == 0 {
            return Ok((self.horizon, self.base.try_clone()?));
        }
        let world = self.keyframes[count - 1].try_clone()?;
        Ok((keyframe * KEYFRAME_INTERVAL, world))
    }

    /// The world of the settled tick.
    pub(crate) fn latest(&self) -> &World
        ensures value { result.now ≡ settled_world self.now }
        ensures kept { IsKept self.now (settled_tick (ticks_of self.now)) result.now }
    {
        match &self.latest {
            Some(world) => world,
            None => self.keyframes.last().unwrap_or(&self.base),
        }
    }
}
