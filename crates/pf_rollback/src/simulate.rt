//! Worlds that are simulated from kept ones.

ghost use Rattle.std.specs.Prelude.{◌≡◌, ◌≤◌, ◌<◌, ◌-◌, ℕ, [], length, IfOk, IsOk, OnErr, OnOk};
ghost use Rattle.pf_commands.specs.Merge.{payloads_at};
ghost use Rattle.pf_step.specs.World.{World};
ghost use Rattle.pf_rollback.specs.Core.{count_after};
ghost use Rattle.pf_rollback.specs.Kept.{nearest_tick};
ghost use Rattle.pf_rollback.specs.Snapshots.{IsKept, kept_world, ticks_of};

use crate::snapshots::Snapshots;
use pf_commands::CommandMap;
use pf_shapes::Scene;
use pf_step::{Work, World, step_on_one_thread};
use std::alloc::{AllocError, Global};

/// The world at a tick that is not before the horizon, simulated from the last kept world that is
/// not after it. The kept worlds are those of these commands.
pub(crate) fn simulate_from(
    alloc: Global,
    scene: &Scene,
    commands: &CommandMap,
    snapshots: &Snapshots,
    tick: u32,
    work: &mut Work,
) -> Result<World, AllocError>
    requires horizon { snapshots.now.horizon ≤ tick }
    requires bodies { length snapshots.now.base.bodies ≡ length scene.now.fixtures }
    requires worlds { (t : ℕ) (world : World) → IsKept snapshots.now t world
        → world ≡ kept_world scene.now commands.now snapshots.now t }
    ensures value { IfOk result (λ world.
        world ≡ kept_world scene.now commands.now snapshots.now tick) }
    ensures counted { let ticks = tick - nearest_tick (ticks_of snapshots.now) tick in
        OnOk result (work.new.meter.ticks ≡ count_after work.old.meter.ticks ticks) }
    ensures not_counted { let ticks = tick - nearest_tick (ticks_of snapshots.now) tick in
        OnErr result ((some : ℕ) × (some ≤ ticks)
        × (work.new.meter.ticks ≡ count_after work.old.meter.ticks some)) }
    ensures no_memory { snapshots.now.base.bodies ≡ [] → snapshots.now.base.contacts ≡ []
        → ((earlier : ℕ) → earlier < tick → payloads_at commands.now earlier ≡ [])
        → IsOk result }
{
    let (from, mut world) = snapshots.nearest(tick)?;
    for at in from..tick {
        let payloads = commands.at_tick(alloc, at)?;
        let changes = step_on_one_thread(alloc, scene, &mut world, &payloads, work)?;
        changes.lend(work);
    }
    Ok(world)
}
