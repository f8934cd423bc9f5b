//! Laws of abstract peers and of kept ticks. These functions compute nothing: their clauses are the
//! statements.

ghost use Rattle.std.specs.Prelude.{◌≡◌, ℕ, ◌+◌, ◌^◌, ◌≤◌, ◌<◌, ◌↔◌, List, Contains, Result, Ok, IsOk, IsSome};
ghost use Rattle.std.specs.FinMap.{empty, get};
ghost use Rattle.std.specs.List.Sorted.{IsStrictlyIncreasing};
ghost use Rattle.pf_shapes.specs.Scene.{IsScene, Scene};
ghost use Rattle.pf_commands.specs.declared.fault.FrameFault.{FrameFault};
ghost use Rattle.pf_commands.specs.declared.outcome.Put.{Put};
ghost use Rattle.pf_commands.specs.declared.payload.Command.{Command};
ghost use Rattle.pf_commands.specs.declared.payload.Payload.{Payload};
ghost use Rattle.pf_commands.specs.Frame.{decode};
ghost use Rattle.pf_commands.specs.Merge.{CommandMap, merge, name_at};
ghost use Rattle.pf_commands.specs.Name.{Name};
ghost use Rattle.pf_commands.specs.Payload.{IsPayload};
ghost use Rattle.pf_commands.specs.Ticks.{IsFrom, commands_before};
ghost use Rattle.pf_step.specs.Simulation.{sim};
ghost use Rattle.pf_step.specs.World.{World, start_world};
ghost use Rattle.pf_step.specs.Meter.{saturating_sum};
ghost use Rattle.pf_rollback.specs.Core.{count_after};
ghost use Rattle.pf_rollback.specs.Kept.{Ticks, last_tick, later_than, settled_tick, ticks_after_more, up_to};
ghost use Rattle.pf_rollback.specs.Horizon.{sim_at};
ghost use Rattle.pf_rollback.specs.Peer.{IsPeer, Peer, advance, issue, merge_map, merge_sealed, new_peer, next_command, next_number, seal, take, world_at};
ghost use Rattle.pf_rollback.specs.Sealing.{HasSealed};

use crate::peer::MAX_RING;
use crate::snapshots::KEYFRAME_INTERVAL;
use pf_commands::NUMBERS;

/// Peers of one scene that have the same horizon and the same world there, and hold the same
/// commands, show the same worlds at each tick that both have reached.
pub fn same_commands_same_worlds()
    ensures { (scene : Scene) (p q : Peer) (tick : ℕ)
        → p.horizon ≡ q.horizon → p.base ≡ q.base
        → ((name : Name) → get p.commands name ≡ get q.commands name)
        → tick ≤ p.reached → tick ≤ q.reached → world_at scene p tick ≡ world_at scene q tick }
{}

/// The simulation from a horizon of 0 and the start world is the one from tick zero.
pub fn unsealed_peers_simulate_from_tick_zero()
    ensures { (scene : Scene) (commands : CommandMap) (tick : ℕ)
        → sim_at scene (start_world scene) 0 commands tick ≡ sim scene commands tick }
{}

/// A seal changes no world that the peer can still show.
pub fn seals_change_no_shown_world()
    ensures { (scene : Scene) (p after : Peer) (tick later : ℕ)
        → seal scene p tick ≡ Ok (tt, after) → tick ≤ later
        → world_at scene after later ≡ world_at scene p later }
{}

/// Each world that a peer shows is the simulation from tick zero of what it has sealed and what it
/// holds. At first it has sealed nothing. A seal adds what the peer held before the tick that it
/// seals; what leaves the horizon and its world adds nothing.
pub fn shown_worlds_are_simulations_of_all_commands()
    ensures shown { (scene : Scene) (sealed : CommandMap) (p : Peer) (tick : ℕ) (world : World)
        → HasSealed scene sealed p → world_at scene p tick ≡ Ok world
        → world ≡ sim scene (merge sealed p.commands) tick }
    ensures none { (scene : Scene) (player : ℕ)
        → HasSealed scene empty (new_peer scene player) }
    ensures sealed { (scene : Scene) (sealed : CommandMap) (p after : Peer) (tick : ℕ)
        → HasSealed scene sealed p → seal scene p tick ≡ Ok (tt, after)
        → HasSealed scene (merge sealed (commands_before tick p.commands)) after }
    ensures kept { (scene : Scene) (sealed : CommandMap) (p after : Peer)
        → HasSealed scene sealed p → after.horizon ≡ p.horizon → after.base ≡ p.base
        → IsFrom after.horizon after.commands → HasSealed scene sealed after }
{}

/// No other call changes what a peer has sealed.
pub fn other_calls_seal_nothing()
    ensures taken { (scene : Scene) (sealed : CommandMap) (p after : Peer)
        (decoded : Result Command FrameFault) (outcome : Put) → HasSealed scene sealed p
        → take scene p decoded ≡ Ok (outcome, after) → HasSealed scene sealed after }
    ensures issued { (scene : Scene) (sealed : CommandMap) (p after : Peer) (payload : Payload)
        (frame : List ℕ) → HasSealed scene sealed p
        → issue scene p payload ≡ Ok (frame, after) → HasSealed scene sealed after }
    ensures merged { (scene : Scene) (sealed : CommandMap) (p after : Peer) (other : CommandMap)
        (count : ℕ) → HasSealed scene sealed p
        → merge_map scene p other ≡ Ok (count, after) → HasSealed scene sealed after }
    ensures merged_sealed { (scene : Scene) (sealed : CommandMap) (p after : Peer) (horizon : ℕ)
        (base : World) (other : CommandMap) (count : ℕ) → HasSealed scene sealed p
        → merge_sealed scene p horizon base other ≡ Ok (count, after)
        → HasSealed scene sealed after }
    ensures advanced { (scene : Scene) (sealed : CommandMap) (p after : Peer) (ticks tick : ℕ)
        → HasSealed scene sealed p → advance p ticks ≡ Ok (tick, after)
        → HasSealed scene sealed after }
{}

/// What a peer issues, each peer of its scene can take whose horizon is not after the command's
/// tick: the frame that is returned encodes the command, and taking the command is not refused.
pub fn issued_commands_can_be_taken()
    ensures encoded { (scene : Scene) (p after : Peer) (payload : Payload) (frame : List ℕ)
        → IsScene scene → IsPeer p → IsPayload payload
        → issue scene p payload ≡ Ok (frame, after)
        → decode frame ≡ Ok (next_command p payload) }
    ensures taken { (scene : Scene) (p after other : Peer) (payload : Payload) (frame : List ℕ)
        → issue scene p payload ≡ Ok (frame, after) → other.horizon ≤ p.reached
        → IsOk (take scene other (Ok (next_command p payload))) }
{}

/// The number of a peer's next command is above each number that is held at its tick for its
/// player, and where it is not 0 the number before it is held: so it is 0, or one more than the
/// greatest.
pub fn numbers_follow_the_greatest()
    ensures above { (m : CommandMap) (tick player number : ℕ) → number < NUMBERS
        → IsSome (get m (name_at tick player number)) → number < next_number m tick player }
    ensures before { (m : CommandMap) (tick player number : ℕ)
        → next_number m tick player ≡ number + 1 → IsSome (get m (name_at tick player number)) }
{}

/// A tick is kept up to another one exactly where it was kept and is not above that one.
pub fn dropping_keeps_earlier_ticks()
    ensures { (ticks : List ℕ) (last tick : ℕ)
        → Contains (up_to last ticks) tick ↔ (Contains ticks tick × (tick ≤ last)) }
{}

/// A tick is kept after a seal of another one exactly where it was kept and is later.
pub fn sealing_keeps_later_ticks()
    ensures { (ticks : List ℕ) (tick later : ℕ)
        → Contains (later_than tick ticks) later ↔ (Contains ticks later × (tick < later)) }
{}

/// The last tick of a rising list is its greatest.
#[tactic(auto, using(crate::proofs::Rising::last_greatest))]
pub fn last_ticks_are_greatest()
    ensures { (ticks : List ℕ) (tick : ℕ) → IsStrictlyIncreasing ticks → Contains ticks tick
        → tick ≤ last_tick ticks }
{}

/// After so many more ticks are settled, the settled tick is so many ticks later.
pub fn settling_goes_on_tick_by_tick()
    ensures { (k : Ticks) (more : ℕ) → 0 < k.ring
        → settled_tick (ticks_after_more k more) ≡ settled_tick k + more }
{}

/// A count that fits its type counts each tick once, up to 2^64 - 1.
pub fn counts_are_saturated_sums()
    ensures { (count more : ℕ) → count < 2 ^ 64
        → count_after count more ≡ saturating_sum count more }
{}

/// Keyframes are 256 ticks apart, and a ring has at most 64 places.
pub fn named_limits()
    ensures keyframes { KEYFRAME_INTERVAL ≡ 256 }
    ensures ring { MAX_RING ≡ 64 }
{}
