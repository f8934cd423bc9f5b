//! Laws of simulations. These functions compute nothing: their clauses are the statements.

ghost use Rattle.std.specs.Prelude.{◌≡◌, ◌≢◌, ◌⊎◌, ◌∷◌, ◌++◌, ℕ, ℤ, ◌+◌, ◌-◌, ◌≤◌, ◌<◌, pos, true, false, Some, All, List, length, map, slice_get};
ghost use Rattle.pf_rot.specs.Vector.{zero_vector};
ghost use Rattle.pf_rot.specs.Laws.{IsAtMostOne};
ghost use Rattle.pf_shapes.specs.Body.{BodyState};
ghost use Rattle.pf_shapes.specs.Fixture.{Fixture, is_static};
ghost use Rattle.pf_shapes.specs.Pair.{IsPairOf};
ghost use Rattle.pf_shapes.specs.Scene.{IsScene, Scene, is_static_at};
ghost use Rattle.pf_manifold.specs.Key.{key_of, rank};
ghost use Rattle.pf_manifold.specs.Touches.{Touch};
ghost use Rattle.pf_commands.specs.declared.payload.Payload.{Payload};
ghost use Rattle.pf_commands.specs.declared.payload.Payload.TheVariants.{Stop, Place};
ghost use Rattle.pf_commands.specs.Payload.{body_of};
ghost use Rattle.pf_commands.specs.Merge.{CommandMap, merge, payloads_at, singleton};
ghost use Rattle.pf_commands.specs.Name.{Name};
ghost use Rattle.pf_cache.specs.Contact.{AreContacts, impulses_at};
ghost use Rattle.pf_islands.specs.Sleep.{is_active, island_after_sleep};
ghost use Rattle.pf_solver.specs.Bodies.{is_still};
ghost use Rattle.pf_solver.specs.Alone.{seen_from};
ghost use Rattle.pf_islands.specs.Island.{states_of, rows_among, group_members};
ghost use Rattle.pf_solver.specs.Solve.{solved_batch};
ghost use Rattle.pf_step.specs.Changes.{BodyChange, bodies_before};
ghost use Rattle.pf_step.specs.Commands.{after_commands, apply};
ghost use Rattle.pf_step.specs.Activity.{batch_of_tick, labels_of_tick};
ghost use Rattle.pf_step.specs.Laws.{IsUndisturbed, IsWithinFriction, bodies_before_sleep, commanded_bodies};
ghost use Rattle.pf_step.specs.Simulation.{sim};
ghost use Rattle.pf_step.specs.Step.{step, touches_of_scene};
ghost use Rattle.pf_step.specs.World.{World};

use pf_solver::STILL_TICKS;

/// Commands that have the same payloads at each tick before `tick` make the same world at `tick`.
pub fn worlds_follow_earlier_commands()
    ensures { (scene : Scene) (commands others : CommandMap) (tick : ℕ)
        → ((t : ℕ) → t < tick → payloads_at commands t ≡ payloads_at others t)
        → sim scene commands tick ≡ sim scene others tick }
{}

/// A command for a tick changes no world at a tick up to that one.
pub fn commands_change_later_worlds()
    ensures { (scene : Scene) (commands : CommandMap) (name : Name) (payload : Payload) (tick : ℕ)
        → tick ≤ name.tick
        → sim scene (merge commands (singleton name payload)) tick ≡ sim scene commands tick }
{}

/// A body stays as it is at every later tick as long as no chain of contacts leads from it to an
/// awake body.
pub fn sleepers_stay()
    ensures { (scene : Scene) (commands : CommandMap) (tick later i : ℕ) (body : BodyState)
        → IsScene scene → slice_get (sim scene commands tick).bodies i ≡ Some body
        → ((t : ℕ) → tick ≤ t → t < tick + later
        → IsUndisturbed scene (commanded_bodies scene commands t) i)
        → slice_get (sim scene commands (tick + later)).bodies i ≡ Some body }
{}

/// The contacts of an undisturbed dynamic body keep their impulses: at a tick at which no chain
/// leads from it to an awake body, each contact point of it keeps what its key has accumulated.
pub fn contacts_of_sleepers_keep_their_impulses()
    ensures { (scene : Scene) (commands : CommandMap) (tick i place : ℕ) (body : BodyState)
        (t : Touch) → IsScene scene → is_static_at scene i ≡ false
        → let bodies = commanded_bodies scene commands tick in
        slice_get bodies i ≡ Some body → IsUndisturbed scene bodies i
        → slice_get (touches_of_scene scene bodies) place ≡ Some t → (t.a ≡ i) ⊎ (t.b ≡ i)
        → impulses_at (rank (key_of t)) (sim scene commands (tick + 1)).contacts
        ≡ impulses_at (rank (key_of t)) (sim scene commands tick).contacts }
{}

/// In each tick the bodies of a group, with the contacts that touch them, are solved alone as they
/// are in the one list of all bodies and contacts, bit for bit.
pub fn groups_are_solved_alone()
    ensures { (scene : Scene) (w : World) (payloads : List Payload) (label : ℕ)
        → length w.bodies ≡ length scene.fixtures
        → let batch = batch_of_tick scene w payloads in
        let numbers = group_members (labels_of_tick scene w payloads) label in
        solved_batch scene (states_of numbers batch.bodies) (rows_among numbers batch.rows)
        ≡ seen_from numbers (solved_batch scene batch.bodies batch.rows) }
{}

/// After a tick the bodies of a group that is simulated are as the group alone has them: solved
/// with only its contacts, and asleep where each of its own bodies has a full timer. The contacts
/// that touch them have accumulated what they accumulate there.
pub fn groups_go_through_ticks_alone()
    ensures bodies { (scene : Scene) (w : World) (payloads : List Payload) (label : ℕ)
        → length w.bodies ≡ length scene.fixtures
        → is_active (labels_of_tick scene w payloads)
        (after_commands scene.fixtures w.bodies payloads) label ≡ true
        → let batch = batch_of_tick scene w payloads in
        let numbers = group_members (labels_of_tick scene w payloads) label in
        let alone = solved_batch scene (states_of numbers batch.bodies)
        (rows_among numbers batch.rows) in
        states_of numbers (step scene w payloads).bodies
        ≡ island_after_sleep STILL_TICKS alone.bodies }
    ensures impulses { (scene : Scene) (w : World) (payloads : List Payload) (label : ℕ)
        → IsScene scene → length w.bodies ≡ length scene.fixtures
        → let batch = batch_of_tick scene w payloads in
        let numbers = group_members (labels_of_tick scene w payloads) label in
        let alone = solved_batch scene (states_of numbers batch.bodies)
        (rows_among numbers batch.rows) in
        All (λ r. impulses_at (rank (key_of r.entry.touch)) (step scene w payloads).contacts
        ≡ r.entry.impulses) alone.rows }
{}

/// A static body is at its start at each tick.
pub fn static_bodies_never_move()
    ensures { (scene : Scene) (commands : CommandMap) (tick i : ℕ) (body : BodyState)
        → IsScene scene → is_static_at scene i ≡ true
        → slice_get (sim scene commands tick).bodies i ≡ Some body
        → slice_get scene.starts i ≡ Some body }
{}

/// The contacts of a world are in the order of their keys, each key once. At each tick but the
/// first their keys are those of the contact points of the bodies after the commands of the tick
/// before it, and so of two bodies of the scene, the lesser first.
pub fn contacts_have_the_keys_of_touches()
    ensures order { (scene : Scene) (commands : CommandMap) (tick : ℕ) → IsScene scene
        → AreContacts (sim scene commands tick).contacts }
    ensures keys { (scene : Scene) (commands : CommandMap) (tick : ℕ)
        → map (λ c. c.key) (sim scene commands (tick + 1)).contacts
        ≡ map key_of (touches_of_scene scene (commanded_bodies scene commands tick)) }
    ensures bodies { (scene : Scene) (commands : CommandMap) (tick : ℕ) → IsScene scene
        → All (λ c. IsPairOf (length scene.fixtures) (record { a = c.key.a; b = c.key.b }))
        (sim scene commands (tick + 1)).contacts }
{}

/// In each world the accumulated normal impulse of a contact is not below 0, and its accumulated
/// tangent impulse is within the limit of friction.
pub fn impulses_are_within_friction()
    ensures { (scene : Scene) (commands : CommandMap) (tick : ℕ) → IsScene scene
        → All (λ c. IsWithinFriction scene c.key c.impulses) (sim scene commands tick).contacts }
{}

/// A command changes only its body, and no static body.
pub fn commands_change_one_body()
    ensures unmoved { (scene : Scene) (w : World) (p : Payload) (i : ℕ) (f : Fixture)
        → slice_get scene.fixtures i ≡ Some f → is_static f ≡ true
        → slice_get (apply scene w p).bodies i ≡ slice_get w.bodies i }
    ensures others { (scene : Scene) (w : World) (p : Payload) (i : ℕ) → body_of p ≢ i
        → slice_get (apply scene w p).bodies i ≡ slice_get w.bodies i }
{}

/// A stop leaves its body where it is, awake and without velocity and spin. The body is dynamic:
/// commands do not move static ones.
pub fn stops_leave_no_velocity()
    ensures { (scene : Scene) (w : World) (i : ℕ) (f : Fixture) (b : BodyState)
        → slice_get scene.fixtures i ≡ Some f → is_static f ≡ false
        → slice_get w.bodies i ≡ Some b
        → slice_get (apply scene w (Stop i)).bodies i ≡ Some (record b {
          velocity = zero_vector;
          spin = pos 0;
          timer = 0;
          awake = true;
        }) }
{}

/// A place leaves a dynamic body at the position of the command, awake, with velocity, spin and
/// timer 0. Its rotation stays.
pub fn places_put_their_body()
    ensures { (scene : Scene) (w : World) (i : ℕ) (x y : ℤ) (f : Fixture) (b : BodyState)
        → slice_get scene.fixtures i ≡ Some f → is_static f ≡ false
        → slice_get w.bodies i ≡ Some b
        → slice_get (apply scene w (Place i x y)).bodies i ≡ Some (record b {
          position = record { x = x; y = y };
          velocity = zero_vector;
          spin = pos 0;
          timer = 0;
          awake = true;
        }) }
{}

/// A body with timer n was still at the end of each of the last n ticks, and there were so many.
pub fn timers_count_still_ticks()
    ensures ticks { (scene : Scene) (commands : CommandMap) (tick i : ℕ) (b : BodyState)
        → IsScene scene → slice_get (sim scene commands tick).bodies i ≡ Some b → b.timer ≤ tick }
    ensures still { (scene : Scene) (commands : CommandMap) (tick i : ℕ) (b : BodyState)
        → IsScene scene → slice_get (sim scene commands tick).bodies i ≡ Some b
        → (k : ℕ) → k < b.timer
        → (c : BodyState) × (slice_get (sim scene commands (tick - k)).bodies i ≡ Some c)
        × (is_still c ≡ true) }
{}

/// A body that falls asleep was still for 32 ticks: its timer was at least 31, and it is still just
/// before the phase Sleep.
pub fn sleepers_were_still()
    ensures timer { (scene : Scene) (commands : CommandMap) (tick i : ℕ) (b c : BodyState)
        → slice_get (sim scene commands tick).bodies i ≡ Some b → b.awake ≡ true
        → slice_get (sim scene commands (tick + 1)).bodies i ≡ Some c → c.awake ≡ false
        → STILL_TICKS ≤ b.timer + 1 }
    ensures still { (scene : Scene) (commands : CommandMap) (tick i : ℕ) (b c d : BodyState)
        → slice_get (sim scene commands tick).bodies i ≡ Some b → b.awake ≡ true
        → slice_get (sim scene commands (tick + 1)).bodies i ≡ Some c → c.awake ≡ false
        → let before = bodies_before_sleep scene (sim scene commands tick)
        (payloads_at commands tick) in
        slice_get before i ≡ Some d → is_still d ≡ true }
{}

/// No rotation of a world has a part above 1, which the exact bounds of boxes rely on; nor has one
/// of worlds from starts that have none.
pub fn rotations_stay_at_most_one()
    ensures scenes { (scene : Scene) (commands : CommandMap) (tick : ℕ) → IsScene scene
        → All (λ b. IsAtMostOne b.rotation) (sim scene commands tick).bodies }
    ensures starts { (scene : Scene) (commands : CommandMap) (tick : ℕ)
        → All (λ b. IsAtMostOne b.rotation) scene.starts
        → All (λ b. IsAtMostOne b.rotation) (sim scene commands tick).bodies }
{}

/// Undoing changes gives a body the state that its first change noted, and a body without a change
/// stays as it is.
#[tactic(auto, using(crate::proofs::Changing::first_decides, crate::proofs::Changing::unchanged_stays))]
pub fn first_changes_decide()
    ensures first { (earlier later : List BodyChange) (c : BodyChange) (bodies : List BodyState)
        → All (λ e. e.number ≢ c.number) earlier → c.number < length bodies
        → slice_get (bodies_before (earlier ++ c ∷ later) bodies) c.number ≡ Some c.before }
    ensures others { (changes : List BodyChange) (bodies : List BodyState) (i : ℕ)
        → All (λ c. c.number ≢ i) changes
        → slice_get (bodies_before changes bodies) i ≡ slice_get bodies i }
{}
