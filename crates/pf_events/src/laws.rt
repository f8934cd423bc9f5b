//! Laws of sessions. These functions compute nothing: their clauses are the statements.

ghost use Rattle.std.specs.Prelude.{◌≡◌, ◌↔◌, ℕ, ◌≤◌, ◌<◌, List, Result, Ok, false, length, All, Contains};
ghost use Rattle.std.specs.FinMap.{get};
ghost use Rattle.pf_commands.specs.declared.payload.Command.{Command};
ghost use Rattle.pf_commands.specs.declared.fault.FrameFault.{FrameFault};
ghost use Rattle.pf_commands.specs.Merge.{CommandMap, IsCommand, IsCommandMap, merge, put_all};
ghost use Rattle.pf_commands.specs.Name.{Name};
ghost use Rattle.pf_commands.specs.News.{is_change};
ghost use Rattle.pf_commands.specs.declared.outcome.Put.{Put};
ghost use Rattle.pf_step.specs.Simulation.{sim};
ghost use Rattle.pf_step.specs.World.{World};
ghost use Rattle.pf_rollback.specs.declared.error.Refusal.{Refusal};
ghost use Rattle.pf_rollback.specs.Sealing.{HasSealed};
ghost use Rattle.pf_events.specs.declared.event.Event.{Event};
ghost use Rattle.pf_events.specs.declared.event.Event.TheVariants.{Merge, Settle, Show, Take};
ghost use Rattle.pf_events.specs.declared.event.Reply.TheVariants.{Refused, Shown, Took};
ghost use Rattle.pf_events.specs.Laws.{IsAlike, IsAllowedPeer, commands_for};
ghost use Rattle.pf_events.specs.Session.{Session, peer_in, replies_to, reply_to, session_after, session_after_all};

use crate::session::RING;

/// After any list of events, seals among them, a world that a peer shows is the simulation from
/// tick zero of the commands that the peer had sealed and held before and of those that the events
/// brought to it, put together in whatever order they came. It shows each tick from its horizon to
/// the tick that it has reached. A new peer has sealed nothing, and its horizon is tick 0.
pub fn shown_worlds_are_simulated()
    ensures { (s : Session) (sealed : CommandMap) (events : List Event) (i tick : ℕ)
        → i < length s.peers → HasSealed s.scene sealed (peer_in s i)
        → (peer_in (session_after_all s events) i).horizon ≤ tick
        → tick ≤ (peer_in (session_after_all s events) i).reached
        → reply_to (session_after_all s events) (Show i tick)
        ≡ Shown i tick (sim s.scene
        (put_all (merge sealed (peer_in s i).commands) (commands_for s i events)) tick) }
{}

/// A refused event changes nothing, and so no later reply.
pub fn refused_events_change_nothing()
    ensures { (s : Session) (event : Event) (refusal : Refusal)
        → reply_to s event ≡ Refused refusal → session_after s event ≡ s }
{}

/// Sessions of one scene whose peers are alike, each to each, reply alike to all later events.
pub fn same_commands_same_replies()
    ensures { (s t : Session) (later : List Event) → s.scene ≡ t.scene
        → length s.peers ≡ length t.peers
        → ((i : ℕ) → i < length s.peers → IsAlike (peer_in s i) (peer_in t i))
        → replies_to s later ≡ replies_to t later }
{}

/// Lists of events that bring each peer the same commands, in any order and with any repeats, and
/// take it to the same horizon and the same tick, are followed by the same replies to all later
/// events, worlds among them.
pub fn order_and_repeats_do_not_matter()
    ensures { (s : Session) (sealed : ℕ → CommandMap) (events others later : List Event)
        → ((i : ℕ) → i < length s.peers → HasSealed s.scene (sealed i) (peer_in s i))
        → ((i : ℕ) → i < length s.peers
        → IsCommandMap (merge (sealed i) (peer_in s i).commands))
        → ((i : ℕ) → i < length s.peers → All IsCommand (commands_for s i events))
        → ((i : ℕ) → i < length s.peers → (c : Command)
        → Contains (commands_for s i events) c ↔ Contains (commands_for s i others) c)
        → ((i : ℕ) → i < length s.peers → (peer_in (session_after_all s events) i).horizon
        ≡ (peer_in (session_after_all s others) i).horizon)
        → ((i : ℕ) → i < length s.peers → (peer_in (session_after_all s events) i).reached
        ≡ (peer_in (session_after_all s others) i).reached)
        → replies_to (session_after_all s events) later
        ≡ replies_to (session_after_all s others) later }
{}

/// A settle changes no later reply.
pub fn settles_change_no_reply()
    ensures { (s : Session) (i : ℕ) (later : List Event)
        → replies_to (session_after s (Settle i)) later ≡ replies_to s later }
{}

/// A frame that is taken again changes no later reply, whatever happened in between, and its
/// command is no news. Nor does a map that is merged again from a peer that has not changed since,
/// by a peer that had the same horizon and the same world there.
pub fn repeats_change_no_reply()
    ensures taken { (s : Session) (i : ℕ) (frame : Result Command FrameFault)
        (between later : List Event) → i < length s.peers
        → let t = session_after_all (session_after s (Take i frame)) between in
        replies_to (session_after t (Take i frame)) later ≡ replies_to t later }
    ensures merged { (s : Session) (i j : ℕ) (between later : List Event) → i < length s.peers
        → (peer_in s i).horizon ≡ (peer_in s j).horizon → (peer_in s i).base ≡ (peer_in s j).base
        → let t = session_after_all (session_after s (Merge i j)) between in
        (peer_in t j).horizon ≡ (peer_in s j).horizon
        → (peer_in t j).base ≡ (peer_in s j).base
        → (peer_in t j).commands ≡ (peer_in s j).commands
        → replies_to (session_after t (Merge i j)) later ≡ replies_to t later }
    ensures no_news { (s : Session) (i : ℕ) (c : Command) (between : List Event) (put : Put)
        → i < length s.peers
        → let t = session_after_all (session_after s (Take i (Ok c))) between in
        reply_to t (Take i (Ok c)) ≡ Took i put → is_change put ≡ false }
{}

/// Two peers that have the same horizon and the same world there, and merge each other's commands,
/// hold the same commands.
/// `Session::core` ensures the premise on each peer of a session.
pub fn merging_both_ways_makes_maps_equal()
    ensures { (s : Session) (i j : ℕ) → i < length s.peers → j < length s.peers
        → IsAllowedPeer s.scene (peer_in s i) → IsAllowedPeer s.scene (peer_in s j)
        → (peer_in s i).horizon ≡ (peer_in s j).horizon → (peer_in s i).base ≡ (peer_in s j).base
        → let t = session_after (session_after s (Merge i j)) (Merge j i) in
        (peer_in t i).commands ≡ (peer_in t j).commands }
{}

/// Two peers that have the same horizon and the same world there, and hold the same commands, show
/// one world at a tick that is not before the horizon and that both have reached.
pub fn same_commands_show_one_world()
    ensures { (s : Session) (i j tick : ℕ)
        → (peer_in s i).horizon ≡ (peer_in s j).horizon → (peer_in s i).base ≡ (peer_in s j).base
        → ((name : Name) → get (peer_in s i).commands name ≡ get (peer_in s j).commands name)
        → (peer_in s i).horizon ≤ tick
        → tick ≤ (peer_in s i).reached → tick ≤ (peer_in s j).reached
        → (world : World) × (reply_to s (Show i tick) ≡ Shown i tick world)
        × (reply_to s (Show j tick) ≡ Shown j tick world) }
{}

/// Each peer of a session keeps 64 settled worlds beside its keyframes.
pub fn named_limits()
    ensures { RING ≡ 64 }
{}
