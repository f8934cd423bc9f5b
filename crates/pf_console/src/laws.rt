//! Laws of texts. These functions compute nothing: their clauses are the statements.

ghost use Rattle.std.specs.Prelude.{◌≡◌, ℕ, ◌+◌, ◌≤◌, List, ◌++◌, length, Some, Result, Ok, map, All, option_map};
ghost use Rattle.std.specs.List.{flat_map};
ghost use Rattle.hex.specs.Hex.{encode_lower};
ghost use Rattle.pf_text.specs.Driver.{lines_output};
ghost use Rattle.pf_text.specs.Streams.{Transfer};
ghost use Rattle.pf_commands.specs.declared.payload.Command.{Command};
ghost use Rattle.pf_commands.specs.Frame.{IsFrameable, encoding};
ghost use Rattle.pf_shapes.specs.Scene.{Scene};
ghost use Rattle.pf_scripts.specs.declared.turn.Turn.{Turn};
ghost use Rattle.pf_sessions.specs.Session.{session_fault, session_results};
ghost use Rattle.pf_events.specs.declared.event.Event.{Event};
ghost use Rattle.pf_events.specs.Session as peers;
ghost use Rattle.pf_console.specs.declared.error.ProgramError.{ProgramError};
ghost use Rattle.pf_console.specs.declared.error.ProgramError.TheVariants.{Session};
ghost use Rattle.pf_console.specs.declared.phase.Phase.TheVariants.{Playing};
ghost use Rattle.pf_console.specs.Digits.{frame_of_digits};
ghost use Rattle.pf_console.specs.EventEncoding.{event_line, IsEncodable};
ghost use Rattle.pf_console.specs.Grammar.{IsLineOf};
ghost use Rattle.pf_console.specs.Laws.{AreLinesOf, NothingFailed, session_output};
ghost use Rattle.pf_console.specs.Run.{text_rules};
ghost use Rattle.pf_console.specs.Blocks.{fault_of, result_block};
ghost use Rattle.pf_console.specs.Scripts.{blocks_of, scripts_refusal};
ghost use Rattle.pf_console.specs.SessionText.{PlaysSession, session_text_of};
ghost use Rattle.pf_console.specs.Turns.{said_by};
ghost use Rattle.pf_console.specs.Text.{Runs, WritesPrefix, text_of};

use crate::phase::MAX_TEXT_PEERS;
use pf_shapes::PLAYERS;

/// Lines that each encode an event have the printed replies of the abstract session, and no error;
/// so have the lines of events.
pub fn event_lines_have_replies()
    ensures encoded { (number : ℕ) (s : peers.Session) (lines : List (List ℕ)) (events : List Event)
        → AreLinesOf (length s.peers) lines events
        → lines_output text_rules number (Playing s) lines
        ≡ session_output (number + length lines) s events }
    ensures written { (number : ℕ) (s : peers.Session) (events : List Event)
        → length s.peers ≤ PLAYERS
        → All (IsEncodable (length s.peers)) events
        → lines_output text_rules number (Playing s) (map event_line events)
        ≡ session_output (number + length events) s events }
{}

/// The line of an event encodes the event.
pub fn event_lines_encode_events()
    ensures { (peers : ℕ) (event : Event) → peers ≤ PLAYERS → IsEncodable peers event
        → IsLineOf peers (event_line event) event }
{}

/// Whatever the crew, a run writes a prefix of the one text that belongs to its
/// input, and all of it where nothing failed. So two runs of one text in which nothing failed wrote
/// the same and ended alike.
pub fn runs_write_one_text()
    ensures prefix { (t : Transfer) (result : Result (Unit {0}) ProgramError) → Runs t result
        → WritesPrefix t (text_of t.input).written }
    ensures all { (t : Transfer) (result : Result (Unit {0}) ProgramError) → Runs t result
        → NothingFailed result → t.after ≡ Some (t.before ++ (text_of t.input).written) }
    ensures alike { (t u : Transfer) (first second : Result (Unit {0}) ProgramError)
        → Runs t first → Runs u second → NothingFailed first → NothingFailed second
        → t.input ≡ u.input → t.before ≡ u.before
        → (t.after ≡ u.after) × (first ≡ second) }
{}

/// Whatever its threads and crews, a session writes a prefix of the one text that belongs to its
/// input, and all of it where nothing failed. So two sessions of one text in which nothing failed
/// wrote the same and ended alike.
pub fn sessions_write_one_text()
    ensures prefix { (t : Transfer) (result : Result (Unit {0}) ProgramError)
        → PlaysSession t result
        → WritesPrefix t (session_text_of t.input).written }
    ensures all { (t : Transfer) (result : Result (Unit {0}) ProgramError) → PlaysSession t result
        → NothingFailed result → t.after ≡ Some (t.before ++ (session_text_of t.input).written) }
    ensures alike { (t u : Transfer) (first second : Result (Unit {0}) ProgramError)
        → PlaysSession t first → PlaysSession u second → NothingFailed first
        → NothingFailed second → t.input ≡ u.input → t.before ≡ u.before
        → (t.after ≡ u.after) × (first ≡ second) }
{}

/// The refusal in the scripts of a text, and the blocks, are what the peers of their session find:
/// its fault, as the program reports it, and what each peer holds and shows at the end.
pub fn texts_show_sessions()
    ensures refused { (s : Scene) (scripts : List (List Turn))
        → option_map fault_of (session_fault s 0 scripts)
        ≡ option_map Session (scripts_refusal s (map (map said_by) scripts)) }
    ensures shown { (s : Scene) (scripts : List (List Turn))
        → flat_map (result_block s.fixtures) (session_results s scripts)
        ≡ blocks_of (record { scene = s; scripts = map (map said_by) scripts }) }
{}

/// The digits of a command's frame, as `issue` prints them, parse as the command.
pub fn printed_frames_are_parsed()
    ensures { (c : Command) → IsFrameable c
        → frame_of_digits (encode_lower (encoding c)) ≡ Ok (Ok c) }
{}

/// How many peers a text may have.
pub fn named_limits()
    ensures { MAX_TEXT_PEERS ≡ 8 }
{}
