//! Laws of frames, of command maps and of checks. These functions compute nothing: their clauses
//! are the statements.

ghost use Rattle.std.specs.Prelude.{◌≡◌, ◌<◌, ◌^◌, IfSome, ◌↔◌, ◌≢◌, ℕ, List, [], ◌++◌, All, Contains, map, Some, None, Ok, Err, true, false, ◌≤◌, nat_le, if◌then◌else◌};
ghost use Rattle.std.specs.FinMap.{empty, get};
ghost use Rattle.pf_shapes.specs.Scene.{Scene};
ghost use Rattle.pf_commands.specs.Frame.{IsFrameable, Encodes, encoding};
ghost use Rattle.pf_commands.specs.Check.{check_all, IsAllowed, IsFirstError};
ghost use Rattle.pf_commands.specs.Name.{Name};
ghost use Rattle.pf_commands.specs.Payload.{weight, IsPayload};
ghost use Rattle.pf_commands.specs.Merge.{CommandMap, IsCommandMap, IsCommand, heaviest_of, merge, singleton, put_all, payloads_at};
ghost use Rattle.pf_commands.specs.Ticks.{commands_from, commands_before, is_from, IsFrom};
ghost use Rattle.pf_commands.specs.News.{is_news, news, least_tick, IsLeast};
ghost use Rattle.pf_commands.specs.declared.checking.CheckFault.{CheckFault};
ghost use Rattle.pf_commands.specs.declared.payload.Payload.{Payload};
ghost use Rattle.pf_commands.specs.declared.payload.Command.{Command};

use crate::name::{MAX_TICK, NUMBERS};

/// Each command in its ranges, with a body below 1,024, has one encoding; each encoding has one
/// command; and no encoding is a prefix of another.
pub fn commands_have_one_encoding()
    ensures each { (c : Command) → IsFrameable c → Encodes (encoding c) c }
    ensures same_bytes { (a b : List ℕ) (c : Command) → Encodes a c → Encodes b c → a ≡ b }
    ensures same_command { (a : List ℕ) (c d : Command) → Encodes a c → Encodes a d → c ≡ d }
    ensures no_prefix { (a rest : List ℕ) (c d : Command)
        → Encodes a c → Encodes (a ++ rest) d → rest ≡ [] }
{}

/// Merging is associative. With the next two laws: maps of commands are a join semilattice.
pub fn merge_is_associative()
    ensures { (first second third : CommandMap)
        → merge (merge first second) third ≡ merge first (merge second third) }
{}

/// Merging is commutative, for maps in range: `CommandMap::len` says of each map that it is.
pub fn merge_is_commutative()
    ensures { (left right : CommandMap) → IsCommandMap left → IsCommandMap right
        → merge left right ≡ merge right left }
{}

/// Merging is idempotent.
pub fn merge_is_idempotent()
    ensures same { (m : CommandMap) → merge m m ≡ m }
    ensures again { (m other : CommandMap) → merge (merge m other) other ≡ merge m other }
{}

/// Merging with the map of no commands changes nothing.
pub fn merge_with_empty()
    ensures right { (m : CommandMap) → merge m empty ≡ m }
    ensures left { (m : CommandMap) → merge empty m ≡ m }
{}

/// Lists of the same commands, put into a map in any order and with any repeats, make one map.
pub fn puts_in_any_order()
    ensures { (m : CommandMap) (commands others : List Command) → IsCommandMap m
        → All IsCommand commands
        → ((c : Command) → Contains commands c ↔ Contains others c)
        → put_all m commands ≡ put_all m others }
{}

/// Putting a list into a map is merging the map of the list.
pub fn puts_are_a_merge()
    ensures { (m : CommandMap) (commands : List Command)
        → put_all m commands ≡ merge m (put_all empty commands) }
{}

/// A command that is neither new nor greater changes nothing.
pub fn no_news_changes_nothing()
    ensures { (m : CommandMap) (name : Name) (payload : Payload)
        → is_news m (name, payload) ≡ false
        → merge m (singleton name payload) ≡ m }
{}

/// A command for one tick changes the payloads of no other.
pub fn put_keeps_other_ticks()
    ensures { (m : CommandMap) (name : Name) (payload : Payload) (tick : ℕ) → name.tick ≢ tick
        → payloads_at (merge m (singleton name payload)) tick ≡ payloads_at m tick }
{}

/// A merge changes the payloads of no tick before the least of its news, which `CommandMap::merge`
/// returns.
pub fn merge_keeps_earlier_ticks()
    ensures { (m other : CommandMap) (tick : ℕ)
        → IfSome (least_tick (news m other)) (λ least. tick < least)
        → payloads_at (merge m other) tick ≡ payloads_at m tick }
{}

/// The least tick of commands is the tick of one of them, and at most that of each.
pub fn least_ticks_are_least()
    ensures { (commands : List (Name × Payload)) (tick : ℕ)
        → (least_tick commands ≡ Some tick) ↔ IsLeast (map (λ e. e.0.tick) commands) tick }
{}

/// Under each name a merge holds the payload of greater weight of those that the two maps hold.
pub fn get_of_merge()
    ensures { (left right : CommandMap) (name : Name)
        → get (merge left right) name ≡ heaviest_of (get left name) (get right name) }
{}

/// Maps that hold the same payload under each name are equal.
pub fn same_gets_same_map()
    ensures { (left right : CommandMap)
        → ((name : Name) → get left name ≡ get right name) → left ≡ right }
{}

/// Maps in range are merged into a map in range.
pub fn merge_stays_in_range()
    ensures { (left right : CommandMap) → IsCommandMap left → IsCommandMap right
        → IsCommandMap (merge left right) }
{}

/// `commands_from tick m` holds the commands of m at this tick and later, and no others.
pub fn get_of_commands_from()
    ensures value { (m : CommandMap) (tick : ℕ) (name : Name)
        → get (commands_from tick m) name
        ≡ (if nat_le tick name.tick then get m name else None) }
    ensures range { (m : CommandMap) (tick : ℕ) → IsCommandMap m
        → IsCommandMap (commands_from tick m) }
{}

/// The commands before a tick and those from it on make up the map.
pub fn ticks_make_up_the_map()
    ensures { (m : CommandMap) (tick : ℕ)
        → merge (commands_before tick m) (commands_from tick m) ≡ m }
{}

/// Dropping the commands before a tick changes the payloads of neither that tick nor a later one.
pub fn drops_keep_later_ticks()
    ensures { (m : CommandMap) (tick later : ℕ) → tick ≤ later
        → payloads_at (commands_from tick m) later ≡ payloads_at m later }
{}

/// To drop the commands before a tick and to merge can be done in either order.
pub fn merge_from_a_tick()
    ensures { (left right : CommandMap) (tick : ℕ)
        → commands_from tick (merge left right)
        ≡ merge (commands_from tick left) (commands_from tick right) }
{}

/// A map has no command before a tick exactly where the test says so, and then dropping changes
/// nothing. After dropping it has none.
pub fn maps_from_a_tick()
    ensures test { (m : CommandMap) (tick : ℕ) → (is_from tick m ≡ true) ↔ IsFrom tick m }
    ensures dropped { (m : CommandMap) (tick : ℕ) → IsFrom tick (commands_from tick m) }
    ensures whole { (m : CommandMap) (tick : ℕ) → IsFrom tick m → commands_from tick m ≡ m }
{}

/// Payloads of one weight are one payload.
pub fn same_weight_same_payload()
    ensures { (p q : Payload) → IsPayload p → IsPayload q
        → weight p ≡ weight q → p ≡ q }
{}

/// Commands are allowed exactly where each one is, and else their error is that of the first one
/// that is not.
pub fn first_error_is_returned()
    ensures allowed { (scene : Scene) (commands : List (Name × Payload))
        → (check_all scene commands ≡ Ok tt) ↔ All (IsAllowed scene) commands }
    ensures fault { (scene : Scene) (commands : List (Name × Payload)) (fault : CheckFault)
        → (check_all scene commands ≡ Err fault) ↔ IsFirstError scene commands fault }
{}

/// The last tick, and how many commands a player can give at one tick.
pub fn named_limits()
    ensures tick { MAX_TICK ≡ 2 ^ 20 }
    ensures numbers { NUMBERS ≡ 2 ^ 16 }
{}
