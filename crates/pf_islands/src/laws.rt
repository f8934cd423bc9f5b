//! Laws of groups. These functions compute nothing: their clauses are the statements.

ghost use Rattle.std.specs.Prelude.{◌≡◌, ◌≤◌, ℕ, ◌↔◌, All, List, Some, true, false, length, map};
ghost use Rattle.std.specs.Prelude.{slice_get, slice_index};
ghost use Rattle.pf_shapes.specs.Body.{BodyState};
ghost use Rattle.pf_shapes.specs.Scene.{Scene};
ghost use Rattle.pf_manifold.specs.Key.{AreTouches, IsRising, key_of};
ghost use Rattle.pf_manifold.specs.Touches.{IsTouchOf, Touch};
ghost use Rattle.pf_cache.specs.Contact.{AreContacts, Contact};
ghost use Rattle.pf_rows.specs.Row.{AreRows, Row};
ghost use Rattle.pf_cache.specs.ContactRows.{AreRowsAt};
ghost use Rattle.pf_islands.specs.Island.{rows_among};
ghost use Rattle.pf_islands.specs.Laws.{HasBody, HasRow, HaveOwnBodies, HaveOwnContacts, HoldsRow};
ghost use Rattle.pf_islands.specs.Laws.{active_bodies, islands_of, rows_of};
ghost use Rattle.pf_islands.specs.Join.{IsAtHome, joined_bodies, joined_contacts};
ghost use Rattle.pf_islands.specs.Split.{Island};
ghost use Rattle.pf_islands.specs.Reach.{Reaches};
ghost use Rattle.pf_islands.specs.Group.{group, groups};
ghost use Rattle.pf_islands.specs.Sleep.{bodies_after_sleep, woken_bodies};

/// Two bodies are in one group exactly where a chain of contacts leads from one to the other. The
/// label of a group is its least body.
pub fn groups_are_connected()
    ensures connected { (s : Scene) (touches : List Touch) (a b : ℕ)
        → Reaches s touches a b ↔ (group s touches a ≡ group s touches b) }
    ensures member { (s : Scene) (touches : List Touch) (i : ℕ)
        → Reaches s touches i (group s touches i) }
    ensures least { (s : Scene) (touches : List Touch) (i j : ℕ)
        → Reaches s touches i j → group s touches i ≤ j }
{}

/// After the phase Activity a body is awake exactly where a chain leads from it to a body that was
/// awake before.
pub fn active_bodies_reach_awake_ones()
    ensures { (s : Scene) (touches : List Touch) (bodies : List BodyState) (i : ℕ) (b : BodyState)
        → length bodies ≡ length s.fixtures
        → slice_get (woken_bodies (groups s touches) bodies) i ≡ Some b
        → (b.awake ≡ true) ↔ ((j : ℕ) × (c : BodyState) × (slice_get bodies j ≡ Some c)
        × (c.awake ≡ true) × Reaches s touches i j) }
{}

/// An awake body goes to sleep exactly where each body that a chain leads to has a full timer.
pub fn groups_sleep_as_wholes()
    ensures { (s : Scene) (touches : List Touch) (bodies : List BodyState) (full i : ℕ)
        (b after : BodyState) → length bodies ≡ length s.fixtures
        → slice_get bodies i ≡ Some b → b.awake ≡ true
        → slice_get (bodies_after_sleep full (groups s touches) bodies) i ≡ Some after
        → (after.awake ≡ false) ↔ ((j : ℕ) (c : BodyState) → slice_get bodies j ≡ Some c
        → Reaches s touches i j → c.timer ≡ full) }
{}

/// The islands of a tick have each body that is simulated, awake and else as it was, and no other
/// body. Two bodies are in one island exactly where a chain of contacts leads from one to the
/// other, so no body is in two. The islands are in the order of their least bodies, and the bodies
/// of each in that of their numbers.
pub fn islands_have_each_simulated_body()
    ensures others { (s : Scene) (touches : List Touch) (bodies : List BodyState)
        (contacts : List Contact) (k n : ℕ) (b : BodyState) → length bodies ≡ length s.fixtures
        → HasBody (islands_of s touches bodies contacts) k n b
        → (slice_get (active_bodies s touches bodies) n ≡ Some b) × (b.awake ≡ true) }
    ensures whole { (s : Scene) (touches : List Touch) (bodies : List BodyState)
        (contacts : List Contact) (n : ℕ) (b : BodyState) → length bodies ≡ length s.fixtures
        → slice_get (active_bodies s touches bodies) n ≡ Some b → b.awake ≡ true
        → (k : ℕ) × HasBody (islands_of s touches bodies contacts) k n b }
    ensures together { (s : Scene) (touches : List Touch) (bodies : List BodyState)
        (contacts : List Contact) (k l m n : ℕ) (b c : BodyState)
        → length bodies ≡ length s.fixtures
        → HasBody (islands_of s touches bodies contacts) k m b
        → HasBody (islands_of s touches bodies contacts) l n c
        → (k ≡ l) ↔ Reaches s touches m n }
    ensures order { (s : Scene) (touches : List Touch) (bodies : List BodyState)
        (contacts : List Contact)
        → IsRising 0 (map (λ i. slice_index i.numbers 0) (islands_of s touches bodies contacts))
        × All (λ i. IsRising 0 i.numbers) (islands_of s touches bodies contacts) }
{}

/// The islands of a tick have each contact that is simulated, and each in exactly one island; they
/// have no other contact. The contacts of an island are in the order of their keys.
pub fn islands_have_each_simulated_contact()
    ensures whole { (s : Scene) (touches : List Touch) (bodies : List BodyState)
        (contacts : List Contact) → length bodies ≡ length s.fixtures
        → All (IsTouchOf (length bodies)) touches
        → All (λ r. (k : ℕ) × HasRow (islands_of s touches bodies contacts) k r)
        (rows_of s touches bodies contacts) }
    ensures once { (s : Scene) (touches : List Touch) (bodies : List BodyState)
        (contacts : List Contact) → length bodies ≡ length s.fixtures
        → All (IsTouchOf (length bodies)) touches
        → All (λ r. (k l : ℕ) → HasRow (islands_of s touches bodies contacts) k r
        → HasRow (islands_of s touches bodies contacts) l r → k ≡ l)
        (rows_of s touches bodies contacts) }
    ensures others { (s : Scene) (touches : List Touch) (bodies : List BodyState)
        (contacts : List Contact) → All (λ i. i.rows ≡ rows_among i.numbers
        (rows_of s touches bodies contacts)) (islands_of s touches bodies contacts) }
    ensures order { (s : Scene) (touches : List Touch) (bodies : List BodyState)
        (contacts : List Contact) → AreTouches touches
        → All (λ i. AreRows i.rows) (islands_of s touches bodies contacts) }
{}

/// Islands that are put back into their world, no body and no contact in two of them: each body has
/// the state that it has in its island, each contact has accumulated what it has there, and the
/// others stay as they are.
pub fn islands_go_home()
    ensures bodies { (islands : List Island) (bodies : List BodyState) (k n : ℕ) (b : BodyState)
        → All (IsAtHome (length bodies)) islands → All (λ i. IsRising 0 i.numbers) islands
        → HaveOwnBodies islands → HasBody islands k n b
        → slice_get (joined_bodies islands bodies) n ≡ Some b }
    ensures other_bodies { (islands : List Island) (bodies : List BodyState) (n : ℕ)
        → ((k : ℕ) (b : BodyState) → HasBody islands k n b → ⊥)
        → slice_get (joined_bodies islands bodies) n ≡ slice_get bodies n }
    ensures contacts { (islands : List Island) (contacts : List Contact) (k : ℕ) (r : Row)
        → All (λ i. AreRowsAt contacts i.rows) islands → HaveOwnContacts islands
        → HoldsRow islands k r
        → slice_get (joined_contacts islands contacts) r.entry.place
        ≡ Some (record { key = key_of r.entry.touch; impulses = r.entry.impulses }) }
    ensures other_contacts { (islands : List Island) (contacts : List Contact) (place : ℕ)
        (c : Contact) → AreContacts contacts → All (λ i. AreRowsAt contacts i.rows) islands
        → slice_get contacts place ≡ Some c
        → ((k : ℕ) (r : Row) → HoldsRow islands k r → key_of r.entry.touch ≡ c.key → ⊥)
        → slice_get (joined_contacts islands contacts) place ≡ Some c }
{}
