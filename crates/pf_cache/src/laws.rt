//! Laws of contacts. These functions compute nothing: their clauses are the statements.

ghost use Rattle.std.specs.Prelude.{◌≡◌, ◌≢◌, ◌↔◌, ◌∷◌, ℕ, All, IsTrue, List, false, map, true};
ghost use Rattle.std.specs.List.{Contains};
ghost use Rattle.pf_shapes.specs.Pair.{Pair};
ghost use Rattle.pf_manifold.specs.PlacedShape.{PlacedShape};
ghost use Rattle.pf_manifold.specs.Touches.{Touch};
ghost use Rattle.pf_manifold.specs.Key.{Key, key_of, rank};
ghost use Rattle.pf_rows.specs.Impulses.{Impulses, no_impulses};
ghost use Rattle.pf_cache.specs.Contact.{AreContacts, Contact, impulses_at, next_contacts};
ghost use Rattle.pf_cache.specs.ContactRows.{with_rows};
ghost use Rattle.pf_cache.specs.ContactsChange.{ContactsChange, contacts_before, has_rank, may_change, noted_or};
ghost use Rattle.pf_cache.specs.Laws.{AreFoundByKey, IsNew, IsUnmoved};
ghost use Rattle.pf_cache.specs.Manifolds.{Manifolds, is_reusable, points_of_pair};
ghost use Rattle.pf_rows.specs.Row.{AreRows, Row, impulses_or};

use crate::meter::Meter;

/// Each contact of a list in the order of keys is found by its key, and a key that no contact has
/// has no impulses.
pub fn contacts_are_found()
    ensures found { (contacts : List Contact) → AreContacts contacts → AreFoundByKey contacts }
    ensures new { (k : Key) (contacts : List Contact) → IsNew k contacts
        → impulses_at (rank k) contacts ≡ no_impulses }
{}

/// A contact takes the impulses of the row of its key, whatever it had before; where no row has its
/// key, it keeps its own.
pub fn rows_are_found()
    ensures found { (own : Impulses) (rows : List Row) → AreRows rows
        → All (λ r. impulses_or own (rank (key_of r.entry.touch)) rows ≡ r.entry.impulses) rows }
    ensures none { (own : Impulses) (k : Key) (rows : List Row)
        → All (λ r. rank (key_of r.entry.touch) ≢ rank k) rows
        → impulses_or own (rank k) rows ≡ own }
{}

/// Of what is noted of a contact the first counts, and another contact keeps its own impulses.
pub fn first_notes_decide()
    ensures noted { (own : Impulses) (c : Contact) (noted : List Contact)
        → noted_or own (rank c.key) (c ∷ noted) ≡ c.impulses }
    ensures others { (own : Impulses) (n : ℕ) (noted : List Contact)
        → has_rank noted n ≡ false → noted_or own n noted ≡ own }
{}

/// Where the impulses of contacts may change, a change restores the contacts before whatever rows
/// store there.
pub fn stored_impulses_are_undone()
    ensures { (change : ContactsChange) (contacts : List Contact) (rows : List Row)
        → All (λ r. may_change change (rank (key_of r.entry.touch)) ≡ true) rows
        → contacts_before change (with_rows contacts rows) ≡ contacts_before change contacts }
{}

/// An update leaves exactly the keys of the points, in their order.
pub fn updates_have_the_keys_of_points()
    ensures { (old : List Contact) (touches : List Touch)
        → map (λ c. c.key) (next_contacts old touches) ≡ map key_of touches }
{}

/// The contact points of a pair can be reused exactly where the pair is one of those that are kept,
/// and each of its bodies has the same shape, position and rotation as then. They are its points
/// now.
pub fn reusable_points_are_of_unmoved_bodies()
    ensures reusable { (m : Manifolds) (shapes : List PlacedShape) (p : Pair)
        → IsTrue (is_reusable m shapes p) ↔ (Contains m.pairs p
        × IsUnmoved m.shapes shapes p.a × IsUnmoved m.shapes shapes p.b) }
    ensures points { (m : Manifolds) (shapes : List PlacedShape) (p : Pair)
        → IsTrue (is_reusable m shapes p) → points_of_pair m.shapes p ≡ points_of_pair shapes p }
{}

/// The meter of no work is zeros.
pub fn no_work() -> Meter
    ensures { result ≡ record { ticks = 0; collides = 0 } }
{
    Meter::NONE
}
