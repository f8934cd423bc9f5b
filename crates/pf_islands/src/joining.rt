//! Islands put back into their world.

ghost use Rattle.std.specs.Prelude.{◌≡◌, ◌<◌, All, fold, length, slice_set};
ghost use Rattle.std.specs.List.{zip};
ghost use Rattle.pf_cache.specs.ContactRows.{AreRowsAt};
ghost use Rattle.pf_islands.specs.Join.{IsAtHome, joined_bodies, joined_contacts};

use crate::island::Island;
use pf_cache::Contacts;
use pf_shapes::BodyState;

/// Writes each state to the body of its number.
#[inline]
fn put_states(bodies: &mut [BodyState], numbers: &[usize], states: &[BodyState])
    requires numbers { All (λ n. n < length bodies.old) numbers.now }
    requires states { length states.now ≡ length numbers.now }
    ensures { bodies.new
        ≡ fold (λ bs m. slice_set bs m.0 m.1) bodies.old (zip numbers.now states.now) }
{
    for (place, number) in numbers.iter().enumerate() {
        bodies[*number] = states[place];
    }
}

/// Puts islands back into their world: each state to the body of its number, and what each contact
/// has accumulated to the contact at its place. The others stay as they are. Takes no memory.
#[inline(never)]
pub fn join_back(islands: &[Island], bodies: &mut [BodyState], contacts: &mut Contacts)
    requires bodies { All (IsAtHome (length bodies.old)) islands.now }
    requires contacts { All (λ i. AreRowsAt contacts.old i.rows) islands.now }
    ensures bodies { bodies.new ≡ joined_bodies islands.now bodies.old }
    ensures contacts { contacts.new ≡ joined_contacts islands.now contacts.old }
{
    for island in islands {
        put_states(bodies, island.numbers.as_slice(), island.bodies.as_slice());
        contacts.store_impulses(&island.rows);
    }
}
