//! The slots of a tick's candidates, with the contact points that they had in the last tick.

ghost use Rattle.std.specs.Prelude.{◌≡◌, ◌≤◌, ◌<◌, ◌+◌, ◌++◌, ◌∷◌, [], ℕ, All, IfOk, IsTrue, None, drop, false, length, map, nat_lt, vec_capacity, vec_len};
ghost use Rattle.std.specs.List.{flat_map};
ghost use Rattle.pf_shapes.specs.Pair.{IsAscending, IsPairOf};
ghost use Rattle.pf_shapes.specs.declared.scene.TheConstants.{MAX_BODIES};
ghost use Rattle.pf_manifold.specs.Key.{IsRising};
ghost use Rattle.pf_cache.specs.Ranked.{element_at};
ghost use Rattle.pf_cache.specs.Slots.{carried_slot, pair_rank, slot_at, slot_touches};

use crate::slot::Slot;
use pf_shapes::{MAX_BODIES, Pair};
use std::alloc::{AllocError, Global};

/// The slots of a tick's candidates, carried over from those of the last tick.
#[derive(Drop)]
pub(crate) struct Carried {
    pub slots: Vec<Slot>,
    /// Whether all contact points are known to be there: no slot that is gone had some.
    pub has_all: bool,
}

/// Where a walk along slots has come to.
#[derive(Clone, Copy)]
struct Reached {
    /// The place.
    end: usize,
    /// Whether no slot that it has passed by has contact points.
    are_empty: bool,
}

/// Whether a pair is before another in ascending order, which is the order of their ranks.
#[inline]
fn has_lower_rank(first: &Pair, second: &Pair) -> bool
    requires first { IsPairOf MAX_BODIES first.now }
    requires second { IsPairOf MAX_BODIES second.now }
    ensures { result ≡ nat_lt (pair_rank first.now) (pair_rank second.now) }
{
    first.is_before(second)
}

/// The first place from `start` on whose pair is not before this one. Look-ups of this pair and of
/// later ones find from there on what they find from `start`.
#[inline]
fn advance_to(old: &[Slot], start: usize, pair: &Pair) -> Reached
    requires start { start ≤ length old.now }
    requires rising { IsRising 0 (map (λ s. pair_rank s.pair) old.now) }
    requires bodies { All (λ s. IsPairOf MAX_BODIES s.pair) old.now }
    requires pair { IsPairOf MAX_BODIES pair.now }
    ensures within { result.end ≤ length old.now }
    ensures same { (n : ℕ) → pair_rank pair.now ≤ n
        → element_at (λ s. pair_rank s.pair) n (drop result.end old.now)
        ≡ element_at (λ s. pair_rank s.pair) n (drop start old.now) }
    ensures reached { All (λ s. pair_rank pair.now ≤ pair_rank s.pair) (drop result.end old.now) }
    ensures empty { IsTrue result.are_empty → flat_map slot_touches (drop result.end old.now)
        ≡ flat_map slot_touches (drop start old.now) }
{
    let mut are_empty = true;
    let mut place = start;
    while place < old.len() {
        let slot = &old[place];
        if !has_lower_rank(slot.pair(), pair) {
            return Reached {
                end: place,
                are_empty,
            };
        }
        are_empty = are_empty & (slot.count() == 0);
        place += 1;
    }
    Reached {
        end: place,
        are_empty,
    }
}

/// Whether the slot of a pair stands at a place. No slot from there on is of a pair before it, so
/// there is none after this place.
#[inline]
fn stands_at(old: &[Slot], place: usize, pair: &Pair) -> bool
    requires place { place ≤ length old.now }
    requires rising { IsRising 0 (map (λ s. pair_rank s.pair) old.now) }
    requires bodies { All (λ s. IsPairOf MAX_BODIES s.pair) old.now }
    requires pair { IsPairOf MAX_BODIES pair.now }
    requires reached { All (λ s. pair_rank pair.now ≤ pair_rank s.pair) (drop place old.now) }
    ensures within { IsTrue result → place < length old.now }
    ensures pair { IsTrue result → (slot_at old.now place).pair ≡ pair.now }
    ensures none { result ≡ false
        → element_at (λ s. pair_rank s.pair) (pair_rank pair.now) (drop place old.now) ≡ None }
{
    if place >= old.len() {
        return false;
    }
    old[place].is_of(pair)
}

/// Adds the slot of a pair to a list, with the contact points of its old slot, if there is one: no
/// slot from `place` on is of a pair before it. Returns the place from which look-ups of later
/// pairs find what they find from `place`.
#[inline]
fn push_carried(slots: &mut Vec<Slot>, old: &[Slot], place: usize, pair: &Pair) -> usize
    requires room { vec_len slots.old < vec_capacity slots.old }
    requires place { place ≤ length old.now }
    requires rising { IsRising 0 (map (λ s. pair_rank s.pair) old.now) }
    requires bodies { All (λ s. IsPairOf MAX_BODIES s.pair) old.now }
    requires pair { IsPairOf MAX_BODIES pair.now }
    requires reached { All (λ s. pair_rank pair.now ≤ pair_rank s.pair) (drop place old.now) }
    ensures items { slots.new.items
        ≡ slots.old.items ++ carried_slot (drop place old.now) pair.now ∷ [] }
    ensures len { vec_len slots.new ≡ vec_len slots.old + 1 }
    ensures capacity { vec_capacity slots.new ≡ vec_capacity slots.old }
    ensures within { result ≤ length old.now }
    ensures later { (n : ℕ) → pair_rank pair.now < n
        → element_at (λ s. pair_rank s.pair) n (drop result old.now)
        ≡ element_at (λ s. pair_rank s.pair) n (drop place old.now) }
    ensures touches { slot_touches (carried_slot (drop place old.now) pair.now)
        ++ flat_map slot_touches (drop result old.now)
        ≡ flat_map slot_touches (drop place old.now) }
{
    if stands_at(old, place, pair) {
        slots.push_reserved(old[place].copied());
        place + 1
    } else {
        slots.push_reserved(Slot::empty(*pair));
        place
    }
}

/// Whether slots have no contact points.
fn are_empty(slots: &[Slot]) -> bool
    ensures { IsTrue result → flat_map slot_touches slots.now ≡ [] }
{
    for slot in slots {
        if slot.count() != 0 {
            return false;
        }
    }
    true
}

/// The slots of these pairs, each with the contact points that it has in the old slots.
#[inline(never)]
pub(crate) fn carried_slots(
    alloc: Global,
    old: &[Slot],
    pairs: &[Pair],
) -> Result<Carried, AllocError>
    requires rising { IsRising 0 (map (λ s. pair_rank s.pair) old.now) }
    requires bodies { All (λ s. IsPairOf MAX_BODIES s.pair) old.now }
    requires ascending { IsAscending pairs.now }
    requires pairs { All (IsPairOf MAX_BODIES) pairs.now }
    ensures slots { IfOk result
        (λ carried. carried.slots.items ≡ map (carried_slot old.now) pairs.now) }
    ensures all { IfOk result (λ carried. IsTrue carried.has_all
        → flat_map slot_touches carried.slots.items ≡ flat_map slot_touches old.now) }
{
    let mut slots = Vec::with_capacity(alloc, pairs.len())?;
    let mut place = 0;
    let mut has_all = true;
    for pair in pairs {
        let passed = advance_to(old, place, pair);
        has_all = has_all & passed.are_empty;
        place = push_carried(&mut slots, old, passed.end, pair);
    }
    has_all = has_all & are_empty(&old[place..]);
    Ok(Carried { slots, has_all })
}
