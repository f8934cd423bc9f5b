//! The slots that a tick looks at: those of bodies that may have moved, and of some that may have
//! moved in an earlier tick. The others keep their contact points.

ghost use Rattle.std.specs.Prelude.{◌≡◌, ◌<◌, ℕ, All, IfOk, IsTrue, false, get_or, length};
ghost use Rattle.pf_shapes.specs.Pair.{IsPairOf};
ghost use Rattle.pf_broad.specs.Partners.{has_body};
ghost use Rattle.pf_cache.specs.Live.{AreLive, AreWatched};

use crate::slot::{Slot, SlotPlace};
use std::alloc::{AllocError, Global};

/// The bodies that are watched, and the slots that have one of them.
#[derive(Debug, Drop)]
pub(crate) struct Live {
    /// For each body whether it is watched.
    pub watched: Vec<bool>,
    /// The places of the slots with a watched body, in the order of all slots.
    pub places: Vec<SlotPlace>,
    /// How many bodies may have moved in the tick in which these were chosen.
    pub chosen: usize,
}

impl Live {
    ghost use Rattle.std.specs.Prelude.{◌≡◌, ◌<◌, [], ℕ, All, IsTrue, false, get_or, length};
    ghost use Rattle.pf_broad.specs.Partners.{has_body};

    /// No body is watched. Takes no memory.
    pub(crate) fn new(alloc: Global) -> Live
        ensures watched { result.watched.items ≡ [] }
        ensures slots { result.places.items ≡ [] }
    {
        Live {
            watched: Vec::new(alloc),
            places: Vec::new(alloc),
            chosen: 0,
        }
    }

    /// Whether these serve a tick of `count` bodies in which those of `dirty` may have moved: all of
    /// them are watched, and they are at least half as many as when the watched ones were chosen.
    fn serves(&self, count: usize, dirty: &[usize]) -> bool
        requires { All (λ number. number < count) dirty.now }
        ensures count { IsTrue result → length self.now.watched.items ≡ count }
        ensures others { IsTrue result → (k : ℕ) → k < count
            → get_or self.now.watched.items k false ≡ false → has_body dirty.now k ≡ false }
    {
        if self.watched.len() != count || dirty.len() < self.chosen / 2 {
            return false;
        }
        for number in dirty {
            if !self.watched[*number] {
                return false;
            }
        }
        true
    }
}

/// The places of the slots with a watched body.
#[inline(never)]
fn live_places(
    alloc: Global,
    watched: &[bool],
    slots: &[Slot],
) -> Result<Vec<SlotPlace>, AllocError>
    requires { All (λ s. IsPairOf (length watched.now) s.pair) slots.now }
    ensures { IfOk result (λ live. AreLive watched.now live.items slots.now) }
{
    let mut live = Vec::new(alloc);
    let mut skipped = 0;
    for (place, slot) in slots.iter().enumerate() {
        let pair = *slot.pair();
        if watched[pair.a] | watched[pair.b] {
            live.push(SlotPlace { place, skipped })?;
            skipped = 0;
        } else {
            skipped += slot.count();
        }
    }
    Ok(live)
}

/// For each body whether it may have moved: it is one of these, or there were not as many bodies
/// before.
fn dirty_flags(
    alloc: Global,
    before: usize,
    count: usize,
    dirty: &[usize],
) -> Result<Vec<bool>, AllocError>
    requires { All (λ number. number < count) dirty.now }
    ensures count { IfOk result (λ flags. length flags.items ≡ count) }
    ensures others { IfOk result (λ flags. (k : ℕ) → k < count → get_or flags.items k false ≡ false
        → (before ≡ count) × (has_body dirty.now k ≡ false)) }
{
    let mut flags = Vec::with_capacity(alloc, count)?;
    flags.resize(count, before != count)?;
    for number in dirty {
        flags[*number] = true;
    }
    Ok(flags)
}

/// The bodies that are watched in a tick, and the slots that have one of them. There were `before`
/// bodies in the last tick, and there are `count` now; those of `dirty` may have moved. `kept` is
/// of the last tick: it serves again where the slots are the `same`.
pub(crate) fn live_of(
    alloc: Global,
    kept: Live,
    same: bool,
    slots: &[Slot],
    before: usize,
    count: usize,
    dirty: &[usize],
) -> Result<Live, AllocError>
    requires dirty { All (λ number. number < count) dirty.now }
    requires pairs { All (λ s. IsPairOf count s.pair) slots.now }
    requires kept { IsTrue same → AreLive kept.watched.items kept.places.items slots.now }
    ensures live { IfOk result (λ live. AreLive live.watched.items live.places.items slots.now) }
    ensures others { IfOk result (λ live. (k : ℕ) → k < count
        → get_or live.watched.items k false ≡ false
        → (before ≡ count) × (has_body dirty.now k ≡ false)) }
{
    if same && before == count && kept.serves(count, dirty) {
        return Ok(kept);
    }
    let watched = dirty_flags(alloc, before, count, dirty)?;
    let places = live_places(alloc, &watched, slots)?;
    Ok(Live {
        watched,
        places,
        chosen: dirty.len(),
    })
}

/// Whether each body whose flag is set is watched.
pub(crate) fn are_watched(watched: &[bool], flags: &[bool]) -> bool
    ensures { IsTrue result → AreWatched watched.now flags.now }
{
    if watched.len() != flags.len() {
        return false;
    }
    for (number, flag) in flags.iter().enumerate() {
        if *flag && !watched[number] {
            return false;
        }
    }
    true
}
