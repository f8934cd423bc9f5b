//! The search for a level with room.

ghost use Rattle.std.specs.Prelude.{◌≡◌, ◌≤◌, ◌<◌, ◌+◌, ◌++◌, ◌⊎◌, ◌∷◌, [], IfOk, length, slice_index_or};
ghost use Rattle.pf_levels.specs.Links.{AreLinks};
ghost use Rattle.pf_levels.specs.declared.level.TheConstants.{WIDTH};

use crate::level::Level;
use std::alloc::AllocError;

/// The later level from which the search goes on behind a full one. If that is full too, it is
/// passed over from now on, so that each search halves the way of the next one (path halving, as in
/// a disjoint-set forest).
fn step(levels: &[Level], links: &mut [usize], number: usize) -> usize
    requires number { number < length levels.now }
    requires links { AreLinks (length levels.now) links.old }
    ensures later { number < result }
    ensures within { result ≤ length levels.now }
    ensures links { AreLinks (length levels.now) links.new }
{
    let next = links[number];
    if next < levels.len() && levels[next].is_full() {
        links[number] = links[next];
    }
    links[number]
}

/// A level from this one on that has room; behind the last one where none has. Since the links of a
/// level pass over full ones alone, it is the first such level (first fit).
fn open_level(levels: &[Level], links: &mut [usize], from: usize) -> usize
    requires from { from ≤ length levels.now }
    requires links { AreLinks (length levels.now) links.old }
    ensures least { from ≤ result }
    ensures within { result ≤ length levels.now }
    ensures room { result < length levels.now
        → length (slice_index_or levels.now result []) < WIDTH }
    ensures links { AreLinks (length levels.now) links.new }
{
    let mut number = from;
    while number < levels.len() && levels[number].is_full() {
        number = step(levels, links, number);
    }
    number
}

/// The number of a level from this one on that has room: the first one. One is added where none
/// has.
pub(crate) fn level_with_room(
    levels: &mut Vec<Level>,
    links: &mut Vec<usize>,
    from: usize,
) -> Result<usize, AllocError>
    requires from { from ≤ length levels.old.items }
    requires links { AreLinks (length levels.old.items) links.old.items }
    ensures least { IfOk result (λ number. from ≤ number) }
    ensures within { IfOk result (λ number. number < length levels.new.items) }
    ensures room { IfOk result (λ number.
        length (slice_index_or levels.new.items number []) < WIDTH) }
    ensures links { IfOk result (λ number.
        AreLinks (length levels.new.items) links.new.items) }
    ensures levels { IfOk result (λ number. (levels.new.items ≡ levels.old.items)
        ⊎ (levels.new.items ≡ levels.old.items ++ [] ∷ [])) }
{
    let number = open_level(levels, links, from);
    if number == levels.len() {
        levels.push(Level::new())?;
        links.push(number + 1)?;
    }
    Ok(number)
}
