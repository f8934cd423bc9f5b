//! Pairs of bodies whose enlarged bounds overlap, from tick to tick.

ghost use Rattle.std.specs.Prelude.{◌≡◌, ℕ, ◌<◌, ◌≤◌, false, filter, get_or, length, All, IfOk};
ghost use Rattle.pf_shapes.specs.Pair.{IsPairOf, is_before};
ghost use Rattle.pf_broad.specs.Pairs.{pairs};
ghost use Rattle.pf_broad.specs.Partners.{has_body, AreInOrder};
ghost use Rattle.pf_broad.specs.Enlarged.{has_one_of, pairs_without};

use crate::all_pairs::add_pairs;
use crate::partners::{add_later, add_overlapping};
use pf_shapes::{Bounds, MAX_BODIES, Pair};
use std::alloc::{AllocError, Global};

/// For each body whether it is one of `left`.
fn left_flags(alloc: Global, count: usize, left: &[u16]) -> Result<Vec<bool>, AllocError>
    requires { All (λ number. number < count) left.now }
    ensures count { IfOk result (λ flags. length flags.items ≡ count) }
    ensures each { IfOk result (λ flags. (k : ℕ) → k < count
        → get_or flags.items k false ≡ has_body left.now k) }
{
    let mut flags = Vec::with_capacity(alloc, count)?;
    flags.resize(count, false)?;
    for number in left {
        flags[usize::from(*number)] = true;
    }
    Ok(flags)
}

/// The pairs that have a body of `left`, in ascending order, by a test of each of these bodies with
/// all others.
#[inline(never)]
fn pairs_of_left(
    alloc: Global,
    enlarged: &[Bounds],
    left: &[u16],
    is_left: &[bool],
) -> Result<Vec<Pair>, AllocError>
    requires few { length enlarged.now ≤ MAX_BODIES }
    requires left { AreInOrder enlarged.now left.now }
    requires count { length is_left.now ≡ length enlarged.now }
    requires flags { (k : ℕ) → k < length enlarged.now
        → get_or is_left.now k false ≡ has_body left.now k }
    ensures { IfOk result
        (λ fresh. fresh.items ≡ filter (has_one_of left.now) (pairs enlarged.now)) }
{
    let mut fresh = Vec::new(alloc);
    let mut partners = Vec::new(alloc);
    for i in 0..enlarged.len() {
        partners.clear();
        if is_left[i] {
            add_later(&mut partners, enlarged, i)?;
        } else {
            add_overlapping(&mut partners, enlarged, i, left)?;
        }
        add_pairs(&mut fresh, i, &partners)?;
    }
    Ok(fresh)
}

/// The pairs by new enlarged bounds. Candidates without a body of `left` must be pairs still: they
/// are taken over. The pairs of `left` are searched for.
#[inline(never)]
pub(crate) fn merge(
    alloc: Global,
    candidates: &[Pair],
    enlarged: &[Bounds],
    left: &[u16],
) -> Result<Vec<Pair>, AllocError>
    requires few { length enlarged.now ≤ MAX_BODIES }
    requires candidates { All (IsPairOf (length enlarged.now)) candidates.now }
    requires left { AreInOrder enlarged.now left.now }
    requires others { pairs_without left.now candidates.now
        ≡ pairs_without left.now (pairs enlarged.now) }
    ensures { IfOk result (λ merged. merged.items ≡ pairs enlarged.now) }
{
    let is_left = left_flags(alloc, enlarged.len(), left)?;
    let fresh = pairs_of_left(alloc, enlarged, left, &is_left)?;
    let mut merged = Vec::with_capacity(alloc, candidates.len() + fresh.len())?;
    let mut i = 0;
    let mut next = 0;
    while i < candidates.len() {
        let pair = &candidates[i];
        if is_left[pair.a] | is_left[pair.b] {
            i += 1;
        } else if next < fresh.len() && fresh[next].is_before(pair) {
            merged.push_reserved(fresh[next]);
            next += 1;
        } else {
            merged.push_reserved(*pair);
            i += 1;
        }
    }
    merged.extend_from_slice(&fresh[next..])?;
    Ok(merged)
}
