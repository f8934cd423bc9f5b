//! The broad phase that is kept from tick to tick.

use crate::all_pairs::all_pairs;
use crate::candidates::merge;
use crate::enlarged::{all_enlarged_bounds, left_bodies, refit};
use crate::grid::Grid;
use pf_shapes::{BodyState, Bounds, MAX_BODIES, Pair};
use std::alloc::{AllocError, Global};
use std::marker::Model;
use std::mem;

/// How many bodies may leave their enlarged bounds at once before all get new ones.
const MAX_LEFT: usize = 16;

/// What the broad phase keeps from tick to tick: enlarged bounds of all bodies, and as candidates
/// the pairs of bodies whose enlarged bounds overlap, as Box2D's `b2BroadPhase` does. It is sound
/// for every scene and world: the pairs of bodies whose bounds overlap are among the candidates.
///
/// Contracts see the enlarged bounds.
#[derive(Debug, Drop)]
pub struct BroadPhase {
    enlarged: Vec<Bounds>,
    candidates: Vec<Pair>,
}

impl Model for BroadPhase {
    ghost use Rattle.std.specs.Prelude.{List};
    ghost use Rattle.pf_shapes.specs.Bounds.{Bounds};
    ghost use Rattle.pf_broad.specs.Enlarged.{AreCandidates};

    ghost Value = { List Bounds };

    ghost view = { λ b. b.enlarged.items };

    ghost invariant = { λ b. AreCandidates b.enlarged.items b.candidates.items };
}

impl BroadPhase {
    ghost use Rattle.std.specs.Prelude.{◌≡◌, ◌≤◌, [], length, All, IfOk, IsTrue, OnErr, OnOk};
    ghost use Rattle.pf_shapes.specs.Bounds.{IsOrdered};
    ghost use Rattle.pf_shapes.specs.Pair.{IsAscending, IsPairOf};
    ghost use Rattle.pf_broad.specs.Pairs.{pairs};
    ghost use Rattle.pf_broad.specs.Partners.{AreBodies};
    ghost use Rattle.pf_broad.specs.Enlarged.{AreContained, AreEnlarged, left_bodies};

    /// Nothing kept. Takes no memory.
    pub fn new(alloc: Global) -> BroadPhase
        ensures { result ≡ [] }
    {
        BroadPhase {
            enlarged: Vec::new(alloc),
            candidates: Vec::new(alloc),
        }
    }

    /// The pairs of bodies, at most one of them static, whose enlarged bounds overlap: in ascending
    /// order, each once.
    #[inline]
    pub fn candidates(&self) -> &[Pair]
        ensures value { result.now ≡ pairs self.now }
        ensures ascending { IsAscending result.now }
        ensures bodies { All (IsPairOf (length self.now)) result.now }
        ensures few { length self.now ≤ MAX_BODIES }
    {
        self.candidates.as_slice()
    }

    /// Enlarged bounds that contain these, and their pairs. Bodies that are not in `dirty` must
    /// still be within their enlarged bounds. `bodies` decides only how far bounds are enlarged, by
    /// how fast each body moves. Where at most 16 bodies have left their enlarged bounds, only
    /// these get new ones, and only their pairs are searched for.
    ///
    /// Returns whether all is as it was. An error drops what is kept.
    pub fn update(
        &mut self,
        alloc: Global,
        bounds: &[Bounds],
        bodies: &[BodyState],
        dirty: &[usize],
    ) -> Result<bool, AllocError>
        requires bodies { length bodies.now ≡ length bounds.now }
        requires dirty { AreBodies bounds.now dirty.now }
        requires others { length self.old ≡ length bounds.now
            → AreContained dirty.now self.old bounds.now }
        requires few { length bounds.now ≤ MAX_BODIES }
        requires ordered { All IsOrdered bounds.now }
        ensures enlarged { OnOk result (AreEnlarged self.new bounds.now) }
        ensures same { IfOk result (λ same. IsTrue same → self.new ≡ self.old) }
        ensures dropped { OnErr result (self.new ≡ []) }
    {
        let kept = mem::replace(self, BroadPhase::new(alloc));
        if kept.enlarged.len() != bounds.len() {
            *self = BroadPhase::of(alloc, bounds, bodies)?;
            return Ok(false);
        }
        let left = left_bodies(alloc, &kept.enlarged, bounds, dirty)?;
        if left.is_empty() {
            *self = kept;
            return Ok(true);
        }
        *self = if left.len() > MAX_LEFT {
            BroadPhase::of(alloc, bounds, bodies)?
        } else {
            kept.refitted(alloc, &left, bounds, bodies)?
        };
        Ok(false)
    }

    /// The broad phase with new enlarged bounds of the bodies that left theirs.
    fn refitted(
        self,
        alloc: Global,
        left: &[u16],
        bounds: &[Bounds],
        bodies: &[BodyState],
    ) -> Result<BroadPhase, AllocError>
        requires enlarged { length self ≡ length bounds.now }
        requires bodies { length bodies.now ≡ length bounds.now }
        requires left { left.now ≡ left_bodies self bounds.now }
        requires few { length bounds.now ≤ MAX_BODIES }
        requires ordered { All IsOrdered bounds.now }
        ensures { IfOk result (λ kept. AreEnlarged kept bounds.now) }
    {
        let BroadPhase {
            mut enlarged,
            candidates,
        } = self;
        refit(&mut enlarged, left, bounds, bodies);
        let candidates = merge(alloc, &candidates, &enlarged, left)?;
        Ok(BroadPhase {
            enlarged,
            candidates,
        })
    }

    /// New enlarged bounds of all bodies, and their pairs by a grid.
    fn of(alloc: Global, bounds: &[Bounds], bodies: &[BodyState]) -> Result<BroadPhase, AllocError>
        requires bodies { length bodies.now ≡ length bounds.now }
        requires few { length bounds.now ≤ MAX_BODIES }
        requires ordered { All IsOrdered bounds.now }
        ensures { IfOk result (λ kept. AreEnlarged kept bounds.now) }
    {
        let enlarged = all_enlarged_bounds(alloc, bounds, bodies)?;
        let grid = Grid::of_bounds(alloc, &enlarged)?;
        let candidates = all_pairs(alloc, &grid, &enlarged)?;
        Ok(BroadPhase {
            enlarged,
            candidates,
        })
    }
}
