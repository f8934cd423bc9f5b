//! Who computes the contact points of a list of pairs of bodies: one thread, or several.

ghost use Rattle.std.specs.Prelude.{◌≡◌, ◌≤◌, All, length, map, IfOk};
ghost use Rattle.std.specs.List.{flat_map};
ghost use Rattle.rayon.specs.Lists.{chunks_of};
ghost use Rattle.pf_shapes.specs.Pair.{IsAscending, IsPairOf};
ghost use Rattle.pf_shapes.specs.declared.scene.TheConstants.{MAX_BODIES};
ghost use Rattle.pf_manifold.specs.Key.{AreTouches};
ghost use Rattle.pf_manifold.specs.Touches.{IsTouchOf, touches};

use crate::touch::{Touch, collide_list, collide_pairs};
use pf_shapes::{BodyState, Fixture, Pair, Scene};
use rayon::prelude::*;
use std::alloc::{AllocError, Global};
use std::thread::Threads;

/// Lists with fewer pairs are computed by one thread: to start threads costs more than they save.
pub const PAIRS_FOR_THREADS: usize = 16_384;

/// How many pairs a thread takes at once.
const CHUNK: usize = 64;

/// The contact points of each chunk of pairs, in the order of the chunks.
fn collide_chunks<R: Threads + Sync>(
    rt: &R,
    alloc: Global,
    fixtures: &[Fixture],
    bodies: &[BodyState],
    pairs: &[Pair],
) -> Result<Vec<Vec<Touch>>, AllocError>
    requires few { length fixtures.now ≤ MAX_BODIES }
    requires bodies { length bodies.now ≡ length fixtures.now }
    requires pairs { All (IsPairOf (length bodies.now)) pairs.now }
    ensures { IfOk result (λ found. map (λ points. points.items) found.items
        ≡ map (touches fixtures.now bodies.now) (chunks_of CHUNK pairs.now)) }
{
    let chunks: Result<Vec<Vec<Touch>>, AllocError> = pairs
        .par_chunks(CHUNK)
        .map(
            |chunk: &[Pair]| -> Result<Vec<Touch>, AllocError>
                requires { (length fixtures.now ≤ MAX_BODIES)
                    × (length bodies.now ≡ length fixtures.now)
                    × All (IsPairOf (length bodies.now)) chunk.now }
                ensures { IfOk result (λ found. found.items
                    ≡ touches fixtures.entry.now bodies.entry.now chunk.now) }
            { collide_pairs(alloc, fixtures, bodies, chunk) },
        )
        .collect(rt, alloc)?;
    chunks
}

/// The points of all chunks in one list.
fn joined(alloc: Global, chunks: &[Vec<Touch>]) -> Result<Vec<Touch>, AllocError>
    ensures { IfOk result (λ all. all.items
        ≡ flat_map (λ points. points) (map (λ chunk. chunk.items) chunks.now)) }
{
    let mut all = Vec::new(alloc);
    for chunk in chunks {
        all.extend_from_slice(chunk)?;
    }
    Ok(all)
}

/// The list of `collide_list`, computed by several threads where there are many pairs. It takes
/// memory for the lists of the threads, even where no pair touches.
pub fn collide_all<R: Threads + Sync>(
    rt: &R,
    alloc: Global,
    scene: &Scene,
    bodies: &[BodyState],
    pairs: &[Pair],
) -> Result<Vec<Touch>, AllocError>
    requires bodies { length bodies.now ≡ length scene.now.fixtures }
    requires pairs { All (IsPairOf (length bodies.now)) pairs.now }
    ensures found { IfOk result
        (λ found. found.items ≡ touches scene.now.fixtures bodies.now pairs.now) }
    ensures order { IsAscending pairs.now → IfOk result (λ found. AreTouches found.items) }
    ensures bodies { IfOk result (λ found. All (IsTouchOf (length bodies.now)) found.items) }
{
    let fixtures = scene.fixtures();
    if pairs.len() < PAIRS_FOR_THREADS {
        return collide_list(alloc, scene, bodies, pairs);
    }
    let chunks = collide_chunks(rt, alloc, fixtures, bodies, pairs)?;
    joined(alloc, &chunks)
}

/// Who computes the contact points of a list of pairs.
pub trait Collider {
    ghost use Rattle.std.specs.Prelude.{◌≡◌, ⊤, All, length, IfOk};
    ghost use Rattle.pf_shapes.specs.Pair.{IsPairOf};
    ghost use Rattle.pf_manifold.specs.Touches.{touches};

    /// What a call needs beside its arguments, as a runtime that threads may share.
    ghost can_collide: { Self → Type 0 } = { λ _. ⊤ };

    /// How many pairs must have lost their points before `collide` is called, which computes the
    /// points of these pairs. Those of fewer are computed one after the other. It changes no
    /// result.
    const MANY: usize;

    /// The list of [`collide_list`].
    fn collide(
        &self,
        alloc: Global,
        scene: &Scene,
        bodies: &[BodyState],
        pairs: &[Pair],
    ) -> Result<Vec<Touch>, AllocError>
        requires can { can_collide self.now }
        requires bodies { length bodies.now ≡ length scene.now.fixtures }
        requires pairs { All (IsPairOf (length bodies.now)) pairs.now }
        ensures { IfOk result
            (λ found. found.items ≡ touches scene.now.fixtures bodies.now pairs.now) };
}

/// Only the thread of the caller.
#[derive(Clone, Copy, Debug)]
pub struct OneThread;

impl Collider for OneThread {
    const MANY: usize = usize::MAX;

    fn collide(
        &self,
        alloc: Global,
        scene: &Scene,
        bodies: &[BodyState],
        pairs: &[Pair],
    ) -> Result<Vec<Touch>, AllocError> {
        collide_list(alloc, scene, bodies, pairs)
    }
}

/// Threads that a runtime starts.
#[derive(Drop)]
pub struct SeveralThreads<'r, R> {
    /// The runtime.
    pub rt: &'r R,
}

impl<'r, R: Threads + Sync> Collider for SeveralThreads<'r, R> {
    ghost use Rattle.std.specs.Thread.{IsSync};

    ghost can_collide = { λ _. IsSync R.row };

    const MANY: usize = PAIRS_FOR_THREADS;

    fn collide(
        &self,
        alloc: Global,
        scene: &Scene,
        bodies: &[BodyState],
        pairs: &[Pair],
    ) -> Result<Vec<Touch>, AllocError> {
        collide_all(self.rt, alloc, scene, bodies, pairs)
    }
}
