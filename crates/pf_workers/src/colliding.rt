//! Contact points by standing workers.

ghost use Rattle.std.specs.Prelude.{◌≡◌, ◌<◌, All, IfOk, List, OnOk, Option, length};
ghost use Rattle.std.specs.Arc.{arc_value};
ghost use Rattle.pf_shapes.specs.Pair.{IsPairOf};
ghost use Rattle.pf_manifold.specs.Touches.{Touch, touches};
ghost use Rattle.pf_pool.specs.Pool.{AreDone};
ghost use Rattle.pf_workers.specs.Work.{ArePointsOf, IsDone};
ghost use Rattle.pf_workers.specs.declared.work.Part.{Part};

use crate::gate::Gate;
use crate::scene::SharedScene;
use crate::work::{Part, Work};
use pf_manifold::{Collider, Touch, collide_list};
use pf_pool::{Pool, PoolError};
use pf_shapes::{BodyState, Pair, Scene};
use std::alloc::{AllocError, Global};
use std::cell::Cell;
use std::marker::Model;
use std::sync::{Arc, Wait};

/// Where the points of so many pairs or more have to be computed, the workers compute them: to hand
/// them over takes as long as to compute some fewer.
const PAIRS_FOR_WORKERS: usize = 128;

/// A worker's pairs, with the scene and the bodies as they stand, which all workers share.
#[derive(Drop)]
pub(crate) struct Chunk {
    scene: Arc<Scene, Global>,
    bodies: Arc<Vec<BodyState>, Global>,
    pairs: Vec<Pair>,
}

impl Model for Chunk {
    ghost use Rattle.std.specs.Prelude.{◌≡◌, All, length};
    ghost use Rattle.std.specs.Arc.{arc_value};
    ghost use Rattle.pf_shapes.specs.Pair.{IsPairOf};
    ghost use Rattle.pf_workers.specs.Colliding.{Chunk};

    ghost Value = { Chunk };

    ghost view = { λ c. record {
      fixtures = (arc_value c.scene).fixtures;
      bodies = (arc_value c.bodies).items;
      pairs = c.pairs.items;
    } };

    ghost invariant = { λ c. let bodies = (arc_value c.bodies).items in
        (length bodies ≡ length (arc_value c.scene).fixtures)
        × All (IsPairOf (length bodies)) c.pairs.items };
}

impl Chunk {
    ghost use Rattle.std.specs.Prelude.{◌≡◌, All, IfOk, length};
    ghost use Rattle.pf_workers.specs.Colliding.{IsFound, chunk};
    ghost use Rattle.std.specs.Arc.{arc_value};
    ghost use Rattle.pf_shapes.specs.Pair.{IsPairOf};

    /// These pairs, with what all share.
    fn new(
        alloc: Global,
        scene: &Arc<Scene, Global>,
        bodies: &Arc<Vec<BodyState>, Global>,
        pairs: &[Pair],
    ) -> Result<Chunk, AllocError>
        requires bodies { length (arc_value bodies.now).items
            ≡ length (arc_value scene.now).fixtures }
        requires pairs { All (IsPairOf (length (arc_value bodies.now).items)) pairs.now }
        ensures { IfOk result (λ made.
            made ≡ chunk (arc_value scene.now).fixtures (arc_value bodies.now).items pairs.now) }
    {
        let mut own = Vec::new(alloc);
        own.extend_from_slice(pairs)?;
        Ok(Chunk {
            scene: Arc::try_clone(scene)?,
            bodies: Arc::try_clone(bodies)?,
            pairs: own,
        })
    }

    /// The contact points of the pairs.
    pub(crate) fn collide(self, alloc: Global) -> Result<Vec<Touch>, AllocError>
        ensures { IsFound self result }
    {
        collide_list(alloc, &self.scene, &self.bodies, &self.pairs)
    }
}

/// Cuts pairs in so many chunks of about one length.
fn chunks_of(
    alloc: Global,
    scene: &Arc<Scene, Global>,
    bodies: &Arc<Vec<BodyState>, Global>,
    pairs: &[Pair],
    count: usize,
    parts: &mut Vec<Option<Part>>,
) -> Result<(), AllocError>
    requires some { 0 < count }
    requires bodies { length (arc_value bodies.now).items ≡ length (arc_value scene.now).fixtures }
    requires pairs { All (IsPairOf (length (arc_value bodies.now).items)) pairs.now }
    ensures count { OnOk result (length parts.new.items ≡ count) }
    ensures points { OnOk result (ArePointsOf parts.new.items
        (touches (arc_value scene.now).fixtures (arc_value bodies.now).items pairs.now)) }
{
    parts.clear();
    let mut rest = pairs;
    for made in 1..count {
        let (own, others) = rest.split_at(rest.len() / (count - made + 1));
        parts.push(Some(Part::Pairs(Chunk::new(alloc, scene, bodies, own)?)))?;
        rest = others;
    }
    parts.push(Some(Part::Pairs(Chunk::new(alloc, scene, bodies, rest)?)))?;
    Ok(())
}

/// The points of all chunks in one list. A part that has none is out of memory.
fn joined<G: Gate>(alloc: Global, found: &[Option<Part>]) -> Result<Vec<Touch>, AllocError>
    ensures { (parts : List (Option Part)) (points : List Touch) → ArePointsOf parts points
        → AreDone (IsDone G.ALWAYS) parts found.now
        → IfOk result (λ all. all.items ≡ points) }
{
    let mut all = Vec::new(alloc);
    for number in 0..found.len() {
        match &found[number] {
            Some(Part::Found(Ok(points))) => all.extend_from_slice(points)?,
            _ => return Err(AllocError),
        }
    }
    Ok(all)
}

/// Standing workers that compute contact points: those of a crew, which ends them. Nobody passes a
/// gate.
///
/// Contracts see which workers it has; one that the crew has dismissed is among them.
#[derive(Drop)]
pub struct StandingCollider<R, G: Gate> {
    pool: Pool<R, Work<G>>,
    scene: SharedScene,
    /// The memory for the way of the chunks to the workers and back.
    parts: Cell<Vec<Option<Part>>>,
}

impl<R, G: Gate> Model for StandingCollider<R, G> {
    ghost use Rattle.std.specs.Prelude.{Bool, List};

    ghost Value = { List Bool };

    ghost view = { λ c. c.pool };
}

impl<R: Wait, G: Gate> StandingCollider<R, G> {
    ghost use Rattle.std.specs.Prelude.{◌≡◌, ◌≤◌, All, OnOk, length};
    ghost use Rattle.pf_shapes.specs.Pair.{IsPairOf};
    ghost use Rattle.pf_manifold.specs.Touches.{touches};
    ghost use Rattle.pf_workers.specs.Work.{ArePointsOf};

    /// A collider whose workers are those of a pool.
    pub(crate) fn new(alloc: Global, pool: Pool<R, Work<G>>) -> StandingCollider<R, G>
        ensures { result ≡ pool }
    {
        StandingCollider {
            pool,
            scene: SharedScene::new(),
            parts: Cell::new(Vec::new(alloc)),
        }
    }

    /// The chunks of the workers, as many as pay.
    fn chunks(
        &self,
        alloc: Global,
        scene: &Scene,
        bodies: &[BodyState],
        pairs: &[Pair],
        parts: &mut Vec<Option<Part>>,
    ) -> Result<(), AllocError>
        requires bodies { length bodies.now ≡ length scene.now.fixtures }
        requires pairs { All (IsPairOf (length bodies.now)) pairs.now }
        ensures count { OnOk result (length parts.new.items ≤ length self.now) }
        ensures points { OnOk result
            (ArePointsOf parts.new.items (touches scene.now.fixtures bodies.now pairs.now)) }
    {
        let scene = self.scene.shared(alloc, scene)?;
        let mut copy = Vec::new(alloc);
        copy.extend_from_slice(bodies)?;
        let bodies = Arc::new(alloc, copy)?;
        chunks_of(alloc, &scene, &bodies, pairs, self.pool.part_count(), parts)
    }
}

impl<R: Wait, G: Gate> Collider for StandingCollider<R, G> {
    const MANY: usize = PAIRS_FOR_WORKERS;

    /// Where a worker is lost, the caller computes the points.
    fn collide(
        &self,
        alloc: Global,
        scene: &Scene,
        bodies: &[BodyState],
        pairs: &[Pair],
    ) -> Result<Vec<Touch>, AllocError> {
        let mut parts = self.parts.replace(Vec::new(alloc));
        self.chunks(alloc, scene, bodies, pairs, &mut parts)?;
        let found = match self.pool.run(0, &mut parts) {
            Ok(()) => joined::<G>(alloc, &parts),
            Err(PoolError::OutOfMemory) => Err(AllocError),
            Err(_) => collide_list(alloc, scene, bodies, pairs),
        };
        parts.clear();
        self.parts.set(parts);
        found
    }
}
