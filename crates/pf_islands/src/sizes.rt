//! How many contacts each group of a tick has: whether it has any, and how much memory its island
//! reserves.

ghost use Rattle.std.specs.Prelude.{◌≡◌, ◌<◌, ◌==◌, not, All, IfOk, IsOk, ℕ, length};
ghost use Rattle.std.specs.Prelude.{slice_index_or};
ghost use Rattle.std.specs.List.{list_any};
ghost use Rattle.pf_manifold.specs.Touches.{IsTouchOf};
ghost use Rattle.pf_islands.specs.Lone.{group_of_touch};
ghost use Rattle.pf_islands.specs.Settled.{touches_of};

use crate::groups::group_of_touch;
use pf_manifold::Touch;
use pf_shapes::Scene;
use std::alloc::{AllocError, Global};

/// A list of so many zeros. They are small, since all are written in each tick: those of 1,000
/// bodies take 2 KB.
pub fn zeros(alloc: Global, len: usize) -> Result<Vec<u16>, AllocError>
    ensures as_many { IfOk result (λ made. length made.items ≡ len) }
    ensures zero { IfOk result (λ made. All (λ number. number ≡ 0) made.items) }
    ensures no_memory { len ≡ 0 → IsOk result }
{
    let mut made = Vec::with_capacity(alloc, len)?;
    made.resize(len, 0)?;
    Ok(made)
}

/// Counts the contacts of each group at its label.
fn count_rows(counts: &mut [u16], scene: &Scene, labels: &[usize], points: &[(usize, Touch)])
    requires counts { length counts.old ≡ length labels.now }
    requires labels { length labels.now ≡ length scene.now.fixtures }
    requires labelled { All (λ label. label < length labels.now) labels.now }
    requires touches { All (λ m. IsTouchOf (length labels.now) m.1) points.now }
    requires zero { All (λ number. number ≡ 0) counts.old }
    ensures { (label : ℕ) → label < length labels.now → (slice_index_or counts.new label 0 == 0)
        ≡ not (list_any (λ t. group_of_touch scene.now labels.now t == label)
        (touches_of points.now)) }
{
    for point in points {
        let label = group_of_touch(scene, labels, &point.1);
        counts[label] = counts[label].saturating_add(1);
    }
}

/// How many of these contacts each group has, at its label; more than 65,535 count as so many. The
/// clauses say for which groups the number is 0. The others only reserve memory: contacts connect
/// the bodies of a group, so that it has at most one body more than contacts.
pub fn row_counts(
    alloc: Global,
    scene: &Scene,
    labels: &[usize],
    points: &[(usize, Touch)],
) -> Result<Vec<u16>, AllocError>
    requires labels { length labels.now ≡ length scene.now.fixtures }
    requires labelled { All (λ label. label < length labels.now) labels.now }
    requires touches { All (λ m. IsTouchOf (length labels.now) m.1) points.now }
    ensures as_many { IfOk result (λ counts. length counts.items ≡ length labels.now) }
    ensures none { IfOk result (λ counts. (label : ℕ) → label < length labels.now
        → (slice_index_or counts.items label 0 == 0)
        ≡ not (list_any (λ t. group_of_touch scene.now labels.now t == label)
        (touches_of points.now))) }
    ensures no_memory { length labels.now ≡ 0 → IsOk result }
{
    let mut counts = zeros(alloc, labels.len())?;
    count_rows(&mut counts, scene, labels, points);
    Ok(counts)
}
