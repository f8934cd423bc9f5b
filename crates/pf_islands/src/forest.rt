//! A union-find over bodies: each body has a parent, and the bodies of a group have one root, which
//! is the least of them.

ghost use Rattle.std.specs.Prelude.{◌≡◌, ◌≤◌, ◌<◌, ◌∷◌, ℕ, All, IfOk, IsOk, List, length, map};
ghost use Rattle.std.specs.List.{range_with_len};
ghost use Rattle.pf_manifold.specs.Touches.{IsTouchOf, Touch};
ghost use Rattle.pf_islands.specs.Forest.{OthersAreRoots, IsDownward, IsForest};
ghost use Rattle.pf_islands.specs.Group.{group, merged_label};
ghost use Rattle.pf_islands.specs.Reach.{connects};
ghost use Rattle.pf_islands.specs.Settled.{touches_of};

use pf_manifold::Touch;
use pf_shapes::Scene;
use std::alloc::{AllocError, Global};

/// The numbers below `len`: each body is its own parent.
pub fn singles(alloc: Global, len: usize) -> Result<Vec<usize>, AllocError>
    ensures value { IfOk result (λ parents. parents.items ≡ range_with_len 0 len) }
    ensures no_memory { len ≡ 0 → IsOk result }
{
    let mut parents = Vec::with_capacity(alloc, len)?;
    for body in 0..len {
        parents.push_reserved(body);
    }
    Ok(parents)
}

/// Whether a contact point connects its bodies, as it does where both are dynamic.
fn connects(scene: &Scene, touch: &Touch) -> bool
    requires { IsTouchOf (length scene.now.fixtures) touch.now }
    ensures { result ≡ connects scene.now touch.now }
{
    let fixtures = scene.fixtures();
    let first = &fixtures[usize::from(touch.a)];
    let second = &fixtures[usize::from(touch.b)];
    !first.is_static() && !second.is_static()
}

/// The root of a body, with path halving: every other body on the way gets the parent of its parent
/// as its own.
fn find(parents: &mut [usize], body: usize) -> usize
    requires body { body < length parents.old }
    requires down { IsDownward parents.old }
    ensures root { (root : ℕ → ℕ) → IsForest root parents.old → result ≡ root body }
    ensures own { (root : ℕ → ℕ) → IsForest root parents.old → root result ≡ result }
    ensures kept { (root : ℕ → ℕ) → IsForest root parents.old → IsForest root parents.new }
    ensures down { IsDownward parents.new }
    ensures within { result ≤ body }
{
    let mut place = body;
    while parents[place] != place {
        let above = parents[parents[place]];
        parents[place] = above;
        place = above;
    }
    place
}

/// Links the greater root of two bodies to the lesser.
fn link(parents: &mut [usize], a: usize, b: usize)
    requires first { a < length parents.old }
    requires second { b < length parents.old }
    requires down { IsDownward parents.old }
    ensures roots { (root : ℕ → ℕ) → IsForest root parents.old
        → IsForest (λ i. merged_label (root a) (root b) (root i)) parents.new }
    ensures down { IsDownward parents.new }
{
    let first = find(parents, a);
    let second = find(parents, b);
    parents[first.max(second)] = first.min(second);
}

/// Links the bodies of a contact point, where it connects them.
fn link_touch(parents: &mut [usize], scene: &Scene, touch: &Touch)
    requires touch { IsTouchOf (length scene.now.fixtures) touch.now }
    requires count { length parents.old ≡ length scene.now.fixtures }
    requires down { IsDownward parents.old }
    ensures roots { (passed : List Touch) → IsForest (group scene.now passed) parents.old
        → IsForest (group scene.now (touch.now ∷ passed)) parents.new }
    ensures down { IsDownward parents.new }
{
    if connects(scene, touch) {
        link(parents, usize::from(touch.a), usize::from(touch.b));
    }
}

/// Links the bodies of each of these contact points that connects them. The points of a pair stand
/// side by side, so a point of the same bodies as the one before has nothing to link.
pub fn link_all(parents: &mut [usize], scene: &Scene, points: &[(usize, Touch)])
    requires touches { All (λ m. IsTouchOf (length scene.now.fixtures) m.1) points.now }
    requires count { length parents.old ≡ length scene.now.fixtures }
    requires down { IsDownward parents.old }
    requires single { IsForest (λ i. i) parents.old }
    ensures roots { IsForest (group scene.now (touches_of points.now)) parents.new }
    ensures down { IsDownward parents.new }
{
    let mut first = 0;
    let mut second = 0;
    for point in points.iter().rev() {
        let touch = &point.1;
        let is_other = touch.a != first || touch.b != second;
        if is_other {
            link_touch(parents, scene, touch);
            first = touch.a;
            second = touch.b;
        }
    }
}

/// Puts the root of each body in place of its parent. Only the parents of the bodies of these
/// numbers are looked at: each other body is its own parent.
pub fn flatten(parents: &mut [usize], numbers: &[usize])
    requires down { IsDownward parents.old }
    requires others { OthersAreRoots parents.old numbers.now }
    ensures { (root : ℕ → ℕ) → IsForest root parents.old
        → parents.new ≡ map root (range_with_len 0 (length parents.old)) }
{
    for number in numbers {
        let number = *number;
        parents[number] = parents[parents[number]];
    }
}
