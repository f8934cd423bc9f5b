//! Marks of groups, by their labels.

ghost use Rattle.std.specs.Prelude.{◌≡◌, ◌<◌, All, IfOk, IsOk, length, map};
ghost use Rattle.std.specs.List.{range_with_len};
ghost use Rattle.pf_islands.specs.Marks.{each_labelled, marked_body};
ghost use Rattle.pf_islands.specs.Sleep.{is_active};

use pf_shapes::BodyState;
use std::alloc::{AllocError, Global};

/// So many marks, all of this value.
pub fn marks_of(alloc: Global, len: usize, mark: bool) -> Result<Vec<bool>, AllocError>
    ensures as_many { IfOk result (λ marks. length marks.items ≡ len) }
    ensures marks { IfOk result (λ marks. All (λ m. m ≡ mark) marks.items) }
    ensures no_memory { len ≡ 0 → IsOk result }
{
    let mut marks = Vec::with_capacity(alloc, len)?;
    marks.resize(len, mark)?;
    Ok(marks)
}

/// Marks the groups that have an awake body.
pub fn mark_active(marks: &mut [bool], labels: &[usize], bodies: &[BodyState])
    requires marks { length marks.old ≡ length labels.now }
    requires bodies { length bodies.now ≡ length labels.now }
    requires labelled { All (λ label. label < length labels.now) labels.now }
    ensures { marks.new
        ≡ map (is_active labels.now bodies.now) (range_with_len 0 (length labels.now)) }
{
    marks.fill(false);
    for (number, body) in bodies.iter().enumerate() {
        if body.awake {
            marks[labels[number]] = true;
        }
    }
}

/// A body is awake afterwards exactly where its group has a mark.
pub fn wake_marked(marks: &[bool], labels: &[usize], bodies: &mut [BodyState])
    requires marks { length marks.now ≡ length labels.now }
    requires bodies { length bodies.old ≡ length labels.now }
    requires labelled { All (λ label. label < length labels.now) labels.now }
    ensures { bodies.new ≡ each_labelled (marked_body marks.now) labels.now bodies.old }
{
    for (number, body) in bodies.iter_mut().enumerate() {
        body.awake = marks[labels[number]];
    }
}
