//! What the workers of a pool do.

/// A kind of work that is done in parts, each by one worker.
pub trait Task {
    /// A part, which moves into its worker, and back when that has done it. What several need, each
    /// shares in an `Arc`.
    type Part: Send + Drop;

    /// What a worker makes of a part.
    ghost is_done: { Self.Part → Self.Part → Type 0 };

    /// Does the part of a worker. Workers count from 0, and the turn is a number of the caller's.
    /// It may wait for another worker.
    fn run(&self, worker: usize, turn: usize, part: Self::Part) -> Self::Part
        ensures { is_done part result };

    /// Whether each part has to be done by the worker of its number. If not, the caller of a pool
    /// does the first part, and those that no worker has begun. The answer is always the same.
    fn is_watched(&self) -> bool;
}
