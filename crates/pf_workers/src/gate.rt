//! What each worker of a crew passes before it works.

ghost use Rattle.std.specs.Prelude.{◌≡◌, true, IsTrue};

/// Says whether a worker may work. In a solve that succeeds each worker, or the caller for it where
/// nobody watches, has passed it once, also for one that has no island. A test or a debugger holds
/// workers up by it, or sees that they meet.
pub trait Gate {
    ghost use Rattle.std.specs.Prelude.{◌≡◌, Bool, true, IsTrue};

    /// Whether the gate lets everybody through, so that a crew never fails by it.
    ghost ALWAYS: { Bool };

    /// Whether the worker of this number may go on in this turn. Workers and turns count from 0;
    /// turns past `usize::MAX` stay there. It may wait; where it waits for all workers without a
    /// limit, a solve hangs if one of them could not be started, or was not asked since there was
    /// no memory.
    fn pass(&self, worker: usize, turn: usize) -> bool
        ensures { ALWAYS ≡ true → IsTrue result };

    /// Whether a pass may wait for another worker, or be seen by anybody. If not, the caller of a
    /// standing crew may pass the gate for a worker, and do its job. The answer is always the same.
    fn is_watched(&self) -> bool {
        true
    }
}

/// Lets everybody through, and waits for nobody.
#[derive(Clone, Copy, Debug, Drop)]
pub struct OpenGate;

impl Gate for OpenGate {
    ghost use Rattle.std.specs.Prelude.{true};

    ghost ALWAYS = { true };

    fn pass(&self, _worker: usize, _turn: usize) -> bool {
        true
    }

    fn is_watched(&self) -> bool {
        false
    }
}

/// Any gate, by reference. Contracts take it as one that may be shut.
impl<'g> Gate for &'g (dyn Gate + Sync) {
    ghost use Rattle.std.specs.Prelude.{false};

    ghost ALWAYS = { false };

    fn pass(&self, worker: usize, turn: usize) -> bool {
        (**self).pass(worker, turn)
    }

    fn is_watched(&self) -> bool {
        (**self).is_watched()
    }
}
