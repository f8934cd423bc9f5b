//! The parts of the workers of a pool in a run.

ghost use Rattle.std.specs.Prelude.{◌≡◌, ℕ, ◌<◌, IsSome, IsTrue, None, Some, length, slice_index_or};
ghost use Rattle.pf_pool.specs.Reply.{IsDoneOf};
ghost use Rattle.pf_pool.specs.Slots.{AreAnswers, HaveAnswered};
ghost use Rattle.pf_pool.specs.declared.reply.Dealt.{Dealt};

use crate::task::Task;

/// Whether all workers from `least` on have answered.
pub(crate) fn have_answered<P>(slots: &[Option<P>], least: usize) -> bool
    ensures { IsTrue result → HaveAnswered least slots.now }
{
    for worker in least..slots.len() {
        if slots[worker].is_none() {
            return false;
        }
    }
    true
}

/// Puts what a worker has done into its slot, if that is empty. Others are dropped.
pub(crate) fn accept<T: Task>(worker: usize, done: T::Part, slots: &mut [Option<T::Part>])
    ensures done { (d : Dealt T.Part) (least : ℕ) → IsDoneOf T.is_done d worker done
        → AreAnswers T.is_done d least slots.old → AreAnswers T.is_done d least slots.new }
    ensures noted { worker < length slots.old → IsSome (slice_index_or slots.new worker None) }
    ensures kept { (worker : ℕ) → IsSome (slice_index_or slots.old worker None)
        → slice_index_or slots.new worker None ≡ slice_index_or slots.old worker None }
    ensures count { length slots.new ≡ length slots.old }
{
    if worker < slots.len() && slots[worker].is_none() {
        slots[worker] = Some(done);
    }
}
