//! The ticks of peers: gone on, settled and sealed, how far each has come, and at what cost.

ghost use Rattle.std.specs.Prelude.{◌≡◌, ⊤};
ghost use Rattle.pf_rollback.specs.Kept.{settled_tick};
ghost use Rattle.pf_rollback.specs.Settling.{IsSettle};
ghost use Rattle.pf_context.specs.Context.{peer_at};
ghost use Rattle.pf_context.specs.Errors.{memory_error, peer_error, shown};
ghost use Rattle.pf_rollback.specs.Calls.{Advances, Seals};
ghost use Rattle.pf_context.specs.Calls.{CallsPeer};
ghost use Rattle.pf_c.specs.Calls.{Answers, Tells};
ghost use Rattle.pf_c.specs.Ticks.{counts_of};

use crate::answers::{end_code, tell, tell_as};
use crate::held::PfContext;
use pf_cache::Meter;
use pf_context::Key;
use std::alloc::Global;

/// How much work was done to settle and to seal ticks of a peer.
#[derive(Clone, Copy, Debug, PartialEq, Eq)]
#[repr(C)]
pub struct PfCounts {
    /// How many ticks were simulated.
    pub ticks: u64,
    /// How many pairs of bodies could not reuse kept contact points.
    pub collides: u64,
}

/// The counts of a meter.
fn counts_of(meter: Meter) -> PfCounts
    ensures { result ≡ counts_of meter }
{
    PfCounts {
        ticks: meter.ticks,
        collides: meter.collides,
    }
}

/// A peer goes on by so many ticks of 1/64 s, simulates nothing, and tells the tick that it has
/// reached.
#[unsafe(no_mangle)]
pub extern "C" fn pf_peer_advance(
    alloc: Global,
    context: &mut PfContext,
    peer: Key,
    ticks: u32,
    reached: &mut u32,
) -> u32
    ensures { Answers (λ before after answer.
        CallsPeer peer_error before after peer answer (Advances ticks))
        (Tells (λ tick. tick) reached.old reached.new)
        context.old.handle.value context.new.handle.value result (reached.new ≡ reached.old) }
{
    tell(
        context.call(alloc, |inside| inside.advance(peer, ticks)),
        reached,
    )
}

/// Settles the ticks of a peer up to the reached one, and tells that. After an error the ticks
/// before it stay settled.
#[unsafe(no_mangle)]
pub extern "C" fn pf_peer_settle(
    alloc: Global,
    context: &mut PfContext,
    peer: Key,
    settled: &mut u32,
) -> u32
    ensures { Answers (λ before after answer.
        CallsPeer memory_error before after peer answer IsSettle)
        (Tells (λ tick. tick) settled.old settled.new)
        context.old.handle.value context.new.handle.value result (settled.new ≡ settled.old) }
{
    tell(
        context.call(alloc, |inside| inside.settle(alloc, peer)),
        settled,
    )
}

/// Seals a tick that a peer has reached: it is the peer's new horizon.
#[unsafe(no_mangle)]
pub extern "C" fn pf_peer_seal(alloc: Global, context: &mut PfContext, peer: Key, tick: u32) -> u32
    ensures { Answers (λ before after answer.
        CallsPeer peer_error before after peer answer (Seals tick))
        (λ answer. ⊤)
        context.old.handle.value context.new.handle.value result ⊤ }
{
    end_code(&context.call(alloc, |inside| inside.seal(alloc, peer, tick)))
}

/// Tells the tick that a peer has reached.
#[unsafe(no_mangle)]
pub extern "C" fn pf_peer_reached(
    alloc: Global,
    context: &mut PfContext,
    peer: Key,
    tick: &mut u32,
) -> u32
    ensures { Answers (λ before after answer. (after ≡ before)
        × (answer ≡ shown (λ core. core.peer.reached) (peer_at before peer)))
        (Tells (λ number. number) tick.old tick.new)
        context.old.handle.value context.new.handle.value result (tick.new ≡ tick.old) }
{
    tell(context.call(alloc, |inside| inside.reached(peer)), tick)
}

/// Tells a peer's settled tick: the greatest tick of a world that it keeps.
#[unsafe(no_mangle)]
pub extern "C" fn pf_peer_settled(
    alloc: Global,
    context: &mut PfContext,
    peer: Key,
    tick: &mut u32,
) -> u32
    ensures { Answers (λ before after answer. (after ≡ before)
        × (answer ≡ shown (λ core. settled_tick core.kept) (peer_at before peer)))
        (Tells (λ number. number) tick.old tick.new)
        context.old.handle.value context.new.handle.value result (tick.new ≡ tick.old) }
{
    tell(context.call(alloc, |inside| inside.settled(peer)), tick)
}

/// Tells a peer's horizon: the tick before which it keeps neither commands nor worlds.
#[unsafe(no_mangle)]
pub extern "C" fn pf_peer_horizon(
    alloc: Global,
    context: &mut PfContext,
    peer: Key,
    tick: &mut u32,
) -> u32
    ensures { Answers (λ before after answer. (after ≡ before)
        × (answer ≡ shown (λ core. core.peer.horizon) (peer_at before peer)))
        (Tells (λ number. number) tick.old tick.new)
        context.old.handle.value context.new.handle.value result (tick.new ≡ tick.old) }
{
    tell(context.call(alloc, |inside| inside.horizon(peer)), tick)
}

/// Tells how much work was done to settle and to seal ticks of a peer.
#[unsafe(no_mangle)]
pub extern "C" fn pf_peer_meter(
    alloc: Global,
    context: &mut PfContext,
    peer: Key,
    counts: &mut PfCounts,
) -> u32
    ensures { Answers (λ before after answer. (after ≡ before)
        × (answer ≡ shown (λ core. core.meter) (peer_at before peer)))
        (Tells counts_of counts.old counts.new)
        context.old.handle.value context.new.handle.value result (counts.new ≡ counts.old) }
{
    let answer = context.call(alloc, |inside| inside.meter(peer));
    tell_as(answer, counts, counts_of)
}
