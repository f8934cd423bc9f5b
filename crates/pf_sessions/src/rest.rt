//! What is left on links when the peers have ended, for whoever holds both ends.

ghost use Rattle.std.specs.Prelude.{◌≡◌, ◌++◌, OnOk};
ghost use Rattle.std.specs.List.{AllZip};
ghost use Rattle.pf_links.specs.Link.{AreEnds, LeavesFrames, backlog_of, got, handed};
ghost use Rattle.pf_scripts.specs.Peer.{IsLater, fresh};
ghost use Rattle.pf_sessions.specs.Links.{IsDelivered};
ghost use Rattle.pf_sessions.specs.Rest.{HasTaken, KeepsHanded, all_left, left_on};

use pf_links::{LinkIn, LinkOut};
use pf_rollback::PeerCore;
use pf_scripts::take;
use std::alloc::AllocError;

/// Takes the frames that are left in the ring of a link.
fn take_ring(
    core: &mut PeerCore,
    sender: &mut LinkOut,
    input: &mut LinkIn,
) -> Result<(), AllocError>
    requires { AreEnds sender.old input.old }
    ensures taken { OnOk result (HasTaken core.old core.new (fresh input.old input.new)) }
    ensures later { OnOk result (IsLater input.old input.new) }
    ensures all { OnOk result (handed sender.new ≡ got input.new ++ backlog_of sender.new) }
    ensures frames { OnOk result (LeavesFrames sender.old sender.new) }
    ensures ends { OnOk result (AreEnds sender.new input.new) }
{
    while let Some(frame) = input.bring(sender) {
        take(core, &frame)?;
    }
    Ok(())
}

/// Takes the frames for which the ring of a link had no room. They stay in the backlog.
fn take_backlog(core: &mut PeerCore, sender: &LinkOut) -> Result<(), AllocError>
    ensures { OnOk result (HasTaken core.old core.new (backlog_of sender.now)) }
{
    for index in 0..sender.waiting_count() {
        if let Some(frame) = sender.waiting(index) {
            take(core, &frame)?;
        }
    }
    Ok(())
}

/// Takes what is left on a link: in its ring, and then in its backlog.
fn take_rest_of(
    core: &mut PeerCore,
    sender: &mut LinkOut,
    input: &mut LinkIn,
) -> Result<(), AllocError>
    requires { AreEnds sender.old input.old }
    ensures taken { OnOk result (HasTaken core.old core.new (left_on sender.old input.old)) }
    ensures all { OnOk result (handed sender.old ≡ got input.old ++ left_on sender.old input.old) }
    ensures delivered { OnOk result (IsDelivered sender.new input.new) }
    ensures handed { OnOk result (KeepsHanded sender.old sender.new) }
{
    take_ring(core, sender, input)?;
    take_backlog(core, sender)
}

/// Takes what is left on all links to a peer. `senders` are the other ends of `inputs`, in the same
/// order.
pub fn take_rest(
    core: &mut PeerCore,
    senders: &mut [LinkOut],
    inputs: &mut [LinkIn],
) -> Result<(), AllocError>
    requires { AllZip AreEnds senders.old inputs.old }
    ensures taken { OnOk result (HasTaken core.old core.new (all_left senders.old inputs.old)) }
    ensures all { OnOk result (AllZip
        (λ sender input. handed sender ≡ got input ++ left_on sender input)
        senders.old inputs.old) }
    ensures delivered { OnOk result (AllZip IsDelivered senders.new inputs.new) }
    ensures handed { OnOk result (AllZip KeepsHanded senders.old senders.new) }
{
    let Some((sender, senders)) = senders.split_first_mut() else {
        return Ok(());
    };
    let Some((input, inputs)) = inputs.split_first_mut() else {
        unreachable!()
    };
    take_rest_of(core, sender, input)?;
    take_rest(core, senders, inputs)
}
