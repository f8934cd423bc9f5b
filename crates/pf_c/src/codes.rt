//! The number of each error. A group of errors begins at a number of its own.

ghost use Rattle.std.specs.Prelude.{◌≡◌};
ghost use Rattle.pf_c.specs.Codes.{check_code, error_code, frame_code, put_code, refusal_code, scene_code};

use pf_commands::{CheckFault, FrameFault, Put};
use pf_context::ContextError;
use pf_rollback::Refusal;
use pf_shapes::SceneFault;

/// The call was done.
pub const PF_OK: u32 = 0;
/// An allocation failed.
pub const PF_OUT_OF_MEMORY: u32 = 1;
/// The context is closed.
pub const PF_CLOSED: u32 = 3;
/// The key names nothing: it was never given out, or what it named is freed.
pub const PF_BAD_KEY: u32 = 4;
/// A buffer is too small, and nothing was written to it.
pub const PF_SMALL_BUFFER: u32 = 5;
/// The number of a player is not below 8.
pub const PF_BAD_PLAYER: u32 = 6;
/// The number of settled worlds to keep is not from 1 to 64.
pub const PF_BAD_RING: u32 = 7;
/// A number of a command is out of its range.
pub const PF_BAD_NUMBER: u32 = 8;
/// The context is open already.
pub const PF_STILL_OPEN: u32 = 9;
/// The context has no key left.
pub const PF_FULL: u32 = 10;
/// The first of five codes of what is wrong with a scene: BadLine, BadNumber, TooMany, BadMass,
/// BadSize.
pub const PF_SCENE: u32 = 16;
/// The first of six codes of why a peer refuses a call: TickLimit, NumbersSpent, NotReached,
/// TooOld, HorizonsDiffer, BasesDiffer.
pub const PF_REFUSED: u32 = 32;
/// The first of six codes of what is wrong with a frame: Short, Long, BadVersion, BadKind,
/// NotCanonical, OutOfRange.
pub const PF_FRAME: u32 = 48;
/// The first of three codes of why a scene does not allow a command: UnknownBody, StaticBody,
/// NotOwner.
pub const PF_CHECK: u32 = 64;

/// The code of what is wrong with a scene.
fn scene_code(fault: SceneFault) -> u32
    ensures { result ≡ scene_code fault }
{
    PF_SCENE
        + match fault {
            SceneFault::BadLine => 0,
            SceneFault::BadNumber => 1,
            SceneFault::TooMany => 2,
            SceneFault::BadMass => 3,
            SceneFault::BadSize => 4,
        }
}

/// The code of what is wrong with a frame.
fn frame_code(fault: FrameFault) -> u32
    ensures { result ≡ frame_code fault }
{
    PF_FRAME
        + match fault {
            FrameFault::Short => 0,
            FrameFault::Long => 1,
            FrameFault::BadVersion => 2,
            FrameFault::BadKind => 3,
            FrameFault::NotCanonical => 4,
            FrameFault::OutOfRange => 5,
        }
}

/// The code of why a scene does not allow a command.
fn check_code(fault: CheckFault) -> u32
    ensures { result ≡ check_code fault }
{
    PF_CHECK
        + match fault {
            CheckFault::UnknownBody => 0,
            CheckFault::StaticBody => 1,
            CheckFault::NotOwner => 2,
        }
}

/// The code of why a peer refuses a call.
fn refusal_code(refusal: Refusal) -> u32
    ensures { result ≡ refusal_code refusal }
{
    match refusal {
        Refusal::TickLimit => PF_REFUSED,
        Refusal::NumbersSpent => PF_REFUSED + 1,
        Refusal::NotReached(_) => PF_REFUSED + 2,
        Refusal::TooOld(_) => PF_REFUSED + 3,
        Refusal::HorizonsDiffer(_, _) => PF_REFUSED + 4,
        Refusal::BasesDiffer => PF_REFUSED + 5,
        Refusal::Frame(fault) => frame_code(fault),
        Refusal::Check(fault) => check_code(fault),
    }
}

/// The code of why a call of a context failed.
pub(crate) fn error_code(error: ContextError) -> u32
    ensures { result ≡ error_code error }
{
    match error {
        ContextError::BadKey => PF_BAD_KEY,
        ContextError::OutOfMemory => PF_OUT_OF_MEMORY,
        ContextError::Full => PF_FULL,
        ContextError::Line(_, fault) | ContextError::Scene(fault) => scene_code(fault),
        ContextError::BadPlayer => PF_BAD_PLAYER,
        ContextError::BadRing => PF_BAD_RING,
        ContextError::BadNumber => PF_BAD_NUMBER,
        ContextError::SmallBuffer(_) | ContextError::SmallBuffers(_) => PF_SMALL_BUFFER,
        ContextError::Refused(refusal) => refusal_code(refusal),
    }
}

/// What putting a command did, as a number: 0 where it was new, 1 the same, 2 greater, 3 lesser.
pub(crate) fn put_code(put: Put) -> u32
    ensures { result ≡ put_code put }
{
    match put {
        Put::New => 0,
        Put::Same => 1,
        Put::Greater => 2,
        Put::Lesser => 3,
    }
}
