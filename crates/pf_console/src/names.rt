//! The names of errors and outcomes, as texts print them.

ghost use Rattle.std.specs.Prelude.{◌≡◌};
ghost use Rattle.pf_console.specs.Names.{frame_fault_name, check_fault_name, crew_error_name, put_name, refusal_name};

use pf_commands::{CheckFault, FrameFault, Put};
use pf_rollback::Refusal;
use pf_step::CrewError;

/// The name of a frame's error.
pub fn frame_fault_name(fault: FrameFault) -> &'static str
    ensures { result.now ≡ frame_fault_name fault }
{
    match fault {
        FrameFault::Short => "Short",
        FrameFault::Long => "Long",
        FrameFault::BadVersion => "BadVersion",
        FrameFault::BadKind => "BadKind",
        FrameFault::NotCanonical => "NotCanonical",
        FrameFault::OutOfRange => "OutOfRange",
    }
}

/// The name of the reason why a scene does not allow a command.
pub fn check_fault_name(fault: CheckFault) -> &'static str
    ensures { result.now ≡ check_fault_name fault }
{
    match fault {
        CheckFault::UnknownBody => "UnknownBody",
        CheckFault::StaticBody => "StaticBody",
        CheckFault::NotOwner => "NotOwner",
    }
}

/// The name of a refusal.
pub fn refusal_name(refusal: Refusal) -> &'static str
    ensures { result.now ≡ refusal_name refusal }
{
    match refusal {
        Refusal::TickLimit => "TickLimit",
        Refusal::NumbersSpent => "NumbersSpent",
        Refusal::Frame(fault) => frame_fault_name(fault),
        Refusal::Check(fault) => check_fault_name(fault),
        Refusal::NotReached(_) => "NotReached",
        Refusal::TooOld(_) => "TooOld",
        Refusal::HorizonsDiffer(..) => "HorizonsDiffer",
        Refusal::BasesDiffer => "BasesDiffer",
    }
}

/// The name of a crew's error.
pub fn crew_error_name(error: CrewError) -> &'static str
    ensures { result.now ≡ crew_error_name error }
{
    match error {
        CrewError::OutOfMemory => "OutOfMemory",
        CrewError::NoThread => "NoThread",
        CrewError::GateShut => "GateShut",
        CrewError::CrewLost => "CrewLost",
    }
}

/// The name of what a put did.
pub fn put_name(put: Put) -> &'static str
    ensures { result.now ≡ put_name put }
{
    match put {
        Put::New => "new",
        Put::Same => "same",
        Put::Greater => "greater",
        Put::Lesser => "lesser",
    }
}
