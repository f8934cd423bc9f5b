//! What the program prints about an error, and the status that it ends with.

ghost use Rattle.std.specs.Prelude.{◌≡◌, ◌+◌, ◌^◌, ◌<◌};
ghost use Rattle.pf_console.specs.Report.{fault_name, digits_fault_name, invalid_line_text, invalid_frame_text, crew_error_text, refused_script_text, fault_text, status_of, outcome_text, outcome_status, Reports};

use crate::error::{DigitsFault, ProgramError};
use crate::names::{crew_error_name, frame_fault_name, refusal_name};
use arrayvec::ArrayString;
use itoa::Buffer;
use pf_rollback::Refusal;
use pf_shapes::SceneFault;
use pf_step::CrewError;
use pf_text::Sink;

/// More bytes than the text about an invalid line can have.
const ERROR_TEXT_CAPACITY: usize = 64;

/// The name of an error of a line.
fn fault_name(fault: SceneFault) -> &'static str
    ensures { result.now ≡ fault_name fault }
{
    match fault {
        SceneFault::BadLine => "BadLine",
        SceneFault::BadNumber => "BadNumber",
        SceneFault::TooMany => "TooMany",
        SceneFault::BadMass => "BadMass",
        SceneFault::BadSize => "BadSize",
    }
}

/// The name of an error of digits.
fn digits_fault_name(fault: DigitsFault) -> &'static str
    ensures { result.now ≡ digits_fault_name fault }
{
    match fault {
        DigitsFault::BadNumber => "BadNumber",
        DigitsFault::Refused(fault) => frame_fault_name(fault),
    }
}

/// The text about an invalid frame.
#[tactic(auto, unfolding(crate::specs::Report::invalid_frame_text))]
fn invalid_frame_text(fault: DigitsFault) -> ArrayString<ERROR_TEXT_CAPACITY>
    ensures { result.bytes ≡ invalid_frame_text fault }
{
    let mut line = ArrayString::new();
    line.push_str("pf_play: frame: ");
    line.push_str(digits_fault_name(fault));
    line.push_str("\n");
    line
}

/// The text about a script that is refused.
#[tactic(auto, unfolding(crate::specs::Report::refused_script_text))]
fn refused_script_text(refusal: Refusal) -> ArrayString<ERROR_TEXT_CAPACITY>
    ensures { result.bytes ≡ refused_script_text refusal }
{
    let mut line = ArrayString::new();
    line.push_str("pf_play: session: ");
    line.push_str(refusal_name(refusal));
    line.push_str("\n");
    line
}

/// The text about a crew that failed.
#[tactic(auto, unfolding(crate::specs::Report::crew_error_text))]
fn crew_error_text(error: CrewError) -> ArrayString<ERROR_TEXT_CAPACITY>
    ensures { result.bytes ≡ crew_error_text error }
{
    let mut line = ArrayString::new();
    line.push_str("pf_play: crew: ");
    line.push_str(crew_error_name(error));
    line.push_str("\n");
    line
}

/// The text about an invalid line, on the stack: it takes no memory.
#[tactic(auto, unfolding(crate::specs::Report::invalid_line_text))]
fn invalid_line_text(number: u64, fault: SceneFault) -> ArrayString<ERROR_TEXT_CAPACITY>
    ensures { result.bytes ≡ invalid_line_text number fault }
{
    let mut line = ArrayString::new();
    line.push_str("pf_play: line ");
    line.push_str(Buffer::new().format(number));
    line.push_str(": ");
    line.push_str(fault_name(fault));
    line.push_str("\n");
    line
}

/// Returns the status that the program ends with, 0 where there is no error, and writes the text
/// about an error.
#[tactic(auto, using(pf_text::proofs::Taking::appends_none))]
pub fn finish<W: Sink>(outcome: Result<(), ProgramError>, writer: &mut W) -> u8
    requires { W.failures writer.old + 1 < 2 ^ 64 }
    ensures status { result ≡ outcome_status outcome }
    ensures text { Reports (record {
      before = W.contents writer.old;
      after = W.contents writer.new;
      failures_before = W.failures writer.old;
      failures_after = W.failures writer.new;
    })
        (outcome_text outcome) }
{
    match outcome {
        Ok(()) => 0,
        Err(fault) => report(&fault, writer),
    }
}

/// Writes the text about an error, and returns its status. A writer that fails does not change the
/// status.
pub fn report<W: Sink>(fault: &ProgramError, writer: &mut W) -> u8
    requires { W.failures writer.old + 1 < 2 ^ 64 }
    ensures status { result ≡ status_of fault.now }
    ensures text { Reports (record {
      before = W.contents writer.old;
      after = W.contents writer.new;
      failures_before = W.failures writer.old;
      failures_after = W.failures writer.new;
    })
        (fault_text fault.now) }
{
    let _ = match fault {
        ProgramError::Words(text) => writer.write_all(text.as_bytes()),
        ProgramError::Line(number, name) => {
            writer.write_all(invalid_line_text(*number, *name).as_str().as_bytes())
        }
        ProgramError::Frame(name) => writer.write_all(
            invalid_frame_text(*name).as_str().as_bytes(),
        ),
        ProgramError::Session(refusal) => {
            writer.write_all(refused_script_text(*refusal).as_str().as_bytes())
        }
        ProgramError::Memory => writer.write_all(b"pf_play: out of memory\n"),
        ProgramError::Crew(error) => writer.write_all(crew_error_text(*error).as_str().as_bytes()),
        ProgramError::Read => writer.write_all(b"pf_play: read failed\n"),
        ProgramError::Write => writer.write_all(b"pf_play: write failed\n"),
    };
    status(fault)
}

/// The status of an error.
fn status(fault: &ProgramError) -> u8
    ensures { result ≡ status_of fault.now }
{
    match fault {
        ProgramError::Line(_, _) | ProgramError::Frame(_) | ProgramError::Session(_) => 1,
        ProgramError::Words(_) => 2,
        ProgramError::Memory | ProgramError::Crew(_) | ProgramError::Read | ProgramError::Write =>
            3,
    }
}
