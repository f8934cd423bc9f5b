//! The fields of one frame, as a line.

ghost use Rattle.std.specs.Prelude.{◌≡◌, ℕ, ◌+◌, ◌^◌, ◌<◌, List, Some};
ghost use Rattle.pf_console.specs.Text.{CountsWriting, ReadsNothing};
ghost use Rattle.pf_console.specs.FrameText.{digits_command, PrintsFrame};

use crate::digits::frame;
use crate::error::{DigitsFault, ProgramError};
use crate::print::command_text;
use pf_commands::Command;
use pf_text::Sink;
use std::alloc::Global;

/// The command that digits encode.
fn read(digits: &[u8]) -> Result<Command, DigitsFault>
    ensures { result ≡ digits_command digits.now }
{
    match frame(digits) {
        Ok(Ok(command)) => Ok(command),
        Ok(Err(fault)) => Err(DigitsFault::Refused(fault)),
        Err(_) => Err(DigitsFault::BadNumber),
    }
}

/// Writes the fields of the frame that hexadecimal digits encode, as one line.
pub fn frame_text<W: Sink>(alloc: Global, digits: &str, writer: &mut W) -> Result<(), ProgramError>
    requires { W.failures writer.old + 1 < 2 ^ 64 }
    ensures text { (before : List ℕ) → W.contents writer.old ≡ Some before
        → PrintsFrame digits.now
        (record { before = before; after = W.contents writer.new }) result }
    ensures reads_nothing { ReadsNothing result }
    ensures writes_counted { CountsWriting (W.failures writer.old) result (W.failures writer.new) }
{
    let command = read(digits.as_bytes()).map_err(ProgramError::Frame)?;
    let text = command_text(alloc, &command)?;
    Ok(writer.write_all(text.as_bytes())?)
}
