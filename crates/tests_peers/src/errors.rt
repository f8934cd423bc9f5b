//! The texts of errors.

use pf_commands::FrameFault;
use pf_console::{DigitsFault, ProgramError, laws};
use pf_rollback::Refusal;
use pf_shapes::SceneFault;
use pf_step::CrewError;
use std::alloc::{AllocError, Global};
use std::test::Fail;

/// Whether an error prints this text.
fn prints(alloc: Global, fault: &ProgramError, text: &str) -> Result<bool, AllocError> {
    Ok(fault.to_string(alloc)?.as_str() == text)
}

/// An error of each kind but words, by its number, and its text.
fn row(number: u8) -> (ProgramError, &'static str) {
    match number {
        0 => (
            ProgramError::Line(u64::MAX, SceneFault::BadMass),
            "line 18446744073709551615: a mass is neither 0 nor from 1/16 to 1,024 \
             (2^20 to 2^34 raw)",
        ),
        1 => (
            ProgramError::Frame(DigitsFault::BadNumber),
            "frame: the digits encode no bytes",
        ),
        2 => (
            ProgramError::Frame(DigitsFault::Refused(FrameFault::Short)),
            "frame: the frame has fewer than 27 bytes",
        ),
        3 => (ProgramError::Memory, "out of memory"),
        4 => (ProgramError::Read, "read failed"),
        5 => (
            ProgramError::Crew(CrewError::GateShut),
            "crew: a gate is shut",
        ),
        6 => (
            ProgramError::Session(Refusal::TooOld(5)),
            "session: the tick is before 5, the horizon: what came before it is sealed",
        ),
        _ => (ProgramError::Write, "write failed"),
    }
}

#[test]
fn errors_print_their_texts(rt: HostRuntime) -> Result<(), Fail> {
    for number in 0..8 {
        let (fault, text) = row(number);
        let is_printed = prints(rt.alloc(), &fault, text)?;
        assert!(rt; is_printed, "{text}");
    }
    Ok(())
}

#[test]
fn mistaken_words_are_their_own_text(rt: HostRuntime) -> Result<(), Fail> {
    let words = ProgramError::Words(String::from_str(rt.alloc(), "error: such words\n")?);
    let is_printed = prints(rt.alloc(), &words, "error: such words\n")?;
    assert!(rt; is_printed);
    Ok(())
}

#[test]
fn laws_are_called(_rt: HostRuntime) {
    laws::event_lines_have_replies();
    laws::event_lines_encode_events();
    laws::printed_frames_are_parsed();
    laws::runs_write_one_text();
    laws::sessions_write_one_text();
    laws::texts_show_sessions();
    laws::named_limits();
}
