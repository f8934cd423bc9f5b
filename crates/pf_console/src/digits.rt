//! Bytes and frames in hexadecimal digits.

ghost use Rattle.std.specs.Prelude.{◌≡◌, ◌≢◌, length, is_ok, IfOk, IsOk, Ok};
ghost use Rattle.std.specs.Char.{is_ascii_hexdigit};
ghost use Rattle.std.specs.List.{list_all};
ghost use Rattle.pf_console.specs.Digits.{bytes_of, frame_of_digits, invalid_frame};

use pf_commands::{Command, FRAME_LEN, FrameFault, decode};
use pf_text::LineFault;
use std::alloc::{AllocError, Global};

/// How many digits the frame of a command has.
const FRAME_DIGITS: usize = 2 * FRAME_LEN;

/// The command that digits of either case encode, two a byte, or why they encode none. Digits that
/// are no bytes are a bad number. Takes no memory, however many they are.
pub fn frame(digits: &[u8]) -> Result<Result<Command, FrameFault>, LineFault>
    ensures { result ≡ frame_of_digits digits.now }
{
    if digits.len() != FRAME_DIGITS {
        return Ok(Err(fault_of_length(digits)?));
    }
    let mut frame = [0; FRAME_LEN];
    match hex::decode_to_slice(digits, &mut frame) {
        Ok(()) => Ok(decode(&frame)),
        Err(_) => Err(LineFault::BadNumber),
    }
}

/// Whether all bytes are hexadecimal digits, of either case.
fn are_digits(bytes: &[u8]) -> bool
    ensures { result ≡ list_all is_ascii_hexdigit bytes.now }
{
    bytes.iter().all(|byte| byte.is_ascii_hexdigit())
}

/// Why digits that are too few or too many encode no command.
#[tactic(auto, using(crate::proofs::FrameDigits::other_counts))]
fn fault_of_length(digits: &[u8]) -> Result<FrameFault, LineFault>
    requires { length digits.now ≢ FRAME_DIGITS }
    ensures { frame_of_digits digits.now ≡ invalid_frame result }
{
    if digits.len() % 2 != 0 {
        return Err(LineFault::BadNumber);
    }
    if !are_digits(digits) {
        return Err(LineFault::BadNumber);
    }
    Ok(if digits.len() < FRAME_DIGITS {
        FrameFault::Short
    } else {
        FrameFault::Long
    })
}

/// Whether digits of either case encode bytes, two digits a byte.
#[tactic(auto, using(crate::proofs::FrameDigits::digits_of_bytes))]
pub fn are_bytes(digits: &[u8]) -> bool
    ensures { result ≡ is_ok (bytes_of digits.now) }
{
    digits.len() % 2 == 0 && are_digits(digits)
}

/// The bytes that digits encode.
pub fn bytes(alloc: Global, digits: &[u8]) -> Result<Vec<u8>, AllocError>
    requires { IsOk (bytes_of digits.now) }
    ensures { IfOk result (λ bytes. bytes_of digits.now ≡ Ok bytes.items) }
{
    hex::decode(alloc, digits).map_err(|_| AllocError)
}
