//! The name of each code, and a sentence that says what it means.

ghost use Rattle.std.specs.Prelude.{◌≡◌, ◌+◌, length};
ghost use Rattle.pf_c.specs.Names.{WritesText, code_name, code_text};

use crate::codes::{PF_OK, PF_SMALL_BUFFER};

/// The name of a code, as the header has it; a number that is no code has an empty one.
#[tactic(auto, unfolding(crate::specs::Names::code_name))]
fn code_name(code: u32) -> &'static str
    ensures { result.now ≡ code_name code }
{
    match code {
        0 => "PF_OK",
        1 => "PF_OUT_OF_MEMORY",
        2 => "PF_BAD_ROUNDING",
        3 => "PF_CLOSED",
        4 => "PF_BAD_KEY",
        5 => "PF_SMALL_BUFFER",
        6 => "PF_BAD_PLAYER",
        7 => "PF_BAD_RING",
        8 => "PF_BAD_NUMBER",
        9 => "PF_STILL_OPEN",
        10 => "PF_FULL",
        16 => "PF_SCENE_BAD_LINE",
        17 => "PF_SCENE_BAD_NUMBER",
        18 => "PF_SCENE_TOO_MANY",
        19 => "PF_SCENE_BAD_MASS",
        20 => "PF_SCENE_BAD_SIZE",
        32 => "PF_TICK_LIMIT",
        33 => "PF_NUMBERS_SPENT",
        34 => "PF_NOT_REACHED",
        35 => "PF_TOO_OLD",
        36 => "PF_HORIZONS_DIFFER",
        37 => "PF_BASES_DIFFER",
        48 => "PF_FRAME_SHORT",
        49 => "PF_FRAME_LONG",
        50 => "PF_FRAME_BAD_VERSION",
        51 => "PF_FRAME_BAD_KIND",
        52 => "PF_FRAME_NOT_CANONICAL",
        53 => "PF_FRAME_OUT_OF_RANGE",
        64 => "PF_UNKNOWN_BODY",
        65 => "PF_STATIC_BODY",
        66 => "PF_NOT_OWNER",
        _ => "",
    }
}

/// What a code means; a number that is no code has an empty text.
#[tactic(auto, unfolding(crate::specs::Names::code_text))]
fn code_text(code: u32) -> &'static str
    ensures { result.now ≡ code_text code }
{
    match code {
        0 => "done",
        1 => "out of memory",
        2 => "the processor does not round to the nearest double",
        3 => "the context is closed",
        4 => "the key names nothing",
        5 => "a buffer is too small",
        6 => "the number of a player is not below 8",
        7 => "the number of settled worlds to keep is not from 1 to 64",
        8 => "a number is out of its range: within 2^31, of a place 2^20",
        9 => "the context is open already",
        10 => "the context has no key left",
        16 => "no such line may stand here",
        17 => "a number is not whole, or out of its range: friction is 0 to 4, \
             gravity within 1,024, a position within 2^20, a direction within 1, an owner 0 to 7",
        18 => "the scene has 1,024 bodies already",
        19 => "a mass is neither 0 nor from 1/16 to 1,024 (2^20 to 2^34 raw)",
        20 => "a radius or a half extent is not from 1/16 to 1,024 (2^20 to 2^34 raw)",
        32 => "the last tick, 1,048,576, leaves no tick for this",
        33 => "the player has no number left for a command at the reached tick",
        34 => "the tick is above the reached tick",
        35 => "the tick is before the horizon: what came before it is sealed",
        36 => "the horizons differ",
        37 => "the other peer has another world at the horizon",
        48 => "the frame has fewer than 27 bytes",
        49 => "the frame has more than 27 bytes",
        50 => "the frame begins with neither 1 nor 2",
        51 => "the kind is none of its version: 0 to 2 of version 1, 3 of version 2",
        52 => "a field that the command does not use is not 0",
        53 => "a field is out of its range: the tick is below 2^20, the player below 8, \
             the body below 1,024, a number within 2^31, or of a place within 2^20",
        64 => "the scene has no body of this number",
        65 => "the body is static",
        66 => "the body belongs to another player, or to nobody",
        _ => "",
    }
}

/// Writes a text, with a zero behind it, to the front of a buffer, if it fits.
fn write_text(text: &[u8], buffer: &mut [u8]) -> u32
    ensures { WritesText text.now buffer.old buffer.new result }
{
    if text.len() >= buffer.len() {
        return PF_SMALL_BUFFER;
    }
    buffer[..text.len()].copy_from_slice(text);
    buffer[text.len()] = 0;
    PF_OK
}

/// Writes the name of a code, with a zero behind it, to the front of a buffer, and tells how many
/// bytes that takes. Where the buffer is too small, that is told all the same, and nothing is
/// written.
#[unsafe(no_mangle)]
pub extern "C" fn pf_error_name(code: u32, name: &mut [u8], needed: &mut u64) -> u32
    ensures name { WritesText (code_name code) name.old name.new result }
    ensures needed { needed.new ≡ length (code_name code) + 1 }
{
    let text = code_name(code).as_bytes();
    *needed = text.len() as u64 + 1;
    write_text(text, name)
}

/// Writes what a code means, a sentence without a full stop, as [`pf_error_name`] writes its name.
#[unsafe(no_mangle)]
pub extern "C" fn pf_error_text(code: u32, text: &mut [u8], needed: &mut u64) -> u32
    ensures text { WritesText (code_text code) text.old text.new result }
    ensures needed { needed.new ≡ length (code_text code) + 1 }
{
    let meaning = code_text(code).as_bytes();
    *needed = meaning.len() as u64 + 1;
    write_text(meaning, text)
}
