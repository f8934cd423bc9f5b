//! The fields of a line.

ghost use Rattle.std.specs.Prelude.{◌≡◌, ◌+◌, ◌*◌, ◌≤◌, ◌∷◌, [], length, map, take, Ok, Err, IfOk, IfErr, OnOk, IfSome, IfNone};
ghost use Rattle.pf_text.specs.Fault.{Returns};
ghost use Rattle.pf_text.specs.Fields.{parts_of, fields_of};

use crate::fault::{LineError, LineFault};
use memchr::memchr;
use std::alloc::{AllocError, Global};

/// The part before the first space and the bytes behind it, if there is one.
fn split_once(line: &[u8]) -> Option<(&[u8], &[u8])>
    ensures some { IfSome result (λ parts. parts_of line.now ≡ parts.0.now ∷ parts_of parts.1.now) }
    ensures sizes { IfSome result (λ parts.
        length parts.0.now + 1 + length parts.1.now ≡ length line.now) }
    ensures none { IfNone result (parts_of line.now ≡ line.now ∷ []) }
{
    match memchr(b' ', line) {
        Some(end) => Some((&line[..end], &line[end + 1..])),
        None => None,
    }
}

/// The parts of a line between spaces.
fn parts_of<'a>(alloc: Global, line: &'a [u8]) -> Result<Vec<&'a [u8]>, AllocError>
    ensures { IfOk result (λ parts. map (λ part. part.now) parts.items ≡ parts_of line.now) }
{
    let mut parts = Vec::new(alloc);
    let mut rest = line;
    while let Some((part, others)) = split_once(rest) {
        parts.push(part)?;
        rest = others;
    }
    parts.push(rest)?;
    Ok(parts)
}

/// How many fields a line has; a field without bytes is `BadLine`. It takes no memory.
#[tactic(auto, unfolding(crate::specs::Fields::fields_of))]
pub fn field_count(line: &[u8]) -> Result<usize, LineFault>
    ensures count { IfOk result (λ count. count ≡ length (parts_of line.now)) }
    ensures ok { OnOk result (fields_of line.now ≡ Ok (parts_of line.now)) }
    ensures err { IfErr result (λ fault. fields_of line.now ≡ Err fault) }
    // Each field has a byte, and all but the last have a space behind them.
    ensures few { IfOk result (λ count. 2 * count ≤ length line.now + 1) }
{
    let mut count = 0;
    let mut rest = line;
    while let Some((part, others)) = split_once(rest) {
        if part.is_empty() {
            return Err(LineFault::BadLine);
        }
        count += 1;
        rest = others;
    }
    if rest.is_empty() {
        return Err(LineFault::BadLine);
    }
    Ok(count + 1)
}

/// Writes the parts of a line into the first elements of `parts`, and returns how many there are.
pub fn split_into<'a>(line: &'a [u8], parts: &mut [&'a [u8]]) -> usize
    requires { length (parts_of line.now) ≤ length parts.old }
    ensures count { result ≡ length (parts_of line.now) }
    ensures parts { map (λ part. part.now) (take result parts.new) ≡ parts_of line.now }
{
    let mut count = 0;
    let mut rest = line;
    while let Some((part, others)) = split_once(rest) {
        parts[count] = part;
        count += 1;
        rest = others;
    }
    parts[count] = rest;
    count + 1
}

/// The fields of a line, which are separated by one space; a field without bytes is `BadLine`.
pub fn fields_of<'a>(alloc: Global, line: &'a [u8]) -> Result<Vec<&'a [u8]>, LineError>
    ensures { Returns (λ fields. map (λ field. field.now) fields.items) result
        (fields_of line.now) }
{
    field_count(line)?;
    Ok(parts_of(alloc, line)?)
}
