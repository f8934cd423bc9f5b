//! Whole numbers in decimal digits.

ghost use Rattle.std.specs.Prelude.{◌≡◌, ◌^◌, pos, neg_ℤ, ◌<ℤ◌, min};
ghost use Rattle.std.specs.Option.{option_map};
ghost use Rattle.pf_text.specs.Numbers.{digits_of, natural_of, whole_of, clamp_whole, number, integer};

use crate::fault::LineFault;

/// Where a number is clamped: no number of a range is so great.
const MOST: u64 = 1 << 56;

/// What a field is to a reader that expects a number of a range.
#[derive(Clone, Copy, Debug, PartialEq, Eq)]
pub enum ParsedNumber {
    /// A whole number of the range.
    InRange(i64),
    /// A whole number out of the range, however long it is.
    OutOfRange,
    /// No whole number.
    NotANumber,
}

/// The number that decimal digits encode, at most `MOST`.
#[tactic(auto, using(crate::proofs::Digits::next_digit))]
fn digits_value(digits: &[u8]) -> Option<u64>
    ensures { result ≡ option_map (min (2 ^ 56)) (digits_of digits.now) }
{
    let mut value = 0;
    for digit in digits {
        if !digit.is_ascii_digit() {
            return None;
        }
        value = (10 * value + u64::from(*digit - b'0')).min(MOST);
    }
    Some(value)
}

/// The number that digits without a leading zero encode, at most `MOST`.
#[tactic(auto, unfolding(crate::specs::Numbers::natural_of))]
fn natural(digits: &[u8]) -> Option<u64>
    ensures { result ≡ option_map (min (2 ^ 56)) (natural_of digits.now) }
{
    match digits {
        [] | [b'0', _, ..] => None,
        digits => digits_value(digits),
    }
}

/// The whole number that a field encodes, clamped to -2^56 to 2^56.
#[tactic(auto, unfolding(crate::specs::Numbers::whole_of))]
pub fn whole(field: &[u8]) -> Option<i64>
    ensures { result ≡ option_map clamp_whole (whole_of field.now) }
{
    match field {
        [] => None,
        [b'-', digits @ ..] => match natural(digits)? {
            0 => None,
            size => Some(-(size as i64)),
        },
        digits => Some(natural(digits)? as i64),
    }
}

/// What a field is to a reader that expects a number from `low` to `high`.
pub fn number(field: &[u8], low: i64, high: i64) -> ParsedNumber
    requires low { neg_ℤ (pos (2 ^ 56)) <ℤ low }
    requires high { high <ℤ pos (2 ^ 56) }
    ensures { result ≡ number low high (whole_of field.now) }
{
    match whole(field) {
        None => ParsedNumber::NotANumber,
        Some(number) if number < low || number > high => ParsedNumber::OutOfRange,
        Some(number) => ParsedNumber::InRange(number),
    }
}

/// The number from `low` to `high` that a field encodes; any other field is `BadNumber`.
pub fn integer(field: &[u8], low: i64, high: i64) -> Result<i64, LineFault>
    requires low { neg_ℤ (pos (2 ^ 56)) <ℤ low }
    requires high { high <ℤ pos (2 ^ 56) }
    ensures { result ≡ integer low high (whole_of field.now) }
{
    match number(field, low, high) {
        ParsedNumber::InRange(number) => Ok(number),
        ParsedNumber::OutOfRange | ParsedNumber::NotANumber => Err(LineFault::BadNumber),
    }
}
