//! Fields and numbers by hand. Lines, replies, invalid texts, and readers and writers that fail
//! stand in the stored run of `runs_texts`.

use pf_shapes::Progress;
use pf_text::{
    LineError, LineFault, ParsedNumber, ReadFailed, WriteFailed, fields_of, integer, laws, number,
    whole,
};
use std::alloc::{AllocError, Global};
use std::test::Fail;

/// The errors of lines, and the others.
fn names(alloc: Global) -> Result<String, AllocError> {
    let (bad, number) = (LineFault::BadLine, LineError::Fault(LineFault::BadNumber));
    let memory = LineError::Memory;
    Ok(format!(in alloc; "{bad} {number}, {memory}, {ReadFailed}, {WriteFailed}")?)
}

#[test]
fn errors_are_shown_by_their_names(rt: HostRuntime) -> Result<(), Fail> {
    let names = names(rt.alloc())?;
    let expected = "BadLine BadNumber, out of memory, read failed, write failed";
    assert!(rt; names.as_str() == expected);
    Ok(())
}

#[test]
fn fields_are_separated_by_one_space(rt: HostRuntime) -> Result<(), Fail> {
    let fields = fields_of(rt.alloc(), b"circle - 7\t")?;
    let expected = [b"circle".as_slice(), b"-".as_slice(), b"7\t".as_slice()];
    assert!(rt; fields.as_slice() == expected.as_slice());
    Ok(())
}

#[test]
fn numbers_have_one_encoding(rt: HostRuntime) {
    let table = [
        (b"-7".as_slice(), ParsedNumber::InRange(-7)),
        (b"101".as_slice(), ParsedNumber::OutOfRange),
        (
            b"100000000000000000000000".as_slice(),
            ParsedNumber::OutOfRange,
        ),
        (b"05".as_slice(), ParsedNumber::NotANumber),
        (b"-0".as_slice(), ParsedNumber::NotANumber),
        (b"+1".as_slice(), ParsedNumber::NotANumber),
    ];
    for (field, parsed) in table {
        assert!(rt; number(field, -100, 100) == parsed, "{field:?}");
    }
    assert!(rt; integer(b"21", 0, 20) == Err(LineFault::BadNumber));
    assert!(rt; whole(b"-99999999999999999999") == Some(-(1 << 56)));
}

#[test]
fn laws_are_called(_rt: HostRuntime) {
    laws::lines_are_the_parts_between_feeds();
    laws::fields_are_the_parts_between_spaces();
    laws::numbers_have_one_encoding();
    laws::outputs_follow_one_another::<(), Progress>();
    laws::skipped_lines_change_only_numbers::<(), Progress>();
    laws::named_limits();
}
