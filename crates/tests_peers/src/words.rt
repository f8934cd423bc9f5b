//! Words as the system has them.

use pf_console::ProgramError;
use pf_program::words_of;
use std::alloc::AllocError;
use std::env::FillError;
use std::rt::Env;
use std::test::Fail;

/// A call with these words. It has no environment variables.
#[derive(Clone, Copy)]
struct Call<'a> {
    words: &'a [&'a [u8]],
}

impl Env for Call<'_> {
    fn arg(&self, i: usize, buf: &mut [u8]) -> Result<usize, FillError> {
        match self.words.get(i) {
            Some(word) if word.len() <= buf.len() => {
                buf[..word.len()].copy_from_slice(word);
                Ok(word.len())
            }
            Some(_) => Err(FillError::TooLong),
            None => Err(FillError::NotPresent),
        }
    }

    fn var(&self, _name: &str, _buf: &mut [u8]) -> Result<usize, FillError> {
        Err(FillError::NotPresent)
    }

    fn var_at(&self, _i: usize, _buf: &mut [u8]) -> Result<usize, FillError> {
        Err(FillError::NotPresent)
    }
}

/// Whether words are these.
fn are(found: &[String], words: &[&[u8]]) -> bool {
    found
        .iter()
        .map(|word| word.as_bytes())
        .eq(words.iter().copied())
}

#[test]
fn all_words_are_read_in_order(rt: HostRuntime) -> Result<(), Fail> {
    let words = [b"pf_play".as_slice(), b"frame", b"", b"\xc3\xa4 \n\0"];
    let found = words_of(&(Call { words: &words }, rt.alloc()))?;
    assert!(rt; are(&found, &words));
    Ok(())
}

/// Adds words of 50 bytes, 100 bytes and so on, up to 4,950.
fn add_long_words<'a>(words: &mut Vec<&'a [u8]>, long: &'a [u8]) -> Result<(), AllocError> {
    for length in 1..100usize {
        if let Some(word) = long.get(..50 * length) {
            words.push(word)?;
        }
    }
    Ok(())
}

#[test]
fn long_words_are_read_whole(rt: HostRuntime) -> Result<(), Fail> {
    let long = vec![in rt.alloc(); b'0'; 5000]?;
    let mut words = Vec::new(rt.alloc());
    add_long_words(&mut words, &long)?;
    let found = words_of(&(Call { words: &words }, rt.alloc()))?;
    assert!(rt; words.len() == 99 && are(&found, &words));
    Ok(())
}

/// What is reported of words that are no text.
const NO_TEXT: &str = "error: invalid UTF-8 was detected in one or more arguments\n\n\
    Usage: pf_play <COMMAND>\n\nFor more information, try '--help'.\n";

#[test]
fn words_that_are_no_text_are_a_mistake(rt: HostRuntime) -> Result<(), Fail> {
    let words = [b"pf_play".as_slice(), b"run", b"\xff"];
    match words_of(&(Call { words: &words }, rt.alloc())) {
        Err(ProgramError::Words(text)) => assert!(rt; text.as_str() == NO_TEXT),
        Err(ProgramError::Memory) => return Err(AllocError)?,
        _ => return Err(Fail::from("words that are no text are read")),
    }
    Ok(())
}
