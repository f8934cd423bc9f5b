//! A source and a sink in memory, which expose their bytes to proofs.

ghost use Rattle.std.specs.Prelude.{◌≡◌, Some, []};

use crate::lines::{ReadFailed, Sink, Source, WriteFailed};
use std::alloc::Global;

/// A source of bytes in memory. It never fails.
#[derive(Clone, Copy, Debug)]
pub struct Bytes<'a> {
    rest: &'a [u8],
}

impl<'a> Bytes<'a> {
    /// A source of these bytes.
    pub fn new(bytes: &'a [u8]) -> Self
        ensures { ⟦<Bytes<'a> as Source>⟧.remaining result ≡ Some bytes.now }
    {
        Bytes { rest: bytes }
    }
}

impl Source for Bytes<'_> {
    ghost remaining = { λ source. Some source.rest.now };

    ghost ready = { λ source. source.rest.now };

    ghost failures = { λ _. 0 };

    #[inline]
    fn fill(&mut self) -> Result<(), ReadFailed> {
        Ok(())
    }

    #[inline]
    fn ready(&self) -> &[u8] {
        self.rest
    }

    #[inline]
    fn skip(&mut self, count: usize) {
        self.rest = &self.rest[count..];
    }
}

/// A sink that keeps in memory the bytes that are written. It fails where no memory is left.
#[derive(Debug, Drop)]
pub struct Collected {
    bytes: Vec<u8>,
    failures: u64,
}

impl Collected {
    /// A sink that has taken no bytes yet.
    pub fn new(alloc: Global) -> Self
        ensures contents { ⟦<Collected as Sink>⟧.contents result ≡ Some [] }
        ensures failures { ⟦<Collected as Sink>⟧.failures result ≡ 0 }
    {
        Collected {
            bytes: Vec::new(alloc),
            failures: 0,
        }
    }

    /// The bytes that were written.
    pub fn bytes(&self) -> &[u8]
        ensures { ⟦<Collected as Sink>⟧.contents self.now ≡ Some result.now }
    {
        &self.bytes
    }
}

impl Sink for Collected {
    ghost contents = { λ sink. Some sink.bytes.items };

    ghost failures = { λ sink. sink.failures };

    #[tactic(auto, using(crate::proofs::Taking::appends_prefix_none))]
    fn write_all(&mut self, bytes: &[u8]) -> Result<(), WriteFailed> {
        if self.bytes.extend_from_slice(bytes).is_ok() {
            return Ok(());
        }
        self.failures += 1;
        Err(WriteFailed)
    }
}
