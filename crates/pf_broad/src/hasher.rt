//! The hash of cells.

ghost use Rattle.std.specs.Prelude.{◌≡◌};
ghost use Rattle.pf_broad.specs.CellHasher.{number_of};

use std::hash::{BuildHasher, Hasher};

/// A hasher of cells: a sum and a product for each of their numbers, without a seed. Where a map
/// looks first depends on it, and no look-up's result does.
#[derive(Clone, Copy)]
pub(crate) struct CellHasher {
    state: u64,
}

/// 2^64 over the golden ratio, an odd number: products with it spread over the high bits.
const MULTIPLIER: u64 = 0x9e37_79b9_7f4a_7c15;

impl CellHasher {
    /// The hasher of every cell.
    pub(crate) const START: CellHasher = CellHasher { state: 0 };
}

/// Eight bytes as a number, the lowest byte first.
#[inline]
fn number_of(bytes: &[u8]) -> u64
    ensures { result ≡ number_of bytes.now }
{
    if bytes.len() != 8 {
        return 0;
    }
    let [a, b, c, d] = [bytes[0], bytes[1], bytes[2], bytes[3]];
    let [e, f, g, h] = [bytes[4], bytes[5], bytes[6], bytes[7]];
    u64::from_le_bytes([a, b, c, d, e, f, g, h])
}

impl Hasher for CellHasher {
    ghost use Rattle.pf_broad.specs.CellHasher.{write};

    ghost write = { write };

    ghost finish = { λ h. h.state };

    #[inline]
    fn finish(&self) -> u64 {
        self.state
    }

    #[inline]
    #[tactic(auto, unfolding(crate::specs::CellHasher::write))]
    fn write(&mut self, bytes: &[u8]) {
        self.state = self
            .state
            .wrapping_add(number_of(bytes))
            .wrapping_mul(MULTIPLIER);
    }
}

impl BuildHasher for CellHasher {
    type Hasher = CellHasher;

    ghost build_hasher = { λ s. s };

    #[inline]
    fn build_hasher(&self) -> CellHasher {
        *self
    }
}
