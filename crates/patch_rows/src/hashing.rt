//! How a number is hashed.
use std::hash::{BuildHasher, Hasher};

/// 2^32 over the golden ratio, an odd number.
const GOLDEN: u32 = 0x9E37_79B1;

/// A hasher for numbers in a row: one product. Those that come to lie in one group of a map differ in the bits that a group tells them
/// apart by.
#[derive(Clone, Copy)]
pub struct InARow(u32);

impl InARow {
    /// A hasher that has read nothing.
    pub fn new() -> InARow {
        InARow(0)
    }
}

impl Hasher for InARow {
    ghost use Rattle.patch_rows.specs.Hashing.{fed, spread};

    ghost write = { fed };

    ghost finish = { spread };

    #[inline(always)]
    fn finish(&self) -> u64 {
        u64::from(self.0.wrapping_mul(GOLDEN))
    }

    #[inline(always)]
    fn write(&mut self, bytes: &[u8]) {
        if bytes.len() == 4 {
            self.0 = u32::from_le_bytes([bytes[0], bytes[1], bytes[2], bytes[3]]);
        }
    }
}

impl BuildHasher for InARow {
    type Hasher = InARow;

    ghost build_hasher = { λ s. s };

    #[inline(always)]
    fn build_hasher(&self) -> InARow {
        *self
    }
}
