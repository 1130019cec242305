//! The bytes of a block.
ghost use Rattle.std.specs.Prelude.{◌≡◌, ◌+◌, ◌≤◌, IfOk, length, replicate, take, drop, ◌++◌};

use crate::refusals::OutOfMemory;
use std::alloc::{Allocator, Global};
use std::marker::Model;

/// How many bytes a block has.
pub const BLOCK: usize = 4096;

/// The bytes of one block, just [`BLOCK`] of them. To contracts it is the list of its bytes.
#[derive(Debug, Drop)]
pub struct BlockBytes<A: Allocator = Global> {
    bytes: Vec<u8, A>,
}

impl<A: Allocator> Model for BlockBytes<A> {
    ghost use Rattle.std.specs.Prelude.{◌≡◌, List, ℕ, length};

    ghost Value = { List ℕ };

    ghost view = { λ b. b.bytes.items };

    ghost invariant = { λ b. length b.bytes.items ≡ 4096 };
}

impl<A: Allocator> BlockBytes<A> {
    /// A block of zeros.
    pub fn zeros(alloc: A) -> Result<BlockBytes<A>, OutOfMemory>
        ensures { IfOk result (λ block. block ≡ replicate BLOCK 0) }
    {
        let bytes = vec![in alloc; 0; BLOCK]?;
        Ok(BlockBytes { bytes })
    }

    /// A block with a copy of these bytes.
    pub fn from_slice(alloc: A, bytes: &[u8]) -> Result<BlockBytes<A>, OutOfMemory>
        requires { length bytes.now ≡ BLOCK }
        ensures { IfOk result (λ block. block ≡ bytes.now) }
    {
        let bytes = Vec::from_slice(alloc, bytes)?;
        Ok(BlockBytes { bytes })
    }

    /// The block of these bytes. It takes no memory.
    pub fn from_vec(bytes: Vec<u8, A>) -> BlockBytes<A>
        requires { length bytes.items ≡ BLOCK }
        ensures { result ≡ bytes.items }
    {
        BlockBytes { bytes }
    }

    /// The vector that holds the bytes. It takes no memory.
    pub fn into_vec(self) -> Vec<u8, A>
        ensures bytes { result.items ≡ self }
        ensures length { length result.items ≡ BLOCK }
    {
        let BlockBytes { bytes } = self;
        bytes
    }

    /// The bytes, lent.
    pub fn as_slice(&self) -> &[u8]
        ensures bytes { result.now ≡ self.now }
        ensures length { length result.now ≡ BLOCK }
    {
        &self.bytes
    }

    /// Writes the bytes over the block's from `start` on.
    pub fn write(&mut self, start: usize, bytes: &[u8])
        requires { start + length bytes.now ≤ BLOCK }
        ensures { self.new
            ≡ take start self.old ++ bytes.now ++ drop (start + length bytes.now) self.old }
    {
        self.bytes[start..start + bytes.len()].copy_from_slice(bytes);
    }
}
