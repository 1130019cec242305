//! Blocks of zeros.
ghost use Rattle.std.specs.Prelude.{◌≡◌, IfOk, replicate};

use patch_model::{BLOCK, BlockBytes, OutOfMemory};
use std::alloc::Allocator;

/// So many blocks of zeros.
pub fn zeros<A: Allocator + Copy>(
    alloc: A,
    count: usize,
) -> Result<Vec<BlockBytes<A>, A>, OutOfMemory>
    ensures { IfOk result (λ blocks. blocks.items ≡ replicate count (replicate BLOCK 0)) }
{
    let mut blocks = Vec::new(alloc);
    for _ in 0..count {
        blocks.push(BlockBytes::zeros(alloc)?)?;
    }
    Ok(blocks)
}
