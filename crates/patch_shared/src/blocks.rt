//! Whole blocks of a cache, and copies of all of them.
ghost use Rattle.std.specs.Prelude.{◌≡◌, ◌<◌, length, IfOk, MatchOption};
ghost use Rattle.patch_model.specs.Execution.{Execution};
ghost use Rattle.patch_model.specs.History.{cached, history_of};
ghost use Rattle.patch_cache.specs.Meaning.{IsCacheOf};
ghost use Rattle.patch_model.specs.Renewed.{cached_blocks};

use patch_cache::Cache;
use patch_model::{BLOCK, BlockBytes, BlockNo, OutOfMemory, laws as model_laws};
use std::alloc::Allocator;

/// The bytes of a block with all its patches, where there is such a block.
pub(crate) fn cached_block<A: Allocator + Copy>(cache: &Cache<A>, n: u32) -> Option<&[u8]>
    ensures { (run : Execution) → IsCacheOf cache.now run → n < length run.first
        → MatchOption result ⊥ (λ bytes. bytes.now ≡ cached (history_of run n)) }
{
    model_laws::executions_are_orderly();
    match cache.read(BlockNo(n), 0, BLOCK) {
        Ok(bytes) => Some(bytes),
        Err(_) => None,
    }
}

/// The cached bytes of all blocks.
#[tactic(auto, using(crate::proofs::Lengths::copied_more))]
pub(crate) fn copy_cached<A: Allocator + Copy>(
    alloc: A,
    cache: &Cache<A>,
) -> Result<Vec<BlockBytes<A>, A>, OutOfMemory>
    ensures { (run : Execution) → IsCacheOf cache.now run → IfOk result (λ blocks. blocks.items ≡ cached_blocks run) }
{
    let mut blocks = Vec::new(alloc);
    for n in 0..cache.blocks() {
        // Never so in a cache that represents an execution: there is such a block. Of no other is anything promised.
        let Some(bytes) = cached_block(cache, n) else {
            return Err(OutOfMemory);
        };
        blocks.push(copy_block(alloc, bytes)?)?;
    }
    Ok(blocks)
}

/// A block of these bytes.
fn copy_block<A: Allocator>(alloc: A, bytes: &[u8]) -> Result<BlockBytes<A>, OutOfMemory>
    ensures { IfOk result (λ block. block ≡ bytes.now) }
{
    // Never so in such a cache either, whose blocks have all their bytes.
    if bytes.len() != BLOCK {
        return Err(OutOfMemory);
    }
    BlockBytes::from_slice(alloc, bytes)
}
