//! What is read of a cache's blocks, with all their patches.
ghost use Rattle.std.specs.Prelude.{Bool, ℕ, ◌≡◌, ◌+◌, ◌≤◌, IsTrue, IsFalse, Some, MatchResult, IsNone, option_map};
ghost use Rattle.patch_model.specs.declared.blocks.TheConstants.{BLOCK};
ghost use Rattle.patch_model.specs.Execution.{Execution};
ghost use Rattle.patch_cache.specs.Contents.{is_resident};
ghost use Rattle.patch_cache.specs.Meaning.{IsCacheOf, IsCacheBy, IsPagedCacheOf};
ghost use Rattle.patch_cache.specs.Paging.{if_resident};
ghost use Rattle.patch_cache.specs.Refusals.{read_cause};
ghost use Rattle.patch_cache.specs.Viewing.{why_not_read, IsRead};

use crate::caches::Cache;
use crate::refusals::ReadRefusal;
use patch_model::{BLOCK, BlockNo};
use std::alloc::Allocator;

impl<A: Allocator + Copy> Cache<A> {
    /// The `len` bytes of a block from `start` on, with all its patches. It takes no memory.
    pub fn read(&self, block: BlockNo, start: usize, len: usize) -> Result<&[u8], ReadRefusal>
        ensures answer { (run : Execution) → IsCacheOf self.now run → MatchResult result
            (λ bytes. IsRead run block start len bytes.now)
            (λ refusal. why_not_read run block start len ≡ Some (read_cause refusal)) }
        ensures paged { (run : Execution) → IsPagedCacheOf self.now run → MatchResult result
            (λ bytes. IsRead run block start len bytes.now)
            (λ refusal. if_resident self.now block (why_not_read run block start len) ≡ Some (read_cause refusal)) }
    {
        let Some(row) = self.rows.get(block.0) else {
            return Err(self.why_absent(block));
        };
        if len > BLOCK || start > BLOCK - len {
            return Err(ReadRefusal::OutOfBlock);
        }
        Ok(&row.state.cached()[start..start + len])
    }

    /// Why nothing is shown of a block that isn't resident.
    fn why_absent(&self, block: BlockNo) -> ReadRefusal
        ensures { (whole : Bool) (run : Execution) (start len : ℕ) → IsCacheBy whole self.now run → IsFalse (is_resident self.now block)
            → if_resident self.now block (why_not_read run block start len) ≡ Some (read_cause result) }
    {
        if block.0 as usize >= self.rows.len() {
            ReadRefusal::NoSuchBlock
        } else {
            ReadRefusal::NotResident(block)
        }
    }

    /// The first cause against a look at the span.
    pub(crate) fn why_not_shown(
        &self,
        block: BlockNo,
        start: usize,
        len: usize,
    ) -> Option<ReadRefusal>
        ensures cause { (whole : Bool) (run : Execution) → IsCacheBy whole self.now run
            → option_map read_cause result ≡ if_resident self.now block (why_not_read run block start len) }
        ensures resident { IsNone result → IsTrue (is_resident self.now block) }
        ensures fits { IsNone result → start + len ≤ BLOCK }
    {
        if block.0 as usize >= self.rows.len() {
            Some(ReadRefusal::NoSuchBlock)
        } else if !self.rows.contains(block.0) {
            Some(ReadRefusal::NotResident(block))
        } else if len > BLOCK || start > BLOCK - len {
            Some(ReadRefusal::OutOfBlock)
        } else {
            None
        }
    }
}
