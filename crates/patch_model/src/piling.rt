//! Patches laid on a block one after another, slowly and plainly.
ghost use Rattle.std.specs.Prelude.{◌≡◌, ◌≤◌, IfOk, All};
ghost use Rattle.patch_model.specs.Pile.{end, pile as the_pile};

use crate::blocks::{BLOCK, BlockBytes};
use crate::patches::Patch;
use crate::refusals::OutOfMemory;
use std::alloc::Allocator;

/// The block `first` with the patches laid on it, the first of them first.
pub fn pile<A: Allocator, B: Allocator>(
    alloc: A,
    first: &BlockBytes<B>,
    patches: &[Patch<B>],
) -> Result<BlockBytes<A>, OutOfMemory>
    requires { All (λ p. end p ≤ BLOCK) patches.now }
    ensures { IfOk result (λ block. block ≡ the_pile first.now patches.now) }
{
    let mut block = BlockBytes::from_slice(alloc, first.as_slice())?;
    for patch in patches {
        block.write(patch.start, patch.bytes.as_slice());
    }
    Ok(block)
}
