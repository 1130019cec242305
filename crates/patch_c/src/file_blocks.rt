//! The blocks of a file whose bytes are given.
ghost use Rattle.std.specs.Prelude.{◌≡◌, ◌*◌, length, IfOk, IfErr};
ghost use Rattle.patch_device.specs.Blocks.{FitsFile};
ghost use Rattle.patch_c.specs.Opening.{blocks_in, IsWhyNot};

use crate::unopened::Unopened;
use patch_device::whole_blocks;
use patch_model::{BLOCK, BlockBytes, RefusalKind};
use std::alloc::Global;

/// The blocks of a file, as they were read.
#[derive(Drop)]
pub struct Given {
    pub blocks: Vec<BlockBytes>,
}

/// Copies of the blocks.
pub fn blocks_in(alloc: Global, bytes: &[u8]) -> Result<Vec<BlockBytes>, Unopened>
    ensures blocks { IfOk result (λ blocks. blocks.items ≡ blocks_in bytes.now) }
    ensures whole { IfOk result (λ blocks. length bytes.now ≡ length blocks.items * BLOCK) }
    ensures fits { IfOk result (λ blocks. FitsFile (length blocks.items)) }
    ensures why { IfErr result (λ why. IsWhyNot bytes.now why.refusal) }
{
    let Some(count) = whole_blocks(bytes.len() as u64) else {
        return Err(Unopened::of(RefusalKind::FileSize.bare()));
    };
    let mut blocks = Vec::with_capacity(alloc, count as usize)?;
    for n in 0..count {
        let start = n as usize * BLOCK;
        blocks.push(BlockBytes::from_slice(alloc, &bytes[start..start + BLOCK])?)?;
    }
    Ok(blocks)
}
