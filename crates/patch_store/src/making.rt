//! The blocks of a new disk.
ghost use Rattle.std.specs.Prelude.{◌≡◌, ◌-◌, Ok, Err, IsTrue, IsFalse, IfOk};
ghost use Rattle.patch_frame.specs.Field.{zeros};
ghost use Rattle.patch_frame.specs.Geometry.{IsGeometry, is_geometry};
ghost use Rattle.patch_frame.specs.Superblock.{spelling as superblock};
ghost use Rattle.patch_history.specs.declared.refusals.MakeRefusal.TheVariants as refusal;
ghost use Rattle.patch_store.specs.Making.{new_disk, IsNewDisk};

use patch_frame::{Geometry, laws as frame_laws, write_superblock};
use patch_history::MakeRefusal;
use patch_model::{BlockBytes, OutOfMemory};
use std::alloc::Allocator;

/// The blocks of a new disk that is divided so: the superblock, and blocks of zeros. They read as the empty map.
pub fn make<A: Allocator + Copy>(
    alloc: A,
    geometry: Geometry,
) -> Result<Vec<BlockBytes<A>, A>, MakeRefusal>
    ensures made { IfOk result (λ blocks. blocks.items ≡ new_disk geometry) }
    ensures reads { IfOk result (λ blocks. IsNewDisk geometry blocks.items) }
    ensures geometry { IfOk result (λ _. IsTrue (is_geometry geometry)) }
    ensures refused { result ≡ Err refusal.Geometry → IsFalse (is_geometry geometry) }
    ensures no_geometry { IsFalse (is_geometry geometry) → result ≡ Err refusal.Geometry }
{
    frame_laws::superblocks_are_read_again();
    if !geometry.is_valid() {
        return Err(MakeRefusal::Geometry);
    }
    match new_blocks(alloc, geometry) {
        Ok(blocks) => Ok(blocks),
        Err(_) => Err(MakeRefusal::OutOfMemory),
    }
}

/// The blocks, where a disk may be divided so.
fn new_blocks<A: Allocator + Copy>(
    alloc: A,
    geometry: Geometry,
) -> Result<Vec<BlockBytes<A>, A>, OutOfMemory>
    requires { IsGeometry geometry }
    ensures { IfOk result (λ blocks. blocks.items ≡ new_disk geometry) }
{
    let count = geometry.block_count();
    let mut blocks = Vec::with_capacity(alloc, count as usize)?;
    blocks.push(write_superblock(alloc, geometry)?)?;
    for _ in 0..count - 1 {
        blocks.push(BlockBytes::zeros(alloc)?)?;
    }
    Ok(blocks)
}
