//! The numbers of patches, blocks, groups and marks, as C has them.
ghost use Rattle.std.specs.Prelude.{◌≡◌, length, IfOk};
ghost use Rattle.patch_handles.specs.Copying.{copied, answer_copying};
ghost use Rattle.patch_engine_c.specs.Numbers.{mark_number, undo_of};

use patch_handles::Answer;
use patch_model::{BlockNo, GroupNo, Mark, OutOfMemory, PatchNo, Undo};
use std::alloc::Global;

// `FSTCH_MAY_DROP`.
const MAY_DROP: u32 = 1;

/// The number of a patch.
pub fn number_of_patch(patch: PatchNo) -> u32
    ensures { result ≡ patch }
{
    patch.0
}

/// The number of a block.
pub fn number_of_block(block: BlockNo) -> u32
    ensures { result ≡ block }
{
    block.0
}

/// The number of a group.
pub fn number_of_group(group: GroupNo) -> u32
    ensures { result ≡ group }
{
    group.0
}

/// How far a patch has come, by a number.
pub fn mark_number(mark: Mark) -> u32
    ensures { result ≡ mark_number mark }
{
    match mark {
        Mark::Memory => 0,
        Mark::Flight => 1,
        Mark::Durable => 2,
    }
}

/// Whether a patch's undo bytes may be dropped, by its flags.
pub fn undo_of(flags: u32) -> Undo
    ensures { result ≡ undo_of flags }
{
    if flags % 2 == MAY_DROP {
        return Undo::MayDrop;
    }
    Undo::Keep
}

/// The patches of these numbers.
pub fn patches_of(alloc: Global, numbers: &[u32]) -> Result<Vec<PatchNo>, OutOfMemory>
    ensures { IfOk result (λ patches. patches.items ≡ numbers.now) }
{
    let patches = numbers.iter().map(|number| PatchNo(*number));
    Ok(patches.collect(alloc)?)
}

/// Copies the numbers of patches to the front of a buffer, where they fit, and says how many they are.
pub fn copy_numbers(patches: &[PatchNo], into: &mut [u32], count: &mut usize) -> Answer
    ensures answer { result ≡ answer_copying patches.now into.old }
    ensures numbers { into.new ≡ copied patches.now into.old }
    ensures count { count.new ≡ length patches.now }
{
    *count = patches.len();
    if patches.len() > into.len() {
        return Answer::BufferTooSmall;
    }
    for n in 0..patches.len() {
        into[n] = number_of_patch(patches[n]);
    }
    Answer::Done
}
