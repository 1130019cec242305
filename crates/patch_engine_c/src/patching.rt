//! How patches are made, and become one.
ghost use Rattle.std.specs.Prelude.{◌≡◌, ◌↔◌, IsFalse};
ghost use Rattle.patch_handles.specs.Answering.{number_of};
ghost use Rattle.patch_engine_c.specs.Handle.{StaysClosed, Between};
ghost use Rattle.patch_engine_c.specs.Patching.{TellsPatching, TellsMerging};

use crate::handle::Handle;
use crate::numbers::{number_of_patch, patches_of, undo_of};
use crate::opened::Opened;
use patch_handles::{Answer, NOT_OPEN, patching_writer, refused};
use patch_model::{BlockNo, PatchNo, RefusalKind, Refuses};
use std::alloc::Global;

impl Opened {
    fn patch(
        &mut self,
        alloc: Global,
        writer: u32,
        block: u32,
        start: usize,
        bytes: &[u8],
        after: &[u32],
        flags: u32,
        patch: &mut u32,
    ) -> Answer
        ensures { TellsPatching (number_of result) writer block start bytes.now after.now flags patch.old patch.new self.old.engine self.new.engine }
    {
        let Some(writer) = patching_writer(writer) else {
            return Answer::BadWriter;
        };
        let Ok(after) = patches_of(alloc, after) else {
            return Answer::Refused(RefusalKind::OutOfMemory);
        };
        match self.engine.patch(writer, BlockNo(block), start, bytes, &after, undo_of(flags)) {
            Ok(made) => {
                *patch = number_of_patch(made);
                Answer::Done
            }
            Err(refusal) => Answer::Refused(refusal.kind()),
        }
    }

    fn merge(&mut self, a: u32, b: u32, name: &mut u32, which: &mut u32) -> Answer
        ensures { TellsMerging (number_of result) a b name.old name.new which.old which.new self.old.engine self.new.engine }
    {
        match self.engine.merge(PatchNo(a), PatchNo(b)) {
            Ok(merged) => {
                *name = number_of_patch(merged);
                Answer::Done
            }
            Err(refusal) => refused(refusal.refusal(), which),
        }
    }
}

/// Makes a patch of a writer, or of none: these bytes of a block from `start` on, behind the patches that it names. It depends on these, on
/// each earlier patch of the block that shares a byte with it, and on all patches of all groups before those that the writer has engaged.
#[unsafe(no_mangle)]
pub extern "C" fn fstch_cache_patch(
    handle: &mut Handle,
    alloc: Global,
    writer: u32,
    block: u32,
    start: usize,
    bytes: &[u8],
    after: &[u32],
    flags: u32,
    patch: &mut u32,
) -> i32
    ensures open { handle.new.is_open ≡ handle.old.is_open }
    ensures not_open { (result ≡ NOT_OPEN) ↔ IsFalse handle.old.is_open }
    ensures closed { StaysClosed handle.old handle.new }
    ensures told { Between handle.old handle.new (TellsPatching result writer block start bytes.now after.now flags patch.old patch.new) }
    ensures refused { IsFalse handle.old.is_open → patch.new ≡ patch.old }
{
    let Some(mut opened) = handle.take(alloc) else {
        return NOT_OPEN;
    };
    let answer = opened.patch(alloc, writer, block, start, bytes, after, flags, patch);
    handle.put_back(opened);
    answer.number()
}

/// Makes one class of the classes of two patches of a block, which go to the disk together from then on.
#[unsafe(no_mangle)]
pub extern "C" fn fstch_cache_merge(
    handle: &mut Handle,
    alloc: Global,
    a: u32,
    b: u32,
    name: &mut u32,
    which: &mut u32,
) -> i32
    ensures open { handle.new.is_open ≡ handle.old.is_open }
    ensures not_open { (result ≡ NOT_OPEN) ↔ IsFalse handle.old.is_open }
    ensures closed { StaysClosed handle.old handle.new }
    ensures told { Between handle.old handle.new (TellsMerging result a b name.old name.new which.old which.new) }
    ensures refused { IsFalse handle.old.is_open → (name.new ≡ name.old) × (which.new ≡ which.old) }
{
    let Some(mut opened) = handle.take(alloc) else {
        return NOT_OPEN;
    };
    let answer = opened.merge(a, b, name, which);
    handle.put_back(opened);
    answer.number()
}
