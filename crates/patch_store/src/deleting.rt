//! How a key is taken away.
ghost use Rattle.std.specs.Prelude.{◌≡◌, Some, IfOk, OnErr, option_to_list, length, ◌<◌};
ghost use Rattle.patch_frame.specs.Geometry.{slot_block as the_slot_block, slot_start as the_slot_start};
ghost use Rattle.patch_frame.specs.Field.{zeros};
ghost use Rattle.patch_extent.specs.Appending.{LaysPatch};
ghost use Rattle.patch_history.specs.Command.{Delete, Done};
ghost use Rattle.patch_history.specs.Refusals.{delete_cause};
ghost use Rattle.patch_store.specs.Meaning.{Answers};
ghost use Rattle.patch_store.specs.Deleting.{ClearsSlot};
ghost use Rattle.patch_store.specs.Replies.{reply_to};

use crate::stores::Store;
use patch_cache::Cache;
use patch_frame::{MAX_KEY, SLOT_BYTES, slot_block, slot_start};
use patch_group::Groups;
use patch_history::{DeleteRefusal, laws as history_laws};
use patch_model::{
    BlockNo, Bytes, MAX_LIVE, MAX_PATCHES, Names, OutOfMemory, PatchNo, Undo, WriterNo,
};
use std::alloc::Allocator;

impl<A: Allocator + Copy> Store<A> {
    /// Takes a key away: one patch clears its slot. What the frame took of its extent is won back by a reclaim.
    pub fn delete(&mut self, writer: WriterNo, key: &[u8]) -> Result<(), DeleteRefusal>
        ensures answer { Answers writer (Delete key.now) (reply_to delete_cause (λ _. Done) result) self.old self.new }
        ensures refused { OnErr result (self.new ≡ self.old) }
    {
        history_laws::histories_extend();
        history_laws::shelves_are_kept();
        history_laws::histories_are_of_stores();
        if key.is_empty() {
            return Err(DeleteRefusal::KeyLength);
        }
        if key.len() > MAX_KEY {
            return Err(DeleteRefusal::KeyLength);
        }
        let Some(slot) = self.index.slot_of(key) else {
            return Err(DeleteRefusal::NoKey);
        };
        if self.cache.made() >= MAX_PATCHES {
            return Err(DeleteRefusal::NumbersSpent);
        }
        if self.cache.live() >= MAX_LIVE {
            return Err(DeleteRefusal::TooManyLive);
        }
        let Ok(()) = self.clear_slot(writer, slot) else {
            return Err(DeleteRefusal::OutOfMemory);
        };
        Ok(())
    }

    /// Makes the patch that clears a used slot, and notes it.
    fn clear_slot(&mut self, writer: WriterNo, slot: u32) -> Result<(), OutOfMemory>
        requires { slot < length self.old.shelf.slots }
        ensures { ClearsSlot writer slot result self.old self.new }
    {
        let alloc = self.alloc;
        let Some(entry) = self.index.entry(slot) else {
            return Err(OutOfMemory);
        };
        let names = Names::of_some(self.last_delete, None, None);
        // Never so in a store that represents a history: its slots name extents of the disk. Of no other is anything promised.
        let Some(left) = self.left.get_mut(entry.extent as usize) else {
            return Err(OutOfMemory);
        };
        let Ok(()) = left.reserve(1) else {
            return Err(OutOfMemory);
        };
        let Ok(no) = lay_slot(
            alloc,
            &mut self.groups,
            &mut self.cache,
            writer,
            slot,
            names,
        ) else {
            return Err(OutOfMemory);
        };
        left.push_reserved(no);
        self.index.clear(slot);
        self.last_delete = Some(no);
        Ok(())
    }
}

/// Makes the patch of an empty slot.
fn lay_slot<A: Allocator + Copy>(
    alloc: A,
    groups: &mut Groups<A>,
    cache: &mut Cache<A>,
    writer: WriterNo,
    slot: u32,
    after: Names<A>,
) -> Result<PatchNo, OutOfMemory>
    ensures { LaysPatch (the_slot_block slot) (the_slot_start slot) (zeros SLOT_BYTES) (Some writer) after result
        groups.old cache.old groups.new cache.new }
{
    let empty = Vec::from_slice(alloc, &[0_u8; SLOT_BYTES])?;
    let bytes = Bytes::from_vec(empty);
    let block = BlockNo(slot_block(slot));
    let start = slot_start(slot);
    match groups.create_owned(cache, writer, block, start, bytes, after, Undo::MayDrop) {
        Ok(no) => Ok(no),
        Err(_) => Err(OutOfMemory),
    }
}
