//! How a frame is put into an extent and named by a slot.
ghost use Rattle.std.specs.Prelude.{◌≡◌, ◌<◌, ◌++◌, [], Some, None, IfOk, IfSome, OnOk, length, option_to_list};
ghost use Rattle.patch_frame.specs.declared.slots.TheConstants.{MAX_FRAME};
ghost use Rattle.patch_frame.specs.Geometry.{slot_block as the_slot_block, slot_start as the_slot_start};
ghost use Rattle.patch_frame.specs.Slot.{FitsUsed, spelling};
ghost use Rattle.patch_extent.specs.Answers.{asked};
ghost use Rattle.patch_extent.specs.Appending.{LaysPatch};
ghost use Rattle.patch_history.specs.Shelf.{slot_at};
ghost use Rattle.patch_index.specs.Index.{fields_of};
ghost use Rattle.patch_store.specs.Framing.{next_fields, names_behind, delete_before as the_delete_before, FillsSlot, AppendsFrame, PutsFrame};
ghost use Rattle.patch_store.specs.Merging.{counted_with};

use crate::stores::Store;
use patch_cache::Cache;
use patch_extent::MergeOutcome;
use patch_frame::{
    MAX_FRAME, MAX_KEY, MAX_POINTER, OVERHEAD, Slot, SlotState, laws as frame_laws, slot_block,
    slot_start, write_slot,
};
use patch_group::Groups;
use patch_history::laws as history_laws;
use patch_index::{Entry, Key};
use patch_model::{BlockNo, Bytes, Names, OutOfMemory, PatchNo, Undo, WriterNo};
use std::alloc::Allocator;

impl<A: Allocator + Copy> Store<A> {
    /// Puts the frame of a key into an extent, and lets a slot name it: the patches are a writer's, or none's. They were
    /// counted. Where memory runs out some first ones of them were made; a slot names the whole frame or none of it.
    pub(crate) fn put_frame(
        &mut self,
        writer: &Option<WriterNo>,
        slot: u32,
        extent: u32,
        key: &[u8],
        frame: Bytes<A>,
    ) -> Result<(), OutOfMemory>
        requires slot { slot < length self.old.shelf.slots }
        requires known { extent < self.old.shelf.extents.geometry.extents }
        ensures { PutsFrame writer.now slot extent key.now frame result self.old self.new }
    {
        history_laws::frames_compose();
        history_laws::plans_continue();
        frame_laws::frames_are_read_again();
        let len = frame.as_slice().len();
        let Some(entry) = self.next_entry(extent, key, len) else {
            return Err(OutOfMemory);
        };
        let Ok(point) = self.append_frame(writer, extent, frame) else {
            return Err(OutOfMemory);
        };
        let Ok(()) = self.name_frame(writer, slot, &entry, point) else {
            return Err(OutOfMemory);
        };
        Ok(())
    }

    /// What a slot says of a frame of the key that is appended to the extent next. There is none that is too long for it.
    fn next_entry(&self, extent: u32, key: &[u8], len: usize) -> Option<Entry>
        requires { extent < self.now.shelf.extents.geometry.extents }
        ensures fields { IfSome result (λ entry. fields_of entry ≡ next_fields self.now.shelf extent key.now len) }
        ensures fits { IfSome result (λ entry. FitsUsed MAX_FRAME (fields_of entry)) }
        ensures some { IfSome result (λ _. 0 < len) }
    {
        if key.is_empty() || key.len() > MAX_KEY {
            return None;
        }
        if len < OVERHEAD as usize + key.len() || len > MAX_FRAME as usize {
            return None;
        }
        let (generation, offset) = self.extents.pointer(extent);
        let length = len as u32;
        if offset > MAX_POINTER - length {
            return None;
        }
        Some(Entry {
            key: Key::of(key),
            extent,
            generation,
            offset,
            length,
        })
    }

    /// Appends a frame. Its extent is the current one from then on.
    fn append_frame(
        &mut self,
        writer: &Option<WriterNo>,
        extent: u32,
        frame: Bytes<A>,
    ) -> Result<PatchNo, OutOfMemory>
        requires some { 0 < length frame }
        requires known { extent < self.old.shelf.extents.geometry.extents }
        ensures { AppendsFrame (asked writer.now extent frame []) result self.old self.new }
    {
        let Ok(appended) = self.extents.append_given(
            &mut self.cache,
            &mut self.groups,
            *writer,
            extent,
            frame,
            &[],
        )
        else {
            return Err(OutOfMemory);
        };
        self.current = Some(extent);
        self.left_out = counted_with(self.left_out, appended.merge);
        Ok(appended.pointer_patch)
    }

    /// Lets a slot name a frame whose pointer patch this is.
    fn name_frame(
        &mut self,
        writer: &Option<WriterNo>,
        slot: u32,
        entry: &Entry,
        point: PatchNo,
    ) -> Result<(), OutOfMemory>
        requires slot { slot < length self.old.shelf.slots }
        requires fits { FitsUsed MAX_FRAME (fields_of entry.now) }
        ensures { FillsSlot writer.now slot (fields_of entry.now) (names_behind self.old.shelf slot point) result self.old self.new }
    {
        let names = self.names_for(slot, point);
        match self.index.entry(slot) {
            Some(was) => self.refill_slot(writer, slot, &was, entry, names),
            None => self.claim_slot(writer, slot, entry, names),
        }
    }

    /// What the patch of a slot comes after.
    fn names_for(&self, slot: u32, point: PatchNo) -> Names<A>
        ensures { result ≡ names_behind self.now.shelf slot point }
    {
        Names::of_some(Some(point), self.delete_before(slot), self.upgrade)
    }

    /// The last delete, which comes before the patch of a slot that is empty.
    fn delete_before(&self, slot: u32) -> Option<PatchNo>
        ensures { option_to_list result ≡ the_delete_before self.now.shelf slot }
    {
        match self.index.entry(slot) {
            Some(_) => None,
            None => self.last_delete,
        }
    }

    /// Fills an empty slot.
    fn claim_slot(
        &mut self,
        writer: &Option<WriterNo>,
        slot: u32,
        entry: &Entry,
        names: Names<A>,
    ) -> Result<(), OutOfMemory>
        requires slot { slot < length self.old.shelf.slots }
        requires fits { FitsUsed MAX_FRAME (fields_of entry.now) }
        requires empty { slot_at self.old.shelf slot ≡ None }
        ensures { FillsSlot writer.now slot (fields_of entry.now) names result self.old self.new }
    {
        let alloc = self.alloc;
        let Ok(_) = lay_slot(
            alloc,
            &mut self.groups,
            &mut self.cache,
            writer,
            slot,
            entry,
            names,
        ) else {
            return Err(OutOfMemory);
        };
        self.index.fill(slot, *entry);
        Ok(())
    }

    /// Fills a slot that was used. Its entry leaves the extent that it named.
    fn refill_slot(
        &mut self,
        writer: &Option<WriterNo>,
        slot: u32,
        was: &Entry,
        entry: &Entry,
        names: Names<A>,
    ) -> Result<(), OutOfMemory>
        requires slot { slot < length self.old.shelf.slots }
        requires fits { FitsUsed MAX_FRAME (fields_of entry.now) }
        requires used { slot_at self.old.shelf slot ≡ Some (fields_of was.now) }
        ensures { FillsSlot writer.now slot (fields_of entry.now) names result self.old self.new }
    {
        let alloc = self.alloc;
        // Never so in a store that represents a history: its slots name extents of the disk. Of no other is anything promised.
        let Some(left) = self.left.get_mut(was.extent as usize) else {
            return Err(OutOfMemory);
        };
        let Ok(()) = left.reserve(1) else {
            return Err(OutOfMemory);
        };
        let Ok(no) = lay_slot(
            alloc,
            &mut self.groups,
            &mut self.cache,
            writer,
            slot,
            entry,
            names,
        ) else {
            return Err(OutOfMemory);
        };
        left.push_reserved(no);
        self.index.fill(slot, *entry);
        Ok(())
    }
}

/// Makes the patch of a slot that names a frame. The slot's bytes are written first; the patch takes them and the names.
fn lay_slot<A: Allocator + Copy>(
    alloc: A,
    groups: &mut Groups<A>,
    cache: &mut Cache<A>,
    writer: &Option<WriterNo>,
    slot: u32,
    entry: &Entry,
    after: Names<A>,
) -> Result<PatchNo, OutOfMemory>
    requires { FitsUsed MAX_FRAME (fields_of entry.now) }
    ensures { LaysPatch (the_slot_block slot) (the_slot_start slot) (spelling (Some (fields_of entry.now))) writer.now after result
        groups.old cache.old groups.new cache.new }
{
    let said = SlotState::Used(Slot {
        key: entry.key.as_slice(),
        extent: entry.extent as u16,
        generation: entry.generation,
        offset: entry.offset,
        length: entry.length,
    });
    let written = write_slot(alloc, &said)?;
    let bytes = Bytes::from_vec(written);
    let block = BlockNo(slot_block(slot));
    let start = slot_start(slot);
    match groups.create_given(cache, *writer, block, start, bytes, after, Undo::MayDrop) {
        Ok(no) => Ok(no),
        Err(_) => Err(OutOfMemory),
    }
}

/// A count of merges that had no memory, with one more where this had none.
fn counted_with(count: u32, merge: MergeOutcome) -> u32
    ensures { result ≡ counted_with count merge }
{
    match merge {
        MergeOutcome::NoMemory => count.saturating_add(1),
        MergeOutcome::Made | MergeOutcome::NotLegal => count,
    }
}
