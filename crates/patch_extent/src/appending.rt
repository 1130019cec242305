//! How bytes are appended to an extent.
ghost use Rattle.std.specs.Prelude.{◌≡◌, ◌≢◌, ◌+◌, ◌<◌, ◌≤◌, Some, None, length, OnOk, OnErr, IfErr};
ghost use Rattle.patch_model.specs.Execution.{Execution};
ghost use Rattle.patch_model.specs.State.{entries_of};
ghost use Rattle.patch_frame.specs.Geometry.{largest_pointer, pointer_block, pointer_start};
ghost use Rattle.patch_frame.specs.Pointer.{Fits, spelling};
ghost use Rattle.patch_cache.specs.Meaning.{IsCacheOf};
ghost use Rattle.patch_extent.specs.declared.refusals.AppendRefusal.TheVariants as append;
ghost use Rattle.patch_plans.specs.Extents.{offset_at};
ghost use Rattle.patch_plans.specs.Planning.{touched};
ghost use Rattle.patch_extent.specs.Refusals.{append_cause};
ghost use Rattle.patch_extent.specs.Refusing.{why_not_appended};
ghost use Rattle.patch_extent.specs.Answers.{setting, asked, AnswersAppend};
ghost use Rattle.patch_extent.specs.Appending.{AppendsCounted, LaysPart, LaysParts, LaysPatch, MergesBehind};
ghost use Rattle.patch_extent.specs.Merging.{outcome_of};

use crate::counting::count_patches;
use crate::extents::Extents;
use crate::parting::{numbers_from, part_end, part_start, touched, with_one_more};
use crate::places::{Appended, MergeOutcome, Place};
use crate::refusals::AppendRefusal;
use patch_cache::{Cache, MergeRefusal};
use patch_frame::{Pointer, laws as frame_laws, pointer_start, write_pointer};
use patch_group::Groups;
use patch_model::{
    BLOCK, BlockNo, Bytes, Names, OutOfMemory, PatchNo, Undo, WriterNo, laws as model_laws,
};
use std::alloc::Allocator;

impl<A: Allocator + Copy> Extents<A> {
    /// Puts bytes at an extent's pointer and moves it past them. There is one data patch for each block touched, rising, each
    /// behind `after` and the extent's last reset; then the pointer patch, behind all of them. It becomes one with the last
    /// patch of the record just where they may be merged, unless there is no memory for that: a refusal of that merge is none
    /// of the append, which tells what came of it.
    ///
    /// The patches are the writer's, and join its groups. All of them are counted before the first is made. Where memory runs
    /// out the pointer and all bytes below it are as they were; bytes past it may differ, and are never read before they
    /// are written again.
    pub fn append(
        &mut self,
        cache: &mut Cache<A>,
        groups: &mut Groups<A>,
        writer: Option<WriterNo>,
        extent: u32,
        bytes: &[u8],
        after: &[PatchNo],
    ) -> Result<Appended, AppendRefusal>
        requires { 0 < length bytes.now }
        ensures answer { AnswersAppend (asked writer extent bytes.now after.now) result
            (setting self.old groups.old cache.old) (setting self.new groups.new cache.new) }
        ensures geometry { self.new.geometry ≡ self.old.geometry }
        ensures refused { OnErr result (self.new ≡ self.old) }
        ensures refused_groups { IfErr result (λ refusal. refusal ≢ append.OutOfMemory → groups.new ≡ groups.old) }
        ensures refused_cache { IfErr result (λ refusal. refusal ≢ append.OutOfMemory → cache.new ≡ cache.old) }
    {
        self.why_not_appended(cache, extent, bytes.len(), after)?;
        let bytes = Bytes::from_slice(self.alloc, bytes)?;
        Ok(self.append_counted(cache, groups, writer, extent, bytes, after)?)
    }

    /// Appends as [`append`](Extents::append) does, bytes that the caller gives up: where they touch one block its patch takes
    /// them, and they aren't copied for it.
    pub fn append_given(
        &mut self,
        cache: &mut Cache<A>,
        groups: &mut Groups<A>,
        writer: Option<WriterNo>,
        extent: u32,
        bytes: Bytes<A>,
        after: &[PatchNo],
    ) -> Result<Appended, AppendRefusal>
        requires { 0 < length bytes }
        ensures answer { AnswersAppend (asked writer extent bytes after.now) result
            (setting self.old groups.old cache.old) (setting self.new groups.new cache.new) }
        ensures geometry { self.new.geometry ≡ self.old.geometry }
        ensures refused { OnErr result (self.new ≡ self.old) }
        ensures refused_groups { IfErr result (λ refusal. refusal ≢ append.OutOfMemory → groups.new ≡ groups.old) }
        ensures refused_cache { IfErr result (λ refusal. refusal ≢ append.OutOfMemory → cache.new ≡ cache.old) }
    {
        let len = bytes.as_slice().len();
        self.why_not_appended(cache, extent, len, after)?;
        Ok(self.append_counted(cache, groups, writer, extent, bytes, after)?)
    }

    /// Whether so many bytes can be appended: the first cause against it.
    fn why_not_appended(
        &self,
        cache: &Cache<A>,
        extent: u32,
        len: usize,
        after: &[PatchNo],
    ) -> Result<(), AppendRefusal>
        requires { 0 < len }
        ensures none { (run : Execution) → IsCacheOf cache.now run
            → OnOk result (why_not_appended self.now (entries_of run) extent len after.now ≡ None) }
        ensures cause { (run : Execution) → IsCacheOf cache.now run → IfErr result (λ refusal.
            why_not_appended self.now (entries_of run) extent len after.now ≡ Some (append_cause refusal)) }
        ensures known { OnOk result (extent < self.now.geometry.extents) }
        ensures room { OnOk result (offset_at self.now extent + len ≤ largest_pointer self.now.geometry.format) }
        ensures numbers { OnOk result (cache.now.graph.made ≤ 16777216) }
        ensures memory { IfErr result (λ refusal. refusal ≢ append.OutOfMemory) }
    {
        if extent >= self.geometry.extents {
            return Err(AppendRefusal::NoSuchExtent);
        }
        let offset = self.each[extent as usize].pointer.offset;
        if len > (self.geometry.format.largest_pointer() - offset) as usize {
            return Err(AppendRefusal::ExtentFull);
        }
        Ok(count_patches(cache, after, touched(offset, len as u32) + 1)?)
    }

    /// Appends bytes where there is no cause against it.
    fn append_counted(
        &mut self,
        cache: &mut Cache<A>,
        groups: &mut Groups<A>,
        writer: Option<WriterNo>,
        extent: u32,
        bytes: Bytes<A>,
        after: &[PatchNo],
    ) -> Result<Appended, OutOfMemory>
        requires some { 0 < length bytes }
        requires known { extent < self.old.geometry.extents }
        requires room { offset_at self.old extent + length bytes ≤ largest_pointer self.old.geometry.format }
        requires numbers { cache.old.graph.made ≤ 16777216 }
        ensures answer { AppendsCounted (asked writer extent bytes after.now) result
            (setting self.old groups.old cache.old) (setting self.new groups.new cache.new) }
        ensures geometry { self.new.geometry ≡ self.old.geometry }
        ensures refused { OnErr result (self.new ≡ self.old) }
    {
        model_laws::steps_extend();
        model_laws::executions_are_orderly();
        frame_laws::pointers_are_read_again();
        let kept = self.each[extent as usize];
        let len = bytes.as_slice().len() as u32;
        let names = with_one_more(self.alloc, after, &kept.reset)?;
        let count = touched(kept.pointer.offset, len);
        let numbers = numbers_from(self.alloc, cache.made(), count)?;
        self.lay_given(cache, groups, &writer, extent, bytes, names)?;
        let moved = Pointer {
            generation: kept.pointer.generation,
            offset: kept.pointer.offset + len,
        };
        let no = self.lay_pointer(cache, groups, &writer, extent, moved, numbers)?;
        let merge = merge_behind(cache, &kept.point, no);
        let record = &mut self.each[extent as usize];
        record.pointer = moved;
        record.point = Some(no);
        self.empty.take(extent);
        Ok(Appended {
            place: Place {
                extent,
                generation: kept.pointer.generation,
                offset: kept.pointer.offset,
                len,
            },
            pointer_patch: no,
            merge,
        })
    }

    /// Makes a data patch for each block that the bytes touch. Where that is one, its patch takes the bytes.
    fn lay_given(
        &self,
        cache: &mut Cache<A>,
        groups: &mut Groups<A>,
        writer: &Option<WriterNo>,
        extent: u32,
        bytes: Bytes<A>,
        names: Names<A>,
    ) -> Result<(), OutOfMemory>
        requires some { 0 < length bytes }
        requires known { extent < self.now.geometry.extents }
        requires room { offset_at self.now extent + length bytes ≤ largest_pointer self.now.geometry.format }
        ensures { LaysParts (asked writer.now extent bytes names) result
            (setting self.now groups.old cache.old) (setting self.now groups.new cache.new) }
    {
        let offset = self.each[extent as usize].pointer.offset;
        if touched(offset, bytes.as_slice().len() as u32) > 1 {
            return self.lay_parts(cache, groups, writer, extent, bytes.as_slice(), names);
        }
        model_laws::steps_extend();
        let block = BlockNo(self.geometry.first_block(extent) + offset / BLOCK as u32);
        lay(
            cache,
            groups,
            writer,
            block,
            offset as usize % BLOCK,
            bytes,
            names,
        )?;
        Ok(())
    }

    /// Makes a data patch for each block that the bytes touch. The last of them takes the names, the others copies of them.
    fn lay_parts(
        &self,
        cache: &mut Cache<A>,
        groups: &mut Groups<A>,
        writer: &Option<WriterNo>,
        extent: u32,
        bytes: &[u8],
        names: Names<A>,
    ) -> Result<(), OutOfMemory>
        requires some { 0 < length bytes.now }
        requires known { extent < self.now.geometry.extents }
        requires room { offset_at self.now extent + length bytes.now ≤ largest_pointer self.now.geometry.format }
        ensures { LaysParts (asked writer.now extent bytes.now names) result
            (setting self.now groups.old cache.old) (setting self.now groups.new cache.new) }
    {
        model_laws::steps_extend();
        let offset = self.each[extent as usize].pointer.offset;
        let last = touched(offset, bytes.len() as u32) - 1;
        for k in 0..last {
            let same = names.copied(self.alloc)?;
            self.lay_part(cache, groups, writer, extent, bytes, k, same)?;
        }
        self.lay_part(cache, groups, writer, extent, bytes, last, names)?;
        Ok(())
    }

    /// Makes the data patch of the `k`-th block that the bytes touch.
    fn lay_part(
        &self,
        cache: &mut Cache<A>,
        groups: &mut Groups<A>,
        writer: &Option<WriterNo>,
        extent: u32,
        bytes: &[u8],
        k: u32,
        names: Names<A>,
    ) -> Result<PatchNo, OutOfMemory>
        requires some { 0 < length bytes.now }
        requires known { extent < self.now.geometry.extents }
        requires room { offset_at self.now extent + length bytes.now ≤ largest_pointer self.now.geometry.format }
        requires within { k < touched (offset_at self.now extent) (length bytes.now) }
        ensures { LaysPart (asked writer.now extent bytes.now names) k result
            (setting self.now groups.old cache.old) (setting self.now groups.new cache.new) }
    {
        let offset = self.each[extent as usize].pointer.offset;
        let start = part_start(offset, k);
        let end = part_end(offset, bytes.len() as u32, k);
        let block = BlockNo(self.geometry.first_block(extent) + start / BLOCK as u32);
        let part = Bytes::from_slice(
            self.alloc,
            &bytes[(start - offset) as usize..(end - offset) as usize],
        )?;
        lay(
            cache,
            groups,
            writer,
            block,
            start as usize % BLOCK,
            part,
            names,
        )
    }

    /// Makes the patch of an extent's pointer record.
    fn lay_pointer(
        &self,
        cache: &mut Cache<A>,
        groups: &mut Groups<A>,
        writer: &Option<WriterNo>,
        extent: u32,
        pointer: Pointer,
        after: Names<A>,
    ) -> Result<PatchNo, OutOfMemory>
        requires known { extent < self.now.geometry.extents }
        requires fits { Fits (largest_pointer self.now.geometry.format) pointer }
        ensures { LaysPatch (pointer_block self.now.geometry) (pointer_start extent) (spelling pointer) writer.now after result
            groups.old cache.old groups.new cache.new }
    {
        let block = BlockNo(self.geometry.pointer_block());
        let record = write_pointer(pointer);
        let bytes = Bytes::from_slice(self.alloc, &record)?;
        let start = pointer_start(extent);
        lay(cache, groups, writer, block, start, bytes, after)
    }
}

/// Makes a patch that was counted, of bytes and names that are given up. Nothing but want of memory stands against it: its
/// block is there, its bytes are some and fit, and what it names was made.
fn lay<A: Allocator + Copy>(
    cache: &mut Cache<A>,
    groups: &mut Groups<A>,
    writer: &Option<WriterNo>,
    block: BlockNo,
    start: usize,
    bytes: Bytes<A>,
    after: Names<A>,
) -> Result<PatchNo, OutOfMemory>
    ensures { LaysPatch block start bytes writer.now after result groups.old cache.old groups.new cache.new }
{
    match groups.create_given(cache, *writer, block, start, bytes, after, Undo::MayDrop) {
        Ok(no) => Ok(no),
        Err(_) => Err(OutOfMemory),
    }
}

/// Makes one class of a pointer patch and the one before it, where they may be merged.
fn merge_behind<A: Allocator + Copy>(
    cache: &mut Cache<A>,
    before: &Option<PatchNo>,
    no: PatchNo,
) -> MergeOutcome
    ensures { MergesBehind before.now no result cache.old cache.new }
{
    model_laws::pairs_merge();
    match before {
        // A refusal leaves two patches of which the later one depends on the earlier one.
        Some(before) => outcome_of(cache.merge(*before, no)),
        None => MergeOutcome::NotLegal,
    }
}

/// What came of a merge that was tried.
fn outcome_of(tried: Result<PatchNo, MergeRefusal>) -> MergeOutcome
    ensures { result ≡ outcome_of tried }
{
    match tried {
        Ok(_) => MergeOutcome::Made,
        Err(MergeRefusal::OutOfMemory) => MergeOutcome::NoMemory,
        Err(_) => MergeOutcome::NotLegal,
    }
}
