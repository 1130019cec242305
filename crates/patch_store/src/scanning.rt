//! How the slots of a disk are read, one after another, as it is opened.
ghost use Rattle.std.specs.Prelude.{◌≡◌, ◌+◌, ◌<◌, ◌≤◌, ℕ, List, length, nat_le, IsTrue, IfOk, IfSome, MatchOption};
ghost use Rattle.patch_model.specs.declared.blocks.TheConstants.{BLOCK};
ghost use Rattle.patch_cache.specs.Meaning.{IsCacheOf};
ghost use Rattle.patch_frame.specs.declared.framing.TheConstants.{MAX_KEY, OVERHEAD};
ghost use Rattle.patch_frame.specs.Frame.{frame_at};
ghost use Rattle.patch_frame.specs.Geometry.{IsFormat, IsGeometry, slot_count, largest_pointer};
ghost use Rattle.patch_frame.specs.Slot.{used_fields};
ghost use Rattle.patch_recovery.specs.Ledger.{is_frame_of as holds};
ghost use Rattle.patch_index.specs.Index.{fields_of};
ghost use Rattle.patch_store.specs.Opening.{unchanged, IsSpan, Reads, ReadsSlots, ReadsSlot, ReadsFrame, ReadsPlace};

use patch_cache::Cache;
use patch_extent::{Extents, Place, ReadRefusal};
use patch_frame::{
    Format, Geometry, MAX_KEY, SLOT_BYTES, Slot, SlotState, decode_within, laws as frame_laws,
    read_slot_within, slot_block, slot_start,
};
use patch_history::OpenFault;
use patch_index::{Entry, Index, Key};
use patch_model::BlockNo;
use std::alloc::Allocator;

/// What each slot says, unless one is refused: the lowest that is tells the fault.
pub(crate) fn read_slots<A: Allocator + Copy>(
    alloc: A,
    cache: &Cache<A>,
    extents: &Extents<A>,
    geometry: Geometry,
) -> Result<Index<A>, OpenFault>
    requires geometry { IsGeometry geometry }
    requires extents { extents.now.geometry ≡ geometry }
    ensures count { IfOk result (λ index. length index ≡ slot_count geometry) }
    ensures read { Reads cache.now extents.now (ReadsSlots geometry result) }
{
    let count = geometry.slot_count();
    let Ok(mut index) = Index::with_room(alloc, count) else {
        return Err(OpenFault::OutOfMemory);
    };
    for slot in 0..count {
        let entry = read_slot(cache, extents, geometry, &index, slot)?;
        let Ok(()) = index.push(entry) else {
            return Err(OpenFault::OutOfMemory);
        };
    }
    Ok(index)
}

/// What a slot says, where the lower ones are these.
fn read_slot<A: Allocator + Copy>(
    cache: &Cache<A>,
    extents: &Extents<A>,
    geometry: Geometry,
    lower: &Index<A>,
    slot: u32,
) -> Result<Option<Entry>, OpenFault>
    requires geometry { IsGeometry geometry }
    requires extents { extents.now.geometry ≡ geometry }
    requires within { slot < slot_count geometry }
    ensures { Reads cache.now extents.now (ReadsSlot geometry lower.now slot result) }
{
    let start = slot_start(slot);
    let Some(bytes) = span(cache, BlockNo(slot_block(slot)), start, SLOT_BYTES) else {
        // Never so in a cache that represents an execution: the slot lies on the disk. Of no other is anything promised.
        return Err(OpenFault::BadSlot(slot));
    };
    let Ok(state) = read_slot_within(bytes, geometry.format.longest_frame()) else {
        return Err(OpenFault::BadSlot(slot));
    };
    let SlotState::Used(named) = state else {
        return Ok(None);
    };
    let entry = read_entry(cache, extents, geometry.format, &named, slot)?;
    if lower.slot_of(named.key).is_some() {
        return Err(OpenFault::DuplicateKey(slot));
    }
    Ok(Some(entry))
}

/// The frame that a used slot names, if it is one of the slot's key.
fn read_entry<A: Allocator + Copy>(
    cache: &Cache<A>,
    extents: &Extents<A>,
    format: Format,
    named: &Slot<'_>,
    slot: u32,
) -> Result<Entry, OpenFault>
    requires format { IsFormat format }
    requires extents { extents.now.geometry.format ≡ format }
    requires key { length named.now.key.now ≤ MAX_KEY }
    ensures fields { IfOk result (λ entry. fields_of entry ≡ used_fields named.now) }
    ensures read { Reads cache.now extents.now (ReadsFrame extents.now.geometry slot (used_fields named.now) result) }
{
    frame_laws::the_longest_extents_reach_the_limit();
    let bytes = read_place(cache, extents, named, slot)?;
    if !is_frame_of(named, &bytes, format.value_limit()) {
        return Err(OpenFault::BadFrame(slot));
    }
    if !ends_within(named, format) {
        // Never so in a cache that represents an execution: the frame ends before a pointer, which lies within its extent.
        return Err(OpenFault::BadFrame(slot));
    }
    Ok(Entry {
        key: Key::of(named.key),
        extent: named.extent as u32,
        generation: named.generation,
        offset: named.offset,
        length: named.length,
    })
}

/// The bytes at the place that a used slot names, if it lies before its extent's pointer, in the extent's generation.
fn read_place<A: Allocator + Copy>(
    cache: &Cache<A>,
    extents: &Extents<A>,
    named: &Slot<'_>,
    slot: u32,
) -> Result<Vec<u8, A>, OpenFault>
    ensures { Reads cache.now extents.now (ReadsPlace extents.now.geometry slot (used_fields named.now) result) }
{
    let place = Place {
        extent: named.extent as u32,
        generation: named.generation,
        offset: named.offset,
        len: named.length,
    };
    match extents.read(cache, place) {
        Ok(bytes) => Ok(bytes),
        Err(ReadRefusal::NoSuchExtent) => Err(OpenFault::BadSlot(slot)),
        Err(ReadRefusal::OldGeneration) => Err(OpenFault::BadFrame(slot)),
        Err(ReadRefusal::PastPointer) => Err(OpenFault::BadFrame(slot)),
        Err(ReadRefusal::OutOfMemory) => Err(OpenFault::OutOfMemory),
    }
}

/// Whether the place that a used slot names ends within an extent.
fn ends_within(named: &Slot<'_>, format: Format) -> bool
    requires { IsFormat format }
    ensures { result ≡ nat_le (named.now.offset + named.now.length) (largest_pointer format) }
{
    named.offset.saturating_add(named.length) <= format.largest_pointer()
}

/// Whether the bytes are one frame of just the slot's length, with the slot's key.
fn is_frame_of(named: &Slot<'_>, bytes: &[u8], limit: u32) -> bool
    ensures value { result ≡ holds (used_fields named.now) (frame_at limit bytes.now) }
    ensures whole { IsTrue result → OVERHEAD + length named.now.key.now ≤ named.now.length }
{
    match decode_within(bytes, limit) {
        Ok(frame) => frame.key == named.key && frame.length == named.length as usize,
        Err(_) => false,
    }
}

/// So many bytes of a block.
pub(crate) fn span<A: Allocator + Copy>(
    cache: &Cache<A>,
    block: BlockNo,
    start: usize,
    len: usize,
) -> Option<&[u8]>
    ensures long { IfSome result (λ bytes. length bytes.now ≡ len) }
    ensures bytes { (blocks : List (List ℕ)) → IsCacheOf cache.now (unchanged blocks) → block < length blocks → start + len ≤ BLOCK
        → MatchOption result ⊥ (λ bytes. IsSpan blocks block start len bytes.now) }
{
    let Ok(bytes) = cache.read(block, start, len) else {
        return None;
    };
    if bytes.len() == len {
        Some(bytes)
    } else {
        None
    }
}
