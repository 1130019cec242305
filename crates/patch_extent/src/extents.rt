//! The extents of a disk, and how they are opened.
ghost use Rattle.std.specs.Prelude.{true, false, ◌≡◌, ◌<◌, ◌≤◌, length, IfOk, MatchOption};
ghost use Rattle.patch_frame.specs.Geometry.{IsGeometry, block_count};
ghost use Rattle.patch_plans.specs.Extents.{generation_at, offset_at, empty_extents as the_empty_extents};
ghost use Rattle.patch_recovery.specs.Change.{widened};
ghost use Rattle.patch_extent.specs.Opening.{AreRecords, IsRecord, is_bad_record, has_bad_record, has_bad_pointers};
ghost use Rattle.patch_extent.specs.Answers.{IsOpened};

use crate::empties::EmptyExtents;
use crate::refusals::ExtentsFault;
use patch_cache::Cache;
use patch_frame::{
    Format, Geometry, POINTER_BYTES, Pointer, is_zeros, pointer_start, read_pointer_within,
};
use patch_model::{BLOCK, BlockNo, OutOfMemory, laws as model_laws};
use patch_plans::Extent;
use std::alloc::{Allocator, Global};
use std::marker::Model;

/// The extents of a disk whose blocks are those of a cache. Each is filled at its write pointer by `append`, and emptied by
/// `reset`, which raises its generation. What the extents make of patches stands in the cache; kept here is what no block
/// says: the pointer records as they are cached, and which patches the next ones have to come after.
#[derive(Drop)]
pub struct Extents<A: Allocator + Copy = Global> {
    pub(crate) alloc: A,
    pub(crate) geometry: Geometry,
    pub(crate) each: Vec<Extent, A>,
    /// Those whose pointer is 0.
    pub(crate) empty: EmptyExtents<A>,
}

impl<A: Allocator + Copy> Model for Extents<A> {
    ghost use Rattle.std.specs.Prelude.{◌≡◌};
    ghost use Rattle.patch_plans.specs.Extents.{Extents as ExtentsValue, AreWhole, empty_extents as the_empty_extents};

    ghost Value = { ExtentsValue };

    ghost view = { λ s. record { geometry = s.geometry; each = s.each.items } };

    ghost invariant = { λ s. AreWhole (record { geometry = s.geometry; each = s.each.items })
        × (s.empty ≡ the_empty_extents (record { geometry = s.geometry; each = s.each.items })) };
}

impl<A: Allocator + Copy> Extents<A> {
    /// The extents of a cache of a disk that is divided so, with the pointers that are cached. All of them are read before
    /// memory is asked for. Patches of the pointer block that were made before aren't known, so there is to be none.
    pub fn open(alloc: A, cache: &Cache<A>, geometry: Geometry) -> Result<Extents<A>, ExtentsFault>
        requires geometry { IsGeometry geometry }
        requires blocks { block_count geometry ≡ length cache.now.blocks }
        ensures opened { IsOpened cache.now geometry result }
        ensures geometry { IfOk result (λ extents. extents.geometry ≡ geometry) }
    {
        model_laws::executions_are_orderly();
        let Ok(block) = cache.read(BlockNo(geometry.pointer_block()), 0, BLOCK) else {
            // Never so in a cache that represents an execution: the disk has that block. Of no other is anything promised.
            return Err(ExtentsFault::BadPointer);
        };
        // Nor is this ever so in such a cache, whose blocks have all their bytes.
        if block.len() < BLOCK {
            return Err(ExtentsFault::BadPointer);
        }
        if has_bad_pointers(block, geometry) {
            return Err(ExtentsFault::BadPointer);
        }
        let each = read_records(alloc, block, geometry)?;
        let empty = EmptyExtents::of(alloc, each.as_slice())?;
        Ok(Extents {
            alloc,
            geometry,
            each,
            empty,
        })
    }

    /// The extents whose pointer is 0, in rising order. They are kept so, and none is looked for.
    pub fn empty_extents(&self) -> &[u16]
        ensures { result.now ≡ the_empty_extents self.now }
    {
        self.empty.as_slice()
    }

    /// The generation of an extent and its write pointer, as the cache has them.
    pub fn pointer(&self, extent: u32) -> (u32, u32)
        requires { extent < self.now.geometry.extents }
        ensures { result ≡ (generation_at self.now extent, offset_at self.now extent) }
    {
        let pointer = self.each[extent as usize].pointer;
        (pointer.generation, pointer.offset)
    }

    /// How the disk is divided.
    pub fn geometry(&self) -> Geometry
        ensures { result ≡ self.now.geometry }
    {
        self.geometry
    }

    /// How an upgrade divides the disk: in version 2, with each extent where it is.
    pub(crate) fn widened(&self) -> Geometry
        ensures { result ≡ widened self.now.geometry }
    {
        Geometry {
            index: self.geometry.index,
            extents: self.geometry.extents,
            format: Format::Two {
                length: Format::One.extent_blocks(),
            },
        }
    }
}

/// Whether a record can't be read, or a byte behind the last one isn't zero.
fn has_bad_pointers(block: &[u8], geometry: Geometry) -> bool
    requires geometry { IsGeometry geometry }
    requires long { BLOCK ≤ length block.now }
    ensures { result ≡ has_bad_pointers geometry block.now }
{
    has_bad_record(block, geometry)
        || !is_zeros(&block[POINTER_BYTES * geometry.extents as usize..BLOCK])
}

/// Whether a record can't be read.
fn has_bad_record(block: &[u8], geometry: Geometry) -> bool
    requires geometry { IsGeometry geometry }
    requires long { BLOCK ≤ length block.now }
    ensures { result ≡ has_bad_record geometry block.now }
{
    for extent in 0..geometry.extents {
        let Some(_) = read_record(block, geometry, extent) else {
            return true;
        };
    }
    false
}

/// The record of each extent, of which no patch is known. Each of them can be read, as was looked at before.
fn read_records<A: Allocator>(
    alloc: A,
    block: &[u8],
    geometry: Geometry,
) -> Result<Vec<Extent, A>, OutOfMemory>
    requires geometry { IsGeometry geometry }
    requires long { BLOCK ≤ length block.now }
    requires read { has_bad_record geometry block.now ≡ false }
    ensures { IfOk result (λ each. AreRecords geometry block.now each.items geometry.extents) }
{
    let mut each = Vec::with_capacity(alloc, geometry.extents as usize)?;
    for extent in 0..geometry.extents {
        let Some(record) = read_record(block, geometry, extent) else {
            unreachable!()
        };
        each.push(record)?;
    }
    Ok(each)
}

/// The record of one extent, if it can be read.
fn read_record(block: &[u8], geometry: Geometry, extent: u32) -> Option<Extent>
    requires geometry { IsGeometry geometry }
    requires known { extent < geometry.extents }
    requires long { BLOCK ≤ length block.now }
    ensures { MatchOption result (is_bad_record geometry block.now extent ≡ true) (IsRecord geometry block.now extent) }
{
    let start = pointer_start(extent);
    let bytes = &block[start..start + POINTER_BYTES];
    match read_pointer_within(bytes, geometry.format.largest_pointer()) {
        Ok(pointer) => Some(Extent {
            pointer,
            reset: None,
            point: None,
        }),
        Err(_) => None,
    }
}
