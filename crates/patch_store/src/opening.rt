//! How a store is opened.
ghost use Rattle.std.specs.Prelude.{◌≡◌, ◌<◌, ℕ, List, All, length, map, replicate, find, [], IfOk, IfSome, MatchResult};
ghost use Rattle.std.specs.List.{range_with_len};
ghost use Rattle.patch_cache.specs.Meaning.{IsCacheOf};
ghost use Rattle.patch_plans.specs.Meaning.{AreExtentsOf};
ghost use Rattle.patch_frame.specs.Field.{AreBytes};
ghost use Rattle.patch_frame.specs.Geometry.{IsGeometry, block_count};
ghost use Rattle.patch_plans.specs.Groups.{no_groups};
ghost use Rattle.patch_store.specs.Laws.{ClosedDisksOpen, CrashDisksOpen};
ghost use Rattle.patch_store.specs.Opening.{unchanged, Opens, KeepsCache, IsDivided, IsFaultOf, IsFirstOf, IsWholeDisk, IsDiskOf, pointer_tests, is_open, shelf_of};

use crate::laws;
use crate::scanning::{read_slots, span};
use crate::stores::Store;
use patch_cache::Cache;
use patch_extent::{Extents, ExtentsFault};
use patch_frame::{Geometry, MIN_FRAME, read_superblock};
use patch_group::Groups;
use patch_history::OpenFault;
use patch_index::Index;
use patch_model::{BLOCK, BlockNo, OutOfMemory, PatchNo};
use std::alloc::Allocator;

/// What is read of a disk.
#[derive(Drop)]
struct Disk<A: Allocator + Copy> {
    geometry: Geometry,
    extents: Extents<A>,
    index: Index<A>,
    left: Vec<Vec<PatchNo, A>, A>,
}

impl<A: Allocator + Copy> Store<A> {
    /// The store of a cache's blocks, of which no patch was made yet. Each slot's frame is read, so a store that opens has a
    /// value for each of its keys; what no slot names isn't looked at. Where the blocks aren't those of a store, or there is
    /// no memory, the cache comes back. Whatever closed set of the store's patches reaches the disk from then on, it opens.
    pub fn open(alloc: A, cache: Cache<A>) -> Result<Store<A>, (Cache<A>, OpenFault)>
        ensures opened { (blocks : List (List ℕ)) → IsCacheOf cache (unchanged blocks) → Opens blocks result }
        ensures cache { KeepsCache cache result }
        ensures counted { IfOk result (λ store. store.left_out ≡ 0) }
        ensures closed { ClosedDisksOpen }
        ensures crash { CrashDisksOpen }
    {
        laws::closed_disks_open();
        blocks_are_bytes(&cache);
        match read_disk(alloc, &cache) {
            Ok(disk) => Ok(disk.into_store(alloc, cache)),
            Err(fault) => Err((cache, fault)),
        }
    }
}

impl<A: Allocator + Copy> Disk<A> {
    /// The store of the disk, of which no patch was made yet.
    fn into_store(self, alloc: A, cache: Cache<A>) -> Store<A>
        requires { IsWholeDisk self }
        ensures cache { result.cache ≡ cache }
        ensures groups { result.groups ≡ no_groups }
        ensures shelf { result.shelf ≡ shelf_of self }
        ensures counted { result.left_out ≡ 0 }
    {
        let current = first_open(&self.extents, self.geometry);
        Store {
            alloc,
            geometry: self.geometry,
            cache,
            groups: Groups::new(alloc),
            extents: self.extents,
            index: self.index,
            current,
            last_delete: None,
            upgrade: None,
            left: self.left,
            left_out: 0,
        }
    }
}

/// The disk of the blocks, or the first test that refuses them.
fn read_disk<A: Allocator + Copy>(alloc: A, cache: &Cache<A>) -> Result<Disk<A>, OpenFault>
    ensures whole { IfOk result (λ disk. IsWholeDisk disk) }
    ensures read { (blocks : List (List ℕ)) → IsCacheOf cache.now (unchanged blocks)
        → MatchResult result (λ disk. IsDiskOf blocks disk) (IsFaultOf blocks) }
{
    let geometry = read_geometry(cache)?;
    let extents = open_extents(alloc, cache, geometry)?;
    let index = read_slots(alloc, cache, &extents, geometry)?;
    let Ok(left) = none_left(alloc, geometry.extents) else {
        return Err(OpenFault::OutOfMemory);
    };
    Ok(Disk {
        geometry,
        extents,
        index,
        left,
    })
}

/// How the disk is divided, if there are as many blocks as the superblock says.
fn read_geometry<A: Allocator + Copy>(cache: &Cache<A>) -> Result<Geometry, OpenFault>
    ensures valid { IfOk result (λ g. IsGeometry g) }
    ensures count { IfOk result (λ g. block_count g ≡ length cache.now.blocks) }
    ensures read { (blocks : List (List ℕ)) → IsCacheOf cache.now (unchanged blocks)
        → MatchResult result (IsDivided blocks) (IsFaultOf blocks) }
{
    let Some(bytes) = span(cache, BlockNo(0), 0, BLOCK) else {
        // Never so in a cache that represents an execution, which has a block. Of no other is anything promised.
        return Err(OpenFault::BadSuper);
    };
    let Ok(geometry) = read_superblock(bytes) else {
        return Err(OpenFault::BadSuper);
    };
    if geometry.block_count() != cache.blocks() {
        return Err(OpenFault::FileSize);
    }
    Ok(geometry)
}

/// The extents with their pointers.
fn open_extents<A: Allocator + Copy>(
    alloc: A,
    cache: &Cache<A>,
    geometry: Geometry,
) -> Result<Extents<A>, OpenFault>
    requires geometry { IsGeometry geometry }
    requires blocks { block_count geometry ≡ length cache.now.blocks }
    ensures geometry { IfOk result (λ extents. extents.geometry ≡ geometry) }
    ensures opened { (blocks : List (List ℕ)) → IsCacheOf cache.now (unchanged blocks) → MatchResult result
        (λ extents. AreExtentsOf extents (unchanged blocks)) (IsFirstOf (pointer_tests geometry blocks)) }
{
    match Extents::open(alloc, cache, geometry) {
        Ok(extents) => Ok(extents),
        Err(ExtentsFault::BadPointer) => Err(OpenFault::BadPointer),
        Err(ExtentsFault::OutOfMemory) => Err(OpenFault::OutOfMemory),
    }
}

/// The extent that puts append to: the lowest that is begun and has room for a shortest frame.
pub(crate) fn first_open<A: Allocator + Copy>(
    extents: &Extents<A>,
    geometry: Geometry,
) -> Option<u32>
    requires geometry { IsGeometry geometry }
    requires extents { extents.now.geometry ≡ geometry }
    ensures value { result ≡ find (is_open extents.now) (range_with_len 0 geometry.extents) }
    ensures known { IfSome result (λ extent. extent < geometry.extents) }
{
    for extent in 0..geometry.extents {
        if may_append(extents, geometry, extent) {
            return Some(extent);
        }
    }
    None
}

/// Whether an extent is begun and has room for a shortest frame.
fn may_append<A: Allocator + Copy>(extents: &Extents<A>, geometry: Geometry, extent: u32) -> bool
    requires geometry { IsGeometry geometry }
    requires extents { extents.now.geometry ≡ geometry }
    requires known { extent < geometry.extents }
    ensures { result ≡ is_open extents.now extent }
{
    let (_, offset) = extents.pointer(extent);
    offset >= 1 && offset.saturating_add(MIN_FRAME) <= geometry.format.largest_pointer()
}

/// For each extent that no slot patch has left it.
fn none_left<A: Allocator + Copy>(
    alloc: A,
    extents: u32,
) -> Result<Vec<Vec<PatchNo, A>, A>, OutOfMemory>
    ensures { IfOk result (λ left. map (λ v. v.items) left.items ≡ replicate extents []) }
{
    let mut left = Vec::with_capacity(alloc, extents as usize)?;
    for _ in 0..extents {
        left.push(Vec::new(alloc))?;
    }
    Ok(left)
}

/// What each block of a cache holds are bytes, as what is lent of it shows. Only proofs need this walk: it looks at no byte.
pub(crate) fn blocks_are_bytes<A: Allocator + Copy>(cache: &Cache<A>)
    ensures { (blocks : List (List ℕ)) → IsCacheOf cache.now (unchanged blocks) → All AreBytes blocks }
{
    for block in 0..cache.blocks() {
        if let Some(bytes) = span(cache, BlockNo(block), 0, BLOCK) {
            are_bytes(bytes);
        }
    }
}

/// What is lent as bytes are bytes.
fn are_bytes(bytes: &[u8])
    ensures { AreBytes bytes.now }
{}
