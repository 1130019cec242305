//! Extents: worked appends, resets and reads in both versions, the limit of live patches, want of memory, and the texts of refusals.
use crate::expecting::{Said, expect_equal};
use patch_cache::Cache;
use patch_extent::{
    AppendRefusal, Appended, Extents, ExtentsFault, MergeOutcome, Place, ReadRefusal, ResetRefusal,
};
use patch_frame::{Format, Geometry};
use patch_group::Groups;
use patch_model::{
    BLOCK, BlockBytes, BlockNo, GroupNo, MAX_BLOCKS, MAX_LIVE, OutOfMemory, PatchNo, RefusalKind,
    Refuses, Step, Undo, WriterNo,
};
use patch_testing::zeros;
use std::alloc::{AllocError, Allocator, Global};
use std::process::Abort;
use std::test::Fail;

mod limits;
mod memory;
mod names;
mod walks;

fn write_records<A: Allocator + Copy>(blocks: &mut [BlockBytes<A>], records: &[u8]) {
    if let Some(third) = blocks.get_mut(2) {
        if records.len() <= BLOCK {
            third.write(0, records);
        }
    }
}

// So many blocks of zeros, the third of which begins with these bytes.
fn blocks_with<A: Allocator + Copy>(
    alloc: A,
    count: usize,
    records: &[u8],
) -> Result<Vec<BlockBytes<A>, A>, OutOfMemory> {
    let mut blocks = zeros(alloc, count)?;
    write_records(&mut blocks, records);
    Ok(blocks)
}

// One index block and two extents.
fn geometry_of(format: Format) -> Geometry {
    Geometry {
        index: 1,
        extents: 2,
        format,
    }
}

// How many blocks a disk of this format has.
fn count_blocks(rt: &impl Abort, format: Format) -> usize {
    let geometry = geometry_of(format);
    assert!(rt; geometry.is_valid());
    geometry.block_count() as usize
}

// A cache of a disk of zeros, but for these pointer records. Whoever has it, or a bench, lets it go by `drop`, which takes the prover
// less than the end of its scope.
fn open_cache<A: Allocator + Copy>(
    rt: &impl Abort,
    alloc: A,
    format: Format,
    records: &[u8],
) -> Result<Cache<A>, OutOfMemory> {
    let blocks = blocks_with(alloc, count_blocks(rt, format), records)?;
    assert!(rt; !blocks.is_empty() && blocks.len() <= MAX_BLOCKS);
    Cache::open(alloc, blocks)
}

fn open_extents<A: Allocator + Copy>(
    rt: &impl Abort,
    alloc: A,
    cache: &Cache<A>,
    format: Format,
) -> Result<Extents<A>, ExtentsFault> {
    let geometry = geometry_of(format);
    assert!(rt; geometry.is_valid());
    assert!(rt; cache.blocks() == geometry.block_count());
    Extents::open(alloc, cache, geometry)
}

// A cache, with its groups and its extents.
#[derive(Drop)]
struct Bench<A: Allocator + Copy = Global> {
    cache: Cache<A>,
    groups: Groups<A>,
    extents: Extents<A>,
}

fn open_bench<A: Allocator + Copy>(
    rt: &impl Abort,
    alloc: A,
    format: Format,
    records: &[u8],
) -> Result<Bench<A>, Fail> {
    let cache = open_cache(rt, alloc, format, records)?;
    match open_extents(rt, alloc, &cache, format) {
        Ok(extents) => Ok(Bench {
            cache,
            groups: Groups::new(alloc),
            extents,
        }),
        Err(_) => {
            drop(cache);
            Err(Fail::from("extents were not opened"))
        }
    }
}

// Appends these bytes, of which there is one at least.
fn append<A: Allocator + Copy>(
    bench: &mut Bench<A>,
    writer: Option<WriterNo>,
    extent: u32,
    bytes: &[u8],
    after: &[PatchNo],
) -> Result<Appended, AppendRefusal> {
    if bytes.is_empty() {
        return Err(AppendRefusal::OutOfMemory);
    }
    let Bench {
        cache,
        groups,
        extents,
    } = bench;
    extents.append(cache, groups, writer, extent, bytes, after)
}

fn reset<A: Allocator + Copy>(bench: &mut Bench<A>, extent: u32) -> Result<PatchNo, ResetRefusal> {
    let Bench { cache, extents, .. } = bench;
    extents.reset(cache, extent, &[])
}

fn kind_of<T: Copy, R: Refuses>(answer: Result<T, R>) -> Said {
    match answer {
        Ok(_) => Ok(()),
        Err(refusal) => Err(refusal.kind()),
    }
}
