//! New disks: how many blocks they have, what their superblocks begin with, and which are refused; and what the tests of stores
//! share.
use crate::expecting::{Said, expect_eq};
use patch_cache::Cache;
use patch_frame::{Format, Geometry};
use patch_history::{MakeRefusal, OpenFault};
use patch_model::{
    BLOCK, BlockBytes, MAX_BLOCKS, OutOfMemory, RefusalKind, Refuses, Step, WriterNo,
};
use patch_store::{Store, make};
use std::alloc::{Allocator, Global};
use std::process::Abort;
use std::test::Fail;

mod closed;
mod cuts;
mod flights;
mod flushes;
mod keys;
mod memory;
mod opening;
mod renewals;
mod steps;
mod walks;

use Ask::{Delete, Get, Put, Reclaim, Upgrade};

const WRITER: WriterNo = WriterNo(0);

// One index block and two extents: 35 blocks.
const SMALL: Geometry = Geometry {
    index: 1,
    extents: 2,
    format: Format::One,
};

const OF_THREE: Geometry = Geometry {
    index: 1,
    extents: 3,
    format: Format::One,
};

const OF_FOUR: Geometry = Geometry {
    index: 1,
    extents: 4,
    format: Format::One,
};

const OF_LONGER: Geometry = Geometry {
    index: 1,
    extents: 2,
    format: Format::Two { length: 64 },
};

// Bytes that stand somewhere on a disk: in which block, from where, and which.
type Piece<'a> = (usize, usize, &'a [u8]);

fn made<A: Allocator + Copy>(
    alloc: A,
    geometry: Geometry,
) -> Result<Vec<BlockBytes<A>, A>, OutOfMemory> {
    match make(alloc, geometry) {
        Ok(blocks) => Ok(blocks),
        Err(_) => Err(OutOfMemory),
    }
}

// Lays these bytes on a disk.
fn lay<A: Allocator + Copy>(
    blocks: &mut [BlockBytes<A>],
    block: usize,
    start: usize,
    bytes: &[u8],
) {
    if let Some(block) = blocks.get_mut(block) {
        if bytes.len() <= BLOCK && start <= BLOCK - bytes.len() {
            block.write(start, bytes);
        }
    }
}

fn lay_pieces<A: Allocator + Copy>(blocks: &mut [BlockBytes<A>], pieces: &[Piece<'_>]) {
    for (block, start, bytes) in pieces {
        lay(blocks, *block, *start, bytes);
    }
}

// The blocks of a new disk divided like this, with these pieces over them.
fn disk_with<A: Allocator + Copy>(
    alloc: A,
    geometry: Geometry,
    pieces: &[Piece<'_>],
) -> Result<Vec<BlockBytes<A>, A>, OutOfMemory> {
    let mut blocks = made(alloc, geometry)?;
    lay_pieces(&mut blocks, pieces);
    Ok(blocks)
}

fn cache_of<A: Allocator + Copy>(
    rt: &impl Abort,
    alloc: A,
    blocks: Vec<BlockBytes<A>, A>,
) -> Result<Cache<A>, OutOfMemory> {
    assert!(rt; !blocks.is_empty() && blocks.len() <= MAX_BLOCKS);
    Cache::open(alloc, blocks)
}

// The store of a cache, or what is wrong with it.
fn open_store<A: Allocator + Copy>(
    alloc: A,
    cache: Cache<A>,
) -> Result<Store<A>, (Cache<A>, OpenFault)> {
    Store::open(alloc, cache)
}

// The store that the blocks hold. Whoever has it lets it go by `drop`, which takes the prover less than the end of its scope.
fn opened<A: Allocator + Copy>(
    rt: &impl Abort,
    alloc: A,
    blocks: Vec<BlockBytes<A>, A>,
) -> Result<Store<A>, Fail> {
    let cache = cache_of(rt, alloc, blocks)?;
    match open_store(alloc, cache).ok() {
        Some(store) => Ok(store),
        None => Err(Fail::from("a good disk was not opened")),
    }
}

// What a store is asked for. A reading names the value that is wanted, or none.
#[derive(Clone, Copy)]
enum Ask<'a> {
    Put(&'a [u8], &'a [u8]),
    Get(&'a [u8], Option<&'a [u8]>),
    Delete(&'a [u8]),
    Reclaim(u32),
    Upgrade,
}

// What is asked, and what is wanted to be said to it.
type Turn<'a> = (Ask<'a>, Said);

fn kind_of<R: Refuses>(answer: Result<(), R>) -> Said {
    match answer {
        Ok(()) => Ok(()),
        Err(refusal) => Err(refusal.kind()),
    }
}

// Another value than is wanted is told as one that isn't read back.
fn read<A: Allocator + Copy>(store: &Store<A>, key: &[u8], value: Option<&[u8]>) -> Said {
    match store.get(key) {
        Ok(Some(got)) if Some(got.as_slice()) == value => Ok(()),
        Ok(None) if value.is_none() => Ok(()),
        Ok(_) => Err(RefusalKind::ReadBack),
        Err(refusal) => Err(refusal.kind()),
    }
}

fn said_to<A: Allocator + Copy>(store: &mut Store<A>, what: Ask<'_>) -> Said {
    match what {
        Put(key, value) => kind_of(store.put(WRITER, key, value)),
        Get(key, value) => read(store, key, value),
        Delete(key) => kind_of(store.delete(WRITER, key)),
        Reclaim(extent) => kind_of(store.reclaim(extent)),
        Upgrade => kind_of(store.upgrade()),
    }
}

// The first of these turns to which something else is said, and what that is.
fn walk<A: Allocator + Copy>(store: &mut Store<A>, turns: &[Turn<'_>]) -> Option<(usize, Said)> {
    for (at, (what, want)) in turns.iter().enumerate() {
        let got = said_to(store, *what);
        if got != *want {
            return Some((at, got));
        }
    }
    None
}

// A store on a new disk with these pieces over it, behind these turns.
fn behind<A: Allocator + Copy>(
    rt: &impl Abort,
    alloc: A,
    geometry: Geometry,
    pieces: &[Piece<'_>],
    turns: &[Turn<'_>],
) -> Result<Store<A>, Fail> {
    let mut store = opened(rt, alloc, disk_with(alloc, geometry, pieces)?)?;
    expect_eq(rt, &walk(&mut store, turns), &None);
    Ok(store)
}

// The blocks open, and then the store goes through these turns.
fn expect_opened(
    rt: &impl Abort,
    alloc: Global,
    blocks: Vec<BlockBytes>,
    turns: &[Turn<'_>],
) -> Result<(), Fail> {
    let mut store = opened(rt, alloc, blocks)?;
    let other = walk(&mut store, turns);
    drop(store);
    expect_eq(rt, &other, &None);
    Ok(())
}

const ZEROS: [u8; BLOCK] = [0; BLOCK];

// The first block that isn't one of a new disk, whose first one begins so and whose others are zeros.
fn first_used(blocks: &[BlockBytes], front: &[u8]) -> Option<usize> {
    for (no, block) in blocks.iter().enumerate() {
        let bytes = block.as_slice();
        let is_new = if no == 0 {
            bytes.starts_with(front)
        } else {
            bytes == ZEROS.as_slice()
        };
        if !is_new {
            return Some(no);
        }
    }
    None
}

// New disks of one index block and two extents, and of longer extents: how many blocks they have, and what they begin with.
const NEW: &[(Geometry, usize, &'static [u8])] = &[
    (SMALL, 35, b"FSTCHUNK\0\0\0\x01\0\0\0\x01\0\0\0\x02"),
    (
        OF_LONGER,
        131,
        b"FSTCHUNK\0\0\0\x02\0\0\0\x01\0\0\0\x02\0\0\0\x40",
    ),
];

fn expect_new(rt: &impl Abort, alloc: Global) -> Result<(), Fail> {
    for (geometry, count, front) in NEW {
        let blocks = made(alloc, *geometry)?;
        let used = first_used(&blocks, front);
        expect_eq(rt, &(blocks.len(), used), &(*count, None));
    }
    Ok(())
}

#[test]
fn new_disks_begin_with_a_superblock_and_are_zeros(rt: HostRuntime) -> Result<(), Fail> {
    expect_new(&rt, rt.alloc())
}

// How many index blocks and extents, and which format, no disk may have together.
const REFUSED: &[(u32, u32, Format)] = &[
    (0, 2, Format::One),
    (17, 2, Format::One),
    (1, 1, Format::One),
    (1, 255, Format::One),
    (1, 2, Format::Two { length: 65 }),
    (1, 64, Format::Two { length: 64 }),
];

fn expect_refused(rt: &impl Abort, alloc: Global) {
    for (index, extents, format) in REFUSED {
        let geometry = Geometry {
            index: *index,
            extents: *extents,
            format: *format,
        };
        let refusal = make(alloc, geometry).err();
        expect_eq(rt, &refusal, &Some(MakeRefusal::Geometry));
    }
}

#[test]
fn disks_that_none_may_be_divided_like_are_refused(rt: HostRuntime) -> Result<(), Fail> {
    expect_refused(&rt, rt.alloc());
    Ok(())
}
