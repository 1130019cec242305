//! Disks that open, and disks that don't: which fault each has, and that the cache comes back.
use super::*;
use linked_list_allocator::LocalHeap;
use patch_store::{EntryReport, ExtentReport};
use patch_testing::{fill, hole_of};

// How many bytes the heap has: a cache of 35 blocks, and more.
const HEAP: usize = 262_144;

const SLOT_BYTES: &[u8] = b"\x01\x01\0\0\0\0\0\0\0\0\0\0\0\0\0\x13k";

// The frame of key `k` with bytes 1 and 2, its pointer record and its slot.
const WORKED: &[Piece<'static>] = &[
    (3, 0, b"FCH1\x01\0\0\0\0\0\0\x02k\x01\x021HCF"),
    (2, 0, b"\0\0\0\0\0\0\0\x13"),
    (1, 0, SLOT_BYTES),
];

// What a disk holds besides that of a new one, and the turns that a store on it goes through.
type Good = (&'static [Piece<'static>], &'static [Turn<'static>]);

// A new disk holds no key; a slot gives its key the value of its frame; and the key is deleted.
const GOOD: &[Good] = &[
    (&[], &[(Get(b"k", None), Ok(()))]),
    (
        WORKED,
        &[
            (Get(b"k", Some(&[1, 2])), Ok(())),
            (Get(b"l", None), Ok(())),
            (Delete(b"k"), Ok(())),
            (Get(b"k", None), Ok(())),
        ],
    ),
];

fn expect_good(rt: &impl Abort, alloc: Global) -> Result<(), Fail> {
    for (pieces, turns) in GOOD {
        expect_opened(rt, alloc, disk_with(alloc, SMALL, pieces)?, turns)?;
    }
    Ok(())
}

#[test]
fn slots_give_their_keys_the_values_of_their_frames(rt: HostRuntime) -> Result<(), Fail> {
    expect_good(&rt, rt.alloc())
}

// Pieces over the worked disk, and the fault that it has then.
type Damage = (&'static [Piece<'static>], OpenFault);

const DAMAGES: &[Damage] = &[
    // In the second row the pointers are bad too, and tested later.
    (&[(0, 0, &[0])], OpenFault::BadSuper),
    (&[(0, 0, &[0]), (2, 16, &[1])], OpenFault::BadSuper),
    (&[(2, 16, &[1])], OpenFault::BadPointer),
    (&[(2, 4, &[0, 1, 0, 1])], OpenFault::BadPointer),
    (&[(1, 48, &[1])], OpenFault::BadSlot(0)),
    (&[(1, 3, &[2])], OpenFault::BadSlot(0)),
    (&[(1, 4032, &[2])], OpenFault::BadSlot(63)),
    // Another generation, a pointer before the frame's end, another key, and bytes that are no frame. In the last of these rows the
    // next slot is bad too, and tested later.
    (&[(1, 7, &[1])], OpenFault::BadFrame(0)),
    (&[(2, 7, &[18])], OpenFault::BadFrame(0)),
    (&[(3, 12, b"l")], OpenFault::BadFrame(0)),
    (&[(3, 0, &[0])], OpenFault::BadFrame(0)),
    (&[(3, 0, &[0]), (1, 64, &[2])], OpenFault::BadFrame(0)),
    // A key in two slots.
    (&[(1, 64, SLOT_BYTES)], OpenFault::DuplicateKey(1)),
];

// Why the blocks aren't opened, and what the cache has that comes back: so many blocks, and whether there are no steps.
fn refused(
    rt: &impl Abort,
    alloc: Global,
    blocks: Vec<BlockBytes>,
) -> Result<Option<(OpenFault, u32, bool)>, OutOfMemory> {
    let cache = cache_of(rt, alloc, blocks)?;
    match open_store(alloc, cache).err() {
        None => Ok(None),
        Some((cache, fault)) => {
            let told = (fault, cache.blocks(), cache.trace().is_empty());
            drop(cache);
            Ok(Some(told))
        }
    }
}

// The worked disk with these pieces over it.
fn damaged(alloc: Global, pieces: &[Piece<'_>]) -> Result<Vec<BlockBytes>, OutOfMemory> {
    let mut blocks = disk_with(alloc, SMALL, WORKED)?;
    lay_pieces(&mut blocks, pieces);
    Ok(blocks)
}

fn expect_damages(rt: &impl Abort, alloc: Global) -> Result<(), Fail> {
    for (pieces, fault) in DAMAGES {
        let told = refused(rt, alloc, damaged(alloc, pieces)?)?;
        expect_eq(rt, &told, &Some((*fault, 35, true)));
    }
    Ok(())
}

#[test]
fn damaged_disks_are_refused_and_their_caches_come_back(rt: HostRuntime) -> Result<(), Fail> {
    expect_damages(&rt, rt.alloc())
}

fn one_short(alloc: Global) -> Result<Vec<BlockBytes>, OutOfMemory> {
    let mut blocks = made(alloc, SMALL)?;
    let _last = blocks.pop();
    Ok(blocks)
}

fn expect_size(rt: &impl Abort, alloc: Global) -> Result<(), Fail> {
    let told = refused(rt, alloc, one_short(alloc)?)?;
    expect_eq(rt, &told, &Some((OpenFault::FileSize, 34, true)));
    Ok(())
}

#[test]
fn a_superblock_and_a_count_that_differ_are_refused(rt: HostRuntime) -> Result<(), Fail> {
    expect_size(&rt, rt.alloc())
}

// Opens what was refused again. Why it was refused, and whether it is opened now.
fn open_again<A: Allocator + Copy>(
    alloc: A,
    first: Result<Store<A>, (Cache<A>, OpenFault)>,
) -> Option<(OpenFault, bool)> {
    let (cache, fault) = first.err()?;
    let again = open_store(alloc, cache);
    let opens = again.is_ok();
    drop(again);
    Some((fault, opens))
}

// Opens where only a hole of this size is left, and again with memory where that is refused.
fn open_twice(
    rt: &impl Abort,
    alloc: Global,
    heap: &LocalHeap,
    hole: usize,
) -> Result<Option<(OpenFault, bool)>, OutOfMemory> {
    let cache = cache_of(rt, heap, disk_with(heap, SMALL, WORKED)?)?;
    let Ok(ballast) = fill(alloc, heap, hole) else {
        drop(cache);
        return Err(OutOfMemory);
    };
    let first = open_store(heap, cache);
    drop(ballast);
    Ok(open_again(heap, first))
}

// Each hole is larger than the one before it, so that one allocation more succeeds now and then, until all do.
fn refuse_each(rt: &impl Abort, alloc: Global, heap: &LocalHeap) -> Result<(), Fail> {
    for turn in 0..400usize {
        let told = open_twice(rt, alloc, heap, hole_of(turn))?;
        expect_eq(rt, &heap.used(), &0);
        if told.is_none() {
            assert!(rt; turn > 0);
            return Ok(());
        }
        expect_eq(rt, &told, &Some((OpenFault::OutOfMemory, true)));
    }
    Err(Fail::from("refused in the largest hole"))
}

#[test]
fn opening_is_refused_and_repeated(rt: HostRuntime) -> Result<(), Fail> {
    let heap = LocalHeap::new(rt.alloc(), HEAP)?;
    refuse_each(&rt, rt.alloc(), &heap)
}

fn told(entry: Option<EntryReport>) -> Option<(u8, usize, u32)> {
    let entry = entry?;
    let key = entry.key.as_slice();
    Some((*key.first()?, key.len(), entry.length))
}

// Behind those that there are there is none.
#[test]
fn entries_and_extents_are_told_by_their_numbers(rt: HostRuntime) -> Result<(), Fail> {
    let store = opened(&rt, rt.alloc(), disk_with(rt.alloc(), SMALL, WORKED)?)?;
    let entries = [told(store.entry(0)), told(store.entry(1))];
    let extents = [store.extent(0), store.extent(1), store.extent(2)];
    drop(store);
    expect_eq(&rt, &entries, &[Some((b'k', 1, 2)), None]);
    let filled = ExtentReport {
        generation: 0,
        pointer: 19,
        live: 19,
    };
    let empty = ExtentReport {
        generation: 0,
        pointer: 0,
        live: 0,
    };
    expect_eq(&rt, &extents, &[Some(filled), Some(empty), None]);
    Ok(())
}
