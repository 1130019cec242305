//! Puts that win room back, at need on disks of four extents of 16 blocks, and ahead of it.
use patch_cache::Cache;
use patch_frame::{Format, Geometry};
use patch_model::{BlockBytes, MAX_BLOCKS, OutOfMemory, WriterNo};
use patch_room::put;
use patch_store::{PutRefusal, Store, make};
use std::alloc::Global;
use std::fmt::Debug;
use std::process::Abort;
use std::test::Fail;

mod ahead;

const WRITER: WriterNo = WriterNo(0);

const OF_FOUR: Geometry = Geometry {
    index: 1,
    extents: 4,
    format: Format::One,
};

// The block of the pointer records, and those of four extents that are full and were never emptied.
const POINTERS: usize = 2;

static FULL: [u8; 32] = [
    0, 0, 0, 0, 0, 1, 0, 0, 0, 0, 0, 0, 0, 1, 0, 0, 0, 0, 0, 0, 0, 1, 0, 0, 0, 0, 0, 0, 0, 1, 0, 0,
];

// The longest value that there may be: two such frames don't fit an extent.
static LONGEST: [u8; 32_768] = [0x61; 32_768];

// Ends the test, telling both, unless what came is what is wanted.
fn expect_eq<T: PartialEq + Debug>(rt: &impl Abort, got: &T, want: &T) {
    assert_eq!(rt; *got, *want);
}

// The blocks of a new disk, with these pointer records.
fn blocks_with(
    alloc: Global,
    geometry: Geometry,
    records: &[u8],
) -> Result<Vec<BlockBytes>, OutOfMemory> {
    let Ok(mut blocks) = make(alloc, geometry) else {
        return Err(OutOfMemory);
    };
    if let Some(block) = blocks.get_mut(POINTERS) {
        if records.len() <= 32 {
            block.write(0, records);
        }
    }
    Ok(blocks)
}

// The store of a new disk with these pointer records.
fn opened(
    rt: &impl Abort,
    alloc: Global,
    geometry: Geometry,
    records: &[u8],
) -> Result<Store, Fail> {
    let blocks = blocks_with(alloc, geometry, records)?;
    assert!(rt; !blocks.is_empty() && blocks.len() <= MAX_BLOCKS);
    let cache = Cache::open(alloc, blocks)?;
    match Store::open(alloc, cache).ok() {
        Some(store) => Ok(store),
        None => Err(Fail::from("a good disk was not opened")),
    }
}

// Whether the key has just this value.
fn has_value(store: &Store, key: &[u8], value: &[u8]) -> bool {
    match store.get(key) {
        Ok(Some(got)) => got.as_slice() == value,
        _ => false,
    }
}

// How many values of 5000 bytes, each of one byte more than the one before, are put under this key one after another.
fn overwrites(store: &mut Store, key: &[u8], count: u8) -> u8 {
    let mut done = 0u8;
    for value in 0..count {
        if put(store, WRITER, key, &[value; 5000]).is_err() {
            break;
        }
        done = done.saturating_add(1);
    }
    done
}

// 300 overwrites of two keys, beside one that stays, on a disk that has room for less than 50 such frames.
fn expect_overwrites(rt: &impl Abort, store: &mut Store) {
    expect_eq(rt, &put(store, WRITER, b"stays", &[9; 5000]), &Ok(()));
    expect_eq(rt, &overwrites(store, b"a", 150), &150);
    expect_eq(rt, &overwrites(store, b"b", 150), &150);
    expect_eq(rt, &has_value(store, b"a", &[149; 5000]), &true);
    expect_eq(rt, &has_value(store, b"b", &[149; 5000]), &true);
    expect_eq(rt, &has_value(store, b"stays", &[9; 5000]), &true);
}

#[test]
fn a_small_disk_is_overwritten_many_times(rt: HostRuntime) -> Result<(), Fail> {
    let mut store = opened(&rt, rt.alloc(), OF_FOUR, &[])?;
    expect_overwrites(&rt, &mut store);
    drop(store);
    Ok(())
}

#[test]
fn two_extents_are_won_back_where_none_was_empty(rt: HostRuntime) -> Result<(), Fail> {
    let mut store = opened(&rt, rt.alloc(), OF_FOUR, &FULL)?;
    expect_eq(
        &rt,
        &store.put(WRITER, b"a", b"v"),
        &Err(PutRefusal::NoSpace),
    );
    expect_overwrites(&rt, &mut store);
    drop(store);
    Ok(())
}

// Three of the longest values are live: no extent has room for another beside what is live in it, but for a short one there is.
fn expect_full(rt: &impl Abort, store: &mut Store) {
    expect_eq(rt, &put(store, WRITER, b"a", &LONGEST), &Ok(()));
    expect_eq(rt, &put(store, WRITER, b"b", &LONGEST), &Ok(()));
    expect_eq(rt, &put(store, WRITER, b"c", &LONGEST), &Ok(()));
    expect_eq(
        rt,
        &put(store, WRITER, b"d", &LONGEST),
        &Err(PutRefusal::NoSpace),
    );
    expect_eq(
        rt,
        &put(store, WRITER, b"a", &LONGEST),
        &Err(PutRefusal::NoSpace),
    );
    expect_eq(rt, &put(store, WRITER, b"d", b"short"), &Ok(()));
    expect_eq(rt, &has_value(store, b"a", &LONGEST), &true);
    expect_eq(rt, &has_value(store, b"d", b"short"), &true);
    expect_eq(
        rt,
        &put(store, WRITER, b"", b"v"),
        &Err(PutRefusal::KeyLength),
    );
}

#[test]
fn a_disk_is_full_beyond_its_bound(rt: HostRuntime) -> Result<(), Fail> {
    let mut store = opened(&rt, rt.alloc(), OF_FOUR, &[])?;
    expect_full(&rt, &mut store);
    drop(store);
    Ok(())
}
