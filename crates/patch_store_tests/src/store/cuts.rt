//! Cuts of the power while puts are brought to a disk with a write cache: whichever of the loose writes have landed, what is left
//! opens, and the value is there once the last of them was done.
use super::flights::{PUT, VALUE};
use super::*;
use patch_device::{Device, VolatileDevice};
use patch_store::flush;
use patch_testing::{Event, cuts_of, device_behind};

// A put of a new store, and after how many cuts the value is there: behind the superblock and its sync, and then behind each write and
// each sync of the put.
#[derive(Clone, Copy)]
struct Row<'a> {
    turns: &'a [Turn<'a>],
    key: &'a [u8],
    value: &'a [u8],
    present: &'a [u32],
}

// A frame of one block, its pointer, and its slot.
const OF_ONE_BLOCK: Row<'static> = Row {
    turns: &[(Put(b"k", &[1, 2]), Ok(()))],
    key: b"k",
    value: &[1, 2],
    present: &[0, 0, 0, 0, 0, 1, 1],
};

// A frame of four blocks, which are written together.
const OF_FOUR_BLOCKS: Row<'static> = Row {
    turns: PUT,
    key: b"a",
    value: &VALUE,
    present: &[0, 0, 0, 0, 0, 0, 0, 0, 1, 1],
};

// Whether the store of these blocks has the value. It has to open, and to have the whole value or none.
fn has_value(
    rt: &impl Abort,
    alloc: Global,
    row: &Row<'_>,
    blocks: Vec<BlockBytes>,
) -> Result<bool, Fail> {
    let store = opened(rt, alloc, blocks)?;
    let present = read(&store, row.key, Some(row.value)).is_ok();
    let absent = read(&store, row.key, None).is_ok();
    drop(store);
    expect_eq(rt, &present, &!absent);
    Ok(present)
}

// After how many of these cuts the value is there.
fn count_present(
    rt: &impl Abort,
    alloc: Global,
    row: &Row<'_>,
    cuts: Vec<Vec<BlockBytes>>,
) -> Result<u32, Fail> {
    let mut count = 0u32;
    for blocks in cuts {
        if has_value(rt, alloc, row, blocks)? {
            count = count.saturating_add(1);
        }
    }
    Ok(count)
}

fn expect_cuts(
    rt: &impl Abort,
    alloc: Global,
    row: &Row<'_>,
    events: &[Event],
) -> Result<(), Fail> {
    expect_eq(rt, &events.len(), &row.present.len().saturating_add(1));
    for (at, present) in row.present.iter().enumerate() {
        let device = device_behind(alloc, 35, events.get(..at + 2).unwrap_or(&[]))?;
        let cuts = cuts_of(alloc, &device);
        drop(device);
        let count = count_present(rt, alloc, row, cuts?)?;
        expect_eq(rt, &(at, count), &(at, *present));
    }
    Ok(())
}

// Brings the put to a disk with a write cache that has got a new disk's superblock.
fn flush_put(
    rt: &impl Abort,
    alloc: Global,
    row: &Row<'_>,
    device: &mut VolatileDevice,
) -> Result<(), Fail> {
    let mut store = behind(rt, alloc, SMALL, &[], row.turns)?;
    let flushed = flush(&mut store, device).is_ok();
    drop(store);
    expect_eq(rt, &flushed, &true);
    Ok(())
}

// Brings a new disk's superblock to the device.
fn begin(device: &mut VolatileDevice, blocks: &[BlockBytes]) -> bool {
    match blocks.first() {
        Some(block) => device.write(0, block.as_slice()).is_ok() && device.sync().is_ok(),
        None => false,
    }
}

fn cut_put(
    rt: &impl Abort,
    alloc: Global,
    row: &Row<'_>,
    device: &mut VolatileDevice,
) -> Result<(), Fail> {
    let blocks = made(alloc, SMALL)?;
    let begun = begin(device, &blocks);
    expect_eq(rt, &begun, &true);
    flush_put(rt, alloc, row, device)?;
    expect_cuts(rt, alloc, row, device.events())
}

#[test]
fn whatever_a_cut_leaves_of_a_put_opens(rt: HostRuntime) -> Result<(), Fail> {
    for row in &[OF_ONE_BLOCK, OF_FOUR_BLOCKS] {
        let mut device = VolatileDevice::new(rt.alloc(), 35)?;
        let cut = cut_put(&rt, rt.alloc(), row, &mut device);
        drop(device);
        cut?;
    }
    Ok(())
}
