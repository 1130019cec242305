//! Flushes: what the disk holds then, and devices that fail.
use super::*;
use crate::expecting::fails_still;
use patch_device::{Device, FaultyDevice, MemDevice, load};
use patch_store::flush;

// How many blocks a small disk has.
const COUNT: u32 = 35;

// How many writes a flush of the commands below begins.
const WRITES: u64 = 4;

// What a store of a small disk has gone through before it is flushed.
const TURNS: &[Turn<'static>] = &[
    (Put(b"a", &[1; 5000]), Ok(())),
    (Put(b"b", &[2]), Ok(())),
    (Delete(b"b"), Ok(())),
    (Put(b"b", &[3, 3]), Ok(())),
];

// The map of these commands.
const MAP: &[Turn<'static>] = &[
    (Get(b"a", Some(&[1; 5000])), Ok(())),
    (Get(b"b", Some(&[3, 3])), Ok(())),
];

// Of a new disk only the first block isn't zeros.
pub(super) fn write_first(device: &mut MemDevice, blocks: &[BlockBytes]) -> Result<(), Fail> {
    match blocks.first() {
        Some(first) if device.write(0, first.as_slice()).is_ok() => Ok(()),
        _ => Err(Fail::from("a device in memory refused a write")),
    }
}

fn write_new_disk(alloc: Global, device: &mut MemDevice) -> Result<(), Fail> {
    let blocks = made(alloc, SMALL)?;
    write_first(device, &blocks)
}

// A device that holds a new disk.
fn new_device(alloc: Global) -> Result<MemDevice, Fail> {
    let mut device = MemDevice::new(alloc, COUNT)?;
    write_new_disk(alloc, &mut device)?;
    Ok(device)
}

// The device's blocks open, and then the store goes through these turns.
pub(super) fn expect_on_disk<D: Device>(
    rt: &impl Abort,
    alloc: Global,
    device: &mut D,
    turns: &[Turn<'_>],
) -> Result<(), Fail> {
    match load(alloc, device).ok() {
        Some(blocks) => expect_opened(rt, alloc, blocks, turns),
        None => Err(Fail::from("a device was not loaded")),
    }
}

fn new_store(rt: &impl Abort, alloc: Global) -> Result<Store, Fail> {
    behind(rt, alloc, SMALL, &[], TURNS)
}

// Flushes the commands to the device, all of them.
fn expect_flushed<D: Device>(rt: &impl Abort, alloc: Global, device: &mut D) -> Result<(), Fail> {
    let mut store = new_store(rt, alloc)?;
    let is_flushed = flush(&mut store, device).is_ok();
    let live = store.cache().live();
    drop(store);
    expect_eq(rt, &(is_flushed, live), &(true, 0));
    Ok(())
}

fn expect_written(rt: &impl Abort, alloc: Global, device: &mut MemDevice) -> Result<(), Fail> {
    let before = device.writes().len() as u64;
    expect_flushed(rt, alloc, device)?;
    let writes = device.writes().len() as u64;
    expect_eq(rt, &writes, &before.saturating_add(WRITES));
    expect_on_disk(rt, alloc, device, MAP)
}

#[test]
fn a_flushed_disk_is_opened_again(rt: HostRuntime) -> Result<(), Fail> {
    let mut device = new_device(rt.alloc())?;
    let ended = expect_written(&rt, rt.alloc(), &mut device);
    drop(device);
    ended
}

// Flushes the commands to the device, of which this call fails: it is tried again. Whether it was met.
fn flush_over<D: Device>(
    rt: &impl Abort,
    alloc: Global,
    device: &mut D,
    at: u64,
) -> Result<bool, Fail> {
    expect_flushed(rt, alloc, device)?;
    let met = !fails_still(device, at);
    expect_on_disk(rt, alloc, device, MAP)?;
    Ok(met)
}

// The call fails landing, or not.
fn flush_over_a_fault(rt: &impl Abort, alloc: Global, at: u64, lands: bool) -> Result<bool, Fail> {
    let mut device = FaultyDevice::new(new_device(alloc)?, at, lands);
    let met = flush_over(rt, alloc, &mut device, at);
    drop(device);
    met
}

// How many calls of a flush can fail, each in its turn, until none is left.
fn count_faults(rt: &impl Abort, alloc: Global, lands: bool) -> Result<u64, Fail> {
    for at in 0..1000 {
        if !flush_over_a_fault(rt, alloc, at, lands)? {
            return Ok(at);
        }
    }
    Err(Fail::from("there was no end of calls"))
}

#[test]
fn a_write_that_fails_once_is_tried_again(rt: HostRuntime) -> Result<(), Fail> {
    for lands in [false, true] {
        expect_eq(&rt, &count_faults(&rt, rt.alloc(), lands)?, &WRITES);
    }
    Ok(())
}
